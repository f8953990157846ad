//! A theory and a list of events once more, for an engine beside the one that has them.
ghost use Rattle.std.specs.Prelude.{◌≡◌, ◌+◌, ◌≤◌, IfOk, length, map};
ghost use Rattle.ec_axioms.specs.Events.{event_of};
ghost use Rattle.ec_check.specs.WellFormed.{IsWellFormed};
ghost use Rattle.ec_store.specs.Store.{history_of};

use crate::log_record::copied_event;
use ec_axioms::{Event, Steps};
use ec_check::{Checked, check};
use ec_lists::NoMemory;
use ec_moment::Moment;
use ec_rows::TimeRow;
use ec_store::EventStore;
use ec_terms::{
    Exclusive, Initial, Literal, PatArg, Pattern, Rule, Sequence, Strong, Test, Theory, TimeDecl,
};
use std::alloc::Global;
use std::sync::ledger::Ledger;

/// Values of which another one takes memory.
trait CopiedIn: Drop {
    /// An equal value. `Err`: memory ran out.
    fn copied_in(&self, alloc: Global) -> Result<Self, NoMemory>
        ensures { IfOk result (λ copy. copy ≡ self.now) };
}

impl<A: CopiedIn> CopiedIn for Sequence<A> {
    fn copied_in(&self, alloc: Global) -> Result<Sequence<A>, NoMemory> {
        let mut copies = Vec::with_capacity(alloc, self.len())?;
        for item in self.as_slice() {
            copies.push(item.copied_in(alloc)?)?;
        }
        Ok(Sequence::from_vec(copies))
    }
}

impl CopiedIn for PatArg {
    fn copied_in(&self, _alloc: Global) -> Result<PatArg, NoMemory> {
        Ok(match self {
            PatArg::Var(number) => PatArg::Var(*number),
            PatArg::Any => PatArg::Any,
            PatArg::Fixed(arg) => PatArg::Fixed(arg.borrow().to_arg()),
        })
    }
}

impl CopiedIn for Pattern {
    fn copied_in(&self, alloc: Global) -> Result<Pattern, NoMemory> {
        let args = self.args.copied_in(alloc)?;
        Ok(Pattern {
            name: self.name.copied(),
            args,
        })
    }
}

impl CopiedIn for Test {
    fn copied_in(&self, alloc: Global) -> Result<Test, NoMemory> {
        Ok(Test {
            op: self.op,
            left: self.left.copied_in(alloc)?,
            right: self.right.copied_in(alloc)?,
        })
    }
}

impl CopiedIn for Literal {
    fn copied_in(&self, alloc: Global) -> Result<Literal, NoMemory> {
        Ok(Literal {
            positive: self.positive,
            prop: self.prop.copied_in(alloc)?,
        })
    }
}

impl CopiedIn for Rule {
    fn copied_in(&self, alloc: Global) -> Result<Rule, NoMemory> {
        Ok(Rule {
            clause: self.clause,
            kind: self.kind,
            event: self.event.copied_in(alloc)?,
            head: self.head.copied_in(alloc)?,
            tests: self.tests.copied_in(alloc)?,
            literals: self.literals.copied_in(alloc)?,
        })
    }
}

impl CopiedIn for Exclusive {
    fn copied_in(&self, alloc: Global) -> Result<Exclusive, NoMemory> {
        Ok(Exclusive {
            clause: self.clause,
            left: self.left.copied_in(alloc)?,
            right: self.right.copied_in(alloc)?,
        })
    }
}

impl CopiedIn for Strong {
    fn copied_in(&self, _alloc: Global) -> Result<Strong, NoMemory> {
        Ok(Strong {
            clause: self.clause,
            name: self.name.copied(),
            arity: self.arity,
        })
    }
}

impl CopiedIn for Initial {
    fn copied_in(&self, alloc: Global) -> Result<Initial, NoMemory> {
        Ok(Initial {
            clause: self.clause,
            prop: self.prop.copied_in(alloc)?,
        })
    }
}

impl CopiedIn for TimeDecl {
    fn copied_in(&self, _alloc: Global) -> Result<TimeDecl, NoMemory> {
        Ok(TimeDecl {
            clause: self.clause,
            kind: self.kind,
        })
    }
}

impl CopiedIn for Theory {
    fn copied_in(&self, alloc: Global) -> Result<Theory, NoMemory> {
        Ok(Theory {
            rules: self.rules.copied_in(alloc)?,
            exclusives: self.exclusives.copied_in(alloc)?,
            strongs: self.strongs.copied_in(alloc)?,
            initials: self.initials.copied_in(alloc)?,
            times: self.times.copied_in(alloc)?,
        })
    }
}

/// A well-formed theory once more. `Err`: memory ran out.
pub(crate) fn copied_checked(alloc: Global, theory: &Theory) -> Result<Checked, NoMemory>
    requires { IsWellFormed theory.now }
    ensures { IfOk result (λ copy. copy ≡ theory.now) }
{
    let theory = theory.copied_in(alloc)?;
    match check(theory) {
        Ok(copy) => Ok(copy),
        Err(_) => unreachable!(),
    }
}

/// The events of a store once more, in order. `Err`: memory ran out. Each event is one step.
pub(crate) fn copied_events<T: Moment, X: TimeRow<T>, L: Ledger>(
    alloc: Global,
    store: &EventStore<T, X>,
    steps: &mut Steps<L>,
) -> Result<Vec<Event<T>>, NoMemory>
    ensures events { IfOk result (λ list. map (event_of T.rank) list.items ≡ history_of T.rank store.now.events) }
    ensures steps { steps.new ≤ steps.old + length store.now.events }
{
    let mut list = Vec::with_capacity(alloc, store.len())?;
    let mut cursor = store.first();
    while let Some(found) = store.next(cursor) {
        list.push(copied_event(alloc, store.event(found.0, steps))?)?;
        cursor = found.1;
    }
    Ok(list)
}
