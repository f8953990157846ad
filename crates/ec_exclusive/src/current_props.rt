//! A set of properties among which those that are exclusive to another are found at once.
ghost use Rattle.std.specs.Prelude.{◌≡◌, ◌&&◌, ◌==◌, ℕ, [], None, false, IsSome, IfOk, OnOk, OnErr, if◌then◌else◌};
ghost use Rattle.ec_terms.specs.declared.ids.PropId.{PropId};
ghost use Rattle.ec_terms.specs.Matchable.{IsMatchable};
ghost use Rattle.ec_store.specs.Table.{prop_at};
ghost use Rattle.ec_numbered.specs.ByNumber.{kept_at};
ghost use Rattle.ec_numbered.specs.PropSet.{has_number};
ghost use Rattle.ec_exclusive.specs.CurrentProps.{HasForms, is_in};
ghost use Rattle.ec_exclusive.specs.Neighbours.{exclusive_at, form_at};

use crate::forms::{Form, form_of};
use crate::groups::{Groups, enter, leave, no_groups};
use crate::search::find_neighbours;
use ec_axioms::Current;
use ec_lists::NoMemory;
use ec_moment::Moment;
use ec_numbered::{ByNumber, PropSet};
use ec_store::PropTable;
use ec_terms::{PropId, Theory};
use std::alloc::Global;
use std::marker::Model;

/// A set of properties, by their numbers in a table: those that are current. It keeps what the theory says of each
/// member by itself, and no list of which members exclude which: these are found anew where they are asked for. So
/// it takes no more memory than its members, however many of them exclude each other.
#[derive(Drop)]
pub struct CurrentProps {
    forms: ByNumber<Form>,
    groups: Groups,
    alloc: Global,
}

impl Model for CurrentProps {
    ghost use Rattle.ec_exclusive.specs.CurrentProps.{AreGrouped, MemberForms, forms_in};

    ghost Value = { MemberForms };

    ghost view = { λ set. forms_in set.forms };

    ghost invariant = { λ set. AreGrouped set.forms set.groups };
}

impl CurrentProps {
    /// The set of no property. It takes no memory.
    pub fn new(alloc: Global) -> CurrentProps
        ensures { result ≡ [] }
    {
        CurrentProps {
            forms: ByNumber::new(alloc),
            groups: no_groups(alloc),
            alloc,
        }
    }

    /// Whether a property is a member.
    pub fn contains(&self, p: PropId) -> bool
        ensures { result ≡ is_in p.0 self.now }
    {
        self.forms.get(p).is_some()
    }

    /// Adds a property that the table keeps. `Err`: memory ran out, and all is as it was.
    pub fn enter(&mut self, theory: &Theory, props: &PropTable, p: PropId) -> Result<(), NoMemory>
        requires matchable { IsMatchable theory.now }
        requires kept { IsSome (prop_at p.0 props.now) }
        requires absent { is_in p.0 self.old ≡ false }
        ensures entered { OnOk result ((n : ℕ) → kept_at n self.new ≡ (if p.0 == n then form_at theory.now props.now p else kept_at n self.old)) }
        ensures err { OnErr result ((n : ℕ) → kept_at n self.new ≡ kept_at n self.old) }
    {
        let term = props.ground(p);
        self.forms.place(p)?;
        let form = form_of(self.alloc, theory, &term)?;
        enter(&mut self.groups, self.alloc, form.keys.as_slice(), p)?;
        self.forms.set(p, form);
        Ok(())
    }

    /// Takes a property out, if it is a member. It takes no memory.
    pub fn leave(&mut self, p: PropId)
        ensures { (n : ℕ) → kept_at n self.new ≡ (if p.0 == n then None else kept_at n self.old) }
    {
        if let Some(form) = self.forms.take(p) {
            leave(&mut self.groups, form.keys.as_slice(), p);
        }
    }

    /// The members that are exclusive to a property, which need not be a member itself. Only those members are looked
    /// at that have, for some declaration, the values that its two sides share. `Err`: memory ran out.
    pub fn exclusive_to(
        &self,
        theory: &Theory,
        props: &PropTable,
        p: PropId,
    ) -> Result<PropSet, NoMemory>
        requires matchable { IsMatchable theory.now }
        requires kept { IsSome (prop_at p.0 props.now) }
        requires forms { HasForms theory.now props.now self.now }
        ensures { IfOk result (λ found. (q : PropId) → has_number q.0 found.items ≡ (exclusive_at theory.now props.now p q && is_in q.0 self.now)) }
    {
        find_neighbours(&self.groups, theory, props, &props.ground(p), self.alloc)
    }
}

impl<T: Moment> Current<T> for CurrentProps {
    ghost is_current = { λ set n t. is_in n set };

    fn current(&self, p: PropId, at: T) -> bool {
        self.contains(p)
    }
}
