//! From one instant to the next: what was broken leaves, and then what was initiated enters.
ghost use Rattle.std.specs.Prelude.{◌≡◌, ◌&&◌, ◌||◌, not, ℕ, List, [], IsTrue, IsSome, OnOk};
ghost use Rattle.ec_terms.specs.declared.ids.PropId.{PropId};
ghost use Rattle.ec_terms.specs.declared.theory.Theory.{Theory};
ghost use Rattle.ec_terms.specs.Matchable.{IsMatchable};
ghost use Rattle.ec_store.specs.Table.{KeptProp, prop_at};
ghost use Rattle.ec_numbered.specs.PropSet.{has_number};
ghost use Rattle.ec_exclusive.specs.CurrentProps.{HasForms, is_in};
ghost use Rattle.ec_pass.specs.Settled.{excludes_any, is_settled};

use crate::present::Present;
use ec_exclusive::CurrentProps;
use ec_lists::NoMemory;
use ec_store::PropTable;
use ec_terms::{PropId, Theory};

/// Takes each of some properties out, if it is there.
fn leave_each(now: &mut CurrentProps, props: &[PropId])
    ensures members { (n : ℕ) → is_in n now.new ≡ (is_in n now.old && not (has_number n props.now)) }
    ensures forms { (theory : Theory) (table : List KeptProp) → HasForms theory table now.old → HasForms theory table now.new }
{
    for p in props {
        now.leave(*p);
    }
}

/// Takes out what is exclusive to some property that started. Each member is found and leaves at most once.
fn leave_exclusive(
    now: &mut CurrentProps,
    theory: &Theory,
    props: &PropTable,
    started: &[PropId],
) -> Result<(), NoMemory>
    requires matchable { IsMatchable theory.now }
    requires kept { (n : ℕ) → IsTrue (has_number n started.now) → IsSome (prop_at n props.now) }
    requires forms { HasForms theory.now props.now now.old }
    ensures members { OnOk result ((q : PropId) → is_in q.0 now.new ≡ (is_in q.0 now.old && not (excludes_any theory.now props.now started.now q))) }
    ensures forms { OnOk result (HasForms theory.now props.now now.new) }
{
    for p in started {
        let excluded = now.exclusive_to(theory, props, *p)?;
        leave_each(now, excluded.as_slice());
    }
    Ok(())
}

/// Puts each of some properties in, unless it is there.
pub(crate) fn enter_each(
    now: &mut CurrentProps,
    theory: &Theory,
    props: &PropTable,
    started: &[PropId],
) -> Result<(), NoMemory>
    requires matchable { IsMatchable theory.now }
    requires kept { (n : ℕ) → IsTrue (has_number n started.now) → IsSome (prop_at n props.now) }
    requires forms { HasForms theory.now props.now now.old }
    ensures members { OnOk result ((n : ℕ) → is_in n now.new ≡ (is_in n now.old || has_number n started.now)) }
    ensures forms { OnOk result (HasForms theory.now props.now now.new) }
{
    for p in started {
        if !now.contains(*p) {
            now.enter(theory, props, *p)?;
        }
    }
    Ok(())
}

impl Present {
    /// Goes on behind the present instant, all events of which were looked at. What ended leaves, and what is exclusive
    /// to something that started, be it started there itself; then what started enters. `Err`: memory ran out.
    pub(crate) fn settle(&mut self, theory: &Theory) -> Result<(), NoMemory>
        requires matchable { IsMatchable theory.now }
        requires kept { (n : ℕ) → IsTrue (has_number n self.old.started.items) → IsSome (prop_at n self.old.props) }
        requires forms { HasForms theory.now self.old.props self.old.current }
        ensures members { OnOk result ((q : PropId) → is_in q.0 self.new.current ≡ is_settled theory.now self.old.props self.old.current self.old.started.items self.old.ended.items q) }
        ensures forms { OnOk result (HasForms theory.now self.new.props self.new.current) }
        ensures props { self.new.props ≡ self.old.props }
        ensures started { OnOk result (self.new.started.items ≡ []) }
        ensures ended { OnOk result (self.new.ended.items ≡ []) }
    {
        leave_each(&mut self.current, self.ended.as_slice());
        leave_exclusive(
            &mut self.current,
            theory,
            &self.props,
            self.started.as_slice(),
        )?;
        enter_each(
            &mut self.current,
            theory,
            &self.props,
            self.started.as_slice(),
        )?;
        self.started.clear();
        self.ended.clear();
        Ok(())
    }
}
