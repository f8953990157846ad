//! What the entries of the events at the present instant do.
ghost use Rattle.std.specs.Prelude.{◌≡◌, [], ◌∷◌, ◌++◌, OnOk, if◌then◌else◌};
ghost use Rattle.ec_cone.specs.Cone.{has_number};
ghost use Rattle.ec_pass.specs.Looked.{HasLooked, bit_for, if_initiates, if_terminates};

use crate::present::Present;
use ec_axioms::Steps;
use ec_cone::Cone;
use ec_context::{Entry, evaluate};
use ec_lists::NoMemory;
use ec_moment::Moment;
use ec_terms::Kind;
use std::sync::ledger::Ledger;

/// `1` for an entry that is active, `0` for another.
fn bit(active: bool) -> u8
    ensures { result ≡ bit_for active }
{
    if active { b'1' } else { b'0' }
}

/// Adds the bit of an entry, if its rule is of a cone.
fn add_bit(bits: &mut Vec<u8>, cone: &Cone, rule: u16, active: bool) -> Result<(), NoMemory>
    ensures { OnOk result (bits.new.items ≡ bits.old.items ++ (if has_number cone.now rule then bit_for active ∷ [] else [])) }
{
    if cone.has_rule(rule) {
        bits.push(bit(active))?;
    }
    Ok(())
}

impl Present {
    /// Notes what an entry does, if it is active.
    fn note(&mut self, entry: &Entry, active: bool) -> Result<(), NoMemory>
        ensures props { self.new.props ≡ self.old.props }
        ensures current { self.new.current ≡ self.old.current }
        ensures started { OnOk result (self.new.started.items ≡ self.old.started.items ++ (if active then if_initiates entry.now.kind entry.now.head else [])) }
        ensures ended { OnOk result (self.new.ended.items ≡ self.old.ended.items ++ (if active then if_terminates entry.now.kind entry.now.head else [])) }
    {
        if active {
            match entry.kind {
                Kind::Initiates => self.started.push(entry.head)?,
                Kind::Terminates => self.ended.push(entry.head)?,
            }
        }
        Ok(())
    }

    /// Takes in what some entries of an event at the present instant do, and adds the bits of those in a cone.
    pub(crate) fn look_at<T: Moment, L: Ledger>(
        &mut self,
        entries: &[Entry],
        at: T,
        cone: &Cone,
        bits: &mut Vec<u8>,
        steps: &mut Steps<L>,
    ) -> Result<(), NoMemory>
        ensures props { self.new.props ≡ self.old.props }
        ensures looked { OnOk result (HasLooked self.old self.new cone.now (T.rank at) entries.now bits.old.items bits.new.items) }
    {
        for entry in entries {
            let active = evaluate(entry, at, &self.current, steps);
            self.note(entry, active)?;
            add_bit(bits, cone, entry.rule, active)?;
        }
        Ok(())
    }
}
