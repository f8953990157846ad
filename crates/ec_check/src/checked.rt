//! Theories that are well formed.
ghost use Rattle.std.specs.Prelude.{◌≡◌, Some, None, IfOk, IfErr};
ghost use Rattle.ec_check.specs.Faults.{first_wrong, earlier_fault, IsFaultOf, IsFirstFault};
ghost use Rattle.ec_check.specs.Numbering.{IsNumbered};
ghost use Rattle.ec_check.specs.declared.fault.CheckFault.{CheckFault};

use crate::clauses::{exclusives_fault, initials_fault, strongs_fault, times_fault};
use crate::fault::CheckFault;
use crate::rules::rules_fault;
use ec_terms::{Theory, TimeKind, time_of};
use std::marker::Model;

/// A theory that is well formed and within all limits. Only `check` makes one.
#[derive(Drop)]
pub struct Checked {
    theory: Theory,
}

impl Model for Checked {
    ghost use Rattle.ec_terms.specs.declared.theory.Theory.{Theory};
    ghost use Rattle.ec_check.specs.WellFormed.{IsWellFormed};

    ghost Value = { Theory };

    ghost view = { λ c. c.theory };

    ghost invariant = { λ c. IsWellFormed c.theory };
}

/// The fault in the earlier clause.
#[tactic(auto, unfolding(crate::specs::Faults::earlier_fault))]
fn earlier_fault(first: Option<CheckFault>, second: Option<CheckFault>) -> Option<CheckFault>
    ensures { result ≡ earlier_fault first second }
{
    match first {
        None => second,
        Some(a) => match second {
            None => Some(a),
            Some(b) => {
                if b.clause() < a.clause() {
                    Some(b)
                } else {
                    Some(a)
                }
            }
        },
    }
}

/// The first clause of a theory with a fault, and its first fault.
#[tactic(auto, unfolding(crate::specs::Faults::first_wrong))]
fn first_wrong(theory: &Theory) -> Option<CheckFault>
    requires { IsNumbered theory.now }
    ensures { result ≡ first_wrong theory.now }
{
    let rules = rules_fault(theory.rules.as_slice());
    let exclusives = exclusives_fault(theory.exclusives.as_slice());
    let strongs = strongs_fault(theory.strongs.as_slice());
    let initials = initials_fault(theory.initials.as_slice());
    let times = times_fault(theory.times.as_slice());
    let properties = earlier_fault(strongs, earlier_fault(initials, times));
    earlier_fault(rules, earlier_fault(exclusives, properties))
}

/// Checks that a numbered theory is well formed. A fault comes exactly when the theory has one: of the
/// clauses with a fault that with the least number is told, with its first fault. It takes no memory.
pub fn check(theory: Theory) -> Result<Checked, CheckFault>
    requires numbered { IsNumbered theory }
    ensures ok { IfOk result (λ checked. (checked ≡ theory) × (first_wrong theory ≡ None)) }
    ensures sound { IfOk result (λ checked. (fault : CheckFault) → IsFaultOf theory fault → ⊥) }
    ensures err { IfErr result (λ fault. first_wrong theory ≡ Some fault) }
    ensures first { IfErr result (λ fault. IsFirstFault theory fault) }
{
    match first_wrong(&theory) {
        Some(fault) => Err(fault),
        None => Ok(Checked { theory }),
    }
}

impl Checked {
    ghost use Rattle.ec_terms.specs.Domain.{time_of};
    ghost use Rattle.ec_terms.specs.Matchable.{IsMatchable};
    ghost use Rattle.ec_check.specs.WellFormed.{IsWellFormed};

    /// The theory, well formed.
    pub fn theory(&self) -> &Theory
        ensures theory { result.now ≡ self.now }
        ensures well_formed { IsWellFormed self.now }
        ensures matchable { IsMatchable self.now }
    {
        &self.theory
    }

    /// The kind of the theory's time.
    pub fn time(&self) -> TimeKind
        ensures { result ≡ time_of self.now }
    {
        time_of(&self.theory)
    }
}
