//! The faults of declarations.
ghost use Rattle.std.specs.Prelude.{◌≡◌, ◌&&◌, [], pos, int_le};
ghost use Rattle.std.specs.List.{All};
ghost use Rattle.ec_terms.specs.declared.theory.Exclusive.{Exclusive};
ghost use Rattle.ec_terms.specs.declared.theory.Initial.{Initial};
ghost use Rattle.ec_check.specs.Faults.{exclusive_fault, exclusive_places, has_few_variables, strong_fault, initial_fault, least_variable, time_fault, first_fault};
ghost use Rattle.ec_check.specs.Numbering.{AreWithoutGap};

use crate::fault::{CheckFault, Many};
use crate::limits::{MOST_EXCLUSIVES, MOST_INITIALS, MOST_STRONGS, MOST_TIMES};
use crate::rules::{both, has_no_any, is_narrow, is_small, stands_in, unbound_fault};
use ec_terms::{Exclusive, Initial, MOST_ARGS, MOST_VARIABLES, Pattern, Strong, TimeDecl};

/// Whether an exclusive declaration has at most 16 different variables.
#[tactic(auto, using(crate::proofs::FewVariables::few_in_exclusive))]
fn has_few_variables(declaration: &Exclusive) -> bool
    requires { AreWithoutGap (exclusive_places declaration.now) }
    ensures { result ≡ has_few_variables (exclusive_places declaration.now) }
{
    both(is_small(&declaration.left), is_small(&declaration.right))
}

/// Whether a pattern by itself has at most 16 different variables.
#[tactic(auto, using(crate::proofs::FewVariables::few_in_places))]
fn has_few_in_pattern(pattern: &Pattern) -> bool
    requires { AreWithoutGap pattern.now.args }
    ensures { result ≡ has_few_variables pattern.now.args }
{
    is_small(pattern)
}

/// The first fault of an exclusive declaration behind others.
#[tactic(auto, unfolding(crate::specs::Faults::exclusive_fault))]
fn exclusive_fault(earlier: &[Exclusive], declaration: &Exclusive) -> Option<CheckFault>
    requires { AreWithoutGap (exclusive_places declaration.now) }
    ensures { result ≡ exclusive_fault earlier.now declaration.now }
{
    let clause = declaration.clause;
    let narrow = both(is_narrow(&declaration.left), is_narrow(&declaration.right));
    let few = has_few_variables(declaration);
    if earlier.len() >= MOST_EXCLUSIVES {
        Some(CheckFault::TooMany(Many::Exclusives, clause))
    } else if !narrow {
        Some(CheckFault::Arity(clause))
    } else if !few {
        Some(CheckFault::TooMany(Many::Variables, clause))
    } else {
        None
    }
}

/// Whether a pattern may have this number of arguments.
fn is_count(arity: i64) -> bool
    ensures { result ≡ (int_le (pos 0) arity && int_le arity (pos MOST_ARGS)) }
{
    0 <= arity && arity <= MOST_ARGS as i64
}

/// The first fault of a strong declaration behind others.
#[tactic(auto, unfolding(crate::specs::Faults::strong_fault))]
fn strong_fault(earlier: &[Strong], declaration: &Strong) -> Option<CheckFault>
    ensures { result ≡ strong_fault earlier.now declaration.now }
{
    let clause = declaration.clause;
    if earlier.len() >= MOST_STRONGS {
        Some(CheckFault::TooMany(Many::Strongs, clause))
    } else if !is_count(declaration.arity) {
        Some(CheckFault::Arity(clause))
    } else {
        None
    }
}

/// The least variable of a pattern whose variables are below 16.
#[tactic(auto, using(crate::proofs::FirstFound::first_here, crate::proofs::FirstFound::first_on, crate::proofs::FirstFound::first_end), unfolding(crate::specs::Faults::least_variable))]
fn least_variable(pattern: &Pattern) -> Option<u32>
    ensures { result ≡ least_variable pattern.now }
{
    for variable in 0..MOST_VARIABLES as u32 {
        if stands_in(variable, pattern) {
            return Some(variable);
        }
    }
    None
}

/// The first fault of an initial property behind others.
#[tactic(auto, unfolding(crate::specs::Faults::initial_fault))]
fn initial_fault(earlier: &[Initial], declaration: &Initial) -> Option<CheckFault>
    requires { AreWithoutGap declaration.now.prop.args }
    ensures { result ≡ initial_fault earlier.now declaration.now }
{
    let clause = declaration.clause;
    if earlier.len() >= MOST_INITIALS {
        Some(CheckFault::TooMany(Many::Initials, clause))
    } else if !is_narrow(&declaration.prop) {
        Some(CheckFault::Arity(clause))
    } else if !has_few_in_pattern(&declaration.prop) {
        Some(CheckFault::TooMany(Many::Variables, clause))
    } else if !has_no_any(&declaration.prop) {
        Some(CheckFault::AnyInHead(clause))
    } else {
        unbound_fault(clause, least_variable(&declaration.prop))
    }
}

/// The first fault of a time declaration behind others.
#[tactic(auto, unfolding(crate::specs::Faults::time_fault))]
fn time_fault(earlier: &[TimeDecl], declaration: &TimeDecl) -> Option<CheckFault>
    ensures { result ≡ time_fault earlier.now declaration.now }
{
    let clause = declaration.clause;
    if earlier.len() >= MOST_TIMES {
        Some(CheckFault::TooMany(Many::Times, clause))
    } else {
        None
    }
}

/// The first fault of the exclusive declarations of a theory.
#[tactic(auto, using(crate::proofs::FirstFound::fault_here, crate::proofs::FirstFound::fault_on, crate::proofs::FirstFound::fault_end))]
pub fn exclusives_fault(declarations: &[Exclusive]) -> Option<CheckFault>
    requires { All (λ (e : Exclusive). AreWithoutGap (exclusive_places e)) declarations.now }
    ensures { result ≡ first_fault exclusive_fault [] declarations.now }
{
    for (place, declaration) in declarations.iter().enumerate() {
        if let Some(fault) = exclusive_fault(&declarations[..place], declaration) {
            return Some(fault);
        }
    }
    None
}

/// The first fault of the strong declarations of a theory.
#[tactic(auto, using(crate::proofs::FirstFound::fault_here, crate::proofs::FirstFound::fault_on, crate::proofs::FirstFound::fault_end))]
pub fn strongs_fault(declarations: &[Strong]) -> Option<CheckFault>
    ensures { result ≡ first_fault strong_fault [] declarations.now }
{
    for (place, declaration) in declarations.iter().enumerate() {
        if let Some(fault) = strong_fault(&declarations[..place], declaration) {
            return Some(fault);
        }
    }
    None
}

/// The first fault of the initial properties of a theory.
#[tactic(auto, using(crate::proofs::FirstFound::fault_here, crate::proofs::FirstFound::fault_on, crate::proofs::FirstFound::fault_end))]
pub fn initials_fault(declarations: &[Initial]) -> Option<CheckFault>
    requires { All (λ (i : Initial). AreWithoutGap i.prop.args) declarations.now }
    ensures { result ≡ first_fault initial_fault [] declarations.now }
{
    for (place, declaration) in declarations.iter().enumerate() {
        if let Some(fault) = initial_fault(&declarations[..place], declaration) {
            return Some(fault);
        }
    }
    None
}

/// The first fault of the time declarations of a theory.
#[tactic(auto, using(crate::proofs::FirstFound::fault_here, crate::proofs::FirstFound::fault_on, crate::proofs::FirstFound::fault_end))]
pub fn times_fault(declarations: &[TimeDecl]) -> Option<CheckFault>
    ensures { result ≡ first_fault time_fault [] declarations.now }
{
    for (place, declaration) in declarations.iter().enumerate() {
        if let Some(fault) = time_fault(&declarations[..place], declaration) {
            return Some(fault);
        }
    }
    None
}
