//! The faults of rules.
ghost use Rattle.std.specs.Prelude.{◌≡◌, ◌&&◌, [], nat_le, count_by, option_map, length};
ghost use Rattle.std.specs.List.{All, list_all};
ghost use Rattle.ec_terms.specs.declared.theory.Rule.{Rule};
ghost use Rattle.ec_terms.specs.Binding.{stands_in, is_small_place};
ghost use Rattle.ec_check.specs.declared.fault.CheckFault.TheVariants.{Unbound};
ghost use Rattle.ec_check.specs.Faults.{is_narrow, is_narrow_rule, rule_places, same_event, has_few_variables, is_no_any, is_other, each_open, is_unbound, least_unbound, rule_fault, first_fault};
ghost use Rattle.ec_check.specs.Numbering.{AreWithoutGap};

use crate::fault::{CheckFault, Many};
use crate::limits::{MOST_EVENT_RULES, MOST_LITERALS, MOST_RULES, MOST_TESTS};
use ec_terms::{MOST_ARGS, MOST_VARIABLES, PatArg, Pattern, Rule};

/// Whether both hold.
pub fn both(first: bool, second: bool) -> bool
    ensures { result ≡ (first && second) }
{
    first && second
}

/// Whether a pattern has at most 8 arguments.
pub fn is_narrow(pattern: &Pattern) -> bool
    ensures { result ≡ is_narrow pattern.now }
{
    pattern.args.len() <= MOST_ARGS
}

/// Whether a place has no variable numbered 16 or above.
pub fn is_small_place(place: &PatArg) -> bool
    ensures { result ≡ is_small_place place.now }
{
    match place {
        PatArg::Var(v) => *v < MOST_VARIABLES as u32,
        PatArg::Any => true,
        PatArg::Fixed(_) => true,
    }
}

/// Whether a place is not `_`.
pub fn is_no_any(place: &PatArg) -> bool
    ensures { result ≡ is_no_any place.now }
{
    match place {
        PatArg::Var(_) => true,
        PatArg::Any => false,
        PatArg::Fixed(_) => true,
    }
}

/// Whether a place is not this variable.
fn is_other(variable: u32, place: &PatArg) -> bool
    ensures { result ≡ is_other variable place.now }
{
    match place {
        PatArg::Var(v) => !(variable == *v),
        PatArg::Any => true,
        PatArg::Fixed(_) => true,
    }
}

/// Whether all variables of a pattern are below 16.
pub fn is_small(pattern: &Pattern) -> bool
    ensures { result ≡ list_all is_small_place pattern.now.args }
{
    pattern
        .args
        .as_slice()
        .iter()
        .all(|place| is_small_place(place))
}

/// Whether a pattern has no `_`.
pub fn has_no_any(pattern: &Pattern) -> bool
    ensures { result ≡ list_all is_no_any pattern.now.args }
{
    pattern.args.as_slice().iter().all(|place| is_no_any(place))
}

/// Whether a pattern does not have this variable.
fn lacks(variable: u32, pattern: &Pattern) -> bool
    ensures { result ≡ list_all (is_other variable) pattern.now.args }
{
    pattern
        .args
        .as_slice()
        .iter()
        .all(|place| is_other(variable, place))
}

/// Whether a pattern has this variable.
pub fn stands_in(variable: u32, pattern: &Pattern) -> bool
    ensures { result ≡ stands_in variable pattern.now }
{
    pattern
        .args
        .as_slice()
        .iter()
        .any(|place| !is_other(variable, place))
}

/// Whether the literals of a rule have at most 8 arguments each.
fn literals_are_narrow(rule: &Rule) -> bool
    ensures { result ≡ list_all (λ l. is_narrow l.prop) rule.now.literals }
{
    rule.literals
        .as_slice()
        .iter()
        .all(|literal| is_narrow(&literal.prop))
}

/// Whether the variables of the tests are below 16.
fn tests_are_small(rule: &Rule) -> bool
    ensures { result ≡ list_all (λ t. is_small_place t.left && is_small_place t.right) rule.now.tests }
{
    rule.tests.as_slice().iter().all(|test| both(
        is_small_place(&test.left),
        is_small_place(&test.right),
    ))
}

/// Whether the variables of the literals are below 16.
fn literals_are_small(rule: &Rule) -> bool
    ensures { result ≡ list_all (λ l. list_all is_small_place l.prop.args) rule.now.literals }
{
    rule.literals
        .as_slice()
        .iter()
        .all(|literal| is_small(&literal.prop))
}

/// Whether no test has `_`.
fn tests_have_no_any(rule: &Rule) -> bool
    ensures { result ≡ list_all (λ t. is_no_any t.left && is_no_any t.right) rule.now.tests }
{
    rule.tests
        .as_slice()
        .iter()
        .all(|test| both(is_no_any(&test.left), is_no_any(&test.right)))
}

/// Whether no literal has `_`.
fn literals_have_no_any(rule: &Rule) -> bool
    ensures { result ≡ list_all (λ l. list_all is_no_any l.prop.args) rule.now.literals }
{
    rule.literals
        .as_slice()
        .iter()
        .all(|literal| has_no_any(&literal.prop))
}

/// Whether no test has this variable.
fn tests_lack(variable: u32, rule: &Rule) -> bool
    ensures { result ≡ list_all (λ t. is_other variable t.left && is_other variable t.right) rule.now.tests }
{
    rule.tests.as_slice().iter().all(|test| both(
        is_other(variable, &test.left),
        is_other(variable, &test.right),
    ))
}

/// Whether no literal has this variable.
fn literals_lack(variable: u32, rule: &Rule) -> bool
    ensures { result ≡ list_all (λ l. list_all (is_other variable) l.prop.args) rule.now.literals }
{
    rule.literals
        .as_slice()
        .iter()
        .all(|literal| lacks(variable, &literal.prop))
}

/// Whether every pattern of a rule has at most 8 arguments.
#[tactic(auto, unfolding(crate::specs::Faults::is_narrow_rule))]
fn is_narrow_rule(rule: &Rule) -> bool
    ensures { result ≡ is_narrow_rule rule.now }
{
    both(
        both(is_narrow(&rule.event), is_narrow(&rule.head)),
        literals_are_narrow(rule),
    )
}

/// Whether two rules are for events of the same name and number of arguments.
#[tactic(auto, unfolding(crate::specs::Faults::same_event))]
fn same_event(rule: &Rule, other: &Rule) -> bool
    ensures { result ≡ same_event rule.now other.now }
{
    let same_name = rule.event.name.as_bytes() == other.event.name.as_bytes();
    let same_count = rule.event.args.len() == other.event.args.len();
    same_name && same_count
}

/// Whether a rule has at most 16 different variables: numbered from 0 on, they are then all below 16.
#[tactic(auto, using(crate::proofs::FewVariables::few_in_rule), unfolding(crate::specs::Faults::each_open))]
fn has_few_variables(rule: &Rule) -> bool
    requires { AreWithoutGap (rule_places rule.now) }
    ensures { result ≡ has_few_variables (rule_places rule.now) }
{
    let open = both(
        both(is_small(&rule.head), tests_are_small(rule)),
        literals_are_small(rule),
    );
    both(is_small(&rule.event), open)
}

/// Whether neither the head nor a test nor a literal has `_`.
#[tactic(auto, unfolding(crate::specs::Faults::each_open))]
fn has_no_open_any(rule: &Rule) -> bool
    ensures { result ≡ each_open is_no_any rule.now }
{
    both(
        both(has_no_any(&rule.head), tests_have_no_any(rule)),
        literals_have_no_any(rule),
    )
}

/// Whether neither the head nor a test nor a literal has this variable.
#[tactic(auto, unfolding(crate::specs::Faults::each_open))]
fn lacks_open(variable: u32, rule: &Rule) -> bool
    ensures { result ≡ each_open (is_other variable) rule.now }
{
    both(
        both(lacks(variable, &rule.head), tests_lack(variable, rule)),
        literals_lack(variable, rule),
    )
}

/// Whether a variable stands in the head, a test or a literal, and not in the event.
#[tactic(auto, unfolding(crate::specs::Faults::is_unbound))]
fn is_unbound(rule: &Rule, variable: u32) -> bool
    ensures { result ≡ is_unbound rule.now variable }
{
    let open = !lacks_open(variable, rule);
    let bound = stands_in(variable, &rule.event);
    open && !bound
}

/// The least unbound variable of a rule whose variables are below 16.
#[tactic(auto, using(crate::proofs::FirstFound::first_here, crate::proofs::FirstFound::first_on, crate::proofs::FirstFound::first_end), unfolding(crate::specs::Faults::least_unbound))]
fn least_unbound(rule: &Rule) -> Option<u32>
    ensures { result ≡ least_unbound rule.now }
{
    for variable in 0..MOST_VARIABLES as u32 {
        if is_unbound(rule, variable) {
            return Some(variable);
        }
    }
    None
}

/// Whether these are all rules that a theory may have.
fn are_most(rules: &[Rule]) -> bool
    ensures { result ≡ nat_le MOST_RULES (length rules.now) }
{
    rules.len() >= MOST_RULES
}

/// Whether there are all rules among the earlier ones that the events of a rule may have.
fn are_most_for_event(earlier: &[Rule], rule: &Rule) -> bool
    ensures { result ≡ nat_le MOST_EVENT_RULES (count_by (same_event rule.now) earlier.now) }
{
    event_rules(earlier, rule) >= MOST_EVENT_RULES
}

/// The first fault of a rule behind other rules.
#[tactic(auto, unfolding(crate::specs::Faults::rule_fault))]
fn rule_fault(earlier: &[Rule], rule: &Rule) -> Option<CheckFault>
    requires { AreWithoutGap (rule_places rule.now) }
    ensures { result ≡ rule_fault earlier.now rule.now }
{
    let clause = rule.clause;
    if are_most(earlier) {
        Some(CheckFault::TooMany(Many::Rules, clause))
    } else if !is_narrow_rule(rule) {
        Some(CheckFault::Arity(clause))
    } else if are_most_for_event(earlier, rule) {
        Some(CheckFault::TooMany(Many::EventRules, clause))
    } else if rule.tests.len() > MOST_TESTS {
        Some(CheckFault::TooMany(Many::Tests, clause))
    } else if rule.literals.len() > MOST_LITERALS {
        Some(CheckFault::TooMany(Many::Literals, clause))
    } else if !has_few_variables(rule) {
        Some(CheckFault::TooMany(Many::Variables, clause))
    } else if !has_no_open_any(rule) {
        Some(CheckFault::AnyInHead(clause))
    } else {
        unbound_fault(clause, least_unbound(rule))
    }
}

/// How many of the rules are for the same events.
fn event_rules(earlier: &[Rule], rule: &Rule) -> usize
    ensures { result ≡ count_by (same_event rule.now) earlier.now }
{
    earlier
        .iter()
        .filter(|other| same_event(rule, *other))
        .count()
}

/// The fault of a clause with an unbound variable.
pub fn unbound_fault(clause: u32, variable: Option<u32>) -> Option<CheckFault>
    ensures { result ≡ option_map (λ v. Unbound clause v) variable }
{
    match variable {
        Some(v) => Some(CheckFault::Unbound(clause, v)),
        None => None,
    }
}

/// The first fault of the rules of a theory.
#[tactic(auto, using(crate::proofs::FirstFound::fault_here, crate::proofs::FirstFound::fault_on, crate::proofs::FirstFound::fault_end))]
pub fn rules_fault(rules: &[Rule]) -> Option<CheckFault>
    requires { All (λ (r : Rule). AreWithoutGap (rule_places r)) rules.now }
    ensures { result ≡ first_fault rule_fault [] rules.now }
{
    for (place, rule) in rules.iter().enumerate() {
        if let Some(fault) = rule_fault(&rules[..place], rule) {
            return Some(fault);
        }
    }
    None
}
