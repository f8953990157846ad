//! What a theory says of properties: which are initial, strong and exclusive; and of which kind its times are.
ghost use Rattle.std.specs.Prelude.{◌≡◌, IsTrue, ◌&&◌};
ghost use Rattle.ec_terms.specs.Binding.{IsSmall};
ghost use Rattle.ec_terms.specs.Domain.{are_exclusive as exclusive, both_fit, excludes as excluding, is_initial as initial, is_strong as strong, time_of as kind_of_time};
ghost use Rattle.ec_terms.specs.Matching.{fits_some};
ghost use Rattle.ec_terms.specs.Matchable.{IsMatchable, IsMatchableExclusive};
ghost use Rattle.ec_terms.specs.Term.{names_are_names};
ghost use Rattle.ec_terms.specs.Term.{ground_of, term_eq};

use crate::ground::GroundRef;
use crate::matching::{extend_match, matches};
use crate::pattern::Pattern;
use crate::theory::{Exclusive, Theory, TimeKind};

/// Whether two terms are the same.
#[tactic(auto, unfolding(crate::specs::Term::term_eq))]
pub fn is_same(left: &GroundRef<'_>, right: &GroundRef<'_>) -> bool
    ensures { result ≡ term_eq (ground_of left.now) (ground_of right.now) }
{
    left.name == right.name && left.args.as_slice() == right.args.as_slice()
}

/// Whether a pattern fits a term.
fn fits(pattern: &Pattern, term: &GroundRef<'_>) -> bool
    requires small { IsSmall pattern.now }
    requires named { IsTrue (names_are_names (ground_of term.now)) }
    ensures { result ≡ fits_some pattern.now (ground_of term.now) }
{
    matches(pattern, term).is_some()
}

/// Whether a property is declared initial.
#[tactic(auto, unfolding(crate::specs::Domain::is_initial))]
pub fn is_initial(theory: &Theory, p: &GroundRef<'_>) -> bool
    requires matchable { IsMatchable theory.now }
    requires named { IsTrue (names_are_names (ground_of p.now)) }
    ensures { result ≡ initial theory.now (ground_of p.now) }
{
    for declaration in theory.initials.as_slice() {
        if fits(&declaration.prop, p) {
            return true;
        }
    }
    false
}

/// Whether a property's name and number of arguments are declared strong.
#[tactic(auto, unfolding(crate::specs::Domain::is_strong))]
pub fn is_strong(theory: &Theory, p: &GroundRef<'_>) -> bool
    ensures { result ≡ strong theory.now (ground_of p.now) }
{
    let arity = p.args.len() as i64;
    for declaration in theory.strongs.as_slice() {
        if declaration.name.as_bytes() == p.name && declaration.arity == arity {
            return true;
        }
    }
    false
}

/// Whether two patterns fit two properties under one binding.
fn fit_together(left: &Pattern, right: &Pattern, p: &GroundRef<'_>, q: &GroundRef<'_>) -> bool
    requires left_small { IsSmall left.now }
    requires right_small { IsSmall right.now }
    requires p_named { IsTrue (names_are_names (ground_of p.now)) }
    requires q_named { IsTrue (names_are_names (ground_of q.now)) }
    ensures { result ≡ both_fit left.now right.now (ground_of p.now) (ground_of q.now) }
{
    match matches(left, p) {
        Some(binding) => extend_match(right, q, binding).is_some(),
        None => false,
    }
}

/// Whether a declaration speaks of two properties, in this order or the other.
#[tactic(auto, unfolding(crate::specs::Domain::excludes))]
fn excludes(declaration: &Exclusive, p: &GroundRef<'_>, q: &GroundRef<'_>) -> bool
    requires matchable { IsMatchableExclusive declaration.now }
    requires p_named { IsTrue (names_are_names (ground_of p.now)) }
    requires q_named { IsTrue (names_are_names (ground_of q.now)) }
    ensures { result ≡ excluding (ground_of p.now) (ground_of q.now) declaration.now }
{
    fit_together(&declaration.left, &declaration.right, p, q)
        || fit_together(&declaration.left, &declaration.right, q, p)
}

/// Whether two properties are exclusive: they differ, and some declaration speaks of them.
#[tactic(auto, unfolding(crate::specs::Domain::are_exclusive))]
pub fn are_exclusive(theory: &Theory, p: &GroundRef<'_>, q: &GroundRef<'_>) -> bool
    requires matchable { IsMatchable theory.now }
    requires p_named { IsTrue (names_are_names (ground_of p.now)) }
    requires q_named { IsTrue (names_are_names (ground_of q.now)) }
    ensures { result ≡ exclusive theory.now (ground_of p.now) (ground_of q.now) }
{
    if is_same(p, q) {
        return false;
    }
    for declaration in theory.exclusives.as_slice() {
        if excludes(declaration, p, q) {
            return true;
        }
    }
    false
}

/// The kind of time that a theory declares first; ticks where it declares none.
#[tactic(auto, unfolding(crate::specs::Domain::time_of))]
pub fn time_of(theory: &Theory) -> TimeKind
    ensures { result ≡ kind_of_time theory.now }
{
    match theory.times.as_slice().first() {
        Some(declaration) => declaration.kind,
        None => TimeKind::Tick,
    }
}
