//! The search for the neighbours of a property, in the groups of the keys that it shares with them.
ghost use Rattle.std.specs.Prelude.{◌≡◌, ◌&&◌, ◌||◌, ℕ, List, true, not, IsTrue, IsSome, IfOk, OnOk};
ghost use Rattle.std.specs.List.{list_any};
ghost use Rattle.ec_terms.specs.declared.ids.PropId.{PropId};
ghost use Rattle.ec_terms.specs.Binding.{values_of, IsSmall};
ghost use Rattle.ec_terms.specs.Domain.{are_exclusive as exclusive};
ghost use Rattle.ec_terms.specs.Matchable.{IsMatchable, IsMatchableExclusive};
ghost use Rattle.ec_terms.specs.Matching.{binding_of, fits_some};
ghost use Rattle.ec_terms.specs.Term.{ground_of, names_are_names};
ghost use Rattle.ec_store.specs.Table.{prop_at};
ghost use Rattle.ec_numbered.specs.PropSet.{has_number};
ghost use Rattle.ec_exclusive.specs.Groups.{in_group};
ghost use Rattle.ec_exclusive.specs.Keys.{key_if_fits, other_keys};
ghost use Rattle.ec_exclusive.specs.Neighbours.{AreJoined, excludes_at};

use crate::groups::{Groups, members};
use crate::keys::side_key;
use ec_lists::NoMemory;
use ec_numbered::PropSet;
use ec_store::PropTable;
use ec_terms::{
    Binding, Exclusive, GroundRef, Pattern, PropId, Theory, are_exclusive, extend_match, is_same,
    matches,
};
use std::alloc::Global;

/// Whether two terms are exclusive. `other` is the pattern of the other side of a declaration of which one side fits the
/// first term, and `values` are that side's: it is looked first whether the other side fits the second term.
fn are_exclusive_by(
    theory: &Theory,
    term: &GroundRef<'_>,
    other: &Pattern,
    values: &Binding<'_>,
    second: &GroundRef<'_>,
) -> bool
    requires matchable { IsMatchable theory.now }
    requires small { IsSmall other.now }
    requires named { IsTrue (names_are_names (ground_of term.now)) }
    requires second_named { IsTrue (names_are_names (ground_of second.now)) }
    requires joined { AreJoined theory.now (ground_of term.now) other.now (values_of values.now) }
    ensures { result ≡ exclusive theory.now (ground_of term.now) (ground_of second.now) }
{
    if is_same(term, second) {
        return false;
    }
    if extend_match(other, second, values.copied()).is_some() {
        return true;
    }
    are_exclusive(theory, term, second)
}

/// Whether a kept property is exclusive to a term, and is not found yet.
fn is_sought(
    theory: &Theory,
    props: &PropTable,
    term: &GroundRef<'_>,
    other: &Pattern,
    values: &Binding<'_>,
    found: &PropSet,
    q: PropId,
) -> bool
    requires matchable { IsMatchable theory.now }
    requires small { IsSmall other.now }
    requires named { IsTrue (names_are_names (ground_of term.now)) }
    requires joined { AreJoined theory.now (ground_of term.now) other.now (values_of values.now) }
    requires kept { IsSome (prop_at q.0 props.now) }
    ensures { result ≡ (not (has_number q.0 found.now.items) && excludes_at theory.now props.now (ground_of term.now) q) }
{
    !found.contains(q) && are_exclusive_by(theory, term, other, values, &props.ground(q))
}

/// Adds to `found` those of some kept properties that are exclusive to a term. A declaration has a side that fits the term
/// with these values, and another side.
fn gather(
    theory: &Theory,
    props: &PropTable,
    term: &GroundRef<'_>,
    other: &Pattern,
    values: &Binding<'_>,
    candidates: &[PropId],
    found: &mut PropSet,
) -> Result<(), NoMemory>
    requires matchable { IsMatchable theory.now }
    requires small { IsSmall other.now }
    requires named { IsTrue (names_are_names (ground_of term.now)) }
    requires joined { AreJoined theory.now (ground_of term.now) other.now (values_of values.now) }
    requires kept { (q : PropId) → has_number q.0 candidates.now ≡ true → IsSome (prop_at q.0 props.now) }
    ensures { OnOk result ((q : PropId) → has_number q.0 found.new.items ≡
        (has_number q.0 found.old.items || (excludes_at theory.now props.now (ground_of term.now) q && has_number q.0 candidates.now))) }
{
    for q in candidates {
        if is_sought(theory, props, term, other, values, found, *q) {
            found.reserve(1)?;
            found.insert(*q);
        }
    }
    Ok(())
}

/// Adds to `found` those properties that are exclusive to a term, in the group of the key of a side of a declaration: one
/// whose pattern fits the term, if it does. `other` is the pattern of the other side.
fn gather_side(
    groups: &Groups,
    theory: &Theory,
    props: &PropTable,
    term: &GroundRef<'_>,
    alloc: Global,
    i: usize,
    side: u8,
    declaration: &Exclusive,
    pattern: &Pattern,
    other: &Pattern,
    found: &mut PropSet,
) -> Result<(), NoMemory>
    requires matchable { IsMatchable theory.now }
    requires declared { IsMatchableExclusive declaration.now }
    requires small { IsSmall pattern.now }
    requires other_small { IsSmall other.now }
    requires named { IsTrue (names_are_names (ground_of term.now)) }
    requires joined { IsTrue (fits_some pattern.now (ground_of term.now)) → AreJoined theory.now (ground_of term.now) other.now (binding_of pattern.now (ground_of term.now)) }
    requires kept { (key : List ℕ) (n : ℕ) → in_group groups.now key n ≡ true → IsSome (prop_at n props.now) }
    ensures { OnOk result ((q : PropId) → has_number q.0 found.new.items ≡
        (has_number q.0 found.old.items || (excludes_at theory.now props.now (ground_of term.now) q && list_any (λ key. in_group groups.now key q.0) (key_if_fits i side declaration.now pattern.now (ground_of term.now))))) }
{
    if let Some(values) = matches(pattern, term) {
        let key = side_key(alloc, i, side, declaration, &values)?;
        let candidates = members(groups, key.as_slice());
        gather(theory, props, term, other, &values, candidates, found)?;
    }
    Ok(())
}

/// The properties that are exclusive to a term, among those in the groups of the keys that it shares with its neighbours.
/// Their keys are those of the sides that fit it, each called by the number of the other side.
pub(crate) fn find_neighbours(
    groups: &Groups,
    theory: &Theory,
    props: &PropTable,
    term: &GroundRef<'_>,
    alloc: Global,
) -> Result<PropSet, NoMemory>
    requires matchable { IsMatchable theory.now }
    requires named { IsTrue (names_are_names (ground_of term.now)) }
    requires kept { (key : List ℕ) (n : ℕ) → in_group groups.now key n ≡ true → IsSome (prop_at n props.now) }
    ensures { IfOk result (λ found. (q : PropId) → has_number q.0 found.items ≡
        (excludes_at theory.now props.now (ground_of term.now) q && list_any (λ key. in_group groups.now key q.0) (other_keys theory.now.exclusives (ground_of term.now)))) }
{
    let mut found = PropSet::new(alloc);
    for (i, declaration) in theory.exclusives.as_slice().iter().enumerate() {
        let left = &declaration.left;
        let right = &declaration.right;
        gather_side(
            groups,
            theory,
            props,
            term,
            alloc,
            i,
            1,
            declaration,
            left,
            right,
            &mut found,
        )?;
        gather_side(
            groups,
            theory,
            props,
            term,
            alloc,
            i,
            0,
            declaration,
            right,
            left,
            &mut found,
        )?;
    }
    Ok(found)
}
