//! Places in the order of a table, found by binary search.
ghost use Rattle.std.specs.Prelude.{◌≡◌, ◌≤◌, true, false, length, map, option_map};
ghost use Rattle.std.specs.List.Sorted.{IsPartitionPoint};
ghost use Rattle.std.specs.Ordering.{is_lt, is_some_and};
ghost use Rattle.slab.specs.Slab.{get as property_at};
ghost use Rattle.std.specs.Cmp.Lexicographic.{slice_cmp};
ghost use Rattle.ec_terms.specs.Term.{arg_of, arg_cmp, ground_of, term_cmp};
ghost use Rattle.ec_store.specs.Table.{IsTable, kept_of, arity_cmp};

use crate::property::Property;
use ec_blocks::Blocks;
use ec_terms::{Arg, ArgRef, Ground, GroundRef, PropId};
use slab::Slab;
use std::cmp::Ordering;

/// How a term stands to all terms with a name and a number of arguments.
fn compare_arity(term: &Ground, name: &[u8], arity: usize) -> Ordering
    ensures { result ≡ arity_cmp term.now name.now arity }
{
    term.name
        .as_bytes()
        .cmp(&name)
        .then(term.args.len().cmp(&arity))
}

/// How the arguments of a term stand to as many others.
fn compare_args(args: &[Arg], others: &[ArgRef<'_>]) -> Ordering
    requires { length args.now ≡ length others.now }
    ensures { result ≡ slice_cmp arg_cmp args.now (map arg_of others.now) }
{
    for (i, arg) in args.iter().enumerate() {
        let step = arg.borrow().cmp(&others[i]);
        if step.is_ne() {
            return step;
        }
    }
    Ordering::Equal
}

/// How a term stands to a borrowed one, as `order` tells it of two borrowed ones.
pub(crate) fn compare(term: &Ground, other: &GroundRef<'_>) -> Ordering
    ensures { result ≡ term_cmp term.now (ground_of other.now) }
{
    let others = other.args.as_slice();
    let first = compare_arity(term, other.name, others.len());
    if first.is_ne() {
        return first;
    }
    compare_args(term.args.as_slice(), others)
}

/// How the property under a number stands to a term, if there is one.
fn compare_at(properties: &Slab<Property>, p: PropId, term: &GroundRef<'_>) -> Option<Ordering>
    ensures { result ≡ option_map (λ property. term_cmp property.term (ground_of term.now)) (property_at properties.now p.0) }
{
    let property = properties.get(p.0)?;
    Some(compare(&property.term, term))
}

/// Whether the property under a number stands before a term.
fn is_before(properties: &Slab<Property>, p: PropId, term: &GroundRef<'_>) -> bool
    ensures { result ≡ is_some_and is_lt (option_map (λ property. term_cmp property.term (ground_of term.now)) (property_at properties.now p.0)) }
{
    compare_at(properties, p, term).is_some_and(Ordering::is_lt)
}

/// How many properties stand before a term.
pub(crate) fn count_before(
    properties: &Slab<Property>,
    order: &Blocks<PropId>,
    term: &GroundRef<'_>,
) -> usize
    requires { IsTable (property_at properties.now) order.now.items }
    ensures within { result ≤ length order.now.items }
    ensures cut { IsPartitionPoint (λ kept. is_lt (term_cmp kept.term (ground_of term.now)) ≡ true) (λ kept. is_lt (term_cmp kept.term (ground_of term.now)) ≡ false) (kept_of (property_at properties.now) order.now.items) result }
{
    order.partition_point(
        |p| -> bool
            ensures { result ≡ is_some_and is_lt (option_map (λ property. term_cmp property.term (ground_of term.entry.now)) (property_at properties.entry.now p.now.0)) }
        { is_before(properties, *p, term) },
    )
}
