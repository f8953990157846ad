ghost use Rattle.std.specs.Prelude.{◌≡◌};
ghost use Rattle.ec_terms.specs.Term.{ground_of, term_cmp};

use crate::ground::GroundRef;
use std::cmp::Ordering;

/// The order of ground terms: by name, then by number of arguments, then by the arguments from
/// the left, where numbers come before names.
pub fn order(left: &GroundRef<'_>, right: &GroundRef<'_>) -> Ordering
    ensures { result ≡ term_cmp (ground_of left.now) (ground_of right.now) }
{
    let left_args = left.args.as_slice();
    let right_args = right.args.as_slice();
    let first = left
        .name
        .cmp(right.name)
        .then(left_args.len().cmp(&right_args.len()));
    if first.is_ne() {
        return first;
    }
    left_args.cmp(right_args)
}
