//! The next time at which anything bears on a property: it has a mark there, or an entry there reads it.
ghost use Rattle.std.specs.Prelude.{◌≡◌, ◌⊎◌, ◌<ℤ◌, ◌≤ℤ◌, ℤ, None, IfNone, IfSome, IsSomeAnd};
ghost use Rattle.ec_sweep.specs.Settling.{BearsAt, IsNextMark, IsReadAt};

use ec_entries::Entries;
use ec_moment::Moment;
use ec_parts::Parts;
use ec_rows::{MarkRow, SpanRow, TimeRow};
use ec_terms::PropId;

/// The earlier of two times.
fn least<T: Moment>(a: T, b: T) -> T
    ensures first { T.rank result ≤ℤ T.rank a }
    ensures second { T.rank result ≤ℤ T.rank b }
    ensures either { (result ≡ a) ⊎ (result ≡ b) }
{
    if b.order(&a).is_lt() { b } else { a }
}

/// The earlier of two times, where there are two.
pub(crate) fn earlier<T: Moment>(first: Option<T>, second: Option<T>) -> Option<T>
    ensures first { IfSome first (λ a. IfSome result (λ at. T.rank at ≤ℤ T.rank a)) }
    ensures second { IfSome second (λ b. IfSome result (λ at. T.rank at ≤ℤ T.rank b)) }
    ensures either { (result ≡ first) ⊎ (result ≡ second) }
    ensures none { IfNone result ((first ≡ None) × (second ≡ None)) }
{
    match first {
        None => second,
        Some(a) => match second {
            None => Some(a),
            Some(b) => Some(least(a, b)),
        },
    }
}

/// The time of the first entry behind a time that reads a property. `near` is a place among its dependents to look at first.
fn next_entry<T: Moment>(entries: &Entries<T>, p: PropId, at: T, near: usize) -> Option<T>
    ensures some { IfSome result (λ next. (T.rank at <ℤ T.rank next) × IsReadAt T.rank entries.now.slots p.0 (T.rank next)) }
    ensures least { (u : ℤ) → T.rank at <ℤ u → IsReadAt T.rank entries.now.slots p.0 u → IsSomeAnd result (λ next. T.rank next ≤ℤ u) }
{
    entries.next_dependent_after(p, at, near)
}

/// The next time behind one at which anything bears on a property, where the time of its next mark is known. `None` exactly when
/// nothing does. `near` is a place among its dependents to look at first.
pub(crate) fn next_time<T: Moment, M: MarkRow<T>, I: SpanRow<T>, X: TimeRow<T>>(
    parts: &Parts<T, M, I, X>,
    p: PropId,
    at: T,
    next_mark: Option<T>,
    near: usize,
) -> Option<T>
    requires { IsNextMark T.rank parts.now.points p.0 (T.rank at) next_mark }
    ensures some { IfSome result (λ next. (T.rank at <ℤ T.rank next) × BearsAt T.rank parts.now.points parts.now.entries.slots p.0 (T.rank next)) }
    ensures least { (u : ℤ) → T.rank at <ℤ u → BearsAt T.rank parts.now.points parts.now.entries.slots p.0 u → IsSomeAnd result (λ next. T.rank next ≤ℤ u) }
{
    earlier(next_mark, next_entry(&parts.entries, p, at, near))
}
