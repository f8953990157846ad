//! Which entries of an event do to a property what is sought.
ghost use Rattle.std.specs.Prelude.{◌≡◌, ◌≤◌, ◌&&◌, ◌||◌, true, false, nat_lt, length, List, Some, IsTrue};
ghost use Rattle.std.specs.List.Sorted.{IsPartitionPoint};
ghost use Rattle.ec_terms.specs.declared.ground.Ground.{Ground};
ghost use Rattle.ec_terms.specs.Domain.{GroundEntry, are_exclusive, is_strong};
ghost use Rattle.ec_terms.specs.Term.{term_eq};
ghost use Rattle.ec_axioms.specs.Calculus.{PlainEvent};
ghost use Rattle.ec_context.specs.Entries.{shown_entry};
ghost use Rattle.ec_numbered.specs.PropSet.{are_ascending, comes_before, has_number};
ghost use Rattle.ec_parts.specs.StandFor.{view_of};
ghost use Rattle.ec_store.specs.Table.{term_at};
ghost use Rattle.ec_query.specs.Sought.{is_sought};
ghost use Rattle.ec_query.specs.Standing.{AreOn, AreOnSome};

use ec_context::Entry;
use ec_moment::Moment;
use ec_parts::Parts;
use ec_rows::{MarkRow, SpanRow, TimeRow};
use ec_terms::{Kind, PropId};

/// What the cause of a change did to a property.
#[derive(Clone, Copy)]
pub(crate) enum Sought {
    Initiation,
    Termination,
    /// A break that is no termination.
    Break,
}

/// Whether a property is the head of an entry.
fn is_head<T: Moment, M: MarkRow<T>, I: SpanRow<T>, X: TimeRow<T>>(
    parts: &Parts<T, M, I, X>,
    id: PropId,
    head: PropId,
) -> bool
    ensures { (events : List PlainEvent) (p q : Ground) → AreOn T.rank parts.now.checked events (view_of parts.now) id.0 p → term_at head.0 parts.now.props ≡ Some q → result ≡ term_eq q p }
{
    let _ = parts.props.len();
    head.0 == id.0
}

/// How many of an ascending list come before a number.
fn count_before(list: &[PropId], p: PropId) -> usize
    requires { IsTrue (are_ascending list.now) }
    ensures within { result ≤ length list.now }
    ensures cut { IsPartitionPoint (λ q. comes_before q p ≡ true) (λ q. comes_before q p ≡ false) list.now result }
{
    list.partition_point(
        |q| -> bool
            ensures { result ≡ nat_lt q.now.0 p.0 }
        { q.0 < p.0 },
    )
}

/// Whether a property stands in an ascending list.
fn is_listed(list: &[PropId], p: PropId) -> bool
    requires { IsTrue (are_ascending list.now) }
    ensures { result ≡ has_number p.0 list.now }
{
    let place = count_before(list, p);
    if place == list.len() {
        return false;
    }
    list[place].0 == p.0
}

/// Whether a property is a neighbour of another: the two are exclusive.
fn is_neighbour<T: Moment, M: MarkRow<T>, I: SpanRow<T>, X: TimeRow<T>>(
    parts: &Parts<T, M, I, X>,
    id: PropId,
    head: PropId,
) -> bool
    requires { AreOnSome T.rank parts.now.checked (view_of parts.now) id.0 }
    ensures { (events : List PlainEvent) (p q : Ground) → AreOn T.rank parts.now.checked events (view_of parts.now) id.0 p → term_at head.0 parts.now.props ≡ Some q → result ≡ are_exclusive parts.now.checked p q }
{
    is_listed(parts.neighbours.of(id), head)
}

/// Whether the initiation of one property breaks another: the two are exclusive, or they are the same, which is strong.
fn breaks<T: Moment, M: MarkRow<T>, I: SpanRow<T>, X: TimeRow<T>>(
    parts: &Parts<T, M, I, X>,
    id: PropId,
    head: PropId,
) -> bool
    requires { AreOnSome T.rank parts.now.checked (view_of parts.now) id.0 }
    ensures { (events : List PlainEvent) (p q : Ground) → AreOn T.rank parts.now.checked events (view_of parts.now) id.0 p → term_at head.0 parts.now.props ≡ Some q → result ≡ (are_exclusive parts.now.checked p q || (is_strong parts.now.checked p && term_eq q p)) }
{
    let strong = parts.neighbours.is_strong(id);
    let own = is_head(parts, id, head);
    is_neighbour(parts, id, head) || (strong && own)
}

/// Whether an entry does to a property what is sought, if it is active.
pub(crate) fn is_sought<T: Moment, M: MarkRow<T>, I: SpanRow<T>, X: TimeRow<T>>(
    parts: &Parts<T, M, I, X>,
    id: PropId,
    sought: Sought,
    entry: &Entry,
) -> bool
    requires { AreOnSome T.rank parts.now.checked (view_of parts.now) id.0 }
    ensures { (events : List PlainEvent) (p : Ground) (shown : GroundEntry) → AreOn T.rank parts.now.checked events (view_of parts.now) id.0 p → shown_entry parts.now.props entry.now ≡ Some shown → result ≡ is_sought parts.now.checked p sought shown }
{
    match entry.kind {
        Kind::Initiates => match sought {
            Sought::Initiation => is_head(parts, id, entry.head),
            Sought::Termination => false,
            Sought::Break => breaks(parts, id, entry.head),
        },
        Kind::Terminates => match sought {
            Sought::Initiation => false,
            Sought::Termination => is_head(parts, id, entry.head),
            Sought::Break => false,
        },
    }
}
