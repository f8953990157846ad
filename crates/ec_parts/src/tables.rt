//! The tables with one event more or less.
ghost use Rattle.std.specs.Prelude.{◌≡◌, ◌+◌, ◌≤◌, ◌^◌, All, length};
ghost use Rattle.ec_context.specs.Entries.{IsKeptEntry};
ghost use Rattle.ec_parts.specs.Mentions.{AreOfEvents, AreOfEventsWith, HasMentioned, HasReleased, TakeEventIn, TakeEventOut, TakesEventIn, TakesEventOut, list_props};
ghost use Rattle.ec_parts.specs.StandFor.{view_of};

use crate::mention::{mention_entries, release_entries};
use crate::parts::Parts;
use crate::tally::Tally;
use ec_context::EntryList;
use ec_moment::Moment;
use ec_rows::{MarkRow, SpanRow, TimeRow};

/// Counts one mention more of each property that the entries of an event mention, and the links that those make. The tables
/// are then those of the list with that event in its place; the caches stay. It takes no memory.
///
/// Each mention looks at all exclusive neighbours of its property.
pub fn mention_all<T: Moment, M: MarkRow<T>, I: SpanRow<T>, X: TimeRow<T>>(
    parts: &mut Parts<T, M, I, X>,
    tally: &mut Tally,
    list: &EntryList,
)
    requires kept { All (IsKeptEntry parts.old.props) list.now }
    requires tables { AreOfEvents parts.old.checked parts.old.props parts.old.neighbours parts.old.points tally.old }
    requires few { tally.old.mentions + length (list_props list.now) ≤ 2 ^ 21 }
    ensures mentioned { HasMentioned parts.old.neighbours parts.old.points (list_props list.now) parts.old.props tally.old parts.new.props tally.new }
    ensures tables { TakesEventIn parts.old.checked list.now parts.old.neighbours parts.old.points parts.old.props tally.old parts.new.props tally.new }
    ensures both { TakeEventIn T.rank parts.old.checked list.now (view_of parts.old) tally.old (view_of parts.new) tally.new }
    ensures rest { parts.new ≡ record parts.old { props = parts.new.props } }
{
    let _ = parts.checked.theory();
    let _ = parts.props.len();
    mention_entries(
        &mut parts.props,
        &parts.neighbours,
        &parts.points,
        tally,
        list.as_slice(),
    );
}

/// Counts one mention less of each property that the entries of an event mention, and takes the links off that those made.
/// The tables are then those of the list without that event; the caches stay. It takes no memory.
pub fn release_all<T: Moment, M: MarkRow<T>, I: SpanRow<T>, X: TimeRow<T>>(
    parts: &mut Parts<T, M, I, X>,
    tally: &mut Tally,
    list: &EntryList,
)
    requires kept { All (IsKeptEntry parts.old.props) list.now }
    requires tables { AreOfEventsWith parts.old.checked list.now parts.old.props parts.old.neighbours parts.old.points tally.old }
    ensures released { HasReleased parts.old.neighbours parts.old.points (list_props list.now) parts.old.props tally.old parts.new.props tally.new }
    ensures tables { TakesEventOut parts.old.checked list.now parts.old.neighbours parts.old.points parts.old.props tally.old parts.new.props tally.new }
    ensures both { TakeEventOut T.rank parts.old.checked list.now (view_of parts.old) tally.old (view_of parts.new) tally.new }
    ensures rest { parts.new ≡ record parts.old { props = parts.new.props } }
{
    let _ = parts.checked.theory();
    let _ = parts.props.len();
    release_entries(
        &mut parts.props,
        &parts.neighbours,
        &parts.points,
        tally,
        list.as_slice(),
    );
}
