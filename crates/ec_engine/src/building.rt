//! A list of events, from no event on.
ghost use Rattle.std.specs.Prelude.{◌≡◌, ◌+◌, ◌≤◌, [], OnOk, length, map};
ghost use Rattle.ec_axioms.specs.Changes.{entry_count};
ghost use Rattle.ec_axioms.specs.Events.{event_of};
ghost use Rattle.ec_parts.specs.StandFor.{StandFor, view_of};
ghost use Rattle.ec_batch.specs.Build.{HaveOwnIds, history_from};
ghost use Rattle.ec_batch.specs.Limits.{IsWithinLimits};

use crate::carrying::{Room, carry_out};
use ec_axioms::{Event, Steps};
use ec_batch::{start, walk_in};
use ec_lists::NoMemory;
use ec_moment::Moment;
use ec_parts::{Parts, Tally};
use ec_rows::{MarkRow, SpanRow, TimeRow};
use std::alloc::Global;
use std::sync::ledger::Ledger;

/// Puts a list of events into the parts of no event. `Err`: memory ran out.
pub(crate) fn fill<T: Moment, M: MarkRow<T>, I: SpanRow<T>, X: TimeRow<T>, L: Ledger>(
    alloc: Global,
    room: &mut Room<T>,
    parts: &mut Parts<T, M, I, X>,
    tally: &mut Tally,
    list: &[Event<T>],
    steps: &mut Steps<L>,
) -> Result<(), NoMemory>
    requires stand { StandFor T.rank parts.old.checked [] (view_of parts.old) tally.old }
    requires own { HaveOwnIds (map (event_of T.rank) list.now) }
    requires within { IsWithinLimits parts.old.checked (history_from (map (event_of T.rank) list.now)) }
    ensures filled { OnOk result (StandFor T.rank parts.old.checked (history_from (map (event_of T.rank) list.now)) (view_of parts.new) tally.new) }
    ensures theory { parts.new.checked ≡ parts.old.checked }
    ensures steps { steps.new ≤ steps.old + entry_count parts.old.checked (history_from (map (event_of T.rank) list.now)) + length list.now }
{
    let mut walk = start(alloc, parts, tally);
    walk_in(alloc, parts, tally, &mut walk, list)?;
    carry_out(alloc, room, parts, tally, walk, &[], steps)?;
    Ok(())
}
