//! The settling of all properties of a tally.
ghost use Rattle.std.specs.Prelude.{◌≡◌, ◌<◌, ◌^◌, ◌||◌, ℕ, false, All, IsTrue, IfOk, OnOk, is_some, length};
ghost use Rattle.std.specs.List.{list_any};
ghost use Rattle.ec_exclusive.specs.Added.{is_added};
ghost use Rattle.ec_numbered.specs.PropSet.{has_number};
ghost use Rattle.ec_points.specs.Changes.{has_change};
ghost use Rattle.ec_terms.specs.declared.ids.PropId.{PropId};
ghost use Rattle.ec_revise.specs.TurnCounts.{IsTallyAt, counts_at, row_at, tallied_at};
ghost use Rattle.ec_sweep.specs.Settling.{AreAdded, HaveRoom, SettlesRows};

use crate::dirty::Dirty;
use crate::places::Places;
use crate::scratch::Scratch;
use crate::settle_one::settle_one;
use ec_delta::Planned;
use ec_exclusive::Neighbours;
use ec_lists::NoMemory;
use ec_moment::Moment;
use ec_numbered::Agenda;
use ec_parts::Parts;
use ec_revise::{Tally, Turn};
use ec_rows::{MarkRow, SpanRow, TimeRow};
use ec_terms::PropId;

/// What turned, tallied for each property that it counts for, and nothing for the others that are due. `Err`: memory ran out.
pub(crate) fn tally_of(
    scratch: &mut Scratch,
    neighbours: &Neighbours,
    turns: &[Turn],
    due: &[PropId],
) -> Result<Tally, NoMemory>
    requires few { length turns.now < 2 ^ 32 }
    requires added { All (λ turn. IsTrue (is_added turn.head neighbours.now.rows)) turns.now }
    ensures tallied { IfOk result (λ tally. (p : PropId) → IsTallyAt neighbours.now.rows turns.now p (tallied_at p tally)) }
    ensures rows { IfOk result (λ tally. (p : PropId) → is_some (row_at p.0 tally) ≡ (has_number p.0 due.now || list_any (counts_at neighbours.now.rows p) turns.now)) }
{
    let mut tally = scratch.take_tally();
    tally.count_turns(turns, neighbours)?;
    for p in due {
        tally.note(*p)?;
    }
    Ok(tally)
}

/// Settles each property of a tally, by what is tallied of it. `Err`: memory ran out, and what is noted is of no further use.
pub(crate) fn settle_rows<T: Moment, M: MarkRow<T>, I: SpanRow<T>, X: TimeRow<T>>(
    places: &mut Places,
    parts: &Parts<T, M, I, X>,
    tally: &Tally,
    at: T,
    dirty: &mut Dirty,
    agenda: &mut Agenda<T>,
    planned: &mut Planned<T>,
) -> Result<(), NoMemory>
    requires added { AreAdded parts.now.neighbours.rows tally.now }
    requires room { HaveRoom T.rank parts.now.points at tally.now }
    requires marks_free { (n : ℕ) → has_change T.rank n (T.rank at) planned.old.marks ≡ false }
    requires initiations_free { (n : ℕ) → has_change T.rank n (T.rank at) planned.old.initiations ≡ false }
    ensures { OnOk result (SettlesRows T.rank parts.now.neighbours parts.now.points parts.now.entries.slots at tally.now
        (record { dirty = dirty.old; agenda = agenda.old; planned = planned.old }) (record { dirty = dirty.new; agenda = agenda.new; planned = planned.new })) }
{
    for i in 0..tally.len() {
        let (p, tallied) = tally.row(i);
        settle_one(places, parts, p, &tallied, at, dirty, agenda, planned)?;
    }
    Ok(())
}
