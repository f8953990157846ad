//! The reply that lists the events.
ghost use Rattle.std.specs.Prelude.{◌≡◌, ◌+◌, ◌≤◌, List, OnOk, OnErr, length};
ghost use Rattle.ec_axioms.specs.Calculus.{PlainEvent};
ghost use Rattle.ec_commands.specs.QueryTexts.{events_reply};
ghost use Rattle.ec_outside.specs.Counts.{Rose};
ghost use Rattle.ec_outside.specs.Streams.{Appended, AppendedPart};
ghost use Rattle.ec_parts.specs.Caches.{AreEventsOf};

use crate::counted::write_count;
use crate::member_text::{MemberText, set_event};
use ec_axioms::Steps;
use ec_moment::Moment;
use ec_outside::{Failed, Sink, write_all};
use ec_rows::TimeRow;
use ec_store::EventStore;
use std::sync::ledger::Ledger;

/// Writes the present events: how many they are, and each of them by time and then by identity, with its identity, its time
/// and its term. Each event that is read is one step. `Failed` comes only where a call of the sink failed, and then some
/// first part of the reply was written.
pub fn events<T: Moment, X: TimeRow<T>, K: Sink, L: Ledger>(
    store: &EventStore<T, X>,
    out: &mut K,
    steps: &mut Steps<L>,
) -> Result<(), Failed>
    ensures written { (events : List PlainEvent) → AreEventsOf T.rank events store.now → OnOk result (Appended K.stands out.old out.new (events_reply events T.canon)) }
    ensures part { (events : List PlainEvent) → AreEventsOf T.rank events store.now → OnErr result (AppendedPart K.stands out.old out.new (events_reply events T.canon)) }
    ensures failed { OnErr result (Rose (K.faults out.old) (K.faults out.new)) }
    ensures quiet { OnOk result (K.faults out.new ≡ K.faults out.old) }
    ensures counted { K.faults out.old ≤ K.faults out.new }
    ensures steps { steps.new ≤ steps.old + length store.now.events }
{
    write_count(store.len() as u64, out)?;
    let mut text = MemberText::new();
    let mut cursor = store.first();
    while let Some(found) = store.next(cursor) {
        set_event(&mut text, store.event(found.0, steps));
        write_all(out, text.as_bytes())?;
        cursor = found.1;
    }
    Ok(())
}
