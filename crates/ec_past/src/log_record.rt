//! One single update in a journal.
ghost use Rattle.std.specs.Prelude.{◌≡◌, ◌<◌, IfOk, IfSome, Some, option_map};
ghost use Rattle.std.specs.Option.{option_copied};
ghost use Rattle.ec_axioms.specs.Events.{event_of};
ghost use Rattle.ec_past.specs.Logged.{last_with, plain_record, plain_records};
ghost use Rattle.ec_past.specs.Records.{event_in};

use ec_axioms::Event;
use ec_lists::NoMemory;
use ec_moment::Moment;
use ec_terms::Name;
use std::alloc::Global;

/// A single update as it was made, with the event that it added or removed. So it can be made again, and taken back.
#[derive(Drop)]
pub(crate) enum LogRecord<T> {
    Added(Event<T>),
    Removed(Event<T>),
}

impl<T: Moment> LogRecord<T> {
    /// The event that the update added or removed.
    pub(crate) fn event(&self) -> &Event<T>
        ensures { event_of T.rank result.now ≡ event_in (plain_record T.rank self.now) }
    {
        match self {
            LogRecord::Added(event) => event,
            LogRecord::Removed(event) => event,
        }
    }
}

/// The last of some records that has an identity.
pub(crate) fn last_of<'a, T: Moment>(
    records: &'a [LogRecord<T>],
    id: &Name,
) -> Option<&'a LogRecord<T>>
    ensures { option_map (plain_record T.rank) (option_copied result) ≡ last_with id.now (plain_records T.rank records.now) }
{
    let mut place = records.len();
    while 0 < place {
        place -= 1;
        let record = &records[place];
        if record.event().id == *id {
            return Some(record);
        }
    }
    None
}

/// The same event again. `Err`: memory ran out.
pub(crate) fn copied_event<T: Moment>(alloc: Global, event: &Event<T>) -> Result<Event<T>, NoMemory>
    ensures { IfOk result (λ copy. event_of T.rank copy ≡ event_of T.rank event.now) }
{
    let term = event.term.borrow().to_ground(alloc)?;
    Ok(Event {
        id: event.id.copied(),
        at: event.at,
        term,
    })
}
