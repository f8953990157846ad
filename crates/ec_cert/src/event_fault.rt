//! What an event file is refused for.

use ec_lists::NoMemory;

/// What a line of an event file is refused for.
#[derive(Clone, Copy)]
pub enum EventName {
    /// The line is long, or neither silent nor an `assert` without a prefix.
    Syntax,
    /// An event of this identity stands in an earlier line.
    Duplicate,
    /// There are as many events as there may be.
    FullEvents,
    /// There would be too many mentions of properties.
    FullMentions,
    /// There would be too many links between exclusive properties.
    FullLinks,
}

/// Why an event file was not read: its first line that is refused, by its number from 1, or that
/// memory ran out.
#[derive(Clone, Copy)]
pub enum EventFault {
    At(u32, EventName),
    Memory,
}

impl From<NoMemory> for EventFault {
    ghost use Rattle.std.specs.Prelude.{◌≡◌};
    ghost use Rattle.ec_cert.specs.declared.event_fault.EventFault.TheVariants.{Memory};

    ghost from_gives = { λ _ fault. fault ≡ Memory };

    fn from(_e: NoMemory) -> EventFault {
        EventFault::Memory
    }
}
