//! The limits on a list of events.

/// The most events that are present at once.
pub const MOST_EVENTS: u64 = 262_144;

/// The most mentions of properties in the entries of the present events.
pub const MOST_MENTIONS: u64 = 1_048_576;

/// The most links between exclusive properties.
pub const MOST_LINKS: u64 = 16_777_216;
