//! The limits on a line, on drafts, on sessions, on the past, on pairs and on what is watched.

/// The most bytes that a line has without its line end.
pub const LONGEST_LINE: usize = 4_096;

/// How many sessions there are. They are numbered from 0.
pub const SESSIONS: u8 = 64;

/// The most updates of a draft.
pub const MOST_DRAFTED: u64 = 1_024;

/// The most single updates whose lists can be asked about: a commit counts as many as it has, and one if it has none.
pub const MOST_PAST: u64 = 65_536;

/// The most pairs of intervals that a reply lists.
pub const MOST_PAIRS: u64 = 65_536;

/// The most properties that a session watches.
pub const MOST_WATCHED: u64 = 64;
