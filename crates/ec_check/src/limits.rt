//! The limits of a theory.

/// The most rules of a theory.
pub const MOST_RULES: usize = 1_024;

/// The most rules for events of one name and number of arguments.
pub const MOST_EVENT_RULES: usize = 64;

/// The most tests of a rule.
pub const MOST_TESTS: usize = 16;

/// The most literals of a rule.
pub const MOST_LITERALS: usize = 16;

/// The most exclusive declarations of a theory.
pub const MOST_EXCLUSIVES: usize = 256;

/// The most strong declarations of a theory.
pub const MOST_STRONGS: usize = 1_024;

/// The most initial properties of a theory.
pub const MOST_INITIALS: usize = 1_024;

/// The most time declarations of a theory.
pub const MOST_TIMES: usize = 1;
