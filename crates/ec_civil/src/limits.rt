//! The limits of civil time.

/// The rank of 9999-12-31T23:59:59Z, the last civil time.
pub const MOST_CIVIL: u64 = 315_569_519_999;

/// The days of the years 0 to 9999.
pub(crate) const DAYS: u64 = 3_652_425;

/// How many bytes the text of a civil time has.
pub(crate) const TEXT_LENGTH: usize = 20;
