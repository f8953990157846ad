//! The limits on numbers and on the texts of moments.

/// The most digits that a number is written with.
pub const MOST_DIGITS: usize = 20;

/// The most bytes that the text of a moment has.
pub const LONGEST_MOMENT: usize = 40;
