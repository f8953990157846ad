//! The limits on names, terms and clauses.

/// The most bytes that a name or a variable has.
pub const LONGEST_NAME: usize = 64;

/// The most arguments that a term has.
pub const MOST_ARGS: usize = 8;

/// The most variables that a clause has.
pub const MOST_VARIABLES: usize = 16;

/// The most bytes that the text of a term has: a name, as many names as there can be arguments, a
/// mark before each, and the `)`.
pub const LONGEST_TERM: usize = LONGEST_NAME + MOST_ARGS * (LONGEST_NAME + 1) + 1;
