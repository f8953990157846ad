//! What is kept by number.
//!
//! Properties and slots are numbers. [`ByNumber`] has a row for each, [`PropSet`] is an ascending
//! set, [`NumberMap`] and [`SmallMap`] are maps that a sweep fills and empties at each visit, and
//! [`Agenda`] tells the numbers that are due at a time, the earliest first.
//!
//! **Proved**: each call is exact on what it is seen as, a list of optional rows, a set, a map in
//! which a key stands in one row; after memory ran out all is as it was. **Not said**: how long a
//! search takes. Start at `by_number.rt` and `agenda.rt`; `specs/ByNumber.antt` and
//! `specs/Due.antt` have the words.
#![tactic(auto)]

mod agenda;
mod ascending;
mod by_number;
mod due_place;
mod few_rows;
mod number_map;
mod number_places;
mod prop_set;
mod small_map;

pub use agenda::Agenda;
pub use by_number::ByNumber;
pub use number_map::NumberMap;
pub use prop_set::PropSet;
pub use small_map::SmallMap;
