//! What is found by a key: events by their identities, and properties by their terms.
//!
//! [`EventStore`] has every present event in the order of time, each under a slot that stays.
//! [`PropTable`] has distinct properties in term order, each under a number that stays, with a
//! count of its mentions. Both search in [`KeyedSlots`], in the order of keys of 64 bits and, where
//! keys are equal, of what stands under them, and in no hash table, whose keys can be chosen to
//! meet.
//!
//! **Proved**: the store is the ordered list, the table is the list of terms with their mentions,
//! and a search finds what is there, and nothing else; after a reservation an insertion takes no
//! memory. **Not said**: how many comparisons a search makes. Start at `event_store.rt` and
//! `prop_table.rt`; `specs/Store.antt`, `specs/Table.antt` and `specs/Slots.antt` have the words.
#![tactic(auto)]

mod cursor;
mod event_store;
mod identities;
mod prop_keys;
mod prop_order;
mod prop_records;
mod prop_table;
mod property;
mod slots;
mod sought;

pub use cursor::Cursor;
pub use event_store::EventStore;
pub use prop_table::PropTable;
pub use slots::{KeyedSlot, KeyedSlots};
pub use sought::Sought;
