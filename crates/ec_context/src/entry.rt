//! Entries whose properties are numbers of a table.
ghost use Rattle.std.specs.Prelude.{◌≡◌, ◌<◌, ◌≤◌, [], ◌∷◌, ◌++◌, length, slice_get, false, Some, OnOk, OnErr};
ghost use Rattle.ec_context.specs.Entries.{IsEntryList};

use ec_lists::NoMemory;
use ec_terms::{Kind, PropId};
use smallvec::SmallVec;
use std::alloc::Global;
use std::marker::Model;

/// The most literals that an entry has, which are those of its rule.
pub const MOST_LITERALS: usize = ec_check::MOST_LITERALS;

/// The most entries that an event has: one for each rule with its name and number of arguments.
pub const MOST_ENTRIES: usize = ec_check::MOST_EVENT_RULES;

/// A literal of an entry: that a property is current, or, where not `positive`, that it is not. Which of the two, only
/// `evaluate` reads, so that no condition is tried without a step.
#[derive(Clone, Copy)]
pub struct EntryLiteral {
    pub(crate) positive: bool,
    pub prop: PropId,
}

impl EntryLiteral {
    /// The literal that a property is current, or, where not `positive`, that it is not.
    pub fn new(positive: bool, prop: PropId) -> EntryLiteral
        ensures { result ≡ record { positive = positive; prop = prop } }
    {
        EntryLiteral { positive, prop }
    }
}

/// The literal that fills the unused places of a list of literals.
impl Default for EntryLiteral {
    fn default() -> EntryLiteral
        ensures { result ≡ record { positive = false; prop = record { 0 = 0 } } }
    {
        EntryLiteral {
            positive: false,
            prop: PropId(0),
        }
    }
}

/// The literals of an entry in the rule's order, at most `MOST_LITERALS`. The first two are kept in place, since most
/// rules have no more.
#[derive(Drop)]
pub struct EntryLiterals {
    items: SmallVec<EntryLiteral, 2>,
}

impl Model for EntryLiterals {
    ghost use Rattle.std.specs.Prelude.{List, length, ◌≤◌};
    ghost use Rattle.ec_context.specs.declared.entry.EntryLiteral.{EntryLiteral};
    ghost use Rattle.ec_context.specs.declared.entry.TheConstants.{MOST_LITERALS};

    ghost Value = { List EntryLiteral };

    ghost view = { λ literals. literals.items.items };

    ghost invariant = { λ literals. length literals.items.items ≤ MOST_LITERALS };
}

/// A rule that an event meets, with the variables of its head and its literals filled in: what the event would do
/// to which property, and on which conditions.
#[derive(Drop)]
pub struct Entry {
    /// The number of the rule, from 1, counting rules alone.
    pub rule: u16,
    pub kind: Kind,
    pub head: PropId,
    pub literals: EntryLiterals,
}

/// The entries of an event: at most `MOST_ENTRIES`, by ascending numbers of their rules.
#[derive(Drop)]
pub struct EntryList {
    items: Vec<Entry>,
}

impl Model for EntryList {
    ghost use Rattle.std.specs.Prelude.{List};
    ghost use Rattle.ec_context.specs.declared.entry.Entry.{Entry};
    ghost use Rattle.ec_context.specs.Entries.{IsEntryList};

    ghost Value = { List Entry };

    ghost view = { λ entries. entries.items.items };

    ghost invariant = { λ entries. IsEntryList entries.items.items };
}

impl EntryLiterals {
    /// No literals. It takes no memory.
    pub fn new(alloc: Global) -> EntryLiterals
        ensures { result ≡ [] }
    {
        EntryLiterals {
            items: SmallVec::new(alloc),
        }
    }

    /// How many literals there are.
    pub fn len(&self) -> usize
        ensures count { result ≡ length self.now }
        ensures few { result ≤ MOST_LITERALS }
    {
        self.items.len()
    }

    /// The literal at a place, from 0.
    pub fn get(&self, i: usize) -> EntryLiteral
        requires { i < length self.now }
        ensures { slice_get self.now i ≡ Some result }
    {
        self.items[i]
    }

    /// All literals, in order.
    pub fn as_slice(&self) -> &[EntryLiteral]
        ensures items { result.now ≡ self.now }
        ensures few { length self.now ≤ MOST_LITERALS }
    {
        self.items.as_slice()
    }

    /// Adds a literal at the end. `Err`: memory ran out, and the literals are as they were.
    pub fn push(&mut self, literal: EntryLiteral) -> Result<(), NoMemory>
        requires { length self.old < MOST_LITERALS }
        ensures ok { OnOk result (self.new ≡ self.old ++ literal ∷ []) }
        ensures err { OnErr result (self.new ≡ self.old) }
    {
        self.items.push(literal)?;
        Ok(())
    }
}

impl EntryList {
    /// No entries. It takes no memory.
    pub fn new(alloc: Global) -> EntryList
        ensures { result ≡ [] }
    {
        EntryList {
            items: Vec::new(alloc),
        }
    }

    /// How many entries there are.
    pub fn len(&self) -> usize
        ensures count { result ≡ length self.now }
        ensures list { IsEntryList self.now }
    {
        self.items.len()
    }

    /// The entry at a place, from 0.
    pub fn get(&self, i: usize) -> &Entry
        requires { i < length self.now }
        ensures { slice_get self.now i ≡ Some result.now }
    {
        &self.items[i]
    }

    /// All entries, in order.
    pub fn as_slice(&self) -> &[Entry]
        ensures items { result.now ≡ self.now }
        ensures list { IsEntryList self.now }
    {
        self.items.as_slice()
    }

    /// Adds an entry at the end. `Err`: memory ran out, and the entries are as they were.
    pub fn push(&mut self, entry: Entry) -> Result<(), NoMemory>
        requires { IsEntryList (self.old ++ entry ∷ []) }
        ensures ok { OnOk result (self.new ≡ self.old ++ entry ∷ []) }
        ensures err { OnErr result (self.new ≡ self.old) }
    {
        // Most events have an entry or two, and there may be very many events: no room is kept for more.
        self.items.reserve_exact(1)?;
        self.items.push_reserved(entry);
        Ok(())
    }
}
