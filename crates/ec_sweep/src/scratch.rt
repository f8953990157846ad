//! The lists of one visit, which the next one fills again.
ghost use Rattle.std.specs.Prelude.{◌≡◌, []};

use crate::hits::Hits;
use crate::places::Places;
use crate::words::Words;
use ec_revise::{Tally, Turn};
use ec_terms::PropId;
use std::alloc::Global;
use std::mem;

/// The lists of one visit, kept for their room alone: each visit takes them empty, and gives them back.
#[derive(Drop)]
pub(crate) struct Scratch {
    pub due: Vec<PropId>,
    pub hits: Hits,
    pub words: Words,
    pub turns: Vec<Turn>,
    pub tally: Tally,
    pub places: Places,
    alloc: Global,
}

impl Scratch {
    /// Lists without room. It takes no memory.
    pub(crate) fn new(alloc: Global) -> Scratch {
        Scratch {
            due: Vec::new(alloc),
            hits: Hits::new(alloc),
            words: Words::new(alloc),
            turns: Vec::new(alloc),
            tally: Tally::new(alloc),
            places: Places::new(),
            alloc,
        }
    }

    /// The list of what is due, emptied.
    pub(crate) fn take_due(&mut self) -> Vec<PropId>
        ensures { result.items ≡ [] }
    {
        let mut due = mem::replace(&mut self.due, Vec::new(self.alloc));
        due.clear();
        due
    }

    /// The hits, emptied.
    pub(crate) fn take_hits(&mut self) -> Hits
        ensures { result ≡ [] }
    {
        let mut hits = mem::replace(&mut self.hits, Hits::new(self.alloc));
        hits.clear();
        hits
    }

    /// The words, emptied.
    pub(crate) fn take_words(&mut self) -> Words
        ensures { result ≡ [] }
    {
        let mut words = mem::replace(&mut self.words, Words::new(self.alloc));
        words.clear();
        words
    }

    /// The list of what turned, emptied.
    pub(crate) fn take_turns(&mut self) -> Vec<Turn>
        ensures { result.items ≡ [] }
    {
        let mut turns = mem::replace(&mut self.turns, Vec::new(self.alloc));
        turns.clear();
        turns
    }

    /// The tally, emptied.
    pub(crate) fn take_tally(&mut self) -> Tally
        ensures { result ≡ [] }
    {
        let mut tally = mem::replace(&mut self.tally, Tally::new(self.alloc));
        tally.clear();
        tally
    }
}
