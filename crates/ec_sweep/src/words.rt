//! Which entries of events are active, as the bits of words.
ghost use Rattle.std.specs.Prelude.{◌≡◌, ◌≢◌, ◌<◌, ◌==◌, ℕ, [], map, length, slice_get, Some, unwrap_or, IsTrue, OnOk, if◌then◌else◌};
ghost use Rattle.ec_parts.specs.Activity.{is_bit_set};
ghost use Rattle.ec_delta.specs.Looked.{are_apart};
ghost use Rattle.ec_sweep.specs.Words.{flip_of, word_at};

use ec_delta::Flip;
use ec_lists::NoMemory;
use ec_numbered::NumberMap;
use ec_terms::{Sequence, Slot};
use std::alloc::Global;
use std::marker::Model;

/// Whether a bit of a word is set.
pub(crate) fn has_bit(word: u64, k: usize) -> bool
    requires { k < 64 }
    ensures { result ≡ is_bit_set word k }
{
    (word >> k) & 1 == 1
}

/// A word with one bit set or not.
pub(crate) fn with_bit(word: u64, k: usize, on: bool) -> u64
    requires { k < 64 }
    ensures { (i : ℕ) → is_bit_set result i ≡ (if k == i then on else is_bit_set word i) }
{
    if on { word | 1 << k } else { word & !(1 << k) }
}

/// New words of slots.
#[derive(Drop)]
pub(crate) struct Words {
    rows: NumberMap<u64>,
}

impl Model for Words {
    ghost use Rattle.std.specs.Prelude.{ℕ, List};

    ghost Value = { List (ℕ × ℕ) };

    ghost view = { λ words. words.rows };
}

impl Words {
    /// No words. It takes no memory.
    pub(crate) fn new(alloc: Global) -> Words
        ensures { result ≡ [] }
    {
        Words {
            rows: NumberMap::new(alloc),
        }
    }

    /// Takes all words out. Their room is kept.
    pub(crate) fn clear(&mut self)
        ensures { self.new ≡ [] }
    {
        self.rows.clear();
    }

    /// Says whether the entry at a place of a slot is active, where `before` is the word of the slot without a new one.
    /// `Err`: memory ran out.
    pub(crate) fn note(
        &mut self,
        slot: Slot,
        place: usize,
        before: u64,
        is_active: bool,
    ) -> Result<(), NoMemory>
        requires { place < 64 }
        ensures here { OnOk result ((k : ℕ) → is_bit_set (unwrap_or (word_at slot.0 self.new) before) k ≡ (if place == k then is_active else is_bit_set (unwrap_or (word_at slot.0 self.old) before) k)) }
        ensures others { OnOk result ((n : ℕ) → slot.0 ≢ n → word_at n self.new ≡ word_at n self.old) }
    {
        let word = self.rows.get(slot.0).unwrap_or(before);
        if has_bit(word, place) != is_active {
            self.rows.insert(slot.0, with_bit(word, place, is_active))?;
        }
        Ok(())
    }

    /// Of how many slots there are words.
    pub(crate) fn len(&self) -> usize
        ensures len { result ≡ length self.now }
        ensures apart { IsTrue (are_apart (map flip_of self.now)) }
    {
        self.rows.len()
    }

    /// The slot at a place, and its word.
    pub(crate) fn row(&self, i: usize) -> Flip
        requires { i < length self.now }
        ensures { slice_get (map flip_of self.now) i ≡ Some result }
    {
        let (slot, active) = self.rows.row(i);
        Flip {
            slot: Slot(slot),
            active,
        }
    }
}
