//! The edits of a chain by places among all members.
ghost use Rattle.std.specs.Prelude.{◌≡◌, ◌+◌, ◌<◌, ◌≤◌, ◌++◌, ◌∷◌, [], Some, Bool, true, false, ◌⊎◌, ℕ, ◌-◌, ◌*◌, OnOk, OnErr, IfSome, max, length, take, drop, slice_get, slice_set};
ghost use Rattle.std.specs.Fn.{ComputesKey};
ghost use Rattle.std.specs.List.{insert, remove};
ghost use Rattle.std.specs.List.Sorted.{IsPartitionedBy, IsPartitionPoint};
ghost use Rattle.std.proofs.Common.{suc};
ghost use Rattle.ec_blocks.specs.Chain.{joined, block_at, debt, room_of};

use crate::chain::{CAPACITY, Chain, HALF, cut_near, cut_round};
use ec_lists::{Copied, NoMemory};

impl<X: Copied + Drop> Chain<X> {
    /// The member at a place.
    pub(crate) fn get(&self, i: usize) -> &X
        requires { i < length (joined self.now.blocks) }
        ensures { slice_get (joined self.now.blocks) i ≡ Some result.now }
    {
        let (k, place) = self.locate(i);
        &self.block(k)[place]
    }

    /// The members from a place on that are in one block.
    pub(crate) fn run(&self, i: usize) -> &[X]
        requires { i < length (joined self.now.blocks) }
        ensures some { 1 ≤ length result.now }
        ensures run { result.now ≡ take (length result.now) (drop i (joined self.now.blocks)) }
    {
        let (k, place) = self.locate(i);
        &self.block(k)[place..]
    }

    /// Whether a place in a block of `len` members has members of this block on both sides, or else an end of the list.
    fn is_enclosed(&self, k: usize, place: usize, len: usize) -> bool
        requires block { k < length self.now.blocks }
        requires len { len ≡ length (block_at k self.now.blocks) }
        ensures front { result ≡ true → (k ≡ 0) ⊎ (1 ≤ place) }
        ensures behind { result ≡ true → (k + 1 ≡ length self.now.blocks) ⊎ (place < length (block_at k self.now.blocks)) }
    {
        if 0 < place && place < len {
            return true;
        }
        let front = k == 0 || 0 < place;
        let behind = k == self.count() - 1 || place < len;
        front && behind
    }

    /// The place where the members that pass a test end, if it is shown by the few round the one that was found last.
    fn find_round<F: Fn(&X) -> bool>(&self, pred: &F) -> Option<usize>
        requires { F.IsAlwaysCallable pred.now }
        ensures bound { IfSome result (λ n. n ≤ length (joined self.now.blocks)) }
        ensures partitioned { IfSome result (λ n. (p : X → Bool) → ComputesKey F.FnMut p pred.now → IsPartitionedBy p (joined self.now.blocks) → IsPartitionPoint (λ x. p x ≡ true) (λ x. p x ≡ false) (joined self.now.blocks) n) }
    {
        let (k, near) = self.noted();
        if self.count() <= k {
            return None;
        }
        let block = self.block(k);
        let place = cut_round(block, near, pred)?;
        if self.is_enclosed(k, place, block.len()) {
            self.note(k, place);
            return Some(self.start(k) + place);
        }
        None
    }

    /// The place where the members that pass a test end, sought first at the end, and then round the one that was found last.
    pub(crate) fn partition_point<F: Fn(&X) -> bool>(&self, pred: &F) -> usize
        requires { F.IsAlwaysCallable pred.now }
        ensures bound { result ≤ length (joined self.now.blocks) }
        ensures partitioned { (p : X → Bool) → ComputesKey F.FnMut p pred.now → IsPartitionedBy p (joined self.now.blocks) → IsPartitionPoint (λ x. p x ≡ true) (λ x. p x ≡ false) (joined self.now.blocks) result }
    {
        if self.is_passed(pred) {
            return self.total();
        }
        match self.find_round(pred) {
            Some(place) => place,
            None => self.partition_all(pred),
        }
    }

    /// The place where the members that pass a test end, sought first round the place `near`, and then in its block. What is
    /// found there is taken only where the block shows that no other member matters.
    pub(crate) fn partition_near<F: Fn(&X) -> bool>(&self, near: usize, pred: &F) -> usize
        requires { F.IsAlwaysCallable pred.now }
        ensures bound { result ≤ length (joined self.now.blocks) }
        ensures partitioned { (p : X → Bool) → ComputesKey F.FnMut p pred.now → IsPartitionedBy p (joined self.now.blocks) → IsPartitionPoint (λ x. p x ≡ true) (λ x. p x ≡ false) (joined self.now.blocks) result }
    {
        if self.total() <= near {
            return self.partition_point(pred);
        }
        let (k, within) = self.locate(near);
        let block = self.block(k);
        let place = cut_near(block, within, pred);
        if self.is_enclosed(k, place, block.len()) {
            self.note(k, place);
            return near - within + place;
        }
        self.partition_all(pred)
    }

    /// Puts a member in place of the one at a place.
    pub(crate) fn set_at(&mut self, i: usize, x: X)
        requires { i < length (joined self.old.blocks) }
        ensures members { joined self.new.blocks ≡ slice_set (joined self.old.blocks) i x }
        ensures room { room_of self.old.blocks self.old.spares ≤ room_of self.new.blocks self.new.spares }
    {
        let (k, place) = self.locate(i);
        self.set(k, place, x);
    }

    /// Takes out the member at a place.
    pub(crate) fn remove_at(&mut self, i: usize) -> X
        requires { i < length (joined self.old.blocks) }
        ensures member { slice_get (joined self.old.blocks) i ≡ Some result }
        ensures members { joined self.new.blocks ≡ remove (joined self.old.blocks) i }
        ensures room { room_of self.old.blocks self.old.spares ≤ room_of self.new.blocks self.new.spares }
    {
        let (k, place) = self.locate(i);
        if self.block(k).len() == 1 {
            return self.remove_block(k);
        }
        self.remove(k, place)
    }

    /// Inserts a member at a place.
    pub(crate) fn insert_at(&mut self, i: usize, x: X)
        requires within { i ≤ length (joined self.old.blocks) }
        requires room { 1 ≤ room_of self.old.blocks self.old.spares }
        ensures members { joined self.new.blocks ≡ insert (joined self.old.blocks) i x }
        ensures room { room_of self.old.blocks self.old.spares ≤ room_of self.new.blocks self.new.spares + 1 }
    {
        if i == self.total() {
            self.insert_behind(x);
        } else {
            self.insert_in_front(i, x);
        }
    }

    /// Whether the last block is full, or there is none.
    fn is_last_full(&self) -> bool
        ensures full { result ≡ true → (k : ℕ) → suc k ≡ length self.now.blocks → length (block_at k self.now.blocks) ≡ 128 }
        ensures some { result ≡ false → 1 ≤ length self.now.blocks }
        ensures free { result ≡ false → length (block_at (length self.now.blocks - 1) self.now.blocks) < 128 }
    {
        let count = self.count();
        if count == 0 {
            return true;
        }
        self.block(count - 1).len() == CAPACITY
    }

    /// Inserts a member behind all others.
    fn insert_behind(&mut self, x: X)
        requires { 1 ≤ self.old.spares }
        ensures members { joined self.new.blocks ≡ joined self.old.blocks ++ x ∷ [] }
        ensures debt { debt self.new.blocks + 64 * self.old.spares ≤ debt self.old.blocks + 64 * self.new.spares + 1 }
        ensures spares { self.old.spares ≤ self.new.spares + 1 }
    {
        if self.is_last_full() {
            self.begin(x);
        } else {
            let last = self.count() - 1;
            let place = self.block(last).len();
            self.insert(last, place, x);
        }
    }

    /// Inserts a member in front of the one at a place.
    fn insert_in_front(&mut self, i: usize, x: X)
        requires within { i < length (joined self.old.blocks) }
        requires spare { 1 ≤ self.old.spares }
        ensures members { joined self.new.blocks ≡ insert (joined self.old.blocks) i x }
        ensures debt { debt self.new.blocks + 64 * self.old.spares ≤ debt self.old.blocks + 64 * self.new.spares + 1 }
        ensures spares { self.old.spares ≤ self.new.spares + 1 }
    {
        let (k, place) = self.locate(i);
        if self.block(k).len() < CAPACITY {
            self.insert(k, place, x);
            return;
        }
        self.split(k);
        if place <= HALF {
            self.insert(k, place, x);
        } else {
            self.insert(k + 1, place - HALF, x);
        }
    }

    /// Adds a member behind all others. It takes a spare block, or makes one. `Err`: memory ran out.
    pub(crate) fn push(&mut self, x: X) -> Result<(), NoMemory>
        ensures ok { OnOk result (joined self.new.blocks ≡ joined self.old.blocks ++ x ∷ []) }
        ensures err { OnErr result (joined self.new.blocks ≡ joined self.old.blocks) }
        ensures room { room_of self.old.blocks self.old.spares ≤ room_of self.new.blocks self.new.spares + 1 }
        ensures same_room { OnErr result (room_of self.old.blocks self.old.spares ≤ room_of self.new.blocks self.new.spares) }
    {
        if self.spares() == 0 {
            self.add_spare()?;
        }
        self.insert_behind(x);
        Ok(())
    }

    /// Makes room for `n` further members, by few spare blocks and never more than `n`.
    pub(crate) fn reserve(&mut self, n: usize) -> Result<(), NoMemory>
        ensures same { self.new.blocks ≡ self.old.blocks }
        ensures ok { OnOk result (n ≤ room_of self.new.blocks self.new.spares) }
        ensures room { room_of self.old.blocks self.old.spares ≤ room_of self.new.blocks self.new.spares }
        ensures most { room_of self.new.blocks self.new.spares ≤ max (room_of self.old.blocks self.old.spares) (n + 63) }
        ensures few { self.new.spares ≤ max self.old.spares n }
    {
        if n <= self.spares() {
            return Ok(()); // each insertion takes one spare block at the most
        }
        let debt = self.debt();
        let _count = self.count();
        for _made in self.spares()..n {
            if n <= (HALF * self.spares()).saturating_sub(debt) {
                return Ok(());
            }
            self.add_spare()?;
        }
        Ok(())
    }
}
