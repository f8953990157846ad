//! A list in blocks of at most 128 members, one behind another.
ghost use Rattle.std.specs.Prelude.{◌≡◌, ◌⊎◌, ◌+◌, ◌-◌, ◌*◌, ◌^◌, ◌<◌, ◌≤◌, ◌++◌, ◌∷◌, [], Bool, true, false, Some, IfSome, IsTrue, OnOk, OnErr, length, take, drop, slice_get, slice_set, map, vec_len};
ghost use Rattle.std.specs.Fn.{ComputesKey};
ghost use Rattle.std.specs.List.{insert, remove, list_all};
ghost use Rattle.std.specs.List.Sorted.{IsPartitionedBy, IsPartitionPoint};
ghost use Rattle.std.specs.Vec.{vec_capacity};
ghost use Rattle.ec_blocks.specs.Chain.{joined, block_at, debt, start_of, last_of, is_block};
ghost use Rattle.ec_blocks.specs.ChainParts.{is_kept, is_spare};

use crate::counts::Counts;
use crate::starts::Starts;
use crate::tiers::{Tiers, passes};
use ec_lists::{Copied, NoMemory, add_counts};
use std::alloc::Global;
use std::cell::Cell;
use std::marker::Model;

/// How many members a block holds at the most.
pub(crate) const CAPACITY: usize = 128;

/// Half of a full block.
pub(crate) const HALF: usize = 64;

/// How many members from a place on are looked at before the other ones of its block.
const ROUND: usize = 3;

/// Blocks one behind another, and empty ones that lie ready.
#[derive(Drop)]
pub(crate) struct Chain<X> {
    blocks: Tiers<Vec<X>>,
    /// How many members are in front of each block.
    starts: Starts,
    /// A copy of the last member of each block, so that a search reads these alone.
    lasts: Tiers<X>,
    spares: Vec<Vec<X>>,
    counts: Counts,
    /// The block that was found last, where the next search begins. It changes no answer.
    found: Cell<usize>,
    /// A place in it that was found by a test.
    place: Cell<usize>,
}

impl<X> Model for Chain<X> {
    ghost use Rattle.std.specs.Prelude.{length, map, vec_len};
    ghost use Rattle.std.specs.Vec.{vec_capacity};
    ghost use Rattle.ec_blocks.specs.Chain.{Chained};
    ghost use Rattle.ec_blocks.specs.ChainParts.{IsChain, HasRooms, IsCounted};

    ghost Value = { Chained X };

    ghost view = { λ chain. record { blocks = map (λ block. block.items) chain.blocks.items; spares = vec_len chain.spares } };

    ghost invariant = { λ chain. IsChain (λ block. block.items) (λ block. vec_capacity block) chain.blocks.items chain.starts.items chain.lasts.items chain.spares.items × HasRooms (length chain.blocks.items) (vec_len chain.spares) chain.blocks.room chain.starts.room chain.lasts.room (vec_capacity chain.spares) × IsCounted (map (λ block. block.items) chain.blocks.items) chain.counts.total chain.counts.owed };
}

impl<X: Copied + Drop> Chain<X> {
    /// No blocks. It takes no memory.
    pub(crate) fn new(alloc: Global) -> Chain<X>
        ensures { result ≡ record { blocks = []; spares = 0 } }
    {
        Chain {
            blocks: Tiers::new(alloc),
            starts: Starts::new(alloc),
            lasts: Tiers::new(alloc),
            spares: Vec::new(alloc),
            counts: Counts::new(),
            found: Cell::new(0),
            place: Cell::new(0),
        }
    }

    /// How many blocks there are.
    pub(crate) fn count(&self) -> usize
        ensures count { result ≡ length self.now.blocks }
        ensures few { length self.now.blocks + self.now.spares ≤ 2 ^ 56 }
        ensures kept { IsTrue (list_all is_block self.now.blocks) }
    {
        self.blocks.len()
    }

    /// How many spare blocks there are.
    pub(crate) fn spares(&self) -> usize
        ensures count { result ≡ self.now.spares }
        ensures few { self.now.spares ≤ 2 ^ 56 }
    {
        self.spares.len()
    }

    /// How many members are in front of a block.
    pub(crate) fn start(&self, k: usize) -> usize
        requires { k < length self.now.blocks }
        ensures { result ≡ start_of k self.now.blocks }
    {
        self.starts.get(k)
    }

    /// The members of a block.
    pub(crate) fn block(&self, k: usize) -> &[X]
        requires { k < length self.now.blocks }
        ensures block { result.now ≡ block_at k self.now.blocks }
        ensures kept { IsTrue (is_block result.now) }
    {
        self.blocks.get(k)
    }

    /// Puts a member in place of one in a block.
    pub(crate) fn set(&mut self, k: usize, place: usize, x: X)
        requires block { k < length self.old.blocks }
        requires place { place < length (block_at k self.old.blocks) }
        ensures blocks { self.new.blocks ≡ slice_set self.old.blocks k (slice_set (block_at k self.old.blocks) place x) }
        ensures spares { self.new.spares ≡ self.old.spares }
    {
        let block = self.blocks.get_mut(k);
        let len = block.len();
        put_within(block, place, x);
        keep_last(block, &mut self.lasts, k, place + 1 == len);
    }

    /// Inserts a member in a block that is not full.
    pub(crate) fn insert(&mut self, k: usize, place: usize, x: X)
        requires block { k < length self.old.blocks }
        requires place { place ≤ length (block_at k self.old.blocks) }
        requires room { length (block_at k self.old.blocks) < 128 }
        ensures blocks { self.new.blocks ≡ slice_set self.old.blocks k (insert (block_at k self.old.blocks) place x) }
        ensures spares { self.new.spares ≡ self.old.spares }
    {
        let block = self.blocks.get_mut(k);
        let len = block.len();
        insert_within(block, place, x);
        keep_last(block, &mut self.lasts, k, place == len);
        self.starts.raise_behind(k);
        self.counts.change(len, len + 1);
    }

    /// How many members there are.
    pub(crate) fn total(&self) -> usize
        ensures { result ≡ length (joined self.now.blocks) }
    {
        self.counts.total()
    }

    /// How far the blocks are on the way to their next splits.
    pub(crate) fn debt(&self) -> usize
        ensures { result ≡ debt self.now.blocks }
    {
        let count = self.count();
        if count == 0 {
            return HALF;
        }
        self.counts.owed() + self.block(count - 1).len().min(HALF)
    }

    /// Whether a place is in a block.
    fn is_in(&self, i: usize, k: usize) -> bool
        ensures within { result ≡ true → k < length self.now.blocks }
        ensures from { result ≡ true → start_of k self.now.blocks ≤ i }
        ensures to { result ≡ true → i < start_of k self.now.blocks + length (block_at k self.now.blocks) }
        ensures kept { IsTrue (list_all is_block self.now.blocks) }
        ensures few { length self.now.blocks ≤ 2 ^ 56 }
    {
        if self.count() <= k {
            return false;
        }
        let start = self.start(k);
        start <= i && i - start < self.block(k).len()
    }

    /// The block that a place is in, and the place in that block. The one that was found last is looked at first.
    #[inline(always)]
    pub(crate) fn locate(&self, i: usize) -> (usize, usize)
        requires { i < length (joined self.now.blocks) }
        ensures within { result.0 < length self.now.blocks }
        ensures place { start_of result.0 self.now.blocks + result.1 ≡ i }
        ensures to { result.1 < length (block_at result.0 self.now.blocks) }
        ensures kept { IsTrue (list_all is_block self.now.blocks) }
        ensures few { length self.now.blocks ≤ 2 ^ 56 }
    {
        let near = self.found.get();
        if self.is_in(i, near) {
            return (near, i - self.start(near));
        }
        let k = self.starts.count_up_to(i) - 1;
        self.found.set(k);
        (k, i - self.start(k))
    }

    /// Whether all members pass a test, as the last one tells. Most of what is sought is at the end.
    pub(crate) fn is_passed<F: Fn(&X) -> bool>(&self, pred: &F) -> bool
        requires { F.IsAlwaysCallable pred.now }
        ensures { (p : X → Bool) → ComputesKey F.FnMut p pred.now → IsPartitionedBy p (joined self.now.blocks) → result ≡ true → IsPartitionPoint (λ x. p x ≡ true) (λ x. p x ≡ false) (joined self.now.blocks) (length (joined self.now.blocks)) }
    {
        let count = self.lasts.len();
        if count == 0 {
            return false;
        }
        passes(self.lasts.get(count - 1), pred)
    }

    /// The place where the members that pass a test end, sought among all.
    pub(crate) fn partition_all<F: Fn(&X) -> bool>(&self, pred: &F) -> usize
        requires { F.IsAlwaysCallable pred.now }
        ensures bound { result ≤ length (joined self.now.blocks) }
        ensures partitioned { (p : X → Bool) → ComputesKey F.FnMut p pred.now → IsPartitionedBy p (joined self.now.blocks) → IsPartitionPoint (λ x. p x ≡ true) (λ x. p x ≡ false) (joined self.now.blocks) result }
    {
        let k = self.lasts.partition_point(pred);
        if k == self.blocks.len() {
            return self.total();
        }
        let place = cut(self.blocks.get(k), pred);
        self.note(k, place);
        self.starts.get(k) + place
    }

    /// Notes what was found, for the next search.
    pub(crate) fn note(&self, k: usize, place: usize) {
        self.found.set(k);
        self.place.set(place);
    }

    /// What was noted last.
    pub(crate) fn noted(&self) -> (usize, usize) {
        (self.found.get(), self.place.get())
    }

    /// Takes out a member of a block of several.
    pub(crate) fn remove(&mut self, k: usize, place: usize) -> X
        requires block { k < length self.old.blocks }
        requires place { place < length (block_at k self.old.blocks) }
        requires others { 2 ≤ length (block_at k self.old.blocks) }
        ensures member { slice_get (block_at k self.old.blocks) place ≡ Some result }
        ensures blocks { self.new.blocks ≡ slice_set self.old.blocks k (remove (block_at k self.old.blocks) place) }
        ensures spares { self.new.spares ≡ self.old.spares }
    {
        let block = self.blocks.get_mut(k);
        let len = block.len();
        let x = remove_within(block, place);
        keep_last(block, &mut self.lasts, k, place + 1 == len);
        self.starts.lower_behind(k);
        self.counts.change(len, len - 1);
        x
    }

    /// Takes out a block of one member, which is then a spare one, and gives the member.
    pub(crate) fn remove_block(&mut self, k: usize) -> X
        requires block { k < length self.old.blocks }
        requires alone { length (block_at k self.old.blocks) ≡ 1 }
        ensures member { slice_get (block_at k self.old.blocks) 0 ≡ Some result }
        ensures blocks { self.new.blocks ≡ remove self.old.blocks k }
        ensures spares { self.new.spares ≡ self.old.spares + 1 }
    {
        self.starts.lower_behind(k);
        self.starts.remove(k);
        self.lasts.remove(k);
        let mut block = self.blocks.remove(k);
        let x = remove_within(&mut block, 0);
        self.spares.push_reserved(block);
        self.counts.change(1, 0);
        x
    }

    /// Makes two halves of a full block, by means of a spare one.
    pub(crate) fn split(&mut self, k: usize)
        requires block { k < length self.old.blocks }
        requires full { length (block_at k self.old.blocks) ≡ 128 }
        requires spare { 1 ≤ self.old.spares }
        ensures blocks { self.new.blocks ≡ insert (slice_set self.old.blocks k (take 64 (block_at k self.old.blocks))) (k + 1) (drop 64 (block_at k self.old.blocks)) }
        ensures spares { self.new.spares + 1 ≡ self.old.spares }
    {
        let mut behind = take_spare(&mut self.spares);
        let block = self.blocks.get_mut(k);
        move_half(block, &mut behind);
        insert_last(block, &mut self.lasts, k);
        let start = self.starts.get(k) + HALF;
        self.starts.insert(k + 1, start);
        self.blocks.insert(k + 1, behind);
        self.counts.change(CAPACITY, HALF);
        self.counts.change(0, HALF);
    }

    /// Adds a block with copies of these members at the end, by means of a spare one.
    pub(crate) fn append(&mut self, members: &[X])
        requires block { IsTrue (is_block members.now) }
        requires spare { 1 ≤ self.old.spares }
        ensures blocks { self.new.blocks ≡ self.old.blocks ++ members.now ∷ [] }
        ensures spares { self.new.spares + 1 ≡ self.old.spares }
    {
        let start = self.total();
        let mut block = take_spare(&mut self.spares);
        fill(&mut block, members);
        self.starts.push(start);
        self.lasts.push(members[members.len() - 1].copied());
        self.blocks.push(block);
        self.counts.change(0, members.len());
    }

    /// Begins a block with one member at the end, by means of a spare one.
    pub(crate) fn begin(&mut self, x: X)
        requires { 1 ≤ self.old.spares }
        ensures blocks { self.new.blocks ≡ self.old.blocks ++ (x ∷ []) ∷ [] }
        ensures spares { self.new.spares + 1 ≡ self.old.spares }
    {
        let start = self.total();
        let mut block = take_spare(&mut self.spares);
        let last = x.copied();
        block.push_reserved(x);
        self.starts.push(start);
        self.lasts.push(last);
        self.blocks.push(block);
        self.counts.change(0, 1);
    }

    /// Makes one more spare block. `Err`: memory ran out.
    pub(crate) fn add_spare(&mut self) -> Result<(), NoMemory>
        ensures blocks { self.new.blocks ≡ self.old.blocks }
        ensures ok { OnOk result (self.new.spares ≡ self.old.spares + 1) }
        ensures err { OnErr result (self.new.spares ≡ self.old.spares) }
    {
        let count = self.blocks.len();
        let spares = self.spares.len();
        let members = (count + spares) * CAPACITY;
        let _twice = add_counts(members, members)?; // so that all members can be counted
        widen(
            &mut self.blocks,
            &mut self.starts,
            &mut self.lasts,
            spares + 1,
        )?;
        push_spare(&mut self.spares, count)
    }

    /// Makes all blocks spare ones.
    pub(crate) fn clear(&mut self)
        ensures blocks { self.new.blocks ≡ [] }
        ensures spares { self.new.spares ≡ self.old.spares + length self.old.blocks }
    {
        empty(&mut self.blocks, &mut self.spares);
        self.starts.clear();
        self.lasts.clear();
        self.counts = Counts::new();
    }
}

/// The place where the members that pass a test end.
pub(crate) fn cut<X, F: Fn(&X) -> bool>(members: &[X], pred: &F) -> usize
    requires { F.IsAlwaysCallable pred.now }
    ensures bound { result ≤ length members.now }
    ensures partitioned { (p : X → Bool) → ComputesKey F.FnMut p pred.now → IsPartitionedBy p members.now → IsPartitionPoint (λ x. p x ≡ true) (λ x. p x ≡ false) members.now result }
{
    members.partition_point(pred)
}

/// Whether a place, found among the members from one place up to another, has members of these on both sides, or else an
/// end of the list.
fn is_between(place: usize, from: usize, to: usize, len: usize) -> bool
    ensures front { result ≡ true → (from ≡ 0) ⊎ (from < place) }
    ensures behind { result ≡ true → (to ≡ len) ⊎ (place < to) }
{
    if from < place && place < to {
        return true;
    }
    let front = from == 0 || from < place;
    let behind = to == len || place < to;
    front && behind
}

/// The place where the members that pass a test end, if it is shown by the few round the place `near`.
pub(crate) fn cut_round<X, F: Fn(&X) -> bool>(members: &[X], near: usize, pred: &F) -> Option<usize>
    requires { F.IsAlwaysCallable pred.now }
    ensures bound { IfSome result (λ place. place ≤ length members.now) }
    ensures partitioned { IfSome result (λ place. (p : X → Bool) → ComputesKey F.FnMut p pred.now → IsPartitionedBy p members.now → IsPartitionPoint (λ x. p x ≡ true) (λ x. p x ≡ false) members.now place) }
{
    if members.len() <= near {
        return None;
    }
    let from = near.saturating_sub(1);
    let to = members.len().min(near.saturating_add(ROUND));
    let place = from + cut(&members[from..to], pred);
    if is_between(place, from, to, members.len()) {
        Some(place)
    } else {
        None
    }
}

/// The place where the members that pass a test end, sought first among the few round the place `near`.
pub(crate) fn cut_near<X, F: Fn(&X) -> bool>(members: &[X], near: usize, pred: &F) -> usize
    requires { F.IsAlwaysCallable pred.now }
    ensures bound { result ≤ length members.now }
    ensures partitioned { (p : X → Bool) → ComputesKey F.FnMut p pred.now → IsPartitionedBy p members.now → IsPartitionPoint (λ x. p x ≡ true) (λ x. p x ≡ false) members.now result }
{
    match cut_round(members, near, pred) {
        Some(place) => place,
        None => cut(members, pred),
    }
}

/// Puts a member in place of the one at a place.
pub(crate) fn put_within<X: Drop>(block: &mut Vec<X>, place: usize, x: X)
    requires within { place < vec_len block.old }
    ensures items { block.new.items ≡ slice_set block.old.items place x }
    ensures len { vec_len block.new ≡ vec_len block.old }
    ensures capacity { vec_capacity block.old ≤ vec_capacity block.new }
{
    block[place] = x;
}

/// Inserts a member at a place, where the block has room for it.
pub(crate) fn insert_within<X: Drop>(block: &mut Vec<X>, place: usize, x: X)
    requires within { place ≤ vec_len block.old }
    requires room { vec_len block.old < vec_capacity block.old }
    ensures items { block.new.items ≡ insert block.old.items place x }
    ensures len { vec_len block.new ≡ vec_len block.old + 1 }
    ensures capacity { vec_capacity block.old ≤ vec_capacity block.new }
{
    match block.insert(place, x) {
        Ok(()) => {}
        Err(_) => unreachable!(),
    }
}

/// Keeps a copy of the last member of a block in its place, if it is another one than before.
fn keep_last<X: Copied + Drop>(block: &[X], lasts: &mut Tiers<X>, k: usize, is_other: bool)
    requires some { 1 ≤ length block.now }
    requires within { k < length lasts.old.items }
    requires same { is_other ≡ false → slice_get lasts.old.items k ≡ last_of block.now }
    ensures lasts { map Some lasts.new.items ≡ slice_set (map Some lasts.old.items) k (last_of block.now) }
    ensures room { lasts.new.room ≡ lasts.old.room }
{
    if !is_other {
        return;
    }
    *lasts.get_mut(k) = block[block.len() - 1].copied();
}

/// Takes out the member at a place.
pub(crate) fn remove_within<X: Drop>(block: &mut Vec<X>, place: usize) -> X
    requires { place < vec_len block.old }
    ensures member { slice_get block.old.items place ≡ Some result }
    ensures items { block.new.items ≡ remove block.old.items place }
    ensures len { vec_len block.new + 1 ≡ vec_len block.old }
    ensures capacity { vec_capacity block.old ≤ vec_capacity block.new }
{
    block.remove(place)
}

/// Puts a copy of the last member of a block in front of the one of the block behind it.
fn insert_last<X: Copied + Drop>(block: &[X], lasts: &mut Tiers<X>, k: usize)
    requires some { 1 ≤ length block.now }
    requires within { k ≤ length lasts.old.items }
    requires room { length lasts.old.items < lasts.old.room }
    ensures lasts { map Some lasts.new.items ≡ insert (map Some lasts.old.items) k (last_of block.now) }
    ensures room { lasts.old.room ≤ lasts.new.room }
{
    lasts.insert(k, block[block.len() - 1].copied());
}

/// Adds copies of members at the end of a block that has room for them.
fn fill<X: Copied + Drop>(block: &mut Vec<X>, members: &[X])
    requires { vec_len block.old + length members.now ≤ vec_capacity block.old }
    ensures items { block.new.items ≡ block.old.items ++ members.now }
    ensures capacity { vec_capacity block.new ≡ vec_capacity block.old }
{
    for x in members {
        block.push_reserved(x.copied());
    }
}

/// Moves the second half of a full block to an empty one.
fn move_half<X: Copied + Drop>(block: &mut Vec<X>, behind: &mut Vec<X>)
    requires full { vec_len block.old ≡ 128 }
    requires empty { behind.old.items ≡ [] }
    requires room { 128 ≤ vec_capacity behind.old }
    ensures front { block.new.items ≡ take 64 block.old.items }
    ensures back { behind.new.items ≡ drop 64 block.old.items }
    ensures capacity { vec_capacity block.new ≡ vec_capacity block.old }
    ensures back_capacity { vec_capacity behind.new ≡ vec_capacity behind.old }
{
    fill(behind, &block[HALF..]);
    block.truncate(HALF);
}

/// Takes a block out of the spare ones.
fn take_spare<X: Drop>(spares: &mut Vec<Vec<X>>) -> Vec<X>
    requires some { 1 ≤ vec_len spares.old }
    requires spare { IsTrue (list_all (is_spare (λ block. block.items) (λ block. vec_capacity block)) spares.old.items) }
    ensures empty { result.items ≡ [] }
    ensures room { 128 ≤ vec_capacity result }
    ensures len { vec_len spares.new + 1 ≡ vec_len spares.old }
    ensures capacity { vec_capacity spares.new ≡ vec_capacity spares.old }
    ensures spare { IsTrue (list_all (is_spare (λ block. block.items) (λ block. vec_capacity block)) spares.new.items) }
{
    match spares.pop() {
        Some(block) => block,
        None => unreachable!(),
    }
}

/// Makes room for `more` further blocks, their starts and their last members. `Err`: memory ran out.
fn widen<X: Drop>(
    blocks: &mut Tiers<Vec<X>>,
    starts: &mut Starts,
    lasts: &mut Tiers<X>,
    more: usize,
) -> Result<(), NoMemory>
    requires blocks { length blocks.old.items + more ≤ 2 ^ 57 }
    requires starts { length starts.old.items + more ≤ 2 ^ 57 }
    requires lasts { length lasts.old.items + more ≤ 2 ^ 57 }
    ensures blocks { blocks.new.items ≡ blocks.old.items }
    ensures starts { starts.new.items ≡ starts.old.items }
    ensures lasts { lasts.new.items ≡ lasts.old.items }
    ensures blocks_room { blocks.old.room ≤ blocks.new.room }
    ensures starts_room { starts.old.room ≤ starts.new.room }
    ensures lasts_room { lasts.old.room ≤ lasts.new.room }
    ensures blocks_fit { OnOk result (length blocks.old.items + more ≤ blocks.new.room) }
    ensures starts_fit { OnOk result (length starts.old.items + more ≤ starts.new.room) }
    ensures lasts_fit { OnOk result (length lasts.old.items + more ≤ lasts.new.room) }
{
    blocks.reserve(more)?;
    starts.reserve(more)?;
    lasts.reserve(more)
}

/// Adds a spare block to those that have room for `others` more, and as much room after it. `Err`: memory ran out.
fn push_spare<X: Drop>(spares: &mut Vec<Vec<X>>, others: usize) -> Result<(), NoMemory>
    requires few { others < 2 ^ 56 }
    requires room { vec_len spares.old + others ≤ vec_capacity spares.old }
    requires spare { IsTrue (list_all (is_spare (λ block. block.items) (λ block. vec_capacity block)) spares.old.items) }
    ensures room { vec_len spares.new + others ≤ vec_capacity spares.new }
    ensures spare { IsTrue (list_all (is_spare (λ block. block.items) (λ block. vec_capacity block)) spares.new.items) }
    ensures most { vec_len spares.new ≤ vec_len spares.old + 1 }
    ensures ok { OnOk result (vec_len spares.new ≡ vec_len spares.old + 1) }
    ensures err { OnErr result (vec_len spares.new ≡ vec_len spares.old) }
{
    spares.reserve(others + 1)?;
    let block = Vec::with_capacity(*spares.allocator(), CAPACITY)?;
    spares.push_reserved(block);
    Ok(())
}

/// Makes all blocks spare ones.
fn empty<X: Drop>(blocks: &mut Tiers<Vec<X>>, spares: &mut Vec<Vec<X>>)
    requires kept { IsTrue (list_all (is_kept (λ block. block.items) (λ block. vec_capacity block)) blocks.old.items) }
    requires spare { IsTrue (list_all (is_spare (λ block. block.items) (λ block. vec_capacity block)) spares.old.items) }
    requires room { length blocks.old.items + vec_len spares.old ≤ vec_capacity spares.old }
    ensures none { blocks.new.items ≡ [] }
    ensures spare { IsTrue (list_all (is_spare (λ block. block.items) (λ block. vec_capacity block)) spares.new.items) }
    ensures len { vec_len spares.new ≡ length blocks.old.items + vec_len spares.old }
    ensures blocks_room { blocks.new.room ≡ blocks.old.room }
    ensures spares_capacity { vec_capacity spares.new ≡ vec_capacity spares.old }
{
    while blocks.len() > 0 {
        let mut block = blocks.remove(blocks.len() - 1);
        block.clear();
        spares.push_reserved(block);
    }
}
