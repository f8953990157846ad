//! Where blocks begin, kept so that all that begin behind a block are raised or lowered together.
ghost use Rattle.std.specs.Prelude.{◌≡◌, ℕ, ◌+◌, ◌-◌, ◌*◌, ◌/◌, ◌%◌, ◌^◌, ◌<◌, ◌≤◌, ◌++◌, ◌∷◌, [], ◌⊎◌, if◌then◌else◌, IsTrue, true, false, OnOk, nat_lt, nat_le, length, take, drop, map, vec_len, slice_index_or};
ghost use Rattle.std.specs.List.{insert, remove, list_all};
ghost use Rattle.std.specs.List.Sorted.{IsNonDecreasingBy, IsPartitionPoint};
ghost use Rattle.std.specs.Vec.{vec_capacity};
ghost use Rattle.ec_blocks.specs.Starts.{number_at};

use crate::bases::{Bases, add};
use crate::chain::insert_within;
use ec_lists::NoMemory;
use std::alloc::Global;
use std::marker::Model;

/// How many numbers have a base together.
const GROUP: usize = 64;

/// So few numbers are searched without a guess.
const FEW: usize = 8;

/// So many numbers are searched by a guess that is mended.
const MANY: usize = 512;

/// How far on both sides of a guess a search looks at first, in a short list.
const ROUND: usize = 2;

/// For so many numbers more a search looks one further, since a rise that is not quite steady strays the more the longer it is.
const STRAY: usize = 256;

/// The same round a guess that is mended, which strays less.
const MENDED_STRAY: usize = 2048;

/// By about how much a number is above the one in front of it.
const STEP: usize = 96;

/// A list of numbers, in which all behind a place are raised or lowered by one at little cost. Each group of 64 has
/// a base, and a number is the sum of its own part and of the base of its group, modulo 2^64: so a part
/// can be moved to any base. In front of the parts some places are kept free, so that an insertion moves the parts on one side
/// alone. It is seen as the list of the numbers, and how many there is room for.
#[derive(Drop)]
pub(crate) struct Starts {
    /// The free places, and behind them the parts.
    parts: Vec<usize>,
    /// How many places are free.
    free: usize,
    /// One for each group, and for groups to come.
    bases: Bases,
}

impl Model for Starts {
    ghost use Rattle.std.specs.Prelude.{◌-◌, ◌*◌, ◌≤◌, length, drop, min, vec_len};
    ghost use Rattle.std.specs.Vec.{vec_capacity};
    ghost use Rattle.ec_blocks.specs.Starts.{Listed, numbers_of};

    ghost Value = { Listed };

    ghost view = { λ starts. record { items = numbers_of (drop starts.free starts.parts.items) starts.bases; room = min (vec_capacity starts.parts - starts.free) (64 * length starts.bases) } };

    ghost invariant = { λ starts. (starts.free ≤ vec_len starts.parts) × (vec_len starts.parts - starts.free ≤ 64 * length starts.bases) };
}

impl Starts {
    /// No numbers. It takes no memory.
    pub(crate) fn new(alloc: Global) -> Starts
        ensures { result ≡ record { items = []; room = 0 } }
    {
        Starts {
            parts: Vec::new(alloc),
            free: 0,
            bases: Bases::new(alloc),
        }
    }

    /// How many numbers there are.
    fn len(&self) -> usize
        ensures { result ≡ length self.now.items }
    {
        self.parts.len() - self.free
    }

    /// The number at a place.
    pub(crate) fn get(&self, k: usize) -> usize
        requires { k < length self.now.items }
        ensures { result ≡ slice_index_or self.now.items k 0 }
    {
        self.parts[self.free + k].wrapping_add(self.bases.get(k / GROUP))
    }

    /// A place about where the numbers up to one end, and how far on both sides of it a search looks at first. It is the place
    /// that a steady rise would give, and in a long list so much further as the number there tells.
    fn guess(&self, i: usize, last: usize) -> (usize, usize)
        requires some { 1 ≤ length self.now.items }
        requires above { i < last }
    {
        let end = self.len() - 1;
        let steady = (i.wrapping_mul(end) / last).min(end);
        if end < MANY {
            return (steady, ROUND + end / STRAY);
        }
        let there = self.get(steady);
        let mended = steady.saturating_add(i / STEP).saturating_sub(there / STEP);
        (mended, ROUND + end / MENDED_STRAY)
    }

    /// Two places between which the numbers up to one end, where it lies below the last number and they never fall. Both stand
    /// close to the place that a steady rise would give, unless the numbers there show that it ends elsewhere.
    fn bracket(&self, i: usize, last: usize) -> (usize, usize)
        requires some { 1 ≤ length self.now.items }
        requires above { i < last }
        ensures ordered { result.0 ≤ result.1 }
        ensures within { result.1 < length self.now.items }
        ensures before { (result.0 ≡ 0) ⊎ (slice_index_or self.now.items result.0 0 ≤ i) }
        ensures behind { (result.1 + 1 ≡ length self.now.items) ⊎ (i < slice_index_or self.now.items result.1 0) }
    {
        let end = self.len() - 1;
        if end <= FEW {
            return (0, end);
        }
        let (guess, round) = self.guess(i, last);
        let low = guess.saturating_sub(round).min(end);
        let high = guess.saturating_add(round).min(end);
        (
            choose(self.get(low) <= i, low, 0),
            choose(i < self.get(high), high, end),
        )
    }

    /// How many numbers are up to one, where they never fall. The last is looked at first, since most calls are about the end.
    pub(crate) fn count_up_to(&self, i: usize) -> usize
        requires { IsNonDecreasingBy (λ start. start) self.now.items }
        ensures within { result ≤ length self.now.items }
        ensures cut { IsPartitionPoint (λ start. nat_le start i ≡ true) (λ start. nat_le start i ≡ false) self.now.items result }
    {
        let count = self.len();
        if count == 0 {
            return 0;
        }
        let last = self.get(count - 1);
        if last <= i {
            return count;
        }
        let (mut low, high) = self.bracket(i, last);
        let mut size = high - low;
        while 1 < size {
            let half = size / 2;
            let middle = low + half;
            low = choose(self.get(middle) <= i, middle, low);
            size -= half;
        }
        choose(self.get(low) <= i, low + 1, low)
    }

    /// Adds 1 to the numbers behind a place.
    pub(crate) fn raise_behind(&mut self, k: usize)
        requires within { k < length self.old.items }
        requires fits { IsTrue (list_all (λ start. nat_lt start (2 ^ 64 - 1)) (drop (k + 1) self.old.items)) }
        ensures items { self.new.items ≡ take (k + 1) self.old.items ++ map (λ start. start + 1) (drop (k + 1) self.old.items) }
        ensures room { self.new.room ≡ self.old.room }
    {
        self.add_behind(k, 1);
    }

    /// Takes 1 from the numbers behind a place.
    pub(crate) fn lower_behind(&mut self, k: usize)
        requires within { k < length self.old.items }
        requires some { IsTrue (list_all (λ start. nat_le 1 start) (drop (k + 1) self.old.items)) }
        ensures items { self.new.items ≡ take (k + 1) self.old.items ++ map (λ start. start - 1) (drop (k + 1) self.old.items) }
        ensures room { self.new.room ≡ self.old.room }
    {
        self.add_behind(k, usize::MAX);
    }

    /// Adds a number, modulo 2^64, to those behind a place: to the parts as far as the group goes, and to the
    /// bases of the groups behind it.
    fn add_behind(&mut self, k: usize, more: usize)
        requires { k < length self.old.items }
        ensures small { IsTrue (list_all (λ start. nat_lt start (2 ^ 64)) self.old.items) }
        ensures items { self.new.items ≡ take (k + 1) self.old.items ++ map (λ start. (start + more) % 2 ^ 64) (drop (k + 1) self.old.items) }
        ensures room { self.new.room ≡ self.old.room }
    {
        let group = k / GROUP + 1;
        let end = self.parts.len().min(self.free + group * GROUP);
        add(&mut self.parts, self.free + k + 1, end, more);
        self.bases.add_from(group, more);
    }

    /// Inserts a number at a place, where there is room for it.
    pub(crate) fn insert(&mut self, k: usize, start: usize)
        requires within { k ≤ length self.old.items }
        requires room { length self.old.items < self.old.room }
        ensures items { self.new.items ≡ insert self.old.items k start }
        ensures room { self.old.room ≤ self.new.room }
    {
        let group = k / GROUP;
        let part = rebased(start, 0, self.bases.get(group));
        self.free = insert_part(&mut self.parts, self.free, k, part);
        carry_up(&mut self.parts[self.free..], &self.bases, group + 1);
    }

    /// Adds a number at the end, where there is room for it.
    pub(crate) fn push(&mut self, start: usize)
        requires { length self.old.items < self.old.room }
        ensures items { self.new.items ≡ self.old.items ++ start ∷ [] }
        ensures room { self.old.room ≤ self.new.room }
    {
        let end = self.len();
        self.insert(end, start);
    }

    /// Takes out the number at a place.
    pub(crate) fn remove(&mut self, k: usize)
        requires { k < length self.old.items }
        ensures items { self.new.items ≡ remove self.old.items k }
        ensures room { self.new.room ≡ self.old.room }
    {
        self.parts.remove(self.free + k);
        carry_down(&mut self.parts[self.free..], &self.bases, k / GROUP);
    }

    /// Makes room for further numbers. `Err`: memory ran out.
    pub(crate) fn reserve(&mut self, more: usize) -> Result<(), NoMemory>
        requires { length self.old.items + more ≤ 2 ^ 57 }
        ensures items { self.new.items ≡ self.old.items }
        ensures room { self.old.room ≤ self.new.room }
        ensures ok { OnOk result (length self.old.items + more ≤ self.new.room) }
    {
        self.parts.reserve(more)?;
        self.free = free_front(&mut self.parts, self.free);
        let groups = (self.len() + more).div_ceil(GROUP);
        self.bases.extend(groups)
    }

    /// Takes out all numbers.
    pub(crate) fn clear(&mut self)
        ensures items { self.new.items ≡ [] }
        ensures room { self.old.room ≤ self.new.room }
    {
        self.free = 0;
        self.parts.clear();
    }
}

/// One of two numbers.
pub(crate) fn choose(first: bool, one: usize, other: usize) -> usize
    ensures { result ≡ (if first then one else other) }
{
    if first { one } else { other }
}

/// Puts a part in at a place behind the free ones, and tells how many are free then: none less if the parts behind it are
/// moved, and one less if those in front of it are, which it does if they are fewer.
fn insert_part(parts: &mut Vec<usize>, free: usize, k: usize, part: usize) -> usize
    requires within { free + k ≤ vec_len parts.old }
    requires room { vec_len parts.old < vec_capacity parts.old }
    ensures items { drop result parts.new.items ≡ insert (drop free parts.old.items) k part }
    ensures free { result ≤ free }
    ensures len { vec_len parts.new + free ≡ vec_len parts.old + result + 1 }
    ensures capacity { vec_capacity parts.old ≤ vec_capacity parts.new }
{
    if free == 0 || parts.len() - free < 2 * k {
        insert_within(parts, free + k, part);
        return free;
    }
    parts.copy_within(free..free + k, free - 1);
    parts[free + k - 1] = part;
    free - 1
}

/// Makes places in front of the parts free, half as many as there are parts, if there is memory; and tells how many are
/// free. If some are free already, or the parts are few, it does nothing.
fn free_front(parts: &mut Vec<usize>, free: usize) -> usize
    requires { free ≤ vec_len parts.old }
    ensures items { drop result parts.new.items ≡ drop free parts.old.items }
    ensures free { free ≤ result }
    ensures len { vec_len parts.new + free ≡ vec_len parts.old + result }
    ensures capacity { vec_capacity parts.old + result ≤ vec_capacity parts.new + free }
{
    let count = parts.len();
    if 0 < free || count < GROUP {
        return free;
    }
    let all = count + count / 2;
    let unused = parts.capacity() - count;
    if parts.reserve(unused + count / 2).is_err() {
        return free;
    }
    while parts.len() < all {
        parts.push_reserved(0);
    }
    parts.rotate_right(all - count);
    all - count
}

/// What a part beside one base is beside another.
fn rebased(part: usize, from: usize, to: usize) -> usize
    ensures { (result + to) % 2 ^ 64 ≡ (part + from) % 2 ^ 64 }
{
    part.wrapping_add(from).wrapping_sub(to)
}

/// Moves the first part of each group from one on, which comes from the group in front, to the base of its group.
fn carry_up(parts: &mut [usize], bases: &Bases, from: usize)
    requires some { 1 ≤ from }
    requires based { length parts.old ≤ 64 * length bases.now }
    ensures len { length parts.new ≡ length parts.old }
    ensures moved { (k : ℕ) → k < length parts.old → from ≤ k / 64 → k % 64 ≡ 0 → number_at parts.new bases.now k ≡ (slice_index_or parts.old k 0 + slice_index_or bases.now (k / 64 - 1) 0) % 2 ^ 64 }
    ensures others { (k : ℕ) → (k / 64 < from) ⊎ (1 ≤ k % 64) → slice_index_or parts.new k 0 ≡ slice_index_or parts.old k 0 }
{
    for group in from..parts.len().div_ceil(GROUP) {
        let first = group * GROUP;
        parts[first] = rebased(parts[first], bases.get(group - 1), bases.get(group));
    }
}

/// Moves the last part of each full group from one on, which comes from the group behind, to the base of its group.
fn carry_down(parts: &mut [usize], bases: &Bases, from: usize)
    requires based { length parts.old < 64 * length bases.now }
    ensures len { length parts.new ≡ length parts.old }
    ensures moved { (k : ℕ) → k < length parts.old → from ≤ k / 64 → k % 64 ≡ 63 → number_at parts.new bases.now k ≡ (slice_index_or parts.old k 0 + slice_index_or bases.now (k / 64 + 1) 0) % 2 ^ 64 }
    ensures others { (k : ℕ) → (k / 64 < from) ⊎ (k % 64 < 63) → slice_index_or parts.new k 0 ≡ slice_index_or parts.old k 0 }
{
    for group in from..parts.len() / GROUP {
        let last = group * GROUP + (GROUP - 1);
        parts[last] = rebased(parts[last], bases.get(group + 1), bases.get(group));
    }
}
