//! A list in groups of 64, in which an insertion moves the members of one group, and one of each group behind it.
ghost use Rattle.std.specs.Prelude.{◌≡◌, ◌+◌, ◌-◌, ◌*◌, ◌/◌, ◌%◌, ◌^◌, ◌<◌, ◌≤◌, ◌++◌, ◌∷◌, [], Bool, true, false, Some, IsTrue, OnOk, length, nat_lt, take, drop, slice_get, vec_len};
ghost use Rattle.std.specs.Fn.{ComputesKey};
ghost use Rattle.std.specs.List.{insert, remove, list_all};
ghost use Rattle.std.specs.List.Sorted.{IsPartitionedBy, IsPartitionPoint};
ghost use Rattle.std.specs.Vec.{vec_capacity};
ghost use Rattle.std.specs.Borrow.{sem};
ghost use Rattle.ec_blocks.specs.Tiers.{turned, unrolled, place_of};

use crate::chain::{cut, insert_within};
use crate::starts::choose;
use ec_lists::NoMemory;
use std::alloc::Global;
use std::marker::Model;
use std::mem;

/// How many members a group has.
const GROUP: usize = 64;

/// A list in groups of 64. A full group is a ring, which has a first member wherever it is; so where a member comes in at an end
/// of the group and one goes at the other, the new one takes the place of the other. The last group lies straight until it is full. It is
/// seen as the list of the members, and how many there is room for.
#[derive(Drop)]
pub(crate) struct Tiers<T> {
    members: Vec<T>,
    /// Where in each full group its first member lies.
    heads: Vec<usize>,
}

impl<T> Model for Tiers<T> {
    ghost use Rattle.std.specs.Prelude.{◌≡◌, ◌*◌, ◌/◌, IsTrue, min, vec_len, nat_lt};
    ghost use Rattle.std.specs.List.{list_all};
    ghost use Rattle.std.specs.Vec.{vec_capacity};
    ghost use Rattle.ec_blocks.specs.Tiers.{Tiered, unrolled};

    ghost Value = { Tiered T };

    ghost view = { λ tiers. record { items = unrolled tiers.heads.items tiers.members.items; room = min (vec_capacity tiers.members) (64 * vec_capacity tiers.heads) } };

    ghost invariant = { λ tiers. (vec_len tiers.heads ≡ vec_len tiers.members / 64) × IsTrue (list_all (λ h. nat_lt h 64) tiers.heads.items) };
}

impl<T: Drop> Tiers<T> {
    ghost use Rattle.ec_blocks.specs.TiersLend.{lends_member};

    /// No members. It takes no memory.
    pub(crate) fn new(alloc: Global) -> Tiers<T>
        ensures { result ≡ record { items = []; room = 0 } }
    {
        Tiers {
            members: Vec::new(alloc),
            heads: Vec::new(alloc),
        }
    }

    /// How many members there are.
    pub(crate) fn len(&self) -> usize
        ensures { result ≡ length self.now.items }
    {
        self.members.len()
    }

    /// The member at a place.
    pub(crate) fn get(&self, k: usize) -> &T
        requires { k < length self.now.items }
        ensures { slice_get self.now.items k ≡ Some result.now }
    {
        &self.members[place_of(&self.heads, k)]
    }

    /// The member at a place, to write to.
    pub(crate) fn get_mut(&mut self, k: usize) -> &mut T
        requires { k < length self.old.items }
        ensures* lends { sem 𝓛 (lends_member T.row self.entry k result) }
        ensures member { slice_get self.old.items k ≡ Some result.now }
    {
        let place = place_of(&self.heads, k);
        &mut self.members[place]
    }

    /// The place where the members that pass a test end. As long as all lie straight they are searched as one slice.
    pub(crate) fn partition_point<F: Fn(&T) -> bool>(&self, pred: &F) -> usize
        requires { F.IsAlwaysCallable pred.now }
        ensures bound { result ≤ length self.now.items }
        ensures partitioned { (p : T → Bool) → ComputesKey F.FnMut p pred.now → IsPartitionedBy p self.now.items → IsPartitionPoint (λ x. p x ≡ true) (λ x. p x ≡ false) self.now.items result }
    {
        if self.heads.len() == 0 {
            cut(&self.members, pred)
        } else {
            self.partition_turned(pred)
        }
    }

    /// The same, by places.
    fn partition_turned<F: Fn(&T) -> bool>(&self, pred: &F) -> usize
        requires some { 1 ≤ length self.now.items }
        requires callable { F.IsAlwaysCallable pred.now }
        ensures bound { result ≤ length self.now.items }
        ensures partitioned { (p : T → Bool) → ComputesKey F.FnMut p pred.now → IsPartitionedBy p self.now.items → IsPartitionPoint (λ x. p x ≡ true) (λ x. p x ≡ false) self.now.items result }
    {
        let mut low = 0;
        let mut size = self.len();
        while 1 < size {
            let half = size / 2;
            let middle = low + half;
            low = choose(passes(self.get(middle), pred), middle, low);
            size -= half;
        }
        choose(passes(self.get(low), pred), low + 1, low)
    }

    /// Puts a member into a full group, and gives the one that is then beyond the end of the group.
    fn shift_in(&mut self, k: usize, x: T) -> T
        requires { 64 * (k / 64) + 64 ≤ length self.old.items }
        ensures items { insert self.old.items k x ≡ insert self.new.items (64 * (k / 64) + 64) result }
        ensures len { length self.new.items ≡ length self.old.items }
        ensures room { self.new.room ≡ self.old.room }
    {
        let group = k / GROUP;
        let first = group * GROUP;
        let head = self.heads[group];
        let (out, head) = put_in_group(&mut self.members, first, head, k % GROUP, x);
        self.heads[group] = head;
        out
    }

    /// Takes a member out of a full group, which one from beyond its end fills up.
    fn shift_out(&mut self, k: usize, x: T) -> T
        requires { 64 * (k / 64) + 64 ≤ length self.old.items }
        ensures items { insert self.old.items (64 * (k / 64) + 64) x ≡ insert self.new.items k result }
        ensures len { length self.new.items ≡ length self.old.items }
        ensures room { self.new.room ≡ self.old.room }
    {
        let group = k / GROUP;
        let first = group * GROUP;
        let head = self.heads[group];
        let (out, head) = take_out_of_group(&mut self.members, first, head, k % GROUP, x);
        self.heads[group] = head;
        out
    }

    /// Inserts a member behind all full groups.
    fn insert_straight(&mut self, k: usize, x: T)
        requires behind { 64 * (length self.old.items / 64) ≤ k }
        requires within { k ≤ length self.old.items }
        requires room { length self.old.items < self.old.room }
        ensures items { self.new.items ≡ insert self.old.items k x }
        ensures room { self.old.room ≤ self.new.room }
    {
        insert_within(&mut self.members, k, x);
        if self.members.len() % GROUP == 0 {
            self.heads.push_reserved(0);
        }
    }

    /// Takes out a member of the last group, which lies straight from then on.
    fn remove_straight(&mut self, k: usize) -> T
        requires last { 64 * ((length self.old.items - 1) / 64) ≤ k }
        requires within { k < length self.old.items }
        ensures member { slice_get self.old.items k ≡ Some result }
        ensures items { self.new.items ≡ remove self.old.items k }
        ensures room { self.new.room ≡ self.old.room }
    {
        if self.members.len() % GROUP == 0 {
            remove_turned(&mut self.members, &mut self.heads, k)
        } else {
            self.members.remove(k)
        }
    }

    /// Inserts a member at a place, where there is room for it.
    pub(crate) fn insert(&mut self, k: usize, x: T)
        requires within { k ≤ length self.old.items }
        requires room { length self.old.items < self.old.room }
        ensures items { self.new.items ≡ insert self.old.items k x }
        ensures room { self.old.room ≤ self.new.room }
    {
        let full = self.len() / GROUP * GROUP;
        let mut at = k;
        let mut carried = x;
        while at < full {
            carried = self.shift_in(at, carried);
            at = at / GROUP * GROUP + GROUP;
        }
        self.insert_straight(at, carried);
    }

    /// Adds a member at the end, where there is room for it.
    pub(crate) fn push(&mut self, x: T)
        requires { length self.old.items < self.old.room }
        ensures items { self.new.items ≡ self.old.items ++ x ∷ [] }
        ensures room { self.old.room ≤ self.new.room }
    {
        let end = self.len();
        self.insert_straight(end, x);
    }

    /// Takes out the member at a place.
    pub(crate) fn remove(&mut self, k: usize) -> T
        requires { k < length self.old.items }
        ensures member { slice_get self.old.items k ≡ Some result }
        ensures items { self.new.items ≡ remove self.old.items k }
        ensures room { self.new.room ≡ self.old.room }
    {
        let last = (self.len() - 1) / GROUP * GROUP;
        if last <= k {
            return self.remove_straight(k);
        }
        let behind = k / GROUP * GROUP + GROUP;
        let mut at = last;
        let mut carried = self.remove_straight(last);
        while behind < at {
            at -= GROUP;
            carried = self.shift_out(at, carried);
        }
        self.shift_out(k, carried)
    }

    /// Takes out all members.
    pub(crate) fn clear(&mut self)
        ensures items { self.new.items ≡ [] }
        ensures room { self.new.room ≡ self.old.room }
    {
        self.members.clear();
        self.heads.clear();
    }

    /// Makes room for further members. `Err`: memory ran out.
    pub(crate) fn reserve(&mut self, more: usize) -> Result<(), NoMemory>
        requires { length self.old.items + more ≤ 2 ^ 57 }
        ensures items { self.new.items ≡ self.old.items }
        ensures room { self.old.room ≤ self.new.room }
        ensures ok { OnOk result (length self.old.items + more ≤ self.new.room) }
    {
        self.members.reserve(more)?;
        let groups = (self.members.len() + more).div_ceil(GROUP);
        self.heads.reserve(groups - self.heads.len())?;
        Ok(())
    }
}

/// Whether a member passes a test.
pub(crate) fn passes<T, F: Fn(&T) -> bool>(member: &T, pred: &F) -> bool
    requires { F.IsAlwaysCallable pred.now }
    ensures { (p : T → Bool) → ComputesKey F.FnMut p pred.now → result ≡ p member.now }
{
    pred(member)
}

/// Where a member lies.
fn place_of(heads: &[usize], k: usize) -> usize
    requires { IsTrue (list_all (λ h. nat_lt h 64) heads.now) }
    ensures { result ≡ place_of heads.now k }
{
    let group = k / GROUP;
    if group < heads.len() {
        group * GROUP + (heads[group] + k % GROUP) % GROUP
    } else {
        k
    }
}

/// Puts a member into a full group, and gives the one that is then beyond the end of the group, and where the first member lies.
fn put_in<T>(ring: &mut [T], head: usize, at: usize, x: T) -> (T, usize)
    requires full { length ring.old ≡ 64 }
    requires head { head < 64 }
    requires at { at < 64 }
    ensures ring { insert (turned head ring.old) at x ≡ turned result.1 ring.new ++ result.0 ∷ [] }
    ensures len { length ring.new ≡ 64 }
    ensures head { result.1 < 64 }
{
    if at == 0 {
        let last = (head + (GROUP - 1)) % GROUP;
        return (mem::replace(&mut ring[last], x), last);
    }
    (put_in_turned(ring, head, at, x), head)
}

/// Puts a member into a full group, whose first member stays where it lies, and gives the one that is then beyond the end. What lies
/// from the first member on comes in front of what lies before it.
fn put_in_turned<T>(ring: &mut [T], head: usize, at: usize, x: T) -> T
    requires full { length ring.old ≡ 64 }
    requires head { head < 64 }
    requires at { at < 64 }
    ensures ring { insert (turned head ring.old) at x ≡ turned head ring.new ++ result ∷ [] }
    ensures len { length ring.new ≡ 64 }
{
    let straight = GROUP - head;
    if straight <= at {
        return put_in_part(&mut ring[0..head], at - straight, x);
    }
    let carried = put_in_part(&mut ring[head..], at, x);
    put_in_part(&mut ring[0..head], 0, carried)
}

/// Puts a member into a part that lies straight, and gives the one that is then beyond the end.
fn put_in_part<T>(part: &mut [T], at: usize, x: T) -> T
    requires { at ≤ length part.old }
    ensures part { insert part.old at x ≡ part.new ++ result ∷ [] }
    ensures len { length part.new ≡ length part.old }
{
    if at == part.len() {
        return x;
    }
    part[at..].rotate_right(1);
    mem::replace(&mut part[at], x)
}

/// The same in the group that begins at a place.
fn put_in_group<T>(members: &mut [T], first: usize, head: usize, at: usize, x: T) -> (T, usize)
    requires group { first + 64 ≤ length members.old }
    requires head { head < 64 }
    requires at { at < 64 }
    ensures ring { insert (turned head (take 64 (drop first members.old))) at x ≡ turned result.1 (take 64 (drop first members.new)) ++ result.0 ∷ [] }
    ensures others { members.new ≡ take first members.old ++ (take 64 (drop first members.new) ++ drop (first + 64) members.old) }
    ensures len { length members.new ≡ length members.old }
    ensures full { length (take 64 (drop first members.new)) ≡ 64 }
    ensures head { result.1 < 64 }
{
    put_in(&mut members[first..first + GROUP], head, at, x)
}

/// Takes a member out of a full group, which one from beyond its end fills up, and tells where the first member lies.
fn take_out<T>(ring: &mut [T], head: usize, at: usize, x: T) -> (T, usize)
    requires full { length ring.old ≡ 64 }
    requires head { head < 64 }
    requires at { at < 64 }
    ensures ring { turned head ring.old ++ x ∷ [] ≡ insert (turned result.1 ring.new) at result.0 }
    ensures len { length ring.new ≡ 64 }
    ensures head { result.1 < 64 }
{
    if at == 0 {
        return (mem::replace(&mut ring[head], x), (head + 1) % GROUP);
    }
    ring.rotate_left(head);
    ring[at..].rotate_left(1);
    (mem::replace(&mut ring[GROUP - 1], x), 0)
}

/// The same in the group that begins at a place.
fn take_out_of_group<T>(members: &mut [T], first: usize, head: usize, at: usize, x: T) -> (T, usize)
    requires group { first + 64 ≤ length members.old }
    requires head { head < 64 }
    requires at { at < 64 }
    ensures ring { turned head (take 64 (drop first members.old)) ++ x ∷ [] ≡ insert (turned result.1 (take 64 (drop first members.new))) at result.0 }
    ensures others { members.new ≡ take first members.old ++ (take 64 (drop first members.new) ++ drop (first + 64) members.old) }
    ensures len { length members.new ≡ length members.old }
    ensures full { length (take 64 (drop first members.new)) ≡ 64 }
    ensures head { result.1 < 64 }
{
    take_out(&mut members[first..first + GROUP], head, at, x)
}

/// Turns the last 64 members, so that the one at a place comes first.
fn turn_last<T>(members: &mut [T], head: usize)
    requires some { 64 ≤ length members.old }
    requires head { head < 64 }
    ensures { members.new ≡ take (length members.old - 64) members.old ++ turned head (drop (length members.old - 64) members.old) }
{
    let last = members.len() - GROUP;
    members[last..].rotate_left(head);
}

/// Takes a member out of the last group, which is full, and lies straight from then on.
fn remove_turned<T: Drop>(members: &mut Vec<T>, heads: &mut Vec<usize>, k: usize) -> T
    requires full { vec_len members.old ≡ 64 * vec_len heads.old }
    requires last { vec_len members.old ≤ k + 64 }
    requires within { k < vec_len members.old }
    requires small { IsTrue (list_all (λ h. nat_lt h 64) heads.old.items) }
    ensures member { slice_get (unrolled heads.old.items members.old.items) k ≡ Some result }
    ensures items { unrolled heads.new.items members.new.items ≡ remove (unrolled heads.old.items members.old.items) k }
    ensures count { vec_len heads.new + 1 ≡ vec_len heads.old }
    ensures len { vec_len members.new + 1 ≡ vec_len members.old }
    ensures small { IsTrue (list_all (λ h. nat_lt h 64) heads.new.items) }
    ensures members_capacity { vec_capacity members.new ≡ vec_capacity members.old }
    ensures heads_capacity { vec_capacity heads.new ≡ vec_capacity heads.old }
{
    let head = last_head(heads);
    turn_last(members, head);
    members.remove(k)
}

/// Takes off where the first member of the last full group lies.
fn last_head(heads: &mut Vec<usize>) -> usize
    requires { 1 ≤ vec_len heads.old }
    ensures heads { heads.old.items ≡ heads.new.items ++ result ∷ [] }
    ensures capacity { vec_capacity heads.new ≡ vec_capacity heads.old }
{
    match heads.pop() {
        Some(head) => head,
        None => unreachable!(),
    }
}
