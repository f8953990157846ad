ghost use Rattle.std.specs.Prelude.{◌≡◌, ◌+◌, ◌-◌, ◌<◌, ◌≤◌, ◌++◌, ◌∷◌, [], Bool, true, false, Some, OnOk, OnErr, IsTrue, ◌↔◌, length, take, drop, slice_get, slice_set, IfOk, IfSome, IfNone, min, max, vec_len};
ghost use Rattle.std.specs.Vec.{vec_capacity};
ghost use Rattle.std.specs.Fn.{ComputesKey};
ghost use Rattle.std.specs.List.{insert, remove, splice};
ghost use Rattle.std.specs.List.Sorted.{IsPartitionedBy, IsPartitionPoint};
ghost use Rattle.ec_blocks.specs.Body.{IsBody, IsWide, seen_of};
ghost use Rattle.ec_blocks.specs.Chain.{joined, room_of};

use crate::chain::{CAPACITY, Chain, insert_within, put_within, remove_within};
use ec_lists::{Copied, NoMemory};
use std::alloc::Global;
use std::marker::Model;

/// What holds the members: one `Vec` as long as they are few, so that a short list takes little memory. A chain stands in a box, so
/// that a list of lists is short too.
#[derive(Drop)]
pub(crate) enum Body<X> {
    Few(Vec<X>),
    Many(Box<Chain<X>>),
}

/// A list in which members are put in and taken out cheaply anywhere: in blocks of at most 128 members, found
/// by binary search, so that an edit moves one block and never the whole tail. Its calls take no memory once
/// there is room. Contracts see it as the list of its members, and how many further members it takes without
/// memory, wherever they are put.
#[derive(Drop)]
pub struct Blocks<X> {
    body: Body<X>,
}

impl<X> Model for Blocks<X> {
    ghost use Rattle.ec_lists.specs.Reserved.{Reserved};

    ghost Value = { Reserved X };

    ghost use Rattle.ec_blocks.specs.Body.{seen_of, IsBody};

    ghost view = { λ blocks. seen_of blocks.body };

    ghost invariant = { λ blocks. IsBody blocks.body };
}

impl<X: Copied + Drop> Blocks<X> {
    /// The list of no members. It takes no memory.
    pub fn new(alloc: Global) -> Blocks<X>
        ensures { result.items ≡ [] }
    {
        Blocks {
            body: Body::Few(Vec::new(alloc)),
        }
    }

    /// How many members there are.
    pub fn len(&self) -> usize
        ensures { result ≡ length self.now.items }
    {
        match &self.body {
            Body::Few(members) => members.len(),
            Body::Many(chain) => chain.total(),
        }
    }

    /// Whether there are no members.
    pub fn is_empty(&self) -> bool
        ensures { IsTrue result ↔ (self.now.items ≡ []) }
    {
        self.len() == 0
    }

    /// The member at a place, from 0.
    pub fn get(&self, i: usize) -> &X
        requires { i < length self.now.items }
        ensures { slice_get self.now.items i ≡ Some result.now }
    {
        match &self.body {
            Body::Few(members) => &members[i],
            Body::Many(chain) => chain.get(i),
        }
    }

    /// The members from a place on that lie together in memory.
    pub fn run(&self, i: usize) -> &[X]
        requires { i < length self.now.items }
        ensures some { 1 ≤ length result.now }
        ensures run { result.now ≡ take (length result.now) (drop i self.now.items) }
    {
        match &self.body {
            Body::Few(members) => &members[i..],
            Body::Many(chain) => chain.run(i),
        }
    }

    /// The place where the members that pass a test end, if no member that passes comes after one that does
    /// not.
    pub fn partition_point<F: Fn(&X) -> bool>(&self, pred: F) -> usize
        requires { F.IsAlwaysCallable pred }
        ensures bound { result ≤ length self.now.items }
        ensures partitioned { (p : X → Bool) → ComputesKey F.FnMut p pred → IsPartitionedBy p self.now.items → IsPartitionPoint (λ x. p x ≡ true) (λ x. p x ≡ false) self.now.items result }
    {
        match &self.body {
            Body::Few(members) => members.partition_point(pred),
            Body::Many(chain) => chain.partition_point(&pred),
        }
    }

    /// The same, where the place is likely to be close to `near`, which may be any number: the search begins with the
    /// few members round this place, goes on in its block, and goes over all blocks only if the place is not in it. A
    /// number that is no place of a member is no hint.
    pub fn partition_near<F: Fn(&X) -> bool>(&self, near: usize, pred: F) -> usize
        requires { F.IsAlwaysCallable pred }
        ensures bound { result ≤ length self.now.items }
        ensures partitioned { (p : X → Bool) → ComputesKey F.FnMut p pred → IsPartitionedBy p self.now.items → IsPartitionPoint (λ x. p x ≡ true) (λ x. p x ≡ false) self.now.items result }
    {
        match &self.body {
            Body::Few(members) => members.partition_point(pred),
            Body::Many(chain) => chain.partition_near(near, &pred),
        }
    }

    /// Puts a member in place of the one at a place.
    pub fn set(&mut self, i: usize, x: X)
        requires { i < length self.old.items }
        ensures items { self.new.items ≡ slice_set self.old.items i x }
        ensures spare { self.old.spare ≤ self.new.spare }
    {
        match &mut self.body {
            Body::Few(members) => put_within(members, i, x),
            Body::Many(chain) => chain.set_at(i, x),
        }
    }

    /// Inserts a member at a place, where there is room for one. It takes no memory.
    pub fn insert(&mut self, i: usize, x: X)
        requires within { i ≤ length self.old.items }
        requires room { 1 ≤ self.old.spare }
        ensures items { self.new.items ≡ insert self.old.items i x }
        ensures spare { self.old.spare ≤ self.new.spare + 1 }
    {
        match &mut self.body {
            Body::Few(members) => insert_within(members, i, x),
            Body::Many(chain) => chain.insert_at(i, x),
        }
    }

    /// Takes out the member at a place.
    pub fn remove(&mut self, i: usize) -> X
        requires { i < length self.old.items }
        ensures member { slice_get self.old.items i ≡ Some result }
        ensures items { self.new.items ≡ remove self.old.items i }
        ensures spare { self.old.spare ≤ self.new.spare }
    {
        match &mut self.body {
            Body::Few(members) => remove_within(members, i),
            Body::Many(chain) => chain.remove_at(i),
        }
    }

    /// Puts copies of the members `with` in place of those from one place up to another. It takes no memory,
    /// and room only for as many members as the list grows by.
    pub fn splice(&mut self, from: usize, to: usize, with: &[X])
        requires ordered { from ≤ to }
        requires within { to ≤ length self.old.items }
        requires room { length with.now - (to - from) ≤ self.old.spare }
        ensures items { self.new.items ≡ splice self.old.items from to with.now }
        ensures spare { self.old.spare ≤ self.new.spare + (length with.now - (to - from)) }
    {
        let both = (to - from).min(with.len());
        self.overwrite(from, from + both, with);
        self.remove_all(from + both, to);
        self.insert_all(from + both, &with[both..]);
    }

    /// Puts copies of the first of the members `with` in place of those from one place up to another.
    fn overwrite(&mut self, from: usize, to: usize, with: &[X])
        requires ordered { from ≤ to }
        requires within { to ≤ length self.old.items }
        requires enough { to - from ≤ length with.now }
        ensures items { self.new.items ≡ splice self.old.items from to (take (to - from) with.now) }
        ensures len { length self.new.items ≡ length self.old.items }
        ensures spare { self.old.spare ≤ self.new.spare }
    {
        for place in from..to {
            self.set(place, with[place - from].copied());
        }
    }

    /// Takes out the members from one place up to another.
    fn remove_all(&mut self, from: usize, to: usize)
        requires ordered { from ≤ to }
        requires within { to ≤ length self.old.items }
        ensures items { self.new.items ≡ splice self.old.items from to [] }
        ensures len { length self.new.items + (to - from) ≡ length self.old.items }
        ensures spare { self.old.spare ≤ self.new.spare }
    {
        for _place in from..to {
            self.remove(from);
        }
    }

    /// Inserts copies of members at a place.
    fn insert_all(&mut self, from: usize, with: &[X])
        requires within { from ≤ length self.old.items }
        requires room { length with.now ≤ self.old.spare }
        ensures items { self.new.items ≡ splice self.old.items from from with.now }
        ensures spare { self.old.spare ≤ self.new.spare + length with.now }
    {
        let behind = self.len() - from;
        for x in with {
            self.insert(self.len() - behind, x.copied());
        }
    }

    /// Adds a member at the end. It needs no room. `Err`: memory ran out, and all is as it was.
    pub fn push(&mut self, x: X) -> Result<(), NoMemory>
        ensures ok { OnOk result (self.new.items ≡ self.old.items ++ x ∷ []) }
        ensures err { OnErr result (self.new.items ≡ self.old.items) }
        ensures spare { self.old.spare ≤ self.new.spare + 1 }
        ensures same_spare { OnErr result (self.old.spare ≤ self.new.spare) }
    {
        widen(&mut self.body, 1)?;
        match &mut self.body {
            Body::Few(members) => Ok(members.push(x)?),
            Body::Many(chain) => chain.push(x),
        }
    }

    /// Makes room for `n` further members, wherever they are put, and for few more than these. `Err`: memory
    /// ran out, and the members are as they were.
    pub fn reserve(&mut self, n: usize) -> Result<(), NoMemory>
        ensures same { self.new.items ≡ self.old.items }
        ensures ok { OnOk result (n ≤ self.new.spare) }
        ensures spare { self.old.spare ≤ self.new.spare }
        ensures most { self.new.spare ≤ max self.old.spare (n + 128) }
    {
        widen(&mut self.body, n)?;
        match &mut self.body {
            Body::Few(members) => Ok(members.reserve(n)?),
            Body::Many(chain) => chain.reserve(n),
        }
    }

    /// Takes out all members, and keeps the room.
    pub fn clear(&mut self)
        ensures items { self.new.items ≡ [] }
        ensures spare { self.old.spare ≤ self.new.spare }
    {
        match &mut self.body {
            Body::Few(members) => members.clear(),
            Body::Many(chain) => chain.clear(),
        }
    }
}

/// Goes over from few members to a chain, if they and `n` more are too many for one `Vec`. `Err`: memory ran out, and all
/// is as it was.
fn widen<X: Copied + Drop>(body: &mut Body<X>, n: usize) -> Result<(), NoMemory>
    requires { IsBody body.old }
    ensures body { IsBody body.new }
    ensures same { (seen_of body.new).items ≡ (seen_of body.old).items }
    ensures spare { (seen_of body.old).spare ≤ (seen_of body.new).spare }
    ensures most { (seen_of body.new).spare ≤ max (seen_of body.old).spare (n + 63) }
    ensures wide { OnOk result (IsWide n body.new) }
{
    let Body::Few(members) = body else {
        return Ok(());
    };
    if let Some(chain) = chain_for(members, n)? {
        *body = Body::Many(chain);
    }
    Ok(())
}

/// The chain to take the place of few members, if they and `n` more are too many for one `Vec`.
fn chain_for<X: Copied + Drop>(
    members: &Vec<X>,
    n: usize,
) -> Result<Option<Box<Chain<X>>>, NoMemory>
    requires { vec_len members.now ≤ 128 }
    ensures members { IfOk result (λ found. IfSome found (λ chain. joined chain.value.blocks ≡ members.now.items)) }
    ensures room { IfOk result (λ found. IfSome found (λ chain. n ≤ room_of chain.value.blocks chain.value.spares)) }
    ensures spare { IfOk result (λ found. IfSome found (λ chain. min (vec_capacity members.now) 128 - vec_len members.now ≤ room_of chain.value.blocks chain.value.spares)) }
    ensures most { IfOk result (λ found. IfSome found (λ chain. room_of chain.value.blocks chain.value.spares ≤ n + 63)) }
    ensures none { IfOk result (λ found. IfNone found (vec_len members.now + n ≤ 128)) }
{
    if n <= CAPACITY - members.len() {
        return Ok(None);
    }
    let alloc = *members.allocator();
    let mut chain = Box::new(alloc, Chain::new(alloc))?;
    begin_with(&mut chain, members, n)?;
    Ok(Some(chain))
}

/// Puts copies of some members into a chain without members, and makes room for `n` more.
fn begin_with<X: Copied + Drop>(
    chain: &mut Chain<X>,
    members: &[X],
    n: usize,
) -> Result<(), NoMemory>
    requires few { length members.now ≤ 128 }
    requires none { chain.old.blocks ≡ [] }
    requires no_spares { chain.old.spares ≡ 0 }
    ensures members { OnOk result (joined chain.new.blocks ≡ members.now) }
    ensures room { OnOk result (n ≤ room_of chain.new.blocks chain.new.spares) }
    ensures most { OnOk result (room_of chain.new.blocks chain.new.spares ≤ n + 63) }
{
    if !members.is_empty() {
        chain.add_spare()?;
        chain.append(members);
    }
    chain.reserve(n)
}
