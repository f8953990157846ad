ghost use Rattle.std.specs.Prelude.{◌≡◌, ◌+◌, ◌<◌, ◌≤◌, [], Some, None, IfOk, IfErr, OnOk, OnErr, true, false, length, nat_lt};
ghost use Rattle.std.specs.List.{insert, remove};
ghost use Rattle.std.specs.List.Sorted.{IsPartitionedBy, IsPartitionPoint};
ghost use Rattle.ec_store.specs.Slots.{is_in_front, slot_of, IsInOrder};

use crate::sought::Sought;
use ec_blocks::Blocks;
use ec_lists::{Copied, NoMemory};
use std::alloc::Global;
use std::marker::Model;

/// A slot, under the key of what stands there.
#[derive(Clone, Copy, Debug, PartialEq, Eq)]
pub struct KeyedSlot {
    pub key: u64,
    pub slot: usize,
}

impl Copied for KeyedSlot {
    fn copied(&self) -> Self {
        *self
    }
}

/// Slots in the order of their keys, and where keys are equal, of what stands under them. So a search compares what stands there
/// only where keys are equal, and does so few times even if all keys are. Its calls take no memory once there is room.
/// Contracts see the list of slots with their keys, and how many further ones it takes without memory.
#[derive(Drop)]
pub struct KeyedSlots {
    slots: Blocks<KeyedSlot>,
}

impl Model for KeyedSlots {
    ghost use Rattle.ec_store.specs.declared.slots.KeyedSlot.{KeyedSlot};
    ghost use Rattle.ec_lists.specs.Reserved.{Reserved};

    ghost Value = { Reserved KeyedSlot };

    ghost view = { λ keyed. keyed.slots };
}

impl KeyedSlots {
    /// No slots. It takes no memory.
    pub fn new(alloc: Global) -> KeyedSlots
        ensures { result.items ≡ [] }
    {
        KeyedSlots {
            slots: Blocks::new(alloc),
        }
    }

    /// Makes room for `n` further slots. `Err`: memory ran out, and all is as it was.
    pub fn reserve(&mut self, n: usize) -> Result<(), NoMemory>
        ensures same { self.new.items ≡ self.old.items }
        ensures ok { OnOk result (n ≤ self.new.spare) }
        ensures spare { self.old.spare ≤ self.new.spare }
    {
        self.slots.reserve(n)
    }

    /// How many slots stand in front of what is looked for, which has this key. It takes no memory.
    pub fn place_of<S: Sought>(&self, key: u64, sought: &S) -> usize
        requires { IsInOrder key (S.place sought.now) self.now.items }
        ensures within { result ≤ length self.now.items }
        ensures cut { IsPartitionPoint (λ member. is_in_front key (S.place sought.now) member ≡ true) (λ member. is_in_front key (S.place sought.now) member ≡ false) self.now.items result }
    {
        self.slots.partition_point(
            |member| -> bool
                ensures { result ≡ is_in_front key (S.place sought.entry.now) member.now }
            { member.key < key || member.key == key && sought.compare(member.slot).is_lt() },
        )
    }

    /// The place of the first slot with a key that is not less.
    fn first_of(&self, key: u64) -> usize
        ensures within { result ≤ length self.now.items }
        ensures cut { IsPartitionedBy (λ member. nat_lt member.key key) self.now.items → IsPartitionPoint (λ member. nat_lt member.key key ≡ true) (λ member. nat_lt member.key key ≡ false) self.now.items result }
    {
        self.slots.partition_point(
            |member| -> bool
                ensures { result ≡ nat_lt member.now.key key }
            { member.key < key },
        )
    }

    /// The slot of what is looked for, which has this key and this place, if it is there.
    fn at<S: Sought>(&self, place: usize, key: u64, sought: &S) -> Option<usize>
        requires order { IsInOrder key (S.place sought.now) self.now.items }
        requires within { place ≤ length self.now.items }
        requires cut { IsPartitionPoint (λ member. is_in_front key (S.place sought.now) member ≡ true) (λ member. is_in_front key (S.place sought.now) member ≡ false) self.now.items place }
        ensures { result ≡ slot_of key (S.place sought.now) self.now.items }
    {
        if place == self.slots.len() {
            return None;
        }
        let member = *self.slots.get(place);
        if member.key == key && sought.compare(member.slot).is_eq() {
            Some(member.slot)
        } else {
            None
        }
    }

    /// The slot of what is looked for, or its place, by a search that compares what stands under its key.
    fn search_all<S: Sought>(&self, key: u64, sought: &S) -> Result<usize, usize>
        requires { IsInOrder key (S.place sought.now) self.now.items }
        ensures found { IfOk result (λ slot. slot_of key (S.place sought.now) self.now.items ≡ Some slot) }
        ensures absent { OnErr result (slot_of key (S.place sought.now) self.now.items ≡ None) }
        ensures within { IfErr result (λ place. place ≤ length self.now.items) }
        ensures cut { IfErr result (λ place. IsPartitionPoint (λ member. is_in_front key (S.place sought.now) member ≡ true) (λ member. is_in_front key (S.place sought.now) member ≡ false) self.now.items place) }
    {
        let place = self.place_of(key, sought);
        match self.at(place, key, sought) {
            Some(slot) => Ok(slot),
            None => Err(place),
        }
    }

    /// The slot of what is looked for, which has this key. `Err`: it is not there, and this is how many slots stand in front of it. It takes
    /// no memory. Mostly no more than one slot has a key, so that keys are searched first.
    pub fn search<S: Sought>(&self, key: u64, sought: &S) -> Result<usize, usize>
        requires { IsInOrder key (S.place sought.now) self.now.items }
        ensures found { IfOk result (λ slot. slot_of key (S.place sought.now) self.now.items ≡ Some slot) }
        ensures absent { OnErr result (slot_of key (S.place sought.now) self.now.items ≡ None) }
        ensures within { IfErr result (λ place. place ≤ length self.now.items) }
        ensures cut { IfErr result (λ place. IsPartitionPoint (λ member. is_in_front key (S.place sought.now) member ≡ true) (λ member. is_in_front key (S.place sought.now) member ≡ false) self.now.items place) }
    {
        let first = self.first_of(key);
        if first == self.slots.len() {
            return Err(first);
        }
        let member = *self.slots.get(first);
        if member.key != key {
            return Err(first);
        }
        if sought.compare(member.slot).is_eq() {
            return Ok(member.slot);
        }
        self.search_all(key, sought)
    }

    /// The slot of what is looked for, which has this key, if it is there. It takes no memory.
    pub fn find<S: Sought>(&self, key: u64, sought: &S) -> Option<usize>
        requires { IsInOrder key (S.place sought.now) self.now.items }
        ensures { result ≡ slot_of key (S.place sought.now) self.now.items }
    {
        match self.search(key, sought) {
            Ok(slot) => Some(slot),
            Err(_) => None,
        }
    }

    /// Puts a slot at a place. It takes no memory.
    pub fn insert(&mut self, place: usize, key: u64, slot: usize)
        requires within { place ≤ length self.old.items }
        requires room { 1 ≤ self.old.spare }
        ensures items { self.new.items ≡ insert self.old.items place (record { key = key; slot = slot }) }
        ensures spare { self.old.spare ≤ self.new.spare + 1 }
    {
        self.slots.insert(place, KeyedSlot { key, slot });
    }

    /// Takes out the slot at a place.
    pub fn remove(&mut self, place: usize)
        requires { place < length self.old.items }
        ensures items { self.new.items ≡ remove self.old.items place }
        ensures spare { self.old.spare ≤ self.new.spare }
    {
        let _ = self.slots.remove(place);
    }
}
