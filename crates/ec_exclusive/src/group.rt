//! Groups of properties under slots, and the search for the one of a key.
ghost use Rattle.std.specs.Prelude.{◌≡◌, ◌≢◌, ◌≤◌, [], ℕ, None, Some, IsTrue, IfOk, IfErr, OnOk, OnErr, true, false, length, option_map};
ghost use Rattle.std.specs.List.Sorted.{IsPartitionPoint};
ghost use Rattle.ec_store.specs.Held.{place_to};
ghost use Rattle.ec_store.specs.Slots.{is_in_front};
ghost use Rattle.ec_terms.specs.Term.{name_cmp};
ghost use Rattle.ec_exclusive.specs.Groups.{grouped, group_at, key_at, hash_of, is_member, slot_by_key, with_member, without_member, AreFoundByKey};

use ec_lists::NoMemory;
use ec_numbered::PropSet;
use ec_store::{KeyedSlots, Sought};
use ec_terms::PropId;
use slab::Slab;
use std::alloc::Global;
use std::cmp::Ordering;
use std::hash::{FoldHasher, Hasher};

/// The properties of a key.
#[derive(Drop)]
pub(crate) struct Group {
    pub(crate) key: Vec<u8>,
    pub(crate) members: PropSet,
}

/// A key that is looked for among those of the groups.
#[derive(Drop)]
struct SoughtKey<'a> {
    records: &'a Slab<Group>,
    key: &'a [u8],
}

impl Sought for SoughtKey<'_> {
    ghost place = { λ sought slot. place_to name_cmp sought.key.now (key_at (group_at sought.records.now) slot) };

    fn compare(&self, slot: usize) -> Ordering {
        match self.records.get(slot) {
            Some(group) => group.key.as_slice().cmp(&self.key),
            None => Ordering::Greater,
        }
    }
}

/// The number by which a key is searched: two keys may have the same.
#[tactic(auto, unfolding(crate::specs::Groups::hash_of))]
pub(crate) fn hash_of(key: &[u8]) -> u64
    ensures { result ≡ hash_of key.now }
{
    let mut hasher = FoldHasher::default();
    hasher.write(key);
    hasher.finish()
}

/// The slot of the group of a key. `Err`: there is none, and this is how many slots stand in front of it.
pub(crate) fn search(records: &Slab<Group>, slots: &KeyedSlots, key: &[u8]) -> Result<usize, usize>
    requires { AreFoundByKey (group_at records.now) slots.now.items }
    ensures found { IfOk result (λ slot. slot_by_key (group_at records.now) slots.now.items key.now ≡ Some slot) }
    ensures absent { OnErr result (slot_by_key (group_at records.now) slots.now.items key.now ≡ None) }
    ensures within { IfErr result (λ place. place ≤ length slots.now.items) }
    ensures cut { IfErr result (λ place. IsPartitionPoint (λ member. is_in_front (hash_of key.now) (λ slot. place_to name_cmp key.now (key_at (group_at records.now) slot)) member ≡ true) (λ member. is_in_front (hash_of key.now) (λ slot. place_to name_cmp key.now (key_at (group_at records.now) slot)) member ≡ false) slots.now.items place) }
{
    slots.search(hash_of(key), &SoughtKey { records, key })
}

/// How many slots stand in front of that of the group of a key.
pub(crate) fn place_of(records: &Slab<Group>, slots: &KeyedSlots, key: &[u8]) -> usize
    requires { AreFoundByKey (group_at records.now) slots.now.items }
    ensures within { result ≤ length slots.now.items }
    ensures cut { IsPartitionPoint (λ member. is_in_front (hash_of key.now) (λ slot. place_to name_cmp key.now (key_at (group_at records.now) slot)) member ≡ true) (λ member. is_in_front (hash_of key.now) (λ slot. place_to name_cmp key.now (key_at (group_at records.now) slot)) member ≡ false) slots.now.items result }
{
    slots.place_of(hash_of(key), &SoughtKey { records, key })
}

/// The group of a key with one property.
pub(crate) fn group_of(alloc: Global, key: &[u8], p: PropId) -> Result<Group, NoMemory>
    ensures { IfOk result (λ group. grouped group ≡ with_member p (record { key = key.now; members = [] })) }
{
    let mut members = PropSet::new(alloc);
    members.reserve(1)?;
    members.insert(p);
    Ok(Group {
        key: Vec::from_slice(alloc, key)?,
        members,
    })
}

/// Puts a property into the group under a slot. A refusal leaves all as it was.
pub(crate) fn put_under(records: &mut Slab<Group>, slot: usize, p: PropId) -> Result<(), NoMemory>
    ensures keys { (n : ℕ) → key_at (group_at records.new) n ≡ key_at (group_at records.old) n }
    ensures others { (n : ℕ) → n ≢ slot → group_at records.new n ≡ group_at records.old n }
    ensures ok { OnOk result (group_at records.new slot ≡ option_map (with_member p) (group_at records.old slot)) }
    ensures err { OnErr result (group_at records.new slot ≡ group_at records.old slot) }
{
    if let Some(group) = records.get_mut(slot) {
        group.members.reserve(1)?;
        group.members.insert(p);
    }
    Ok(())
}

/// Takes a property out of the group under a slot.
pub(crate) fn take_out_under(records: &mut Slab<Group>, slot: usize, p: PropId)
    ensures keys { (n : ℕ) → key_at (group_at records.new) n ≡ key_at (group_at records.old) n }
    ensures others { (n : ℕ) → n ≢ slot → group_at records.new n ≡ group_at records.old n }
    ensures taken { group_at records.new slot ≡ option_map (without_member p) (group_at records.old slot) }
{
    if let Some(group) = records.get_mut(slot) {
        group.members.remove(p);
    }
}

/// Whether the group under a slot has no properties.
pub(crate) fn is_empty_under(records: &Slab<Group>, slot: usize) -> bool
    ensures { IsTrue result → (n : ℕ) → is_member n (group_at records.now slot) ≡ false }
{
    match records.get(slot) {
        Some(group) => group.members.as_slice().is_empty(),
        None => false,
    }
}
