//! Groups of properties by keys, in which the neighbours of a new property are found.
ghost use Rattle.std.specs.Prelude.{◌≡◌, ◌==◌, ◌&&◌, ◌||◌, not, ℕ, [], List, true, false, OnOk, OnErr, bytes_eq, if◌then◌else◌};
ghost use Rattle.ec_numbered.specs.PropSet.{has_number};
ghost use Rattle.ec_exclusive.specs.Groups.{in_group, is_among};

use crate::group::{
    Group, group_of, hash_of, is_empty_under, place_of, put_under, search, take_out_under,
};
use ec_lists::NoMemory;
use ec_store::KeyedSlots;
use ec_terms::PropId;
use slab::Slab;
use std::alloc::Global;
use std::marker::Model;

/// The properties of each group. A group that has none need not be there. The groups are found in the order of a hash of their
/// keys, and where hashes are equal, of the keys: so no choice of keys makes a look-up slow.
#[derive(Drop)]
pub(crate) struct Groups {
    records: Slab<Group>,
    slots: KeyedSlots,
}

impl Model for Groups {
    ghost use Rattle.std.specs.Prelude.{List};
    ghost use Rattle.ec_exclusive.specs.Groups.{Grouped, groups_of, group_at, AreFoundByKey};

    ghost Value = { List Grouped };

    ghost view = { λ groups. groups_of (group_at groups.records) groups.slots.items };

    ghost invariant = { λ groups. AreFoundByKey (group_at groups.records) groups.slots.items };
}

/// No groups.
pub(crate) fn no_groups(alloc: Global) -> Groups
    ensures { result ≡ [] }
{
    Groups {
        records: Slab::new(alloc),
        slots: KeyedSlots::new(alloc),
    }
}

/// The properties in the group of a key, in the order of their numbers.
pub(crate) fn members<'a>(groups: &'a Groups, key: &[u8]) -> &'a [PropId]
    ensures { (n : ℕ) → has_number n result.now ≡ in_group groups.now key.now n }
{
    match search(&groups.records, &groups.slots, key) {
        Ok(slot) => match groups.records.get(slot) {
            Some(group) => group.members.as_slice(),
            None => &[],
        },
        Err(_) => &[],
    }
}

/// Puts a property into the group of a key, which is opened if there is none.
fn put(groups: &mut Groups, alloc: Global, key: &[u8], p: PropId) -> Result<(), NoMemory>
    ensures ok { OnOk result ((k : List ℕ) (n : ℕ) →
        in_group groups.new k n ≡ (if bytes_eq key.now k then (p.0 == n) || in_group groups.old k n else in_group groups.old k n)) }
    ensures err { OnErr result ((k : List ℕ) (n : ℕ) → in_group groups.new k n ≡ in_group groups.old k n) }
{
    match search(&groups.records, &groups.slots, key) {
        Ok(slot) => put_under(&mut groups.records, slot, p),
        Err(place) => {
            groups.records.reserve(1)?;
            groups.slots.reserve(1)?;
            let group = group_of(alloc, key, p)?;
            let slot = groups.records.insert_reserved(group);
            groups.slots.insert(place, hash_of(key), slot);
            Ok(())
        }
    }
}

/// Takes a property out of the group of a key.
fn take_out(groups: &mut Groups, key: &[u8], p: PropId)
    ensures { (k : List ℕ) (n : ℕ) →
        in_group groups.new k n ≡ (if bytes_eq key.now k then not (p.0 == n) && in_group groups.old k n else in_group groups.old k n) }
{
    match search(&groups.records, &groups.slots, key) {
        Ok(slot) => take_out_under(&mut groups.records, slot, p),
        Err(_) => (),
    }
}

/// Closes the group of a key, if it has no properties.
fn close(groups: &mut Groups, key: &[u8])
    ensures { (k : List ℕ) (n : ℕ) → in_group groups.new k n ≡ in_group groups.old k n }
{
    if let Ok(slot) = search(&groups.records, &groups.slots, key) {
        if is_empty_under(&groups.records, slot) {
            let place = place_of(&groups.records, &groups.slots, key);
            let _ = groups.records.try_remove(slot);
            groups.slots.remove(place);
        }
    }
}

/// Takes a property out of the groups of its keys.
pub(crate) fn leave(groups: &mut Groups, keys: &[Vec<u8>], p: PropId)
    ensures { (k : List ℕ) (n : ℕ) → in_group groups.new k n ≡ (not ((p.0 == n) && is_among keys.now k) && in_group groups.old k n) }
{
    for key in keys {
        take_out(groups, key, p);
        close(groups, key);
    }
}

/// Puts a property into the groups of its keys. If memory runs out, it may stand in some of them.
fn enter_each(
    groups: &mut Groups,
    alloc: Global,
    keys: &[Vec<u8>],
    p: PropId,
) -> Result<(), NoMemory>
    ensures apart { (k : List ℕ) (n : ℕ) → ((p.0 == n) && is_among keys.now k) ≡ false → in_group groups.new k n ≡ in_group groups.old k n }
    ensures ok { OnOk result ((k : List ℕ) → is_among keys.now k ≡ true → in_group groups.new k p.0 ≡ true) }
{
    for key in keys {
        put(groups, alloc, key, p)?;
    }
    Ok(())
}

/// Puts a property, which stands in no group, into those of its keys. A refusal leaves all as it was.
pub(crate) fn enter(
    groups: &mut Groups,
    alloc: Global,
    keys: &[Vec<u8>],
    p: PropId,
) -> Result<(), NoMemory>
    requires { (k : List ℕ) → in_group groups.old k p.0 ≡ false }
    ensures ok { OnOk result ((k : List ℕ) (n : ℕ) → in_group groups.new k n ≡ (((p.0 == n) && is_among keys.now k) || in_group groups.old k n)) }
    ensures err { OnErr result ((k : List ℕ) (n : ℕ) → in_group groups.new k n ≡ in_group groups.old k n) }
{
    if let Err(refusal) = enter_each(groups, alloc, keys, p) {
        leave(groups, keys, p);
        return Err(refusal);
    }
    Ok(())
}
