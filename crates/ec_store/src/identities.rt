//! The keys of identities. The identities themselves stand in the records alone.
ghost use Rattle.std.specs.Prelude.{◌≡◌};
ghost use Rattle.slab.specs.Slab.{get as record_at};
ghost use Rattle.ec_store.specs.Held.{place_to};
ghost use Rattle.ec_terms.specs.Term.{name_cmp};
ghost use Rattle.ec_store.specs.Identities.{hash_of, key_of, number_of};
ghost use Rattle.ec_store.specs.EventRecords.{identity_at};

use crate::sought::Sought;
use ec_axioms::Event;
use ec_moment::Moment;
use ec_terms::Name;
use slab::Slab;
use std::cmp::Ordering;
use std::hash::{FoldHasher, Hasher};

/// How many bytes at the end of an identity stand in its key as they are.
const TAIL: usize = 6;

/// The key of an identity, by which it is ordered: two identities may have the same.
#[tactic(auto, unfolding(crate::specs::Identities::key_of))]
pub(crate) fn key_of(id: &Name) -> u64
    ensures { result ≡ key_of id.now }
{
    let bytes = id.as_bytes();
    let tail = bytes.len().saturating_sub(TAIL);
    hash_of(&bytes[..tail])
        .wrapping_mul(1 << 48)
        .wrapping_add(number_of(&bytes[tail..]))
}

/// A hash of the bytes.
fn hash_of(bytes: &[u8]) -> u64
    ensures { result ≡ hash_of bytes.now }
{
    let mut hasher = FoldHasher::default();
    hasher.write(bytes);
    hasher.finish()
}

/// The bytes as the digits of one number.
fn number_of(bytes: &[u8]) -> u64
    ensures { result ≡ number_of bytes.now }
{
    let mut number: u64 = 0;
    for byte in bytes {
        number = number.wrapping_mul(256).wrapping_add(u64::from(*byte));
    }
    number
}

/// An identity that is looked for among those of the records.
#[derive(Drop)]
pub(crate) struct SoughtIdentity<'a, T: Moment> {
    pub(crate) records: &'a Slab<Event<T>>,
    pub(crate) id: &'a Name,
}

impl<T: Moment> Sought for SoughtIdentity<'_, T> {
    ghost place = { λ sought slot. place_to name_cmp sought.id.now (identity_at (record_at sought.records.now) slot) };

    fn compare(&self, slot: usize) -> Ordering {
        match self.records.get(slot) {
            Some(event) => event.id.cmp(self.id),
            None => Ordering::Greater,
        }
    }
}
