//! The keys under which properties are found.
ghost use Rattle.std.specs.Prelude.{◌≡◌, ◌≤◌, true, false, Some, None, IfOk, IfErr, OnErr, length};
ghost use Rattle.std.specs.List.Sorted.{IsPartitionPoint};
ghost use Rattle.ec_terms.specs.Term.{arg_of, ground_of};
ghost use Rattle.std.specs.Hash.FoldHasher.{write};
ghost use Rattle.ec_store.specs.Slots.{is_in_front};
ghost use Rattle.ec_store.specs.PropKeys.{fed_by, key_of};
ghost use Rattle.ec_store.specs.Table.{prop_of, term_place, IsFoundByKey};

use crate::prop_records::Records;
use crate::slots::KeyedSlots;
use crate::sought::Sought;
use ec_terms::{ArgRef, GroundRef};
use std::cmp::Ordering;
use std::hash::{FoldHasher, Hasher};

/// Feeds an argument to a hasher.
#[tactic(auto, unfolding(crate::specs::PropKeys::fed_by))]
fn feed(hasher: &mut FoldHasher, arg: &ArgRef<'_>)
    ensures { hasher.new ≡ fed_by write hasher.old (arg_of arg.now) }
{
    match *arg {
        ArgRef::Int(number) => hasher.write_i64(number),
        ArgRef::Word(word) => hasher.write(word),
    }
}

/// The key of a term, by which it is found: two terms may have the same.
pub(crate) fn key_of(term: &GroundRef<'_>) -> u64
    ensures { result ≡ key_of (ground_of term.now) }
{
    let mut hasher = FoldHasher::default();
    hasher.write(term.name);
    for arg in term.args.as_slice() {
        feed(&mut hasher, arg);
    }
    hasher.finish()
}

/// A term that is looked for among the kept ones.
#[derive(Drop)]
pub(crate) struct SoughtTerm<'a> {
    pub(crate) records: &'a Records,
    pub(crate) term: &'a GroundRef<'a>,
}

impl Sought for SoughtTerm<'_> {
    ghost place = { λ sought number. term_place sought.records.now.items (ground_of sought.term.now) number };

    fn compare(&self, slot: usize) -> Ordering {
        self.records.compare(slot, self.term)
    }
}

/// The number of a kept term, which has this key. `Err`: it is not kept, and this is how many keyed numbers stand in front of it.
pub(crate) fn search(
    by_key: &KeyedSlots,
    records: &Records,
    key: u64,
    term: &GroundRef<'_>,
) -> Result<usize, usize>
    requires found { IsFoundByKey by_key.now.items records.now.items }
    requires key { key ≡ key_of (ground_of term.now) }
    ensures found { IfOk result (λ number. prop_of (ground_of term.now) records.now.items ≡ Some number) }
    ensures absent { OnErr result (prop_of (ground_of term.now) records.now.items ≡ None) }
    ensures within { IfErr result (λ place. place ≤ length by_key.now.items) }
    ensures cut { IfErr result (λ place. IsPartitionPoint (λ member. is_in_front key (term_place records.now.items (ground_of term.now)) member ≡ true) (λ member. is_in_front key (term_place records.now.items (ground_of term.now)) member ≡ false) by_key.now.items place) }
{
    let term = &*term;
    by_key.search(key, &SoughtTerm { records, term })
}
