ghost use Rattle.std.specs.Prelude.{◌≡◌, ◌≢◌, ◌<◌, ◌≤◌, ℕ, [], true, false, None, Some, IsTrue, IsSome, IfSome, OnOk, All, length, slice_get, map, option_map, take, drop, if◌then◌else◌};
ghost use Rattle.std.specs.List.Sorted.{IsPartitionPoint};
ghost use Rattle.std.specs.Ordering.{is_lt};
ghost use Rattle.ec_terms.specs.Term.{ground_of, names_are_names, term_cmp, term_eq};
ghost use Rattle.ec_store.specs.Table.{prop_at, term_at, term_place, mentions_at, prop_of, is_in_order, number_of, with_prop, without_prop, with_mentions};

use crate::prop_order::{compare, count_before};
use crate::property::Property;
use ec_blocks::Blocks;
use ec_lists::NoMemory;
use ec_terms::{Ground, GroundRef, PropId};
use slab::Slab;
use std::alloc::Global;
use std::cmp::Ordering;
use std::marker::Model;

/// The kept properties in term order, each under a number. Contracts see the list of them, and for how many more
/// there is room.
#[derive(Drop)]
pub(crate) struct Records {
    properties: Slab<Property>,
    order: Blocks<PropId>,
}

impl Model for Records {
    ghost use Rattle.std.specs.Prelude.{◌-◌, min};
    ghost use Rattle.slab.specs.Slab.{get as property_at, slab_len};
    ghost use Rattle.ec_lists.specs.Reserved.{Reserved};
    ghost use Rattle.ec_store.specs.Table.{KeptProp, kept_of, IsTable};

    ghost Value = { Reserved KeptProp };

    ghost view = { λ r. record {
      items = kept_of (property_at r.properties) r.order.items;
      spare = min (r.properties.capacity - slab_len r.properties) r.order.spare;
    } };

    ghost invariant = { λ r. IsTable (property_at r.properties) r.order.items };
}

impl Records {
    /// No properties.
    pub(crate) fn new(alloc: Global) -> Records
        ensures { result.items ≡ [] }
    {
        Records {
            properties: Slab::new(alloc),
            order: Blocks::new(alloc),
        }
    }

    /// How many properties are kept.
    pub(crate) fn len(&self) -> usize
        ensures len { result ≡ length self.now.items }
        ensures order { IsTrue (is_in_order self.now.items) }
        ensures numbers { All (λ kept. prop_at kept.id self.now.items ≡ Some kept) self.now.items }
    {
        self.order.len()
    }

    /// The number of the property at a place of the order.
    pub(crate) fn nth(&self, i: usize) -> PropId
        requires { i < length self.now.items }
        ensures number { option_map (λ kept. kept.id) (slice_get self.now.items i) ≡ Some result.0 }
        ensures prop { prop_at result.0 self.now.items ≡ slice_get self.now.items i }
        ensures kept { IsSome (prop_at result.0 self.now.items) }
    {
        *self.order.get(i)
    }

    /// The numbers from a place of the order on that lie together in memory.
    pub(crate) fn run(&self, i: usize) -> &[PropId]
        requires { i < length self.now.items }
        ensures some { 1 ≤ length result.now }
        ensures run { result.now ≡ take (length result.now) (drop i (map number_of self.now.items)) }
        ensures kept { All (λ p. IsSome (prop_at p.0 self.now.items)) result.now }
    {
        self.order.run(i)
    }

    /// The term of a property.
    pub(crate) fn ground(&self, p: PropId) -> GroundRef<'_>
        requires { IsSome (prop_at p.0 self.now.items) }
        ensures term { term_at p.0 self.now.items ≡ Some (ground_of result) }
        ensures number { prop_of (ground_of result) self.now.items ≡ Some p.0 }
        ensures names { IsTrue (names_are_names (ground_of result)) }
    {
        self.properties[p.0].term.borrow()
    }

    /// How often a property is mentioned.
    pub(crate) fn mentions(&self, p: PropId) -> u32
        requires { IsSome (prop_at p.0 self.now.items) }
        ensures { mentions_at p.0 self.now.items ≡ Some result }
    {
        self.properties[p.0].mentions
    }

    /// How the term under a number stands to another one. Where there is none, it counts as behind it.
    pub(crate) fn compare(&self, number: usize, term: &GroundRef<'_>) -> Ordering
        ensures { result ≡ term_place self.now.items (ground_of term.now) number }
    {
        match self.properties.get(number) {
            Some(property) => compare(&property.term, term),
            None => Ordering::Greater,
        }
    }

    /// How many properties stand before a term.
    fn place_of(&self, term: &GroundRef<'_>) -> usize
        ensures within { result ≤ length self.now.items }
        ensures cut { IsPartitionPoint (λ kept. is_lt (term_cmp kept.term (ground_of term.now)) ≡ true) (λ kept. is_lt (term_cmp kept.term (ground_of term.now)) ≡ false) self.now.items result }
    {
        count_before(&self.properties, &self.order, term)
    }

    /// Makes room for one further property. A refusal leaves all as it was.
    pub(crate) fn reserve(&mut self) -> Result<(), NoMemory>
        ensures same { self.new.items ≡ self.old.items }
        ensures ok { OnOk result (1 ≤ self.new.spare) }
    {
        self.properties.reserve(1)?;
        self.order.reserve(1)?;
        Ok(())
    }

    /// Keeps a new term at its place, under a number that no property has. It takes no memory.
    pub(crate) fn put(&mut self, term: Ground) -> PropId
        requires absent { prop_of term self.old.items ≡ None }
        requires room { 1 ≤ self.old.spare }
        ensures free { prop_at result.0 self.old.items ≡ None }
        ensures props { self.new.items ≡ with_prop result.0 term self.old.items }
        ensures number { prop_of term self.new.items ≡ Some result.0 }
        ensures kept { IsSome (prop_at result.0 self.new.items) }
        ensures term { term_at result.0 self.new.items ≡ Some term }
        ensures others { (q : ℕ) → q ≢ result.0 → prop_at q self.new.items ≡ prop_at q self.old.items }
        ensures numbers { All (λ kept. prop_at kept.id self.new.items ≡ Some kept) self.new.items }
        ensures lookups { (other : Ground) → prop_of other self.new.items ≡ (if term_eq term other then Some result.0 else prop_of other self.old.items) }
    {
        let place = self.place_of(&term.borrow());
        let p = PropId(
            self.properties
                .insert_reserved(Property { term, mentions: 0 }),
        );
        self.order.insert(place, p);
        p
    }

    /// Sets how often a property is mentioned.
    pub(crate) fn set_mentions(&mut self, p: PropId, count: u32)
        requires { IsSome (prop_at p.0 self.old.items) }
        ensures props { self.new.items ≡ with_mentions p.0 count self.old.items }
        ensures terms { (q : ℕ) → term_at q self.new.items ≡ term_at q self.old.items }
        ensures numbers { All (λ kept. prop_at kept.id self.new.items ≡ Some kept) self.new.items }
        ensures lookups { (term : Ground) → prop_of term self.new.items ≡ prop_of term self.old.items }
    {
        self.properties[p.0].mentions = count;
    }

    /// Takes out a property. It takes no memory.
    pub(crate) fn take_out(&mut self, p: PropId)
        requires { IsSome (prop_at p.0 self.old.items) }
        ensures props { self.new.items ≡ without_prop p.0 self.old.items }
        ensures numbers { All (λ kept. prop_at kept.id self.new.items ≡ Some kept) self.new.items }
        ensures lookups { IfSome (term_at p.0 self.old.items) (λ gone. (term : Ground) → prop_of term self.new.items ≡ (if term_eq gone term then None else prop_of term self.old.items)) }
    {
        let place = self.place_of(&self.properties[p.0].term.borrow());
        let _ = self.order.remove(place);
        let _ = self.properties.remove(p.0);
    }
}
