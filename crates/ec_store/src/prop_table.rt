ghost use Rattle.std.specs.Prelude.{◌≡◌, ◌≢◌, ◌+◌, ◌-◌, ◌^◌, ◌<◌, ◌≤◌, ℕ, [], None, Some, IsTrue, IsSome, IsOk, IfOk, OnErr, IfSome, All, length, slice_get, map, option_map, take, drop};
ghost use Rattle.ec_terms.specs.Term.{ground_of, names_are_names};
ghost use Rattle.ec_store.specs.Table.{prop_at, term_at, mentions_at, prop_of, is_in_order, number_of, with_prop, without_prop, with_mentions};

use crate::prop_keys::{SoughtTerm, key_of, search};
use crate::prop_records::Records;
use crate::slots::KeyedSlots;
use ec_lists::NoMemory;
use ec_terms::{GroundRef, PropId};
use std::alloc::Global;
use std::marker::Model;

/// The properties that are kept, in term order, each under a number and with a count of its mentions. A number
/// stays as long as its property does. A look-up takes as long whatever the terms are.
#[derive(Drop)]
pub struct PropTable {
    records: Records,
    by_key: KeyedSlots,
    alloc: Global,
}

impl Model for PropTable {
    ghost use Rattle.std.specs.Prelude.{List};
    ghost use Rattle.ec_store.specs.Table.{KeptProp, IsFoundByKey};

    ghost Value = { List KeptProp };

    ghost view = { λ table. table.records.items };

    ghost invariant = { λ table. IsFoundByKey table.by_key.items table.records.items };
}

impl PropTable {
    /// The table of no properties.
    pub fn new(alloc: Global) -> Result<PropTable, NoMemory>
        ensures { IfOk result (λ table. table ≡ []) }
    {
        Ok(PropTable {
            records: Records::new(alloc),
            by_key: KeyedSlots::new(alloc),
            alloc,
        })
    }

    /// How many properties are kept. They are in term order, no term is kept twice, and each is the one under
    /// its number.
    pub fn len(&self) -> usize
        ensures len { result ≡ length self.now }
        ensures order { IsTrue (is_in_order self.now) }
        ensures numbers { All (λ kept. prop_at kept.id self.now ≡ Some kept) self.now }
    {
        self.records.len()
    }

    /// The number of the property at a place of the order, from 0.
    pub fn nth_in_order(&self, i: usize) -> PropId
        requires { i < length self.now }
        ensures number { option_map (λ kept. kept.id) (slice_get self.now i) ≡ Some result.0 }
        ensures prop { prop_at result.0 self.now ≡ slice_get self.now i }
        ensures kept { IsSome (prop_at result.0 self.now) }
    {
        self.records.nth(i)
    }

    /// The numbers from a place of the order on that lie together in memory. A walk by runs reads each number once,
    /// and looks for its place once a run.
    pub fn run_in_order(&self, i: usize) -> &[PropId]
        requires { i < length self.now }
        ensures some { 1 ≤ length result.now }
        ensures run { result.now ≡ take (length result.now) (drop i (map number_of self.now)) }
        ensures kept { All (λ p. IsSome (prop_at p.0 self.now)) result.now }
    {
        self.records.run(i)
    }

    /// The term of a property.
    pub fn ground(&self, p: PropId) -> GroundRef<'_>
        requires { IsSome (prop_at p.0 self.now) }
        ensures term { term_at p.0 self.now ≡ Some (ground_of result) }
        ensures names { IsTrue (names_are_names (ground_of result)) }
    {
        self.records.ground(p)
    }

    /// How often a property is mentioned.
    pub fn mentions(&self, p: PropId) -> u32
        requires { IsSome (prop_at p.0 self.now) }
        ensures { mentions_at p.0 self.now ≡ Some result }
    {
        self.records.mentions(p)
    }

    /// The number under which a term is kept. `None` exactly when it is not. It takes no memory.
    pub fn lookup(&self, term: &GroundRef<'_>) -> Option<PropId>
        ensures number { option_map (λ p. p.0) result ≡ prop_of (ground_of term.now) self.now }
        ensures kept { IfSome result (λ p. IsSome (prop_at p.0 self.now)) }
        ensures term { IfSome result (λ p. term_at p.0 self.now ≡ Some (ground_of term.now)) }
    {
        match search(&self.by_key, &self.records, key_of(term), term) {
            Ok(number) => Some(PropId(number)),
            Err(_) => None,
        }
    }

    /// The number of a term, which is kept from then on. A term that is kept stays as it is, and takes no memory.
    /// `Err`: memory ran out, and all is as it was.
    pub fn intern(&mut self, term: &GroundRef<'_>) -> Result<PropId, NoMemory>
        requires { IsTrue (names_are_names (ground_of term.now)) }
        ensures number { IfOk result (λ p. prop_of (ground_of term.now) self.new ≡ Some p.0) }
        ensures kept { IfOk result (λ p. IsSome (prop_at p.0 self.new)) }
        ensures term { IfOk result (λ p. term_at p.0 self.new ≡ Some (ground_of term.now)) }
        ensures known { IsSome (prop_of (ground_of term.now) self.old) → IsOk result }
        ensures same { IsSome (prop_of (ground_of term.now) self.old) → self.new ≡ self.old }
        ensures free { prop_of (ground_of term.now) self.old ≡ None → IfOk result (λ p. prop_at p.0 self.old ≡ None) }
        ensures props { prop_of (ground_of term.now) self.old ≡ None → IfOk result (λ p. self.new ≡ with_prop p.0 (ground_of term.now) self.old) }
        ensures others { (q : ℕ) → IsSome (prop_at q self.old) → prop_at q self.new ≡ prop_at q self.old }
        ensures err { OnErr result (self.new ≡ self.old) }
    {
        let key = key_of(term);
        let place = match search(&self.by_key, &self.records, key, term) {
            Ok(number) => return Ok(PropId(number)),
            Err(place) => place,
        };
        let kept = term.to_ground(self.alloc)?;
        self.records.reserve()?;
        self.by_key.reserve(1)?;
        let p = self.records.put(kept);
        self.by_key.insert(place, key, p.0);
        Ok(p)
    }

    /// Counts `n` further mentions of a property. It takes no memory.
    pub fn mention(&mut self, p: PropId, n: u32)
        requires kept { IsSome (prop_at p.0 self.old) }
        requires room { IfSome (mentions_at p.0 self.old) (λ count. count + n ≤ 2 ^ 31) }
        ensures props { IfSome (mentions_at p.0 self.old) (λ count. self.new ≡ with_mentions p.0 (count + n) self.old) }
        ensures terms { (q : ℕ) → term_at q self.new ≡ term_at q self.old }
    {
        let count = self.records.mentions(p);
        self.records.set_mentions(p, count + n);
    }

    /// Counts `n` mentions of a property less. It takes no memory.
    pub fn release(&mut self, p: PropId, n: u32)
        requires kept { IsSome (prop_at p.0 self.old) }
        requires enough { IfSome (mentions_at p.0 self.old) (λ count. n ≤ count) }
        ensures props { IfSome (mentions_at p.0 self.old) (λ count. self.new ≡ with_mentions p.0 (count - n) self.old) }
        ensures terms { (q : ℕ) → term_at q self.new ≡ term_at q self.old }
    {
        let count = self.records.mentions(p);
        self.records.set_mentions(p, count - n);
    }

    /// Keeps a property no longer, which nothing mentions. All others stay under their numbers. It takes no
    /// memory.
    pub fn forget(&mut self, p: PropId)
        requires { mentions_at p.0 self.old ≡ Some 0 }
        ensures props { self.new ≡ without_prop p.0 self.old }
        ensures gone { prop_at p.0 self.new ≡ None }
        ensures others { (q : ℕ) → q ≢ p.0 → prop_at q self.new ≡ prop_at q self.old }
    {
        let term = self.records.ground(p);
        let records = &self.records;
        let sought = SoughtTerm {
            records,
            term: &term,
        };
        let place = self.by_key.place_of(key_of(&term), &sought);
        self.by_key.remove(place);
        self.records.take_out(p);
    }
}
