//! The rules of a theory, found at once by the name and the number of arguments of their events.
ghost use Rattle.std.specs.Prelude.{◌≡◌, ◌<◌, ◌≤◌, ℕ, List, [], ◌∷◌, None, false, IsSome, IfOk, OnOk, All, length};
ghost use Rattle.ec_terms.specs.Matchable.{IsMatchableRule};
ghost use Rattle.ec_store.specs.ByText.{found_at};
ghost use Rattle.ec_context.specs.RulePlaces.{IsIndex, is_for as is_rule_for, listed, places_for};

use arrayvec::ArrayVec;
use ec_check::{Checked, MOST_EVENT_RULES, MOST_RULES};
use ec_lists::NoMemory;
use ec_terms::{LONGEST_NAME, MOST_ARGS, Rule, Theory};
use indexmap::IndexMap;
use std::alloc::Global;
use std::marker::Model;

/// The most bytes of a key: the number of arguments, and the name.
const LONGEST_KEY: usize = LONGEST_NAME + 1;

/// The places of rules, by the number of arguments and the name of their events.
type Index = IndexMap<Vec<u8>, Vec<u16>>;

/// A well-formed theory whose rules are found by the name and the number of arguments of an event. Contracts see the
/// theory.
#[derive(Drop)]
pub struct Rules {
    checked: Checked,
    index: Index,
}

impl Model for Rules {
    ghost use Rattle.ec_terms.specs.declared.theory.Theory.{Theory};
    ghost use Rattle.ec_check.specs.WellFormed.{IsWellFormed};
    ghost use Rattle.ec_context.specs.RulePlaces.{IsIndex};

    ghost Value = { Theory };

    ghost view = { λ rules. rules.checked };

    ghost invariant = { λ rules. IsWellFormed rules.checked × IsIndex rules.checked.rules rules.index };
}

impl Rules {
    ghost use Rattle.ec_terms.specs.Matchable.{IsMatchable};
    ghost use Rattle.ec_check.specs.WellFormed.{IsWellFormed};

    /// The rules of a theory. `Err`: memory ran out, and the theory is dropped.
    pub fn new(alloc: Global, checked: Checked) -> Result<Rules, NoMemory>
        ensures { IfOk result (λ rules. rules ≡ checked) }
    {
        let index = index_of(alloc, checked.theory().rules.as_slice())?;
        Ok(Rules { checked, index })
    }

    /// The theory, well formed.
    pub fn theory(&self) -> &Theory
        ensures theory { result.now ≡ self.now }
        ensures well_formed { IsWellFormed self.now }
        ensures matchable { IsMatchable self.now }
    {
        self.checked.theory()
    }

    /// The places of the rules whose event has a name and so many arguments, from 0 and ascending.
    pub(crate) fn places_for(&self, name: &[u8], arity: usize) -> &[u16]
        requires short { length name.now ≤ LONGEST_NAME }
        requires few { arity ≤ MOST_ARGS }
        ensures places { result.now ≡ places_for name.now arity self.now.rules }
        ensures few { length result.now ≤ MOST_EVENT_RULES }
    {
        match self.index.get(key_of(name, arity).as_slice()) {
            Some(places) => places.as_slice(),
            None => &[],
        }
    }
}

/// The key of events with a name and so many arguments.
fn key_of(name: &[u8], arity: usize) -> ArrayVec<u8, LONGEST_KEY>
    requires short { length name.now ≤ LONGEST_NAME }
    requires few { arity ≤ MOST_ARGS }
    ensures { result.items ≡ arity ∷ name.now }
{
    let mut key = ArrayVec::new();
    key.push(arity as u8);
    for byte in name {
        key.push(*byte);
    }
    key
}

/// Whether a rule is for events with a name and so many arguments.
fn is_for(rule: &Rule, name: &[u8], arity: usize) -> bool
    ensures { result ≡ is_rule_for name.now arity rule.now }
{
    rule.event.name.as_bytes() == name && rule.event.args.len() == arity
}

/// The places of the rules that are for events with a name and so many arguments.
fn places_of(alloc: Global, rules: &[Rule], name: &[u8], arity: usize) -> Result<Vec<u16>, NoMemory>
    requires { length rules.now ≤ MOST_RULES }
    ensures { IfOk result (λ places. places.items ≡ places_for name.now arity rules.now) }
{
    let mut places = Vec::new(alloc);
    for (i, rule) in rules.iter().enumerate() {
        if is_for(rule, name, arity) {
            places.push(i as u16)?;
        }
    }
    Ok(places)
}

/// Puts the places of the rules with the form of one of them under its key, where none stand there yet.
fn add(alloc: Global, rules: &[Rule], rule: &Rule, index: &mut Index) -> Result<(), NoMemory>
    requires few { length rules.now ≤ MOST_RULES }
    requires rule { IsMatchableRule rule.now }
    requires exact { (name : List ℕ) (arity : ℕ) → IsSome (found_at index.old (arity ∷ name)) → listed (found_at index.old (arity ∷ name)) ≡ places_for name arity rules.now }
    ensures exact { OnOk result ((name : List ℕ) (arity : ℕ) → IsSome (found_at index.new (arity ∷ name)) → listed (found_at index.new (arity ∷ name)) ≡ places_for name arity rules.now) }
    ensures kept { OnOk result ((name : List ℕ) (arity : ℕ) → found_at index.new (arity ∷ name) ≡ None → found_at index.old (arity ∷ name) ≡ None) }
    ensures here { OnOk result ((name : List ℕ) (arity : ℕ) → found_at index.new (arity ∷ name) ≡ None → is_rule_for name arity rule.now ≡ false) }
{
    let name = rule.event.name.as_bytes();
    let arity = rule.event.args.len();
    let key = key_of(name, arity);
    if index.contains_key(key.as_slice()) {
        return Ok(());
    }
    let places = places_of(alloc, rules, name, arity)?;
    let owned_key = Vec::from_slice(alloc, key.as_slice())?;
    index.insert(owned_key, places)?;
    Ok(())
}

/// The places of rules by their forms.
fn index_of(alloc: Global, rules: &[Rule]) -> Result<Index, NoMemory>
    requires few { length rules.now ≤ MOST_RULES }
    requires rules { All IsMatchableRule rules.now }
    ensures { IfOk result (λ index. IsIndex rules.now index) }
{
    let mut index = IndexMap::new(alloc);
    for rule in rules {
        add(alloc, rules, rule, &mut index)?;
    }
    Ok(index)
}
