//! The entries of an event.
ghost use Rattle.std.specs.Prelude.{◌≡◌, ◌<◌, ◌≤◌, ℕ, Some, IsTrue, IsSome, IfOk, OnOk, OnErr, All, [], length, slice_get, map, option_map};
ghost use Rattle.std.specs.List.{list_any};
ghost use Rattle.std.specs.Option.{option_to_list};
ghost use Rattle.ec_terms.specs.Binding.{fills, stands_in, values_of, IsSmall};
ghost use Rattle.ec_terms.specs.Domain.{ground_literal_of, entry_of as entry_met, entries_of as all_entries};
ghost use Rattle.ec_terms.specs.Matchable.{IsMatchable, IsMatchableRule};
ghost use Rattle.ec_terms.specs.Term.{ground_of, names_are_names};
ghost use Rattle.ec_check.specs.WellFormed.{IsWellFormed};
ghost use Rattle.ec_context.specs.Entries.{entry_filled, shown_literal, shown_literals, shown_entry, shown_entries, IsKeptEntry, IsEntryList, NamesAllNew, is_named, is_of};
ghost use Rattle.ec_context.specs.RulePlaces.{ArePlacesFor};
ghost use Rattle.ec_context.specs.Widened.{AddsOnly, AreUnmentioned, HasKept, IsWidened};

use crate::entry::{Entry, EntryList, EntryLiteral, EntryLiterals, MOST_LITERALS};
use crate::keeping::{forget_each, keep};
use crate::rules::Rules;
use ec_axioms::Event;
use ec_lists::NoMemory;
use ec_moment::Moment;
use ec_store::PropTable;
use ec_terms::{
    Binding, GroundRef, Literal, PropId, Rule, Sequence, Theory, fill_ref, matches, tests_hold,
};
use std::alloc::Global;

/// A literal filled in, with the number under which its property is kept from then on.
fn literal_of<'a>(
    literal: &'a Literal,
    binding: &Binding<'a>,
    props: &mut PropTable,
    added: &mut Vec<PropId>,
) -> Result<EntryLiteral, NoMemory>
    requires small { IsSmall literal.now.prop }
    requires bound { IsTrue (fills (values_of binding.now) literal.now.prop) }
    requires unmentioned { AreUnmentioned added.old.items props.old }
    ensures kept { HasKept props.old added.old.items props.new added.new.items }
    ensures shown { IfOk result (λ filled. shown_literal props.new filled ≡ Some (ground_literal_of (values_of binding.now) literal.now)) }
    ensures added { IfOk result (λ filled. AddsOnly (λ id. is_of id filled) added.old.items added.new.items) }
{
    let prop = keep(props, added, &fill_ref(&literal.prop, binding))?;
    Ok(EntryLiteral {
        positive: literal.positive,
        prop,
    })
}

/// The literals of a rule filled in.
fn literals_of<'a>(
    alloc: Global,
    rule: &'a Rule,
    binding: &Binding<'a>,
    props: &mut PropTable,
    added: &mut Vec<PropId>,
) -> Result<EntryLiterals, NoMemory>
    requires rule { IsMatchableRule rule.now }
    requires few { length rule.now.literals ≤ MOST_LITERALS }
    requires bound { (v : ℕ) → IsTrue (stands_in v rule.now.event) → IsSome (values_of binding.now v) }
    requires unmentioned { AreUnmentioned added.old.items props.old }
    ensures kept { HasKept props.old added.old.items props.new added.new.items }
    ensures shown { IfOk result (λ literals. shown_literals props.new literals ≡ Some (map (ground_literal_of (values_of binding.now)) rule.now.literals)) }
    ensures added { IfOk result (λ literals. AddsOnly (λ id. list_any (is_of id) literals) added.old.items added.new.items) }
{
    let mut literals = EntryLiterals::new(alloc);
    for literal in rule.literals.as_slice() {
        literals.push(literal_of(literal, binding, props, added)?)?;
    }
    Ok(literals)
}

/// The entry of an event under the rule of a number, with the properties of its head and its literals filled in by
/// a binding.
fn entry_with<'a>(
    alloc: Global,
    number: u16,
    rule: &'a Rule,
    binding: &Binding<'a>,
    props: &mut PropTable,
    added: &mut Vec<PropId>,
) -> Result<Entry, NoMemory>
    requires rule { IsMatchableRule rule.now }
    requires few { length rule.now.literals ≤ MOST_LITERALS }
    requires bound { (v : ℕ) → IsTrue (stands_in v rule.now.event) → IsSome (values_of binding.now v) }
    requires unmentioned { AreUnmentioned added.old.items props.old }
    ensures kept { HasKept props.old added.old.items props.new added.new.items }
    ensures shown { IfOk result (λ entry. shown_entry props.new entry ≡ Some (entry_filled number rule.now (values_of binding.now))) }
    ensures added { IfOk result (λ entry. AddsOnly (λ id. is_named id entry) added.old.items added.new.items) }
{
    let head = keep(props, added, &fill_ref(&rule.head, binding))?;
    let literals = literals_of(alloc, rule, binding, props, added)?;
    Ok(Entry {
        rule: number,
        kind: rule.kind,
        head,
        literals,
    })
}

/// The entry of an event under the rule of a number. `None` exactly when the event does not meet the rule.
fn entry_of<'a>(
    alloc: Global,
    number: u16,
    rule: &'a Rule,
    event: &GroundRef<'a>,
    props: &mut PropTable,
    added: &mut Vec<PropId>,
) -> Result<Option<Entry>, NoMemory>
    requires rule { IsMatchableRule rule.now }
    requires few { length rule.now.literals ≤ MOST_LITERALS }
    requires named { IsTrue (names_are_names (ground_of event.now)) }
    requires unmentioned { AreUnmentioned added.old.items props.old }
    ensures kept { HasKept props.old added.old.items props.new added.new.items }
    ensures shown { IfOk result (λ met. option_map (shown_entry props.new) met ≡ option_map Some (entry_met number rule.now (ground_of event.now))) }
    ensures added { IfOk result (λ met. AddsOnly (λ id. list_any (is_named id) (option_to_list met)) added.old.items added.new.items) }
{
    let Some(binding) = matches(&rule.event, event) else {
        return Ok(None);
    };
    if !tests_hold(rule, &binding) {
        return Ok(None);
    }
    let entry = entry_with(alloc, number, rule, &binding, props, added)?;
    Ok(Some(entry))
}

/// The rule at a place, from 0.
fn rule_at(theory: &Theory, place: usize) -> &Rule
    requires matchable { IsMatchable theory.now }
    requires well_formed { IsWellFormed theory.now }
    requires within { place < length theory.now.rules }
    ensures rule { slice_get theory.now.rules place ≡ Some result.now }
    ensures matchable { IsMatchableRule result.now }
    ensures few { length result.now.literals ≤ MOST_LITERALS }
{
    let rules = theory.rules.as_slice();
    &rules[place]
}

/// The entries of an event under the rules of a theory at the places of those for such events. Rules are numbered
/// from 1.
fn gather<'a>(
    alloc: Global,
    theory: &'a Theory,
    places: &[u16],
    event: &GroundRef<'a>,
    props: &mut PropTable,
    added: &mut Vec<PropId>,
) -> Result<EntryList, NoMemory>
    requires matchable { IsMatchable theory.now }
    requires well_formed { IsWellFormed theory.now }
    requires places { ArePlacesFor (ground_of event.now) theory.now.rules places.now }
    requires named { IsTrue (names_are_names (ground_of event.now)) }
    requires unmentioned { AreUnmentioned added.old.items props.old }
    ensures kept { HasKept props.old added.old.items props.new added.new.items }
    ensures shown { IfOk result (λ entries. shown_entries props.new entries ≡ Some (all_entries theory.now (ground_of event.now))) }
    ensures added { IfOk result (λ entries. AddsOnly (λ id. list_any (is_named id) entries) added.old.items added.new.items) }
{
    let mut entries = EntryList::new(alloc);
    for place in places {
        let rule = rule_at(theory, *place as usize);
        let number = *place + 1;
        if let Some(entry) = entry_of(alloc, number, rule, event, props, added)? {
            entries.push(entry)?;
        }
    }
    Ok(entries)
}

/// The entries of an event by a theory, in the order of the rules' numbers. Only the rules whose event has the name and
/// the number of arguments of the event's term are tried. The properties of their heads and their literals are kept in
/// the table from then on, and those that are new are mentioned 0 times; `added` tells their numbers, each once, and what
/// it held before has no meaning. `Err`: memory ran out, and the table is as it was.
pub fn entries_of<T: Moment>(
    alloc: Global,
    rules: &Rules,
    event: &Event<T>,
    props: &mut PropTable,
    added: &mut Vec<PropId>,
) -> Result<EntryList, NoMemory>
    ensures entries { IfOk result (λ entries. shown_entries props.new entries ≡ Some (all_entries rules.now event.now.term)) }
    ensures kept { IfOk result (λ entries. All (IsKeptEntry props.new) entries) }
    ensures list { IfOk result IsEntryList }
    ensures named { IfOk result (λ entries. NamesAllNew props.old props.new entries) }
    ensures new { OnOk result (HasKept props.old [] props.new added.new.items) }
    ensures widened { IsWidened props.old props.new }
    ensures err { OnErr result (props.new ≡ props.old) }
{
    let term = &event.term;
    let places = rules.places_for(term.name.as_bytes(), term.args.len());
    added.clear();
    match gather(alloc, rules.theory(), places, &term.borrow(), props, added) {
        Ok(entries) => Ok(entries),
        Err(refused) => {
            forget_each(props, added);
            Err(refused)
        }
    }
}
