//! What turns at an instant because events are taken out or put in.
ghost use Rattle.std.specs.Prelude.{◌≡◌, ◌+◌, ◌++◌, ◌≤◌, flat_map, length, IsSome, IfOk, OnOk};
ghost use Rattle.std.specs.List.{All};
ghost use Rattle.ec_numbered.specs.ByNumber.{kept_at};
ghost use Rattle.ec_sweep.specs.Acting.{AddsWords, IsWordOf, added_turns, removed_turns, turns_from, up_turns};

use crate::words::{has_bit, with_bit};
use ec_axioms::{Current, Steps};
use ec_context::{Entry, EntryList, evaluate};
use ec_entries::Entries;
use ec_lists::NoMemory;
use ec_moment::Moment;
use ec_revise::{Removal, Turn};
use ec_terms::Sequence;
use std::sync::ledger::Ledger;

/// Tells the turns down of the entries of an event that are active.
fn turn_down(list: &[Entry], active: u64, turns: &mut Vec<Turn>) -> Result<(), NoMemory>
    requires { length list.now ≤ 64 }
    ensures { OnOk result (turns.new.items ≡ turns.old.items ++ turns_from active 0 list.now) }
{
    for (k, entry) in list.iter().enumerate() {
        if has_bit(active, k) {
            turns.push(Turn {
                up: false,
                kind: entry.kind,
                head: entry.head,
            })?;
        }
    }
    Ok(())
}

/// Tells the turns down of events that are to be taken out: of their entries that are active.
pub(crate) fn turn_down_removed<T: Moment, L: Ledger>(
    entries: &Entries<T>,
    removals: &[Removal<T>],
    turns: &mut Vec<Turn>,
    steps: &mut Steps<L>,
) -> Result<(), NoMemory>
    requires { All (λ removal. IsSome (kept_at removal.slot.0 entries.now.slots)) removals.now }
    ensures turns { OnOk result (turns.new.items ≡ turns.old.items ++ removed_turns entries.now.slots removals.now) }
    ensures steps { OnOk result (steps.new ≡ steps.old + length removals.now) }
    ensures most { steps.new ≤ steps.old + length removals.now }
{
    for removal in removals {
        let list = entries.list(removal.slot, steps);
        turn_down(list.as_slice(), entries.active(removal.slot), turns)?;
    }
    Ok(())
}

/// Evaluates the entries of an event that is to be put in: tells the turns up of those that are active, and their bits.
fn turn_up<T: Moment, C: Current<T>, L: Ledger>(
    list: &[Entry],
    at: T,
    current: &C,
    turns: &mut Vec<Turn>,
    steps: &mut Steps<L>,
) -> Result<u64, NoMemory>
    requires { length list.now ≤ 64 }
    ensures word { IfOk result (λ word. IsWordOf (C.is_current current.now) (T.rank at) list.now word) }
    ensures turns { OnOk result (turns.new.items ≡ turns.old.items ++ up_turns (C.is_current current.now) (T.rank at) list.now) }
    ensures steps { OnOk result (steps.new ≡ steps.old + length list.now) }
    ensures most { steps.new ≤ steps.old + length list.now }
{
    let mut word = 0;
    for (k, entry) in list.iter().enumerate() {
        if evaluate(entry, at, current, steps) {
            word = with_bit(word, k, true);
            turns.push(Turn {
                up: true,
                kind: entry.kind,
                head: entry.head,
            })?;
        }
    }
    Ok(word)
}

/// Evaluates the entries of events that are to be put in: tells the turns up of those that are active, and puts their bits
/// behind those of the events before.
pub(crate) fn turn_up_added<T: Moment, C: Current<T>, L: Ledger>(
    lists: &[EntryList],
    at: T,
    current: &C,
    bits: &mut Sequence<u64>,
    turns: &mut Vec<Turn>,
    steps: &mut Steps<L>,
) -> Result<(), NoMemory>
    ensures bits { OnOk result (AddsWords (C.is_current current.now) (T.rank at) lists.now bits.old bits.new) }
    ensures turns { OnOk result (turns.new.items ≡ turns.old.items ++ added_turns (C.is_current current.now) (T.rank at) lists.now) }
    ensures steps { OnOk result (steps.new ≡ steps.old + length (flat_map (λ list. list) lists.now)) }
    ensures most { steps.new ≤ steps.old + length (flat_map (λ list. list) lists.now) }
{
    for list in lists {
        let word = turn_up(list.as_slice(), at, current, turns, steps)?;
        bits.push(word)?;
    }
    Ok(())
}
