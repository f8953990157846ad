//! The look at entries of events that stay: which are active in the new list, and what turned.
ghost use Rattle.std.specs.Prelude.{◌≡◌, ◌+◌, ◌*◌, ◌≤◌, ◌++◌, ◌∷◌, [], map, filter, filter_map, not, length, IsTrue, IsSome, IfOk, OnOk, count_by};
ghost use Rattle.std.specs.List.{All};
ghost use Rattle.std.specs.Option.{option_to_list};
ghost use Rattle.ec_delta.specs.Looked.{are_apart};
ghost use Rattle.ec_sweep.specs.Acting.{FlipsHits, WordsHit, entry_at, turn_at};
ghost use Rattle.ec_sweep.specs.Words.{flip_of};

use crate::hits::{Hit, Hits};
use crate::scratch::Scratch;
use crate::words::{Words, has_bit};
use ec_axioms::{Current, Steps};
use ec_context::evaluate;
use ec_delta::{Flip, Looked};
use ec_entries::Entries;
use ec_lists::{NoMemory, add_counts};
use ec_moment::Moment;
use ec_revise::Turn;
use ec_terms::Sequence;
use std::sync::ledger::Ledger;

/// Looks at one entry: notes whether it is active now, and its turn, if it was not so.
fn look_at<T: Moment, C: Current<T>, L: Ledger>(
    entries: &Entries<T>,
    hit: Hit,
    at: T,
    current: &C,
    words: &mut Words,
    turns: &mut Vec<Turn>,
    steps: &mut Steps<L>,
) -> Result<(), NoMemory>
    requires { IsSome (entry_at entries.now.slots hit) }
    ensures turns { OnOk result (turns.new.items ≡ turns.old.items ++ option_to_list (turn_at (C.is_current current.now) (T.rank at) entries.now.slots hit)) }
    ensures words { OnOk result (WordsHit (C.is_current current.now) (T.rank at) entries.now.slots (hit ∷ []) words.old words.new) }
    ensures steps { steps.new ≡ steps.old + 2 }
{
    let list = entries.list(hit.slot, steps).as_slice();
    let place = usize::from(hit.place);
    let entry = &list[place];
    let before = entries.active(hit.slot);
    let now = evaluate(entry, at, current, steps);
    words.note(hit.slot, place, before, now)?;
    if has_bit(before, place) != now {
        turns.push(Turn {
            up: now,
            kind: entry.kind,
            head: entry.head,
        })?;
    }
    Ok(())
}

/// Looks at several entries.
fn look_at_each<T: Moment, C: Current<T>, L: Ledger>(
    entries: &Entries<T>,
    hits: &Hits,
    at: T,
    current: &C,
    words: &mut Words,
    turns: &mut Vec<Turn>,
    steps: &mut Steps<L>,
) -> Result<(), NoMemory>
    requires { All (λ hit. IsSome (entry_at entries.now.slots hit)) hits.now }
    ensures turns { OnOk result (turns.new.items ≡ turns.old.items ++ filter_map (turn_at (C.is_current current.now) (T.rank at) entries.now.slots) hits.now) }
    ensures words { OnOk result (WordsHit (C.is_current current.now) (T.rank at) entries.now.slots hits.now words.old words.new) }
    ensures steps { OnOk result (steps.new ≡ steps.old + 2 * length hits.now) }
    ensures most { steps.new ≤ steps.old + 2 * length hits.now }
{
    for i in 0..hits.len() {
        look_at(entries, hits.get(i), at, current, words, turns, steps)?;
    }
    Ok(())
}

/// Puts the words behind the new bits of slots.
fn push_flips(words: &Words, flips: &mut Sequence<Flip>) -> Result<(), NoMemory>
    ensures flips { OnOk result (flips.new ≡ flips.old ++ map flip_of words.now) }
    ensures apart { IsTrue (are_apart (map flip_of words.now)) }
{
    for i in 0..words.len() {
        flips.push(words.row(i))?;
    }
    Ok(())
}

/// Counts so many entries that saw a change, and what turned of them.
fn count(looked: &mut Looked, seen: usize, turns: &[Turn]) -> Result<(), NoMemory>
    ensures seen { OnOk result (looked.new.seen ≡ looked.old.seen + seen) }
    ensures on { OnOk result (looked.new.on ≡ looked.old.on + count_by (λ turn. turn.up) turns.now) }
    ensures off { OnOk result (looked.new.off ≡ looked.old.off + count_by (λ turn. not turn.up) turns.now) }
    ensures bits { looked.new.bits ≡ looked.old.bits }
    ensures flips { looked.new.flips ≡ looked.old.flips }
{
    let on = turns.iter().filter(|turn| turn.up).count();
    let off = turns.iter().filter(|turn| !turn.up).count();
    looked.seen = add_counts(looked.seen as usize, seen)? as u64;
    looked.on = add_counts(looked.on as usize, on)? as u64;
    looked.off = add_counts(looked.off as usize, off)? as u64;
    Ok(())
}

/// Looks at the entries that read a property which is dirty and due, and tells what turned of them.
pub(crate) fn look_at_hits<T: Moment, C: Current<T>, L: Ledger>(
    scratch: &mut Scratch,
    entries: &Entries<T>,
    hits: &Hits,
    at: T,
    current: &C,
    looked: &mut Looked,
    steps: &mut Steps<L>,
) -> Result<Vec<Turn>, NoMemory>
    requires { All (λ hit. IsSome (entry_at entries.now.slots hit)) hits.now }
    ensures turns { IfOk result (λ turns. turns.items ≡ filter_map (turn_at (C.is_current current.now) (T.rank at) entries.now.slots) hits.now) }
    ensures seen { OnOk result (looked.new.seen ≡ looked.old.seen + length hits.now) }
    ensures on { IfOk result (λ turns. looked.new.on ≡ looked.old.on + count_by (λ turn. turn.up) turns.items) }
    ensures off { IfOk result (λ turns. looked.new.off ≡ looked.old.off + count_by (λ turn. not turn.up) turns.items) }
    ensures bits { OnOk result (looked.new.bits ≡ looked.old.bits) }
    ensures flips { OnOk result (FlipsHits (C.is_current current.now) (T.rank at) entries.now.slots hits.now looked.old.flips looked.new.flips) }
    ensures steps { OnOk result (steps.new ≡ steps.old + 2 * length hits.now) }
    ensures most { steps.new ≤ steps.old + 2 * length hits.now }
{
    let mut words = scratch.take_words();
    let mut turns = scratch.take_turns();
    look_at_each(entries, hits, at, current, &mut words, &mut turns, steps)?;
    push_flips(&words, &mut looked.flips)?;
    scratch.words = words;
    count(looked, hits.len(), turns.as_slice())?;
    Ok(turns)
}
