//! The tables with a stored event more or less, whose entries are read in its slot.
ghost use Rattle.std.specs.Prelude.{◌≡◌, ◌+◌, ◌≤◌, ◌^◌, ◌++◌, ℕ, IsSome, IsTrue, IfSome, OnOk, OnErr, All, length};
ghost use Rattle.ec_context.specs.Entries.{IsKeptEntry};
ghost use Rattle.ec_numbered.specs.ByNumber.{kept_at};
ghost use Rattle.ec_numbered.specs.PropSet.{has_number};
ghost use Rattle.ec_store.specs.Table.{term_at};
ghost use Rattle.ec_parts.specs.Mentions.{AreOfEvents, AreOfEventsWith, TakeEventIn, TakeEventOut, entry_props, list_props};
ghost use Rattle.ec_parts.specs.StandFor.{view_of};

use crate::mention::{mention_entries, release_entries};
use crate::parts::Parts;
use crate::tally::Tally;
use ec_axioms::Steps;
use ec_context::{Entry, EntryList};
use ec_lists::NoMemory;
use ec_moment::Moment;
use ec_rows::{MarkRow, SpanRow, TimeRow};
use ec_terms::{PropId, Slot};
use std::sync::ledger::Ledger;

/// Counts one mention more of each property that the entries in a slot mention, as `mention_all` does. To read them is one
/// step.
pub fn mention_slot<T: Moment, M: MarkRow<T>, I: SpanRow<T>, X: TimeRow<T>, L: Ledger>(
    parts: &mut Parts<T, M, I, X>,
    tally: &mut Tally,
    slot: Slot,
    steps: &mut Steps<L>,
)
    requires there { IsSome (kept_at slot.0 parts.old.entries.slots) }
    requires kept { IfSome (kept_at slot.0 parts.old.entries.slots) (λ kept. All (IsKeptEntry parts.old.props) kept.list) }
    requires tables { AreOfEvents parts.old.checked parts.old.props parts.old.neighbours parts.old.points tally.old }
    requires few { IfSome (kept_at slot.0 parts.old.entries.slots) (λ kept. tally.old.mentions + length (list_props kept.list) ≤ 2 ^ 21) }
    ensures terms { (id : ℕ) → term_at id parts.new.props ≡ term_at id parts.old.props }
    ensures both { IfSome (kept_at slot.0 parts.old.entries.slots) (λ kept. TakeEventIn T.rank parts.old.checked kept.list (view_of parts.old) tally.old (view_of parts.new) tally.new) }
    ensures rest { parts.new ≡ record parts.old { props = parts.new.props } }
    ensures steps { steps.new ≡ steps.old + 1 }
{
    let _ = parts.checked.theory();
    let _ = parts.props.len();
    let list = parts.entries.list(slot, steps);
    mention_entries(
        &mut parts.props,
        &parts.neighbours,
        &parts.points,
        tally,
        list.as_slice(),
    );
}

/// Adds the properties that the entries of an event mention to a list. `Err`: memory ran out; what the list had, it still has.
pub fn note_props(noted: &mut Vec<PropId>, list: &EntryList) -> Result<(), NoMemory>
    ensures ok { OnOk result (noted.new.items ≡ noted.old.items ++ list_props list.now) }
    ensures more { (id : ℕ) → IsTrue (has_number id noted.old.items) → IsTrue (has_number id noted.new.items) }
{
    for entry in list.as_slice() {
        note_entry(noted, entry)?;
    }
    Ok(())
}

/// Adds the properties that an entry mentions to a list.
fn note_entry(noted: &mut Vec<PropId>, entry: &Entry) -> Result<(), NoMemory>
    ensures ok { OnOk result (noted.new.items ≡ noted.old.items ++ entry_props entry.now) }
    ensures more { (id : ℕ) → IsTrue (has_number id noted.old.items) → IsTrue (has_number id noted.new.items) }
{
    noted.push(entry.head)?;
    for literal in entry.literals.as_slice() {
        noted.push(literal.prop)?;
    }
    Ok(())
}

/// Counts one mention less of each property that the entries in a slot mention, as `release_all` does, and adds these
/// properties to `noted`. To read the entries is one step. `Err`: memory ran out; nothing is released.
pub fn release_slot<T: Moment, M: MarkRow<T>, I: SpanRow<T>, X: TimeRow<T>, L: Ledger>(
    parts: &mut Parts<T, M, I, X>,
    tally: &mut Tally,
    slot: Slot,
    noted: &mut Vec<PropId>,
    steps: &mut Steps<L>,
) -> Result<(), NoMemory>
    requires there { IsSome (kept_at slot.0 parts.old.entries.slots) }
    requires kept { IfSome (kept_at slot.0 parts.old.entries.slots) (λ kept. All (IsKeptEntry parts.old.props) kept.list) }
    requires tables { IfSome (kept_at slot.0 parts.old.entries.slots) (λ kept. AreOfEventsWith parts.old.checked kept.list parts.old.props parts.old.neighbours parts.old.points tally.old) }
    ensures both { OnOk result (IfSome (kept_at slot.0 parts.old.entries.slots) (λ kept. TakeEventOut T.rank parts.old.checked kept.list (view_of parts.old) tally.old (view_of parts.new) tally.new)) }
    ensures terms { (id : ℕ) → term_at id parts.new.props ≡ term_at id parts.old.props }
    ensures rest { parts.new ≡ record parts.old { props = parts.new.props } }
    ensures noted { OnOk result (IfSome (kept_at slot.0 parts.old.entries.slots) (λ kept. noted.new.items ≡ noted.old.items ++ list_props kept.list)) }
    ensures more { (id : ℕ) → IsTrue (has_number id noted.old.items) → IsTrue (has_number id noted.new.items) }
    ensures err { OnErr result (parts.new ≡ parts.old) }
    ensures err_tally { OnErr result (tally.new ≡ tally.old) }
    ensures steps { steps.new ≡ steps.old + 1 }
{
    let _ = parts.checked.theory();
    let _ = parts.props.len();
    let list = parts.entries.list(slot, steps);
    note_props(noted, list)?;
    release_entries(
        &mut parts.props,
        &parts.neighbours,
        &parts.points,
        tally,
        list.as_slice(),
    );
    Ok(())
}
