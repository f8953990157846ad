//! The entries of an event, whose properties the tables keep from then on.
ghost use Rattle.std.specs.Prelude.{◌≡◌, ℕ, Some, None, IsTrue, IsSome, IfOk, All};
ghost use Rattle.ec_terms.specs.Domain.{entries_of as all_entries};
ghost use Rattle.ec_context.specs.Entries.{shown_entries, IsKeptEntry};
ghost use Rattle.ec_context.specs.Widened.{IsWidened};
ghost use Rattle.ec_numbered.specs.PropSet.{has_number};
ghost use Rattle.ec_store.specs.Table.{prop_at};
ghost use Rattle.ec_parts.specs.Adoption.{HasEntered, KeepStanding, StandForSomeBoth};
ghost use Rattle.ec_parts.specs.StandFor.{view_of};

use crate::adopting::adopt;
use crate::parts::Parts;
use ec_axioms::Event;
use ec_context::{EntryList, entries_of};
use ec_lists::NoMemory;
use ec_moment::Moment;
use ec_rows::{MarkRow, SpanRow, TimeRow};
use ec_terms::PropId;
use std::alloc::Global;

/// The entries of an event. The properties that they name are kept from then on, in all parts. Those that are new are
/// mentioned 0 times, and their numbers are added to `fresh`. `Err`: memory ran out; what is kept besides stands in
/// `fresh`.
pub fn enter<T: Moment, M: MarkRow<T>, I: SpanRow<T>, X: TimeRow<T>>(
    alloc: Global,
    parts: &mut Parts<T, M, I, X>,
    event: &Event<T>,
    fresh: &mut Vec<PropId>,
) -> Result<EntryList, NoMemory>
    requires stand { StandForSomeBoth T.rank parts.old.checked (view_of parts.old) }
    ensures entries { IfOk result (λ list. shown_entries parts.new.props list ≡ Some (all_entries parts.old.checked event.now.term)) }
    ensures kept { IfOk result (λ list. All (IsKeptEntry parts.new.props) list) }
    ensures both { KeepStanding T.rank parts.old.checked (view_of parts.old) (view_of parts.new) }
    ensures theory { parts.new.checked ≡ parts.old.checked }
    ensures events { parts.new.store ≡ parts.old.store }
    ensures entered { HasEntered parts.old.props fresh.old.items parts.new.props fresh.new.items }
    ensures widened { IsWidened parts.old.props parts.new.props }
    ensures before { (id : ℕ) → IsSome (prop_at id parts.old.props) → prop_at id parts.new.props ≡ prop_at id parts.old.props }
    ensures fresh { (id : ℕ) → IsSome (prop_at id parts.new.props) → prop_at id parts.old.props ≡ None → IsTrue (has_number id fresh.new.items) }
    ensures more { (id : ℕ) → IsTrue (has_number id fresh.old.items) → IsTrue (has_number id fresh.new.items) }
{
    let mut waiting = Vec::new(alloc);
    let list = entries_of(alloc, &parts.checked, event, &mut parts.props, &mut waiting)?;
    adopt(alloc, parts, &mut waiting, fresh)?;
    Ok(list)
}
