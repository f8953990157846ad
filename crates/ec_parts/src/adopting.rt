//! Properties that the table keeps newly join the other parts.
ghost use Rattle.std.specs.Prelude.{◌≡◌, ◌++◌, ◌∷◌, [], OnOk, OnErr};
ghost use Rattle.ec_context.specs.Widened.{AreUnmentioned, without_props};
ghost use Rattle.ec_parts.specs.Adoption.{HasEntered, HasJoined, HasStayed, KeepStanding, MayJoin, StandForSomeBoth, without_waiting};
ghost use Rattle.ec_parts.specs.StandFor.{view_of};

use crate::gathering::gather;
use crate::parts::Parts;
use ec_context::forget_each;
use ec_lists::NoMemory;
use ec_moment::Moment;
use ec_rows::{MarkRow, SpanRow, TimeRow};
use ec_terms::PropId;
use std::alloc::Global;

/// Adds a property that the table keeps to the neighbours, and gathers its marks. `Err`: memory ran out, and it is not
/// added.
fn adopt_one<T: Moment, M: MarkRow<T>, I: SpanRow<T>, X: TimeRow<T>>(
    alloc: Global,
    parts: &mut Parts<T, M, I, X>,
    p: PropId,
    fresh: &mut Vec<PropId>,
) -> Result<(), NoMemory>
    requires may { MayJoin T.rank parts.old.checked p (view_of parts.old) }
    ensures joined { OnOk result (HasJoined T.rank parts.old.checked p (view_of parts.old) (view_of parts.new)) }
    ensures stayed { OnErr result (HasStayed parts.old.checked (view_of parts.old) (view_of parts.new)) }
    ensures fresh { OnOk result (fresh.new.items ≡ fresh.old.items ++ p ∷ []) }
    ensures err { OnErr result (fresh.new.items ≡ fresh.old.items) }
    ensures rest { parts.new ≡ record parts.old { neighbours = parts.new.neighbours; points = parts.new.points } }
{
    fresh.reserve(1)?;
    parts
        .neighbours
        .add(parts.checked.theory(), &parts.props, p)?;
    let _ = parts.neighbours.is_added(p);
    let list = parts.neighbours.of(p);
    if let Err(refused) = gather(alloc, &mut parts.points, &parts.initiations, p, list) {
        parts.points.clear(p);
        parts.neighbours.drop_prop(p);
        return Err(refused);
    }
    fresh.push_reserved(p);
    Ok(())
}

/// Makes the properties that wait, which the table alone keeps, part of the other parts, and adds their numbers to `fresh`.
/// `Err`: memory ran out, and those that are not in `fresh` are kept no longer.
pub(crate) fn adopt<T: Moment, M: MarkRow<T>, I: SpanRow<T>, X: TimeRow<T>>(
    alloc: Global,
    parts: &mut Parts<T, M, I, X>,
    waiting: &mut Vec<PropId>,
    fresh: &mut Vec<PropId>,
) -> Result<(), NoMemory>
    requires unmentioned { AreUnmentioned waiting.old.items parts.old.props }
    requires stand { StandForSomeBoth T.rank parts.old.checked (without_waiting waiting.old.items (view_of parts.old)) }
    ensures both { KeepStanding T.rank parts.old.checked (without_waiting waiting.old.items (view_of parts.old)) (view_of parts.new) }
    ensures entered { HasEntered (without_props waiting.old.items parts.old.props) fresh.old.items parts.new.props fresh.new.items }
    ensures table { OnOk result (parts.new.props ≡ parts.old.props) }
    ensures theory { parts.new.checked ≡ parts.old.checked }
    ensures store { parts.new.store ≡ parts.old.store }
{
    while let Some(p) = waiting.pop() {
        let _ = parts.props.len();
        let _ = parts.neighbours.is_added(p);
        match adopt_one(alloc, parts, p, fresh) {
            Ok(()) => {}
            Err(refused) => {
                parts.props.forget(p);
                forget_each(&mut parts.props, waiting);
                return Err(refused);
            }
        }
    }
    Ok(())
}
