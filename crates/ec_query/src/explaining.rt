//! Why a property holds at a time, or why it does not.
ghost use Rattle.std.specs.Prelude.{◌≡◌, ◌+◌, ◌*◌, ◌≤◌, List, Some, int_le};
ghost use Rattle.ec_terms.specs.declared.ground.Ground.{Ground};
ghost use Rattle.ec_terms.specs.Term.{ground_of};
ghost use Rattle.ec_axioms.specs.Calculus.{PlainEvent, timeline_of};
ghost use Rattle.ec_axioms.specs.Timeline.{last_begin as begin_before};
ghost use Rattle.ec_intervals.specs.Table.{plain_begin};
ghost use Rattle.ec_parts.specs.StandFor.{view_of};
ghost use Rattle.ec_query.specs.ReasonSteps.{begin_count, why_steps};
ghost use Rattle.ec_query.specs.Reasons.{HasOriginCause, IsReasonFor, plain_origin};
ghost use Rattle.ec_query.specs.Standing.{AreOn, AreOnSome, IsBegun, IsBrokenAt, StandForList};

use crate::causes::find_cause;
use crate::last_begins::last_begin;
use crate::next_breaks::next_break;
use crate::reason::{Origin, Reason};
use crate::sought::Sought;
use ec_axioms::Steps;
use ec_intervals::Begin;
use ec_moment::Moment;
use ec_parts::Parts;
use ec_rows::{Mark, MarkRow, SpanRow, TimeRow};
use ec_terms::{GroundRef, PropId};
use std::sync::ledger::Ledger;

/// Whether a time comes no later than another.
fn is_up_to<T: Moment>(at: T, end: T) -> bool
    ensures { result ≡ int_le (T.rank at) (T.rank end) }
{
    at.order(&end).is_le()
}

/// What a begin of a property came by. It takes two steps at the most for each event at the begin.
#[tactic(none)]
fn origin_of<T: Moment, M: MarkRow<T>, I: SpanRow<T>, X: TimeRow<T>, L: Ledger>(
    parts: &Parts<T, M, I, X>,
    id: PropId,
    begin: Begin<T>,
    steps: &mut Steps<L>,
) -> Origin<T>
    requires on { (events : List PlainEvent) × (p : Ground) × AreOn T.rank parts.now.checked events (view_of parts.now) id.0 p × IsBegun parts.now.checked events p (plain_begin T.rank begin) }
    ensures begin { plain_origin T.rank result ≡ plain_begin T.rank begin }
    ensures cause { (events : List PlainEvent) (p : Ground) → AreOn T.rank parts.now.checked events (view_of parts.now) id.0 p → HasOriginCause T.rank parts.now.checked events p result }
    ensures steps { (events : List PlainEvent) (p : Ground) → AreOn T.rank parts.now.checked events (view_of parts.now) id.0 p → steps.new ≤ steps.old + 2 * begin_count events (plain_begin T.rank begin) }
{
    match begin {
        Begin::Initial => Origin::Initial,
        Begin::At(at) => Origin::At(at, find_cause(parts, id, Sought::Initiation, at, steps)),
    }
}

/// The reason from the last begin of a property and the mark at the break behind it.
fn why_broken<T: Moment, M: MarkRow<T>, I: SpanRow<T>, X: TimeRow<T>, L: Ledger>(
    parts: &Parts<T, M, I, X>,
    id: PropId,
    at: T,
    begin: Begin<T>,
    mark: Mark<T>,
    steps: &mut Steps<L>,
) -> Reason<T>
    requires on { (events : List PlainEvent) × (p : Ground) × AreOn T.rank parts.now.checked events (view_of parts.now) id.0 p × IsBrokenAt T.rank parts.now.checked events p at (plain_begin T.rank begin) mark }
    ensures reason { (events : List PlainEvent) (p : Ground) → AreOn T.rank parts.now.checked events (view_of parts.now) id.0 p → IsBrokenAt T.rank parts.now.checked events p at (plain_begin T.rank begin) mark → IsReasonFor T.rank parts.now.checked events p (T.rank at) result }
    ensures steps { (events : List PlainEvent) (p : Ground) → AreOn T.rank parts.now.checked events (view_of parts.now) id.0 p → IsBrokenAt T.rank parts.now.checked events p at (plain_begin T.rank begin) mark → steps.new ≤ steps.old + why_steps parts.now.checked events p (T.rank at) }
{
    if mark.terms == 0 {
        let breaking = find_cause(parts, id, Sought::Break, mark.at, steps);
        return Reason::Broken {
            from: begin,
            until: mark.at,
            by: breaking,
        };
    }
    let ending = find_cause(parts, id, Sought::Termination, mark.at, steps);
    let holds = is_up_to(at, mark.at);
    if holds {
        let origin = origin_of(parts, id, begin, steps);
        return Reason::Yes {
            from: origin,
            until: Some((mark.at, ending)),
        };
    }
    Reason::Ended {
        from: begin,
        until: mark.at,
        by: ending,
    }
}

/// The reason from the last begin of a property.
fn why_begun<T: Moment, M: MarkRow<T>, I: SpanRow<T>, X: TimeRow<T>, L: Ledger>(
    parts: &Parts<T, M, I, X>,
    id: PropId,
    at: T,
    begin: Begin<T>,
    steps: &mut Steps<L>,
) -> Reason<T>
    requires on { (events : List PlainEvent) × (p : Ground) × AreOn T.rank parts.now.checked events (view_of parts.now) id.0 p × (begin_before (timeline_of parts.now.checked events p) (T.rank at) ≡ Some (plain_begin T.rank begin)) }
    ensures reason { (events : List PlainEvent) (p : Ground) → AreOn T.rank parts.now.checked events (view_of parts.now) id.0 p → begin_before (timeline_of parts.now.checked events p) (T.rank at) ≡ Some (plain_begin T.rank begin) → IsReasonFor T.rank parts.now.checked events p (T.rank at) result }
    ensures steps { (events : List PlainEvent) (p : Ground) → AreOn T.rank parts.now.checked events (view_of parts.now) id.0 p → begin_before (timeline_of parts.now.checked events p) (T.rank at) ≡ Some (plain_begin T.rank begin) → steps.new ≤ steps.old + why_steps parts.now.checked events p (T.rank at) }
{
    match next_break(parts, id, begin) {
        Some(mark) => why_broken(parts, id, at, begin, mark, steps),
        None => Reason::Yes {
            from: origin_of(parts, id, begin, steps),
            until: None,
        },
    }
}

/// The reason for a property that is kept.
fn why_kept<T: Moment, M: MarkRow<T>, I: SpanRow<T>, X: TimeRow<T>, L: Ledger>(
    parts: &Parts<T, M, I, X>,
    id: PropId,
    at: T,
    steps: &mut Steps<L>,
) -> Reason<T>
    requires { AreOnSome T.rank parts.now.checked (view_of parts.now) id.0 }
    ensures reason { (events : List PlainEvent) (p : Ground) → AreOn T.rank parts.now.checked events (view_of parts.now) id.0 p → IsReasonFor T.rank parts.now.checked events p (T.rank at) result }
    ensures steps { (events : List PlainEvent) (p : Ground) → AreOn T.rank parts.now.checked events (view_of parts.now) id.0 p → steps.new ≤ steps.old + why_steps parts.now.checked events p (T.rank at) }
{
    match last_begin(parts, id, at) {
        Some(begin) => why_begun(parts, id, at, begin, steps),
        None => Reason::Never,
    }
}

/// Why a property holds at a time, or why it does not: when it last began before the time, what broke it first behind that,
/// and the first causes of both. A cause is the least by the identity of its event, and then by the number of its rule. It
/// takes no memory. A step is the reading of an event, or of the entries of one.
pub fn why<T: Moment, M: MarkRow<T>, I: SpanRow<T>, X: TimeRow<T>, L: Ledger>(
    parts: &Parts<T, M, I, X>,
    p: &GroundRef<'_>,
    at: T,
    steps: &mut Steps<L>,
) -> Reason<T>
    requires stand { (events : List PlainEvent) × StandForList T.rank parts.now.checked events (view_of parts.now) }
    ensures reason { (events : List PlainEvent) → StandForList T.rank parts.now.checked events (view_of parts.now) → IsReasonFor T.rank parts.now.checked events (ground_of p.now) (T.rank at) result }
    ensures steps { (events : List PlainEvent) → StandForList T.rank parts.now.checked events (view_of parts.now) → steps.new ≤ steps.old + why_steps parts.now.checked events (ground_of p.now) (T.rank at) }
{
    match parts.props.lookup(p) {
        Some(id) => why_kept(parts, id, at, steps),
        None => Reason::Never,
    }
}
