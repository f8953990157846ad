//! The reply that tells a reason.
ghost use Rattle.std.specs.Prelude.{◌≡◌, ◌+◌, ◌≤◌, List, OnOk, OnErr};
ghost use Rattle.ec_terms.specs.Term.{ground_of};
ghost use Rattle.ec_axioms.specs.Calculus.{PlainEvent};
ghost use Rattle.ec_commands.specs.QueryTexts.{why_reply};
ghost use Rattle.ec_outside.specs.Counts.{Rose};
ghost use Rattle.ec_outside.specs.Streams.{Appended, AppendedPart};
ghost use Rattle.ec_parts.specs.StandFor.{view_of};
ghost use Rattle.ec_query.specs.ReasonSteps.{why_steps};
ghost use Rattle.ec_query.specs.Standing.{StandForList};
ghost use Rattle.ec_query.specs.ReasonTexts.{told_reason};

use crate::explaining::why;
use crate::reason::Reason;
use crate::reason_text::text_of;
use ec_axioms::Steps;
use ec_moment::Moment;
use ec_outside::{Failed, Sink, write_all};
use ec_parts::Parts;
use ec_rows::{MarkRow, SpanRow, TimeRow};
use ec_terms::GroundRef;
use std::sync::ledger::Ledger;

/// Writes a reason with its causes, as `yes 5 inf by e1 rule 2`, `yes -inf 7 initially until e2 rule 4`, `no never`,
/// `no ended 5 10 by e3 rule 1` or `no broken 5 10 by e4 rule 3`: the begin, the break behind it, and the causes, each with
/// the identity of its event and the number of its rule. `Failed` comes only where a call of the sink failed, and then some
/// first part of the text was written.
pub fn write_reason<T: Moment, K: Sink>(reason: &Reason<T>, out: &mut K) -> Result<(), Failed>
    ensures written { OnOk result (Appended K.stands out.old out.new (told_reason T.rank T.canon reason.now)) }
    ensures part { OnErr result (AppendedPart K.stands out.old out.new (told_reason T.rank T.canon reason.now)) }
    ensures failed { OnErr result (Rose (K.faults out.old) (K.faults out.new)) }
    ensures quiet { OnOk result (K.faults out.new ≡ K.faults out.old) }
    ensures counted { K.faults out.old ≤ K.faults out.new }
{
    let text = text_of(reason);
    write_all(out, text.as_bytes())
}

/// Writes why a property holds at a time, or why it does not. A step is the reading of an event, or of the entries of one.
/// `Failed` comes only where a call of the sink failed, and then some first part of the reply was written.
pub fn write_why<T: Moment, M: MarkRow<T>, I: SpanRow<T>, X: TimeRow<T>, K: Sink, L: Ledger>(
    parts: &Parts<T, M, I, X>,
    p: &GroundRef<'_>,
    at: T,
    out: &mut K,
    steps: &mut Steps<L>,
) -> Result<(), Failed>
    requires stand { (events : List PlainEvent) × StandForList T.rank parts.now.checked events (view_of parts.now) }
    ensures written { (events : List PlainEvent) → StandForList T.rank parts.now.checked events (view_of parts.now) → OnOk result (Appended K.stands out.old out.new (why_reply parts.now.checked events T.canon (ground_of p.now) (T.rank at))) }
    ensures part { (events : List PlainEvent) → StandForList T.rank parts.now.checked events (view_of parts.now) → OnErr result (AppendedPart K.stands out.old out.new (why_reply parts.now.checked events T.canon (ground_of p.now) (T.rank at))) }
    ensures failed { OnErr result (Rose (K.faults out.old) (K.faults out.new)) }
    ensures quiet { OnOk result (K.faults out.new ≡ K.faults out.old) }
    ensures counted { K.faults out.old ≤ K.faults out.new }
    ensures steps { (events : List PlainEvent) → StandForList T.rank parts.now.checked events (view_of parts.now) → steps.new ≤ steps.old + why_steps parts.now.checked events (ground_of p.now) (T.rank at) }
{
    let reason = why(parts, p, at, steps);
    write_reason(&reason, out)
}
