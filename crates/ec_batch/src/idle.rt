//! Properties that nothing mentions any more.
ghost use Rattle.std.specs.Prelude.{◌≡◌, ◌≢◌, ℕ, List, Some, IsSome};
ghost use Rattle.ec_axioms.specs.Calculus.{PlainEvent};
ghost use Rattle.ec_numbered.specs.PropSet.{has_number};
ghost use Rattle.ec_parts.specs.declared.tally.Tally.{Tally};
ghost use Rattle.ec_parts.specs.StandFor.{StandForBoth, view_of};
ghost use Rattle.ec_store.specs.Table.{mentions_at, prop_at};
ghost use Rattle.ec_batch.specs.Idle.{ForgetsListed, LeavesUnlisted, StandForSome};

use ec_moment::Moment;
use ec_parts::{Parts, forget};
use ec_rows::{MarkRow, SpanRow, TimeRow};
use ec_terms::PropId;

/// Forgets a property that is kept and that nothing mentions, and does nothing else. It takes no memory.
fn forget_one<T: Moment, M: MarkRow<T>, I: SpanRow<T>, X: TimeRow<T>>(
    parts: &mut Parts<T, M, I, X>,
    p: PropId,
)
    requires { StandForSome T.rank parts.old.checked (view_of parts.old) }
    ensures both { (events : List PlainEvent) (tally : Tally) → StandForBoth T.rank parts.old.checked events events (view_of parts.old) tally →
        StandForBoth T.rank parts.old.checked events events (view_of parts.new) tally }
    ensures gone { mentions_at p.0 parts.new.props ≢ Some 0 }
    ensures others { (q : ℕ) → IsSome (prop_at q parts.new.props) → prop_at q parts.new.props ≡ prop_at q parts.old.props }
    ensures theory { parts.new.checked ≡ parts.old.checked }
{
    if !parts.neighbours.is_added(p) {
        return;
    }
    if parts.props.mentions(p) == 0 {
        forget(parts, p);
    }
}

/// Forgets each of these properties that is kept and that nothing mentions. It takes no memory.
pub fn forget_idle<T: Moment, M: MarkRow<T>, I: SpanRow<T>, X: TimeRow<T>>(
    parts: &mut Parts<T, M, I, X>,
    list: &[PropId],
)
    requires { StandForSome T.rank parts.old.checked (view_of parts.old) }
    ensures stands { ForgetsListed T.rank parts.old.checked (λ id. has_number id list.now) (view_of parts.old) (view_of parts.new) }
    ensures unlisted { LeavesUnlisted T.rank parts.old.checked (λ id. has_number id list.now) (view_of parts.old) (view_of parts.new) }
    ensures theory { parts.new.checked ≡ parts.old.checked }
{
    for p in list {
        forget_one(parts, *p);
    }
}
