//! Serving a piece of an input: bytes in, the replies to their lines out.
ghost use Rattle.std.specs.Prelude.{◌≡◌, ◌≤◌, ℕ, List, ◌++◌, ◌⊎◌, false};
ghost use Rattle.ec_lines.specs.FeedState.{Advances};
ghost use Rattle.ec_outside.specs.Counts.{Rose};
ghost use Rattle.ec_server.specs.Answered.{IsServing};
ghost use Rattle.ec_replies.specs.Replies.{Language};
ghost use Rattle.ec_server.specs.Serving.{IsAt, IsPieceHandled};

use ec_axioms::Steps;
use ec_lines::Feed;
use ec_moment::Moment;
use ec_outside::Sink;
use ec_rows::{MarkRow, SpanRow, TimeRow};
use ec_sessions::{Handled, Sessions};
use std::sync::ledger::Ledger;

/// Answers the line that is ready, if there is one, and begins the next.
fn answer_ready<T: Moment, M: MarkRow<T>, I: SpanRow<T>, X: TimeRow<T>, K: Sink, L: Ledger>(
    sessions: &mut Sessions<T, M, I, X>,
    feed: &mut Feed,
    out: &mut K,
    steps: &mut Steps<L>,
) -> Handled
    ensures theory { sessions.new.theory ≡ sessions.old.theory }
    ensures served { let language : Language = record { theory = sessions.old.theory; spelt = T.spelt; canon = T.canon } in
        (taken longer : List ℕ) (start : K) → IsServing K.stands language taken sessions.old.state start out.old →
        Advances feed.old.is_ready feed.old taken longer →
        IsPieceHandled K.stands language result longer sessions.new.state feed.new start out.new }
    ensures ready { feed.new.is_ready ≡ false }
    ensures failed { result ≡ Handled.WriteFault → Rose (K.faults out.old) (K.faults out.new) }
    ensures quiet { (result ≡ Handled.WriteFault) ⊎ (K.faults out.new ≡ K.faults out.old) }
    ensures counted { K.faults out.old ≤ K.faults out.new }
{
    if !feed.ready() {
        return Handled::Go;
    }
    let handled = sessions.handle(feed.line(), out, steps);
    feed.clear();
    handled
}

/// Answers all whole lines that end in a piece of the input, and keeps what stands behind them.
pub fn answer_piece<T: Moment, M: MarkRow<T>, I: SpanRow<T>, X: TimeRow<T>, K: Sink, L: Ledger>(
    sessions: &mut Sessions<T, M, I, X>,
    feed: &mut Feed,
    piece: &[u8],
    out: &mut K,
    steps: &mut Steps<L>,
) -> Handled
    requires { feed.old.is_ready ≡ false }
    ensures theory { sessions.new.theory ≡ sessions.old.theory }
    ensures served { let language : Language = record { theory = sessions.old.theory; spelt = T.spelt; canon = T.canon } in
        (taken : List ℕ) (start : K) → IsAt K.stands language taken sessions.old.state feed.old start out.old →
        IsPieceHandled K.stands language result (taken ++ piece.now) sessions.new.state feed.new start out.new }
    ensures ready { feed.new.is_ready ≡ false }
    ensures failed { result ≡ Handled.WriteFault → Rose (K.faults out.old) (K.faults out.new) }
    ensures quiet { (result ≡ Handled.WriteFault) ⊎ (K.faults out.new ≡ K.faults out.old) }
    ensures counted { K.faults out.old ≤ K.faults out.new }
{
    let mut rest = piece;
    while !rest.is_empty() {
        let count = feed.push(rest);
        rest = &rest[count..];
        match answer_ready(sessions, feed, out, steps) {
            Handled::Go => {}
            #[tactic(none)]
            handled => return handled,
        }
    }
    Handled::Go
}
