//! The loop that serves an input: reads and flushes round its pieces, up to its end, a `quit` or a limit.
ghost use Rattle.std.specs.Prelude.{◌≡◌, ◌≤◌, ◌<◌, ◌⊎◌, ℕ, List, [], false, take, IfOk, OnOk, OnErr};
ghost use Rattle.ec_commands.specs.Lines.{lines_of};
ghost use Rattle.ec_replies.specs.State.{empty_state};
ghost use Rattle.ec_server.specs.Answered.{AnswersLines, AnswersPart};
ghost use Rattle.ec_replies.specs.Replies.{Language};
ghost use Rattle.ec_lines.specs.FeedState.{IsPart};
ghost use Rattle.ec_outside.specs.Counts.{Rose, next_count};
ghost use Rattle.ec_outside.specs.Streams.{NothingAppended, Took, IsAtEnd};
ghost use Rattle.ec_server.specs.Ending.{IsEnding};
ghost use Rattle.ec_server.specs.Serving.{IsAt, IsLast};

use crate::ending::Ending;
use crate::piece::answer_piece;
use ec_axioms::Steps;
use ec_lines::Feed;
use ec_moment::Moment;
use ec_outside::{Failed, Sink, Source};
use ec_rows::{MarkRow, SpanRow, TimeRow};
use ec_sessions::{Handled, Sessions};
use std::sync::ledger::Ledger;

/// The most bytes that one read asks for.
const PIECE: usize = 4_096;

/// Reads the next bytes, at most as many as are left of the limit.
fn read_piece<S: Source>(
    input: &mut S,
    buffer: &mut [u8; PIECE],
    left: u64,
) -> Result<usize, Failed>
    requires { 0 < left }
    ensures within { IfOk result (λ count. (count ≤ PIECE) × (count ≤ left)) }
    ensures took { IfOk result (λ count. Took (S.left input.old) (S.left input.new) (take count buffer.new)) }
    ensures end { IfOk result (λ count. count ≡ 0 → IsAtEnd (S.left input.new)) }
    ensures unchanged { OnErr result (S.left input.new ≡ S.left input.old) }
    ensures failed { OnErr result (Rose (S.faults input.old) (S.faults input.new)) }
    ensures quiet { OnOk result (S.faults input.new ≡ S.faults input.old) }
    ensures counted { S.faults input.old ≤ S.faults input.new }
    ensures one_more { S.reads input.new ≡ next_count (S.reads input.old) }
    ensures going { IfOk result (λ count. 0 < count → S.ended input.old ≡ 0 → S.ended input.new ≡ 0) }
    ensures one_end { S.ended input.old ≡ 0 → S.ended input.new ≤ 1 }
{
    let most = left.min(PIECE as u64) as usize;
    input.read(&mut buffer[..most])
}

/// Answers what stands behind the last line end, where the input has ended.
fn answer_rest<T: Moment, M: MarkRow<T>, I: SpanRow<T>, X: TimeRow<T>, K: Sink, L: Ledger>(
    sessions: &mut Sessions<T, M, I, X>,
    feed: &mut Feed,
    out: &mut K,
    steps: &mut Steps<L>,
) -> Handled
    requires { feed.old.is_ready ≡ false }
    ensures answered { let language : Language = record { theory = sessions.old.theory; spelt = T.spelt; canon = T.canon } in
        (taken : List ℕ) (start : K) → IsAt K.stands language taken sessions.old.state feed.old start out.old →
        IsLast K.stands language result (lines_of taken) start out.new }
    ensures failed { result ≡ Handled.WriteFault → Rose (K.faults out.old) (K.faults out.new) }
    ensures quiet { (result ≡ Handled.WriteFault) ⊎ (K.faults out.new ≡ K.faults out.old) }
    ensures counted { K.faults out.old ≤ K.faults out.new }
{
    feed.end();
    if !feed.ready() {
        return Handled::Go;
    }
    sessions.handle(feed.line(), out, steps)
}

/// Answers what stands behind the last line end, and hands the output on.
fn finish<T: Moment, M: MarkRow<T>, I: SpanRow<T>, X: TimeRow<T>, K: Sink, L: Ledger>(
    sessions: &mut Sessions<T, M, I, X>,
    feed: &mut Feed,
    out: &mut K,
    steps: &mut Steps<L>,
) -> Ending
    requires { feed.old.is_ready ≡ false }
    ensures answered { let language : Language = record { theory = sessions.old.theory; spelt = T.spelt; canon = T.canon } in
        (taken : List ℕ) (start : K) → IsAt K.stands language taken sessions.old.state feed.old start out.old →
        ((result ≡ Ending.End) × AnswersLines K.stands language (lines_of taken) start out.new)
        ⊎ ((result ≡ Ending.WriteFault) × AnswersPart K.stands language (lines_of taken) start out.new) }
    ensures either { (result ≡ Ending.End) ⊎ (result ≡ Ending.WriteFault) }
    ensures failed { result ≡ Ending.WriteFault → Rose (K.faults out.old) (K.faults out.new) }
    ensures quiet { (result ≡ Ending.WriteFault) ⊎ (K.faults out.new ≡ K.faults out.old) }
    ensures handed_on { (result ≡ Ending.WriteFault) ⊎ (K.waiting out.new ≡ 0) }
{
    match answer_rest(sessions, feed, out, steps) {
        Handled::WriteFault => Ending::WriteFault,
        _ => hand_on(out, Ending::End),
    }
}

/// Hands the output on where the serving ends so.
#[tactic(none)]
fn hand_on<K: Sink>(out: &mut K, ending: Ending) -> Ending
    ensures kept { NothingAppended K.stands out.old out.new }
    ensures either { (result ≡ ending) ⊎ ((result ≡ Ending.WriteFault) × Rose (K.faults out.old) (K.faults out.new)) }
    ensures quiet { (result ≡ Ending.WriteFault) ⊎ (K.faults out.new ≡ K.faults out.old) }
    ensures counted { K.faults out.old ≤ K.faults out.new }
    ensures handed_on { (result ≡ Ending.WriteFault) ⊎ (K.waiting out.new ≡ 0) }
{
    match out.flush() {
        Ok(()) => ending,
        Err(_) => Ending::WriteFault,
    }
}

/// Takes bytes of an input until its end, a `quit`, a fault or `limit` bytes, and answers their lines.
///
/// The output is handed on before each read, and before the serving ends.
pub(crate) fn serve_input<
    T: Moment,
    M: MarkRow<T>,
    I: SpanRow<T>,
    X: TimeRow<T>,
    S: Source,
    K: Sink,
    L: Ledger,
>(
    sessions: &mut Sessions<T, M, I, X>,
    feed: &mut Feed,
    input: &mut S,
    output: &mut K,
    limit: u64,
    steps: &mut Steps<L>,
) -> Ending
    requires start { sessions.old.state ≡ empty_state }
    requires part { IsPart feed.old [] }
    ensures ending { (taken : List ℕ) × Took (S.left input.old) (S.left input.new) taken
        × IsEnding K.stands (record { theory = sessions.old.theory; spelt = T.spelt; canon = T.canon }) result limit (S.left input.new) taken output.old output.new }
    ensures read_fault { result ≡ Ending.ReadFault → Rose (S.faults input.old) (S.faults input.new) }
    ensures write_fault { result ≡ Ending.WriteFault → Rose (K.faults output.old) (K.faults output.new) }
    ensures read_told { (result ≡ Ending.ReadFault) ⊎ (S.faults input.new ≡ S.faults input.old) }
    ensures write_told { (result ≡ Ending.WriteFault) ⊎ (K.faults output.new ≡ K.faults output.old) }
    ensures handed_on { (result ≡ Ending.WriteFault) ⊎ (K.waiting output.new ≡ 0) }
    ensures read_first { result ≡ Ending.WriteFault →
        Rose (S.reads input.old) (S.reads input.new) ⊎ NothingAppended K.stands output.old output.new }
    ensures one_end { S.ended input.old ≡ 0 → S.ended input.new ≤ 1 }
{
    let mut buffer = [0; PIECE];
    let mut left = limit;
    loop {
        if output.flush().is_err() {
            return Ending::WriteFault;
        }
        if left == 0 {
            return Ending::Limit;
        }
        let Ok(count) = read_piece(input, &mut buffer, left) else {
            return Ending::ReadFault;
        };
        if count == 0 {
            return finish(sessions, feed, output, steps);
        }
        left -= count as u64;
        match answer_piece(sessions, feed, &buffer[..count], output, steps) {
            Handled::Go => {}
            Handled::Bye => return hand_on(output, Ending::Quit),
            Handled::WriteFault => return Ending::WriteFault,
        }
    }
}
