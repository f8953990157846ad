//! Serving an input with a theory.
ghost use Rattle.std.specs.Prelude.{◌≡◌, ◌<◌, ◌≤◌, ◌⊎◌, IsTrue};
ghost use Rattle.ec_outside.specs.Counts.{Rose};
ghost use Rattle.ec_outside.specs.Streams.{NothingAppended};
ghost use Rattle.ec_files.specs.Languages.{language_in, language_of};
ghost use Rattle.ec_terms.specs.declared.theory.TimeKind.TheVariants as kind;
ghost use Rattle.ec_server.specs.Ending.{SaysServed};
ghost use Rattle.ec_files.specs.ExitStatus.{hands_on};

use crate::input::serve_input;
use ec_axioms::Steps;
use ec_block_rows::{BlockMarks, BlockSpans, BlockTimes};
use ec_check::Checked;
use ec_civil::Civil;
use ec_files::Status;
use ec_lines::Feed;
use ec_moment::{Moment, Tick};
use ec_outside::{Sink, Source};
use ec_rows::{MarkRow, SpanRow, TimeRow};
use ec_sessions::Sessions;
use ec_terms::TimeKind;
use std::alloc::Global;
use std::marker::Brand;
use std::sync::ledger::{Blank, Ledger};

/// The most bytes of input that are taken.
pub const MOST_INPUT: u64 = 1_099_511_627_776;

/// Serves the lines of an input, with times and rows of any kind, and steps that are counted on the ledger of the blank.
#[tactic(auto, unfolding(ec_files::specs::ExitStatus::hands_on))]
fn serve_counted<
    S: Source,
    K: Sink,
    L: Ledger,
    T: Moment,
    M: MarkRow<T>,
    I: SpanRow<T>,
    X: TimeRow<T>,
>(
    alloc: Global,
    checked: Checked,
    input: &mut S,
    output: &mut K,
    limit: u64,
    blank: Blank,
) -> Status
    requires name { blank.name ≡ L.name }
    requires parts { blank.parts ≡ L.parts }
    requires some { 0 < L.parts }
    ensures served { SaysServed S.left S.faults K.stands K.faults (record { theory = checked; spelt = T.spelt; canon = T.canon }) limit
        input.old input.new output.old output.new result }
    ensures handed_on { IsTrue (hands_on result) → K.waiting output.new ≡ 0 }
    ensures read_first { result ≡ Status.WriteFault →
        Rose (S.reads input.old) (S.reads input.new) ⊎ NothingAppended K.stands output.old output.new }
    ensures one_end { S.ended input.old ≡ 0 → S.ended input.new ≤ 1 }
{
    let mut steps = Steps::<L>::new(blank);
    let Ok(mut feed) = Feed::new(alloc) else {
        return Status::NoMemory;
    };
    let made = Sessions::<T, M, I, X>::new(alloc, checked);
    let Ok(mut sessions) = made else {
        return Status::NoMemory;
    };
    serve_input(&mut sessions, &mut feed, input, output, limit, &mut steps).status()
}

/// Serves the lines of an input with a theory whose times are whole numbers.
fn serve_ticks<S: Source, K: Sink>(
    alloc: Global,
    checked: Checked,
    input: &mut S,
    output: &mut K,
    limit: u64,
) -> Status
    ensures served { SaysServed S.left S.faults K.stands K.faults (language_in kind.Tick checked) limit input.old input.new output.old output.new result }
    ensures handed_on { IsTrue (hands_on result) → K.waiting output.new ≡ 0 }
    ensures read_first { result ≡ Status.WriteFault →
        Rose (S.reads input.old) (S.reads input.new) ⊎ NothingAppended K.stands output.old output.new }
    ensures one_end { S.ended input.old ≡ 0 → S.ended input.new ≤ 1 }
{
    serve_counted::<S, K, Brand, Tick, BlockMarks<Tick>, BlockSpans<Tick>, BlockTimes<Tick>>(
        alloc,
        checked,
        input,
        output,
        limit,
        Blank::new(1),
    )
}

/// Serves the lines of an input with a theory whose times are civil times.
fn serve_civil<S: Source, K: Sink>(
    alloc: Global,
    checked: Checked,
    input: &mut S,
    output: &mut K,
    limit: u64,
) -> Status
    ensures served { SaysServed S.left S.faults K.stands K.faults (language_in kind.Civil checked) limit input.old input.new output.old output.new result }
    ensures handed_on { IsTrue (hands_on result) → K.waiting output.new ≡ 0 }
    ensures read_first { result ≡ Status.WriteFault →
        Rose (S.reads input.old) (S.reads input.new) ⊎ NothingAppended K.stands output.old output.new }
    ensures one_end { S.ended input.old ≡ 0 → S.ended input.new ≤ 1 }
{
    serve_counted::<S, K, Brand, Civil, BlockMarks<Civil>, BlockSpans<Civil>, BlockTimes<Civil>>(
        alloc,
        checked,
        input,
        output,
        limit,
        Blank::new(1),
    )
}

/// Serves the lines of an input with a theory, from no event on, with times of the theory's kind, and takes at most `limit` bytes.
///
/// The replies to all whole lines that were read are written and handed on before more is read. The status says how the serving
/// ended, and so what was taken and written: `Done` at the end of the input or at `quit`, `LimitReached` after `limit` bytes with
/// neither, `ReadFault` and `WriteFault` where a call failed, `NoMemory` before anything was taken.
pub fn serve<S: Source, K: Sink>(
    alloc: Global,
    checked: Checked,
    input: &mut S,
    output: &mut K,
    limit: u64,
) -> Status
    ensures served { SaysServed S.left S.faults K.stands K.faults (language_of checked) limit input.old input.new output.old output.new result }
    ensures handed_on { IsTrue (hands_on result) → K.waiting output.new ≡ 0 }
    ensures read_first { result ≡ Status.WriteFault →
        Rose (S.reads input.old) (S.reads input.new) ⊎ NothingAppended K.stands output.old output.new }
    ensures one_end { S.ended input.old ≡ 0 → S.ended input.new ≤ 1 }
{
    match checked.time() {
        TimeKind::Tick => serve_ticks(alloc, checked, input, output, limit),
        TimeKind::Civil => serve_civil(alloc, checked, input, output, limit),
    }
}
