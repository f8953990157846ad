//! Serving generated lines.
ghost use Rattle.std.specs.Prelude.{◌≡◌, ◌<◌, ◌≤◌, IfOk, IsTrue, OnErr, length};
ghost use Rattle.ec_server.specs.CommandEnds.{SaysSoaked};
ghost use Rattle.ec_files.specs.ExitStatus.{hands_on};
ghost use Rattle.ec_server.specs.Soaking.{IsSoaked, soak_text};

use crate::served::serve;
use ec_files::{Status, hand_on_line};
use ec_outside::Sink;
use ec_soak::{Counts, SoakSource, TallySink, write_summary};
use ec_theory::accept;
use std::alloc::Global;

/// The theory that generated lines are served with: lamps, and people who are at one place each.
#[tactic(auto, unfolding(crate::specs::Soaking::soak_text))]
fn soak_text() -> &'static [u8]
    ensures text { result.now ≡ soak_text }
    ensures short { length result.now ≤ 400 }
{
    b"initiates push(P,L) lit(L) if powered(L), not lit(L).
terminates push(P,L) lit(L) if lit(L).
initiates plug(L) powered(L).
terminates unplug(L) powered(L).
terminates unplug(L) lit(L).
initiates move(P,Y) at(P,Y).
terminates leave(P,Y) at(P,Y).
exclusive at(X,Y) at(X,Z).
strong at/2.
"
}

/// Memory ran out while generated lines were served, be it for one line.
#[derive(Drop)]
struct Unsoaked;

/// Serves so many lines drawn from the seed, and counts the replies.
fn soak(alloc: Global, lines: u32, seed: u64) -> Result<Counts, Unsoaked>
    ensures { IfOk result (λ counts. IsSoaked lines seed counts) }
{
    let Ok(checked) = accept(alloc, soak_text()) else {
        return Err(Unsoaked); // there is no other fault: the text is a theory
    };
    let mut input = SoakSource::new(lines, seed);
    let mut output = TallySink::new();
    match serve(alloc, checked, &mut input, &mut output, u64::MAX) {
        Status::Done => without_refusals(output.counts()),
        _ => Err(Unsoaked),
    }
}

/// The counts, if no line says that memory ran out.
fn without_refusals(counts: Counts) -> Result<Counts, Unsoaked>
    ensures same { IfOk result (λ all. all ≡ counts) }
    ensures none { IfOk result (λ all. all.memory ≡ 0) }
    ensures some { OnErr result (0 < counts.memory) }
{
    if counts.memory == 0 {
        Ok(counts)
    } else {
        Err(Unsoaked)
    }
}

/// Writes the line that sums up a run, and hands it on.
#[tactic(auto, unfolding(ec_files::specs::ExitStatus::hands_on))]
fn tell_summary<K: Sink>(lines: u32, seed: u64, counts: &Counts, output: &mut K) -> Status
    requires { IsSoaked lines seed counts.now }
    ensures says { SaysSoaked K.stands K.faults output.old output.new lines seed result }
    ensures handed_on { IsTrue (hands_on result) → K.waiting output.new ≡ 0 }
{
    match write_summary(lines, counts, output) {
        Ok(()) => hand_on_line(output),
        Err(_) => Status::WriteFault,
    }
}

/// Serves so many lines drawn from the seed, with replies that are counted alone, and writes the line that sums them up.
///
/// The status is `Done` if the line was written, `WriteFault` if the output failed, and `NoMemory` if memory ran out, be it for one
/// line; then nothing was written.
#[tactic(auto, unfolding(ec_files::specs::ExitStatus::hands_on))]
pub fn soak_command<K: Sink>(alloc: Global, lines: u32, seed: u64, output: &mut K) -> Status
    ensures says { SaysSoaked K.stands K.faults output.old output.new lines seed result }
    ensures handed_on { IsTrue (hands_on result) → K.waiting output.new ≡ 0 }
{
    match soak(alloc, lines, seed) {
        Ok(counts) => tell_summary(lines, seed, &counts, output),
        Err(Unsoaked) => Status::NoMemory,
    }
}
