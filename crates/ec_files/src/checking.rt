//! Checking a theory, and what is said where there is none or the words have no shape.
ghost use Rattle.std.specs.Prelude.{◌≡◌, ◌≢◌, ◌⊎◌, IsTrue, false};
ghost use Rattle.ec_outside.specs.Counts.{Rose};
ghost use Rattle.ec_outside.specs.Streams.{NothingAppended};
ghost use Rattle.ec_files.specs.CommandEnds.{HasChecked, SaysAccepted, Wrote};
ghost use Rattle.ec_files.specs.ExitStatus.{hands_on};
ghost use Rattle.ec_files.specs.Loading.{IsRefusal, IsShortReason};
ghost use Rattle.ec_files.specs.Words.{usage_line};

use crate::status::Status;
use crate::theory_file::{NoTheory, load};
use crate::theory_text::{accepted_line, theory_line};
use crate::words::USAGE;
use ec_outside::{Folder, Sink, write_all};
use ec_terms::Theory;
use std::alloc::Global;

/// Writes the usage line. If that fails, nothing more is said.
#[tactic(auto, unfolding(crate::specs::Words::usage_line))]
pub fn refuse_words<K: Sink>(output: &mut K) -> Status
    ensures status { result ≡ Status.NoShape }
    ensures usage { Wrote K.stands K.faults output.old output.new usage_line }
{
    let _ = write_all(output, USAGE);
    Status::NoShape
}

/// Says why there is no theory, where something is to be said. If that fails, nothing more is said.
#[tactic(auto, unfolding(crate::specs::ExitStatus::hands_on))]
pub fn refuse<K: Sink>(reason: NoTheory, output: &mut K) -> Status
    requires { IsShortReason reason }
    ensures refusal { IsRefusal K.stands K.faults reason result output.old output.new }
    ensures handed_on { hands_on result ≡ false }
    ensures no_fault { result ≢ Status.WriteFault }
{
    match reason {
        NoTheory::FolderFault => Status::FolderFault,
        NoTheory::NoMemory => Status::NoMemory,
        NoTheory::Said(text) => {
            let _ = write_all(output, theory_line(&text).as_bytes());
            Status::BadTheory
        }
    }
}

/// Hands on the one line of a run.
#[tactic(auto, unfolding(crate::specs::ExitStatus::hands_on))]
pub fn hand_on_line<K: Sink>(output: &mut K) -> Status
    ensures kept { NothingAppended K.stands output.old output.new }
    ensures either { (result ≡ Status.Done) ⊎ ((result ≡ Status.WriteFault) × Rose (K.faults output.old) (K.faults output.new)) }
    ensures quiet { (result ≡ Status.WriteFault) ⊎ (K.faults output.new ≡ K.faults output.old) }
    ensures handed_on { IsTrue (hands_on result) → K.waiting output.new ≡ 0 }
{
    match output.flush() {
        Ok(()) => Status::Done,
        Err(_) => Status::WriteFault,
    }
}

/// Says that a theory is accepted, and hands that on.
#[tactic(auto, unfolding(crate::specs::ExitStatus::hands_on))]
fn tell_accepted<K: Sink>(theory: &Theory, output: &mut K) -> Status
    ensures accepted { SaysAccepted K.stands K.faults output.old output.new theory.now result }
    ensures handed_on { IsTrue (hands_on result) → K.waiting output.new ≡ 0 }
{
    if write_all(output, accepted_line(theory).as_bytes()).is_err() || output.flush().is_err() {
        Status::WriteFault
    } else {
        Status::Done
    }
}

/// Checks the theory in a file, and tells how many rules and declarations it has.
///
/// The status says what came of it: `Done` if the theory is accepted, `BadTheory` if it is not, `WriteFault` if the line about an
/// accepted theory could not be written, `FolderFault` and `NoMemory` with nothing written. A fault in writing the line about a
/// theory that is not accepted changes nothing.
pub fn check_command<F: Folder, K: Sink>(
    alloc: Global,
    theory: &str,
    files: &mut F,
    output: &mut K,
) -> Status
    ensures checked { HasChecked K.stands K.faults (F.files files.old) theory.now (F.faults files.old) (F.faults files.new) output.old output.new result }
    ensures handed_on { IsTrue (hands_on result) → K.waiting output.new ≡ 0 }
{
    match load(alloc, theory, files) {
        Ok(checked) => tell_accepted(checked.theory(), output),
        Err(reason) => refuse(reason, output),
    }
}
