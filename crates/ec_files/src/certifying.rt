//! Certificates of claims: written, or verified.
ghost use Rattle.std.specs.Prelude.{◌≡◌, ◌≢◌, ◌<◌, ◌≤◌, ◌⊎◌, IsTrue, OnErr, OnOk, false};
ghost use Rattle.ec_terms.specs.Term.{ground_of, names_are_names};
ghost use Rattle.ec_terms.specs.declared.theory.TimeKind.TheVariants as kind;
ghost use Rattle.ec_outside.specs.Counts.{Rose};
ghost use Rattle.ec_outside.specs.Streams.{Appended, AppendedPart};
ghost use Rattle.ec_files.specs.Answering.{IsTold, answer_text};
ghost use Rattle.ec_files.specs.Certifying.{HasCertified, SaysCertified};
ghost use Rattle.ec_files.specs.CommandEnds.{SaysLine};
ghost use Rattle.ec_files.specs.ExitStatus.{hands_on};
ghost use Rattle.ec_files.specs.Languages.{language_in, language_of};
ghost use Rattle.ec_files.specs.ShownShape.{plain_claim};

use crate::answering::{Answer, answer_claim};
use crate::checking::{hand_on_line, refuse, refuse_words};
use crate::claim::Claim;
use crate::no_answer::NoAnswer;
use crate::status::Status;
use crate::theory_file::load;
use ec_axioms::Steps;
use ec_block_rows::{BlockMarks, BlockSpans, BlockTimes};
use ec_cert::{write_events_line, write_verdict_line};
use ec_check::Checked;
use ec_civil::Civil;
use ec_moment::{Moment, Tick};
use ec_outside::{Failed, Folder, Sink, write_all};
use ec_rows::{MarkRow, SpanRow, TimeRow};
use ec_terms::TimeKind;
use std::alloc::Global;
use std::marker::Brand;
use std::sync::ledger::{Blank, Ledger};

/// Writes the text that answers a claim.
fn write_answer<K: Sink>(answer: &Answer, output: &mut K) -> Result<(), Failed>
    ensures written { OnOk result (Appended K.stands output.old output.new (answer_text answer.now)) }
    ensures part { OnErr result (AppendedPart K.stands output.old output.new (answer_text answer.now)) }
    ensures failed { OnErr result (Rose (K.faults output.old) (K.faults output.new)) }
    ensures quiet { OnOk result (K.faults output.new ≡ K.faults output.old) }
    ensures counted { K.faults output.old ≤ K.faults output.new }
{
    match answer {
        Answer::Written(text) => write_all(output, text),
        Answer::Verified(verdict) => write_verdict_line(*verdict, output),
    }
}

/// Writes the text that answers a claim, and hands it on.
#[tactic(auto, unfolding(crate::specs::ExitStatus::hands_on))]
fn tell_answer<K: Sink>(answer: &Answer, output: &mut K) -> Status
    ensures says { SaysLine K.stands K.faults output.old output.new (λ text. text ≡ answer_text answer.now) result }
    ensures handed_on { IsTrue (hands_on result) → K.waiting output.new ≡ 0 }
{
    match write_answer(answer, output) {
        Ok(()) => hand_on_line(output),
        Err(_) => Status::WriteFault,
    }
}

/// Says why a claim has no answer, where something is to be said. If that fails, nothing more is said.
#[tactic(auto, unfolding(crate::specs::ExitStatus::hands_on))]
fn tell_reason<K: Sink>(reason: NoAnswer, output: &mut K) -> Status
    ensures told { IsTold K.stands K.faults reason result output.old output.new }
    ensures handed_on { hands_on result ≡ false }
{
    match reason {
        NoAnswer::FolderFault => Status::FolderFault,
        NoAnswer::NoMemory => Status::NoMemory,
        NoAnswer::LongFile => Status::LongLines,
        NoAnswer::BadEvents(line, name) => {
            let _ = write_events_line(line, name, output);
            Status::BadEvents
        }
    }
}

/// Decides a claim by a theory whose times are of one type, with steps that are counted on the ledger of the blank.
#[tactic(auto, unfolding(crate::specs::ExitStatus::hands_on))]
fn certify_in<
    T: Moment,
    M: MarkRow<T>,
    I: SpanRow<T>,
    X: TimeRow<T>,
    L: Ledger,
    F: Folder,
    K: Sink,
>(
    alloc: Global,
    checked: Checked,
    claim: &Claim<'_>,
    files: &mut F,
    output: &mut K,
    blank: Blank,
) -> Status
    requires name { blank.name ≡ L.name }
    requires parts { blank.parts ≡ L.parts }
    requires some { 0 < L.parts }
    requires named { IsTrue (names_are_names (ground_of claim.now.prop)) }
    ensures says { SaysCertified K.stands K.faults (F.files files.old) (record { theory = checked; spelt = T.spelt; canon = T.canon }) (plain_claim claim.now)
        (F.faults files.old) (F.faults files.new) output.old output.new result }
    ensures files_told { (result ≡ Status.FolderFault) ⊎ (F.faults files.new ≡ F.faults files.old) }
    ensures handed_on { IsTrue (hands_on result) → K.waiting output.new ≡ 0 }
{
    let Some(at) = T::read(claim.at.as_bytes()) else {
        return refuse_words(output);
    };
    let mut steps = Steps::<L>::new(blank);
    match answer_claim::<T, M, I, X, L, F>(alloc, checked, claim, at, files, &mut steps) {
        Ok(answer) => tell_answer(&answer, output),
        Err(reason) => tell_reason(reason, output),
    }
}

/// Decides a claim by a theory whose times are whole numbers.
fn certify_ticks<F: Folder, K: Sink>(
    alloc: Global,
    checked: Checked,
    claim: &Claim<'_>,
    files: &mut F,
    output: &mut K,
) -> Status
    requires named { IsTrue (names_are_names (ground_of claim.now.prop)) }
    ensures says { SaysCertified K.stands K.faults (F.files files.old) (language_in kind.Tick checked) (plain_claim claim.now)
        (F.faults files.old) (F.faults files.new) output.old output.new result }
    ensures files_told { (result ≡ Status.FolderFault) ⊎ (F.faults files.new ≡ F.faults files.old) }
    ensures handed_on { IsTrue (hands_on result) → K.waiting output.new ≡ 0 }
{
    certify_in::<Tick, BlockMarks<Tick>, BlockSpans<Tick>, BlockTimes<Tick>, Brand, F, K>(
        alloc,
        checked,
        claim,
        files,
        output,
        Blank::new(1),
    )
}

/// Decides a claim by a theory whose times are civil times.
fn certify_civil<F: Folder, K: Sink>(
    alloc: Global,
    checked: Checked,
    claim: &Claim<'_>,
    files: &mut F,
    output: &mut K,
) -> Status
    requires named { IsTrue (names_are_names (ground_of claim.now.prop)) }
    ensures says { SaysCertified K.stands K.faults (F.files files.old) (language_in kind.Civil checked) (plain_claim claim.now)
        (F.faults files.old) (F.faults files.new) output.old output.new result }
    ensures files_told { (result ≡ Status.FolderFault) ⊎ (F.faults files.new ≡ F.faults files.old) }
    ensures handed_on { IsTrue (hands_on result) → K.waiting output.new ≡ 0 }
{
    certify_in::<Civil, BlockMarks<Civil>, BlockSpans<Civil>, BlockTimes<Civil>, Brand, F, K>(
        alloc,
        checked,
        claim,
        files,
        output,
        Blank::new(1),
    )
}

/// Decides a claim by a theory, with times of the theory's kind.
fn certify<F: Folder, K: Sink>(
    alloc: Global,
    checked: Checked,
    claim: &Claim<'_>,
    files: &mut F,
    output: &mut K,
) -> Status
    requires named { IsTrue (names_are_names (ground_of claim.now.prop)) }
    ensures says { SaysCertified K.stands K.faults (F.files files.old) (language_of checked) (plain_claim claim.now)
        (F.faults files.old) (F.faults files.new) output.old output.new result }
    ensures files_told { (result ≡ Status.FolderFault) ⊎ (F.faults files.new ≡ F.faults files.old) }
    ensures handed_on { IsTrue (hands_on result) → K.waiting output.new ≡ 0 }
{
    match checked.time() {
        TimeKind::Tick => certify_ticks(alloc, checked, claim, files, output),
        TimeKind::Civil => certify_civil(alloc, checked, claim, files, output),
    }
}

/// Decides a claim by the theory and the event file that it names: writes a certificate, or says what the one in a file comes to.
///
/// The status is `Done` if the answer was written, be it `none`, `no` or `bad`, and `WriteFault` if the output failed within it. It is
/// `BadTheory` as for `check_command`; `NoShape` with the usage line if the time is none of the theory; `BadEvents` with a line about it if
/// the event file is refused; `LongLines` if that file or the certificate has more than `MOST_REPLAYED` bytes, `FolderFault` if a file
/// could not be read, and `NoMemory`, the last three with nothing written. The event file is read only if the theory and the time are
/// good, and the certificate only if the events are. A fault in writing what is said of a theory, a time or an event file changes nothing.
pub fn certify_command<F: Folder, K: Sink>(
    alloc: Global,
    claim: &Claim<'_>,
    files: &mut F,
    output: &mut K,
) -> Status
    requires named { IsTrue (names_are_names (ground_of claim.now.prop)) }
    ensures certified { HasCertified K.stands K.faults (F.files files.old) (plain_claim claim.now) (F.faults files.old) (F.faults files.new) output.old output.new result }
    ensures handed_on { IsTrue (hands_on result) → K.waiting output.new ≡ 0 }
{
    match load(alloc, claim.theory, files) {
        Ok(checked) => certify(alloc, checked, claim, files, output),
        Err(reason) => refuse(reason, output),
    }
}
