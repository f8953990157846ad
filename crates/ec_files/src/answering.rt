//! What answers a claim: a certificate, or what one comes to.
ghost use Rattle.std.specs.Prelude.{◌≡◌, ◌≤◌, ◌⊎◌, ℤ, Some, IfOk, IfErr, IsErrOf, IsSome, IsTrue, List, ℕ};
ghost use Rattle.ec_terms.specs.Term.{ground_of, names_are_names};
ghost use Rattle.ec_replies.specs.Replies.{Language};
ghost use Rattle.ec_store.specs.Store.{history_of};
ghost use Rattle.ec_files.specs.Answering.{IsReason, IsUnread, answer_text};
ghost use Rattle.ec_files.specs.Claims.{HasEvents, IsAnswer, IsDecided, claim_outcome, decided, outcome_at, verified_text, written_text};
ghost use Rattle.ec_files.specs.LineFiles.{HasLines};
ghost use Rattle.ec_files.specs.ShownShape.{plain_claim};

use crate::claim::Claim;
use crate::line_file::read_lines;
use crate::no_answer::NoAnswer;
use ec_axioms::Steps;
use ec_cert::{EventFault, EventFile, Verdict, prove, read_events, verify};
use ec_check::Checked;
use ec_moment::Moment;
use ec_outside::Folder;
use ec_rows::{MarkRow, SpanRow, TimeRow};
use std::alloc::Global;
use std::sync::ledger::Ledger;

/// The answer of a claim.
#[derive(Drop)]
pub(crate) enum Answer {
    /// A certificate, or that the property does not hold.
    Written(Vec<u8>),
    /// What the certificate in a file comes to.
    Verified(Verdict),
}

/// Reads the event file of a claim.
fn read_claimed<T: Moment, M: MarkRow<T>, I: SpanRow<T>, X: TimeRow<T>, F: Folder>(
    alloc: Global,
    checked: Checked,
    claim: &Claim<'_>,
    files: &mut F,
) -> Result<EventFile<T, X>, NoAnswer>
    ensures events { let language : Language = record { theory = checked; spelt = T.spelt; canon = T.canon } in
        IfOk result (λ file. HasEvents (F.files files.old) language (plain_claim claim.now) (history_of T.rank file.store.events)) }
    ensures theory { IfOk result (λ file. file.rules ≡ checked) }
    ensures reason { let language : Language = record { theory = checked; spelt = T.spelt; canon = T.canon } in
        IfErr result (λ reason. (t : ℤ) → IsReason (F.files files.old) (outcome_at language (plain_claim claim.now) t) (F.faults files.old) (F.faults files.new) reason) }
    ensures unchanged { F.files files.new ≡ F.files files.old }
    ensures quiet { IsErrOf result NoAnswer.FolderFault ⊎ (F.faults files.new ≡ F.faults files.old) }
    ensures counted { F.faults files.old ≤ F.faults files.new }
{
    let lines = match read_lines(alloc, claim.lines, files) {
        Ok(lines) => lines,
        Err(reason) => return Err(reason),
    };
    match read_events::<T, M, I, X>(alloc, checked, &lines, claim.keeps_all_limits()) {
        Ok(file) => Ok(file),
        Err(EventFault::At(line, name)) => Err(NoAnswer::BadEvents(line, name)),
        Err(EventFault::Memory) => Err(NoAnswer::NoMemory),
    }
}

/// Writes a certificate by the events of a file. `Err`: memory ran out.
fn write_certificate<T: Moment, X: TimeRow<T>, L: Ledger>(
    alloc: Global,
    file: &EventFile<T, X>,
    claim: &Claim<'_>,
    at: T,
    steps: &mut Steps<L>,
) -> Result<Answer, NoAnswer>
    requires named { IsTrue (names_are_names (ground_of claim.now.prop)) }
    ensures text { let language : Language = record { theory = file.now.rules; spelt = T.spelt; canon = T.canon } in
        IfOk result (λ answer. answer_text answer ≡ written_text language (ground_of claim.now.prop) (T.rank at) (history_of T.rank file.now.store.events)) }
    ensures memory { IfErr result (λ reason. reason ≡ NoAnswer.NoMemory) }
{
    match prove(alloc, file, &claim.prop, at, steps) {
        Ok(text) => Ok(Answer::Written(text)),
        Err(_) => Err(NoAnswer::NoMemory),
    }
}

/// Verifies the certificate in the file of that name by the events of another.
fn verify_certificate<T: Moment, X: TimeRow<T>, L: Ledger, F: Folder>(
    alloc: Global,
    file: &EventFile<T, X>,
    claim: &Claim<'_>,
    name: &str,
    at: T,
    files: &mut F,
    steps: &mut Steps<L>,
) -> Result<Answer, NoAnswer>
    requires named { IsTrue (names_are_names (ground_of claim.now.prop)) }
    ensures verdict { let language : Language = record { theory = file.now.rules; spelt = T.spelt; canon = T.canon } in
        IfOk result (λ answer. (certificate : List ℕ) × (IsSome (F.files files.old) → HasLines (F.files files.old) name.now certificate)
        × (answer_text answer ≡ verified_text language (ground_of claim.now.prop) (T.rank at) (history_of T.rank file.now.store.events) certificate)) }
    ensures reason { IfErr result (IsUnread (F.files files.old) name.now (F.faults files.old) (F.faults files.new)) }
    ensures unchanged { F.files files.new ≡ F.files files.old }
    ensures quiet { IsErrOf result NoAnswer.FolderFault ⊎ (F.faults files.new ≡ F.faults files.old) }
    ensures counted { F.faults files.old ≤ F.faults files.new }
{
    let certificate = match read_lines(alloc, name, files) {
        Ok(certificate) => certificate,
        Err(reason) => return Err(reason),
    };
    match verify(alloc, file, &claim.prop, at, &certificate, steps) {
        Ok(verdict) => Ok(Answer::Verified(verdict)),
        Err(_) => Err(NoAnswer::NoMemory),
    }
}

/// Answers a claim by the events of a file.
fn decide<T: Moment, X: TimeRow<T>, L: Ledger, F: Folder>(
    alloc: Global,
    file: &EventFile<T, X>,
    claim: &Claim<'_>,
    at: T,
    files: &mut F,
    steps: &mut Steps<L>,
) -> Result<Answer, NoAnswer>
    requires named { IsTrue (names_are_names (ground_of claim.now.prop)) }
    ensures answer { let language : Language = record { theory = file.now.rules; spelt = T.spelt; canon = T.canon } in
        IfOk result (λ answer. IsDecided (F.files files.old) language (ground_of claim.now.prop) (T.rank at) (history_of T.rank file.now.store.events)
        (plain_claim claim.now).certificate (answer_text answer)) }
    ensures reason { let language : Language = record { theory = file.now.rules; spelt = T.spelt; canon = T.canon } in
        IfErr result (IsReason (F.files files.old)
        (λ all. decided language (ground_of claim.now.prop) (T.rank at) (history_of T.rank file.now.store.events) all (plain_claim claim.now).certificate)
        (F.faults files.old) (F.faults files.new)) }
    ensures unchanged { F.files files.new ≡ F.files files.old }
    ensures quiet { IsErrOf result NoAnswer.FolderFault ⊎ (F.faults files.new ≡ F.faults files.old) }
    ensures counted { F.faults files.old ≤ F.faults files.new }
{
    match claim.certificate {
        None => write_certificate(alloc, file, claim, at, steps),
        Some(name) => verify_certificate(alloc, file, claim, name, at, files, steps),
    }
}

/// Answers a claim whose time is this: reads the event file that it names, and the certificate, if it names one.
pub(crate) fn answer_claim<
    T: Moment,
    M: MarkRow<T>,
    I: SpanRow<T>,
    X: TimeRow<T>,
    L: Ledger,
    F: Folder,
>(
    alloc: Global,
    checked: Checked,
    claim: &Claim<'_>,
    at: T,
    files: &mut F,
    steps: &mut Steps<L>,
) -> Result<Answer, NoAnswer>
    requires named { IsTrue (names_are_names (ground_of claim.now.prop)) }
    requires spelt { T.spelt claim.now.at.now ≡ Some (T.rank at) }
    ensures answer { let language : Language = record { theory = checked; spelt = T.spelt; canon = T.canon } in
        IfOk result (λ answer. IsAnswer (F.files files.old) language (plain_claim claim.now) (answer_text answer)) }
    ensures reason { let language : Language = record { theory = checked; spelt = T.spelt; canon = T.canon } in
        IfErr result (IsReason (F.files files.old) (claim_outcome language (plain_claim claim.now)) (F.faults files.old) (F.faults files.new)) }
    ensures quiet { IsErrOf result NoAnswer.FolderFault ⊎ (F.faults files.new ≡ F.faults files.old) }
{
    let file = match read_claimed::<T, M, I, X, F>(alloc, checked, claim, files) {
        Ok(file) => file,
        Err(reason) => return Err(reason),
    };
    decide(alloc, &file, claim, at, files, steps)
}
