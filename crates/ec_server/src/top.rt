//! The top call: what the words ask for, done whole.
ghost use Rattle.std.specs.Prelude.{◌≡◌, ◌≤◌, ◌⊎◌, ℕ, ℤ, true, false, List, Some, None, IsSome, IsTrue, length, drop};
ghost use Rattle.ec_terms.specs.declared.theory.Theory.{Theory};
ghost use Rattle.ec_axioms.specs.Calculus.{PlainEvent};
ghost use Rattle.ec_cert.specs.declared.event_fault.EventName.{EventName};
ghost use Rattle.ec_cert.specs.EventFile.{events_line};
ghost use Rattle.ec_commands.specs.Lines.{lines_of, whole_lines};
ghost use Rattle.ec_outside.specs.Counts.{Rose};
ghost use Rattle.ec_outside.specs.Streams.{Appended, IsAtEnd, NothingAppended, Took};
ghost use Rattle.ec_replies.specs.Runs.{has_quit};
ghost use Rattle.ec_server.specs.Answered.{AnswersLines};
ghost use Rattle.ec_files.specs.Languages.{language_of};
ghost use Rattle.ec_server.specs.ByShape.{HasLongLines, HasLongTheory, IsReady, IsRefused, LacksFile, Serves, TellsServed, WrotePart, reads_lines, takes_input};
ghost use Rattle.ec_files.specs.CommandEnds.{Wrote};
ghost use Rattle.ec_server.specs.Ending.{GoesOn};
ghost use Rattle.ec_server.specs.Ends.{Ends};
ghost use Rattle.ec_files.specs.ExitStatus.{IsExitCode, hands_on};
ghost use Rattle.ec_server.specs.InputLimits.{most_input, IsLong};
ghost use Rattle.ec_files.specs.Claims.{Claim, HasOutcome, IsPut, bad_events, verified_text, written_text};
ghost use Rattle.ec_files.specs.LineFiles.{HasLines};
ghost use Rattle.ec_files.specs.ShownShape.{asked};
ghost use Rattle.ec_server.specs.Soaking.{IsSoakLine};
ghost use Rattle.ec_files.specs.TheoryFiles.{HasTheory, accepted_line, theory_line};
ghost use Rattle.ec_files.specs.Words.{Shape as PlainShape, certify, check_theory, serve_theory, soak_lines, usage_line};

use crate::commands::{replay, serve_command};
use crate::soaked::soak_command;
use ec_files::{Shape, Status, certify_command, check_command, refuse_words, shape_of};
use ec_outside::{Folder, Sink, Source};
use std::alloc::Global;
use std::string::String;

/// Does what the words ask for.
#[tactic(auto, unfolding(ec_files::specs::ExitStatus::hands_on))]
fn obey<F: Folder, S: Source, K: Sink>(
    alloc: Global,
    words: &[String],
    files: &mut F,
    input: &mut S,
    output: &mut K,
) -> Status
    ensures ends { Ends S.left S.faults K.stands K.faults (F.files files.old) (F.faults files.old) (F.faults files.new)
        input.old input.new output.old output.new (asked words.now) result }
    ensures folder { (lines seed : ℕ) → asked words.now ≡ Some (soak_lines lines seed) → files.new ≡ files.old }
    ensures no_words { asked words.now ≡ None → files.new ≡ files.old }
    ensures handed_on { IsTrue (hands_on result) → K.waiting output.new ≡ 0 }
    ensures read_first { (name : List ℕ) → asked words.now ≡ Some (serve_theory name) → result ≡ Status.WriteFault →
        Rose (S.reads input.old) (S.reads input.new) ⊎ NothingAppended K.stands output.old output.new }
    ensures one_end { S.ended input.old ≡ 0 → S.ended input.new ≤ 1 }
{
    match shape_of(words) {
        Some(Shape::Check(theory)) => check_command(alloc, theory, files, output),
        Some(Shape::Serve(theory)) => serve_command(alloc, theory, files, input, output),
        Some(Shape::Replay { theory, lines }) => replay(alloc, theory, lines, files, output),
        Some(Shape::Soak { lines, seed }) => soak_command(alloc, lines, seed, output),
        Some(Shape::Certify(claim)) => certify_command(alloc, &claim, files, output),
        None => refuse_words(output),
    }
}

/// Does what the words behind the program's name ask for, and answers the exit status.
///
/// Theories and files of lines are read from `files`, other lines from `input`; what is to be said is written to `output`. The
/// statuses are: 0 the lines were answered to their end or to `quit`, or the theory is accepted, or a claim was answered; 2 the words
/// are none of the forms that the usage line shows, or name a time that is none of the theory; 3 the theory is not accepted; 4 the
/// input failed; 5 the output failed; 6 memory ran out before anything was written; 7 a file could not be read; 8 as many bytes of input
/// were taken as may be; 9 a file of lines or a certificate is too long; 10 the event file is refused. What is said of bytes taken and
/// left says nothing if the source does not tell what it has left, and what is said of files says nothing if the folder does not tell
/// them.
pub fn run<F: Folder, S: Source, K: Sink>(
    alloc: Global,
    words: &[String],
    files: &mut F,
    input: &mut S,
    output: &mut K,
) -> u8
    // For every accepted theory and every input, in whatever pieces it comes, and every file of lines: what was appended to the
    // output is, line by line, the replies that the definitions derive from the events asserted and not retracted by the lines
    // answered `ok` so far.
    ensures replies { result ≡ 0 → (shape : PlainShape) → asked words.now ≡ Some shape → TellsServed (F.files files.old) (S.left input.old) shape →
        (theory : Theory) × (text : List ℕ) × Serves (F.files files.old) (S.left input.old) shape theory text
        × AnswersLines K.stands (language_of theory) (lines_of text) output.old output.new }

    // With 0, and where the input failed or its limit was reached, the output holds nothing back: all that was written is handed on.
    ensures handed_on { (result ≡ 0) ⊎ ((result ≡ 4) ⊎ (result ≡ 8)) → K.waiting output.new ≡ 0 }

    // It comes to 0, or memory runs out, if nothing fails, the theory is accepted, and the input or the file of lines is not too long.
    // This is so for each shape.
    ensures completes { (shape : PlainShape) → asked words.now ≡ Some shape → IsReady (F.files files.old) (S.left input.old) shape →
        ¬ Rose (F.faults files.old) (F.faults files.new) → ¬ Rose (S.faults input.old) (S.faults input.new) → ¬ Rose (K.faults output.old) (K.faults output.new) →
        (result ≡ 0) ⊎ (result ≡ 6) }

    // With 0 `serve` left nothing of the input, or `quit` is among the whole lines of what was taken.
    ensures ended { result ≡ 0 → (name : List ℕ) → asked words.now ≡ Some (serve_theory name) →
        (theory : Theory) × (IsSome (F.files files.old) → HasTheory (F.files files.old) name theory)
        × ((taken : List ℕ) × Took (S.left input.old) (S.left input.new) taken × (IsAtEnd (S.left input.new) ⊎ (has_quit (language_of theory) (whole_lines taken) ≡ true))) }

    // The one line of `check`, and that of `soak`.
    ensures accepted { result ≡ 0 → (name : List ℕ) → asked words.now ≡ Some (check_theory name) →
        (theory : Theory) × (IsSome (F.files files.old) → HasTheory (F.files files.old) name theory)
        × Appended K.stands output.old output.new (accepted_line theory) }
    ensures soaks { result ≡ 0 → (lines seed : ℕ) → asked words.now ≡ Some (soak_lines lines seed) →
        (text : List ℕ) × IsSoakLine lines seed text × Appended K.stands output.old output.new text }

    // `prove` writes the label of the property where it holds, or `none`; and `verify` what the certificate comes to beside the label: `yes` only
    // where it is the label and the property holds.
    ensures proves { result ≡ 0 → (claim : Claim) → asked words.now ≡ Some (certify claim) → claim.certificate ≡ None →
        (theory : Theory) × (t : ℤ) × (events : List PlainEvent) × IsPut (F.files files.old) claim theory t events
        × Appended K.stands output.old output.new (written_text (language_of theory) claim.prop t events) }
    ensures verifies { result ≡ 0 → (claim : Claim) (name : List ℕ) → asked words.now ≡ Some (certify claim) → claim.certificate ≡ Some name →
        (theory : Theory) × (t : ℤ) × (events : List PlainEvent) × (certificate : List ℕ) × IsPut (F.files files.old) claim theory t events
        × (IsSome (F.files files.old) → HasLines (F.files files.old) name certificate)
        × Appended K.stands output.old output.new (verified_text (language_of theory) claim.prop t events certificate) }

    // Words that are none of the forms, or name a time that is none of the theory.
    ensures no_shape { asked words.now ≡ None → result ≡ 2 }
    ensures no_time { (claim : Claim) (theory : Theory) → asked words.now ≡ Some (certify claim) → HasTheory (F.files files.old) claim.theory theory →
        (language_of theory).spelt claim.at ≡ None → ¬ Rose (F.faults files.old) (F.faults files.new) → (result ≡ 2) ⊎ (result ≡ 6) }
    ensures why_usage { result ≡ 2 → (asked words.now ≡ None) ⊎ ((claim : Claim) × (theory : Theory) × (asked words.now ≡ Some (certify claim))
        × (IsSome (F.files files.old) → HasTheory (F.files files.old) claim.theory theory) × ((language_of theory).spelt claim.at ≡ None)) }
    ensures usage { result ≡ 2 → Wrote K.stands K.faults output.old output.new usage_line }
    ensures no_file { asked words.now ≡ None → files.new ≡ files.old }

    // A theory that is not accepted. A file is found too long only if no call on the folder failed.
    ensures refused { result ≡ 3 → (shape : PlainShape) → asked words.now ≡ Some shape →
        (text : List ℕ) × (IsSome (F.files files.old) → IsRefused shape (F.files files.old) text)
        × Wrote K.stands K.faults output.old output.new (theory_line text) }
    ensures refuses { (shape : PlainShape) (text : List ℕ) → asked words.now ≡ Some shape → IsRefused shape (F.files files.old) text →
        ¬ Rose (F.faults files.old) (F.faults files.new) → (result ≡ 3) ⊎ (result ≡ 6) }
    ensures long_theory { result ≡ 3 → (shape : PlainShape) → asked words.now ≡ Some shape → HasLongTheory shape (F.files files.old) →
        ¬ Rose (F.faults files.old) (F.faults files.new) }

    // The input failed: the whole lines of what was taken are answered, and `quit` is not among them.
    ensures read_fault { result ≡ 4 → Rose (S.faults input.old) (S.faults input.new) }
    ensures whole { result ≡ 4 → (name : List ℕ) → asked words.now ≡ Some (serve_theory name) →
        (theory : Theory) × (IsSome (F.files files.old) → HasTheory (F.files files.old) name theory)
        × ((taken : List ℕ) × Took (S.left input.old) (S.left input.new) taken × GoesOn K.stands (language_of theory) taken output.old output.new) }

    // The output failed: a first part of what was to be written is written. Before the first read of `serve` that is nothing.
    ensures write_fault { result ≡ 5 → Rose (K.faults output.old) (K.faults output.new) }
    ensures part { result ≡ 5 → (shape : PlainShape) → asked words.now ≡ Some shape →
        WrotePart K.stands (F.files files.old) (S.left input.old) (S.left input.new) shape output.old output.new }
    ensures read_first { result ≡ 5 → (name : List ℕ) → asked words.now ≡ Some (serve_theory name) →
        Rose (S.reads input.old) (S.reads input.new) ⊎ NothingAppended K.stands output.old output.new }

    // A file could not be read, or a file of lines or a certificate is too long.
    ensures folder_fault { result ≡ 7 → (shape : PlainShape) × (asked words.now ≡ Some shape)
        × (Rose (F.faults files.old) (F.faults files.new) ⊎ LacksFile shape (F.files files.old)) }
    ensures long_lines { result ≡ 9 → (shape : PlainShape) × (asked words.now ≡ Some shape) × IsTrue (reads_lines shape)
        × (IsSome (F.files files.old) → HasLongLines shape (F.files files.old)) }
    ensures finds_long { (shape : PlainShape) → asked words.now ≡ Some shape → HasLongLines shape (F.files files.old) →
        ¬ Rose (F.faults files.old) (F.faults files.new) → (result ≡ 9) ⊎ (result ≡ 6) }

    // A line of the event file is refused: the line that tells it is written.
    ensures refused_events { result ≡ 10 → (claim : Claim) × (theory : Theory) × (line : ℕ) × (name : EventName) × (asked words.now ≡ Some (certify claim))
        × (IsSome (F.files files.old) → HasTheory (F.files files.old) claim.theory theory × HasOutcome (F.files files.old) (language_of theory) claim (bad_events line name))
        × Wrote K.stands K.faults output.old output.new (events_line line name) }
    ensures refuses_events { (claim : Claim) (theory : Theory) (line : ℕ) (name : EventName) → asked words.now ≡ Some (certify claim) →
        HasTheory (F.files files.old) claim.theory theory → HasOutcome (F.files files.old) (language_of theory) claim (bad_events line name) →
        ¬ Rose (F.faults files.old) (F.faults files.new) → (result ≡ 10) ⊎ (result ≡ 6) }

    // The limit of the input: exactly the first bytes were taken, as many as may be. Their whole lines are answered, and `quit` is not
    // among them.
    ensures limit { result ≡ 8 → (name : List ℕ) → asked words.now ≡ Some (serve_theory name) →
        (theory : Theory) × (IsSome (F.files files.old) → HasTheory (F.files files.old) name theory)
        × ((taken : List ℕ) × Took (S.left input.old) (S.left input.new) taken × (length taken ≡ most_input) × GoesOn K.stands (language_of theory) taken output.old output.new) }
    ensures stops { (name text : List ℕ) (theory : Theory) → asked words.now ≡ Some (serve_theory name) → HasTheory (F.files files.old) name theory →
        S.left input.old ≡ Some text → IsLong (language_of theory) most_input text → ¬ Rose (F.faults files.old) (F.faults files.new) →
        ¬ Rose (S.faults input.old) (S.faults input.new) → ¬ Rose (K.faults output.old) (K.faults output.new) →
        (result ≡ 8) ⊎ (result ≡ 6) }
    ensures rest { result ≡ 8 → (text : List ℕ) → S.left input.old ≡ Some text → S.left input.new ≡ Some (drop most_input text) }

    // Each failure is told: a call on the input that failed gives 4, one on the files 7, and one on the output 5, or it was within the
    // one line of 2, 3 or 10. So with 0, 6, 8 and 9 no failure was counted.
    ensures input_told { (result ≡ 4) ⊎ (S.faults input.new ≡ S.faults input.old) }
    ensures files_told { (result ≡ 7) ⊎ (F.faults files.new ≡ F.faults files.old) }
    ensures output_told { ((result ≡ 5) ⊎ ((result ≡ 2) ⊎ ((result ≡ 3) ⊎ (result ≡ 10)))) ⊎ (K.faults output.new ≡ K.faults output.old) }

    // What is taken and left, whatever the status. No read comes after one that met the end of the input.
    ensures within { (taken : List ℕ) × Took (S.left input.old) (S.left input.new) taken × (length taken ≤ most_input) }
    ensures one_end { S.ended input.old ≡ 0 → S.ended input.new ≤ 1 }
    ensures unasked { (shape : PlainShape) → asked words.now ≡ Some shape → takes_input shape ≡ false → input.new ≡ input.old }
    ensures folder { (lines seed : ℕ) → asked words.now ≡ Some (soak_lines lines seed) → files.new ≡ files.old }
    ensures untouched { (result ≡ 6) ⊎ ((result ≡ 7) ⊎ (result ≡ 9)) → (output.new ≡ output.old) × (input.new ≡ input.old) }
    ensures unread { (result ≡ 2) ⊎ ((result ≡ 3) ⊎ (result ≡ 10)) → input.new ≡ input.old }
    ensures serves_alone { (result ≡ 4) ⊎ (result ≡ 8) → (name : List ℕ) × (asked words.now ≡ Some (serve_theory name)) }
    ensures status { IsExitCode result }
{
    obey(alloc, words, files, input, output).code()
}
