//! A reply of fixed form, and what follows it.
ghost use Rattle.std.specs.Prelude.{◌≡◌, ◌≤◌, ◌⊎◌};
ghost use Rattle.ec_commands.specs.Answers.{answer_text};
ghost use Rattle.ec_lines.specs.ShownAnswer.{plain_answer};
ghost use Rattle.ec_outside.specs.Counts.{Rose};
ghost use Rattle.ec_replies.specs.Replies.{reply_line};
ghost use Rattle.ec_sessions.specs.Answering.{IsWritten, is_bye};

use crate::handled::Handled;
use ec_lines::{Answer, write_answer};
use ec_outside::Sink;

/// Whether an answer is that to `quit`.
fn is_bye(answer: &Answer) -> bool
    ensures { result ≡ is_bye (plain_answer answer.now) }
{
    matches!(answer, Answer::Bye)
}

/// Writes an answer, and says what follows.
#[tactic(auto, unfolding(ec_commands::specs::Answers::reply_text))]
pub(crate) fn reply<K: Sink>(session: Option<u8>, answer: &Answer, out: &mut K) -> Handled
    ensures written { IsWritten K.stands result (is_bye (plain_answer answer.now)) (reply_line session (answer_text (plain_answer answer.now))) out.old out.new }
    ensures failed { result ≡ Handled.WriteFault → Rose (K.faults out.old) (K.faults out.new) }
    ensures quiet { (result ≡ Handled.WriteFault) ⊎ (K.faults out.new ≡ K.faults out.old) }
    ensures counted { K.faults out.old ≤ K.faults out.new }
{
    if write_answer(session, answer, out).is_err() {
        Handled::WriteFault
    } else if is_bye(answer) {
        Handled::Bye
    } else {
        Handled::Go
    }
}
