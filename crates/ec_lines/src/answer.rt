ghost use Rattle.std.specs.Prelude.{◌≡◌, ◌≤◌, OnOk, OnErr};
ghost use Rattle.ec_commands.specs.Answers.{answer_text, front_text, reply_text};
ghost use Rattle.ec_outside.specs.Counts.{Rose};
ghost use Rattle.ec_outside.specs.Streams.{Appended, AppendedPart};
ghost use Rattle.ec_lines.specs.ShownAnswer.{plain_answer};

use crate::reply_text::{ReplyText, front, push_answer};
use ec_axioms::{Cut, Seen};
use ec_lists::NoMemory;
use ec_outside::{Failed, Sink, write_all};

/// An answer to a line that is one of a few fixed forms.
#[derive(Drop)]
pub enum Answer {
    Ok,
    Yes,
    No,
    Bye,
    /// The line was added to an open draft, which has this many lines now.
    Drafted(u32),
    /// What the last accepted update changed.
    Last(Seen),
    LongLine,
    Syntax,
    InDraft,
    NoDraft,
    FullDraft,
    Order,
    /// More pairs stand in a relation than a reply lists.
    FullPairs,
    /// A question about the past names more updates than were accepted, which are so many.
    Future(u64),
    /// A question about the past names a list that is kept no longer. The first one that is kept is that after so many accepted
    /// updates.
    Gone(u64),
    /// Memory ran out: an allocation failed.
    Memory(NoMemory),
    /// An update was refused.
    Update(Cut),
    /// The update at this place of a draft, from 1, was refused.
    Commit(u32, Cut),
}

/// Writes a whole reply line: the prefix if the line had one, the answer's text and the line end.
/// `Failed` comes only where a call of the sink failed, and then some first part of the line was
/// written.
#[tactic(auto, unfolding(ec_commands::specs::Answers::reply_text), using(ec_outside::proofs::Texts::texts))]
pub fn write_answer<K: Sink>(
    session: Option<u8>,
    answer: &Answer,
    out: &mut K,
) -> Result<(), Failed>
    ensures written { OnOk result (Appended K.stands out.old out.new (reply_text session (plain_answer answer.now))) }
    ensures part { OnErr result (AppendedPart K.stands out.old out.new (reply_text session (plain_answer answer.now))) }
    ensures failed { OnErr result (Rose (K.faults out.old) (K.faults out.new)) }
    ensures quiet { OnOk result (K.faults out.new ≡ K.faults out.old) }
    ensures counted { K.faults out.old ≤ K.faults out.new }
{
    let mut text = front(session);
    push_answer(&mut text, answer);
    text.push(b"\n");
    write_all(out, text.as_bytes())
}

/// Writes an answer's text alone, without prefix and line end. `Failed` is as for `write_answer`.
#[tactic(auto, using(ec_outside::proofs::Texts::texts))]
pub fn write_text<K: Sink>(answer: &Answer, out: &mut K) -> Result<(), Failed>
    ensures written { OnOk result (Appended K.stands out.old out.new (answer_text (plain_answer answer.now))) }
    ensures part { OnErr result (AppendedPart K.stands out.old out.new (answer_text (plain_answer answer.now))) }
    ensures failed { OnErr result (Rose (K.faults out.old) (K.faults out.new)) }
    ensures quiet { OnOk result (K.faults out.new ≡ K.faults out.old) }
    ensures counted { K.faults out.old ≤ K.faults out.new }
{
    let mut text = ReplyText::new();
    push_answer(&mut text, answer);
    write_all(out, text.as_bytes())
}

/// Writes the prefix of a reply: `@`, the session's number without leading zeros and a space, and
/// nothing where the line had no prefix. `Failed` is as for `write_answer`.
#[tactic(auto, unfolding(ec_commands::specs::Answers::reply_text), using(ec_outside::proofs::Texts::texts))]
pub fn write_front<K: Sink>(session: Option<u8>, out: &mut K) -> Result<(), Failed>
    ensures written { OnOk result (Appended K.stands out.old out.new (front_text session)) }
    ensures part { OnErr result (AppendedPart K.stands out.old out.new (front_text session)) }
    ensures failed { OnErr result (Rose (K.faults out.old) (K.faults out.new)) }
    ensures quiet { OnOk result (K.faults out.new ≡ K.faults out.old) }
    ensures counted { K.faults out.old ≤ K.faults out.new }
{
    write_all(out, front(session).as_bytes())
}
