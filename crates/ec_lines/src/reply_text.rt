//! The text of a reply while it is put together.
ghost use Rattle.std.specs.Prelude.{◌≡◌, ◌+◌, ◌≤◌, ◌++◌, length};
ghost use Rattle.ec_commands.specs.Answers.{refused_commit, answer_text, cut_text, seen_text, front_text};
ghost use Rattle.ec_lines.specs.ShownAnswer.{plain_answer};

use crate::answer::Answer;
use ec_axioms::{Cut, MOST_EVENTS, MOST_LINKS, MOST_MENTIONS, Seen};
use ec_commands::{MOST_DRAFTED, MOST_PAIRS};
use ec_outside::Text;

/// The text of a reply with a fixed form.
pub type ReplyText = Text<160>;

/// The text that a reply begins with: its prefix, where the line had one.
#[tactic(auto, unfolding(ec_commands::specs::Answers::front_text), using(ec_outside::proofs::Texts::texts))]
pub(crate) fn front(session: Option<u8>) -> ReplyText
    ensures text { result ≡ front_text session }
    ensures len { length result ≤ 22 }
{
    let mut text = ReplyText::new();
    match session {
        None => text,
        Some(session) => {
            text.push(b"@");
            text.push_number(u64::from(session));
            text.push(b" ");
            text
        }
    }
}

/// Adds what an update was refused for.
#[tactic(auto, unfolding(ec_commands::specs::Answers::cut_text), using(ec_outside::proofs::Texts::texts))]
fn push_cut(text: &mut ReplyText, cut: &Cut)
    requires { length text.old + 74 ≤ 160 }
    ensures text { text.new ≡ text.old ++ cut_text cut.now }
    ensures len { length text.new ≤ length text.old + 74 }
{
    match cut {
        Cut::Duplicate(id) => {
            text.push(b"duplicate ");
            text.push(id.as_bytes());
        }
        Cut::Unknown(id) => {
            text.push(b"unknown ");
            text.push(id.as_bytes());
        }
        Cut::FullEvents => {
            text.push(b"full-events ");
            text.push_number(MOST_EVENTS);
        }
        Cut::FullMentions => {
            text.push(b"full-mentions ");
            text.push_number(MOST_MENTIONS);
        }
        Cut::FullLinks => {
            text.push(b"full-links ");
            text.push_number(MOST_LINKS);
        }
    }
}

/// Adds what an update changed.
#[tactic(auto, unfolding(ec_commands::specs::Answers::seen_text), using(ec_outside::proofs::Texts::texts))]
fn push_seen(text: &mut ReplyText, counts: &Seen)
    requires { length text.old + 101 ≤ 160 }
    ensures text { text.new ≡ text.old ++ seen_text counts.now }
    ensures len { length text.new ≤ length text.old + 101 }
{
    text.push(b"seen ");
    text.push_number(counts.seen);
    text.push(b" on ");
    text.push_number(counts.on);
    text.push(b" off ");
    text.push_number(counts.off);
    text.push(b" props ");
    text.push_number(counts.props);
}

/// Adds that the update at a place of a draft was refused.
#[tactic(auto, unfolding(ec_commands::specs::Answers::answer_text), using(ec_outside::proofs::Texts::texts))]
fn push_commit(text: &mut ReplyText, place: u32, cut: &Cut)
    requires { length text.old + 110 ≤ 160 }
    ensures text { text.new ≡ text.old ++ answer_text (refused_commit place cut.now) }
    ensures len { length text.new ≤ length text.old + 110 }
{
    text.push(b"refused commit ");
    text.push_number(u64::from(place));
    text.push(b" ");
    push_cut(text, cut);
}

/// Adds the text of an answer.
#[tactic(auto, unfolding(ec_commands::specs::Answers::answer_text), using(ec_outside::proofs::Texts::texts))]
pub(crate) fn push_answer(text: &mut ReplyText, answer: &Answer)
    requires { length text.old ≤ 22 }
    ensures text { text.new ≡ text.old ++ answer_text (plain_answer answer.now) }
    ensures len { length text.new ≤ 132 }
{
    match answer {
        Answer::Ok => text.push(b"ok"),
        Answer::Yes => text.push(b"yes"),
        Answer::No => text.push(b"no"),
        Answer::Bye => text.push(b"bye"),
        Answer::Drafted(count) => {
            text.push(b"drafted ");
            text.push_number(u64::from(*count));
        }
        Answer::Last(counts) => {
            text.push(b"last ");
            push_seen(text, counts);
        }
        Answer::LongLine => text.push(b"refused long-line"),
        Answer::Syntax => text.push(b"refused syntax"),
        Answer::InDraft => text.push(b"refused in-draft"),
        Answer::NoDraft => text.push(b"refused no-draft"),
        Answer::FullDraft => {
            text.push(b"refused full-draft ");
            text.push_number(MOST_DRAFTED);
        }
        Answer::Order => text.push(b"refused order"),
        Answer::FullPairs => {
            text.push(b"refused full-pairs ");
            text.push_number(MOST_PAIRS);
        }
        Answer::Future(count) => {
            text.push(b"refused future ");
            text.push_number(*count);
        }
        Answer::Gone(first) => {
            text.push(b"refused gone ");
            text.push_number(*first);
        }
        Answer::Memory(_) => text.push(b"refused memory"),
        Answer::Update(cut) => {
            text.push(b"refused ");
            push_cut(text, cut);
        }
        Answer::Commit(place, cut) => push_commit(text, *place, cut),
    }
}
