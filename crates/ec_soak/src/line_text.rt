//! The text of a generated line, and of the line that sums up a run, while it is put together.
ghost use Rattle.std.specs.Prelude.{◌≡◌, ◌+◌, ◌≤◌, ◌++◌, length, decimal};
ghost use Rattle.ec_soak.specs.Load.{event_text, line_text, ended_text};

use crate::generated_line::{GeneratedEvent, GeneratedLine};
use ec_outside::Text;

/// The text of a line.
pub(crate) type LineText = Text<160>;

/// Adds a number of 64 bits in decimal, behind its name.
pub(crate) fn push_count(text: &mut LineText, name: &[u8], count: u64)
    requires { length text.old + length name.now + 20 ≤ 160 }
    ensures text { text.new ≡ text.old ++ (name.now ++ decimal count) }
    ensures len { length text.new ≤ length text.old + length name.now + 20 }
{
    text.push(name);
    text.push_number(count);
}

/// Adds a number of 32 bits in decimal, with bytes before it and behind it.
pub(crate) fn push_number(text: &mut LineText, before: &[u8], number: u32, behind: &[u8])
    requires { length text.old + length before.now + 10 + length behind.now ≤ 160 }
    ensures text { text.new ≡ text.old ++ (before.now ++ decimal number ++ behind.now) }
    ensures len { length text.new ≤ length text.old + length before.now + 10 + length behind.now }
{
    text.push(before);
    text.push_short_number(number);
    text.push(behind);
}

/// Adds the text of an event.
#[tactic(auto, unfolding(crate::specs::Load::event_text), using(ec_outside::proofs::Texts::texts))]
fn push_event(text: &mut LineText, event: &GeneratedEvent)
    requires { length text.old + 40 ≤ 160 }
    ensures text { text.new ≡ text.old ++ event_text event.now }
    ensures len { length text.new ≤ length text.old + 40 }
{
    match *event {
        GeneratedEvent::Push { person, lamp } => {
            push_number(text, b"push(p", person, b"");
            push_number(text, b",l", lamp, b")");
        }
        GeneratedEvent::Plug { lamp } => push_number(text, b"plug(l", lamp, b")"),
        GeneratedEvent::Unplug { lamp } => push_number(text, b"unplug(l", lamp, b")"),
        GeneratedEvent::Move { person, hall } => {
            push_number(text, b"move(p", person, b"");
            push_number(text, b",h", hall, b")");
        }
        GeneratedEvent::Leave { person, hall } => {
            push_number(text, b"leave(p", person, b"");
            push_number(text, b",h", hall, b")");
        }
    }
}

/// Adds the text of a line, without its line end.
#[tactic(auto, unfolding(crate::specs::Load::line_text), using(ec_outside::proofs::Texts::texts))]
fn push_line(text: &mut LineText, line: &GeneratedLine)
    requires { length text.old + 80 ≤ 160 }
    ensures text { text.new ≡ text.old ++ line_text line.now }
    ensures len { length text.new ≤ length text.old + 80 }
{
    match line {
        GeneratedLine::Assert {
            number,
            time,
            event,
        } => {
            push_number(text, b"assert e", *number, b" ");
            push_number(text, b"", *time, b" ");
            push_event(text, event);
        }
        GeneratedLine::Retract { number } => push_number(text, b"retract e", *number, b""),
        GeneratedLine::HoldsLit { lamp, time } => {
            push_number(text, b"holds lit(l", *lamp, b") ");
            push_number(text, b"", *time, b"");
        }
        GeneratedLine::HoldsAt { person, hall, time } => {
            push_number(text, b"holds at(p", *person, b"");
            push_number(text, b",h", *hall, b") ");
            push_number(text, b"", *time, b"");
        }
        GeneratedLine::Intervals { lamp } => push_number(text, b"intervals lit(l", *lamp, b")"),
        GeneratedLine::Last => text.push(b"last"),
    }
}

/// The text of a line with its line end.
pub(crate) fn text_of(line: &GeneratedLine) -> LineText
    ensures text { result ≡ ended_text line.now }
{
    let mut text = LineText::new();
    push_line(&mut text, line);
    text.push(b"\n");
    text
}
