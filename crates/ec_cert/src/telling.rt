//! The lines that tell why an event file is refused, and what a certificate comes to.
ghost use Rattle.std.specs.Prelude.{◌≡◌, ◌+◌, ◌≤◌, ◌++◌, length, OnOk, OnErr};
ghost use Rattle.ec_outside.specs.Counts.{Rose};
ghost use Rattle.ec_outside.specs.Streams.{Appended, AppendedPart};
ghost use Rattle.ec_cert.specs.EventFile.{events_line, name_text};
ghost use Rattle.ec_cert.specs.Verdicts.{verdict_line};

use crate::event_fault::EventName;
use crate::verdict::Verdict;
use ec_outside::{Failed, Sink, Text, write_all};

/// The name of what a line is refused for.
fn name_bytes(name: EventName) -> &'static [u8]
    ensures text { result.now ≡ name_text name }
    ensures len { length result.now ≤ 13 }
{
    match name {
        EventName::Syntax => b"syntax",
        EventName::Duplicate => b"duplicate",
        EventName::FullEvents => b"full-events",
        EventName::FullMentions => b"full-mentions",
        EventName::FullLinks => b"full-links",
    }
}

/// Writes which line of an event file is refused, from 1, and what for. `Failed` comes only where a
/// call of the sink failed, and then some first part of the line was written.
#[tactic(auto, using(ec_outside::proofs::Texts::texts))]
pub fn write_events_line<K: Sink>(line: u32, name: EventName, out: &mut K) -> Result<(), Failed>
    ensures written { OnOk result (Appended K.stands out.old out.new (events_line line name)) }
    ensures part { OnErr result (AppendedPart K.stands out.old out.new (events_line line name)) }
    ensures failed { OnErr result (Rose (K.faults out.old) (K.faults out.new)) }
    ensures quiet { OnOk result (K.faults out.new ≡ K.faults out.old) }
    ensures counted { K.faults out.old ≤ K.faults out.new }
{
    let mut text = Text::<40>::new();
    text.push(b"events ");
    text.push_short_number(line);
    text.push(b" ");
    text.push(name_bytes(name));
    text.push(b"\n");
    write_all(out, text.as_bytes())
}

/// Adds the line that tells a verdict.
#[tactic(auto, using(ec_outside::proofs::Texts::texts))]
fn push_verdict(text: &mut Text<16>, verdict: Verdict)
    requires { length text.old + 15 ≤ 16 }
    ensures { text.new ≡ text.old ++ verdict_line verdict }
{
    match verdict {
        Verdict::Yes => text.push(b"yes\n"),
        Verdict::No => text.push(b"no\n"),
        Verdict::Bad(line) => {
            text.push(b"bad ");
            text.push_short_number(line);
            text.push(b"\n");
        }
    }
}

/// Writes what a certificate comes to. `Failed` is as for `write_events_line`.
pub fn write_verdict_line<K: Sink>(verdict: Verdict, out: &mut K) -> Result<(), Failed>
    ensures written { OnOk result (Appended K.stands out.old out.new (verdict_line verdict)) }
    ensures part { OnErr result (AppendedPart K.stands out.old out.new (verdict_line verdict)) }
    ensures failed { OnErr result (Rose (K.faults out.old) (K.faults out.new)) }
    ensures quiet { OnOk result (K.faults out.new ≡ K.faults out.old) }
    ensures counted { K.faults out.old ≤ K.faults out.new }
{
    let mut text = Text::new();
    push_verdict(&mut text, verdict);
    write_all(out, text.as_bytes())
}
