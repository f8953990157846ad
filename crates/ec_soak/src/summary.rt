//! The line that sums up a soak run.
ghost use Rattle.std.specs.Prelude.{◌≡◌, ◌≤◌, OnOk, OnErr};
ghost use Rattle.ec_outside.specs.Counts.{Rose, last_count};
ghost use Rattle.ec_outside.specs.Streams.{Appended, AppendedPart};
ghost use Rattle.ec_soak.specs.Tally.{summary_line};

use crate::counts::Counts;
use crate::line_text::{LineText, push_count, push_number};
use ec_outside::{Failed, Sink, write_all};

/// The line that sums up a run over so many lines.
#[tactic(auto, unfolding(crate::specs::Tally::summary_line), using(ec_outside::proofs::Texts::texts))]
fn summary_text(lines: u32, counts: &Counts) -> LineText
    ensures { result ≡ summary_line lines counts.now }
{
    let mut text = LineText::new();
    push_number(&mut text, b"soak lines ", lines, b"");
    push_count(&mut text, b" ok ", counts.ok);
    push_count(&mut text, b" yes ", counts.yes);
    push_count(&mut text, b" no ", counts.no);
    push_count(&mut text, b" refused ", counts.refused);
    push_count(&mut text, b" bytes ", counts.bytes);
    text.push(b"\n");
    text
}

/// Writes the line that sums up a run over so many lines, with its line end. `Failed` comes only where
/// a call of the sink failed, and then some first part of the line was written.
pub fn write_summary<K: Sink>(lines: u32, counts: &Counts, out: &mut K) -> Result<(), Failed>
    ensures written { OnOk result (Appended K.stands out.old out.new (summary_line lines counts.now)) }
    ensures part { OnErr result (AppendedPart K.stands out.old out.new (summary_line lines counts.now)) }
    ensures failed { OnErr result (Rose (K.faults out.old) (K.faults out.new)) }
    ensures quiet { OnOk result (K.faults out.new ≡ K.faults out.old) }
    ensures counted { K.faults out.old ≤ K.faults out.new }
    ensures bounded { K.faults out.old ≤ last_count → K.faults out.new ≤ last_count }
{
    write_all(out, summary_text(lines, counts).as_bytes())
}
