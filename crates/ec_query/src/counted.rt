//! How many members a reply has, which is written before them.
ghost use Rattle.std.specs.Prelude.{◌≡◌, ◌≤◌, OnOk, OnErr, decimal};
ghost use Rattle.ec_outside.specs.Counts.{Rose};
ghost use Rattle.ec_outside.specs.Streams.{Appended, AppendedPart};

use ec_outside::{Failed, Sink, write_all};
use itoa::Buffer;

/// Writes how many members follow. `Failed` comes only where a call of the sink failed.
pub fn write_count<K: Sink>(count: u64, out: &mut K) -> Result<(), Failed>
    ensures written { OnOk result (Appended K.stands out.old out.new (decimal count)) }
    ensures part { OnErr result (AppendedPart K.stands out.old out.new (decimal count)) }
    ensures failed { OnErr result (Rose (K.faults out.old) (K.faults out.new)) }
    ensures quiet { OnOk result (K.faults out.new ≡ K.faults out.old) }
    ensures counted { K.faults out.old ≤ K.faults out.new }
{
    let mut buffer = Buffer::new();
    write_all(out, buffer.format(count).as_bytes())
}
