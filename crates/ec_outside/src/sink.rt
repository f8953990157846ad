ghost use Rattle.std.specs.Prelude.{◌≡◌, ℕ, ◌<◌, ◌≤◌, List, length, take, IfOk, OnOk, OnErr};
ghost use Rattle.ec_outside.specs.Counts.{Rose, last_count};
ghost use Rattle.ec_outside.specs.Streams.{Appended, AppendedPart, NothingAppended};

use crate::source::Failed;

/// What bytes are written to.
pub trait Sink {
    // The sink stands for this list of bytes.
    ghost stands: { Self → List ℕ → Type 0 };

    // How many calls have failed so far.
    ghost faults: { Self → ℕ };

    // How many of the bytes that were written it still holds back.
    ghost waiting: { Self → ℕ };

    /// Takes the first bytes of `from`, and says how many; of a piece that is not empty it takes
    /// one at least.
    fn write(&mut self, from: &[u8]) -> Result<usize, Failed>
        ensures within { IfOk result (λ n. n ≤ length from.now) }
        ensures progress { IfOk result (λ n. 0 < length from.now → 0 < n) }
        ensures appended { IfOk result (λ n. Appended stands self.old self.new (take n from.now)) }
        ensures kept { OnErr result (NothingAppended stands self.old self.new) }
        ensures failed { OnErr result (Rose (faults self.old) (faults self.new)) }
        ensures quiet { OnOk result (faults self.new ≡ faults self.old) }
        ensures counted { faults self.old ≤ faults self.new }
        ensures bounded { faults self.old ≤ last_count → faults self.new ≤ last_count };

    /// Hands on what the sink still holds back.
    fn flush(&mut self) -> Result<(), Failed>
        ensures handed_on { OnOk result (waiting self.new ≡ 0) }
        ensures kept { NothingAppended stands self.old self.new }
        ensures failed { OnErr result (Rose (faults self.old) (faults self.new)) }
        ensures quiet { OnOk result (faults self.new ≡ faults self.old) }
        ensures counted { faults self.old ≤ faults self.new }
        ensures bounded { faults self.old ≤ last_count → faults self.new ≤ last_count };
}

/// Writes `bytes`, in as many writes as the sink needs, up to the first that fails, and says how
/// many of them were written.
pub(crate) fn write_counted<K: Sink>(out: &mut K, bytes: &[u8]) -> (usize, Result<(), Failed>)
    ensures within { result.0 ≤ length bytes.now }
    ensures appended { Appended K.stands out.old out.new (take result.0 bytes.now) }
    ensures all { OnOk result.1 (result.0 ≡ length bytes.now) }
    ensures failed { OnErr result.1 (Rose (K.faults out.old) (K.faults out.new)) }
    ensures quiet { OnOk result.1 (K.faults out.new ≡ K.faults out.old) }
    ensures counted { K.faults out.old ≤ K.faults out.new }
    ensures bounded { K.faults out.old ≤ last_count → K.faults out.new ≤ last_count }
{
    let mut written = 0;
    while written < bytes.len() {
        match out.write(&bytes[written..]) {
            Ok(taken) => written += taken,
            Err(failed) => return (written, Err(failed)),
        }
    }
    (written, Ok(()))
}

/// Writes all of `bytes`, in as many writes as the sink needs, and stops at the first that fails.
pub fn write_all<K: Sink>(out: &mut K, bytes: &[u8]) -> Result<(), Failed>
    ensures written { OnOk result (Appended K.stands out.old out.new bytes.now) }
    ensures part { OnErr result (AppendedPart K.stands out.old out.new bytes.now) }
    ensures failed { OnErr result (Rose (K.faults out.old) (K.faults out.new)) }
    ensures quiet { OnOk result (K.faults out.new ≡ K.faults out.old) }
    ensures counted { K.faults out.old ≤ K.faults out.new }
    ensures bounded { K.faults out.old ≤ last_count → K.faults out.new ≤ last_count }
{
    write_counted(out, bytes).1
}
