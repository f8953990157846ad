//! The output of a soak run.
ghost use Rattle.std.specs.Prelude.{◌≡◌, ℕ, List, [], ◌∷◌};
ghost use Rattle.ec_outside.specs.Streams.{Appended};
ghost use Rattle.ec_soak.specs.Tally.{counts_of, tally_of, stands_for_tally};

use crate::counts::Counts;
use arrayvec::ArrayVec;
use ec_outside::{Failed, Sink};
use std::marker::Model;

/// How many bytes are kept of a line that is not ended: one more than any word or line has that is
/// counted.
const KEPT: usize = 15;

/// A sink that counts what is written, and keeps the first bytes of the line that is not ended yet. No
/// write fails or takes memory. It stands for each output of which it keeps just that.
#[derive(Drop)]
pub struct TallySink {
    counts: Counts,
    begun: ArrayVec<u8, KEPT>,
}

impl Model for TallySink {
    ghost use Rattle.ec_soak.specs.Tally.{Tally};

    ghost Value = { Tally };

    ghost view = { λ s. record { counts = s.counts; begun = s.begun.items } };
}

impl TallySink {
    /// A sink to which nothing was written.
    #[tactic(auto, unfolding(crate::specs::Tally::counts_of, ec_commands::specs::Lines::cut_of))]
    pub fn new() -> TallySink
        ensures { result ≡ tally_of [] }
    {
        TallySink {
            counts: Counts {
                ok: 0,
                yes: 0,
                no: 0,
                refused: 0,
                bytes: 0,
                memory: 0,
            },
            begun: ArrayVec::new(),
        }
    }

    /// The counts of what was written.
    pub fn counts(&self) -> Counts
        ensures counts { result ≡ self.now.counts }
        ensures counted { (output : List ℕ) → stands_for_tally self.now output → result ≡ counts_of output }
    {
        self.counts
    }

    /// Takes one byte.
    fn take(&mut self, byte: u8)
        ensures { Appended stands_for_tally self.old self.new (byte ∷ []) }
    {
        self.counts.bytes = self.counts.bytes.saturating_add(1);
        if byte == b'\n' {
            self.counts.add_line(self.begun.as_slice());
            self.begun.clear();
        } else if !self.begun.is_full() {
            self.begun.push(byte);
        }
    }
}

impl Sink for TallySink {
    ghost stands = { stands_for_tally };

    ghost faults = { λ _. 0 };

    ghost waiting = { λ _. 0 };

    fn write(&mut self, from: &[u8]) -> Result<usize, Failed> {
        for byte in from {
            self.take(*byte);
        }
        Ok(from.len())
    }

    fn flush(&mut self) -> Result<(), Failed> {
        Ok(())
    }
}
