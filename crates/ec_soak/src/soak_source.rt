//! The input of a soak run.
ghost use Rattle.std.specs.Prelude.{◌≡◌, ◌<◌, ◌≤◌, ◌++◌, [], Some, IfOk, length, take, drop, min};
ghost use Rattle.ec_outside.specs.Counts.{last_count, next_count};
ghost use Rattle.ec_outside.specs.Reads.{meets_end, next_ended};
ghost use Rattle.ec_outside.specs.Streams.{Took, IsAtEnd};

use crate::generated_lines::GeneratedLines;
use crate::line_text::{LineText, text_of};
use ec_outside::{Failed, Source};
use std::marker::Model;

/// A source of generated lines, of which it holds one at a time. No read fails or takes memory. It is
/// seen as the list of the bytes that are left.
#[derive(Drop)]
pub struct SoakSource {
    lines: GeneratedLines,
    text: LineText,
    at: usize,
}

impl Model for SoakSource {
    ghost use Rattle.std.specs.Prelude.{◌≤◌, ◌++◌, List, ℕ, drop, length};

    ghost Value = { List ℕ };

    ghost use Rattle.ec_soak.specs.Load.{load_of};

    ghost view = { λ s. drop s.at s.text ++ load_of s.lines };

    ghost invariant = { λ s. s.at ≤ length s.text };
}

impl SoakSource {
    ghost use Rattle.ec_soak.specs.Load.{generated_load};

    /// A source of so many lines, drawn from the seed.
    #[tactic(auto, unfolding(crate::specs::Load::generated_load))]
    pub fn new(lines: u32, seed: u64) -> SoakSource
        ensures { result ≡ generated_load lines seed }
    {
        SoakSource {
            lines: GeneratedLines::new(lines, seed),
            text: LineText::new(),
            at: 0,
        }
    }

    /// Moves bytes of one line to the front of `into`, and says how many.
    fn give(&mut self, into: &mut [u8]) -> usize
        ensures within { result ≤ length into.new }
        ensures given { self.old ≡ take result into.new ++ self.new }
        ensures end { result ≡ 0 → 0 < length into.new → self.new ≡ [] }
    {
        if self.at == self.text.as_bytes().len() {
            if let Some(line) = self.lines.next_line() {
                self.text = text_of(&line);
                self.at = 0;
            }
        }
        let rest = &self.text.as_bytes()[self.at..];
        let count = rest.len().min(into.len());
        into[..count].copy_from_slice(&rest[..count]);
        self.at += count;
        count
    }
}

impl Source for SoakSource {
    ghost left = { λ s. Some s };

    ghost faults = { λ _. 0 };

    ghost reads = { λ _. last_count };

    ghost ended = { λ _. last_count };

    fn read(&mut self, into: &mut [u8]) -> Result<usize, Failed>
        // As for every source.
        ensures within { IfOk result (λ n. n ≤ length into.new) }
        ensures took { IfOk result (λ n. Took (Some self.old) (Some self.new) (take n into.new)) }
        ensures end { IfOk result (λ n. n ≡ 0 → 0 < length into.new → IsAtEnd (Some self.new)) }
        ensures one_more { last_count ≡ next_count last_count }
        ensures ended { last_count ≡ next_ended last_count (meets_end result (length into.new)) }

        // No read fails, and each gives as much as is asked for, while so much is left.
        ensures count { result ≡ Ok (min (length self.old) (length into.new)) }
    {
        let mut count = 0;
        while count < into.len() {
            let given = self.give(&mut into[count..]);
            if given == 0 {
                break;
            }
            count += given;
        }
        Ok(count)
    }
}
