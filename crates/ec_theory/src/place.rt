//! Places in a text.
ghost use Rattle.std.specs.Prelude.{◌≡◌, ◌+◌, ◌≤◌, if◌then◌else◌, ◌==◌};

use crate::token_list::MOST_BYTES;

/// A place in a text: a line and a column, both from 1. Lines end with a line feed; the column counts bytes.
#[derive(Clone, Copy, Debug, PartialEq, Eq)]
pub struct Place {
    pub line: u32,
    pub col: u32,
}

impl Place {
    /// The place of the first byte of a text.
    pub const START: Place = Place { line: 1, col: 1 };

    /// The place behind a piece of so many bytes that stands here and begins with `first`. A line feed is
    /// a piece by itself.
    pub(crate) fn behind(self, first: u8, length: usize) -> Place
        requires line { self.line ≤ MOST_BYTES }
        requires column { self.col + length ≤ MOST_BYTES + 1 }
        ensures { result ≡ (if first == 10 then record { line = self.line + 1; col = 1 } else record { line = self.line; col = self.col + length }) }
    {
        if first == b'\n' {
            Place {
                line: self.line + 1,
                col: 1,
            }
        } else {
            Place {
                line: self.line,
                col: self.col + length as u32,
            }
        }
    }
}
