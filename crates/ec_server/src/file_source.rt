//! The bytes of a file as an input.
ghost use Rattle.std.specs.Prelude.{◌≡◌, ◌<◌, ◌≤◌, Some, drop};
ghost use Rattle.ec_outside.specs.Counts.{last_count};

use ec_outside::{Failed, Source};
use std::marker::Model;

/// A source that holds its bytes. No read fails. It is seen as the list of the bytes that are left.
#[derive(Drop)]
pub(crate) struct FileSource {
    bytes: Vec<u8>,
    at: usize,
}

impl Model for FileSource {
    ghost use Rattle.std.specs.Prelude.{List, ℕ, ◌≤◌, drop, vec_len};

    ghost Value = { List ℕ };

    ghost view = { λ s. drop s.at s.bytes.items };

    ghost invariant = { λ s. s.at ≤ vec_len s.bytes };
}

impl FileSource {
    /// A source of these bytes.
    pub(crate) fn new(bytes: Vec<u8>) -> FileSource
        ensures { result ≡ bytes.items }
    {
        FileSource { bytes, at: 0 }
    }
}

impl Source for FileSource {
    ghost left = { λ s. Some s };

    ghost faults = { λ _. 0 };

    ghost reads = { λ _. last_count };

    ghost ended = { λ _. last_count };

    fn read(&mut self, into: &mut [u8]) -> Result<usize, Failed> {
        let left = &self.bytes[self.at..];
        let count = left.len().min(into.len());
        into[..count].copy_from_slice(&left[..count]);
        self.at += count;
        Ok(count)
    }
}
