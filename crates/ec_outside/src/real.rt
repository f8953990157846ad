//! The real outside: a reader, a writer and the system's files. What a reader and a writer of std
//! tell of their bytes, they tell; the system's own tell nothing.
ghost use Rattle.std.specs.Prelude.{◌≡◌, ℕ, ◌<◌, ◌≤◌, ◌⊎◌, [], None, IfOk, IfSome, OnOk, OnErr, IsErrOf, length, take};
ghost use Rattle.std.specs.Io.KnownBytes.{Keeps};
ghost use Rattle.ec_outside.specs.Counts.{Rose, last_count, next_count};
ghost use Rattle.ec_outside.specs.Reads.{meets_end, next_ended};
ghost use Rattle.ec_outside.specs.Streams.{IsAtEnd, Took, stands_as_told};

use crate::folder::{Folder, FolderAnswer};
use crate::sink::Sink;
use crate::source::{Failed, Source, next_ended};
use std::io::{ErrorKind, Read, Write};
use std::marker::Model;
use std::rt::Files;
use std::{fs, io};

/// A source over a reader, as standard input. It is seen as the pair of the reader and the counts of its reads.
#[derive(Drop)]
pub struct RealSource<R> {
    input: R,
    faults: u64,
    reads: u64,
    ended: u64,
}

impl<R> Model for RealSource<R> {
    ghost use Rattle.std.specs.Prelude.{◌≤◌};
    ghost use Rattle.std.specs.Coded.{coded×};
    ghost use Rattle.ec_outside.specs.Counts.{last_count};
    ghost use Rattle.ec_outside.specs.Reads.{ReadCounts, read_counts_code};

    ghost Value = { R × ReadCounts };

    ghost coded = { coded× R.code read_counts_code };

    ghost view = { λ s. (s.input, record { faults = s.faults; reads = s.reads; ended = s.ended }) };

    ghost invariant = { λ s. s.faults ≤ last_count };
}

impl<R: Read> RealSource<R> {
    /// A source over this reader.
    pub fn new(input: R) -> RealSource<R>
        ensures input { result.0 ≡ input }
        ensures counts { result.1 ≡ record { faults = 0; reads = 0; ended = 0 } }
    {
        RealSource {
            input,
            faults: 0,
            reads: 0,
            ended: 0,
        }
    }
}

impl<R: Read> Source for RealSource<R> {
    ghost left = { λ _. None };

    ghost faults = { λ s. s.1.faults };

    ghost reads = { λ s. s.1.reads };

    ghost ended = { λ s. s.1.ended };

    fn read(&mut self, into: &mut [u8]) -> Result<usize, Failed>
        // As for every source.
        ensures within { IfOk result (λ n. n ≤ length into.new) }
        ensures failed { OnErr result (Rose self.old.1.faults self.new.1.faults) }
        ensures quiet { OnOk result (self.new.1.faults ≡ self.old.1.faults) }
        ensures counted { self.old.1.faults ≤ self.new.1.faults }
        ensures bounded { self.new.1.faults ≤ last_count }
        ensures one_more { self.new.1.reads ≡ next_count self.old.1.reads }
        ensures ended { self.new.1.ended ≡ next_ended self.old.1.ended (meets_end result (length into.new)) }

        // What the reader tells: these bytes were taken, none only at its end, and nothing where it failed.
        ensures took { IfOk result (λ n. Took (R.remaining self.old.0) (R.remaining self.new.0) (take n into.new)) }
        ensures end { IfOk result (λ n. n ≡ 0 → 0 < length into.new → IsAtEnd (R.remaining self.new.0)) }
        ensures unchanged { OnErr result (Keeps (R.remaining self.old.0) (R.remaining self.new.0)) }
    {
        self.reads = self.reads.saturating_add(1);
        match self.input.read(into) {
            Ok(count) => {
                self.ended = next_ended(self.ended, count == 0 && !into.is_empty());
                Ok(count)
            }
            Err(_) => {
                self.ended = next_ended(self.ended, false);
                self.faults = self.faults.saturating_add(1);
                Err(Failed)
            }
        }
    }
}

/// A sink over a writer, as standard output. It is seen as the pair of the writer and the count of the failed writes and flushes.
#[derive(Drop)]
pub struct RealSink<W> {
    output: W,
    faults: u64,
}

impl<W> Model for RealSink<W> {
    ghost use Rattle.std.specs.Prelude.{ℕ, ◌≤◌};
    ghost use Rattle.std.specs.Coded.{coded×, coded_ℕ};
    ghost use Rattle.ec_outside.specs.Counts.{last_count};

    ghost Value = { W × ℕ };

    ghost coded = { coded× W.code coded_ℕ };

    ghost view = { λ s. (s.output, s.faults) };

    ghost invariant = { λ s. s.faults ≤ last_count };
}

impl<W: Write> RealSink<W> {
    /// A sink over this writer.
    pub fn new(output: W) -> RealSink<W>
        ensures { result ≡ (output, 0) }
    {
        RealSink { output, faults: 0 }
    }
}

impl<W: Write> Sink for RealSink<W> {
    ghost stands = { stands_as_told W.contents };

    ghost faults = { λ s. s.1 };

    ghost waiting = { λ _. 0 };

    fn write(&mut self, from: &[u8]) -> Result<usize, Failed> {
        match self.output.write(from) {
            Ok(count) if count > 0 || from.is_empty() => Ok(count),
            _ => {
                self.faults = self.faults.saturating_add(1);
                Err(Failed)
            }
        }
    }

    fn flush(&mut self) -> Result<(), Failed> {
        match self.output.flush() {
            Ok(()) => Ok(()),
            Err(_) => {
                self.faults = self.faults.saturating_add(1);
                Err(Failed)
            }
        }
    }
}

/// The system's files, by their paths. It is seen as the count of its failed calls.
#[derive(Drop)]
pub struct RealFolder<F> {
    files: F,
    faults: u64,
}

impl<F> Model for RealFolder<F> {
    ghost Value = { ℕ };

    ghost view = { λ f. f.faults };

    ghost invariant = { λ f. f.faults ≤ last_count };
}

impl<F: Files> RealFolder<F> {
    /// The files that this runtime reaches.
    pub fn new(files: F) -> RealFolder<F>
        ensures { result ≡ 0 }
    {
        RealFolder { files, faults: 0 }
    }
}

impl<F: Files> Folder for RealFolder<F> {
    ghost files = { λ _. None };

    ghost faults = { λ f. f };

    fn read_whole(
        &mut self,
        name: &str,
        into: &mut Vec<u8>,
        most: usize,
    ) -> Result<(), FolderAnswer> {
        let answer = read_file(&self.files, name, into, most);
        if matches!(answer, Err(FolderAnswer::Failed)) {
            self.faults = self.faults.saturating_add(1);
        }
        answer
    }
}

/// Reads what a reader has left, up to so many bytes.
fn read_up_to<R: Read + Drop>(reader: R, into: &mut Vec<u8>, limit: u64) -> io::Result<usize>
    requires { into.old.items ≡ [] }
    ensures { OnOk result (IfSome (R.remaining reader) (λ bytes. into.new.items ≡ take limit bytes)) }
{
    reader.take(limit).read_to_end(into)
}

/// Reads what a reader has left, if that is no more than `most` bytes.
fn read_within<R: Read + Drop>(
    reader: R,
    into: &mut Vec<u8>,
    most: usize,
) -> Result<(), FolderAnswer>
    requires { into.old.items ≡ [] }
    ensures within { OnOk result (length into.new.items ≤ most) }
    ensures whole { OnOk result (IfSome (R.remaining reader) (λ bytes. into.new.items ≡ bytes)) }
    ensures long { IsErrOf result FolderAnswer.Long → IfSome (R.remaining reader) (λ bytes. most < length bytes) }
{
    let limit = (most as u64).saturating_add(1);
    match read_up_to(reader, into, limit) {
        Ok(_) if into.len() > most => Err(FolderAnswer::Long),
        Ok(_) => Ok(()),
        Err(error) => Err(answer_of(&error)),
    }
}

/// What the folder answers where the system has an error.
fn answer_of(error: &io::Error) -> FolderAnswer
    ensures { (result ≡ FolderAnswer.Failed) ⊎ (result ≡ FolderAnswer.Memory) }
{
    if error.kind() == ErrorKind::OutOfMemory {
        FolderAnswer::Memory
    } else {
        FolderAnswer::Failed
    }
}

/// Reads a file, if it has no more than `most` bytes.
fn read_file<F: Files>(
    files: &F,
    name: &str,
    into: &mut Vec<u8>,
    most: usize,
) -> Result<(), FolderAnswer>
    requires { into.old.items ≡ [] }
    ensures { OnOk result (length into.new.items ≤ most) }
{
    match fs::open(files, name) {
        Ok(file) => read_within(file, into, most),
        Err(error) => Err(answer_of(&error)),
    }
}
