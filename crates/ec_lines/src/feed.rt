ghost use Rattle.std.specs.Prelude.{◌≡◌, ℕ, ◌-◌, ◌<◌, ◌≤◌, ◌↔◌, ◌||◌, List, [], ◌++◌, true, false, IsTrue, IfOk, Contains, length, take, slice_index};
ghost use Rattle.std.specs.Io.BufRead.{take_through};
ghost use Rattle.ec_commands.specs.Lines.{line_feed, carriage_return, without_return, cut_of, is_long};
ghost use Rattle.ec_lines.specs.FeedState.{IsPart, IsReady, IsEnded, Advances, Finishes};
ghost use Rattle.ec_lines.specs.ShownLine.{IfText, ShowsLine};

use crate::line::Line;
use ec_commands::LONGEST_LINE;
use ec_lists::NoMemory;
use memchr::memchr;
use std::alloc::Global;
use std::marker::Model;

/// The most bytes that are kept of a line: its own, and a carriage return that may stand before its
/// line end.
const ROOM: usize = LONGEST_LINE + 1;

/// Cuts a stream of bytes, which comes in pieces, into lines. It takes its memory when it is made.
///
/// Pieces are pushed until a line is ready; that line is read and cleared, and the rest of the piece
/// is pushed. At the end of the stream `end` makes a line of what is left.
#[derive(Drop)]
pub struct Feed {
    kept: Vec<u8>,
    is_long: bool,
    is_ready: bool,
}

impl Model for Feed {
    ghost use Rattle.std.specs.Prelude.{◌≡◌, ◌+◌, ◌≤◌, true, false, vec_capacity, vec_len};
    ghost use Rattle.ec_commands.specs.Lines.{longest_line};
    ghost use Rattle.ec_lines.specs.FeedState.{FeedState};

    ghost Value = { FeedState };

    ghost view = { λ f. record { kept = f.kept.items; is_long = f.is_long; is_ready = f.is_ready } };

    ghost invariant = { λ f. (longest_line + 1 ≤ vec_capacity f.kept) × (vec_len f.kept ≤ longest_line + 1)
        × (f.is_ready ≡ true → f.is_long ≡ false → vec_len f.kept ≤ longest_line) };
}

impl Feed {
    /// A feed that has taken no byte.
    pub fn new(alloc: Global) -> Result<Feed, NoMemory>
        ensures { IfOk result (λ feed. IsPart feed []) }
    {
        Ok(Feed {
            kept: Vec::with_capacity(alloc, ROOM)?,
            is_long: false,
            is_ready: false,
        })
    }

    /// Takes the bytes of `piece` up to and with its first line end, or all of them where it has none,
    /// and says how many. A line is ready where a line end was taken: its bytes are those taken since
    /// the last line, without the line end and without one carriage return before it.
    pub fn push(&mut self, piece: &[u8]) -> usize
        requires { self.old.is_ready ≡ false }

        // What is taken.
        ensures takes { result ≡ length (take_through line_feed piece.now) }
        ensures within { result ≤ length piece.now }
        ensures progress { 0 < length piece.now → 0 < result }
        ensures ready { IsTrue self.new.is_ready ↔ Contains piece.now line_feed }

        // Without a line end the piece is added to the bytes taken so far; a line end makes a line of them.
        ensures part { self.new.is_ready ≡ false → (bytes : List ℕ) → IsPart self.old bytes → IsPart self.new (bytes ++ piece.now) }
        ensures line { self.new.is_ready ≡ true → (bytes : List ℕ) → IsPart self.old bytes →
            IsReady self.new (without_return (bytes ++ take (result - 1) piece.now)) }

        // In all that was taken since the feed was made, a line is ready exactly when it is the next whole line.
        ensures stream { (stream : List ℕ) → IsPart self.old (cut_of stream).rest →
            Advances self.new.is_ready self.new stream (stream ++ take result piece.now) }
    {
        match memchr(b'\n', piece) {
            Some(at) => {
                self.keep(&piece[..at]);
                self.drop_return();
                self.finish();
                at + 1
            }
            None => {
                self.keep(piece);
                piece.len()
            }
        }
    }

    /// Whether a line is ready.
    pub fn ready(&self) -> bool
        ensures { result ≡ self.now.is_ready }
    {
        self.is_ready
    }

    /// The line that is ready.
    pub fn line(&self) -> Line<'_>
        requires { self.now.is_ready ≡ true }
        ensures shown { (line : List ℕ) → IsReady self.now line → ShowsLine result line }
        ensures short { IfText result (λ bytes. length bytes ≤ LONGEST_LINE) }
    {
        if self.is_long {
            Line::Long
        } else {
            Line::Text(&self.kept)
        }
    }

    /// Lets go of the line that is ready, and begins the next one.
    pub fn clear(&mut self)
        requires { self.old.is_ready ≡ true }
        ensures { IsPart self.new [] }
    {
        self.kept.clear();
        self.is_long = false;
        self.is_ready = false;
    }

    /// Ends the stream. Where bytes of a line were taken, that line is ready as it is: no carriage
    /// return is dropped from it.
    pub fn end(&mut self)
        requires { self.old.is_ready ≡ false }
        ensures line { (bytes : List ℕ) → IsPart self.old bytes → IsEnded self.new bytes }

        // In all that was taken since the feed was made, a line is ready exactly when one stands behind the whole lines.
        ensures stream { (stream : List ℕ) → IsPart self.old (cut_of stream).rest → Finishes self.new.is_ready self.new stream }
    {
        if self.is_long || !self.kept.is_empty() {
            self.finish();
        }
    }

    /// Adds bytes of the line that is being taken.
    fn keep(&mut self, bytes: &[u8])
        requires { self.old.is_ready ≡ false }
        ensures not_ready { self.new.is_ready ≡ false }
        ensures part { (taken : List ℕ) → IsPart self.old taken → IsPart self.new (taken ++ bytes.now) }
    {
        if self.is_long || bytes.len() > ROOM - self.kept.len() {
            self.is_long = true;
            return;
        }
        match self.kept.extend_from_slice(bytes) {
            Ok(()) => {}
            Err(_) => unreachable!(),
        }
    }

    /// Drops a carriage return at the end of the bytes that are kept.
    fn drop_return(&mut self)
        requires { self.old.is_ready ≡ false }
        ensures not_ready { self.new.is_ready ≡ false }
        ensures long { self.new.is_long ≡ self.old.is_long }
        ensures kept { self.new.kept ≡ without_return self.old.kept }
    {
        if ends_with_return(&self.kept) {
            self.kept.pop();
        }
    }

    /// Makes a line of what is kept.
    #[tactic(auto, unfolding(ec_commands::specs::Lines::is_long))]
    fn finish(&mut self)
        ensures ready { self.new.is_ready ≡ true }
        ensures long { self.new.is_long ≡ (self.old.is_long || is_long self.old.kept) }
        ensures kept { self.new.kept ≡ self.old.kept }
    {
        self.is_long = self.is_long || self.kept.len() > LONGEST_LINE;
        self.is_ready = true;
    }
}

/// Whether the last byte is a carriage return.
pub(crate) fn ends_with_return(bytes: &[u8]) -> bool
    ensures { IsTrue result ↔ ((0 < length bytes.now) × (slice_index bytes.now (length bytes.now - 1) ≡ carriage_return)) }
{
    matches!(bytes, [.., b'\r'])
}
