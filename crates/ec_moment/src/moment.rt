//! What every kind of time has in common.
ghost use Rattle.std.specs.Prelude.{◌≡◌, ℕ, ℤ, ◌≤◌, ◌<ℤ◌, List, Option, Some, None, All, IfSome, IfNone, length};
ghost use Rattle.std.specs.Ordering.{MatchOrdering, int_cmp};
ghost use Rattle.ec_moment.specs.Moment.{IsWithin, IsWordByte};

use crate::limits::LONGEST_MOMENT;
use crate::moment_text::MomentText;
use std::cmp::Ordering;

/// A kind of time: points in a total order, each with a spelling.
///
/// Code that is generic in its time knows a moment by its `rank`, a whole number, and by nothing else.
/// Two moments with the same rank are the same moment. The rank of a moment that a program holds lies
/// from `LEAST` to `MOST`; each call says so of the moments that it takes and gives.
pub trait Moment: Copy {
    // The place of a moment in the order of its kind.
    ghost rank: { Self → ℤ };

    // The rank before which no moment of this kind lies.
    ghost LEAST: { ℤ };

    // The rank behind which no moment of this kind lies.
    ghost MOST: { ℤ };

    // The rank of the moment that these bytes spell, all of them together, or none.
    ghost spelt: { List ℕ → Option ℤ };

    // The canonical text of the moment with this rank.
    ghost canon: { ℤ → List ℕ };

    /// Whether this moment is before the other, the same or after it.
    fn order(&self, other: &Self) -> Ordering
        ensures order { result ≡ int_cmp (rank self.now) (rank other.now) }
        ensures answer { MatchOrdering result (rank self.now <ℤ rank other.now) (rank self.now ≡ rank other.now) (rank other.now <ℤ rank self.now) }
        ensures in_range { IsWithin LEAST MOST (rank self.now) }
        ensures other_in_range { IsWithin LEAST MOST (rank other.now) };

    /// The moment that the whole of `bytes` spells. `None` exactly when they spell none.
    fn read(bytes: &[u8]) -> Option<Self>
        ensures value { IfSome result (λ moment. spelt bytes.now ≡ Some (rank moment)) }
        ensures none { IfNone result (spelt bytes.now ≡ None) }
        ensures in_range { IfSome result (λ moment. IsWithin LEAST MOST (rank moment)) };

    /// The canonical text of this moment, which is one of its spellings: 1 to `LONGEST_MOMENT` bytes that can stand
    /// in a word of a line.
    fn text(&self) -> MomentText
        ensures canonical { result ≡ canon (rank self.now) }
        ensures spelling { spelt result ≡ Some (rank self.now) }
        ensures nonempty { 1 ≤ length result }
        ensures short { length result ≤ LONGEST_MOMENT }
        ensures word { All IsWordByte result }
        ensures in_range { IsWithin LEAST MOST (rank self.now) };

    // Equal ranks are equal moments.
    ghost same_moment: { (a b : Self) → rank a ≡ rank b → a ≡ b };
}
