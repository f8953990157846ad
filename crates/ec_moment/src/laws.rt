//! Laws of moments, each the contract of a function.
ghost use Rattle.std.specs.Prelude.{◌≡◌, ℤ, pos, negsuc, ◌≤◌, Some, None, All, codes, length};
ghost use Rattle.ec_moment.specs.Moment.{IsWithin};
ghost use Rattle.ec_moment.specs.Number.{IsNumber, IsNumberByte, number_text, number_value};

use crate::limits::MOST_DIGITS;
use crate::moment::Moment;

/// The canonical text of a moment spells that moment and no other, whatever its kind: reading its text
/// gives the moment back.
pub fn read_back<T: Moment>(moment: T) -> Option<T>
    ensures same { result ≡ Some moment }
    ensures spelling { T.spelt (T.canon (T.rank moment)) ≡ Some (T.rank moment) }
    ensures in_range { IsWithin T.LEAST T.MOST (T.rank moment) }
{
    T::read(moment.text().as_bytes())
}

/// The canonical text of a number spells that number. It has 1 to `MOST_DIGITS` bytes, each a digit or `-`.
pub fn number_text_law()
    ensures spelling { (z : ℤ) → IsNumber z → number_value (number_text z) ≡ Some z }
    ensures nonempty { (z : ℤ) → IsNumber z → 1 ≤ length (number_text z) }
    ensures short { (z : ℤ) → IsNumber z → length (number_text z) ≤ MOST_DIGITS }
    ensures bytes { (z : ℤ) → IsNumber z → All IsNumberByte (number_text z) }
{}

/// What is a number at the edges of the definition: the ends of the range, leading zeros, 20 digits and
/// 21, and every kind of byte that a number does not hold.
pub fn number_edges_law()
    ensures most { number_value (codes "9223372036854775807") ≡ Some (pos 9223372036854775807) }
    ensures above_most { number_value (codes "9223372036854775808") ≡ None }
    ensures least { number_value (codes "-9223372036854775808") ≡ Some (negsuc 9223372036854775807) }
    ensures below_least { number_value (codes "-9223372036854775809") ≡ None }
    ensures twenty_digits { number_value (codes "00000000000000000007") ≡ Some (pos 7) }
    ensures twenty_one_digits { number_value (codes "000000000000000000000") ≡ None }
    ensures largest_run { number_value (codes "99999999999999999999") ≡ None }
    ensures minus_zero { number_value (codes "-0") ≡ Some (pos 0) }
    ensures minus_alone { number_value (codes "-") ≡ None }
    ensures two_minuses { number_value (codes "--1") ≡ None }
    ensures empty { number_value (codes "") ≡ None }
    ensures plus { number_value (codes "+5") ≡ None }
    ensures blank_before { number_value (codes " 5") ≡ None }
    ensures blank_behind { number_value (codes "5 ") ≡ None }
    ensures letter { number_value (codes "1a") ≡ None }
{}
