//! Laws of civil time, each the contract of a function.
ghost use Rattle.std.specs.Prelude.{◌≡◌, ℕ, ℤ, pos, List, All, Some, None, codes, length};
ghost use Rattle.ec_moment.specs.Moment.{IsWithin, IsWordByte};
ghost use Rattle.ec_civil.specs.Civil.{civil_value, civil_text};

use crate::limits::MOST_CIVIL;

/// Each rank of the range has a text of 20 bytes that can stand in a word of a line, and that spells the
/// civil time with that rank.
pub fn civil_text_law()
    ensures spelling { (z : ℤ) → IsWithin (pos 0) (pos MOST_CIVIL) z
        → civil_value (civil_text z) ≡ Some z }
    ensures length { (z : ℤ) → IsWithin (pos 0) (pos MOST_CIVIL) z → length (civil_text z) ≡ 20 }
    ensures word { (z : ℤ) → IsWithin (pos 0) (pos MOST_CIVIL) z → All IsWordByte (civil_text z) }
{}

/// What spells a civil time is the text of its rank, which is in the range: each civil time has one
/// spelling.
pub fn one_spelling_law()
    ensures one { (bytes : List ℕ) (z : ℤ) → civil_value bytes ≡ Some z → bytes ≡ civil_text z }
    ensures in_range { (bytes : List ℕ) (z : ℤ) → civil_value bytes ≡ Some z
        → IsWithin (pos 0) (pos MOST_CIVIL) z }
{}

/// What is a civil time at the edges of the definition: the first and the last, leap days, and numbers and
/// bytes that stand next to those of a civil time.
pub fn civil_edges_law()
    ensures first { civil_value (codes "0000-01-01T00:00:00Z") ≡ Some (pos 0) }
    ensures text_of_first { civil_text (pos 0) ≡ codes "0000-01-01T00:00:00Z" }
    ensures last { civil_value (codes "9999-12-31T23:59:59Z") ≡ Some (pos MOST_CIVIL) }
    ensures text_of_last { civil_text (pos MOST_CIVIL) ≡ codes "9999-12-31T23:59:59Z" }
    ensures year_1970 { civil_value (codes "1970-01-01T00:00:00Z") ≡ Some (pos 62167219200) }
    ensures leap_year_0 { civil_value (codes "0000-02-29T00:00:00Z") ≡ Some (pos 5097600) }
    ensures leap_year_2000 { civil_value (codes "2000-02-29T12:30:45Z") ≡ Some (pos 63119046645) }
    ensures leap_year_2024 { civil_value (codes "2024-02-29T09:00:00Z") ≡ Some (pos 63876416400) }
    ensures no_leap_year_1900 { civil_value (codes "1900-02-29T00:00:00Z") ≡ None }
    ensures no_leap_year_2023 { civil_value (codes "2023-02-29T00:00:00Z") ≡ None }
    ensures month_0 { civil_value (codes "2024-00-10T00:00:00Z") ≡ None }
    ensures month_13 { civil_value (codes "2024-13-10T00:00:00Z") ≡ None }
    ensures day_0 { civil_value (codes "2024-04-00T00:00:00Z") ≡ None }
    ensures day_31 { civil_value (codes "2024-04-31T00:00:00Z") ≡ None }
    ensures hour_24 { civil_value (codes "2024-06-30T24:00:00Z") ≡ None }
    ensures minute_60 { civil_value (codes "2024-06-30T23:60:00Z") ≡ None }
    ensures second_60 { civil_value (codes "2024-06-30T23:59:60Z") ≡ None }
    ensures colon_for_year { civil_value (codes ":000-01-01T00:00:00Z") ≡ None }
    ensures colon_for_month { civil_value (codes "2024-:1-01T00:00:00Z") ≡ None }
    ensures colon_for_second { civil_value (codes "2024-01-01T00:00:0:Z") ≡ None }
    ensures small_t { civil_value (codes "2024-06-30t00:00:00Z") ≡ None }
    ensures small_z { civil_value (codes "2024-06-30T00:00:00z") ≡ None }
    ensures no_zone { civil_value (codes "2024-06-30T00:00:00") ≡ None }
    ensures blank_behind { civil_value (codes "2024-06-30T00:00:00Z ") ≡ None }
    ensures empty { civil_value (codes "") ≡ None }
{}
