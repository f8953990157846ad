//! Reading a number of accepted updates.
ghost use Rattle.std.specs.Prelude.{◌≡◌, ◌<◌, ◌≤◌, ◌^◌, ◌&&◌, nat_le, length, IfNone, IfSome, IsTrue};
ghost use Rattle.std.specs.Char.{is_ascii_digit};
ghost use Rattle.std.specs.List.{list_all};
ghost use Rattle.std.specs.Str.Parse.{digits_value};
ghost use Rattle.ec_commands.specs.Commands.{count_value};

use std::str;

/// Whether a word has no other bytes than decimal digits.
fn has_digits_alone(word: &[u8]) -> bool
    ensures { result ≡ list_all is_ascii_digit word.now }
{
    word.iter().all(|byte| byte.is_ascii_digit())
}

/// Whether a word is 1 to 20 decimal digits.
fn is_digits(word: &[u8]) -> bool
    ensures { result ≡ (nat_le 1 (length word.now) && nat_le (length word.now) 20 && list_all is_ascii_digit word.now) }
{
    !word.is_empty() && word.len() <= 20 && has_digits_alone(word)
}

/// The value of decimal digits. `None` if it is 2^64 or more.
fn value_of_digits(digits: &[u8]) -> Option<u64>
    requires some { 0 < length digits.now }
    requires digits { IsTrue (list_all is_ascii_digit digits.now) }
    ensures value { IfSome result (λ value. value ≡ digits_value 10 digits.now) }
    ensures none { IfNone result (2 ^ 64 ≤ digits_value 10 digits.now) }
{
    let text = str::from_utf8(digits).ok()?;
    text.parse::<u64>().ok()
}

/// The number of accepted updates that a word spells: 1 to 20 digits, with a value below 2^64. Leading zeros are allowed, a sign is
/// not. `None` exactly when it spells none.
#[tactic(auto, unfolding(ec_commands::specs::Commands::count_value))]
pub(crate) fn read_count(word: &[u8]) -> Option<u64>
    ensures { result ≡ count_value word.now }
{
    if is_digits(word) {
        value_of_digits(word)
    } else {
        None
    }
}
