//! Whole numbers of 64 bits as they are written in theories and lines.
ghost use Rattle.std.specs.Prelude.{◌≡◌, ◌^◌, ◌≤◌, IfSome, IfNone, IsTrue, SomeIff};
ghost use Rattle.std.specs.Str.Parse.{digits_value, starts_with_minus};
ghost use Rattle.ec_moment.specs.Number.{IsNumber, is_digit_run, number_value, with_sign, without_minus};

use crate::limits::MOST_DIGITS;

/// The value of 1 to `MOST_DIGITS` digits. `None` for any other bytes, and for a value of 2^64 and more.
fn read_digits(digits: &[u8]) -> Option<u64>
    ensures value { IfSome result (λ n. n ≡ digits_value 10 digits.now) }
    ensures run { IfSome result (λ _. IsTrue (is_digit_run digits.now)) }
    ensures none { IfNone result (IsTrue (is_digit_run digits.now) → 2 ^ 64 ≤ digits_value 10 digits.now) }
{
    if digits.is_empty() || digits.len() > MOST_DIGITS {
        return None;
    }
    let mut value: u64 = 0;
    for digit in digits {
        if !digit.is_ascii_digit() {
            return None;
        }
        value = value
            .checked_mul(10)?
            .checked_add(u64::from(*digit - b'0'))?;
    }
    Some(value)
}

/// Whether `bytes` begins with a `-`, and what stands behind it.
fn split_sign(bytes: &[u8]) -> (bool, &[u8])
    ensures sign { result.0 ≡ starts_with_minus bytes.now }
    ensures rest { result.1.now ≡ without_minus bytes.now }
{
    match bytes {
        [b'-', rest @ ..] => (true, rest),
        _ => (false, bytes),
    }
}

/// The number with this sign and magnitude. `None` where it is no `i64`.
fn signed(is_negative: bool, magnitude: u64) -> Option<i64>
    ensures { SomeIff result (IsNumber (with_sign is_negative magnitude)) (with_sign is_negative magnitude) }
{
    let magnitude = i128::from(magnitude);
    let value = if is_negative { -magnitude } else { magnitude };
    i64::try_from(value).ok()
}

/// Reads a number from the whole of `bytes`: an optional `-` and 1 to 20 digits, with a value from
/// `i64::MIN` to `i64::MAX`. Leading zeros and `-0` are allowed; a `+`, a blank or any other byte is
/// not. `None` exactly when the bytes spell no number.
pub fn read_number(bytes: &[u8]) -> Option<i64>
    ensures exact { result ≡ number_value bytes.now }
{
    let (is_negative, digits) = split_sign(bytes);
    signed(is_negative, read_digits(digits)?)
}
