//! The numbers of a civil time: read off a text, written as one, and to a rank and back.
ghost use Rattle.std.specs.Prelude.{◌≡◌, ◌+◌, ◌<◌, ◌≤◌, ◌++◌, ◌↔◌, pos, length, IsTrue, IsSome, IfSome};
ghost use Rattle.ec_civil.specs.Civil as civil;

use crate::limits::{DAYS, MOST_CIVIL, TEXT_LENGTH};
use ec_moment::{LONGEST_MOMENT, MomentText};
use jiff::civil::Date;
use jiff_core::civil::Date as PlainDate;

/// The seconds of a day.
const DAY: u64 = 86_400;

/// The day number of 1970-01-01, from which jiff counts days.
const EPOCH: i32 = 719_528;

/// The days from -9999-01-01, which is jiff's first, to 0000-01-01.
const BEFORE_YEAR_0: u32 = 3_652_059;

/// The numbers of a civil time, as its text has them. They may be those of no day or no time of day.
#[derive(Clone, Copy)]
pub(crate) struct Stamp {
    year: u32,
    month: u32,
    day: u32,
    hour: u32,
    minute: u32,
    second: u32,
}

impl Stamp {
    /// The numbers at their places in bytes that may be the text of a civil time.
    pub(crate) fn at_places(bytes: &[u8]) -> Stamp
        requires length { length bytes.now ≡ TEXT_LENGTH }
        ensures { result ≡ civil.stamp_at bytes.now }
    {
        Stamp {
            year: two_at(bytes, 0) * 100 + two_at(bytes, 2),
            month: two_at(bytes, 5),
            day: two_at(bytes, 8),
            hour: two_at(bytes, 11),
            minute: two_at(bytes, 14),
            second: two_at(bytes, 17),
        }
    }

    /// The day, counted from 0000-01-01 on. `None` where the calendar has no such day.
    fn day_number(self) -> Option<u64>
        ensures day { IsSome result ↔ IsTrue (civil.is_day self) }
        ensures value { IfSome result (λ days. pos days ≡ civil.day_number self) }
        ensures within { IfSome result (λ days. days < DAYS) }
    {
        if self.year > 9999 || self.month > 12 || self.day > 31 {
            return None;
        }
        match Date::new(self.year as i16, self.month as i8, self.day as i8) {
            Ok(date) => Some((date.to_plain().to_unix_epoch_day() + EPOCH) as u64),
            Err(_) => None,
        }
    }

    /// Whether the numbers are those of a time of day.
    fn is_time_of_day(self) -> bool
        ensures { result ≡ civil.is_time_of_day self }
    {
        self.hour < 24 && self.minute < 60 && self.second < 60
    }

    /// The rank. `None` where the numbers are those of no civil time.
    pub(crate) fn rank(self) -> Option<u64>
        ensures civil { IsSome result ↔ IsTrue (civil.is_civil self) }
        ensures value { IfSome result (λ rank. pos rank ≡ civil.civil_rank self) }
        ensures within { IfSome result (λ rank. rank ≤ MOST_CIVIL) }
    {
        let days = self.day_number()?;
        if !self.is_time_of_day() {
            return None;
        }
        Some(days * DAY + u64::from(self.hour * 3600 + self.minute * 60 + self.second))
    }

    /// The numbers of the civil time with this rank.
    pub(crate) fn of_rank(rank: u64) -> Stamp
        requires in_range { rank ≤ MOST_CIVIL }
        ensures value { result ≡ civil.stamp_of_rank rank }
        ensures civil { IsTrue (civil.is_civil result) }
    {
        let date = PlainDate::from_days_since_min((rank / DAY) as u32 + BEFORE_YEAR_0);
        let second = (rank % DAY) as u32;
        Stamp {
            year: u32::from(date.year.unsigned_abs()),
            month: u32::from(date.month),
            day: u32::from(date.day),
            hour: second / 3600,
            minute: second % 3600 / 60,
            second: second % 60,
        }
    }

    /// The text of a civil time.
    pub(crate) fn text(self) -> MomentText
        requires civil { IsTrue (civil.is_civil self) }
        ensures { result ≡ civil.stamp_text self }
    {
        let mut text = MomentText::new();
        push_two(&mut text, self.year / 100);
        push_two(&mut text, self.year % 100);
        text.push_str("-");
        push_two(&mut text, self.month);
        text.push_str("-");
        push_two(&mut text, self.day);
        text.push_str("T");
        push_two(&mut text, self.hour);
        text.push_str(":");
        push_two(&mut text, self.minute);
        text.push_str(":");
        push_two(&mut text, self.second);
        text.push_str("Z");
        text
    }
}

/// The number that the two bytes at a place spell, where these are digits.
fn two_at(bytes: &[u8], place: usize) -> u32
    requires within { place + 1 < length bytes.now }
    ensures value { result ≡ civil.two_at bytes.now place }
    ensures bound { result < 3_000 }
{
    let tens = bytes[place].saturating_sub(b'0');
    let ones = bytes[place + 1].saturating_sub(b'0');
    u32::from(tens) * 10 + u32::from(ones)
}

/// Adds a number below 100 in two digits.
fn push_two(text: &mut MomentText, number: u32)
    requires number { number < 100 }
    requires room { length text.old + 2 ≤ LONGEST_MOMENT }
    ensures { text.new ≡ text.old ++ civil.two_digits number }
{
    text.push_digit((number / 10) as u8);
    text.push_digit((number % 10) as u8);
}
