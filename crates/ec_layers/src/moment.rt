use crate::tables::row_of;
use crate::terms::displays;
use ec_moment::{Moment, MomentText, Tick, read_back, read_number};
use std::alloc::Global;
use std::cmp::Ordering;

/// Spellings and the number that each spells, if it spells one.
const SPELLINGS: &str = "
9223372036854775807 => 9223372036854775807
9223372036854775808 => none
-9223372036854775808 => -9223372036854775808
-9223372036854775809 => none
00000000000000000007 => 7
-00000000000000000007 => -7
000000000000000000000 => none
18446744073709551616 => none
-0 => 0
- => none
--1 => none
 => none
+5 => none
 5 => none
5  => none
1a => none
5- => none
42 => 42
";

/// Whether a spelling is read as this number, also as a time.
fn reads(spelt: &[u8], number: Option<i64>) -> bool {
    let tick = match Tick::read(spelt) {
        Some(tick) => Some(tick.0),
        None => None,
    };
    read_number(spelt) == number && tick == number
}

/// Whether a spelling is read as the number that is told, or as none.
fn is_read(spelt: &str, told: &str) -> bool {
    reads(spelt.as_bytes(), told.parse::<i64>().ok())
}

#[test]
fn reads_each_spelling(rt: HostRuntime) {
    for line in SPELLINGS.lines() {
        if let Some((spelt, number)) = row_of(line) {
            assert!(rt; is_read(spelt, number), "{line}");
        }
    }
}

/// Calls each method of a kind of time through its bound.
fn agrees<T: Moment>(earlier: &[u8], later: &[u8], text: &[u8]) -> bool {
    let (Some(earlier), Some(later)) = (T::read(earlier), T::read(later)) else {
        return false;
    };
    earlier.order(&later) == Ordering::Less
        && later.order(&earlier) == Ordering::Greater
        && earlier.order(&earlier) == Ordering::Equal
        && earlier.text().as_bytes() == text
        && read_back(later).is_some()
}

/// Whether the least and the largest times, and times that are spelt in several ways, agree.
fn all_agree<T: Moment>() -> bool {
    agrees::<T>(b"-9223372036854775808", b"-1", b"-9223372036854775808")
        && agrees::<T>(b"-010", b"-9", b"-10")
        && agrees::<T>(b"-0", b"007", b"0")
        && agrees::<T>(
            b"9223372036854775806",
            b"9223372036854775807",
            b"9223372036854775806",
        )
        && !agrees::<T>(b"10", b"9", b"10")
}

#[test]
fn generic_code_reads_orders_and_writes(rt: HostRuntime) {
    assert!(rt; all_agree::<Tick>());
}

/// Whether a text is as long as this one, not empty, and shown so.
fn shows(alloc: Global, text: &MomentText, wanted: &str) -> bool {
    text.len() == wanted.len() && !text.is_empty() && displays(alloc, text, wanted)
}

#[test]
fn shows_a_text(rt: HostRuntime) {
    let mut text = MomentText::default();
    let empty = text.is_empty();
    text.push_str(Tick(-12).text().as_str());
    assert!(rt; empty && shows(rt.alloc(), &text, "-12"));
}
