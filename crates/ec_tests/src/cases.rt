//! Tables of runs.
//!
//! A table is one text. Each row of it is a run, and says what the run has, in parts between ` ; `, and behind `=>` its status
//! and what it writes:
//!
//! ```text
//! # the lines end at a fault
//! theory LAMP ; input assert p 5 plug|quit|
//! read 2 fails ; reads 16 => 4 ok|
//! write 3 fails ; writes 1 => 5 ok
//! limit 16 => 8 ok|
//! words check,t.ec => 0 accepted rules 2 exclusives 0 strongs 0|
//! ```
//!
//! A line without `=>` says what all runs behind it have, where they say nothing else; a line that begins with `#` is a heading.
//! A part is a word and its value:
//!
//! - `words`, `theory`, `lines`, `certificate`, `input`, `reads`, `writes` and `limit` are the fields of a `Case`; in their texts `|`
//!   is a line end, and `{12 text}` the text twelve times;
//! - `file 1 fails`, `read 2 fails`, `write 3 fails` and `flush 4 fails` name a call that fails;
//! - `gives` is what stands behind the `=>` of rows that have nothing there.
use crate::whole::{Case, SERVED, comes_out};
use std::alloc::Global;
use std::process::Abort;

/// The number that a text begins with.
fn number(rt: &impl Abort, text: &str) -> u64 {
    let (digits, _) = text.split_once(' ').unwrap_or((text, ""));
    digits.parse::<u64>().ok().expect(rt, text)
}

/// Notes the status and the bytes that a run is to come to. Where nothing is told, those that it has stay.
fn set_told<'a>(rt: &impl Abort, case: &mut Case<'a>, told: &'a str) {
    if !told.is_empty() {
        let (status, written) = told.split_once(' ').unwrap_or((told, ""));
        case.status = status.parse::<u8>().ok().expect(rt, told);
        case.written = written;
    }
}

/// Notes a number.
fn set_number(rt: &impl Abort, case: &mut Case<'_>, name: &str, number: u64) {
    match name {
        "writes" => case.writes = number as usize,
        "limit" => case.limit = Some(number),
        "file" => case.failing.file = number,
        "read" => case.failing.read = number,
        "write" => case.failing.write = number,
        "flush" => case.failing.flush = number,
        _ => assert!(rt; false, "no part is named {name}"),
    }
}

/// Notes a part.
fn set<'a>(rt: &impl Abort, case: &mut Case<'a>, part: &'a str) {
    let (name, value) = part.split_once(' ').unwrap_or((part, ""));
    match name {
        "" => {}
        "words" => case.words = value,
        "theory" => case.theory = value,
        "lines" => case.lines = value,
        "certificate" => case.certificate = value,
        "input" => case.input = value,
        "reads" => case.reads = value,
        "gives" => set_told(rt, case, value),
        _ => set_number(rt, case, name, number(rt, value)),
    }
}

/// Notes all parts of a line.
pub fn set_all<'a>(rt: &impl Abort, case: &mut Case<'a>, parts: &'a str) {
    for part in parts.split(" ; ") {
        set(rt, case, part);
    }
}

/// Whether a run comes out, in pieces of each of its lengths.
pub fn is_met(rt: &impl Abort, alloc: Global, case: &Case<'_>) -> bool {
    let mut met = true;
    for most in case.reads.split(',') {
        met = met && comes_out(rt, alloc, case, number(rt, most) as usize);
    }
    met
}

/// Whether the run of a row comes out, where it has what was given. A line that is no row is noted there, or is a heading.
fn is_told<'a>(rt: &impl Abort, alloc: Global, given: &mut Case<'a>, row: &'a str) -> bool {
    let mut case = *given;
    match row.split_once(" =>") {
        Some((parts, told)) => {
            set_all(rt, &mut case, parts);
            set_told(rt, &mut case, told.trim());
            is_met(rt, alloc, &case)
        }
        None => {
            if !row.starts_with('#') {
                set_all(rt, given, row);
            }
            true
        }
    }
}

/// Runs all rows of a table, where they have what is given, and stops at the first that does not come out.
pub fn run_all(rt: &impl Abort, alloc: Global, given: &str, table: &str) {
    let mut case = SERVED;
    set_all(rt, &mut case, given);
    for row in table.lines() {
        assert!(rt; is_told(rt, alloc, &mut case, row), "{row}");
    }
}
