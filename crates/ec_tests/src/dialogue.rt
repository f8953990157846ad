//! Tables of dialogues: the lines of one run beside their replies.
//!
//! ```text
//! # what the dialogue shows ; theory ROOMS initially powered(a).
//! assert p 5 plug(a) => ok
//! % a line without a reply =>
//! 1..20: assert q* * push(bob,r+) => ok
//! ```
//!
//! A dialogue begins at its heading, where parts may stand that its run has, as in `cases`. A row that begins with a range is a line
//! for each number, which stands in place of `*`, and its rest by 257 in place of `+`.
use crate::cases::{is_met, set_all};
use crate::whole::{Case, SERVED};
use std::alloc::Global;
use std::process::Abort;
use std::string::String;

/// Many lines, and the replies to them.
#[derive(Drop)]
pub struct Script {
    /// The lines with their ends.
    pub lines: String,
    /// The replies with their ends.
    pub replies: String,
}

/// Adds a line and its end to a text.
fn push_line(rt: &impl Abort, text: &mut String, line: &str) {
    text.push_str(line).expect(rt, "memory");
    text.push('\n').expect(rt, "memory");
}

/// A text with a number in place of `*`, and with its rest by 257 in place of `+`.
fn numbered(rt: &impl Abort, alloc: Global, text: &str, number: u32) -> String {
    let mut told = String::new(alloc);
    let rest = number % 257;
    for letter in text.chars() {
        let added = match letter {
            '*' => write!(told, "{number}"),
            '+' => write!(told, "{rest}"),
            _ => told.push(letter),
        };
        added.expect(rt, "memory");
    }
    told
}

impl Script {
    /// No lines.
    pub fn new(alloc: Global) -> Script {
        Script {
            lines: String::new(alloc),
            replies: String::new(alloc),
        }
    }

    /// Adds a line and its reply, both without their ends. A line that gets no reply has an empty one here.
    pub fn add(&mut self, rt: &impl Abort, line: &str, reply: &str) {
        push_line(rt, &mut self.lines, line);
        if !reply.is_empty() {
            push_line(rt, &mut self.replies, reply);
        }
    }

    /// Adds a line and its reply for each number of a range.
    fn add_range(&mut self, rt: &impl Abort, alloc: Global, range: &str, row: (&str, &str)) {
        let (first, last) = range.split_once("..").expect(rt, range);
        let first = first.parse::<u32>().ok().expect(rt, range);
        let last = last.parse::<u32>().ok().expect(rt, range);
        for number in first..=last {
            let line = numbered(rt, alloc, row.0, number);
            let reply = numbered(rt, alloc, row.1, number);
            self.add(rt, line.as_str(), reply.as_str());
        }
    }

    /// Adds what a row tells: a line and its reply, or one for each number.
    fn add_row(&mut self, rt: &impl Abort, alloc: Global, told: &str, reply: &str) {
        match told.split_once(": ") {
            Some((range, line)) => self.add_range(rt, alloc, range, (line, reply)),
            None => self.add(rt, told, reply),
        }
    }

    /// Adds all rows of a table. Each line is one: a line without an arrow ends the test, so that none is passed over.
    pub fn add_all(&mut self, rt: &impl Abort, alloc: Global, table: &str) {
        for row in table.lines() {
            let (told, reply) = row.split_once(" =>").expect(rt, row);
            self.add_row(rt, alloc, told, reply.trim());
        }
    }
}

/// Whether the lines of a dialogue get their replies, in a run that has what is given and these parts.
fn is_told<'a>(
    rt: &impl Abort,
    alloc: Global,
    given: &Case<'a>,
    parts: &'a str,
    rows: &str,
) -> bool {
    let mut script = Script::new(alloc);
    script.add_all(rt, alloc, rows);
    let mut parted = *given;
    set_all(rt, &mut parted, parts);
    let case = Case {
        input: script.lines.as_str(),
        written: script.replies.as_str(),
        ..parted
    };
    is_met(rt, alloc, &case)
}

/// Runs all dialogues of a table, where they have what is given, and stops at the first whose lines do not get their replies.
pub fn tell_all(rt: &impl Abort, alloc: Global, given: &str, table: &str) {
    let mut case = SERVED;
    set_all(rt, &mut case, given);
    for dialogue in table.split('#') {
        if let Some((heading, rows)) = dialogue.split_once('\n') {
            let (shows, parts) = heading.split_once(" ; ").unwrap_or((heading, ""));
            assert!(rt; is_told(rt, alloc, &case, parts, rows), "{shows}");
        }
    }
}
