//! The first line of a text, and the text behind it.
use crate::tables::{bytes_of, row_of};
use ec_lines::{Line, split_line};
use std::alloc::Global;
use std::process::Abort;

/// Texts, each with its first line, between two `/`, and what stands behind it. A long line is told as `LONG`.
const TEXTS: &str = "
# a line ends at a line end, and with one carriage return less
a|b|c => /a/b|c
a| => /a/
| => //
||a => //|a
a\r|b => /a/b
\r|b => //b
a\r\r|b\r| => /a\r/b\r|
% a\tb |c => /% a\tb /c
# a carriage return alone ends none
a\rb|c => /a\rb/c
a\r => /a\r/
\r => /\r/
# the last line may be without its end
a => /a/
a b => /a b/
# lines of 4096 bytes, and longer ones
{4096 a}|b => /{4096 a}/b
{4096 a}\r|b => /{4096 a}/b
{4096 a} => /{4096 a}/
{4097 a}|b => /LONG/b
{4097 a} => /LONG/
{4096 a}\r\r|b => /LONG/b
{4096 a}\r => /LONG/
{9000 a}|{5000 b} => /LONG/{5000 b}
";

/// Whether a line is told so.
fn is_line(line: Line<'_>, told: &[u8]) -> bool {
    match line {
        Line::Text(bytes) => bytes == told,
        Line::Long => told == b"LONG".as_slice(),
    }
}

/// Whether a text begins with a line that is told so, and has this behind it.
fn splits(bytes: &[u8], told: &[u8], rest: &[u8]) -> bool {
    match split_line(bytes) {
        Some((line, behind)) => is_line(line, told) && behind == rest,
        None => false,
    }
}

/// The line and the rest that a row tells.
fn told_of<'a>(rt: &impl Abort, told: &'a str) -> (&'a str, &'a str) {
    let told = told.strip_prefix('/').expect(rt, told);
    told.split_once('/').expect(rt, told)
}

/// Whether a text that is spelt is split as its row tells.
fn row_splits(rt: &impl Abort, alloc: Global, spelt: &str, wanted: &str) -> bool {
    let (line, rest) = told_of(rt, wanted);
    let text = bytes_of(alloc, spelt).expect(rt, "memory");
    let line = bytes_of(alloc, line).expect(rt, "memory");
    let rest = bytes_of(alloc, rest).expect(rt, "memory");
    splits(&text, &line, &rest)
}

#[test]
fn first_lines_are_split_off(rt: HostRuntime) {
    for row in TEXTS.lines() {
        if let Some((spelt, wanted)) = row_of(row) {
            assert!(rt; row_splits(&rt, rt.alloc(), spelt, wanted), "{row}");
        }
    }
}

#[test]
fn an_empty_text_has_no_line(rt: HostRuntime) {
    assert!(rt; split_line(b"").is_none());
}
