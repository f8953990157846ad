//! Texts, and their tokens.
use crate::tables::{bytes_of, row_of};
use ec_theory::{MOST_BYTES, Place, Token, TokenFault, TokenKind, TokenList, tokens};
use std::alloc::{AllocError, Global};
use std::process::Abort;

/// The letter of a kind.
fn letter(kind: TokenKind) -> &'static str {
    match kind {
        TokenKind::Name => "n",
        TokenKind::Variable => "v",
        TokenKind::Number => "d",
        TokenKind::Mark => "m",
    }
}

/// A fault, and the line and the column of its place.
fn fault_told(alloc: Global, fault: TokenFault) -> Result<String, AllocError> {
    let nowhere = Place { line: 0, col: 0 };
    let (name, Place { line, col }) = match fault {
        TokenFault::BadByte(place) => ("byte", place),
        TokenFault::LongName(place) => ("long-name", place),
        TokenFault::BigNumber(place) => ("number", place),
        TokenFault::Memory => ("memory", nowhere),
    };
    format!(in alloc; "{name} {line}:{col}")
}

/// Adds a token, with its kind, its place and its length.
fn tell(rt: &impl Abort, lines: &mut String, token: &Token<'_>) {
    let kind = letter(token.kind);
    let Place { line, col } = token.place;
    let length = token.text.len();
    write!(lines, "{kind}{line}:{col}+{length} ").expect(rt, "memory");
}

/// All tokens, and the place of their end.
fn all_told(rt: &impl Abort, alloc: Global, list: &TokenList<'_>) -> String {
    let mut lines = String::new(alloc);
    for token in list.as_slice() {
        tell(rt, &mut lines, token);
    }
    let Place { line, col } = list.end();
    write!(lines, "end {line}:{col}").expect(rt, "memory");
    lines
}

/// The tokens of a text and its end, or its fault.
fn told(rt: &impl Abort, alloc: Global, bytes: &[u8]) -> String {
    assert!(rt; bytes.len() <= MOST_BYTES);
    match tokens(alloc, bytes) {
        Ok(list) => all_told(rt, alloc, &list),
        Err(fault) => fault_told(alloc, fault).expect(rt, "memory"),
    }
}

/// Whether a text has what stands behind the arrow of its row.
fn is_told(rt: &impl Abort, alloc: Global, spelt: &str, wanted: &str) -> bool {
    let text = bytes_of(alloc, spelt).expect(rt, "memory");
    told(rt, alloc, &text).as_str() == wanted
}

/// Each text, and its tokens.
const TEXTS: &str = "
 => end 1:1
 \t\r|| => end 3:1
% no end => end 1:9
a_B9 Xy_z\r| _a => n1:1+4 v1:6+4 m2:2+1 n2:3+1 end 2:4
-0,007-5 => d1:1+2 m1:3+1 d1:4+3 d1:7+2 end 1:9
12ab => d1:1+2 n1:3+2 end 1:5
<=<!===(_)./ => m1:1+2 m1:3+1 m1:4+2 m1:6+1 m1:7+1 m1:8+1 m1:9+1 m1:10+1 m1:11+1 m1:12+1 end 1:13
a%b;|\tc => n1:1+1 n2:2+1 end 2:3
00000000000000000007 => d1:1+20 end 1:21
-9223372036854775808 => d1:1+20 end 1:21
# a byte that begins no token, and a minus without a digit
a|b;c => byte 2:2
a - 5 => byte 1:3
a => n1:1+1 end 1:2
\u{e9} => byte 1:1
# names of 64 and of 65 bytes
{64 a} => n1:1+64 end 1:65
x| {65 a} => long-name 2:2
x {65 V} => long-name 1:3
# numbers of too many digits, and out of range
000000000000000000007 => number 1:1
- 9223372036854775808 => byte 1:1
1,9223372036854775808 => number 1:3
1,-9223372036854775809 => number 1:3
# the first fault is told
a ; 9223372036854775808 => byte 1:3
9223372036854775808 ; => number 1:1
";

#[test]
fn texts(rt: HostRuntime) {
    for row in TEXTS.lines() {
        if let Some((spelt, wanted)) = row_of(row) {
            assert!(rt; is_told(&rt, rt.alloc(), spelt, wanted), "{row}");
        }
    }
}
