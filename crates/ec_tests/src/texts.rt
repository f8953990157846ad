//! Texts that a table names: theories, and bytes that no text of a table can have.
use ec_layers::tables::bytes_of;
use std::alloc::Global;
use std::process::Abort;

/// One lamp that has power or not.
const LAMP: &[u8] = b"initiates plug powered. terminates unplug powered.";

/// Lamps by name that have power or not.
const LAMPS: &[u8] = b"initiates plug(L) powered(L). terminates unplug(L) powered(L).";

/// Rooms and lamps: what is pushed lights up where there is power, and nobody is at two places.
const ROOMS: &[u8] = b"initiates push(P,L) lit(L) if powered(L), not lit(L).
terminates push(P,L) lit(L) if lit(L).
initiates plug(L) powered(L).
terminates unplug(L) powered(L).
terminates unplug(L) lit(L).
initiates move(P,Y) at(P,Y).
terminates leave(P,Y) at(P,Y).
exclusive at(X,Y) at(X,Z).
";

/// A lending library: only members borrow, and a book is lent to one of them at a time.
const LIBRARY: &[u8] = b"% a lending library
initiates borrow(M,B) has_book(M,B) if member(M), not lent(B).
initiates borrow(M,B) lent(B) if member(M), not lent(B).
terminates return(M,B) has_book(M,B).
terminates return(M,B) lent(B).
initiates join(M) member(M).
terminates leave(M) member(M).
initiates shelve(B,S) place(B,S).
exclusive place(B,X) place(B,Y).
";

/// Who sees a place is looked up at it sixteen times, and nobody is at two places.
const SEEN: &[u8] =
    b"initiates see(P,Y) seen if at(P,Y), at(P,Y), at(P,Y), at(P,Y), at(P,Y), at(P,Y), at(P,Y), at(P,Y),
at(P,Y), at(P,Y), at(P,Y), at(P,Y), at(P,Y), at(P,Y), at(P,Y), at(P,Y).
exclusive at(X,Y) at(X,Z).
";

/// No theory, since it has a byte that no text of a table can have.
const ODD_BYTE: &[u8] = b"strong a/1 \x80";

/// A byte that some take for a blank. It is none.
const ODD_BLANK: &[u8] = b"\xa0";

/// The text that a text begins with the name of, and what stands behind the name. A text that begins with no name is all behind.
fn named(told: &str) -> (&'static [u8], &str) {
    let (name, behind) = told.split_once(' ').unwrap_or((told, ""));
    match name {
        "LAMP" => (LAMP, behind),
        "LAMPS" => (LAMPS, behind),
        "ROOMS" => (ROOMS, behind),
        "LIBRARY" => (LIBRARY, behind),
        "SEEN" => (SEEN, behind),
        "ODD_BYTE" => (ODD_BYTE, behind),
        "ODD_BLANK" => (ODD_BLANK, behind),
        _ => (b"", told),
    }
}

/// The bytes of a theory or of an input as a table tells it: by its name, by its name and what stands behind it, or as it is written.
pub fn text_of(rt: &impl Abort, alloc: Global, told: &str) -> Vec<u8> {
    let (text, behind) = named(told);
    let behind = bytes_of(alloc, behind).expect(rt, "memory");
    let mut bytes = Vec::from_slice(alloc, text).expect(rt, "memory");
    bytes.extend_from_slice(&behind).expect(rt, "memory");
    bytes
}
