//! Printed forms of terms and what they are made of, and a term that is copied.
ghost use Rattle.std.specs.Prelude.{IsTrue};
ghost use Rattle.ec_terms.specs.Term.{ground_of, names_are_names};

use ec_lists::NoMemory;
use ec_terms::{ArgRef, GroundRef, Kind, Name, PropId, Slot, read_ground, text};
use std::alloc::{AllocError, Global};
use std::fmt::{Debug, Display};
use std::process::Abort;

/// The term that is the whole of a text.
pub fn term_of<'a>(rt: &impl Abort, spelt: &'a str) -> GroundRef<'a>
    ensures { IsTrue (names_are_names (ground_of result)) }
{
    let (term, length) = read_ground(spelt.as_bytes()).expect(rt, "a term");
    assert!(rt; length == spelt.len(), "{spelt}");
    term
}

/// The name that bytes are.
pub fn name(rt: &impl Abort, bytes: &[u8]) -> Name {
    Name::from_bytes(bytes).expect(rt, "a name")
}

/// Whether a value is displayed so.
pub fn displays(alloc: Global, value: &impl Display, wanted: &str) -> bool {
    match format!(in alloc; "{value}") {
        Ok(shown) => shown.as_str() == wanted,
        Err(_) => false,
    }
}

/// Whether a value is shown so for a developer.
pub fn debugs(alloc: Global, value: &impl Debug, wanted: &str) -> bool {
    match format!(in alloc; "{value:?}") {
        Ok(shown) => shown.as_str() == wanted,
        Err(_) => false,
    }
}

/// Whether a value is displayed so, and shown so for a developer.
fn is_shown(alloc: Global, value: &(impl Debug + Display), displayed: &str, shown: &str) -> bool {
    displays(alloc, value, displayed) && debugs(alloc, value, shown)
}

/// Whether a name, a number and the answer that memory ran out have their printed forms.
fn are_shown(alloc: Global, lamp: &Name) -> bool {
    is_shown(alloc, lamp, "lamp", "\"lamp\"")
        && displays(alloc, &NoMemory::from(AllocError), "out of memory")
        && debugs(alloc, &PropId(3), "PropId(3)")
        && debugs(alloc, &Slot(4), "Slot(4)")
        && debugs(alloc, &Kind::Initiates, "Initiates")
}

#[test]
fn each_printed_form(rt: HostRuntime) {
    assert!(rt; are_shown(rt.alloc(), &name(&rt, b"lamp")));
}

#[test]
fn the_printed_form_of_a_term(rt: HostRuntime) {
    let text = text(&term_of(&rt, "lamp(-5)"));
    assert!(rt; is_shown(rt.alloc(), &text, "lamp(-5)", "\"lamp(-5)\""));
}

/// Whether a term has this name and these arguments.
fn has_parts(term: &GroundRef<'_>, name: &[u8], args: &[ArgRef<'_>]) -> bool {
    term.name == name && term.args.as_slice() == args
}

#[test]
fn terms_are_copied(rt: HostRuntime) {
    let copy = term_of(&rt, "on(lamp,-3)").copied();
    assert!(rt; has_parts(&copy, b"on", &[ArgRef::Word(b"lamp"), ArgRef::Int(-3)]));
}
