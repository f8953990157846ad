//! Which rules of a theory are in the cone of a property.
use crate::tables::row_of;
use crate::terms::term_of;
use ec_cone::Cone;
use ec_terms::Theory;
use ec_theory::{MOST_BYTES, accept};
use std::alloc::Global;
use std::process::Abort;

/// A door that is pushed opens where it is not locked, and is then not shut. A shut door stops the alarm, and who listens to
/// the alarm is warned. The last rule has the name of a door that is open, without the door.
const DOORS: &[u8] = b"initiates turn locked.
initiates push(Door) open(Door) if not locked.
terminates wait alarm if shut.
initiates listen warned if alarm.
initiates listen open.
exclusive open(_) shut.";

/// A property, and a bit for each rule, by number.
const ROWS: &str = "
warned => 11110
alarm => 11100
open(front) => 11000
shut => 11000
locked => 10000
open => 00001
nobody => 00000
";

/// Whether exactly the rules with the bit `1` are in a cone.
fn has_bits(cone: &Cone, bits: &str) -> bool {
    let mut rule: u16 = 0;
    for bit in bits.bytes() {
        rule = rule.saturating_add(1);
        if cone.has_rule(rule) != (bit == b'1') {
            return false;
        }
    }
    !cone.has_rule(0) && !cone.has_rule(rule.saturating_add(1))
}

/// Sees that each property of the rows has the cone that stands behind it.
fn check_rows(rt: &impl Abort, alloc: Global, theory: &Theory) {
    for line in ROWS.lines() {
        if let Some((property, bits)) = row_of(line) {
            let cone = Cone::of(alloc, theory, &term_of(rt, property)).expect(rt, "memory");
            assert!(rt; has_bits(&cone, bits), "{line}");
        }
    }
}

#[test]
fn worked_cones_are_found(rt: HostRuntime) {
    assert!(rt; DOORS.len() <= MOST_BYTES);
    let checked = accept(rt.alloc(), DOORS).expect(&rt, "a theory");
    check_rows(&rt, rt.alloc(), checked.theory());
}
