//! What no contract says of the types of events and steps.
ghost use Rattle.std.specs.Prelude.{◌≡◌, ◌<◌};

use crate::terms::debugs;
use ec_axioms::{Seen, Steps};
use std::marker::Brand;
use std::sync::ledger::{Blank, Ledger};

fn two_steps<L: Ledger>(blank: Blank)
    requires name { blank.name ≡ L.name }
    requires parts { blank.parts ≡ L.parts }
    requires some { 0 < L.parts }
{
    let mut steps = Steps::<L>::new(blank);
    steps.tick();
    steps.tick();
}

#[test]
fn a_counter_is_made_and_counts() {
    two_steps::<Brand>(Blank::new(1));
}

pub const COUNTS: Seen = Seen {
    seen: 12,
    on: u64::MAX,
    off: 0,
    props: 13,
};

#[test]
fn counts_are_shown_by_their_names(rt: HostRuntime) {
    let wanted = "Seen { seen: 12, on: 18446744073709551615, off: 0, props: 13 }";
    assert!(rt; debugs(rt.alloc(), &COUNTS, wanted));
}
