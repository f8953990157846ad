//! Whether an entry is active.
ghost use Rattle.std.specs.Prelude.{◌≡◌, ◌+◌};
ghost use Rattle.ec_context.specs.Activity.{literal_agrees as agrees, literals_agree as agree};

use crate::entry::{Entry, EntryLiteral};
use ec_axioms::{Current, Steps};
use ec_moment::Moment;
use std::sync::ledger::Ledger;

/// Whether a literal agrees with what is current at a time.
fn literal_agrees<T: Moment, C: Current<T>>(literal: &EntryLiteral, at: T, current: &C) -> bool
    ensures { result ≡ agrees (C.is_current current.now) (T.rank at) literal.now }
{
    current.current(literal.prop, at) == literal.positive
}

/// Whether an entry of an event at a time is active: each of its literals agrees with what is current there.
/// It is one step, however many literals are read, and takes no memory.
#[tactic(auto, unfolding(crate::specs::Activity::literals_agree))]
pub fn evaluate<T: Moment, C: Current<T>, L: Ledger>(
    entry: &Entry,
    at: T,
    current: &C,
    steps: &mut Steps<L>,
) -> bool
    ensures active { result ≡ agree (C.is_current current.now) (T.rank at) entry.now.literals }
    ensures step { steps.new ≡ steps.old + 1 }
{
    steps.tick();
    entry
        .literals
        .as_slice()
        .iter()
        .all(|literal| literal_agrees(literal, at, current))
}
