//! How many bytes those things take of which the engine keeps many.
use ec_axioms::Event;
use ec_context::Entry;
use ec_entries::Dependent;
use ec_moment::Tick;
use ec_rows::{Mark, Span};
use std::io;
use std::mem::size_of;

/// Prints the size of a thing in bytes.
fn print_size(rt: &impl Print, thing: &str, size: usize) -> io::Result<()> {
    println!(rt; "{thing} {size}")
}

/// Prints the size of each thing in bytes, without what it keeps elsewhere: an entry has two literals in place.
pub(crate) fn print_sizes(rt: &impl Print) -> io::Result<()> {
    print_size(rt, "event", size_of::<Event<Tick>>())?;
    print_size(rt, "entry", size_of::<Entry>())?;
    print_size(rt, "mark", size_of::<Mark<Tick>>())?;
    print_size(rt, "span", size_of::<Span<Tick>>())?;
    print_size(rt, "dependent", size_of::<Dependent<Tick>>())
}
