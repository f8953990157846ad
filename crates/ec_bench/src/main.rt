//! Shows what lists in blocks cost: run it under `time`, at growing numbers of insertions.
//!
//! - `insertions N PLACE..` inserts N members one by one into a list in blocks, at each of the places `front`,
//!   `middle` and `random`, and prints the length of the list and a checksum of its order.
//! - `neighbours N` adds N properties `place(b,s)`, some four of each `b`, in a theory that makes those of one `b`
//!   exclusive, and prints how many neighbours they have together.
//! - `sizes` prints how many bytes each thing takes of which the engine keeps many.
#![tactic(auto)]

mod draws;
mod insertions;
mod neighbours;
mod sizes;

use anyhow::{Context, Result, bail};
use insertions::{Place, fill};
use neighbours::count_neighbours;
use sizes::print_sizes;
use std::alloc::Global;
use std::env;
use std::string::String;

/// What is printed where the words ask for nothing.
const USAGE: &str =
    "usage: ec_bench insertions N front|middle|random.. | ec_bench neighbours N | ec_bench sizes";

/// Fills a list at the place that is named, and prints its length and its checksum.
fn print_insertion(rt: &impl Print, alloc: Global, count: usize, name: &str) -> Result<()> {
    let place = Place::from_name(name).context(USAGE)?;
    let (length, checksum) = fill(alloc, count, place)?;
    println!(rt; "{name} length {length} checksum {checksum}")?;
    Ok(())
}

/// The same at each of the places that are named.
fn print_insertions(rt: &impl Print, alloc: Global, count: usize, names: &[String]) -> Result<()> {
    for name in names {
        print_insertion(rt, alloc, count, name.as_str())?;
    }
    Ok(())
}

/// The number that a word spells.
fn number_of(word: &String) -> Result<usize> {
    word.as_str().parse::<usize>().context(USAGE)
}

/// Adds properties, and prints how many neighbours they have.
fn print_neighbours(rt: &impl Print, alloc: Global, count: usize) -> Result<()> {
    let neighbours = count_neighbours(alloc, count)?;
    println!(rt; "properties {count} neighbours {neighbours}")?;
    Ok(())
}

/// Does what the words ask for.
fn measure(rt: &impl Print, alloc: Global, words: &[String]) -> Result<()> {
    let (command, rest) = words.split_first().context(USAGE)?;
    match command.as_str() {
        "insertions" => {
            let (number, places) = rest.split_first().context(USAGE)?;
            print_insertions(rt, alloc, number_of(number)?, places)
        }
        "neighbours" => {
            let (number, _) = rest.split_first().context(USAGE)?;
            print_neighbours(rt, alloc, number_of(number)?)
        }
        "sizes" => Ok(print_sizes(rt)?),
        _ => bail!("{USAGE}"),
    }
}

fn main(rt: HostRuntime) -> Result<()> {
    let mut words = Vec::new(rt.alloc());
    for word in env::args(&rt)?.skip(1) {
        words.push(word)?;
    }
    measure(&rt, rt.alloc(), &words)
}
