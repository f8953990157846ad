//! What no clause shows: that memory is given, and what is tallied of two turns.
ghost use Rattle.std.specs.Prelude.{IsTrue};
ghost use Rattle.ec_terms.specs.Matchable.{IsMatchable};
ghost use Rattle.ec_exclusive.specs.Added.{is_added};

use crate::fixtures::{ONE_PLACE, enter_text, no_tables, theory_of};
use ec_exclusive::Neighbours;
use ec_revise::{Counts, Tallied, Tally, Turn};
use ec_terms::{Kind, PropId, Theory};
use std::alloc::Global;
use std::process::Abort;

/// So many of each count.
fn counts(inits: u32, terms: u32, clashes: u32) -> Counts {
    Counts {
        inits,
        terms,
        clashes,
    }
}

/// Two turns: somebody came to be at home, and is no longer taken out of work.
fn tally_of(
    rt: &impl Abort,
    alloc: Global,
    neighbours: &Neighbours,
    home: PropId,
    work: PropId,
) -> Tally
    requires home { IsTrue (is_added home neighbours.now.rows) }
    requires work { IsTrue (is_added work neighbours.now.rows) }
{
    let turns = [
        Turn {
            up: true,
            kind: Kind::Initiates,
            head: home,
        },
        Turn {
            up: false,
            kind: Kind::Terminates,
            head: work,
        },
    ];
    let mut tally = Tally::new(alloc);
    tally.note(work).expect(rt, "memory");
    let counted = tally.count_turns(&turns, neighbours);
    counted.expect(rt, "memory");
    tally
}

/// Whether a tally has these counts for a property.
fn has_counts(tally: &Tally, p: PropId, up: Counts, down: Counts) -> bool {
    tally.get(p) == Tallied { up, down }
}

/// Whether a tally says that somebody is at home by one initiation more, and out of work by one clash more and one termination
/// less.
fn tells_both(tally: &Tally, home: PropId, work: PropId) -> bool {
    tally.len() == 2
        && has_counts(tally, home, counts(1, 0, 0), counts(0, 0, 0))
        && has_counts(tally, work, counts(0, 0, 1), counts(0, 1, 0))
}

/// Whether the two turns are tallied.
fn are_tallied(
    rt: &impl Abort,
    alloc: Global,
    neighbours: &Neighbours,
    home: PropId,
    work: PropId,
) -> bool {
    assert!(rt; neighbours.is_added(home));
    assert!(rt; neighbours.is_added(work));
    let tally = tally_of(rt, alloc, neighbours, home, work);
    tells_both(&tally, home, work)
}

/// Whether the two turns are tallied under a theory in which somebody is at one place.
fn clash(rt: &impl Abort, alloc: Global, theory: &Theory) -> bool
    requires { IsMatchable theory.now }
{
    let mut tables = no_tables(rt, alloc, theory);
    let home = enter_text(rt, theory, &mut tables, "at(bob,home)");
    let work = enter_text(rt, theory, &mut tables, "at(bob,work)");
    are_tallied(rt, alloc, &tables.neighbours, home, work)
}

#[test]
fn an_initiation_is_a_clash_for_each_neighbour(rt: HostRuntime) {
    let checked = theory_of(&rt, rt.alloc(), ONE_PLACE);
    assert!(rt; clash(&rt, rt.alloc(), checked.theory()));
}
