//! What no clause shows: that memory is given, and that a row in blocks and one in a `Vec` go the same way.
ghost use Rattle.std.specs.Prelude.{◌<◌};

use ec_block_rows::BlockMarks;
use ec_blocks::Blocks;
use ec_moment::Tick;
use ec_rows::{Mark, MarkRow, VecMarks};
use ec_terms::PropId;
use std::alloc::Global;
use std::process::Abort;

/// Numbers that look random: the high bits of a congruential generator of 64 bits.
#[derive(Drop)]
pub struct Draws {
    state: u64,
}

impl Draws {
    /// The numbers from seed 1.
    pub fn new() -> Draws {
        Draws { state: 1 }
    }

    /// A number below `n`.
    pub fn draw(&mut self, n: u64) -> u64
        requires { 0 < n }
        ensures { result < n }
    {
        self.state = self
            .state
            .wrapping_mul(6364136223846793005)
            .wrapping_add(1442695040888963407);
        (self.state >> 33) % n
    }
}

/// Whether the marks of two rows are the same.
fn are_same<A: MarkRow<Tick>, B: MarkRow<Tick>>(a: &A, b: &B) -> bool {
    if a.len() != b.len() {
        return false;
    }
    for i in 0..a.len() {
        if a.get(i) != b.get(i) {
            return false;
        }
    }
    true
}

/// Puts a mark with one start in a row.
fn put<M: MarkRow<Tick>>(rt: &impl Abort, row: &mut M, at: Tick, terms: u32) {
    row.reserve(1).expect(rt, "memory");
    row.put(Mark {
        at,
        inits: 1,
        terms,
        clashes: 0,
    });
}

/// Takes the mark at a place out of a row, if it has the place.
fn take<M: MarkRow<Tick>>(row: &mut M, place: usize) {
    if place < row.len() {
        let _ = row.take_out(place);
    }
}

/// Puts a mark in both rows, or takes the one at a place out of both.
fn change<A: MarkRow<Tick>, B: MarkRow<Tick>>(
    rt: &impl Abort,
    draws: &mut Draws,
    a: &mut A,
    b: &mut B,
) {
    let count = a.len();
    if count == 0 || draws.draw(10) < 7 {
        let at = Tick(draws.draw(1000) as i64);
        let terms = draws.draw(3) as u32;
        put(rt, a, at, terms);
        put(rt, b, at, terms);
        return;
    }
    let place = draws.draw(count as u64) as usize;
    take(a, place);
    take(b, place);
}

/// Whether two rows are the same after each of 500 changes, and fill more than one block.
fn stay_the_same<A: MarkRow<Tick>, B: MarkRow<Tick>>(
    rt: &impl Abort,
    draws: &mut Draws,
    a: &mut A,
    b: &mut B,
) -> bool {
    for _ in 0..500 {
        change(rt, draws, a, b);
        if !are_same(a, b) {
            return false;
        }
    }
    128 < a.len()
}

/// Whether two rows that are made go the same way.
fn go_the_same_way<A: MarkRow<Tick>, B: MarkRow<Tick>>(rt: &impl Abort, alloc: Global) -> bool {
    let mut a = A::new(alloc).expect(rt, "memory");
    let mut b = B::new(alloc).expect(rt, "memory");
    stay_the_same(rt, &mut Draws::new(), &mut a, &mut b)
}

/// How many members fill several groups of blocks.
const MANY: usize = 5000;

/// Puts members in front of all others, one by one, so that each stands at its own place.
fn fill_from_behind(rt: &impl Abort, list: &mut Blocks<PropId>) {
    for i in 0..MANY {
        list.reserve(1).expect(rt, "memory");
        list.insert(0, PropId(MANY - 1 - i));
    }
}

#[test]
fn rows_in_blocks_go_as_rows_in_one_vec(rt: HostRuntime) {
    assert!(rt; go_the_same_way::<VecMarks<Tick>, BlockMarks<Tick>>(&rt, rt.alloc()));
}

/// Whether each second member is taken out in order.
fn takes_each_second(list: &mut Blocks<PropId>) -> bool {
    for i in 0..MANY / 2 {
        if list.len() <= i || list.remove(i) != PropId(2 * i) {
            return false;
        }
    }
    list.len() == MANY / 2 + 1
}

/// Whether the others stand in order.
fn has_others(list: &Blocks<PropId>) -> bool {
    for i in 0..MANY / 2 {
        if list.len() <= i || *list.get(i) != PropId(2 * i + 1) {
            return false;
        }
    }
    list.partition_point(|p| p.0 < 2000) == 1000
}

/// Whether a list that has no members keeps those that it is given in order.
fn keeps_order(rt: &impl Abort, list: &mut Blocks<PropId>) -> bool {
    fill_from_behind(rt, list);
    list.push(PropId(MANY)).expect(rt, "memory");
    takes_each_second(list) && has_others(list)
}

#[test]
fn a_list_in_blocks_keeps_its_order(rt: HostRuntime) {
    assert!(rt; keeps_order(&rt, &mut Blocks::new(rt.alloc())));
}
