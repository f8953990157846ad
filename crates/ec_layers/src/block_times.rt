//! That a row of times in blocks and one in a `Vec` go the same way.
ghost use Rattle.std.specs.Prelude.{◌≡◌};
ghost use Rattle.ec_rows.specs.Times.{is_entry, has_entry};

use crate::blocks::Draws;
use ec_block_rows::BlockTimes;
use ec_moment::{Moment, Tick};
use ec_rows::{TimeRow, VecTimes};
use ec_terms::{Name, Slot};
use std::alloc::Global;
use std::process::Abort;

/// Whether an entry is that of a time and an identity.
fn is_entry(entry: &(Tick, Name, Slot), at: Tick, id: &Name) -> bool
    ensures { result ≡ is_entry ⟦<Tick as Moment>⟧.rank (⟦<Tick as Moment>⟧.rank at) id.now entry.now }
{
    entry.0.order(&at).is_eq() && entry.1 == *id
}

/// Whether a row has the entry of a time and an identity.
fn has_entry<X: TimeRow<Tick>>(row: &X, at: Tick, id: &Name) -> bool
    ensures { result ≡ has_entry ⟦<Tick as Moment>⟧.rank (⟦<Tick as Moment>⟧.rank at) id.now (X.times row.now) }
{
    for i in 0..row.len() {
        if is_entry(&row.get(i), at, id) {
            return true;
        }
    }
    false
}

/// Takes the entry of a time and an identity out of a row, or puts it in, if it is not there.
pub fn turn<X: TimeRow<Tick>>(
    rt: &impl Abort,
    row: &mut X,
    at: Tick,
    id: &Name,
    slot: Slot,
) -> Slot {
    if has_entry(row, at, id) {
        return row.take_out(at, id);
    }
    row.reserve(1).expect(rt, "memory");
    row.put(at, id.copied(), slot);
    slot
}

/// A name of two letters that is drawn.
fn drawn_name(rt: &impl Abort, draws: &mut Draws) -> Name {
    let letters = [b'a' + draws.draw(26) as u8, b'a' + draws.draw(26) as u8];
    Name::from_bytes(&letters).expect(rt, "a name")
}

/// The time and the identity of the entry at a place in a row, or others, if it has no such place.
fn pick<X: TimeRow<Tick>>(rt: &impl Abort, draws: &mut Draws, row: &X) -> (Tick, Name) {
    let place = draws.draw(500) as usize;
    if place < row.len() {
        let (at, id, _) = row.get(place);
        return (at, id);
    }
    let id = drawn_name(rt, &mut *draws);
    (Tick(draws.draw(50) as i64), id)
}

/// Whether two entries are the same.
pub fn is_same(a: &(Tick, Name, Slot), b: &(Tick, Name, Slot)) -> bool {
    a.0 == b.0 && a.1 == b.1 && a.2 == b.2
}

/// Whether the entries of two rows are the same.
fn are_same<A: TimeRow<Tick>, B: TimeRow<Tick>>(a: &A, b: &B) -> bool {
    if a.len() != b.len() {
        return false;
    }
    for i in 0..a.len() {
        if !is_same(&a.get(i), &b.get(i)) {
            return false;
        }
    }
    true
}

/// Turns an entry in both rows, and tells whether they go the same way.
fn turn_both<A: TimeRow<Tick>, B: TimeRow<Tick>>(
    rt: &impl Abort,
    a: &mut A,
    b: &mut B,
    entry: &(Tick, Name),
    slot: Slot,
) -> bool {
    let (at, id) = entry;
    turn(rt, a, *at, id, slot) == turn(rt, b, *at, id, slot) && are_same(a, b)
}

/// Whether two rows are the same after each of 500 calls, and fill more than one block.
fn stay_the_same<A: TimeRow<Tick>, B: TimeRow<Tick>>(
    rt: &impl Abort,
    draws: &mut Draws,
    a: &mut A,
    b: &mut B,
) -> bool {
    for number in 0..500 {
        let entry = pick(rt, draws, a);
        if !turn_both(rt, a, b, &entry, Slot(number)) {
            return false;
        }
    }
    128 < a.len()
}

/// Whether two rows that are made go the same way.
fn go_the_same_way<A: TimeRow<Tick>, B: TimeRow<Tick>>(rt: &impl Abort, alloc: Global) -> bool {
    let mut a = A::new(alloc).expect(rt, "memory");
    let mut b = B::new(alloc).expect(rt, "memory");
    stay_the_same(rt, &mut Draws::new(), &mut a, &mut b)
}

#[test]
fn times_in_blocks_go_as_times_in_one_vec(rt: HostRuntime) {
    assert!(rt; go_the_same_way::<VecTimes<Tick>, BlockTimes<Tick>>(&rt, rt.alloc()));
}
