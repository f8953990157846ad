//! What no clause shows: that memory is given.
use ec_numbered::{ByNumber, PropSet};
use ec_terms::PropId;
use std::alloc::Global;
use std::process::Abort;

/// Keeps a row under a number, which gets a place first.
fn keep(rt: &impl Abort, rows: &mut ByNumber<u32>, n: usize, row: u32) {
    rows.place(PropId(n)).expect(rt, "memory");
    rows.set(PropId(n), row);
}

/// Whether this row, or none, is kept under a number.
fn is_kept(rows: &ByNumber<u32>, n: usize, row: Option<u32>) -> bool {
    rows.get(PropId(n)).copied() == row
}

/// Whether rows are written to and taken out under their own numbers.
fn changes_rows(rows: &mut ByNumber<u32>) -> bool {
    if let Some(row) = rows.get_mut(PropId(0)) {
        *row = 11;
    }
    let kept = is_kept(rows, 0, Some(11)) && is_kept(rows, 3, Some(31));
    let none = is_kept(rows, 1, None) && is_kept(rows, 9, None);
    let taken = rows.take(PropId(3)) == Some(31) && rows.take(PropId(9)).is_none();
    kept && none && taken && is_kept(rows, 3, None)
}

#[test]
fn rows_are_kept_under_their_numbers(rt: HostRuntime) {
    let mut rows = ByNumber::new(rt.alloc());
    keep(&rt, &mut rows, 3, 30);
    keep(&rt, &mut rows, 0, 10);
    keep(&rt, &mut rows, 3, 31);
    assert!(rt; changes_rows(&mut rows));
}

/// Adds a number, with room made for it.
fn add(rt: &impl Abort, set: &mut PropSet, n: usize) {
    set.reserve(1).expect(rt, "memory");
    set.insert(PropId(n));
}

/// Whether a set has these numbers, in order.
fn has_numbers(set: &PropSet, numbers: &[PropId]) -> bool {
    set.as_slice() == numbers && set.len() == numbers.len()
}

/// Whether numbers that stand in order are taken out.
fn takes_out(set: &mut PropSet) -> bool {
    let all = has_numbers(set, &[PropId(1), PropId(3), PropId(5), PropId(9)]);
    set.remove(PropId(5));
    set.remove(PropId(4));
    let left = has_numbers(set, &[PropId(1), PropId(3), PropId(9)]);
    all && left && set.contains(PropId(9)) && !set.contains(PropId(5)) && !set.is_empty()
}

#[test]
fn numbers_stand_in_order(rt: HostRuntime) {
    let mut set = PropSet::new(rt.alloc());
    for n in [5, 1, 9, 5, 3] {
        add(&rt, &mut set, n);
    }
    assert!(rt; takes_out(&mut set));
}
