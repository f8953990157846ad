//! What no clause shows: that memory is given, and worked dependents.
ghost use Rattle.std.specs.Prelude.{◌≡◌, ◌<◌, length};

use crate::fixtures::boxed;
use crate::points::time_of;
use ec_axioms::Steps;
use ec_context::{Entry, EntryList, EntryLiteral, EntryLiterals, MOST_LITERALS};
use ec_entries::{Dependent, Entries, EntryLists};
use ec_layers::tables::row_of;
use ec_moment::Tick;
use ec_terms::{Kind, PropId, Slot};
use std::alloc::Global;
use std::marker::Brand;
use std::process::Abort;
use std::sync::ledger::{Blank, Ledger};

/// Events, two of them at one time: the slot and the time; the literals of the two entries, by the numbers of their
/// properties, with a minus for a negative one; and the active bits. One entry has property 1 in two literals.
const ROWS: &str = "
0 10 => 1 -1 2; 2; 1
1 10 => 1; ; 2
2 5 => -1; 3; 3
";

/// A property and a time, and the time of the next dependent after it.
const NEXT: &str = "
1 4 => 5
1 5 => 10
1 10 => none
2 -3 => 10
0 0 => none
9 0 => none
";

/// A property and a time, a number, and the slot and the place of that dependent there.
const NTH: &str = "
1 5: 0 => 2 0
1 10: 0 => 0 0
1 10: 1 => 1 0
1 10: 2 => none
2 10: 0 => 0 0
2 10: 1 => 0 1
2 10: 2 => none
3 5: 0 => 2 1
3 10: 0 => none
";

/// Another event in the first slot.
const AGAIN: &str = "0 7 => 1; ; 0";

const NEXT_THEN: &str = "
1 5 => 7
1 7 => 10
2 0 => none
";

const NTH_THEN: &str = "
1 7: 0 => 0 0
1 10: 0 => 1 0
1 10: 1 => none
";

/// The literal that is spelt as `-2`, by its sign and the number of its property.
fn literal_of(rt: &impl Abort, spelt: &str) -> EntryLiteral {
    let (positive, p) = match spelt.strip_prefix('-') {
        Some(p) => (false, p),
        None => (true, spelt),
    };
    let prop = PropId(p.parse::<usize>().expect(rt, spelt));
    EntryLiteral::new(positive, prop)
}

/// The number and the time that are spelt as `1 -4`.
fn pair_of(rt: &impl Abort, spelt: &str) -> (usize, i64) {
    let (number, at) = spelt.split_once(' ').expect(rt, spelt);
    let number = number.parse::<usize>().expect(rt, spelt);
    (number, at.parse::<i64>().expect(rt, spelt))
}

/// The literals that are spelt as `1 -2`.
fn literals(rt: &impl Abort, alloc: Global, spelt: &str) -> EntryLiterals {
    let mut literals = EntryLiterals::new(alloc);
    for spelt in spelt.split_whitespace() {
        assert!(rt; literals.len() < MOST_LITERALS);
        literals.push(literal_of(rt, spelt)).expect(rt, "memory");
    }
    literals
}

fn entry(rt: &impl Abort, alloc: Global, rule: u16, spelt: &str) -> Entry
    ensures { result.rule ≡ rule }
{
    Entry {
        rule,
        kind: Kind::Initiates,
        head: PropId(0),
        literals: literals(rt, alloc, spelt),
    }
}

/// Puts two entries in a list that is empty.
fn put_two(rt: &impl Abort, list: &mut EntryList, first: Entry, second: Entry)
    requires empty { length list.old ≡ 0 }
    requires order { first.rule < second.rule }
{
    list.push(first).expect(rt, "memory");
    list.push(second).expect(rt, "memory");
}

/// The list of the two entries with these literals.
fn list_of(rt: &impl Abort, alloc: Global, first: &str, second: &str) -> EntryList {
    let first = entry(rt, alloc, 1, first);
    let second = entry(rt, alloc, 2, second);
    let mut list = EntryList::new(alloc);
    put_two(rt, &mut list, first, second);
    list
}

/// Keeps a list of entries in a slot that is free.
fn insert(
    rt: &impl Abort,
    entries: &mut Entries<Tick>,
    slot: Slot,
    at: i64,
    active: u64,
    mut lists: EntryLists,
) {
    assert!(rt; slot.0 < 8);
    entries.prepare(&lists, 8).expect(rt, "memory");
    assert!(rt; !entries.contains(slot));
    if let Some(list) = lists.pop() {
        entries.insert(slot, Tick(at), list, active);
    }
}

/// The lists of one event, whose two entries have these literals.
fn lists_of(rt: &impl Abort, alloc: Global, first: &str, second: &str) -> EntryLists {
    let mut lists = EntryLists::new(alloc);
    let list = list_of(rt, alloc, first, second);
    lists.push(list).expect(rt, "memory");
    lists
}

/// Keeps the entries of an event, which is told by a row, in a slot that is free.
fn keep(rt: &impl Abort, alloc: Global, entries: &mut Entries<Tick>, row: &str) {
    let (place, told) = row_of(row).expect(rt, row);
    let (number, at) = pair_of(rt, place);
    let (first, behind) = told.split_once("; ").expect(rt, row);
    let (second, active) = behind.split_once("; ").expect(rt, row);
    let active = active.parse::<u64>().expect(rt, row);
    let lists = lists_of(rt, alloc, first, second);
    insert(rt, entries, Slot(number), at, active, lists);
}

/// Whether the next dependent of a property after a time is at this one.
fn is_next(entries: &Entries<Tick>, p: PropId, at: Tick, next: Option<Tick>) -> bool {
    entries.next_dependent_after(p, at, 1) == next
        && entries.dependents_after(p, at, 0).is_empty() == next.is_none()
}

/// The same of the property and the time that are spelt as `1 4`, and the next time, or `none`.
fn is_next_told(rt: &impl Abort, entries: &Entries<Tick>, told: &str, wanted: &str) -> bool {
    let (p, at) = pair_of(rt, told);
    is_next(entries, PropId(p), Tick(at), time_of(wanted))
}

/// Sees that the next dependents are those of a table.
fn expect_next(rt: &impl Abort, entries: &Entries<Tick>, table: &str) {
    for line in table.lines() {
        if let Some((told, wanted)) = row_of(line) {
            assert!(rt; is_next_told(rt, entries, told, wanted), "{line}");
        }
    }
}

/// The slot and the place that are spelt as `0 1`.
fn entry_of(rt: &impl Abort, spelt: &str) -> Option<(Slot, u8)> {
    let (slot, place) = spelt.split_once(' ')?;
    let slot = slot.parse::<usize>().expect(rt, spelt);
    Some((Slot(slot), place.parse::<u8>().expect(rt, spelt)))
}

/// Whether a dependent is that of a slot and a place, or there is neither.
fn is_entry(dependent: Option<&Dependent<Tick>>, wanted: Option<(Slot, u8)>) -> bool {
    match dependent {
        Some(dependent) => wanted == Some((dependent.slot, dependent.place)),
        None => wanted.is_none(),
    }
}

/// Whether the dependent of this number in the run at an instant, if there is a run, is the one that is wanted.
fn is_in_run(
    entries: &Entries<Tick>,
    p: PropId,
    at: Tick,
    k: usize,
    wanted: Option<(Slot, u8)>,
) -> bool {
    let mut near = 1;
    match entries.dependents_at(p, at, &mut near) {
        Some(run) => is_entry(run.get(k), wanted),
        None => true,
    }
}

/// Whether the dependent of a property at an instant, of which one tells as `1 10: 0`, is the one that is wanted.
fn is_nth(rt: &impl Abort, entries: &Entries<Tick>, told: &str, wanted: &str) -> bool {
    let (place, k) = told.split_once(": ").expect(rt, told);
    let (p, at) = pair_of(rt, place);
    let k = k.parse::<usize>().expect(rt, told);
    let wanted = entry_of(rt, wanted);
    entries.dependent(PropId(p), Tick(at), k) == wanted
        && is_in_run(entries, PropId(p), Tick(at), k, wanted)
}

/// Sees that the dependents at an instant are those of a table.
fn expect_nth(rt: &impl Abort, entries: &Entries<Tick>, table: &str) {
    for line in table.lines() {
        if let Some((told, wanted)) = row_of(line) {
            assert!(rt; is_nth(rt, entries, told, wanted), "{line}");
        }
    }
}

/// The entries of the events of the table.
fn kept(rt: &impl Abort, alloc: Global) -> Box<Entries<Tick>> {
    let mut entries = boxed(rt, alloc, Entries::new(alloc));
    for row in ROWS.lines() {
        if !row.is_empty() {
            keep(rt, alloc, &mut entries, row);
        }
    }
    entries
}

#[test]
fn dependents_are_found_by_time(rt: HostRuntime) {
    let entries = kept(&rt, rt.alloc());
    expect_next(&rt, &entries, NEXT);
    expect_nth(&rt, &entries, NTH);
}

/// Takes the two entries of the first slot out.
fn take_out(rt: &impl Abort, entries: &mut Entries<Tick>) {
    assert!(rt; entries.contains(Slot(0)));
    entries.remove(Slot(0));
    assert!(rt; !entries.contains(Slot(0)));
}

#[test]
fn a_slot_is_used_again(rt: HostRuntime) {
    let mut entries = kept(&rt, rt.alloc());
    take_out(&rt, &mut entries);
    keep(&rt, rt.alloc(), &mut entries, AGAIN);
    expect_next(&rt, &entries, NEXT_THEN);
    expect_nth(&rt, &entries, NTH_THEN);
}

/// Whether the records of two slots are read and written by themselves.
fn records_are_apart<L: Ledger>(rt: &impl Abort, entries: &mut Entries<Tick>, blank: Blank) -> bool
    requires name { blank.name ≡ L.name }
    requires parts { blank.parts ≡ L.parts }
    requires some { 0 < L.parts }
{
    let mut steps = Steps::<L>::new(blank);
    assert!(rt; entries.contains(Slot(0)));
    assert!(rt; entries.contains(Slot(1)));
    let before = entries.active(Slot(0)) == 1 && entries.active(Slot(1)) == 2;
    entries.set_active(Slot(0), 3);
    let after = entries.active(Slot(0)) == 3 && entries.active(Slot(1)) == 2;
    let read = entries.list(Slot(1), &mut steps).len() == 2 && entries.at(Slot(1)) == Tick(10);
    before && after && read
}

#[test]
fn active_bits_are_those_of_one_slot(rt: HostRuntime) {
    let mut entries = kept(&rt, rt.alloc());
    assert!(rt; records_are_apart::<Brand>(&rt, &mut entries, Blank::new(1)));
}
