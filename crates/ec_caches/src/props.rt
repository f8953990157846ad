//! What no clause shows: that memory is given, the order of worked terms, and that many changes in mixed order leave
//! the right table, also of terms that are chosen to have one key.
ghost use Rattle.std.specs.Prelude.{◌≡◌, IsSome, IsTrue, IfSome};
ghost use Rattle.ec_terms.specs.Term.{ground_of, names_are_names};
ghost use Rattle.ec_store.specs.PropKeys.{key_of};
ghost use Rattle.ec_store.specs.Table.{prop_at};

use crate::fixtures::{boxed, term_of};
use ec_store::PropTable;
use ec_terms::{ArgRef, GroundRef, PropId, order};
use std::alloc::Global;
use std::hash::{FoldHasher, Hasher};
use std::process::Abort;
use std::string::String;

/// Terms in their order.
const TERMS: &str =
    "lamp lamp(-5) lamp(4) lamp(12) lamp(a) lamp(a1) lamp(aB) lamp(aa) lamp(b) lamp(4,4) lamp(4,a) lamp2 lamps plug(a,b,c)";

/// How many they are.
const COUNT: usize = 14;

/// Other terms: before all of these, between two of them, and behind all.
const ABSENT: &str = "kamp lamp(5) lamp(4,3) plug(a,b) plugs";

/// A table of no properties.
fn new_table(rt: &impl Abort, alloc: Global) -> Box<PropTable> {
    boxed(rt, alloc, PropTable::new(alloc).expect(rt, "memory"))
}

/// Keeps a term. If memory runs out, it sees that the table is as it was, and tries again.
fn keep(rt: &impl Abort, table: &mut PropTable, term: &GroundRef<'_>) -> PropId
    requires { IsTrue (names_are_names (ground_of term.now)) }
{
    let count = table.len();
    match table.intern(term) {
        Ok(p) => p,
        Err(_) => {
            assert!(rt; table.len() == count && table.lookup(term).is_none());
            table.intern(term).expect(rt, "memory")
        }
    }
}

/// Keeps the terms, each fifth one next.
fn keep_terms(rt: &impl Abort, table: &mut PropTable) {
    for step in 0..COUNT {
        let spelt = TERMS.split(' ').nth(step * 5 % COUNT);
        let spelt = spelt.expect(rt, "a term");
        let _ = keep(rt, table, &term_of(rt, spelt.as_bytes()));
    }
}

/// Whether a term stands at a place, is found, and keeps its number.
fn stands_at(rt: &impl Abort, table: &mut PropTable, place: usize, wanted: &GroundRef<'_>) -> bool
    requires { IsTrue (names_are_names (ground_of wanted.now)) }
{
    if table.len() <= place {
        return false;
    }
    let p = table.nth_in_order(place);
    order(&table.ground(p), wanted).is_eq()
        && table.lookup(wanted) == Some(p)
        && keep(rt, table, wanted) == p
}

/// The same of the term that a text spells.
fn stands_spelt_at(rt: &impl Abort, table: &mut PropTable, place: usize, spelt: &str) -> bool {
    stands_at(rt, table, place, &term_of(rt, spelt.as_bytes()))
}

/// Sees that the terms stand in order.
fn expect_order(rt: &impl Abort, table: &mut PropTable) {
    for (place, spelt) in TERMS.split(' ').enumerate() {
        assert!(rt; stands_spelt_at(rt, table, place, spelt), "{spelt}");
    }
}

/// Whether the term that a text spells is not found.
fn is_absent(rt: &impl Abort, table: &PropTable, spelt: &str) -> bool {
    table.lookup(&term_of(rt, spelt.as_bytes())).is_none()
}

/// Sees that the other terms are not found.
fn expect_absent(rt: &impl Abort, table: &PropTable) {
    for spelt in ABSENT.split(' ') {
        assert!(rt; is_absent(rt, table, spelt), "{spelt}");
    }
}

/// Keeps the terms, and sees that they stand in order and that others are not found.
fn keep_in_order(rt: &impl Abort, table: &mut PropTable) {
    keep_terms(rt, table);
    assert!(rt; table.len() == COUNT && TERMS.split(' ').count() == COUNT);
    expect_order(rt, table);
    expect_absent(rt, table);
}

#[test]
fn terms_stand_in_order(rt: HostRuntime) {
    keep_in_order(&rt, &mut new_table(&rt, rt.alloc()));
}

/// The text of a term by its number, such that terms go as the numbers do.
fn numbered(number: usize) -> [u8; 3] {
    let tens = (number / 10 % 10) as u8;
    let ones = (number % 10) as u8;
    [b'p', b'0' + tens, b'0' + ones]
}

/// Forgets a property, or counts a mention less or two more, as `pick` says where it can be done. It answers how
/// often the property is mentioned then, and `None` where it went.
fn change(table: &mut PropTable, p: PropId, pick: u32) -> Option<u32>
    requires { IsSome (prop_at p.0 table.old) }
{
    let count = table.mentions(p);
    if count == 0 && pick == 0 {
        table.forget(p);
        return None;
    }
    if count > 0 && pick <= 1 {
        table.release(p, 1);
        return Some(count - 1);
    }
    if count < 1000 {
        table.mention(p, 2);
        return Some(count + 2);
    }
    Some(count)
}

/// Whether a term is mentioned so often. `None`: it is not kept.
fn is_counted(table: &PropTable, term: &GroundRef<'_>, count: Option<u32>) -> bool {
    match table.lookup(term) {
        Some(p) => count == Some(table.mentions(p)),
        None => count.is_none(),
    }
}

/// Changes the property of a term, or keeps the term. It answers how often it is mentioned then, and `None` where it went.
fn change_or_keep(
    rt: &impl Abort,
    table: &mut PropTable,
    term: &GroundRef<'_>,
    pick: u32,
) -> Option<u32>
    requires { IsTrue (names_are_names (ground_of term.now)) }
{
    if let Some(p) = table.lookup(term) {
        return change(table, p, pick);
    }
    let _ = keep(rt, table, term);
    Some(0)
}

/// Sees that the term with a number is mentioned so often, and changes that.
fn change_numbered(
    rt: &impl Abort,
    table: &mut PropTable,
    count: Option<u32>,
    number: usize,
    pick: u32,
) -> Option<u32> {
    let spelt = numbered(number);
    let wanted = term_of(rt, &spelt);
    assert!(rt; is_counted(table, &wanted, count), "of {number}");
    change_or_keep(rt, table, &wanted, pick)
}

/// Makes many changes in mixed order, and answers how often the term with each number is mentioned then.
fn change_mixed(rt: &impl Abort, table: &mut PropTable) -> [Option<u32>; 100] {
    let mut counts: [Option<u32>; 100] = [None; 100];
    let mut state: u32 = 1;
    for _ in 0..2000 {
        state = state.wrapping_mul(1664525).wrapping_add(1013904223);
        let number = (state >> 16) as usize % 100;
        counts[number] = change_numbered(rt, table, counts[number], number, (state >> 8) % 4);
    }
    counts
}

/// Whether the term with a number stands at a place, and is mentioned so often.
fn stands_with(
    rt: &impl Abort,
    table: &PropTable,
    place: usize,
    number: usize,
    count: u32,
) -> bool {
    if table.len() <= place {
        return false;
    }
    let p = table.nth_in_order(place);
    let spelt = numbered(number);
    order(&table.ground(p), &term_of(rt, &spelt)).is_eq() && table.mentions(p) == count
}

/// Sees that those terms stand in the order of their numbers that are kept, each mentioned so often, and no others.
fn expect_counts(rt: &impl Abort, table: &PropTable, counts: &[Option<u32>]) {
    let mut place: usize = 0;
    for (number, count) in counts.iter().enumerate() {
        if let Some(count) = count {
            assert!(rt;
                stands_with(rt, table, place, number, *count),
                "of {number}"
            );
            place = place.wrapping_add(1);
        }
    }
    assert!(rt; place == table.len());
}

#[test]
fn mixed_changes_leave_the_right_table(rt: HostRuntime) {
    let mut table = new_table(&rt, rt.alloc());
    let counts = change_mixed(&rt, &mut table);
    expect_counts(&rt, &table, &counts);
}

/// A number that leaves nothing of the hash of a name, so that the key of a term with this name and this argument is 0.
fn cancelling(name: &[u8]) -> i64 {
    let mut hasher = FoldHasher::default();
    hasher.write(name);
    hasher.finish().cast_signed()
}

/// The key under which a table finds a term of one argument, which is a number. `None`: it has other arguments.
#[tactic(auto, unfolding(ec_store::specs::PropKeys::key_of, ec_store::specs::PropKeys::fed_by))]
fn key_of(term: &GroundRef<'_>) -> Option<u64>
    ensures { IfSome result (λ key. key ≡ key_of (ground_of term.now)) }
{
    match term.args.as_slice() {
        [ArgRef::Int(number)] => {
            let mut hasher = FoldHasher::default();
            hasher.write(term.name);
            hasher.write_i64(*number);
            Some(hasher.finish())
        }
        _ => None,
    }
}

/// Forgets a term if it may go, and otherwise keeps it. It answers the number that the term has then.
fn forget_or_keep(
    rt: &impl Abort,
    table: &mut PropTable,
    term: &GroundRef<'_>,
    may_go: bool,
) -> Option<PropId>
    requires { IsTrue (names_are_names (ground_of term.now)) }
{
    match table.lookup(term) {
        Some(p) if may_go => {
            let _ = change(table, p, 0);
            table.lookup(term)
        }
        _ => Some(keep(rt, table, term)),
    }
}

/// Whether the key of a term is 0, and it is found under a number. `None`: it is not kept.
fn is_found(table: &PropTable, term: &GroundRef<'_>, known: Option<PropId>) -> bool {
    key_of(term) == Some(0) && table.lookup(term) == known
}

/// Sees that the term that a text spells is found as it was kept, and forgets or keeps it.
fn change_of_one_key(
    rt: &impl Abort,
    table: &mut PropTable,
    known: Option<PropId>,
    spelt: &str,
    may_go: bool,
) -> Option<PropId> {
    let wanted = term_of(rt, spelt.as_bytes());
    assert!(rt; is_found(table, &wanted, known), "{spelt}");
    forget_or_keep(rt, table, &wanted, may_go)
}

/// The text of the term with a number whose key is 0.
fn spelt_with_key(rt: &impl Abort, alloc: Global, number: usize) -> String {
    let argument = cancelling(&numbered(number));
    format!(in alloc; "p{:02}({})", number, argument).expect(rt, "memory")
}

/// Keeps and forgets terms of one key in mixed order. It answers the number that each has then.
fn change_all_of_one_key(
    rt: &impl Abort,
    alloc: Global,
    table: &mut PropTable,
) -> [Option<PropId>; 100] {
    let mut numbers: [Option<PropId>; 100] = [None; 100];
    for step in 0..700 {
        let number = step * 37 % 100;
        let spelt = spelt_with_key(rt, alloc, number);
        let known = numbers[number];
        numbers[number] = change_of_one_key(rt, table, known, spelt.as_str(), step % 3 > 0);
    }
    numbers
}

/// How many of these there are.
fn count_kept(numbers: &[Option<PropId>]) -> usize {
    let mut count: usize = 0;
    for number in numbers {
        if number.is_some() {
            count = count.wrapping_add(1);
        }
    }
    count
}

#[test]
fn terms_of_one_key_are_told_apart(rt: HostRuntime) {
    let mut table = new_table(&rt, rt.alloc());
    let numbers = change_all_of_one_key(&rt, rt.alloc(), &mut table);
    assert!(rt; table.len() == count_kept(&numbers));
}
