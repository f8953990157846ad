//! What no clause shows: that memory is given, and what stands in the lists under some theories.
ghost use Rattle.std.specs.Prelude.{◌<◌, IsTrue, IsSome, OnOk};
ghost use Rattle.ec_terms.specs.Binding.{is_small_place, IsSmall};
ghost use Rattle.ec_terms.specs.Matchable.{IsMatchable};
ghost use Rattle.ec_terms.specs.Term.{ground_of, names_are_names};
ghost use Rattle.ec_store.specs.Table.{prop_at};
ghost use Rattle.ec_exclusive.specs.Neighbours.{AreNeighbours};

use crate::fixtures::{ONE_PLACE, Tables, boxed, enter, enter_text, no_tables, term_of, theory_of};
use ec_exclusive::{Neighbours, exclusive};
use ec_layers::tables::row_of;
use ec_lists::NoMemory;
use ec_store::PropTable;
use ec_terms::{
    Arg, ArgRef, ArgRefs, Exclusive, GroundRef, Name, PatArg, PatArgs, Pattern, PropId, Sequence,
    Theory,
};
use std::alloc::Global;
use std::process::Abort;

/// Declarations; properties, added in this order; and the neighbours of each, by their places among them.
const ROWS: &str = "
exclusive at(P,X) at(P,Y). : at(bob,h1) at(bob,h2) at(ann,h1) at(bob) => 1; 0; none; none
# the later properties come first in the order of terms
exclusive at(P,X) at(P,Y). : at(bob,h3) at(bob,h2) at(bob,h1) => 1 2; 0 2; 0 1
# what is open is locked by nothing
exclusive open(D) locked(D,K). : locked(d1,k1) open(d1) open(d2) locked(d1,k2) locked(d3,k1) open => 1; 0 3; none; 1; none; none
# one property fits both sides by itself
exclusive likes(X,Y) likes(Y,X). : likes(a,a) likes(a,b) likes(b,a) likes(a,c) => none; 2; 1; none
# two declarations have one side in common
exclusive open(D) locked(D,K). exclusive open(D) broken(D). : open(d1) broken(d1) locked(d1,k1) broken(d2) => 1 2; 0; 0; none
# several declarations speak of the same two properties
exclusive at(P,X) at(P,Y). exclusive at(P,X) at(P,Y). exclusive at(P,X) at(Q,X). : at(bob,h1) at(bob,h2) at(ann,h1) at(ann,h2) => 1 2; 0 3; 0 3; 1 2
# no declaration
 : at(bob,h1) at(bob,h2) => none; none
";

/// Takes a property away and forgets it, if it is added and nothing mentions it.
fn leave(theory: &Theory, tables: &mut Tables, p: PropId) -> bool
    requires { AreNeighbours theory.now tables.old.props tables.old.neighbours }
    ensures { AreNeighbours theory.now tables.new.props tables.new.neighbours }
{
    if !tables.neighbours.is_added(p) {
        return false;
    }
    if tables.props.mentions(p) != 0 {
        return false;
    }
    tables.neighbours.drop_prop(p);
    tables.props.forget(p);
    true
}

/// Whether a list has at a place what stands at another place among the properties.
fn is_at(list: &[PropId], i: usize, ids: &[PropId], place: usize) -> bool {
    i < list.len() && place < ids.len() && list[i] == ids[place]
}

/// Whether a list has the properties at the places that are spelt as `0 3`, or `none`.
fn are_at(list: &[PropId], ids: &[PropId], places: &str) -> bool {
    let mut count: usize = 0;
    for place in places.split_whitespace() {
        if let Ok(place) = place.parse::<usize>() {
            if !is_at(list, count, ids, place) {
                return false;
            }
            count = count.wrapping_add(1);
        }
    }
    count == list.len()
}

/// Whether the neighbours of a property are those at the places that are spelt as `0 3`, or `none`.
fn has_neighbours(neighbours: &Neighbours, ids: &[PropId], p: PropId, places: &str) -> bool {
    neighbours.is_added(p) && are_at(neighbours.of(p), ids, places)
}

/// Keeps the terms of a text, adds them one by one, and gives their numbers.
fn enter_all(
    rt: &impl Abort,
    alloc: Global,
    theory: &Theory,
    tables: &mut Tables,
    terms: &str,
) -> Vec<PropId>
    requires matchable { IsMatchable theory.now }
    requires neighbours { AreNeighbours theory.now tables.old.props tables.old.neighbours }
    ensures { AreNeighbours theory.now tables.new.props tables.new.neighbours }
{
    let mut ids = Vec::new(alloc);
    for text in terms.split_whitespace() {
        let p = enter_text(rt, theory, tables, text);
        ids.push(p).expect(rt, "memory");
    }
    ids
}

/// Whether each property has its neighbours, which are given by their places among the properties, as `1 2; 0; none`.
fn all_have_neighbours(neighbours: &Neighbours, ids: &[PropId], wanted: &str) -> bool {
    for (p, places) in ids.iter().zip(wanted.split(';')) {
        if !has_neighbours(neighbours, ids, *p, places) {
            return false;
        }
    }
    ids.len() == wanted.split(';').count()
}

/// Keeps and adds the terms of a text, and says whether each has its neighbours.
fn stand_under(rt: &impl Abort, alloc: Global, theory: &Theory, terms: &str, wanted: &str) -> bool
    requires { IsMatchable theory.now }
{
    let mut tables = no_tables(rt, alloc, theory);
    let ids = enter_all(rt, alloc, theory, &mut tables, terms);
    all_have_neighbours(&tables.neighbours, &ids, wanted)
}

/// Builds a row and says whether each of its properties has its neighbours.
fn stands(rt: &impl Abort, alloc: Global, told: &str, wanted: &str) -> bool {
    let (declared, terms) = told.split_once(" : ").expect(rt, told);
    let checked = theory_of(rt, alloc, declared);
    stand_under(rt, alloc, checked.theory(), terms, wanted)
}

#[test]
fn each_added_property_has_its_neighbours(rt: HostRuntime) {
    for line in ROWS.lines() {
        if let Some((told, wanted)) = row_of(line) {
            assert!(rt; stands(&rt, rt.alloc(), told, wanted), "{line}");
        }
    }
}

/// Whether two properties are the neighbours of one another.
fn are_two(neighbours: &Neighbours, ids: &[PropId; 2]) -> bool {
    all_have_neighbours(neighbours, ids, "1; 0")
}

/// Whether the second of two neighbours goes, so that the first has none.
fn goes(theory: &Theory, tables: &mut Tables, ids: &[PropId; 2]) -> bool
    requires { AreNeighbours theory.now tables.old.props tables.old.neighbours }
    ensures { AreNeighbours theory.now tables.new.props tables.new.neighbours }
{
    leave(theory, tables, ids[1])
        && !tables.neighbours.is_added(ids[1])
        && has_neighbours(&tables.neighbours, ids, ids[0], "none")
}

/// Whether two terms are neighbours, and are so again after the second has gone and has come back under the number that it
/// had.
fn two_come_back(rt: &impl Abort, theory: &Theory, tables: &mut Tables) -> bool
    requires matchable { IsMatchable theory.now }
    requires neighbours { AreNeighbours theory.now tables.old.props tables.old.neighbours }
{
    let p = enter_text(rt, theory, tables, "at(bob,home)");
    let q = enter_text(rt, theory, tables, "at(bob,work)");
    let ids = [p, q];
    are_two(&tables.neighbours, &ids)
        && goes(theory, tables, &ids)
        && enter_text(rt, theory, tables, "at(bob,work)") == q
        && are_two(&tables.neighbours, &ids)
}

/// Whether a property that goes and comes back has the neighbours that it had.
fn comes_back(rt: &impl Abort, alloc: Global, theory: &Theory) -> bool
    requires { IsMatchable theory.now }
{
    let mut tables = no_tables(rt, alloc, theory);
    two_come_back(rt, theory, &mut tables)
}

#[test]
fn a_property_that_comes_back_has_its_neighbours_again(rt: HostRuntime) {
    let checked = theory_of(&rt, rt.alloc(), ONE_PLACE);
    assert!(rt; comes_back(&rt, rt.alloc(), checked.theory()));
}

/// A term of two numbers.
fn pair(name: &Name, left: i64, right: i64) -> GroundRef<'_>
    ensures { IsTrue (names_are_names (ground_of result)) }
{
    let mut args = ArgRefs::new();
    args.push(ArgRef::Int(left));
    args.push(ArgRef::Int(right));
    GroundRef {
        name: name.as_bytes(),
        args,
    }
}

/// Whether a property is among the neighbours of a term exactly if it is exclusive to it by the plain test.
fn fits(
    theory: &Theory,
    props: &PropTable,
    list: &[PropId],
    term: &GroundRef<'_>,
    q: PropId,
) -> bool
    requires matchable { IsMatchable theory.now }
    requires named { IsTrue (names_are_names (ground_of term.now)) }
    requires kept { IsSome (prop_at q.0 props.now) }
{
    list.contains(&q) == exclusive(theory, term, &props.ground(q))
}

/// Whether the neighbours of a term are exactly those that are exclusive to it by the plain test over all properties.
fn are_all(theory: &Theory, props: &PropTable, list: &[PropId], term: &GroundRef<'_>) -> bool
    requires matchable { IsMatchable theory.now }
    requires named { IsTrue (names_are_names (ground_of term.now)) }
{
    for i in 0..props.len() {
        if !fits(theory, props, list, term, props.nth_in_order(i)) {
            return false;
        }
    }
    true
}

/// Whether `p` has as neighbours exactly those that are exclusive to it by the plain test.
fn has_all(theory: &Theory, tables: &Tables, p: PropId) -> bool
    requires matchable { IsMatchable theory.now }
    requires kept { IsSome (prop_at p.0 tables.now.props) }
{
    tables.neighbours.is_added(p)
        && are_all(
            theory,
            &tables.props,
            tables.neighbours.of(p),
            &tables.props.ground(p),
        )
}

/// How many persons and places there are.
const PERSONS: i64 = 30;

const PLACES: i64 = 40;

/// Keeps and adds that each person is at each place.
fn enter_many(rt: &impl Abort, theory: &Theory, tables: &mut Tables)
    requires matchable { IsMatchable theory.now }
    requires neighbours { AreNeighbours theory.now tables.old.props tables.old.neighbours }
{
    let name = Name::from_bytes(b"at").expect(rt, "a name");
    for n in 0..PERSONS * PLACES {
        let term = pair(&name, n % PERSONS, n / PERSONS);
        let _ = enter(rt, theory, tables, &term);
    }
}

/// Whether a sample of many properties have their neighbours.
fn sample_stands(theory: &Theory, tables: &Tables) -> bool
    requires { IsMatchable theory.now }
{
    for i in 0..tables.props.len() {
        if i % 97 == 0 && !has_all(theory, tables, tables.props.nth_in_order(i)) {
            return false;
        }
    }
    tables.props.len() == 1200
}

/// The same of the places of each person.
fn many_stand(rt: &impl Abort, alloc: Global, theory: &Theory) -> bool
    requires { IsMatchable theory.now }
{
    let mut tables = no_tables(rt, alloc, theory);
    enter_many(rt, theory, &mut tables);
    sample_stands(theory, &tables)
}

#[test]
fn many_properties_have_the_neighbours_of_the_plain_test(rt: HostRuntime) {
    let checked = theory_of(&rt, rt.alloc(), ONE_PLACE);
    assert!(rt; many_stand(&rt, rt.alloc(), checked.theory()));
}

/// Numbers that look random: the high bits of a congruential generator of 64 bits, from seed 1.
#[derive(Drop)]
struct Draws {
    state: u64,
}

impl Draws {
    /// A number below `n`.
    fn draw(&mut self, n: u64) -> u64
        requires { 0 < n }
        ensures { result < n }
    {
        self.state = self
            .state
            .wrapping_mul(6364136223846793005)
            .wrapping_add(1442695040888963407);
        (self.state >> 33) % n
    }
}

/// The names of random terms and patterns.
fn drawn_name(draws: &mut Draws) -> &'static [u8] {
    if draws.draw(3) < 2 { b"p" } else { b"q" }
}

/// The words that are arguments of random terms and patterns.
fn drawn_word(draws: &mut Draws) -> &'static [u8] {
    if draws.draw(2) == 0 { b"a" } else { b"b" }
}

/// A random place of a pattern: one of three variables, `_`, or a fixed argument.
fn drawn_place(rt: &impl Abort, draws: &mut Draws) -> PatArg
    ensures { IsTrue (is_small_place result) }
{
    match draws.draw(8) {
        0 => PatArg::Any,
        1 => PatArg::Fixed(Arg::Int(1)),
        2 => PatArg::Fixed(Arg::Word(Name::from_bytes(drawn_word(draws)).expect(rt, "a name"))),
        _ => PatArg::Var(draws.draw(3) as u32),
    }
}

/// A random pattern of up to two places.
fn drawn_pattern(rt: &impl Abort, alloc: Global, draws: &mut Draws) -> Pattern
    ensures { IsSmall result }
{
    let mut args = PatArgs::new(alloc);
    for _ in 0..draws.draw(3) {
        assert!(rt; args.len() < 8);
        args.push(drawn_place(rt, draws)).expect(rt, "memory");
    }
    let name = Name::from_bytes(drawn_name(draws)).expect(rt, "a name");
    Pattern { name, args }
}

/// A theory of no declarations.
fn undeclared(alloc: Global) -> Theory
    ensures { IsMatchable result }
{
    Theory {
        rules: Sequence::new(alloc),
        exclusives: Sequence::new(alloc),
        strongs: Sequence::new(alloc),
        initials: Sequence::new(alloc),
        times: Sequence::new(alloc),
    }
}

/// Adds the declaration that two patterns are exclusive.
fn declare(theory: &mut Theory, left: Pattern, right: Pattern) -> Result<(), NoMemory>
    requires theory { IsMatchable theory.old }
    requires left { IsSmall left }
    requires right { IsSmall right }
    ensures { OnOk result (IsMatchable theory.new) }
{
    theory.exclusives.push(Exclusive {
        clause: 1,
        left,
        right,
    })?;
    Ok(())
}

/// Adds the declaration that two random patterns are exclusive.
fn declare_drawn(rt: &impl Abort, alloc: Global, theory: &mut Theory, draws: &mut Draws)
    requires { IsMatchable theory.old }
    ensures { IsMatchable theory.new }
{
    let left = drawn_pattern(rt, alloc, draws);
    let right = drawn_pattern(rt, alloc, draws);
    declare(theory, left, right).expect(rt, "memory");
}

/// A random theory of one to three declarations.
fn drawn_theory(rt: &impl Abort, alloc: Global, draws: &mut Draws) -> Box<Theory>
    ensures { IsMatchable result.value }
{
    let mut theory = boxed(rt, alloc, undeclared(alloc));
    for _ in 0..draws.draw(3) + 1 {
        declare_drawn(rt, alloc, &mut theory, draws);
    }
    theory
}

/// The terms of random histories: each fits many patterns.
const TERMS: &str =
    "p q p(a) p(b) p(1) q(a) q(1) p(a,a) p(a,b) p(b,a) p(a,1) p(1,a) p(1,1) q(a,a) q(a,b) q(1,b)";

/// Keeps and adds a term that is not kept, and takes away one that is.
fn turn(rt: &impl Abort, theory: &Theory, tables: &mut Tables, term: &GroundRef<'_>)
    requires matchable { IsMatchable theory.now }
    requires named { IsTrue (names_are_names (ground_of term.now)) }
    requires neighbours { AreNeighbours theory.now tables.old.props tables.old.neighbours }
    ensures { AreNeighbours theory.now tables.new.props tables.new.neighbours }
{
    match tables.props.lookup(term) {
        Some(p) => {
            let _ = leave(theory, tables, p);
        }
        None => {
            let _ = enter(rt, theory, tables, term);
        }
    }
}

/// How many neighbours all properties have together. `None`: those of some property are not those of the plain test.
fn count_neighbours(theory: &Theory, tables: &Tables) -> Option<usize>
    requires { IsMatchable theory.now }
{
    let mut count: usize = 0;
    for i in 0..tables.props.len() {
        let p = tables.props.nth_in_order(i);
        if !tables.neighbours.is_added(p) || !has_all(theory, tables, p) {
            return None;
        }
        count = count.wrapping_add(tables.neighbours.of(p).len());
    }
    Some(count)
}

/// Adds a property or takes it away, sees that all have the neighbours of the plain test, and counts these.
fn count_turn(rt: &impl Abort, theory: &Theory, tables: &mut Tables, place: u64) -> usize
    requires matchable { IsMatchable theory.now }
    requires neighbours { AreNeighbours theory.now tables.old.props tables.old.neighbours }
    ensures { AreNeighbours theory.now tables.new.props tables.new.neighbours }
{
    let spelt = TERMS.split(' ').nth(place as usize).expect(rt, "a term");
    turn(rt, theory, tables, &term_of(rt, spelt.as_bytes()));
    count_neighbours(theory, tables).expect(rt, "neighbours")
}

/// The same at random, and many times.
fn count_drawn(rt: &impl Abort, alloc: Global, theory: &Theory, draws: &mut Draws) -> usize
    requires { IsMatchable theory.now }
{
    let mut tables = no_tables(rt, alloc, theory);
    let mut sum: usize = 0;
    for _ in 0..60 {
        let count = count_turn(rt, theory, &mut tables, draws.draw(16));
        sum = sum.wrapping_add(count);
    }
    sum
}

#[test]
fn random_theories_give_the_neighbours_of_the_plain_test(rt: HostRuntime) {
    let mut draws = Draws { state: 1 };
    let mut sum: usize = 0;
    for _ in 0..200 {
        let theory = drawn_theory(&rt, rt.alloc(), &mut draws);
        let count = count_drawn(&rt, rt.alloc(), &theory, &mut draws);
        sum = sum.wrapping_add(count);
    }
    assert!(rt; 10000 < sum);
}
