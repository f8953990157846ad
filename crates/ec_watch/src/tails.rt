//! The intervals of watched properties that a change may move, kept while it is made.
ghost use Rattle.std.specs.Prelude.{◌≡◌, [], IfNone, IfOk, IfSome, IsSome, IsTrue, OnErr, OnOk, drop};
ghost use Rattle.std.specs.List.Sorted.{IsPermutation, IsSortedBy};
ghost use Rattle.std.specs.Ordering.{is_lt, nat_cmp};
ghost use Rattle.ec_rows.specs.Ordered.{is_ascending};
ghost use Rattle.ec_store.specs.Table.{prop_at};
ghost use Rattle.ec_intervals.specs.Table.{members_at};
ghost use Rattle.ec_watch.specs.Tails.{AreGathered, AreKept, AreKeptTails, IsTailAt, IsTailFrom, NeedsNoTail};
ghost use Rattle.ec_watch.specs.Watched.{comes_first};

use crate::row::Row;
use crate::watches::find_row;
use ec_delta::{Touched, Touches};
use ec_intervals::{Interval, Intervals};
use ec_lists::NoMemory;
use ec_moment::Moment;
use ec_rows::SpanRow;
use ec_store::PropTable;
use ec_terms::{PropId, Sequence};
use std::alloc::Global;
use std::cmp::Ordering;
use std::marker::Model;

/// The last intervals of a watched property, as they are before a change: all but those that end before the first instant at
/// which its marks change. These stay the property's first ones.
#[derive(Drop)]
pub struct Tail<T: Moment> {
    /// The place of the property's row among the watched ones, from 0.
    pub place: usize,
    /// How many intervals stand before those that are kept.
    pub skipped: usize,
    pub intervals: Sequence<Interval<T>>,
}

/// Tails of watched properties, in the order of their rows.
#[derive(Drop)]
pub struct Tails<T: Moment> {
    tails: Vec<Tail<T>>,
    alloc: Global,
}

impl<T: Moment> Model for Tails<T> {
    ghost use Rattle.std.specs.Prelude.{List};
    ghost use Rattle.ec_watch.specs.declared.tails.Tail.{Tail};

    ghost Value = { List (Tail T) };

    ghost view = { λ tails. tails.tails.items };
}

/// The intervals of a property from a place on. `Err`: memory ran out.
fn copied_from<T: Moment, I: SpanRow<T>>(
    alloc: Global,
    intervals: &Intervals<T, I>,
    id: PropId,
    skipped: usize,
) -> Result<Sequence<Interval<T>>, NoMemory>
    ensures { IfOk result (λ copied. copied ≡ drop skipped (members_at id.0 intervals.now)) }
{
    let mut copied = Vec::new(alloc);
    for place in skipped..intervals.len(id) {
        copied.push(intervals.member(id, place))?;
    }
    Ok(Sequence::from_vec(copied))
}

/// The tail of a property whose marks change first at an instant. `Err`: memory ran out.
fn tail_from<T: Moment, I: SpanRow<T>>(
    alloc: Global,
    intervals: &Intervals<T, I>,
    id: PropId,
    from: T,
    place: usize,
) -> Result<Tail<T>, NoMemory>
    ensures from { IfOk result (λ tail. IsTailFrom T.rank (T.rank from) (members_at id.0 intervals.now) tail) }
    ensures place { IfOk result (λ tail. tail.place ≡ place) }
{
    let skipped = intervals.ended_before(id, from);
    Ok(Tail {
        place,
        skipped,
        intervals: copied_from(alloc, intervals, id, skipped)?,
    })
}

/// The tail of a property whose marks change, if some session watches it and the change may move an interval of it. `Err`:
/// memory ran out.
fn tail_of<T: Moment, I: SpanRow<T>>(
    alloc: Global,
    watched: &[Row],
    props: &PropTable,
    intervals: &Intervals<T, I>,
    id: PropId,
    touched: &Touched<T>,
) -> Result<Option<Tail<T>>, NoMemory>
    requires ascend { IsTrue (is_ascending comes_first watched.now) }
    requires kept { IsSome (prop_at id.0 props.now) }
    ensures tail { IfOk result (λ found. IfSome found (λ tail. IsTailAt T.rank watched.now props.now intervals.now id.0 touched.now tail)) }
    ensures none { IfOk result (λ found. IfNone found (NeedsNoTail watched.now props.now id.0 touched.now)) }
{
    if !touched.matters {
        return Ok(None);
    }
    match find_row(watched, &props.ground(id)) {
        Some(place) => Ok(Some(tail_from(alloc, intervals, id, touched.from, place)?)),
        None => Ok(None),
    }
}

/// Puts tails in the order of their rows. It takes no memory.
fn sort_by_place<T: Moment>(tails: &mut Vec<Tail<T>>)
    ensures same { IsPermutation tails.old.items tails.new.items }
    ensures order { IsSortedBy (λ a b. is_lt (nat_cmp a.place b.place)) tails.new.items }
{
    tails.sort_unstable_by(
        |a, b| -> Ordering
            ensures { result ≡ nat_cmp a.now.place b.now.place }
        { a.place.cmp(&b.place) },
    );
}

impl<T: Moment> Tails<T> {
    /// No tails. It takes no memory.
    pub fn new(alloc: Global) -> Tails<T>
        ensures { result ≡ [] }
    {
        Tails {
            tails: Vec::new(alloc),
            alloc,
        }
    }

    /// The tails, in the order of their rows.
    pub fn as_slice(&self) -> &[Tail<T>]
        ensures { result.now ≡ self.now }
    {
        self.tails.as_slice()
    }

    /// Takes all tails out. Room for as many is kept.
    pub fn clear(&mut self)
        ensures { self.new ≡ [] }
    {
        self.tails.clear();
    }

    /// Adds the tails of all touched properties that need one, in the order in which these are touched. `Err`: memory ran out.
    fn gather<I: SpanRow<T>>(
        &mut self,
        watched: &[Row],
        props: &PropTable,
        intervals: &Intervals<T, I>,
        touched: &Touches<T>,
    ) -> Result<(), NoMemory>
        requires ascend { IsTrue (is_ascending comes_first watched.now) }
        requires kept { AreKept props.now touched.now }
        requires none { self.old ≡ [] }
        ensures gathered { OnOk result (AreGathered T.rank watched.now props.now intervals.now touched.now self.new) }
    {
        let _ = props.len();
        for i in 0..touched.len() {
            let (id, change) = touched.row(i);
            if let Some(tail) = tail_of(self.alloc, watched, props, intervals, id, &change)? {
                self.tails.push(tail)?;
            }
        }
        Ok(())
    }

    /// Keeps the tails of all watched properties of which a change that is planned may move an interval, in place of those that
    /// were there. The caches are as they are before the change. `Err`: memory ran out, and there are no tails.
    pub fn keep<I: SpanRow<T>>(
        &mut self,
        watched: &[Row],
        props: &PropTable,
        intervals: &Intervals<T, I>,
        touched: &Touches<T>,
    ) -> Result<(), NoMemory>
        requires ascend { IsTrue (is_ascending comes_first watched.now) }
        requires kept { AreKept props.now touched.now }
        ensures kept { OnOk result (AreKeptTails T.rank watched.now props.now intervals.now touched.now self.new) }
        ensures err { OnErr result (self.new ≡ []) }
    {
        self.clear();
        if watched.is_empty() {
            return Ok(());
        }
        match self.gather(watched, props, intervals, touched) {
            Ok(()) => {
                sort_by_place(&mut self.tails);
                Ok(())
            }
            Err(none) => {
                self.clear();
                Err(none)
            }
        }
    }
}
