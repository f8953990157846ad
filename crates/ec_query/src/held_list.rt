//! Which properties hold at a time, listed on the stack as far as there is room.
ghost use Rattle.std.specs.Prelude.{◌≡◌, ◌+◌, ◌<◌, ◌≤◌, ◌^◌, ◌∷◌, [], ◌++◌, ◌↔◌, List, IsSome, IfSome, length, map};
ghost use Rattle.ec_terms.specs.declared.ids.PropId.{PropId};
ghost use Rattle.ec_axioms.specs.Timeline.{is_held_at};
ghost use Rattle.ec_intervals.specs.Near.{IsNear};
ghost use Rattle.ec_intervals.specs.Table.{members_at, plain_intervals};
ghost use Rattle.ec_store.specs.Table.{number_of};
ghost use Rattle.ec_query.specs.Holding.{held_numbers};
ghost use Rattle.ec_query.specs.Listed.{Lists};

use crate::held::Held;
use ec_intervals::{Intervals, Near};
use ec_moment::Moment;
use ec_rows::SpanRow;
use ec_terms::PropId;
use std::marker::Model;

/// How many properties a list has room for.
const MOST_LISTED: usize = 256;

/// Properties that hold at a time: how many they are, and the numbers of the first of them. The numbers stand in the
/// list itself, so it takes no memory.
#[derive(Drop)]
pub(crate) struct HeldList {
    numbers: [PropId; MOST_LISTED],
    count: usize,
}

impl Model for HeldList {
    ghost use Rattle.std.specs.Prelude.{◌≡◌, length, take};
    ghost use Rattle.ec_query.specs.declared.held_list.TheConstants.{MOST_LISTED};
    ghost use Rattle.ec_query.specs.Listed.{Listed};

    ghost Value = { Listed };

    ghost view = { λ list. record { count = list.count; first = take list.count list.numbers } };

    ghost invariant = { λ list. length list.numbers ≡ MOST_LISTED };
}

impl HeldList {
    /// The list of no properties.
    fn new() -> Self
        ensures { Lists result [] }
    {
        HeldList {
            numbers: [PropId(0); MOST_LISTED],
            count: 0,
        }
    }

    /// Counts one more property, and keeps its number where there is room.
    fn push(&mut self, p: PropId)
        requires { self.old.count + 1 < 2 ^ 64 }
        ensures listed { (ps : List PropId) → Lists self.old ps → Lists self.new (ps ++ p ∷ []) }
        ensures count { self.new.count ≡ self.old.count + 1 }
    {
        if self.count < MOST_LISTED {
            self.numbers[self.count] = p;
        }
        self.count += 1;
    }

    /// How many properties were listed, also where their numbers had no room.
    pub(crate) fn count(&self) -> usize
        ensures { result ≡ self.now.count }
    {
        self.count
    }

    /// The numbers of all properties that were listed, if there was room for them.
    pub(crate) fn all(&self) -> Option<&[PropId]>
        ensures some { IsSome result ↔ (self.now.count ≤ MOST_LISTED) }
        ensures first { IfSome result (λ numbers. numbers.now ≡ self.now.first) }
    {
        self.numbers.get(..self.count)
    }
}

/// Whether a property holds at a time, told by its group where that is left out.
fn holds_near<T: Moment, I: SpanRow<T>>(
    intervals: &Intervals<T, I>,
    near: &Near,
    p: PropId,
    at: T,
) -> bool
    requires { IsNear T.rank (T.rank at) intervals.now near.now }
    ensures { result ≡ is_held_at (plain_intervals T.rank (members_at p.0 intervals.now)) (T.rank at) }
{
    if !near.has(p) {
        return false;
    }
    intervals.covers(p, at)
}

/// Lists those of some properties that hold at a time.
fn list_run<T: Moment, I: SpanRow<T>>(
    held: &Held<'_, T, I>,
    near: &Near,
    run: &[PropId],
    at: T,
    list: &mut HeldList,
)
    requires near { IsNear T.rank (T.rank at) held.now.intervals.now near.now }
    requires count { list.old.count + length run.now < 2 ^ 64 }
    ensures listed { (ps : List PropId) → Lists list.old ps → Lists list.new (ps ++ held_numbers T.rank held.now.intervals.now (T.rank at) run.now) }
    ensures within { list.new.count ≤ list.old.count + length run.now }
{
    for p in run {
        if holds_near(held.intervals, near, *p, at) {
            list.push(*p);
        }
    }
}

/// Lists the kept properties that hold at a time, in their order.
pub(crate) fn list_held<T: Moment, I: SpanRow<T>>(held: &Held<'_, T, I>, at: T) -> HeldList
    ensures { Lists result (held_numbers T.rank held.now.intervals.now (T.rank at) (map number_of held.now.props.now)) }
{
    let near = held.intervals.near(at);
    let mut list = HeldList::new();
    let mut i = 0;
    while i < held.props.len() {
        let run = held.props.run_in_order(i);
        list_run(held, &near, run, at, &mut list);
        i += run.len();
    }
    list
}
