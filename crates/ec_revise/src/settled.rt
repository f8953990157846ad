//! One property at one instant: its new mark by what turned there, and what the property is behind the instant.
ghost use Rattle.std.specs.Prelude.{◌≡◌, ◌+◌, ◌-◌, ◌<◌, ◌≤◌, ◌^◌, List, is_some};
ghost use Rattle.ec_terms.specs.declared.ground.Ground.{Ground};
ghost use Rattle.ec_terms.specs.declared.theory.Theory.{Theory};
ghost use Rattle.ec_changes.specs.QuietLaws.{current_behind};
ghost use Rattle.ec_rows.specs.PlainMarks.{plain_mark};
ghost use Rattle.ec_revise.specs.Sweep.{other_currency};
ghost use Rattle.ec_revise.specs.Visit.{PlainTurn, mark_after, mark_matters, mark_planned};
ghost use Rattle.ec_revise.specs.Tallied.{HasRoomFor, IsTallyOf, mark_tallied};

use ec_moment::Moment;
use ec_rows::Mark;

/// How many entries count in each number of a mark.
#[derive(Clone, Copy, Debug, PartialEq, Eq)]
pub struct Counts {
    pub inits: u32,
    pub terms: u32,
    pub clashes: u32,
}

/// What turned at an instant and counts for one property: the entries that came to act, and those that ceased to.
#[derive(Clone, Copy, Debug, PartialEq, Eq)]
pub struct Tallied {
    pub up: Counts,
    pub down: Counts,
}

/// Whether a property is current at an instant, in the old list and in the new one.
#[derive(Clone, Copy, Debug, PartialEq, Eq)]
pub struct Currencies {
    pub in_old: bool,
    pub in_new: bool,
}

/// A property that is settled at an instant: its new mark there, and whether that is another than the old one; the new
/// currency just behind the instant, if it is not the old one; and whether the change may move an interval.
#[derive(Clone, Copy, Debug, PartialEq, Eq)]
pub struct Settled<T> {
    pub mark: Mark<T>,
    pub is_changed: bool,
    pub dirty: Option<bool>,
    pub matters: bool,
}

/// A count with what came and without what went.
fn count_after(count: u32, up: u32, down: u32) -> u32
    requires fits { count + up < 2 ^ 32 }
    requires above { down ≤ count + up }
    ensures { result ≡ count + up - down }
{
    count + up - down
}

/// The mark with what turned. Three zeros are no mark.
fn mark_with<T: Moment>(mark: &Mark<T>, tallied: &Tallied) -> Mark<T>
    requires { HasRoomFor mark.now tallied.now }
    ensures { result ≡ mark_tallied mark.now tallied.now }
{
    Mark {
        at: mark.at,
        inits: count_after(mark.inits, tallied.up.inits, tallied.down.inits),
        terms: count_after(mark.terms, tallied.up.terms, tallied.down.terms),
        clashes: count_after(mark.clashes, tallied.up.clashes, tallied.down.clashes),
    }
}

/// Whether a property is current just behind an instant, by its currency there and its mark.
fn is_current_behind<T: Moment>(current: bool, mark: &Mark<T>) -> bool
    ensures { result ≡ current_behind current (plain_mark T.rank mark.now) }
{
    if mark.inits > 0 || mark.terms > 0 || mark.clashes > 0 {
        mark.inits > 0
    } else {
        current
    }
}

/// The new currency, if it is not the old one.
fn other(in_old: bool, in_new: bool) -> Option<bool>
    ensures { result ≡ other_currency in_old in_new }
{
    if in_old == in_new { None } else { Some(in_new) }
}

/// Whether two marks at one time differ in a count.
fn differ<T: Moment>(mark: &Mark<T>, new: &Mark<T>) -> bool
    ensures { result ≡ is_some (mark_planned (plain_mark T.rank mark.now) (plain_mark T.rank new.now)) }
{
    mark.inits != new.inits || mark.terms != new.terms || mark.clashes != new.clashes
}

/// Settles a property at an instant: from its old mark there, or three zeros where it has none, what turned, and its two
/// currencies there.
pub fn settle<T: Moment>(mark: &Mark<T>, tallied: &Tallied, current: Currencies) -> Settled<T>
    requires { HasRoomFor mark.now tallied.now }
    ensures mark { result.mark ≡ mark_tallied mark.now tallied.now }
    ensures after_turns { (theory : Theory) (turns : List PlainTurn) (p : Ground) → IsTallyOf theory turns p tallied.now → plain_mark T.rank result.mark ≡ mark_after theory turns p (plain_mark T.rank mark.now) }
    ensures changed { result.is_changed ≡ is_some (mark_planned (plain_mark T.rank mark.now) (plain_mark T.rank result.mark)) }
    ensures dirty { result.dirty ≡ other_currency (current_behind current.in_old (plain_mark T.rank mark.now)) (current_behind current.in_new (plain_mark T.rank result.mark)) }
    ensures matters { result.matters ≡ mark_matters current.in_old current.in_new (plain_mark T.rank mark.now) (plain_mark T.rank result.mark) }
{
    let new = mark_with(mark, tallied);
    let behind_old = is_current_behind(current.in_old, mark);
    let behind_new = is_current_behind(current.in_new, &new);
    let is_changed = differ(mark, &new);
    let may_move = current.in_old || current.in_new || mark.inits > 0 || new.inits > 0;
    Settled {
        mark: new,
        is_changed,
        dirty: other(behind_old, behind_new),
        matters: is_changed && may_move,
    }
}
