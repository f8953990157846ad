//! Where the marks of each property change.
ghost use Rattle.std.specs.Prelude.{◌≡◌, ◌+◌, ◌==◌, ℕ, [], Some, IfOk, IsTrue, OnOk, OnErr, if◌then◌else◌, ◌<◌, length, slice_get};
ghost use Rattle.ec_terms.specs.declared.ids.PropId.{PropId};
ghost use Rattle.ec_delta.specs.Touched.{are_once, first_touched, touched_at, touched_with, widened};

use ec_lists::{NoMemory, add_counts};
use ec_moment::Moment;
use ec_numbered::NumberMap;
use ec_terms::PropId;
use std::alloc::Global;
use std::marker::Model;

/// Where the marks of a property change: at the first of these instants, at the last, and at how many; how many of its new
/// marks stand where it had none, and how many of its new initiations do; and whether a change may move an interval.
#[derive(Clone, Copy, Debug, PartialEq, Eq)]
pub struct Touched<T> {
    pub from: T,
    pub until: T,
    pub count: usize,
    pub grows: usize,
    pub starts: usize,
    pub matters: bool,
}

/// A change of one mark: its instant; whether the property had no mark there, and none that initiates; and whether the
/// change may move an interval.
#[derive(Clone, Copy, Debug, PartialEq, Eq)]
pub struct Touch<T> {
    pub at: T,
    pub grows: bool,
    pub starts: bool,
    pub matters: bool,
}

/// Where marks change, for each property of which some do.
#[derive(Drop)]
pub struct Touches<T: Moment> {
    rows: NumberMap<Touched<T>>,
}

impl<T: Moment> Model for Touches<T> {
    ghost use Rattle.std.specs.Prelude.{ℕ, List};
    ghost use Rattle.ec_delta.specs.declared.touches.Touched.{Touched};

    ghost Value = { List (ℕ × Touched T) };

    ghost view = { λ touches. touches.rows };
}

/// A count with one more, if so.
fn count_if(count: usize, so: bool) -> Result<usize, NoMemory>
    ensures { IfOk result (λ more. more ≡ (if so then count + 1 else count)) }
{
    if so { add_counts(count, 1) } else { Ok(count) }
}

/// What is touched of a property once one more of its marks changes, later than all before. `Err`: a count is at its end.
fn widened<T: Moment>(touched: &Touched<T>, touch: &Touch<T>) -> Result<Touched<T>, NoMemory>
    ensures { IfOk result (λ wider. wider ≡ widened touched.now touch.now) }
{
    Ok(Touched {
        from: touched.from,
        until: touch.at,
        count: count_if(touched.count, true)?,
        grows: count_if(touched.grows, touch.grows)?,
        starts: count_if(touched.starts, touch.starts)?,
        matters: touched.matters || touch.matters,
    })
}

/// What is touched of a property of which this is the first mark that changes.
fn first<T: Moment>(touch: &Touch<T>) -> Touched<T>
    ensures { result ≡ first_touched touch.now }
{
    Touched {
        from: touch.at,
        until: touch.at,
        count: 1,
        grows: usize::from(touch.grows),
        starts: usize::from(touch.starts),
        matters: touch.matters,
    }
}

/// What is touched of a property with one change more. `Err`: a count is at its end.
fn touched_with<T: Moment>(
    touched: Option<Touched<T>>,
    touch: &Touch<T>,
) -> Result<Touched<T>, NoMemory>
    ensures { IfOk result (λ wider. wider ≡ touched_with touch.now touched) }
{
    match touched {
        Some(before) => widened(&before, touch),
        None => Ok(first(touch)),
    }
}

impl<T: Moment> Touches<T> {
    /// Nothing changes. It takes no memory.
    pub fn new(alloc: Global) -> Touches<T>
        ensures { result ≡ [] }
    {
        Touches {
            rows: NumberMap::new(alloc),
        }
    }

    /// Takes all out. Their room is kept.
    pub fn clear(&mut self)
        ensures { self.new ≡ [] }
    {
        self.rows.clear();
    }

    /// Of how many properties marks change. No property is listed twice.
    pub fn len(&self) -> usize
        ensures len { result ≡ length self.now }
        ensures once { IsTrue (are_once self.now) }
    {
        self.rows.len()
    }

    /// The property at a place, and where its marks change.
    pub fn row(&self, i: usize) -> (PropId, Touched<T>)
        requires { i < length self.now }
        ensures { slice_get self.now i ≡ Some (result.0.0, result.1) }
    {
        let (n, touched) = self.rows.row(i);
        (PropId(n), touched)
    }

    /// Where the marks of a property change. `None` exactly when none does.
    pub fn get(&self, p: PropId) -> Option<Touched<T>>
        ensures { result ≡ touched_at p.0 self.now }
    {
        self.rows.get(p.0)
    }

    /// Notes that one more mark of a property changes, later than all before. `Err`: memory ran out, or a count is at its
    /// end; then all is as it was.
    pub fn note(&mut self, p: PropId, touch: &Touch<T>) -> Result<(), NoMemory>
        ensures ok { OnOk result ((n : ℕ) → touched_at n self.new ≡ (if p.0 == n then Some (touched_with touch.now (touched_at n self.old)) else touched_at n self.old)) }
        ensures err { OnErr result (self.new ≡ self.old) }
    {
        let touched = touched_with(self.get(p), touch)?;
        self.rows.insert(p.0, touched)?;
        Ok(())
    }
}
