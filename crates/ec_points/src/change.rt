ghost use Rattle.std.specs.Prelude.{◌≡◌, ◌==◌, ◌&&◌, ◌∷◌, ◌++◌, ◌<◌, [], false, IsTrue, OnOk, OnErr, Some, filter, length, slice_get};
ghost use Rattle.std.specs.List.{list_any};
ghost use Rattle.std.specs.Ordering.{int_eq};
ghost use Rattle.ec_points.specs.Changes.{are_all_apart, count_of, has_change};

use ec_lists::NoMemory;
use ec_moment::Moment;
use ec_rows::Mark;
use ec_terms::PropId;
use std::alloc::Global;
use std::marker::Model;

/// New marks of properties, each property and time at most once. A mark of three zeros stands for none.
///
/// Beside each stands the place in the property's row at which to look for its time first. That is a hint, which
/// changes no answer, and contracts don't see it.
#[derive(Drop)]
pub struct MarkChange<T: Moment> {
    changes: Vec<Hinted<T>>,
}

/// The new mark of a property, and where to look for its time first.
#[derive(Clone, Copy)]
struct Hinted<T> {
    change: (PropId, Mark<T>),
    near: usize,
}

impl<T: Moment> Model for MarkChange<T> {
    ghost use Rattle.std.specs.Prelude.{List, IsTrue, map};
    ghost use Rattle.ec_points.specs.Changes.{Change, are_all_apart};

    ghost Value = { List (Change T) };

    ghost view = { λ change. map (λ hinted. hinted.change) change.changes.items };

    ghost invariant = { λ change. IsTrue (are_all_apart T.rank (map (λ hinted. hinted.change) change.changes.items)) };
}

/// Whether a new mark is of a property at a time.
fn is_of<T: Moment>(change: &(PropId, Mark<T>), p: PropId, at: T) -> bool
    ensures { result ≡ (change.now.0.0 == p.0 && int_eq (T.rank change.now.1.at) (T.rank at)) }
{
    change.0.0 == p.0 && change.1.at.order(&at).is_eq()
}

/// Whether some new mark is of a property at a time.
fn is_any_of<T: Moment>(changes: &[Hinted<T>], p: PropId, at: T) -> bool
    ensures { result ≡ list_any (λ hinted. hinted.change.0.0 == p.0 && int_eq (T.rank hinted.change.1.at) (T.rank at)) changes.now }
{
    changes.iter().any(
        |hinted| -> bool
            ensures { result ≡ (hinted.now.change.0.0 == p.0 && int_eq (T.rank hinted.now.change.1.at) (T.rank at)) }
        { is_of(&hinted.change, p, at) },
    )
}

/// How many new marks are of a property.
fn count_in<T: Moment>(changes: &[Hinted<T>], p: PropId) -> usize
    ensures { result ≡ length (filter (λ hinted. hinted.change.0.0 == p.0) changes.now) }
{
    changes
        .iter()
        .filter(|hinted| hinted.change.0.0 == p.0)
        .count()
}

impl<T: Moment> MarkChange<T> {
    /// No new marks. It takes no memory.
    pub fn new(alloc: Global) -> MarkChange<T>
        ensures { result ≡ [] }
    {
        MarkChange {
            changes: Vec::new(alloc),
        }
    }

    /// Takes all new marks out. Their room is kept.
    pub fn clear(&mut self)
        ensures { self.new ≡ [] }
    {
        self.changes.clear();
    }

    /// How many new marks there are.
    pub fn len(&self) -> usize
        ensures len { result ≡ length self.now }
        ensures apart { IsTrue (are_all_apart T.rank self.now) }
    {
        self.changes.len()
    }

    /// The new mark at a place, from 0, and the property that it is for.
    pub fn get(&self, i: usize) -> &(PropId, Mark<T>)
        requires { i < length self.now }
        ensures { slice_get self.now i ≡ Some result.now }
    {
        &self.changes[i].change
    }

    /// Where to look first for the time of the new mark at a place.
    pub(crate) fn near(&self, i: usize) -> usize
        requires { i < length self.now }
    {
        self.changes[i].near
    }

    /// Whether there is a new mark of a property at a time. It looks at all of them.
    pub fn has(&self, p: PropId, at: T) -> bool
        ensures { result ≡ has_change T.rank p.0 (T.rank at) self.now }
    {
        is_any_of(&self.changes, p, at)
    }

    /// How many of the new marks are of a property. It looks at all of them.
    pub fn count_of(&self, p: PropId) -> usize
        ensures { result ≡ count_of p.0 self.now }
    {
        count_in(&self.changes, p)
    }

    /// Adds the new mark of a property at the mark's time, for which there is none yet. `near` is a place in the
    /// property's row, at which the time is looked for first; it may be any number. `Err`: memory ran out.
    pub fn push(&mut self, p: PropId, mark: Mark<T>, near: usize) -> Result<(), NoMemory>
        requires { has_change T.rank p.0 (T.rank mark.at) self.old ≡ false }
        ensures ok { OnOk result (self.new ≡ self.old ++ (p, mark) ∷ []) }
        ensures err { OnErr result (self.new ≡ self.old) }
    {
        let change = (p, mark);
        self.changes.push(Hinted { change, near })?;
        Ok(())
    }
}
