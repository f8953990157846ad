//! Which entries of the events that stay are looked at: those that read a property whose currency may differ.
ghost use Rattle.std.specs.Prelude.{◌≡◌, ◌<◌, ◌&&◌, ◌||◌, ℕ, [], not, length, slice_get, Some, IfOk, OnOk};
ghost use Rattle.std.specs.List.{IsDistinct, list_any};
ghost use Rattle.ec_entries.specs.Dependents.{is_from};
ghost use Rattle.ec_revise.specs.Change.{has_slot};
ghost use Rattle.ec_sweep.specs.Hits.{AreHits, depends_at, has_hit, is_hit, same_hit};

use crate::dirty::Dirty;
use crate::scratch::Scratch;
use ec_entries::{Dependent, Entries};
use ec_lists::NoMemory;
use ec_moment::Moment;
use ec_numbered::SmallMap;
use ec_revise::Removal;
use ec_terms::{PropId, Slot};
use std::alloc::Global;
use std::marker::Model;

/// An entry to look at: the slot of its event, and its place in the list of that slot.
#[derive(Clone, Copy, Debug, PartialEq, Eq, Hash)]
pub(crate) struct Hit {
    pub slot: Slot,
    pub place: u8,
}

/// The entries to look at, each once.
#[derive(Drop)]
pub(crate) struct Hits {
    items: SmallMap<Hit, ()>,
}

impl Model for Hits {
    ghost use Rattle.std.specs.Prelude.{List};
    ghost use Rattle.std.specs.Map.{keys_of};
    ghost use Rattle.ec_sweep.specs.declared.hits.Hit.{Hit};

    ghost Value = { List Hit };

    ghost view = { λ hits. keys_of hits.items };
}

impl Hits {
    /// None. It takes no memory.
    pub(crate) fn new(alloc: Global) -> Hits
        ensures { result ≡ [] }
    {
        Hits {
            items: SmallMap::new(alloc),
        }
    }

    /// Takes all out. Their room is kept.
    pub(crate) fn clear(&mut self)
        ensures { self.new ≡ [] }
    {
        self.items.clear();
    }

    /// How many there are.
    pub(crate) fn len(&self) -> usize
        ensures { result ≡ length self.now }
    {
        self.items.len()
    }

    /// The one at a place.
    pub(crate) fn get(&self, i: usize) -> Hit
        requires { i < length self.now }
        ensures { slice_get self.now i ≡ Some result }
    {
        self.items.row(i).0
    }

    /// Takes one in, unless it is there. `Err`: memory ran out.
    fn note(&mut self, hit: Hit) -> Result<(), NoMemory>
        ensures noted { OnOk result ((slot place : ℕ) → has_hit slot place self.new ≡ (is_hit slot place hit || has_hit slot place self.old)) }
        ensures once { OnOk result (IsDistinct same_hit self.new) }
    {
        self.items.insert(hit, ())?;
        let _ = self.items.len(); // no hit stands there twice
        Ok(())
    }
}

/// Whether the event in a slot is to be taken out.
fn is_removed<T: Moment>(removals: &[Removal<T>], slot: Slot) -> bool
    ensures { result ≡ has_slot slot removals.now }
{
    removals.iter().any(|removal| removal.slot.0 == slot.0)
}

/// Takes in some dependents, but for those of events that are to be taken out.
fn gather_run<T: Moment>(
    run: &[Dependent<T>],
    removals: &[Removal<T>],
    hits: &mut Hits,
) -> Result<(), NoMemory>
    ensures hits { OnOk result ((slot place : ℕ) → has_hit slot place hits.new ≡ (has_hit slot place hits.old || (not (has_slot (record { 0 = slot }) removals.now) && list_any (is_from slot place) run.now))) }
    ensures once { IsDistinct same_hit hits.old → OnOk result (IsDistinct same_hit hits.new) }
{
    for dependent in run {
        if !is_removed(removals, dependent.slot) {
            hits.note(Hit {
                slot: dependent.slot,
                place: dependent.place,
            })?;
        }
    }
    Ok(())
}

/// Takes in the dependents of a property at a time one by one, but for those of events that are to be taken out.
fn gather_each<T: Moment>(
    entries: &Entries<T>,
    p: PropId,
    at: T,
    removals: &[Removal<T>],
    hits: &mut Hits,
) -> Result<(), NoMemory>
    ensures hits { OnOk result ((slot place : ℕ) → has_hit slot place hits.new ≡ (has_hit slot place hits.old || (not (has_slot (record { 0 = slot }) removals.now) && depends_at T.rank entries.now.slots (T.rank at) slot place p.0))) }
    ensures once { IsDistinct same_hit hits.old → OnOk result (IsDistinct same_hit hits.new) }
{
    let mut k = 0;
    'each: loop {
        let Some((slot, place)) = entries.dependent(p, at, k) else {
            return Ok(());
        };
        if !is_removed(removals, slot) {
            hits.note(Hit { slot, place })?;
        }
        k += 1;
    }
}

/// Takes in the dependents of a property at a time, but for those of events that are to be taken out. `near` is a place among
/// its dependents to look at first, and may become another.
fn gather<T: Moment>(
    entries: &Entries<T>,
    p: PropId,
    at: T,
    near: &mut usize,
    removals: &[Removal<T>],
    hits: &mut Hits,
) -> Result<(), NoMemory>
    ensures hits { OnOk result ((slot place : ℕ) → has_hit slot place hits.new ≡ (has_hit slot place hits.old || (not (has_slot (record { 0 = slot }) removals.now) && depends_at T.rank entries.now.slots (T.rank at) slot place p.0))) }
    ensures once { IsDistinct same_hit hits.old → OnOk result (IsDistinct same_hit hits.new) }
{
    match entries.dependents_at(p, at, near) {
        Some(run) => gather_run(run, removals, hits),
        None => gather_each(entries, p, at, removals, hits),
    }
}

/// The entries to look at in a visit: those that read a property which is dirty and due, of events that stay.
pub(crate) fn hits_at<T: Moment>(
    scratch: &mut Scratch,
    entries: &Entries<T>,
    dirty: &Dirty,
    due: &[PropId],
    at: T,
    removals: &[Removal<T>],
) -> Result<Hits, NoMemory>
    ensures { IfOk result (λ hits. AreHits T.rank entries.now.slots (T.rank at) dirty.now due.now removals.now hits) }
{
    let mut hits = scratch.take_hits();
    for p in due {
        if dirty.get(*p).is_some() {
            let mut near = scratch.places.near(*p);
            gather(entries, *p, at, &mut near.dependents, removals, &mut hits)?;
            scratch.places.keep(near);
        }
    }
    Ok(hits)
}
