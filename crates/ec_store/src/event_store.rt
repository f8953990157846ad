ghost use Rattle.std.specs.Prelude.{◌≡◌, ◌+◌, ◌<◌, ◌≤◌, [], None, Some, IsTrue, IsSome, IfSome, IfOk, OnOk, All, length, slice_get, option_map};
ghost use Rattle.ec_terms.specs.declared.ids.Slot.{Slot};
ghost use Rattle.ec_axioms.specs.Changes.{is_history, with_event, without_event};
ghost use Rattle.ec_axioms.specs.Events.{event_of};
ghost use Rattle.ec_store.specs.Store.{history_of, slot_of, event_at, kept_before, with_kept, without_kept};

use crate::cursor::Cursor;
use crate::identities::{SoughtIdentity, key_of};
use crate::slots::KeyedSlots;
use ec_axioms::{Event, Steps};
use ec_lists::NoMemory;
use ec_moment::Moment;
use ec_rows::TimeRow;
use ec_terms::{Name, Slot};
use slab::Slab;
use std::alloc::Global;
use std::marker::{Model, PhantomData};
use std::sync::ledger::Ledger;

/// The present events, each under a slot that it keeps as long as it is present. They are found by
/// identity, by slot, and in order of time.
///
/// After `reserve` has made room, insertions take no memory.
#[derive(Drop)]
pub struct EventStore<T: Moment, X: TimeRow<T>> {
    records: Slab<Event<T>>,
    identities: KeyedSlots,
    times: X,
    moment: PhantomData<T>,
}

impl<T: Moment, X: TimeRow<T>> Model for EventStore<T, X> {
    ghost use Rattle.std.specs.Prelude.{◌-◌, min};
    ghost use Rattle.slab.specs.Slab.{get as record_at, slab_len};
    ghost use Rattle.ec_store.specs.Store.{Store};
    ghost use Rattle.ec_store.specs.EventRecords.{kept_of, IsStore};

    ghost Value = { Store T };

    ghost view = { λ s. record {
      events = kept_of (record_at s.records) (X.times s.times);
      spare = min (s.records.capacity - slab_len s.records) (min s.identities.spare (X.spare s.times));
      places = s.records.capacity;
    } };

    ghost invariant = { λ s. IsStore T.rank (record_at s.records) s.identities.items (X.times s.times) };
}

impl<T: Moment, X: TimeRow<T>> EventStore<T, X> {
    /// The store of no events.
    pub fn new(alloc: Global) -> Result<EventStore<T, X>, NoMemory>
        ensures { IfOk result (λ store. store.events ≡ []) }
    {
        Ok(EventStore {
            records: Slab::new(alloc),
            identities: KeyedSlots::new(alloc),
            times: X::new(alloc)?,
            moment: PhantomData,
        })
    }

    /// How many events there are. They are a history, and each is the one under its slot.
    pub fn len(&self) -> usize
        ensures len { result ≡ length self.now.events }
        ensures history { IsTrue (is_history (history_of T.rank self.now.events)) }
        ensures slots { All (λ kept. event_at kept.0 self.now.events ≡ Some kept.1) self.now.events }
    {
        self.times.len()
    }

    /// How many places there are for slots: each slot that an event has, or that an insertion gives, is below this
    /// number. Only `reserve` makes more. So a list of this length has a place for each slot.
    pub fn places(&self) -> usize
        ensures places { result ≡ self.now.places }
        ensures slots { (slot : Slot) → IsSome (event_at slot self.now.events) → slot.0 < result }
    {
        self.records.capacity()
    }

    /// Makes room for `n` further events. A refusal leaves all as it was.
    pub fn reserve(&mut self, n: usize) -> Result<(), NoMemory>
        ensures same { self.new.events ≡ self.old.events }
        ensures ok { OnOk result (n ≤ self.new.spare) }
        ensures kept { self.old.spare ≤ self.new.spare }
        ensures places { self.old.places ≤ self.new.places }
    {
        self.records.reserve(n)?;
        self.identities.reserve(n)?;
        self.times.reserve(n)
    }

    /// The slot of the event with an identity. `None` exactly when no present event has it.
    pub fn find(&self, id: &Name) -> Option<Slot>
        ensures slot { result ≡ slot_of id.now self.now.events }
        ensures live { IfSome result (λ slot. IsSome (event_at slot self.now.events)) }
        ensures event { IfSome result (λ slot. IfSome (event_at slot self.now.events) (λ event. event.id ≡ id.now)) }
    {
        let records = &self.records;
        match self
            .identities
            .find(key_of(id), &SoughtIdentity { records, id })
        {
            Some(slot) => Some(Slot(slot)),
            None => None,
        }
    }

    /// The event under a slot. It takes one step.
    pub fn event<L: Ledger>(&self, slot: Slot, steps: &mut Steps<L>) -> &Event<T>
        requires live { IsSome (event_at slot self.now.events) }
        ensures event { event_at slot self.now.events ≡ Some result.now }
        ensures steps { steps.new ≡ steps.old + 1 }
    {
        steps.tick(); // the record is read
        self.records.get(slot.0).unwrap()
    }

    /// Puts an event whose identity is new in its place, under a slot that no event has. It takes no memory.
    pub fn insert(&mut self, event: Event<T>) -> Slot
        requires absent { slot_of event.id self.old.events ≡ None }
        requires room { 1 ≤ self.old.spare }
        ensures free { event_at result self.old.events ≡ None }
        ensures slot { event_at result self.new.events ≡ Some event }
        ensures place { result.0 < self.new.places }
        ensures places { self.new.places ≡ self.old.places }
        ensures events { self.new.events ≡ with_kept T.rank (result, event) self.old.events }
        ensures history { history_of T.rank self.new.events ≡ with_event (event_of T.rank event) (history_of T.rank self.old.events) }
        ensures spare { self.old.spare ≤ self.new.spare + 1 }
    {
        let at = event.at;
        let id = event.id.copied();
        let key = key_of(&id);
        let sought = SoughtIdentity {
            records: &self.records,
            id: &id,
        };
        let place = self.identities.place_of(key, &sought);
        let slot = Slot(self.records.insert_reserved(event));
        self.identities.insert(place, key, slot.0);
        self.times.put(at, id, slot);
        slot
    }

    /// Takes out the event under a slot. All other events stay under their slots. It takes one step and no
    /// memory.
    pub fn remove<L: Ledger>(&mut self, slot: Slot, steps: &mut Steps<L>) -> Event<T>
        requires live { IsSome (event_at slot self.old.events) }
        ensures event { event_at slot self.old.events ≡ Some result }
        ensures events { self.new.events ≡ without_kept result.id self.old.events }
        ensures history { history_of T.rank self.new.events ≡ without_event result.id (history_of T.rank self.old.events) }
        ensures spare { self.old.spare ≤ self.new.spare }
        ensures places { self.new.places ≡ self.old.places }
        ensures steps { steps.new ≡ steps.old + 1 }
    {
        steps.tick(); // the record is taken out
        let records = &self.records;
        let id = &records.get(slot.0).unwrap().id;
        let place = self
            .identities
            .place_of(key_of(id), &SoughtIdentity { records, id });
        let event = self.records.try_remove(slot.0).unwrap();
        self.identities.remove(place);
        let _ = self.times.take_out(event.at, &event.id);
        event
    }

    /// The position before the first event of all.
    pub fn first(&self) -> Cursor
        ensures { result ≡ 0 }
    {
        Cursor::at(0)
    }

    /// The position before the first event that is not before a time.
    pub fn first_at(&self, at: T) -> Cursor
        ensures { result ≡ length (kept_before T.rank (T.rank at) self.now.events) }
    {
        Cursor::at(self.times.first_at(at))
    }

    /// The slot of the event at a position, and the position behind it. `None` exactly at the end.
    pub fn next(&self, cursor: Cursor) -> Option<(Slot, Cursor)>
        ensures next { result ≡ option_map (λ kept. (kept.0, cursor + 1)) (slice_get self.now.events cursor) }
        ensures live { IfSome result (λ next. IsSome (event_at next.0 self.now.events)) }
        ensures event { IfSome result (λ next. event_at next.0 self.now.events ≡ option_map (λ kept. kept.1) (slice_get self.now.events cursor)) }
    {
        let place = cursor.place();
        if place < self.times.len() {
            let slot = self.times.run(place)[0].2;
            Some((slot, Cursor::at(place + 1)))
        } else {
            None
        }
    }
}
