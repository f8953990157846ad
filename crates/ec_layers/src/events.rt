//! What no clause shows: that memory is given, and that many changes in mixed order leave the right store.
ghost use Rattle.std.specs.Prelude.{◌≡◌, ◌<◌};

use ec_axioms::{Event, Steps};
use ec_moment::Tick;
use ec_rows::{TimeRow, VecTimes};
use ec_store::EventStore;
use ec_terms::{Args, Ground, Name};
use std::alloc::Global;
use std::marker::Brand;
use std::process::Abort;
use std::sync::ledger::{Blank, Ledger};

/// An event of no arguments.
fn event(alloc: Global, at: i64, id: &Name) -> Event<Tick>
    ensures { result.id ≡ id.now }
{
    Event {
        id: id.copied(),
        at: Tick(at),
        term: Ground {
            name: id.copied(),
            args: Args::new(alloc),
        },
    }
}

/// Whether the events from a time on, to the end, have these identities, each in its place.
fn has_ids<X: TimeRow<Tick>, L: Ledger>(
    store: &EventStore<Tick, X>,
    at: i64,
    ids: &[&[u8]],
    steps: &mut Steps<L>,
) -> bool {
    let mut cursor = store.first_at(Tick(at));
    for id in ids {
        let Some((slot, next)) = store.next(cursor) else {
            return false;
        };
        if store.event(slot, steps).id.as_bytes() != *id {
            return false;
        }
        cursor = next;
    }
    store.next(cursor).is_none()
}

/// A store without events, in a box.
fn no_events<X: TimeRow<Tick> + Drop>(rt: &impl Abort, alloc: Global) -> Box<EventStore<Tick, X>> {
    let store = EventStore::<Tick, X>::new(alloc).expect(rt, "memory");
    Box::new(alloc, store).expect(rt, "memory")
}

/// Puts an event into the store, or says that its identity is there.
fn put<X: TimeRow<Tick>>(
    rt: &impl Abort,
    alloc: Global,
    store: &mut EventStore<Tick, X>,
    at: i64,
    id: &Name,
) -> bool {
    if store.find(id).is_some() {
        return false;
    }
    store.reserve(1).expect(rt, "memory");
    let _ = store.insert(event(alloc, at, id));
    true
}

/// Takes the event of an identity out of the store, if it is there.
fn take<X: TimeRow<Tick>, L: Ledger>(
    store: &mut EventStore<Tick, X>,
    id: &Name,
    steps: &mut Steps<L>,
) -> bool {
    let Some(slot) = store.find(id) else {
        return false;
    };
    let event = store.remove(slot, steps);
    event.id == *id
}

/// Whether a store has no event, and this identity is in none.
fn is_empty<X: TimeRow<Tick>>(store: &EventStore<Tick, X>, id: &Name) -> bool {
    store.len() == 0 && store.next(store.first()).is_none() && store.find(id).is_none()
}

/// Whether an empty store takes three events, two of them at one instant, and none of an identity that is there.
fn takes_three<X: TimeRow<Tick>>(
    rt: &impl Abort,
    alloc: Global,
    names: &[Name; 3],
    store: &mut EventStore<Tick, X>,
) -> bool {
    let [p, q, r] = names;
    is_empty(store, p)
        && put(rt, alloc, store, 10, q)
        && put(rt, alloc, store, 10, p)
        && put(rt, alloc, store, 5, r)
        && !put(rt, alloc, store, 7, r)
        && store.len() == 3
}

/// Whether those at one instant stand by their identities.
fn orders_three<X: TimeRow<Tick>, L: Ledger>(
    store: &EventStore<Tick, X>,
    steps: &mut Steps<L>,
) -> bool {
    has_ids(store, 10, &[b"p", b"q"], steps)
        && has_ids(store, 5, &[b"r", b"p", b"q"], steps)
        && has_ids(store, 11, &[], steps)
}

/// Whether one of them is taken out, once.
fn takes_one_out<X: TimeRow<Tick>, L: Ledger>(
    store: &mut EventStore<Tick, X>,
    p: &Name,
    steps: &mut Steps<L>,
) -> bool {
    take(store, p, steps)
        && !take(store, p, steps)
        && has_ids(store, i64::MIN, &[b"r", b"q"], steps)
}

/// Whether events at one instant stand by their identities, and each once.
fn orders_one_instant<X: TimeRow<Tick>, L: Ledger>(
    rt: &impl Abort,
    alloc: Global,
    names: &[Name; 3],
    store: &mut EventStore<Tick, X>,
    steps: &mut Steps<L>,
) -> bool {
    takes_three(rt, alloc, names, store)
        && orders_three(store, steps)
        && takes_one_out(store, &names[0], steps)
}

/// The name of an event by its number, such that names go as the numbers do.
fn numbered(number: u16) -> Option<Name> {
    let digit = |place: u16| b'0' + (number / place % 10) as u8;
    Name::from_bytes(&[b'e', digit(1000), digit(100), digit(10), digit(1)])
}

/// An event that is present: its time, and the number in its identity.
type Present = (i64, u16);

/// Whether an event is this one.
fn is_event(event: &Event<Tick>, present: &Present) -> bool {
    event.at.0 == present.0 && Some(event.id.copied()) == numbered(present.1)
}

/// Whether a walk over the store meets these events, and no others.
fn walks<X: TimeRow<Tick>, L: Ledger>(
    store: &EventStore<Tick, X>,
    present: &[Present],
    steps: &mut Steps<L>,
) -> bool {
    let mut cursor = store.first();
    for one in present {
        let Some((slot, next)) = store.next(cursor) else {
            return false;
        };
        if !is_event(store.event(slot, steps), one) {
            return false;
        }
        cursor = next;
    }
    store.next(cursor).is_none()
}

/// Takes the event of a number out of those present, or says that it is not there.
fn leaves(present: &mut Vec<Present>, number: u16) -> bool {
    for place in 0..present.len() {
        if present[place].1 == number {
            let _ = present.swap_remove(place);
            return true;
        }
    }
    false
}

/// Takes out the event of this number where it is present, and else puts it in at this time.
fn change<X: TimeRow<Tick>, L: Ledger>(
    rt: &impl Abort,
    alloc: Global,
    store: &mut EventStore<Tick, X>,
    present: &mut Vec<Present>,
    one: Present,
    steps: &mut Steps<L>,
) -> bool {
    let id = numbered(one.1).expect(rt, "a name");
    if leaves(present, one.1) {
        return take(store, &id, steps);
    }
    present.push(one).expect(rt, "memory");
    put(rt, alloc, store, one.0, &id)
}

/// The event that a generator picks next.
fn picked(state: &mut u32) -> Present {
    *state = state.wrapping_mul(1664525).wrapping_add(1013904223);
    ((*state >> 8) as i64 % 20 - 10, (*state >> 16) as u16 % 200)
}

/// Whether all go well of a thousand insertions and removals, in an order and at times that a generator picks.
fn mixes_changes<X: TimeRow<Tick>, L: Ledger>(
    rt: &impl Abort,
    alloc: Global,
    store: &mut EventStore<Tick, X>,
    present: &mut Vec<Present>,
    steps: &mut Steps<L>,
) -> bool {
    let mut state: u32 = 1;
    for _ in 0..1000 {
        if !change(rt, alloc, store, present, picked(&mut state), steps) {
            return false;
        }
    }
    true
}

/// Whether a store then has the events that are present, in their order.
fn keeps_mixed<X: TimeRow<Tick>, L: Ledger>(
    rt: &impl Abort,
    alloc: Global,
    store: &mut EventStore<Tick, X>,
    present: &mut Vec<Present>,
    steps: &mut Steps<L>,
) -> bool {
    if !mixes_changes(rt, alloc, store, present, steps) {
        return false;
    }
    present.sort().expect(rt, "memory");
    store.len() == present.len() && walks(store, present, steps)
}

/// Whether all this is so of stores over rows of this kind.
fn all_pass<X: TimeRow<Tick> + Drop, L: Ledger>(
    rt: &impl Abort,
    alloc: Global,
    names: &[Name; 3],
    blank: Blank,
) -> bool
    requires name { blank.name ≡ L.name }
    requires parts { blank.parts ≡ L.parts }
    requires some { 0 < L.parts }
{
    let mut steps = Steps::<L>::new(blank);
    let mut few = no_events::<X>(rt, alloc);
    let mut many = no_events::<X>(rt, alloc);
    orders_one_instant(rt, alloc, names, &mut few, &mut steps)
        && keeps_mixed(rt, alloc, &mut many, &mut Vec::new(alloc), &mut steps)
}

#[test]
fn a_store_keeps_its_events_in_order(rt: HostRuntime) {
    let p = Name::from_bytes(b"p").expect(&rt, "a name");
    let q = Name::from_bytes(b"q").expect(&rt, "a name");
    let r = Name::from_bytes(b"r").expect(&rt, "a name");
    let names = [p, q, r];
    assert!(rt; all_pass::<VecTimes<Tick>, Brand>(&rt, rt.alloc(), &names, Blank::new(1)));
}
