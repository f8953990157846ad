//! What a batch of updates has put under each identity so far.
ghost use Rattle.std.specs.Prelude.{◌≡◌, ◌+◌, ◌<◌, ◌≤◌, ℕ, List, Some, is_some, if◌then◌else◌, bytes_eq, OnOk};
ghost use Rattle.indexmap.specs.IndexMap.{spare, index_map_len};
ghost use Rattle.ec_store.specs.Store.{slot_of};
ghost use Rattle.ec_batch.specs.Net.{is_present_by, net_in, old_slot_by};

use ec_axioms::Event;
use ec_context::EntryList;
use ec_lists::NoMemory;
use ec_moment::Moment;
use ec_rows::TimeRow;
use ec_store::EventStore;
use ec_terms::{Name, Slot};
use indexmap::IndexMap;

/// An event that a batch puts in, with its entries.
#[derive(Drop)]
pub struct Added<T> {
    pub event: Event<T>,
    pub entries: EntryList,
}

/// What stands under an identity that a batch touched: the slot of the event that has it in the store, and the event that has
/// it in the list to come.
#[derive(Drop)]
pub struct Net<T> {
    pub old: Option<Slot>,
    pub new: Option<Added<T>>,
}

/// What a batch touched, by identity.
pub type Nets<T> = IndexMap<Name, Net<T>>;

/// Whether an event of the list to come has an identity.
pub(crate) fn is_present<T: Moment, X: TimeRow<T>>(
    nets: &Nets<T>,
    store: &EventStore<T, X>,
    id: &Name,
) -> bool
    ensures { result ≡ is_present_by (net_in id.now nets.now) (slot_of id.now store.now.events) }
{
    match nets.get(id) {
        Some(net) => net.new.is_some(),
        None => store.find(id).is_some(),
    }
}

/// The slot of the event that has an identity in the store.
pub(crate) fn old_slot<T: Moment, X: TimeRow<T>>(
    nets: &Nets<T>,
    store: &EventStore<T, X>,
    id: &Name,
) -> Option<Slot>
    ensures { result ≡ old_slot_by (net_in id.now nets.now) (slot_of id.now store.now.events) }
{
    match nets.get(id) {
        Some(net) => net.old,
        None => store.find(id),
    }
}

/// Puts something under an identity. It takes no memory.
pub(crate) fn put<T: Moment>(nets: &mut Nets<T>, id: Name, net: Net<T>)
    requires { 0 < spare nets.old }
    ensures nets { (other : List ℕ) → net_in other nets.new ≡ (if bytes_eq id other then Some net else net_in other nets.old) }
    ensures len { index_map_len nets.new ≤ index_map_len nets.old + 1 }
{
    match nets.insert(id, net) {
        Ok(_) => {}
        Err(_) => unreachable!(),
    }
}

/// Makes room for one identity more. `Err`: memory ran out.
pub(crate) fn make_room<T: Moment>(nets: &mut Nets<T>) -> Result<(), NoMemory>
    ensures same { (other : List ℕ) → net_in other nets.new ≡ net_in other nets.old }
    ensures room { OnOk result (0 < spare nets.new) }
    ensures len { index_map_len nets.new ≡ index_map_len nets.old }
{
    nets.reserve(1)?;
    Ok(())
}
