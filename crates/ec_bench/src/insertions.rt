//! Lists in blocks, filled one member at a time.
ghost use Rattle.std.specs.Prelude.{◌≡◌, ◌+◌, ◌-◌, ◌^◌, ◌<◌, ◌≤◌, OnOk, length};

use crate::draws::Draws;
use ec_blocks::Blocks;
use ec_lists::NoMemory;
use ec_terms::PropId;
use std::alloc::Global;

/// Where in a list each further member is put.
#[derive(Clone, Copy)]
pub(crate) enum Place {
    Front,
    Middle,
    Random,
}

impl Place {
    /// The place with a name. `None`: none has this name.
    pub(crate) fn from_name(name: &str) -> Option<Place> {
        match name {
            "front" => Some(Place::Front),
            "middle" => Some(Place::Middle),
            "random" => Some(Place::Random),
            _ => None,
        }
    }

    /// The place in a list of this length.
    fn within(self, length: usize, draws: &mut Draws) -> usize
        requires { length < 2 ^ 64 - 1 }
        ensures { result ≤ length }
    {
        match self {
            Place::Front => 0,
            Place::Middle => length / 2,
            Place::Random => draws.draw_up_to(length),
        }
    }
}

/// Puts the member with the next number in a list, with room made for it alone.
fn put_in(
    list: &mut Blocks<PropId>,
    number: usize,
    place: Place,
    draws: &mut Draws,
) -> Result<(), NoMemory>
    requires next { length list.old.items ≡ number }
    requires small { number < 2 ^ 64 - 1 }
    ensures { OnOk result (length list.new.items ≡ number + 1) }
{
    list.reserve(1)?;
    list.insert(place.within(number, draws), PropId(number));
    Ok(())
}

/// Puts `count` members in a list that is empty, each by itself.
fn put_all(list: &mut Blocks<PropId>, count: usize, place: Place) -> Result<(), NoMemory>
    requires { length list.old.items ≡ 0 }
{
    let mut draws = Draws::new();
    for number in 0..count {
        put_in(list, number, place, &mut draws)?;
    }
    Ok(())
}

/// A number that changes with the members of a list and with their order.
fn checksum(list: &Blocks<PropId>) -> usize {
    let mut sum: usize = 0;
    for i in 0..list.len() {
        sum = sum.wrapping_mul(31).wrapping_add(list.get(i).0);
    }
    sum
}

/// Fills a list with `count` members, and gives its length and its checksum.
pub(crate) fn fill(alloc: Global, count: usize, place: Place) -> Result<(usize, usize), NoMemory> {
    let mut list = Blocks::new(alloc);
    put_all(&mut list, count, place)?;
    Ok((list.len(), checksum(&list)))
}
