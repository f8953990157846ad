//! What a batch of updates is refused for.

use ec_axioms::Cut;
use ec_lists::NoMemory;

/// Why a batch is not applied: its first update that is refused, by its place from 1, or that memory ran out.
#[derive(Drop)]
pub enum Refusal {
    Update { place: u32, cut: Cut },
    Memory(NoMemory),
}
