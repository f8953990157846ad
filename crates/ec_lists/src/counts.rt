//! Counts of members that can stand in one list.
ghost use Rattle.std.specs.Prelude.{◌≡◌, ◌+◌, ◌<◌, ◌≤◌, ◌^◌, IfOk, OnOk, OnErr};

use crate::no_memory::NoMemory;

/// The sum of two counts of members. `Err`: a word does not count them, so that no memory holds a list of so many.
pub fn add_counts(a: usize, b: usize) -> Result<usize, NoMemory>
    ensures sum { IfOk result (λ sum. sum ≡ a + b) }
    ensures fits { OnOk result (a + b < 2 ^ 64) }
    ensures many { OnErr result (2 ^ 64 ≤ a + b) }
{
    match a.checked_add(b) {
        Some(sum) => Ok(sum),
        None => Err(NoMemory),
    }
}
