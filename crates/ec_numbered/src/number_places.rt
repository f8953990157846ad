//! Rows of numbers, each found by the place that is kept for its number.
ghost use Rattle.std.specs.Prelude.{◌≡◌, ◌==◌, ◌<◌, ℕ, None, Some, IfSome, IfNone, OnOk, OnErr, length, nat_eq, if◌then◌else◌};
ghost use Rattle.std.specs.Map.{lookup};
ghost use Rattle.ec_numbered.specs.NumberPlaces.{ArePlaces};
ghost use Rattle.ec_numbered.specs.KeyedRows.{IsFirst};

use ec_lists::{NoMemory, add_counts};

/// The place of the row of a number. `None` exactly when it has none.
pub(crate) fn place_of<V>(rows: &[(usize, V)], places: &[usize], n: usize) -> Option<usize>
    requires { ArePlaces places.now rows.now }
    ensures some { IfSome result (IsFirst (nat_eq n) rows.now) }
    ensures none { IfNone result (lookup (nat_eq n) rows.now ≡ None) }
{
    let place = *places.get(n)?;
    let row = rows.get(place)?;
    if row.0 == n { Some(place) } else { None }
}

/// Gives a number a place, if it has none. `Err`: memory ran out, and all is as it was.
fn make_place<V>(rows: &[(usize, V)], places: &mut Vec<usize>, n: usize) -> Result<(), NoMemory>
    requires { ArePlaces places.old.items rows.now }
    ensures places { ArePlaces places.new.items rows.now }
    ensures place { OnOk result (n < length places.new.items) }
{
    if n < places.len() {
        return Ok(());
    }
    let count = add_counts(n, 1)?;
    places.resize(count, 0)?;
    Ok(())
}

/// Adds a row behind the others. `Err`: memory ran out, and the same rows are there.
fn add_row<V: Drop>(
    rows: &mut Vec<(usize, V)>,
    places: &mut Vec<usize>,
    n: usize,
    value: V,
) -> Result<(), NoMemory>
    requires places { ArePlaces places.old.items rows.old.items }
    requires new { lookup (nat_eq n) rows.old.items ≡ None }
    ensures places { ArePlaces places.new.items rows.new.items }
    ensures ok { OnOk result ((k : ℕ) → lookup (nat_eq k) rows.new.items ≡ (if n == k then Some value else lookup (nat_eq k) rows.old.items)) }
    ensures err { OnErr result (rows.new.items ≡ rows.old.items) }
{
    make_place(rows, places, n)?;
    let place = rows.len();
    rows.push((n, value))?;
    places[n] = place;
    Ok(())
}

/// Gives a number its value, in place of the one that it has. `Err`: memory ran out, and the same rows are there.
pub(crate) fn put<V: Drop>(
    rows: &mut Vec<(usize, V)>,
    places: &mut Vec<usize>,
    n: usize,
    value: V,
) -> Result<(), NoMemory>
    requires places { ArePlaces places.old.items rows.old.items }
    ensures places { ArePlaces places.new.items rows.new.items }
    ensures ok { OnOk result ((k : ℕ) → lookup (nat_eq k) rows.new.items ≡ (if n == k then Some value else lookup (nat_eq k) rows.old.items)) }
    ensures err { OnErr result (rows.new.items ≡ rows.old.items) }
{
    match place_of(rows, places, n) {
        Some(place) => {
            rows[place] = (n, value);
            Ok(())
        }
        None => add_row(rows, places, n, value),
    }
}
