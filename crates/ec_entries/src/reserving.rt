//! Room for the entries of events that are to be noted.
ghost use Rattle.std.specs.Prelude.{◌≤◌, ◌==◌, ℕ, if◌then◌else◌, OnOk};
ghost use Rattle.ec_entries.specs.Dependents.{any_on, count_on, count_on_all, room_of};
ghost use Rattle.ec_entries.specs.Wanted.{IsWider, wanted_at, WantsMore};

use crate::noting::{Rows, is_any_on};
use ec_blocks::Blocks;
use ec_context::{Entry, EntryList, EntryLiteral};
use ec_lists::{NoMemory, add_counts};
use ec_moment::Moment;
use ec_terms::PropId;
use std::alloc::Global;
use std::collections::HashMap;

/// For how many dependents of each property there is to be room, by the property's number.
type Wanted = HashMap<usize, usize>;

/// Makes room for `n` further dependents of a property.
fn reserve<T: Moment>(
    alloc: Global,
    rows: &mut Rows<T>,
    p: PropId,
    n: usize,
) -> Result<(), NoMemory>
    ensures wider { IsWider rows.old rows.new }
    ensures ok { OnOk result (n ≤ room_of p.0 rows.new) }
{
    rows.place(p)?;
    if let Some(row) = rows.get_mut(p) {
        return row.reserve(n);
    }
    let mut row = Blocks::new(alloc);
    row.reserve(n)?;
    rows.set(p, row);
    Ok(())
}

/// Makes room for one dependent of a property besides those that are wanted.
fn want<T: Moment>(
    alloc: Global,
    rows: &mut Rows<T>,
    wanted: &mut Wanted,
    p: PropId,
) -> Result<(), NoMemory>
    requires { (q : ℕ) → wanted_at q wanted.old ≤ room_of q rows.old }
    ensures wider { IsWider rows.old rows.new }
    ensures ok { OnOk result (WantsMore (λ q. if p.0 == q then 1 else 0) wanted.old wanted.new rows.new) }
{
    let before = wanted.get(&p.0).copied().unwrap_or(0);
    let n = add_counts(before, 1)?;
    reserve(alloc, rows, p, n)?;
    wanted.insert(p.0, n)?;
    Ok(())
}

/// Makes room for one entry besides those that are wanted: for one dependent of each property that it has a literal on.
fn want_entry<T: Moment>(
    alloc: Global,
    rows: &mut Rows<T>,
    wanted: &mut Wanted,
    literals: &[EntryLiteral],
) -> Result<(), NoMemory>
    requires { (q : ℕ) → wanted_at q wanted.old ≤ room_of q rows.old }
    ensures wider { IsWider rows.old rows.new }
    ensures ok { OnOk result (WantsMore (λ q. if any_on q literals.now then 1 else 0) wanted.old wanted.new rows.new) }
{
    for (k, literal) in literals.iter().enumerate() {
        if !is_any_on(&literals[..k], literal.prop) {
            want(alloc, rows, wanted, literal.prop)?;
        }
    }
    Ok(())
}

/// Makes room for the entries of one event besides those that are wanted.
fn want_list<T: Moment>(
    alloc: Global,
    rows: &mut Rows<T>,
    wanted: &mut Wanted,
    list: &[Entry],
) -> Result<(), NoMemory>
    requires { (q : ℕ) → wanted_at q wanted.old ≤ room_of q rows.old }
    ensures wider { IsWider rows.old rows.new }
    ensures ok { OnOk result (WantsMore (λ q. count_on q list.now) wanted.old wanted.new rows.new) }
{
    for entry in list {
        want_entry(alloc, rows, wanted, entry.literals.as_slice())?;
    }
    Ok(())
}

/// Makes room for the entries of several events.
pub(crate) fn reserve_all<T: Moment>(
    alloc: Global,
    rows: &mut Rows<T>,
    lists: &[EntryList],
) -> Result<(), NoMemory>
    ensures wider { IsWider rows.old rows.new }
    ensures ok { OnOk result ((q : ℕ) → count_on_all q lists.now ≤ room_of q rows.new) }
{
    let mut wanted = HashMap::new(alloc);
    for list in lists {
        want_list(alloc, rows, &mut wanted, list.as_slice())?;
    }
    Ok(())
}
