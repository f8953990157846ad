//! The rows of added properties, kept by number: room among the neighbours in them, and a number more or less.
ghost use Rattle.std.specs.Prelude.{◌≡◌, ◌≢◌, ◌<◌, ℕ, false, IsTrue, IsSome, List, Some, OnOk, length, option_map};
ghost use Rattle.ec_numbered.specs.ByNumber.{kept_at};
ghost use Rattle.ec_numbered.specs.PropSet.{are_ascending, has_number, with_number, without_number};
ghost use Rattle.ec_terms.specs.declared.ids.PropId.{PropId};
ghost use Rattle.ec_exclusive.specs.Added.{added_of, stands_in_list};
ghost use Rattle.ec_exclusive.specs.Kept.{list_at, lists_of, HasRoom, list_with, list_left};

use ec_lists::NoMemory;
use ec_numbered::{ByNumber, PropSet};
use ec_terms::PropId;

/// What is kept of an added property.
#[derive(Drop)]
pub(crate) struct Row {
    pub(crate) neighbours: PropSet,
}

/// Makes room for a number more among the neighbours of `q`. A refusal leaves all as it was.
fn reserve_in(rows: &mut ByNumber<Row>, q: PropId) -> Result<(), NoMemory>
    requires { IsSome (list_at q rows.old) }
    ensures same { lists_of rows.new ≡ lists_of rows.old }
    ensures room { OnOk result (HasRoom (kept_at q.0 rows.new)) }
    ensures others { (n : ℕ) → n ≢ q.0 → kept_at n rows.new ≡ kept_at n rows.old }
{
    if let Some(row) = rows.get_mut(q) {
        row.neighbours.reserve(1)?;
    }
    Ok(())
}

/// Puts a number among the neighbours of `q`, which have room for it.
fn put_in(rows: &mut ByNumber<Row>, q: PropId, p: PropId)
    requires { HasRoom (kept_at q.0 rows.old) }
    ensures len { length rows.new ≡ length rows.old }
    ensures put { list_at q rows.new ≡ option_map (with_number p) (list_at q rows.old) }
    ensures others { (n : ℕ) → n ≢ q.0 → kept_at n rows.new ≡ kept_at n rows.old }
{
    if let Some(row) = rows.get_mut(q) {
        row.neighbours.insert(p);
    }
}

/// Takes a number out of the neighbours of `q`.
fn take_out_of(rows: &mut ByNumber<Row>, q: PropId, p: PropId)
    ensures len { length rows.new ≡ length rows.old }
    ensures taken { list_at q rows.new ≡ option_map (without_number p) (list_at q rows.old) }
    ensures others { (n : ℕ) → n ≢ q.0 → kept_at n rows.new ≡ kept_at n rows.old }
{
    if let Some(row) = rows.get_mut(q) {
        row.neighbours.remove(p);
    }
}

/// Makes room for a number more among the neighbours of each of `props`. A refusal leaves all as it was.
fn reserve_each(rows: &mut ByNumber<Row>, props: &[PropId]) -> Result<(), NoMemory>
    requires { (q : PropId) → IsTrue (has_number q.0 props.now) → IsSome (list_at q rows.old) }
    ensures same { lists_of rows.new ≡ lists_of rows.old }
    ensures room { OnOk result ((q : PropId) → IsTrue (has_number q.0 props.now) → HasRoom (kept_at q.0 rows.new)) }
{
    for q in props {
        reserve_in(rows, *q)?;
    }
    Ok(())
}

/// Puts a number among the neighbours of each of `props`, which have room for it.
fn put_each(rows: &mut ByNumber<Row>, props: &[PropId], p: PropId)
    requires ascends { IsTrue (are_ascending props.now) }
    requires room { (q : PropId) → IsTrue (has_number q.0 props.now) → HasRoom (kept_at q.0 rows.old) }
    ensures len { length rows.new ≡ length rows.old }
    ensures put { (q : PropId) → IsTrue (has_number q.0 props.now) → list_at q rows.new ≡ option_map (with_number p) (list_at q rows.old) }
    ensures others { (q : PropId) → has_number q.0 props.now ≡ false → list_at q rows.new ≡ list_at q rows.old }
{
    for q in props {
        put_in(rows, *q, p);
    }
}

/// Takes a number out of the neighbours of each of `props`.
fn take_out_of_each(rows: &mut ByNumber<Row>, props: &[PropId], p: PropId)
    requires { IsTrue (are_ascending props.now) }
    ensures len { length rows.new ≡ length rows.old }
    ensures taken { (q : PropId) → IsTrue (has_number q.0 props.now) → list_at q rows.new ≡ option_map (without_number p) (list_at q rows.old) }
    ensures others { (q : PropId) → has_number q.0 props.now ≡ false → list_at q rows.new ≡ list_at q rows.old }
{
    for q in props {
        take_out_of(rows, *q, p);
    }
}

/// Gives `p` a place among the rows, and makes room for it among the neighbours of each of its own. A refusal leaves
/// the neighbours as they were.
pub(crate) fn make_room(rows: &mut ByNumber<Row>, p: PropId, own: &[PropId]) -> Result<(), NoMemory>
    requires { (q : PropId) → IsTrue (has_number q.0 own.now) → IsSome (list_at q rows.old) }
    ensures same { added_of (lists_of rows.new) ≡ added_of (lists_of rows.old) }
    ensures lists { (q : PropId) → list_at q rows.new ≡ list_at q rows.old }
    ensures place { OnOk result (p.0 < length rows.new) }
    ensures room { OnOk result ((q : PropId) → IsTrue (has_number q.0 own.now) → HasRoom (kept_at q.0 rows.new)) }
{
    rows.place(p)?;
    reserve_each(rows, own)
}

/// Gives `p` a row, and puts it among the neighbours of each of its own. It takes no memory.
pub(crate) fn add_row(rows: &mut ByNumber<Row>, p: PropId, row: Row)
    requires place { p.0 < length rows.old }
    requires room { (q : PropId) → IsTrue (has_number q.0 row.neighbours.items) → HasRoom (kept_at q.0 rows.old) }
    ensures { (q : PropId) → list_at q rows.new ≡ list_with p row.neighbours.items q (list_at q rows.old) }
{
    put_each(rows, row.neighbours.as_slice(), p);
    rows.set(p, row);
}

/// Takes the row of `p` away, and takes it out of the neighbours of each of its own.
pub(crate) fn remove_row(rows: &mut ByNumber<Row>, p: PropId) -> Option<Row>
    requires { stands_in_list p (list_at p rows.old) ≡ false }
    ensures row { result ≡ kept_at p.0 rows.old }
    ensures len { length rows.new ≡ length rows.old }
    ensures lists { (own : List PropId) → list_at p rows.old ≡ Some own → (q : PropId) → list_at q rows.new ≡ list_left p own q (list_at q rows.old) }
{
    let row = rows.take(p)?;
    take_out_of_each(rows, row.neighbours.as_slice(), p);
    Some(row)
}
