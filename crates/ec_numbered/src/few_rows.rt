//! Few rows, searched one by one.
ghost use Rattle.std.specs.Prelude.{◌≡◌, None, Some, IfSome, IfNone, IfOk, OnOk, OnErr, if◌then◌else◌};
ghost use Rattle.std.specs.List.{IsDistinct};
ghost use Rattle.std.specs.Map.{keys_of, lookup};
ghost use Rattle.ec_numbered.specs.KeyedRows.{IsFirst};

use ec_lists::NoMemory;
use indexmap::IndexMap;
use std::alloc::Global;
use std::hash::Hash;

/// The place of the row of a key. `None` exactly when there is none.
fn place_of<K: Copy + Eq, V: Copy>(rows: &[(K, V)], key: K) -> Option<usize>
    ensures some { IfSome result (IsFirst (K.eq key) rows.now) }
    ensures none { IfNone result (lookup (K.eq key) rows.now ≡ None) }
{
    for i in 0..rows.len() {
        if key == rows[i].0 {
            return Some(i);
        }
    }
    None
}

/// The value of a key. `None` exactly when it has none.
pub(crate) fn value_of<K: Copy + Eq, V: Copy>(rows: &[(K, V)], key: K) -> Option<V>
    ensures { result ≡ lookup (K.eq key) rows.now }
{
    match place_of(rows, key) {
        Some(place) => Some(rows[place].1),
        None => None,
    }
}

/// Gives a key its value, in place of the one that it has. `Err`: memory ran out, and all is as it was.
pub(crate) fn put<K: Copy + Eq + Drop, V: Copy + Drop>(
    rows: &mut Vec<(K, V)>,
    key: K,
    value: V,
) -> Result<(), NoMemory>
    requires { IsDistinct K.eq (keys_of rows.old.items) }
    ensures ok { OnOk result ((k : K) → lookup (K.eq k) rows.new.items ≡ (if K.eq key k then Some value else lookup (K.eq k) rows.old.items)) }
    ensures err { OnErr result (rows.new.items ≡ rows.old.items) }
    ensures once { IsDistinct K.eq (keys_of rows.new.items) }
{
    match place_of(rows, key) {
        Some(place) => rows[place] = (key, value),
        None => rows.push((key, value))?,
    }
    Ok(())
}

/// The same rows in a hashed map. `Err`: memory ran out.
fn hashed<K: Copy + Eq + Hash + Drop, V: Copy + Drop>(
    alloc: Global,
    rows: &[(K, V)],
) -> Result<IndexMap<K, V>, NoMemory>
    requires { IsDistinct K.eq (keys_of rows.now) }
    ensures { IfOk result (λ map. (k : K) → lookup (K.eq k) map.entries ≡ lookup (K.eq k) rows.now) }
{
    let mut map = IndexMap::new(alloc);
    for row in rows {
        map.insert(row.0, row.1)?;
    }
    Ok(map)
}

/// The same rows in a hashed map on the heap, with a value given to a key. `Err`: memory ran out.
pub(crate) fn boxed_with<K: Copy + Eq + Hash + Drop, V: Copy + Drop>(
    alloc: Global,
    rows: &[(K, V)],
    key: K,
    value: V,
) -> Result<Box<IndexMap<K, V>>, NoMemory>
    requires { IsDistinct K.eq (keys_of rows.now) }
    ensures { IfOk result (λ boxed. (k : K) → lookup (K.eq k) boxed.value.entries ≡ (if K.eq key k then Some value else lookup (K.eq k) rows.now)) }
{
    let mut map = hashed(alloc, rows)?;
    map.insert(key, value)?;
    let boxed = Box::new(alloc, map)?;
    Ok(boxed)
}
