ghost use Rattle.std.specs.Prelude.{◌≡◌, ◌<◌, [], None, Some, IfOk, IfSome, OnOk, OnErr, length, slice_get, if◌then◌else◌};
ghost use Rattle.std.specs.List.{IsDistinct};
ghost use Rattle.std.specs.Map.{keys_of, lookup};
ghost use Rattle.ec_numbered.specs.KeyedRows.{AreRows, rows_of};

use crate::few_rows::{boxed_with, put, value_of};
use ec_lists::NoMemory;
use indexmap::IndexMap;
use std::alloc::Global;
use std::hash::Hash;
use std::marker::Model;

/// How many rows are searched one by one.
const FEW: usize = 8;

/// What holds the rows: one list as long as they are few, and a hashed map from then on.
#[derive(Drop)]
enum Body<K: Eq + Hash, V> {
    Few(Vec<(K, V)>),
    Many(Box<IndexMap<K, V>>),
}

/// A map that mostly has few rows: up to eight are searched one by one, which takes less time than to hash a key, and
/// emptying it keeps their room.
#[derive(Drop)]
pub struct SmallMap<K: Eq + Hash, V> {
    body: Body<K, V>,
    alloc: Global,
}

impl<K: Eq + Hash, V> Model for SmallMap<K, V> {
    ghost use Rattle.std.specs.Prelude.{List};
    ghost use Rattle.ec_numbered.specs.KeyedRows.{AreRows, rows_of};

    ghost Value = { List (K × V) };

    ghost view = { λ map. rows_of map.body };

    ghost invariant = { λ map. AreRows K.eq map.body };
}

/// Whether few rows are as many as are searched one by one.
fn is_full<K: Eq + Hash, V>(body: &Body<K, V>) -> bool {
    match body {
        Body::Few(rows) => rows.len() >= FEW,
        Body::Many(_) => false,
    }
}

/// The rows in a hashed map, with a value given to a key, once they are no longer few. `Err`: memory ran out.
#[cold]
#[inline(never)]
fn grown<K: Copy + Eq + Hash + Drop, V: Copy + Drop>(
    alloc: Global,
    body: &Body<K, V>,
    key: K,
    value: V,
) -> Result<Option<Box<IndexMap<K, V>>>, NoMemory>
    requires { AreRows K.eq body.now }
    ensures { IfOk result (λ grown. IfSome grown (λ map. (k : K) → lookup (K.eq k) map.value.entries ≡ (if K.eq key k then Some value else lookup (K.eq k) (rows_of body.now)))) }
{
    match body {
        Body::Few(rows) => {
            if rows.len() < FEW {
                return Ok(None);
            }
            Ok(Some(boxed_with(alloc, rows, key, value)?))
        }
        Body::Many(_) => Ok(None),
    }
}

/// Gives a key its value among the rows, however they are held. `Err`: memory ran out, and all is as it was.
fn put_in<K: Copy + Eq + Hash + Drop, V: Copy + Drop>(
    body: &mut Body<K, V>,
    key: K,
    value: V,
) -> Result<(), NoMemory>
    requires { AreRows K.eq body.old }
    ensures ok { OnOk result ((k : K) → lookup (K.eq k) (rows_of body.new) ≡ (if K.eq key k then Some value else lookup (K.eq k) (rows_of body.old))) }
    ensures err { OnErr result (rows_of body.new ≡ rows_of body.old) }
    ensures once { AreRows K.eq body.new }
{
    match body {
        Body::Few(rows) => put(rows, key, value),
        Body::Many(map) => {
            map.insert(key, value)?;
            Ok(())
        }
    }
}

impl<K: Copy + Eq + Hash + Drop, V: Copy + Drop> SmallMap<K, V> {
    /// No rows. It takes no memory.
    pub fn new(alloc: Global) -> SmallMap<K, V>
        ensures { result ≡ [] }
    {
        SmallMap {
            body: Body::Few(Vec::new(alloc)),
            alloc,
        }
    }

    /// How many rows there are. No key stands in two of them.
    pub fn len(&self) -> usize
        ensures len { result ≡ length self.now }
        ensures once { IsDistinct K.eq (keys_of self.now) }
    {
        match &self.body {
            Body::Few(rows) => rows.len(),
            Body::Many(map) => map.len(),
        }
    }

    /// The row at a place.
    pub fn row(&self, i: usize) -> (K, V)
        requires { i < length self.now }
        ensures { slice_get self.now i ≡ Some result }
    {
        match &self.body {
            Body::Few(rows) => rows[i],
            Body::Many(map) => match map.get_index(i) {
                Some((key, value)) => (*key, *value),
                None => unreachable!(),
            },
        }
    }

    /// The value of a key. `None` exactly when it has none.
    pub fn get(&self, key: K) -> Option<V>
        ensures { result ≡ lookup (K.eq key) self.now }
    {
        match &self.body {
            Body::Few(rows) => value_of(rows, key),
            Body::Many(map) => map.get(&key).copied(),
        }
    }

    /// Gives a key its value, in place of the one that it has. `Err`: memory ran out, and all is as it was.
    pub fn insert(&mut self, key: K, value: V) -> Result<(), NoMemory>
        ensures ok { OnOk result ((k : K) → lookup (K.eq k) self.new ≡ (if K.eq key k then Some value else lookup (K.eq k) self.old)) }
        ensures err { OnErr result (self.new ≡ self.old) }
    {
        if is_full(&self.body) {
            if let Some(map) = grown(self.alloc, &self.body, key, value)? {
                self.body = Body::Many(map);
                return Ok(());
            }
        }
        put_in(&mut self.body, key, value)
    }

    /// Takes all rows out. The room of few rows is kept.
    pub fn clear(&mut self)
        ensures { self.new ≡ [] }
    {
        match &mut self.body {
            Body::Few(rows) => rows.clear(),
            Body::Many(_) => self.body = Body::Few(Vec::new(self.alloc)),
        }
    }
}
