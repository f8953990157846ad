ghost use Rattle.std.specs.Prelude.{◌≡◌, ◌+◌, ◌≤◌, ◌==◌, [], IsTrue, OnOk, length, if◌then◌else◌};
ghost use Rattle.ec_numbered.specs.PropSet.{are_ascending, has_number, with_number, without_number};

use crate::ascending::{place_of, put, take_out};
use ec_lists::NoMemory;
use ec_terms::PropId;
use std::alloc::Global;
use std::marker::Model;

/// A set of properties, as the list of their numbers in ascending order.
#[derive(Drop)]
pub struct PropSet {
    props: Vec<PropId>,
}

impl Model for PropSet {
    ghost use Rattle.std.specs.Prelude.{◌-◌, IsTrue, vec_len};
    ghost use Rattle.std.specs.Vec.{vec_capacity};
    ghost use Rattle.ec_terms.specs.declared.ids.PropId.{PropId};
    ghost use Rattle.ec_lists.specs.Reserved.{Reserved};
    ghost use Rattle.ec_numbered.specs.PropSet.{are_ascending};

    ghost Value = { Reserved PropId };

    ghost view = { λ set. record { items = set.props.items; spare = vec_capacity set.props - vec_len set.props } };

    ghost invariant = { λ set. IsTrue (are_ascending set.props.items) };
}

impl PropSet {
    /// The set of no properties. It takes no memory.
    pub fn new(alloc: Global) -> PropSet
        ensures { result.items ≡ [] }
    {
        PropSet {
            props: Vec::new(alloc),
        }
    }

    /// The set of the properties in an ascending list.
    pub fn from_ascending(props: Vec<PropId>) -> PropSet
        requires { IsTrue (are_ascending props.items) }
        ensures { result.items ≡ props.items }
    {
        PropSet { props }
    }

    /// How many properties there are.
    pub fn len(&self) -> usize
        ensures { result ≡ length self.now.items }
    {
        self.props.len()
    }

    /// Whether there is none.
    pub fn is_empty(&self) -> bool
        ensures { result ≡ (length self.now.items == 0) }
    {
        self.props.is_empty()
    }

    /// All properties, in the order of their numbers.
    pub fn as_slice(&self) -> &[PropId]
        ensures items { result.now ≡ self.now.items }
        ensures order { IsTrue (are_ascending self.now.items) }
    {
        self.props.as_slice()
    }

    /// Whether a property is one of them.
    pub fn contains(&self, p: PropId) -> bool
        ensures { result ≡ has_number p.0 self.now.items }
    {
        place_of(&self.props, p).is_ok()
    }

    /// Makes room for `n` further properties. A refusal leaves all as it was.
    pub fn reserve(&mut self, n: usize) -> Result<(), NoMemory>
        ensures same { self.new.items ≡ self.old.items }
        ensures ok { OnOk result (n ≤ self.new.spare) }
        ensures kept { self.old.spare ≤ self.new.spare }
    {
        self.props.reserve(n)?;
        Ok(())
    }

    /// Adds a property, unless it is there. It takes no memory, and room for one only where it is not there yet.
    pub fn insert(&mut self, p: PropId)
        requires { (if has_number p.0 self.old.items then 0 else 1) ≤ self.old.spare }
        ensures items { self.new.items ≡ with_number p self.old.items }
        ensures spare { self.old.spare ≤ self.new.spare + (if has_number p.0 self.old.items then 0 else 1) }
    {
        put(&mut self.props, p);
    }

    /// Takes a property out, if it is there. It takes no memory.
    pub fn remove(&mut self, p: PropId)
        ensures items { self.new.items ≡ without_number p self.old.items }
        ensures spare { self.old.spare ≤ self.new.spare }
    {
        take_out(&mut self.props, p);
    }
}
