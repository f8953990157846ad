ghost use Rattle.std.specs.Prelude.{◌≡◌, false, [], List, Some, IsTrue, IsSome, IfOk, OnOk, OnErr, All, filter, option_map};
ghost use Rattle.ec_terms.specs.declared.ids.PropId.{PropId};
ghost use Rattle.ec_terms.specs.declared.theory.Theory.{Theory};
ghost use Rattle.ec_terms.specs.Matchable.{IsMatchable};
ghost use Rattle.ec_terms.specs.Domain.{is_strong as declared_strong};
ghost use Rattle.ec_store.specs.Table.{KeptProp, prop_at, term_at};
ghost use Rattle.ec_numbered.specs.PropSet.{are_ascending, with_number};
ghost use Rattle.ec_exclusive.specs.Added.{added_props, is_added as added, neighbours_of, without_added};
ghost use Rattle.ec_exclusive.specs.Forms.{breaks_by_initiation as may_break, has_form as of_some_form};
ghost use Rattle.ec_exclusive.specs.Neighbours.{AreNeighbours, exclusive_at};

use crate::forms::{Form, form_of};
use crate::groups::{Groups, enter, leave, no_groups};
use crate::rows::{Row, add_row, make_room, remove_row};
use crate::search::find_neighbours;
use ec_lists::NoMemory;
use ec_numbered::ByNumber;
use ec_store::PropTable;
use ec_terms::{PropId, Theory};
use std::alloc::Global;
use std::marker::Model;

/// The neighbours of each added property: the added properties that are exclusive to it, by their numbers in a
/// table. They are kept by number, so that a list is found at once, and no term is kept here. Beside them stands what
/// the theory says of each term by itself.
#[derive(Drop)]
pub struct Neighbours {
    rows: ByNumber<Row>,
    forms: ByNumber<Form>,
    groups: Groups,
    alloc: Global,
}

impl Model for Neighbours {
    ghost use Rattle.ec_exclusive.specs.Kept.{AreKept, view_of};
    ghost use Rattle.ec_exclusive.specs.Neighbours.{Neighbourhoods};

    ghost Value = { Neighbourhoods };

    ghost view = { λ neighbours. view_of neighbours.rows neighbours.forms };

    ghost invariant = { λ neighbours. AreKept neighbours.rows neighbours.forms neighbours.groups };
}

impl Neighbours {
    /// The neighbours of no property.
    pub fn new(alloc: Global) -> Result<Neighbours, NoMemory>
        ensures { IfOk result (λ neighbours. neighbours ≡ record { rows = []; forms = [] }) }
    {
        Ok(Neighbours {
            rows: ByNumber::new(alloc),
            forms: ByNumber::new(alloc),
            groups: no_groups(alloc),
            alloc,
        })
    }

    /// Whether a property is added. The added properties are in the order of their numbers.
    pub fn is_added(&self, p: PropId) -> bool
        ensures added { result ≡ added p self.now.rows }
        ensures order { IsTrue (are_ascending (added_props self.now.rows)) }
    {
        self.rows.get(p).is_some()
    }

    /// The neighbours of an added property, in the order of their numbers.
    pub fn of(&self, p: PropId) -> &[PropId]
        requires { IsTrue (added p self.now.rows) }
        ensures list { neighbours_of p self.now.rows ≡ Some result.now }
        ensures order { IsTrue (are_ascending result.now) }
        ensures exclusive { (theory : Theory) (table : List KeptProp) → AreNeighbours theory table self.now → result.now ≡ filter (exclusive_at theory table p) (added_props self.now.rows) }
        ensures kept { (theory : Theory) (table : List KeptProp) → AreNeighbours theory table self.now → All (λ q. IsSome (prop_at q.0 table)) result.now }
    {
        match self.rows.get(p) {
            Some(row) => row.neighbours.as_slice(),
            None => unreachable!(),
        }
    }

    /// Whether some side of some declaration fits an added property. One that none fits never has a neighbour.
    pub fn has_form(&self, p: PropId) -> bool
        requires { IsTrue (added p self.now.rows) }
        ensures { (theory : Theory) (table : List KeptProp) → AreNeighbours theory table self.now → option_map (of_some_form theory) (term_at p.0 table) ≡ Some result }
    {
        match self.forms.get(p) {
            Some(form) => !form.keys.as_slice().is_empty(),
            None => unreachable!(),
        }
    }

    /// Whether an added property is declared strong.
    pub fn is_strong(&self, p: PropId) -> bool
        requires { IsTrue (added p self.now.rows) }
        ensures { (theory : Theory) (table : List KeptProp) → AreNeighbours theory table self.now → option_map (declared_strong theory) (term_at p.0 table) ≡ Some result }
    {
        match self.forms.get(p) {
            Some(form) => form.strong,
            None => unreachable!(),
        }
    }

    /// Whether an initiation may break an added property: one of a property that excludes it, or its own, as it is strong.
    pub fn breaks_by_initiation(&self, p: PropId) -> bool
        requires { IsTrue (added p self.now.rows) }
        ensures { (theory : Theory) (table : List KeptProp) → AreNeighbours theory table self.now → option_map (may_break theory) (term_at p.0 table) ≡ Some result }
    {
        match self.forms.get(p) {
            Some(form) => form.strong || !form.keys.as_slice().is_empty(),
            None => unreachable!(),
        }
    }

    /// Adds a property that the table keeps: its neighbours are found, and it becomes a neighbour of each of them.
    /// Only those added properties are looked at that have, for some declaration, the values that its two sides share.
    /// `Err`: memory ran out, and all is as it was.
    pub fn add(&mut self, theory: &Theory, props: &PropTable, p: PropId) -> Result<(), NoMemory>
        requires matchable { IsMatchable theory.now }
        requires kept { IsSome (prop_at p.0 props.now) }
        requires absent { added p self.old.rows ≡ false }
        requires neighbours { AreNeighbours theory.now props.now self.old }
        ensures added { OnOk result (added_props self.new.rows ≡ with_number p (added_props self.old.rows)) }
        ensures neighbours { OnOk result (AreNeighbours theory.now props.now self.new) }
        ensures err { OnErr result (self.new ≡ self.old) }
    {
        let term = props.ground(p);
        let neighbours = find_neighbours(&self.groups, theory, props, &term, self.alloc)?;
        make_room(&mut self.rows, p, neighbours.as_slice())?;
        self.forms.place(p)?;
        let form = form_of(self.alloc, theory, &term)?;
        enter(&mut self.groups, self.alloc, form.keys.as_slice(), p)?;
        add_row(&mut self.rows, p, Row { neighbours });
        self.forms.set(p, form);
        Ok(())
    }

    /// Takes an added property away, with its list, and out of the lists of its neighbours. It takes no memory.
    pub fn drop_prop(&mut self, p: PropId)
        requires { IsTrue (added p self.old.rows) }
        ensures rows { self.new.rows ≡ without_added p self.old.rows }
        ensures neighbours { (theory : Theory) (table : List KeptProp) → AreNeighbours theory table self.old → AreNeighbours theory table self.new }
    {
        let _ = remove_row(&mut self.rows, p);
        if let Some(form) = self.forms.take(p) {
            leave(&mut self.groups, form.keys.as_slice(), p);
        }
    }
}
