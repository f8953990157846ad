ghost use Rattle.std.specs.Prelude.{◌≡◌, ◌≢◌, ◌<◌, ◌≤◌, ℕ, [], None, Some, OnOk, length, option_copied};
ghost use Rattle.std.specs.Option.{option_copied_mut};
ghost use Rattle.std.specs.Borrow.{sem};
ghost use Rattle.ec_numbered.specs.ByNumber.{kept_at};
ghost use Rattle.ec_numbered.specs.Lends.{lends_row};

use ec_lists::{NoMemory, add_counts};
use ec_terms::PropId;
use std::alloc::Global;
use std::marker::Model;

/// Rows that are kept by the numbers of properties, so that a row is found at once. A number needs a place before a
/// row is set under it.
#[derive(Drop)]
pub struct ByNumber<X> {
    rows: Vec<Option<X>>,
}

impl<X> Model for ByNumber<X> {
    ghost use Rattle.std.specs.Prelude.{List, Option};

    ghost Value = { List (Option X) };

    ghost view = { λ kept. kept.rows.items };
}

impl<X> ByNumber<X> {
    /// Nothing kept. It takes no memory.
    pub fn new(alloc: Global) -> ByNumber<X>
        ensures { result ≡ [] }
    {
        ByNumber {
            rows: Vec::new(alloc),
        }
    }

    /// What is kept under a number.
    pub fn get(&self, p: PropId) -> Option<&X>
        ensures { option_copied result ≡ kept_at p.0 self.now }
    {
        self.rows.get(p.0)?.as_ref()
    }

    /// What is kept under a number, to write to.
    pub fn get_mut(&mut self, p: PropId) -> Option<&mut X>
        ensures* writes_back { sem 𝓛 (lends_row X.row self.entry p.0 result) }
        ensures kept { option_copied_mut result ≡ kept_at p.0 self.old }
    {
        self.rows.get_mut(p.0)?.as_mut()
    }
}

impl<X: Drop> ByNumber<X> {
    /// Gives a number a place. What is kept stays, and the places grow in one step, as those of a `Vec` do.
    pub fn place(&mut self, p: PropId) -> Result<(), NoMemory>
        ensures place { OnOk result (p.0 < length self.new) }
        ensures same { (n : ℕ) → kept_at n self.new ≡ kept_at n self.old }
        ensures grown { length self.old ≤ length self.new }
    {
        if p.0 < self.rows.len() {
            return Ok(());
        }
        self.rows.resize_with(add_counts(p.0, 1)?, || None)?;
        Ok(())
    }

    /// Keeps a row under a number, in place of what was kept there. It takes no memory.
    pub fn set(&mut self, p: PropId, row: X)
        requires { p.0 < length self.old }
        ensures row { kept_at p.0 self.new ≡ Some row }
        ensures others { (n : ℕ) → n ≢ p.0 → kept_at n self.new ≡ kept_at n self.old }
        ensures places { length self.new ≡ length self.old }
    {
        self.rows[p.0] = Some(row);
    }

    /// Takes out what is kept under a number. It takes no memory, and the number keeps its place.
    pub fn take(&mut self, p: PropId) -> Option<X>
        ensures row { result ≡ kept_at p.0 self.old }
        ensures gone { kept_at p.0 self.new ≡ None }
        ensures others { (n : ℕ) → n ≢ p.0 → kept_at n self.new ≡ kept_at n self.old }
        ensures places { length self.new ≡ length self.old }
    {
        if p.0 < self.rows.len() {
            self.rows[p.0].take()
        } else {
            None
        }
    }
}
