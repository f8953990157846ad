//! What turned at an instant, counted for each property that it counts for.
ghost use Rattle.std.specs.Prelude.{◌≡◌, ◌↔◌, ◌+◌, ◌<◌, ◌^◌, ◌==◌, ◌||◌, [], ◌∷◌, Bool, IsTrue, OnOk, All, Some, is_some, length, nat_eq, slice_get};
ghost use Rattle.std.specs.List.{IsDistinct, list_any};
ghost use Rattle.std.specs.Map.{keys_of};
ghost use Rattle.ec_exclusive.specs.Added.{is_added};
ghost use Rattle.ec_numbered.specs.PropSet.{are_ascending};
ghost use Rattle.ec_revise.specs.declared.tally.Part.{Part};
ghost use Rattle.ec_terms.specs.declared.ids.PropId.{PropId};
ghost use Rattle.ec_revise.specs.TurnCounts.{CountsEach, CountsTurn, IsTallyAt, count_in, counts_at, counts_of, nothing_tallied, one_more, row_at, tallied_at, with_one};

use crate::settled::{Counts, Tallied};
use crate::turn::Turn;
use ec_exclusive::Neighbours;
use ec_lists::NoMemory;
use ec_numbered::NumberMap;
use ec_terms::{Kind, PropId};
use std::alloc::Global;
use std::marker::Model;

/// Which count of a mark.
#[derive(Clone, Copy)]
pub enum Part {
    Inits,
    Terms,
    Clashes,
}

/// What is tallied of the turns at one instant, for each property that they count for.
#[derive(Drop)]
pub struct Tally {
    rows: NumberMap<Tallied>,
}

impl Model for Tally {
    ghost use Rattle.std.specs.Prelude.{ℕ, List};
    ghost use Rattle.ec_revise.specs.declared.settled.Tallied.{Tallied};

    ghost Value = { List (ℕ × Tallied) };

    ghost view = { λ tally. tally.rows };
}

/// The counts with one count one more.
fn with_one_more(counts: &Counts, part: Part) -> Counts
    requires { count_in part counts.now + 1 < 2 ^ 32 }
    ensures { result ≡ one_more part counts.now }
{
    let Counts {
        inits,
        terms,
        clashes,
    } = *counts;
    match part {
        Part::Inits => Counts {
            inits: inits + 1,
            terms,
            clashes,
        },
        Part::Terms => Counts {
            inits,
            terms: terms + 1,
            clashes,
        },
        Part::Clashes => Counts {
            inits,
            terms,
            clashes: clashes + 1,
        },
    }
}

/// What is tallied, with one turn more in one count.
fn with_turn(tallied: &Tallied, part: Part, up: bool) -> Tallied
    requires { count_in part (counts_of up tallied.now) + 1 < 2 ^ 32 }
    ensures { result ≡ with_one part up tallied.now }
{
    if up {
        Tallied {
            up: with_one_more(&tallied.up, part),
            down: tallied.down,
        }
    } else {
        Tallied {
            up: tallied.up,
            down: with_one_more(&tallied.down, part),
        }
    }
}

impl Tally {
    /// Nothing tallied. It takes no memory.
    pub fn new(alloc: Global) -> Tally
        ensures { result ≡ [] }
    {
        Tally {
            rows: NumberMap::new(alloc),
        }
    }

    /// What is tallied of a property: zeros, if it is not in the tally.
    pub fn get(&self, p: PropId) -> Tallied
        ensures { result ≡ tallied_at p self.now }
    {
        match self.rows.get(p.0) {
            Some(tallied) => tallied,
            None => Tallied {
                up: Counts {
                    inits: 0,
                    terms: 0,
                    clashes: 0,
                },
                down: Counts {
                    inits: 0,
                    terms: 0,
                    clashes: 0,
                },
            },
        }
    }

    /// How many properties are in the tally. None stands there twice.
    pub fn len(&self) -> usize
        ensures len { result ≡ length self.now }
        ensures once { IsDistinct nat_eq (keys_of self.now) }
    {
        self.rows.len()
    }

    /// Whether no property is in the tally.
    pub fn is_empty(&self) -> bool
        ensures { IsTrue result ↔ (self.now ≡ []) }
    {
        self.rows.len() == 0
    }

    /// The property at a place of the tally, and what is tallied of it.
    pub fn row(&self, i: usize) -> (PropId, Tallied)
        requires { i < length self.now }
        ensures { slice_get self.now i ≡ Some (result.0.0, result.1) }
    {
        let (n, tallied) = self.rows.row(i);
        (PropId(n), tallied)
    }

    /// Takes all properties out. Their room is kept.
    pub fn clear(&mut self)
        ensures { self.new ≡ [] }
    {
        self.rows.clear();
    }

    /// Takes a property into the tally, with nothing more counted. `Err`: memory ran out.
    pub fn note(&mut self, p: PropId) -> Result<(), NoMemory>
        ensures kept { OnOk result ((q : PropId) → tallied_at q self.new ≡ tallied_at q self.old) }
        ensures rows { OnOk result ((q : PropId) → is_some (row_at q.0 self.new) ≡ (p.0 == q.0 || is_some (row_at q.0 self.old))) }
    {
        let tallied = self.get(p);
        self.rows.insert(p.0, tallied)?;
        Ok(())
    }

    /// Counts one turn of a property. `Err`: memory ran out.
    fn count(&mut self, p: PropId, part: Part, up: bool) -> Result<(), NoMemory>
        requires { count_in part (counts_of up (tallied_at p self.old)) + 1 < 2 ^ 32 }
        ensures { OnOk result (CountsEach (p ∷ []) part up self.old self.new) }
    {
        let tallied = with_turn(&self.get(p), part, up);
        self.rows.insert(p.0, tallied)?;
        Ok(())
    }

    /// Counts one clash of each property of a list.
    fn count_clashes(&mut self, props: &[PropId], up: bool) -> Result<(), NoMemory>
        requires order { IsTrue (are_ascending props.now) }
        requires room { (p : PropId) → count_in Part.Clashes (counts_of up (tallied_at p self.old)) + 1 < 2 ^ 32 }
        ensures { OnOk result (CountsEach props.now Part.Clashes up self.old self.new) }
    {
        for q in props {
            self.count(*q, Part::Clashes, up)?;
        }
        Ok(())
    }

    /// Counts one turn for each property that it counts for.
    fn count_turn(&mut self, turn: &Turn, neighbours: &Neighbours) -> Result<(), NoMemory>
        requires added { IsTrue (is_added turn.now.head neighbours.now.rows) }
        requires room { (p : PropId) (part : Part) (up : Bool) → count_in part (counts_of up (tallied_at p self.old)) + 1 < 2 ^ 32 }
        ensures counted { OnOk result ((p : PropId) → CountsTurn neighbours.now.rows turn.now p (tallied_at p self.old) (tallied_at p self.new)) }
        ensures rows { OnOk result ((p : PropId) → is_some (row_at p.0 self.new) ≡ (counts_at neighbours.now.rows p turn.now || is_some (row_at p.0 self.old))) }
    {
        match turn.kind {
            Kind::Terminates => self.count(turn.head, Part::Terms, turn.up),
            Kind::Initiates => {
                self.count(turn.head, Part::Inits, turn.up)?;
                self.count_clashes(neighbours.of(turn.head), turn.up)
            }
        }
    }

    /// Counts some turns, each for the property at its head, and one that initiates as a clash for each of its neighbours
    /// too. A property is in the tally then where it was, or where some turn counts for it. `Err`: memory ran out, and the
    /// tally is of no more use.
    pub fn count_turns(&mut self, turns: &[Turn], neighbours: &Neighbours) -> Result<(), NoMemory>
        requires few { length turns.now < 2 ^ 32 }
        requires added { All (λ turn. IsTrue (is_added turn.head neighbours.now.rows)) turns.now }
        requires fresh { (p : PropId) → tallied_at p self.old ≡ nothing_tallied }
        ensures tallied { OnOk result ((p : PropId) → IsTallyAt neighbours.now.rows turns.now p (tallied_at p self.new)) }
        ensures rows { OnOk result ((p : PropId) → is_some (row_at p.0 self.new) ≡ (list_any (counts_at neighbours.now.rows p) turns.now || is_some (row_at p.0 self.old))) }
    {
        for turn in turns {
            self.count_turn(turn, neighbours)?;
        }
        Ok(())
    }
}
