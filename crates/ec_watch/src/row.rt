//! A watched property.
ghost use Rattle.std.specs.Prelude.{◌≡◌, ◌<◌, ◌==◌, ℕ, true, false, slice_set, replicate, length, IsTrue};
ghost use Rattle.std.specs.List.{list_any};
ghost use Rattle.ec_terms.specs.Term.{ground_of, names_are_names, term_cmp};
ghost use Rattle.ec_watch.specs.Watched.{is_watched_by};

use crate::kept_term::KeptTerm;
use ec_commands::SESSIONS;
use ec_terms::GroundRef;
use std::cmp::Ordering;

/// How many sessions there are.
pub(crate) const ALL: usize = SESSIONS as usize;

/// A watched property, and which sessions watch it: a place for each session.
#[derive(Drop)]
pub struct Row {
    pub prop: KeptTerm,
    pub sessions: [bool; ALL],
}

impl Row {
    /// The row of a property that one session watches.
    pub(crate) fn new(p: &GroundRef<'_>, session: u8) -> Row
        requires session { session < SESSIONS }
        requires named { IsTrue (names_are_names (ground_of p.now)) }
        ensures prop { result.prop ≡ ground_of p.now }
        ensures sessions { result.sessions ≡ slice_set (replicate SESSIONS false) session true }
    {
        let mut sessions = [false; ALL];
        sessions[session as usize] = true;
        Row {
            prop: KeptTerm::of(p),
            sessions,
        }
    }

    /// How the property stands to a term in term order.
    pub(crate) fn order(&self, p: &GroundRef<'_>) -> Ordering
        ensures { result ≡ term_cmp self.now.prop (ground_of p.now) }
    {
        self.prop.order(p)
    }

    /// The property.
    pub fn prop(&self) -> GroundRef<'_>
        ensures same { ground_of result ≡ self.now.prop }
        ensures names { IsTrue (names_are_names self.now.prop) }
    {
        self.prop.borrow()
    }

    /// Whether a session watches the property.
    pub fn is_watched_by(&self, session: u8) -> bool
        requires session { session < SESSIONS }
        ensures { result ≡ is_watched_by session self.now }
    {
        self.sessions[session as usize]
    }

    /// From now on a session watches the property, or does so no more.
    pub(crate) fn set(&mut self, session: u8, watches: bool)
        requires session { session < SESSIONS }
        ensures prop { self.new.prop ≡ self.old.prop }
        ensures sessions { self.new.sessions ≡ slice_set self.old.sessions session watches }
    {
        self.sessions[session as usize] = watches;
    }

    /// Whether some session watches the property.
    pub(crate) fn is_used(&self) -> bool
        ensures { result ≡ list_any (λ watches. watches) self.now.sessions }
    {
        self.sessions.iter().any(
            |watches| -> bool
                ensures { result ≡ watches.now }
            { *watches },
        )
    }
}
