//! The drafts of all sessions.
ghost use Rattle.std.specs.Prelude.{◌≡◌, ◌+◌, ◌<◌, ◌≤◌, [], ◌∷◌, ◌++◌, List, length, map, replicate, slice_set, Some, None, IfSome, IfNone, IfOk, OnErr};
ghost use Rattle.ec_axioms.specs.Changes.{PlainUpdate};
ghost use Rattle.ec_axioms.specs.Events.{plain_update};
ghost use Rattle.ec_sessions.specs.Drafts.{draft_in, plain_draft, IsOpenWithRoom, IsRoomOf};

use ec_axioms::Update;
use ec_commands::{MOST_DRAFTED, SESSIONS};
use ec_lists::NoMemory;
use ec_moment::Moment;
use ec_terms::Sequence;
use std::alloc::Global;
use std::marker::Model;

/// The draft of each session. Contracts see them as the list of all drafts, in the order of their sessions.
#[derive(Drop)]
pub struct Drafts<T: Moment> {
    alloc: Global,
    places: Vec<Option<Sequence<Update<T>>>>,
}

impl<T: Moment> Model for Drafts<T> {
    ghost use Rattle.std.specs.Prelude.{List, map};
    ghost use Rattle.ec_replies.specs.State.{Draft};
    ghost use Rattle.ec_sessions.specs.Drafts.{AreDrafts, plain_draft};

    ghost Value = { List Draft };

    ghost view = { λ d. map (plain_draft T.rank) d.places.items };

    ghost invariant = { λ d. AreDrafts (map (plain_draft T.rank) d.places.items) };
}

/// Whether a draft can take an update.
#[derive(Clone, Copy, Debug, PartialEq, Eq)]
pub enum Room {
    /// The draft is closed, and updates are made at once.
    Closed,
    /// The draft is open, and can take one update more.
    Open,
    /// The draft is open, and holds as many updates as it may.
    Full,
}

impl<T: Moment> Drafts<T> {
    /// Closed drafts for all sessions. `Err`: memory ran out.
    pub fn new(alloc: Global) -> Result<Drafts<T>, NoMemory>
        ensures { IfOk result (λ drafts. drafts ≡ replicate SESSIONS None) }
    {
        let places = closed_places(alloc)?;
        Ok(Drafts { alloc, places })
    }

    /// The updates that the draft of a session holds, in their order. `None` is for a closed draft.
    pub fn held(&self, session: u8) -> Option<&[Update<T>]>
        requires { session < SESSIONS }
        ensures open { IfSome result (λ held. draft_in self.now session ≡ Some (map (plain_update T.rank) held.now)) }
        ensures few { IfSome result (λ held. length held.now ≤ MOST_DRAFTED) }
        ensures closed { IfNone result (draft_in self.now session ≡ None) }
    {
        match &self.places[session as usize] {
            Some(held) => Some(held.as_slice()),
            None => None,
        }
    }

    /// Whether the draft of a session can take an update.
    pub fn room(&self, session: u8) -> Room
        requires { session < SESSIONS }
        ensures { IsRoomOf (draft_in self.now session) result }
    {
        match self.held(session) {
            None => Room::Closed,
            Some(held) => {
                if (held.len() as u64) < MOST_DRAFTED {
                    Room::Open
                } else {
                    Room::Full
                }
            }
        }
    }

    /// Opens the draft of a session, with no update in it. It takes no memory.
    pub fn open(&mut self, session: u8)
        requires { session < SESSIONS }
        ensures { self.new ≡ slice_set self.old session (Some []) }
    {
        self.places[session as usize] = Some(Sequence::new(self.alloc));
    }

    /// Closes the draft of a session, and drops what it held. It takes no memory.
    pub fn close(&mut self, session: u8)
        requires { session < SESSIONS }
        ensures { self.new ≡ slice_set self.old session None }
    {
        self.places[session as usize] = None;
    }

    /// Adds an update behind those that the open draft of a session holds, and answers how many it holds then. `Err`:
    /// memory ran out, the drafts are as they were, and the update is dropped.
    pub fn push(&mut self, session: u8, update: Update<T>) -> Result<u32, NoMemory>
        requires session { session < SESSIONS }
        requires room { IsOpenWithRoom (draft_in self.old session) }
        ensures ok { IfOk result (λ count. (held : List PlainUpdate) → draft_in self.old session ≡ Some held → (self.new ≡ slice_set self.old session (Some (held ++ plain_update T.rank update ∷ []))) × (count ≡ length held + 1)) }
        ensures err { OnErr result (self.new ≡ self.old) }
    {
        match &mut self.places[session as usize] {
            Some(held) => {
                held.push(update)?;
                Ok(held.len() as u32)
            }
            None => unreachable!(),
        }
    }
}

/// A place for each session, all closed. `Err`: memory ran out.
fn closed_places<T: Moment>(alloc: Global) -> Result<Vec<Option<Sequence<Update<T>>>>, NoMemory>
    ensures { IfOk result (λ places. map (plain_draft T.rank) places.items ≡ replicate SESSIONS None) }
{
    let mut places = Vec::new(alloc);
    for _ in 0..SESSIONS {
        places.push(None)?;
    }
    Ok(places)
}
