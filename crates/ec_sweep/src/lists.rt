//! The lists of a sweep, which the next one fills again.
ghost use Rattle.std.specs.Prelude.{◌≡◌, []};
ghost use Rattle.ec_sweep.specs.Sweeping.{no_sweep};

use crate::dirty::Dirty;
use crate::progress::Progress;
use crate::scratch::Scratch;
use crate::sweep::Sweep;
use ec_delta::{Looked, Planned};
use ec_moment::Moment;
use ec_numbered::Agenda;
use std::alloc::Global;
use std::mem;

/// The lists of a sweep and of its plan, kept from one update to the next for their room alone: what stands in them means nothing.
#[derive(Drop)]
pub struct Lists<T: Moment> {
    pub(crate) scratch: Scratch,
    pub(crate) dirty: Dirty,
    pub(crate) agenda: Agenda<T>,
    /// The lists of the last plan, once it is made.
    pub planned: Planned<T>,
    alloc: Global,
}

impl<T: Moment> Lists<T> {
    /// Lists without room. It takes no memory.
    pub fn new(alloc: Global) -> Lists<T> {
        Lists {
            scratch: Scratch::new(alloc),
            dirty: Dirty::new(alloc),
            agenda: Agenda::new(alloc),
            planned: Planned::new(alloc),
            alloc,
        }
    }

    /// The dirty properties, emptied.
    fn take_dirty(&mut self) -> Dirty
        ensures { result ≡ [] }
    {
        let mut dirty = mem::replace(&mut self.dirty, Dirty::new(self.alloc));
        dirty.clear();
        dirty
    }

    /// The agenda, emptied.
    fn take_agenda(&mut self) -> Agenda<T>
        ensures { result ≡ [] }
    {
        let mut agenda = mem::replace(&mut self.agenda, Agenda::new(self.alloc));
        agenda.clear();
        agenda
    }

    /// The lists of a plan, emptied.
    fn take_planned(&mut self) -> Planned<T>
        ensures marks { result.marks ≡ [] }
        ensures initiations { result.initiations ≡ [] }
        ensures touched { result.touched ≡ [] }
    {
        let mut planned = mem::replace(&mut self.planned, Planned::new(self.alloc));
        planned.clear();
        planned
    }

    /// A sweep that found nothing yet. It takes no memory.
    pub(crate) fn take_sweep(&mut self) -> Sweep<T>
        ensures { result ≡ no_sweep }
    {
        Sweep {
            last: None,
            dirty: self.take_dirty(),
            agenda: self.take_agenda(),
            progress: Progress {
                removed: 0,
                added: 0,
            },
            looked: Looked::new(self.alloc),
            planned: self.take_planned(),
        }
    }
}
