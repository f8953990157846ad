//! Where the searches of a sweep ended last.
use ec_terms::PropId;

/// In place of a place to look at first: none.
const ANYWHERE: usize = usize::MAX;

/// For how many properties places are kept at once.
const KEPT: usize = 16;

/// Where the searches of a property ended last: among its marks, and among its dependents.
#[derive(Clone, Copy)]
pub(crate) struct Near {
    p: PropId,
    pub marks: usize,
    pub dependents: usize,
}

/// Where the searches of some properties ended last. A sweep goes forward, so the next ones end there or not far behind. It is
/// all hints, which change no answer: a property may take the row of another, and contracts don't see them.
#[derive(Clone, Copy)]
pub(crate) struct Places {
    rows: [Near; KEPT],
}

/// No hint for a property.
fn nowhere(p: PropId) -> Near {
    Near {
        p,
        marks: ANYWHERE,
        dependents: ANYWHERE,
    }
}

impl Places {
    /// No hints. It takes no memory.
    pub(crate) fn new() -> Places {
        Places {
            rows: [nowhere(PropId(0)); KEPT],
        }
    }

    /// Where to look first for a property.
    pub(crate) fn near(&self, p: PropId) -> Near {
        let near = self.rows[p.0 % KEPT];
        if near.p.0 == p.0 { near } else { nowhere(p) }
    }

    /// Keeps where the searches of a property ended.
    pub(crate) fn keep(&mut self, near: Near) {
        self.rows[near.p.0 % KEPT] = near;
    }
}
