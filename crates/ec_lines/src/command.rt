use ec_commands::Relation;
use ec_terms::{GroundRef, Name};

/// What can be asked of one list of events. The terms are borrowed from the line.
#[derive(Drop)]
pub enum Query<'a, T> {
    /// Whether a property holds at a time.
    Holds {
        prop: GroundRef<'a>,
        at: T,
    },
    /// Whether a property holds at each time of a stretch, which may be empty or backwards.
    Through {
        prop: GroundRef<'a>,
        from: T,
        until: T,
    },
    /// Over which intervals a property holds.
    Intervals {
        prop: GroundRef<'a>,
    },
    /// Where a property began and was broken.
    Broken {
        prop: GroundRef<'a>,
    },
    /// Which properties hold at a time.
    At {
        at: T,
    },
    /// The times at which exclusive properties begin together.
    Clashes,
    /// Which events are present.
    Events,
    /// Why a property holds at a time, or why not.
    Why {
        prop: GroundRef<'a>,
        at: T,
    },
}

/// What a line asks. The terms are borrowed from the line.
#[derive(Drop)]
pub enum Command<'a, T> {
    /// The line has no word, or is a comment.
    Silent,
    /// The line is of no other form.
    Bad,
    Assert {
        id: Name,
        at: T,
        event: GroundRef<'a>,
    },
    Retract {
        id: Name,
    },
    Begin,
    Commit,
    Abort,
    /// Asks a query of the present events.
    Ask(Query<'a, T>),
    /// Asks a query of the events after so many accepted updates.
    Past {
        count: u64,
        query: Query<'a, T>,
    },
    /// Which pairs of an interval of one property and one of another stand in a relation.
    Pairs {
        left: GroundRef<'a>,
        relation: Relation,
        right: GroundRef<'a>,
    },
    /// To which intervals of one property that of another which covers a time stands in a relation.
    Related {
        left: GroundRef<'a>,
        at: T,
        relation: Relation,
        right: GroundRef<'a>,
    },
    Last,
    Quit,
}

/// A line: the session that its prefix names, below 64, if it has a prefix, and its command.
#[derive(Drop)]
pub struct Parsed<'a, T> {
    pub session: Option<u8>,
    pub command: Command<'a, T>,
}
