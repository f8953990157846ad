//! What a command is answered by.

use ec_commands::Relation;
use ec_lines::{Answer, Query};
use ec_terms::GroundRef;

/// What a command is answered by.
#[derive(Drop)]
pub(crate) enum Told<'a, T> {
    /// The line is silent.
    Nothing,
    /// One of the fixed forms.
    Answer(Answer),
    /// The reply to a query, which is written from the engine as it is read.
    Query(Query<'a, T>),
    /// The reply to a query of the list after so many accepted updates, which is ready, and is written from its engine as it is read.
    Past { count: u64, query: Query<'a, T> },
    /// How the intervals of two properties relate, which is written from the engine as it is read.
    Compared(Comparison<'a, T>),
}

/// How the intervals of two properties are compared.
#[derive(Drop)]
pub(crate) enum Comparison<'a, T> {
    /// Which pairs stand in a relation.
    Pairs {
        left: GroundRef<'a>,
        relation: Relation,
        right: GroundRef<'a>,
    },
    /// To which the interval of one of them that covers a time stands in a relation.
    Related {
        left: GroundRef<'a>,
        at: T,
        relation: Relation,
        right: GroundRef<'a>,
    },
}
