use ec_context::Rules;
use ec_entries::Entries;
use ec_exclusive::Neighbours;
use ec_intervals::Intervals;
use ec_moment::Moment;
use ec_points::Points;
use ec_rows::{MarkRow, SpanRow, TimeRow};
use ec_store::{EventStore, PropTable};

/// The parts of an engine. The tables, `props` and `neighbours`, say which properties there are and how they stand to one
/// another; the caches, all that follow but `store`, say what the calculus makes of the events in `store`.
#[derive(Drop)]
pub struct Parts<T: Moment, M: MarkRow<T>, I: SpanRow<T>, X: TimeRow<T>> {
    /// The theory, with its rules by the events that they are for.
    pub checked: Rules,
    pub store: EventStore<T, X>,
    pub props: PropTable,
    pub neighbours: Neighbours,
    pub entries: Entries<T>,
    /// The marks of each kept property.
    pub points: Points<T, M>,
    /// The marks that initiate a kept property, each with its initiations alone: of each that an initiation may break, as of
    /// one that another excludes. Nothing asks for those of the others.
    pub initiations: Points<T, M>,
    pub intervals: Intervals<T, I>,
}
