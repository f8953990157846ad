ghost use Rattle.std.specs.Prelude.{◌≡◌, List};
ghost use Rattle.ec_terms.specs.declared.theory.Theory.{Theory};
ghost use Rattle.ec_terms.specs.Term.{ground_of};
ghost use Rattle.ec_axioms.specs.Calculus.{PlainEvent, holds_at};
ghost use Rattle.ec_query.specs.Held.{AreHeldOf};

use ec_intervals::Intervals;
use ec_moment::Moment;
use ec_rows::SpanRow;
use ec_store::PropTable;
use ec_terms::GroundRef;

/// What queries on intervals read: which properties are kept, and their intervals.
#[derive(Drop)]
pub struct Held<'a, T: Moment, I: SpanRow<T>> {
    pub props: &'a PropTable,
    pub intervals: &'a Intervals<T, I>,
}

/// Whether a property holds at a time. It takes one look-up of the property, and one search among its intervals.
pub fn holds_at<T: Moment, I: SpanRow<T>>(held: &Held<'_, T, I>, p: &GroundRef<'_>, at: T) -> bool
    ensures { (theory : Theory) (events : List PlainEvent) → AreHeldOf T.rank theory events held.now.props.now held.now.intervals.now → result ≡ holds_at theory events (ground_of p.now) (T.rank at) }
{
    match held.props.lookup(p) {
        Some(id) => held.intervals.covers(id, at),
        None => false,
    }
}
