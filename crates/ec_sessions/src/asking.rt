//! What queries read of an engine, and their answers of fixed form.
ghost use Rattle.std.specs.Prelude.{◌≡◌, int_lt, if◌then◌else◌};
ghost use Rattle.ec_terms.specs.Term.{ground_of};
ghost use Rattle.ec_commands.specs.Answers.{answer_text, refused_order};
ghost use Rattle.ec_axioms.specs.Calculus.{holds_at, holds_through};
ghost use Rattle.ec_changes.specs.LiveLaws.{ListsInitials};
ghost use Rattle.ec_lines.specs.ShownAnswer.{plain_answer};
ghost use Rattle.ec_query.specs.Held.{AreHeldOf};
ghost use Rattle.ec_query.specs.Marked.{AreMarkedOf};
ghost use Rattle.ec_replies.specs.Replies.{yes_or_no};

use ec_engine::Engine;
use ec_lines::Answer;
use ec_moment::Moment;
use ec_query::{Held, Marked, holds_at, through};
use ec_rows::{MarkRow, SpanRow, TimeRow};
use ec_terms::GroundRef;

/// What queries on intervals read. The theory lists its initial properties.
pub(crate) fn held<T: Moment, M: MarkRow<T>, I: SpanRow<T>, X: TimeRow<T>>(
    engine: &Engine<T, M, I, X>,
) -> Held<'_, T, I>
    ensures held { AreHeldOf T.rank engine.now.theory engine.now.events result.props.now result.intervals.now }
    ensures initials { ListsInitials engine.now.theory }
{
    let parts = engine.parts();
    let _ = parts.checked.theory();
    Held {
        props: &parts.props,
        intervals: &parts.intervals,
    }
}

/// What queries on marks read.
pub(crate) fn marked<T: Moment, M: MarkRow<T>, I: SpanRow<T>, X: TimeRow<T>>(
    engine: &Engine<T, M, I, X>,
) -> Marked<'_, T, M>
    ensures theory { result.theory.now ≡ engine.now.theory }
    ensures marked { AreMarkedOf T.rank engine.now.theory engine.now.events result.props.now result.points.now }
{
    let parts = engine.parts();
    Marked {
        theory: parts.checked.theory(),
        props: &parts.props,
        points: &parts.points,
    }
}

/// Yes or no.
fn yes_or_no(holds: bool) -> Answer
    ensures { answer_text (plain_answer result) ≡ yes_or_no holds }
{
    if holds { Answer::Yes } else { Answer::No }
}

/// Whether a property holds at a time.
pub(crate) fn answer_holds<T: Moment, M: MarkRow<T>, I: SpanRow<T>, X: TimeRow<T>>(
    engine: &Engine<T, M, I, X>,
    prop: &GroundRef<'_>,
    at: T,
) -> Answer
    ensures { answer_text (plain_answer result) ≡ yes_or_no (holds_at engine.now.theory engine.now.events (ground_of prop.now) (T.rank at)) }
{
    yes_or_no(holds_at(&held(engine), prop, at))
}

/// Whether a property holds through a stretch, whose end must not come before its beginning.
pub(crate) fn answer_through<T: Moment, M: MarkRow<T>, I: SpanRow<T>, X: TimeRow<T>>(
    engine: &Engine<T, M, I, X>,
    prop: &GroundRef<'_>,
    from: T,
    until: T,
) -> Answer
    ensures { answer_text (plain_answer result) ≡ (if int_lt (T.rank until) (T.rank from) then answer_text refused_order else yes_or_no (holds_through engine.now.theory engine.now.events (ground_of prop.now) (T.rank from) (T.rank until))) }
{
    if until.order(&from).is_lt() {
        Answer::Order
    } else {
        yes_or_no(through(&held(engine), prop, from, until))
    }
}
