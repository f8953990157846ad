//! The generated lines: what is drawn of each.
ghost use Rattle.std.specs.Prelude.{◌≡◌, ◌<◌};
ghost use Rattle.ec_soak.specs.Load.{event_of, drawn_assert, drawn_retract, drawn_holds_lit, drawn_holds_at, drawn_intervals, drawn_line};

use crate::draws::Draws;

/// An event of a generated line: what happens, to which person, lamp or hall, each by its number.
#[derive(Clone, Copy)]
pub enum GeneratedEvent {
    Push { person: u32, lamp: u32 },
    Plug { lamp: u32 },
    Unplug { lamp: u32 },
    Move { person: u32, hall: u32 },
    Leave { person: u32, hall: u32 },
}

/// A generated line by its parts. An event is named by the number of the line that asserts it.
#[derive(Clone, Copy)]
pub enum GeneratedLine {
    Assert {
        number: u32,
        time: u32,
        event: GeneratedEvent,
    },
    Retract {
        number: u32,
    },
    HoldsLit {
        lamp: u32,
        time: u32,
    },
    HoldsAt {
        person: u32,
        hall: u32,
        time: u32,
    },
    Intervals {
        lamp: u32,
    },
    Last,
}

/// The event of a kind, which is a number below 5, for a person and a place.
fn event_of(kind: u32, person: u32, place: u32) -> GeneratedEvent
    ensures { result ≡ event_of kind person place }
{
    match kind {
        0 => GeneratedEvent::Push {
            person,
            lamp: place,
        },
        1 => GeneratedEvent::Plug { lamp: place },
        2 => GeneratedEvent::Unplug { lamp: place },
        3 => GeneratedEvent::Move {
            person,
            hall: place,
        },
        _ => GeneratedEvent::Leave {
            person,
            hall: place,
        },
    }
}

/// Draws the parts of an `assert`.
#[tactic(auto, unfolding(crate::specs::Load::drawn_assert))]
fn draw_assert(draws: &mut Draws, number: u32) -> GeneratedLine
    ensures line { result ≡ (drawn_assert number draws.old).0 }
    ensures state { draws.new ≡ (drawn_assert number draws.old).1 }
{
    let time = draws.draw(100_000);
    let kind = draws.draw(5);
    let person = draws.draw(16);
    let place = draws.draw(64);
    GeneratedLine::Assert {
        number,
        time,
        event: event_of(kind, person, place),
    }
}

/// Draws the parts of a `retract` on the line with that number.
#[tactic(auto, unfolding(crate::specs::Load::drawn_retract))]
fn draw_retract(draws: &mut Draws, number: u32) -> GeneratedLine
    requires { 0 < number }
    ensures line { result ≡ (drawn_retract number draws.old).0 }
    ensures state { draws.new ≡ (drawn_retract number draws.old).1 }
{
    let line = draws.draw(number);
    GeneratedLine::Retract { number: line + 1 }
}

/// Draws the parts of a `holds` of a lamp.
#[tactic(auto, unfolding(crate::specs::Load::drawn_holds_lit))]
fn draw_holds_lit(draws: &mut Draws) -> GeneratedLine
    ensures line { result ≡ (drawn_holds_lit draws.old).0 }
    ensures state { draws.new ≡ (drawn_holds_lit draws.old).1 }
{
    let lamp = draws.draw(64);
    let time = draws.draw(100_000);
    GeneratedLine::HoldsLit { lamp, time }
}

/// Draws the parts of a `holds` of a person in a hall.
#[tactic(auto, unfolding(crate::specs::Load::drawn_holds_at))]
fn draw_holds_at(draws: &mut Draws) -> GeneratedLine
    ensures line { result ≡ (drawn_holds_at draws.old).0 }
    ensures state { draws.new ≡ (drawn_holds_at draws.old).1 }
{
    let person = draws.draw(16);
    let hall = draws.draw(64);
    let time = draws.draw(100_000);
    GeneratedLine::HoldsAt { person, hall, time }
}

/// Draws the parts of an `intervals`.
#[tactic(auto, unfolding(crate::specs::Load::drawn_intervals))]
fn draw_intervals(draws: &mut Draws) -> GeneratedLine
    ensures line { result ≡ (drawn_intervals draws.old).0 }
    ensures state { draws.new ≡ (drawn_intervals draws.old).1 }
{
    let lamp = draws.draw(64);
    GeneratedLine::Intervals { lamp }
}

/// Draws the line with that number.
#[tactic(auto, unfolding(crate::specs::Load::drawn_line))]
pub(crate) fn draw_line(draws: &mut Draws, number: u32) -> GeneratedLine
    requires { 0 < number }
    ensures line { result ≡ (drawn_line number draws.old).0 }
    ensures state { draws.new ≡ (drawn_line number draws.old).1 }
{
    match draws.draw(100) {
        0..=49 => draw_assert(draws, number),
        50..=59 => draw_retract(draws, number),
        60..=79 => draw_holds_lit(draws),
        80..=89 => draw_holds_at(draws),
        90..=94 => draw_intervals(draws),
        _ => GeneratedLine::Last,
    }
}
