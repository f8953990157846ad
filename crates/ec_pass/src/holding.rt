//! What a pass knows of whether a property holds at a time.
ghost use Rattle.std.specs.Prelude.{◌≡◌};
ghost use Rattle.ec_pass.specs.Holdings.{held_at_end, judged, looked_up};

use crate::outcome::Outcome;

/// What is known of a property and a time at the present instant.
#[derive(Clone, Copy)]
pub(crate) enum Holding {
    /// The instant is before the time.
    Before,
    /// The property is current at the time, and nothing has broken it from there on, before the instant.
    Waits,
    /// Whether it holds is known.
    Known(bool),
}

/// What follows from what the present instant does to the property.
pub(crate) fn judge(holding: Holding, outcome: Outcome) -> Holding
    ensures { result ≡ judged holding outcome }
{
    match holding {
        Holding::Waits => match outcome {
            Outcome::Terminated => Holding::Known(true),
            Outcome::Broken => Holding::Known(false),
            Outcome::Unbroken => Holding::Waits,
        },
        Holding::Before | Holding::Known(_) => holding,
    }
}

/// What follows at the next instant, once it is from the time on, by whether the property is current there.
pub(crate) fn look_up(holding: Holding, reached: bool, is_current: bool) -> Holding
    ensures { result ≡ looked_up holding reached is_current }
{
    match holding {
        Holding::Before => {
            if !reached {
                Holding::Before
            } else if is_current {
                Holding::Waits
            } else {
                Holding::Known(false)
            }
        }
        Holding::Waits | Holding::Known(_) => holding,
    }
}

/// Whether the property holds, once no event is left and the time is reached.
pub(crate) fn held(holding: Holding) -> bool
    ensures { result ≡ held_at_end holding }
{
    match holding {
        Holding::Before => false,
        Holding::Waits => true,
        Holding::Known(holds) => holds,
    }
}
