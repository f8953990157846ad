//! A row of marks read from left to right: what one mark does to the begin that is open in front of it.
ghost use Rattle.std.specs.Prelude.{◌≡◌, option_map};
ghost use Rattle.ec_axioms.specs.Marks.{mark_breaks};
ghost use Rattle.ec_intervals.specs.Steps.{broken_by, ended_by, first_open, open_behind};
ghost use Rattle.ec_intervals.specs.Table.{plain_begin, plain_broken, plain_interval};
ghost use Rattle.ec_rows.specs.PlainMarks.{plain_mark};

use crate::interval::{Begin, Interval};
use ec_moment::Moment;
use ec_rows::{End, Mark};

/// Whether a mark breaks: it terminates or clashes, or it initiates a strong property.
pub(crate) fn breaks<T: Moment>(mark: Mark<T>, strong: bool) -> bool
    ensures { result ≡ mark_breaks strong (plain_mark T.rank mark) }
{
    mark.terms > 0 || mark.clashes > 0 || (strong && mark.inits > 0)
}

/// The begin that is open in front of all marks.
pub(crate) fn first_open<T: Moment>(initial: bool) -> Option<Begin<T>>
    ensures { option_map (plain_begin T.rank) result ≡ first_open initial }
{
    if initial { Some(Begin::Initial) } else { None }
}

/// The begin that is open behind a mark.
pub(crate) fn open_behind<T: Moment>(
    begun: Option<Begin<T>>,
    mark: Mark<T>,
    strong: bool,
) -> Option<Begin<T>>
    ensures { option_map (plain_begin T.rank) result ≡ open_behind strong (option_map (plain_begin T.rank) begun) (plain_mark T.rank mark) }
{
    let broken = breaks(mark, strong);
    if mark.inits > 0 && (broken || begun.is_none()) {
        Some(Begin::At(mark.at))
    } else if broken {
        None
    } else {
        begun
    }
}

/// The interval that a mark ends.
pub(crate) fn ended_by<T: Moment>(begun: Option<Begin<T>>, mark: Mark<T>) -> Option<Interval<T>>
    ensures { option_map (plain_interval T.rank) result ≡ ended_by (option_map (plain_begin T.rank) begun) (plain_mark T.rank mark) }
{
    if mark.terms == 0 {
        return None;
    }
    let from = begun?;
    Some(Interval {
        from,
        end: End::At(mark.at),
    })
}

/// The begin that a mark breaks, with the time of the mark.
pub(crate) fn broken_by<T: Moment>(
    begun: Option<Begin<T>>,
    mark: Mark<T>,
    strong: bool,
) -> Option<(Begin<T>, T)>
    ensures { option_map (plain_broken T.rank) result ≡ broken_by strong (option_map (plain_begin T.rank) begun) (plain_mark T.rank mark) }
{
    let ends = mark.terms > 0;
    if ends || !breaks(mark, strong) {
        return None;
    }
    let from = begun?;
    Some((from, mark.at))
}
