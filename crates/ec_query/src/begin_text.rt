//! The text of a begin, which stands in that of an interval, of a broken begin and of a reason.
ghost use Rattle.std.specs.Prelude.{◌≡◌, ◌+◌, ◌≤◌, ◌++◌, length};
ghost use Rattle.ec_commands.specs.QueryTexts.{begin_text};
ghost use Rattle.ec_intervals.specs.Table.{plain_begin};

use ec_intervals::Begin;
use ec_moment::{LONGEST_MOMENT, Moment};
use ec_outside::Text;

/// Adds a begin: its time, or `-inf` for that before all events.
pub(crate) fn push_begin<T: Moment, const N: usize>(text: &mut Text<N>, begin: Begin<T>)
    requires { length text.old + LONGEST_MOMENT ≤ N }
    ensures text { text.new ≡ text.old ++ begin_text T.canon (plain_begin T.rank begin) }
    ensures len { length text.new ≤ length text.old + LONGEST_MOMENT }
{
    match begin {
        Begin::Initial => text.push(b"-inf"),
        Begin::At(at) => text.push_moment(at),
    }
}
