//! An interval as a member of a reply, with what is written in front of it.
ghost use Rattle.std.specs.Prelude.{◌≡◌, ◌≤◌, ◌++◌, ◌∷◌, OnOk, OnErr};
ghost use Rattle.ec_commands.specs.QueryTexts.{interval_text};
ghost use Rattle.ec_compare.specs.Stretches.{front_text};
ghost use Rattle.ec_intervals.specs.Table.{plain_interval};
ghost use Rattle.ec_outside.specs.Counts.{Rose};
ghost use Rattle.ec_outside.specs.Streams.{Appended, AppendedPart};

use ec_intervals::Interval;
use ec_moment::Moment;
use ec_outside::{Failed, Sink, write_all};
use ec_query::{MemberText, set_interval};

/// Which intervals of a pair are written: the second alone, or both.
#[derive(Clone, Copy)]
pub(crate) enum Shown {
    Right,
    Both,
}

/// Makes the text what is written in front of the second interval of a pair, whatever it was.
pub(crate) fn set_front<T: Moment>(text: &mut MemberText, left: &Interval<T>, shown: Shown)
    ensures { text.new ≡ front_text shown T.canon (plain_interval T.rank left.now) }
{
    match shown {
        Shown::Right => text.clear(),
        Shown::Both => set_interval(text, *left),
    }
}

/// Writes an interval as a member behind `front`.
pub(crate) fn write_fronted<T: Moment, K: Sink>(
    front: &[u8],
    interval: Interval<T>,
    out: &mut K,
) -> Result<(), Failed>
    ensures written { OnOk result (Appended K.stands out.old out.new (front.now ++ 32 ∷ interval_text T.canon (plain_interval T.rank interval))) }
    ensures part { OnErr result (AppendedPart K.stands out.old out.new (front.now ++ 32 ∷ interval_text T.canon (plain_interval T.rank interval))) }
    ensures failed { OnErr result (Rose (K.faults out.old) (K.faults out.new)) }
    ensures quiet { OnOk result (K.faults out.new ≡ K.faults out.old) }
    ensures counted { K.faults out.old ≤ K.faults out.new }
{
    let mut text = MemberText::new();
    set_interval(&mut text, interval);
    write_all(out, front)?;
    write_all(out, text.as_bytes())
}
