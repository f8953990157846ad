//! Time as a plain number.
ghost use Rattle.std.proofs.Common.{rules};
ghost use Rattle.ec_moment.specs.Number.{LEAST_NUMBER, MOST_NUMBER, number_text, number_value};

use crate::moment::Moment;
use crate::moment_text::MomentText;
use crate::number::read_number;
use itoa::Buffer;
use std::cmp::Ordering;

/// A moment that is a number of 64 bits, in whatever unit its user counts: it is spelt as a number,
/// and its text is the canonical text of that number.
#[derive(Clone, Copy, Debug, PartialEq, Eq, PartialOrd, Ord, Hash)]
pub struct Tick(pub i64);

impl Moment for Tick {
    ghost rank = { λ tick. tick.0 };

    ghost LEAST = { LEAST_NUMBER };

    ghost MOST = { MOST_NUMBER };

    ghost spelt = { number_value };

    ghost canon = { number_text };

    fn order(&self, other: &Self) -> Ordering {
        let (Tick(number), Tick(other)) = (*self, *other);
        number.cmp(&other)
    }

    fn read(bytes: &[u8]) -> Option<Self> {
        read_number(bytes).map(Tick)
    }

    fn text(&self) -> MomentText {
        let Tick(number) = *self;
        let mut buffer = Buffer::new();
        let mut text = MomentText::new();
        text.push_str(buffer.format(number));
        text
    }

    ghost same_moment = { Prim.search rules };
}
