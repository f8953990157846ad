//! Time as dates and times of day.
ghost use Rattle.std.specs.Prelude.{◌≡◌, ◌≤◌, option_map, pos, IfSome};
ghost use Rattle.std.proofs.Common.{rules};
ghost use Rattle.ec_civil.specs.Civil.{civil_text, civil_value};

use crate::limits::{MOST_CIVIL, TEXT_LENGTH};
use crate::stamp::Stamp;
use ec_moment::{Moment, MomentText};
use std::cmp::Ordering;
use std::marker::Model;

/// A second of a day of the years 0 to 9999, in UTC and without leap seconds.
///
/// It is spelt as `2024-02-29T09:00:00Z`, in 20 bytes and in no other way. Contracts see it as its number
/// of seconds from `0000-01-01T00:00:00Z` on, which is its rank.
#[derive(Clone, Copy)]
pub struct Civil {
    second: u64,
}

impl Model for Civil {
    ghost use Rattle.std.specs.Prelude.{ℕ, ◌≤◌};
    ghost use Rattle.ec_civil.specs.declared.limits.TheConstants.{MOST_CIVIL};

    ghost Value = { ℕ };

    ghost view = { λ civil. civil.second };

    ghost inverse = { λ second. record { second = second } };

    ghost invariant = { λ civil. civil.second ≤ MOST_CIVIL };
}

impl Moment for Civil {
    ghost use Rattle.ec_civil.specs.declared.limits.TheConstants.{MOST_CIVIL};

    ghost rank = { λ civil. pos civil };

    ghost LEAST = { pos 0 };

    ghost MOST = { pos MOST_CIVIL };

    ghost spelt = { civil_value };

    ghost canon = { civil_text };

    fn order(&self, other: &Self) -> Ordering {
        self.second.cmp(&other.second)
    }

    fn read(bytes: &[u8]) -> Option<Self> {
        let second = read_rank(bytes)?;
        Some(Civil { second })
    }

    fn text(&self) -> MomentText {
        Stamp::of_rank(self.second).text()
    }

    ghost same_moment = { Prim.search rules };
}

/// The rank of the civil time that the whole of `bytes` spells.
fn read_rank(bytes: &[u8]) -> Option<u64>
    ensures exact { option_map pos result ≡ civil_value bytes.now }
    ensures within { IfSome result (λ rank. rank ≤ MOST_CIVIL) }
{
    if bytes.len() != TEXT_LENGTH {
        return None;
    }
    let stamp = Stamp::at_places(bytes);
    let rank = stamp.rank()?;
    // The text tells whether the bytes were digits, with what they are separated by.
    if stamp.text().as_bytes() == bytes {
        Some(rank)
    } else {
        None
    }
}
