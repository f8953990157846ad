//! The tables with one event more, if the limits on mentions and links let it in.
ghost use Rattle.std.specs.Prelude.{◌≡◌, ◌+◌, ◌≤◌, ℕ, List, length};
ghost use Rattle.ec_axioms.specs.Calculus.{PlainEvent};
ghost use Rattle.ec_parts.specs.Mentions.{list_props};
ghost use Rattle.ec_parts.specs.StandFor.{view_of};
ghost use Rattle.ec_store.specs.Table.{term_at};
ghost use Rattle.ec_batch.specs.Limited.{IsLetIn, MayComeIn, ComesIn};

use ec_axioms::{Cut, MOST_LINKS, MOST_MENTIONS};
use ec_context::EntryList;
use ec_moment::Moment;
use ec_parts::{Parts, Tally, mention_all, release_all};
use ec_rows::{MarkRow, SpanRow, TimeRow};

/// How many mentions the entries of an event make.
fn mention_count(list: &EntryList) -> u64
    ensures count { result ≡ length (list_props list.now) }
    ensures few { result ≤ 2048 }
{
    let mut count = 0;
    for entry in list.as_slice() {
        count += 1 + entry.literals.len() as u64;
    }
    count
}

/// Mentions the entries of an event in the tables, if these then have no more mentions and links than there may be. Else they
/// are as they were.
pub(crate) fn take_in<T: Moment, M: MarkRow<T>, I: SpanRow<T>, X: TimeRow<T>>(
    parts: &mut Parts<T, M, I, X>,
    tally: &mut Tally,
    list: &EntryList,
) -> Result<(), Cut>
    requires coming { MayComeIn T.rank parts.old.checked list.now (view_of parts.old) tally.old }
    ensures limits { (now soon : List PlainEvent) (event : PlainEvent) → ComesIn T.rank parts.old.checked list.now (view_of parts.old) tally.old now soon event →
        IsLetIn T.rank parts.old.checked now soon event (view_of parts.new) tally.new result }
    ensures terms { (id : ℕ) → term_at id parts.new.props ≡ term_at id parts.old.props }
    ensures rest { parts.new ≡ record parts.old { props = parts.new.props } }
{
    if tally.mentions + mention_count(list) > MOST_MENTIONS {
        return Err(Cut::FullMentions);
    }
    mention_all(parts, tally, list);
    if tally.links > MOST_LINKS {
        release_all(parts, tally, list);
        return Err(Cut::FullLinks);
    }
    Ok(())
}
