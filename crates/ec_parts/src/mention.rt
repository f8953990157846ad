//! Mentions of properties more and less, and what they make of the tally.
ghost use Rattle.std.specs.Prelude.{◌+◌, ◌≤◌, ◌<◌, ◌^◌, [], ◌∷◌, IsSome, All, length, map};
ghost use Rattle.ec_context.specs.Entries.{IsKeptEntry};
ghost use Rattle.ec_store.specs.Table.{prop_at};
ghost use Rattle.ec_parts.specs.Mentions.{AreSomeTables, HasMentioned, HasReleased, entry_props, list_props};

use crate::links::links_with;
use crate::tally::Tally;
use ec_context::{Entry, EntryLiteral};
use ec_exclusive::Neighbours;
use ec_moment::Moment;
use ec_points::Points;
use ec_rows::MarkRow;
use ec_store::PropTable;
use ec_terms::PropId;

/// Counts one mention more of a property.
fn mention<T: Moment, M: MarkRow<T>>(
    props: &mut PropTable,
    neighbours: &Neighbours,
    points: &Points<T, M>,
    tally: &mut Tally,
    p: PropId,
)
    requires kept { IsSome (prop_at p.0 props.old) }
    requires tables { AreSomeTables [] props.old neighbours.now points.now tally.old }
    requires few { tally.old.mentions < 2 ^ 21 }
    ensures { HasMentioned neighbours.now points.now (p ∷ []) props.old tally.old props.new tally.new }
{
    let _ = props.len();
    let list = neighbours.of(p);
    let fresh = props.mentions(p) == 0;
    let links = links_with(props, points, fresh, list);
    props.mention(p, 1);
    tally.mentions += 1;
    tally.links += links;
}

/// Counts one mention less of a property.
fn release<T: Moment, M: MarkRow<T>>(
    props: &mut PropTable,
    neighbours: &Neighbours,
    points: &Points<T, M>,
    tally: &mut Tally,
    p: PropId,
)
    requires kept { IsSome (prop_at p.0 props.old) }
    requires tables { AreSomeTables (p ∷ []) props.old neighbours.now points.now tally.old }
    ensures { HasReleased neighbours.now points.now (p ∷ []) props.old tally.old props.new tally.new }
{
    let _ = props.len();
    let all = tally.links;
    props.release(p, 1);
    let list = neighbours.of(p);
    let fresh = props.mentions(p) == 0;
    let links = links_with(props, points, fresh, list);
    tally.mentions -= 1;
    tally.links = all - links;
}

/// Counts one mention more of the property of each literal.
fn mention_literals<T: Moment, M: MarkRow<T>>(
    props: &mut PropTable,
    neighbours: &Neighbours,
    points: &Points<T, M>,
    tally: &mut Tally,
    literals: &[EntryLiteral],
)
    requires kept { All (λ literal. IsSome (prop_at literal.prop.0 props.old)) literals.now }
    requires tables { AreSomeTables [] props.old neighbours.now points.now tally.old }
    requires few { tally.old.mentions + length literals.now ≤ 2 ^ 21 }
    ensures { HasMentioned neighbours.now points.now (map (λ literal. literal.prop) literals.now) props.old tally.old props.new tally.new }
{
    for literal in literals {
        mention(props, neighbours, points, tally, literal.prop);
    }
}

/// Counts one mention less of the property of each literal.
fn release_literals<T: Moment, M: MarkRow<T>>(
    props: &mut PropTable,
    neighbours: &Neighbours,
    points: &Points<T, M>,
    tally: &mut Tally,
    literals: &[EntryLiteral],
)
    requires kept { All (λ literal. IsSome (prop_at literal.prop.0 props.old)) literals.now }
    requires tables { AreSomeTables (map (λ literal. literal.prop) literals.now) props.old neighbours.now points.now tally.old }
    ensures { HasReleased neighbours.now points.now (map (λ literal. literal.prop) literals.now) props.old tally.old props.new tally.new }
{
    for literal in literals {
        release(props, neighbours, points, tally, literal.prop);
    }
}

/// Counts one mention more of each property of an entry.
fn mention_entry<T: Moment, M: MarkRow<T>>(
    props: &mut PropTable,
    neighbours: &Neighbours,
    points: &Points<T, M>,
    tally: &mut Tally,
    entry: &Entry,
)
    requires kept { IsKeptEntry props.old entry.now }
    requires tables { AreSomeTables [] props.old neighbours.now points.now tally.old }
    requires few { tally.old.mentions + length (entry_props entry.now) ≤ 2 ^ 21 }
    ensures { HasMentioned neighbours.now points.now (entry_props entry.now) props.old tally.old props.new tally.new }
{
    mention(props, neighbours, points, tally, entry.head);
    mention_literals(props, neighbours, points, tally, entry.literals.as_slice());
}

/// Counts one mention less of each property of an entry.
fn release_entry<T: Moment, M: MarkRow<T>>(
    props: &mut PropTable,
    neighbours: &Neighbours,
    points: &Points<T, M>,
    tally: &mut Tally,
    entry: &Entry,
)
    requires kept { IsKeptEntry props.old entry.now }
    requires tables { AreSomeTables (entry_props entry.now) props.old neighbours.now points.now tally.old }
    ensures { HasReleased neighbours.now points.now (entry_props entry.now) props.old tally.old props.new tally.new }
{
    release(props, neighbours, points, tally, entry.head);
    release_literals(props, neighbours, points, tally, entry.literals.as_slice());
}

/// Counts one mention more of each property of some entries.
pub(crate) fn mention_entries<T: Moment, M: MarkRow<T>>(
    props: &mut PropTable,
    neighbours: &Neighbours,
    points: &Points<T, M>,
    tally: &mut Tally,
    entries: &[Entry],
)
    requires kept { All (IsKeptEntry props.old) entries.now }
    requires tables { AreSomeTables [] props.old neighbours.now points.now tally.old }
    requires few { tally.old.mentions + length (list_props entries.now) ≤ 2 ^ 21 }
    ensures { HasMentioned neighbours.now points.now (list_props entries.now) props.old tally.old props.new tally.new }
{
    for entry in entries {
        mention_entry(props, neighbours, points, tally, entry);
    }
}

/// Counts one mention less of each property of some entries.
pub(crate) fn release_entries<T: Moment, M: MarkRow<T>>(
    props: &mut PropTable,
    neighbours: &Neighbours,
    points: &Points<T, M>,
    tally: &mut Tally,
    entries: &[Entry],
)
    requires kept { All (IsKeptEntry props.old) entries.now }
    requires tables { AreSomeTables (list_props entries.now) props.old neighbours.now points.now tally.old }
    ensures { HasReleased neighbours.now points.now (list_props entries.now) props.old tally.old props.new tally.new }
{
    for entry in entries {
        release_entry(props, neighbours, points, tally, entry);
    }
}
