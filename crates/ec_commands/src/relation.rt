//! The relations in which two intervals can stand, and their words.
ghost use Rattle.std.specs.Prelude.{◌≡◌};
ghost use Rattle.ec_commands.specs.Relations.{relation_spelt, IntervalsStandInOneRelation, RelationsHaveInverses};

use crate::keyword::is;

/// How one interval stands to another: one of the thirteen relations, after Allen (1983), in outline.
/// The first seven have his words; the words of the six inverses are this project's own.
#[derive(Clone, Copy, Debug, PartialEq, Eq)]
pub enum Relation {
    Before,
    Meets,
    Overlaps,
    Starts,
    During,
    Finishes,
    Equals,
    After,
    MetBy,
    OverlappedBy,
    StartedBy,
    Contains,
    FinishedBy,
}

/// The relation that a word spells. `None` where it spells none.
#[tactic(auto, unfolding(crate::specs::Relations::relation_spelt, crate::specs::Relations::relation_words))]
pub fn read_relation(word: &[u8]) -> Option<Relation>
    ensures { result ≡ relation_spelt word.now }
{
    let relation = if is(word, b"before") {
        Relation::Before
    } else if is(word, b"meets") {
        Relation::Meets
    } else if is(word, b"overlaps") {
        Relation::Overlaps
    } else if is(word, b"starts") {
        Relation::Starts
    } else if is(word, b"during") {
        Relation::During
    } else if is(word, b"finishes") {
        Relation::Finishes
    } else if is(word, b"equals") {
        Relation::Equals
    } else if is(word, b"after") {
        Relation::After
    } else if is(word, b"met_by") {
        Relation::MetBy
    } else if is(word, b"overlapped_by") {
        Relation::OverlappedBy
    } else if is(word, b"started_by") {
        Relation::StartedBy
    } else if is(word, b"contains") {
        Relation::Contains
    } else if is(word, b"finished_by") {
        Relation::FinishedBy
    } else {
        return None;
    };
    Some(relation)
}

/// Any two intervals that begin before they end stand in one of the relations, and in no other.
pub fn intervals_stand_in_one_relation_law()
    ensures { IntervalsStandInOneRelation }
{}

/// Where one interval stands in a relation to another, the other stands to it in the inverse one.
pub fn relations_have_inverses_law()
    ensures { RelationsHaveInverses }
{}
