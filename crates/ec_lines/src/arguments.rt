//! Reading the words behind the keyword of a command. Each reader gets the first of them, takes all
//! others, and gives `None` where their number or one of them is not as the command wants it.
ghost use Rattle.std.specs.Prelude.{◌≡◌, [], ◌∷◌, IfSome, None, Some, IsTrue, MatchOption};
ghost use Rattle.ec_terms.specs.Term.{ground_of, term_value, names_are_names};
ghost use Rattle.ec_commands.specs.Commands.{command_by};
ghost use Rattle.ec_lines.specs.ShownCommand.{plain_or_bad, AreNamed};

use crate::command::{Command, Query};
use crate::line_words::Words;
use ec_commands::{Keyword, read_relation};
use ec_moment::Moment;
use ec_terms::{GroundRef, Name, read_ground};

/// The term that a whole word spells.
#[tactic(auto, unfolding(ec_terms::specs::Term::term_value))]
pub fn read_term(word: &[u8]) -> Option<GroundRef<'_>>
    ensures exact { MatchOption result (term_value word.now ≡ None) (λ term. term_value word.now ≡ Some (ground_of term)) }
    ensures names { IfSome result (λ term. IsTrue (names_are_names (ground_of term))) }
{
    let (term, count) = read_ground(word)?;
    if count == word.len() {
        Some(term)
    } else {
        None
    }
}

/// Reads the words behind `assert`: an identity, a time and an event.
#[tactic(auto, unfolding(ec_commands::specs::Commands::command_by, ec_commands::specs::Commands::name_value))]
fn read_assert<'a, T: Moment>(id: &'a [u8], words: &mut Words<'a>) -> Option<Command<'a, T>>
    ensures command { plain_or_bad T.rank result ≡ command_by T.spelt Keyword.Assert (id.now ∷ words.old) }
    ensures names { AreNamed (plain_or_bad T.rank result) }
{
    let at = T::read(words.next()?)?;
    let event = words.last()?;
    let id = Name::from_bytes(id)?;
    let event = read_term(event)?;
    Some(Command::Assert { id, at, event })
}

/// Reads the word behind `retract`: an identity.
#[tactic(auto, unfolding(ec_commands::specs::Commands::command_by, ec_commands::specs::Commands::name_value))]
fn read_retract<'a, T: Moment>(id: &'a [u8], words: &mut Words<'a>) -> Option<Command<'a, T>>
    ensures command { plain_or_bad T.rank result ≡ command_by T.spelt Keyword.Retract (id.now ∷ words.old) }
    ensures names { AreNamed (plain_or_bad T.rank result) }
{
    words.end()?;
    let id = Name::from_bytes(id)?;
    Some(Command::Retract { id })
}

/// Reads the words behind `holds`: a property and a time.
#[tactic(auto, unfolding(ec_commands::specs::Commands::command_by, ec_commands::specs::Commands::name_value))]
fn read_holds<'a, T: Moment>(prop: &'a [u8], words: &mut Words<'a>) -> Option<Command<'a, T>>
    ensures command { plain_or_bad T.rank result ≡ command_by T.spelt Keyword.Holds (prop.now ∷ words.old) }
    ensures names { AreNamed (plain_or_bad T.rank result) }
{
    let at = T::read(words.last()?)?;
    let prop = read_term(prop)?;
    Some(Command::Ask(Query::Holds { prop, at }))
}

/// Reads the words behind `through`: a property and two times.
#[tactic(auto, unfolding(ec_commands::specs::Commands::command_by, ec_commands::specs::Commands::name_value))]
fn read_through<'a, T: Moment>(prop: &'a [u8], words: &mut Words<'a>) -> Option<Command<'a, T>>
    ensures command { plain_or_bad T.rank result ≡ command_by T.spelt Keyword.Through (prop.now ∷ words.old) }
    ensures names { AreNamed (plain_or_bad T.rank result) }
{
    let from = T::read(words.next()?)?;
    let until = T::read(words.last()?)?;
    let prop = read_term(prop)?;
    Some(Command::Ask(Query::Through { prop, from, until }))
}

/// Reads the word behind `intervals`: a property.
#[tactic(auto, unfolding(ec_commands::specs::Commands::command_by, ec_commands::specs::Commands::name_value))]
fn read_intervals<'a, T: Moment>(prop: &'a [u8], words: &mut Words<'a>) -> Option<Command<'a, T>>
    ensures command { plain_or_bad T.rank result ≡ command_by T.spelt Keyword.Intervals (prop.now ∷ words.old) }
    ensures names { AreNamed (plain_or_bad T.rank result) }
{
    words.end()?;
    let prop = read_term(prop)?;
    Some(Command::Ask(Query::Intervals { prop }))
}

/// Reads the word behind `broken`: a property.
#[tactic(auto, unfolding(ec_commands::specs::Commands::command_by, ec_commands::specs::Commands::name_value))]
fn read_broken<'a, T: Moment>(prop: &'a [u8], words: &mut Words<'a>) -> Option<Command<'a, T>>
    ensures command { plain_or_bad T.rank result ≡ command_by T.spelt Keyword.Broken (prop.now ∷ words.old) }
    ensures names { AreNamed (plain_or_bad T.rank result) }
{
    words.end()?;
    let prop = read_term(prop)?;
    Some(Command::Ask(Query::Broken { prop }))
}

/// Reads the word behind `at`: a time.
#[tactic(auto, unfolding(ec_commands::specs::Commands::command_by, ec_commands::specs::Commands::name_value))]
fn read_at<'a, T: Moment>(at: &'a [u8], words: &mut Words<'a>) -> Option<Command<'a, T>>
    ensures command { plain_or_bad T.rank result ≡ command_by T.spelt Keyword.At (at.now ∷ words.old) }
    ensures names { AreNamed (plain_or_bad T.rank result) }
{
    words.end()?;
    let at = T::read(at)?;
    Some(Command::Ask(Query::At { at }))
}

/// Reads the words behind `why`: a property and a time.
#[tactic(auto, unfolding(ec_commands::specs::Commands::command_by, ec_commands::specs::Commands::name_value), using(std::proofs::lemmas::Grind::common_steps))]
fn read_why<'a, T: Moment>(prop: &'a [u8], words: &mut Words<'a>) -> Option<Command<'a, T>>
    ensures command { plain_or_bad T.rank result ≡ command_by T.spelt Keyword.Why (prop.now ∷ words.old) }
    ensures names { AreNamed (plain_or_bad T.rank result) }
{
    let at = T::read(words.last()?)?;
    let prop = read_term(prop)?;
    Some(Command::Ask(Query::Why { prop, at }))
}

/// Reads the words behind `pairs`: a property, a relation and a property.
#[tactic(auto, unfolding(ec_commands::specs::Commands::command_by, ec_commands::specs::Commands::name_value))]
fn read_pairs<'a, T: Moment>(left: &'a [u8], words: &mut Words<'a>) -> Option<Command<'a, T>>
    ensures command { plain_or_bad T.rank result ≡ command_by T.spelt Keyword.Pairs (left.now ∷ words.old) }
    ensures names { AreNamed (plain_or_bad T.rank result) }
{
    let relation = read_relation(words.next()?)?;
    let right = words.last()?;
    let left = read_term(left)?;
    let right = read_term(right)?;
    Some(Command::Pairs {
        left,
        relation,
        right,
    })
}

/// Reads the words behind `related`: a property, a time, a relation and a property.
#[tactic(auto, unfolding(ec_commands::specs::Commands::command_by, ec_commands::specs::Commands::name_value))]
fn read_related<'a, T: Moment>(left: &'a [u8], words: &mut Words<'a>) -> Option<Command<'a, T>>
    ensures command { plain_or_bad T.rank result ≡ command_by T.spelt Keyword.Related (left.now ∷ words.old) }
    ensures names { AreNamed (plain_or_bad T.rank result) }
{
    let at = T::read(words.next()?)?;
    let relation = read_relation(words.next()?)?;
    let right = words.last()?;
    let left = read_term(left)?;
    let right = read_term(right)?;
    Some(Command::Related {
        left,
        at,
        relation,
        right,
    })
}

/// The command of a keyword with no words behind it.
#[tactic(auto, unfolding(ec_commands::specs::Commands::command_by))]
fn bare_command<'a, T: Moment>(keyword: Keyword) -> Option<Command<'a, T>>
    ensures command { plain_or_bad T.rank result ≡ command_by T.spelt keyword [] }
    ensures names { AreNamed (plain_or_bad T.rank result) }
{
    match keyword {
        Keyword::Begin => Some(Command::Begin),
        Keyword::Commit => Some(Command::Commit),
        Keyword::Abort => Some(Command::Abort),
        Keyword::Clashes => Some(Command::Ask(Query::Clashes)),
        Keyword::Events => Some(Command::Ask(Query::Events)),
        Keyword::Last => Some(Command::Last),
        Keyword::Quit => Some(Command::Quit),
        _ => None,
    }
}

/// Reads the words behind a keyword, the first of which is `first`. The others are still to come.
#[tactic(auto, unfolding(ec_commands::specs::Commands::command_by))]
fn read_behind<'a, T: Moment>(
    keyword: Keyword,
    first: &'a [u8],
    words: &mut Words<'a>,
) -> Option<Command<'a, T>>
    ensures command { plain_or_bad T.rank result ≡ command_by T.spelt keyword (first.now ∷ words.old) }
    ensures names { AreNamed (plain_or_bad T.rank result) }
{
    match keyword {
        Keyword::Assert => read_assert(first, words),
        Keyword::Retract => read_retract(first, words),
        Keyword::Holds => read_holds(first, words),
        Keyword::Through => read_through(first, words),
        Keyword::Intervals => read_intervals(first, words),
        Keyword::Broken => read_broken(first, words),
        Keyword::At => read_at(first, words),
        Keyword::Why => read_why(first, words),
        Keyword::Pairs => read_pairs(first, words),
        Keyword::Related => read_related(first, words),
        _ => None,
    }
}

/// Reads the words behind a keyword.
#[tactic(auto, unfolding(ec_commands::specs::Commands::command_by))]
pub fn read_arguments<'a, T: Moment>(
    keyword: Keyword,
    words: &mut Words<'a>,
) -> Option<Command<'a, T>>
    ensures command { plain_or_bad T.rank result ≡ command_by T.spelt keyword words.old }
    ensures names { AreNamed (plain_or_bad T.rank result) }
{
    match words.next() {
        Some(first) => read_behind(keyword, first, words),
        None => bare_command(keyword),
    }
}
