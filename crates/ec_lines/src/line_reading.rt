//! Reading a line.
ghost use Rattle.std.specs.Prelude.{◌≡◌, ◌<◌, ◌∷◌, bytes_eq, codes, nat_lt, IfSome, None};
ghost use Rattle.ec_commands.specs.Commands.{parsed_of, prefixed_line, command_of_words, past_of_words, past_query, plain_of_words, session_of_digits, digit_value_of};
ghost use Rattle.ec_lines.specs.ShownCommand.{plain_command, plain_or_bad, plain_parsed, AreNamed};

use crate::arguments::read_arguments;
use crate::command::{Command, Parsed};
use crate::count::read_count;
use crate::line_words::Words;
use ec_commands::{SESSIONS, read_keyword};
use ec_moment::Moment;

/// The value of a digit.
#[tactic(auto, unfolding(ec_commands::specs::Commands::digit_value_of))]
fn read_digit(byte: u8) -> Option<u8>
    ensures value { result ≡ digit_value_of byte }
    ensures small { IfSome result (λ digit. digit < 10) }
{
    if byte.is_ascii_digit() {
        Some(byte - b'0')
    } else {
        None
    }
}

/// Whether there is a session of this number.
fn is_session(number: u8) -> bool
    ensures { result ≡ nat_lt number SESSIONS }
{
    number < SESSIONS
}

/// The session that the digits behind an `@` name.
#[tactic(auto, unfolding(ec_commands::specs::Commands::session_of_digits, ec_commands::specs::Commands::session_within))]
fn read_session(digits: &[u8]) -> Option<u8>
    ensures value { result ≡ session_of_digits digits.now }
    ensures within { IfSome result (λ session. session < SESSIONS) }
{
    match digits {
        [digit] => read_digit(*digit),
        [tens, ones] => {
            let session = 10 * read_digit(*tens)? + read_digit(*ones)?;
            if is_session(session) {
                Some(session)
            } else {
                None
            }
        }
        _ => None,
    }
}

/// Reads the command that begins with `word`, which is not `asof`. Its other words are still to come.
#[tactic(auto, unfolding(ec_commands::specs::Commands::plain_of_words))]
fn read_plain<'a, T: Moment>(word: &[u8], words: &mut Words<'a>) -> Command<'a, T>
    ensures command { plain_command T.rank result ≡ plain_of_words T.spelt (word.now ∷ words.old) }
    ensures names { AreNamed (plain_command T.rank result) }
{
    match read_keyword(word) {
        Some(keyword) => read_arguments(keyword, words).unwrap_or(Command::Bad),
        None => Command::Bad,
    }
}

/// The question that a command asks about the list after so many accepted updates. `None`: it is no query of one list.
fn past_of<T: Moment>(count: u64, command: Command<'_, T>) -> Option<Command<'_, T>>
    requires named { AreNamed (plain_command T.rank command) }
    ensures command { plain_or_bad T.rank result ≡ past_query count (plain_command T.rank command.entry) }
    ensures names { AreNamed (plain_or_bad T.rank result) }
{
    match command {
        Command::Ask(query) => Some(Command::Past { count, query }),
        Command::Silent
        | Command::Bad
        | Command::Assert { .. }
        | Command::Retract { id: _ }
        | Command::Begin
        | Command::Commit
        | Command::Abort
        | Command::Past { .. }
        | Command::Pairs { .. }
        | Command::Related { .. }
        | Command::Last
        | Command::Quit => None,
    }
}

/// Reads the words behind `asof`: a number of accepted updates, and a query of one list. `None`: they are not these.
#[tactic(auto, unfolding(ec_commands::specs::Commands::past_of_words))]
fn read_past<'a, T: Moment>(words: &mut Words<'a>) -> Option<Command<'a, T>>
    ensures command { plain_or_bad T.rank result ≡ past_of_words T.spelt words.old }
    ensures names { AreNamed (plain_or_bad T.rank result) }
{
    let count = read_count(words.next()?)?;
    let word = words.next()?;
    past_of(count, read_plain(word, words))
}

/// Whether the word stands before a query of the past.
fn is_asof(word: &[u8]) -> bool
    ensures { result ≡ bytes_eq (codes "asof") word.now }
{
    let asof: &[u8] = b"asof";
    asof == word
}

/// Reads the command that begins with `word`. Its other words are still to come.
#[tactic(auto, unfolding(ec_commands::specs::Commands::command_of_words))]
fn read_from<'a, T: Moment>(word: &[u8], words: &mut Words<'a>) -> Command<'a, T>
    ensures command { plain_command T.rank result ≡ command_of_words T.spelt (word.now ∷ words.old) }
    ensures names { AreNamed (plain_command T.rank result) }
{
    if is_asof(word) {
        read_past(words).unwrap_or(Command::Bad)
    } else {
        read_plain(word, words)
    }
}

/// Reads the command whose words are still to come.
#[tactic(auto, unfolding(ec_commands::specs::Commands::command_of_words))]
fn read_words<'a, T: Moment>(words: &mut Words<'a>) -> Command<'a, T>
    ensures command { plain_command T.rank result ≡ command_of_words T.spelt words.old }
    ensures names { AreNamed (plain_command T.rank result) }
{
    match words.next() {
        Some(word) => read_from(word, words),
        None => Command::Bad,
    }
}

/// A line that has no prefix, or none that is well formed.
fn without_session<T>(command: Command<'_, T>) -> Parsed<'_, T>
    ensures session { result.session ≡ None }
    ensures command { result.command ≡ command.entry }
{
    Parsed {
        session: None,
        command,
    }
}

/// Reads a line whose first word is `@` and `digits`. Its other words are still to come.
#[tactic(auto, unfolding(ec_commands::specs::Commands::prefixed_line))]
fn read_prefixed<'a, T: Moment>(digits: &[u8], words: &mut Words<'a>) -> Parsed<'a, T>
    ensures line { plain_parsed T.rank result ≡ prefixed_line T.spelt (session_of_digits digits.now) words.old }
    ensures names { AreNamed (plain_command T.rank result.command) }
    ensures session { IfSome result.session (λ session. session < SESSIONS) }
{
    match read_session(digits) {
        Some(session) => Parsed {
            session: Some(session),
            command: read_words(words),
        },
        None => without_session(Command::Bad),
    }
}

/// Reads what a line says that is not long: its session, if it has a prefix, and its command. A line
/// of no form is `Bad`; its session is told where its prefix is well formed. Times are read as
/// moments of `T`. It takes no memory.
#[tactic(auto, unfolding(ec_commands::specs::Commands::parsed_of, ec_commands::specs::Commands::parsed_words))]
pub fn read_command<'a, T: Moment>(line: &'a [u8]) -> Parsed<'a, T>
    ensures line { plain_parsed T.rank result ≡ parsed_of T.spelt line.now }
    ensures names { AreNamed (plain_command T.rank result.command) }
    ensures session { IfSome result.session (λ session. session < SESSIONS) }
{
    let mut words = Words::new(line);
    match words.next() {
        None | Some([b'%', ..]) => without_session(Command::Silent),
        Some([b'@', digits @ ..]) => read_prefixed(digits, &mut words),
        Some(word) => without_session(read_from(word, &mut words)),
    }
}
