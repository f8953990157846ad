//! What a line of an event file says.
ghost use Rattle.std.specs.Prelude.{◌≡◌, ℕ, List};
ghost use Rattle.ec_cert.specs.EventFile.{file_command, file_line_of};
ghost use Rattle.ec_cert.specs.ShownLine.{IsNamedLine, plain_line};
ghost use Rattle.ec_lines.specs.ShownCommand.{AreNamed, plain_command};
ghost use Rattle.ec_lines.specs.ShownLine.{ShowsLine};

use ec_lines::{Command, Line, read_command};
use ec_moment::Moment;
use ec_terms::{GroundRef, Name};

/// What a line of an event file says. The term is borrowed from the line.
#[derive(Drop)]
pub(crate) enum FileLine<'a, T> {
    /// The line has no word, or is a comment.
    Nothing,
    Event {
        id: Name,
        at: T,
        term: GroundRef<'a>,
    },
    /// The line has no place in an event file.
    Neither,
}

/// What a command without a prefix says in an event file.
fn line_of<T: Moment>(command: Command<'_, T>) -> FileLine<'_, T>
    requires names { AreNamed (plain_command T.rank command) }
    ensures line { plain_line T.rank result ≡ file_command (plain_command T.rank command.entry) }
    ensures names { IsNamedLine (plain_line T.rank result) }
{
    match command {
        Command::Silent => FileLine::Nothing,
        Command::Assert { id, at, event } => FileLine::Event {
            id,
            at,
            term: event,
        },
        Command::Bad
        | Command::Retract { id: _ }
        | Command::Begin
        | Command::Commit
        | Command::Abort
        | Command::Ask(_)
        | Command::Past { .. }
        | Command::Pairs { .. }
        | Command::Related { .. }
        | Command::Last
        | Command::Quit => FileLine::Neither,
    }
}

/// Reads what a line of an event file says. It takes no memory.
#[tactic(auto, unfolding(crate::specs::EventFile::file_line_of))]
pub(crate) fn read_line<T: Moment>(line: Line<'_>) -> FileLine<'_, T>
    ensures line { (bytes : List ℕ) → ShowsLine line.entry bytes → plain_line T.rank result ≡ file_line_of T.spelt bytes }
    ensures names { IsNamedLine (plain_line T.rank result) }
{
    let bytes = match line {
        Line::Text(bytes) => bytes,
        Line::Long => return FileLine::Neither,
    };
    let parsed = read_command(bytes);
    match parsed.session {
        None => line_of(parsed.command),
        Some(_) => FileLine::Neither,
    }
}
