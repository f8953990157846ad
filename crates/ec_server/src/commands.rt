//! What the shapes of the words do that serve lines of the outside.
ghost use Rattle.std.specs.Prelude.{◌≡◌, ◌≤◌, ◌⊎◌, IsTrue};
ghost use Rattle.ec_outside.specs.Counts.{Rose};
ghost use Rattle.ec_outside.specs.Streams.{NothingAppended};
ghost use Rattle.ec_files.specs.ExitStatus.{hands_on};
ghost use Rattle.ec_server.specs.CommandEnds.{HasReplayed, HasServed};

use crate::replayed::replay_with;
use crate::served::{MOST_INPUT, serve};
use ec_files::{Status, load, refuse};
use ec_outside::{Folder, Sink, Source};
use std::alloc::Global;

/// Serves an input with the theory in a file.
///
/// The status is that of `serve`, with at most `MOST_INPUT` bytes taken; or `BadTheory`, `FolderFault` or `NoMemory`, and then no
/// input was taken. A fault in writing the line about a theory that is not accepted changes nothing.
pub fn serve_command<F: Folder, S: Source, K: Sink>(
    alloc: Global,
    theory: &str,
    files: &mut F,
    input: &mut S,
    output: &mut K,
) -> Status
    ensures served { HasServed S.left S.faults K.stands K.faults (F.files files.old) theory.now (F.faults files.old) (F.faults files.new)
        input.old input.new output.old output.new result }
    ensures handed_on { IsTrue (hands_on result) → K.waiting output.new ≡ 0 }
    ensures read_first { result ≡ Status.WriteFault →
        Rose (S.reads input.old) (S.reads input.new) ⊎ NothingAppended K.stands output.old output.new }
    ensures one_end { S.ended input.old ≡ 0 → S.ended input.new ≤ 1 }
{
    match load(alloc, theory, files) {
        Ok(checked) => serve(alloc, checked, input, output, MOST_INPUT),
        Err(reason) => refuse(reason, output),
    }
}

/// Serves the lines of a file with the theory in another.
///
/// The status is `Done` if the lines are answered to their end or to `quit`, `WriteFault` if the output failed; `LongLines` if the
/// file of lines has more than `MOST_REPLAYED` bytes; `BadTheory` as for `check_command`; `FolderFault` if one of the files could not
/// be read, and `NoMemory`. With the last two and with `LongLines` nothing was written. The file of lines is read only if the
/// theory is accepted.
pub fn replay<F: Folder, K: Sink>(
    alloc: Global,
    theory: &str,
    lines: &str,
    files: &mut F,
    output: &mut K,
) -> Status
    ensures replayed { HasReplayed K.stands K.faults (F.files files.old) theory.now lines.now (F.faults files.old) (F.faults files.new) output.old output.new result }
    ensures handed_on { IsTrue (hands_on result) → K.waiting output.new ≡ 0 }
{
    match load(alloc, theory, files) {
        Ok(checked) => replay_with(alloc, checked, lines, files, output),
        Err(reason) => refuse(reason, output),
    }
}
