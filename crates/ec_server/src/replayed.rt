//! Serving the lines of a file.
ghost use Rattle.std.specs.Prelude.{◌≡◌, ◌≤◌, ◌⊎◌, IsTrue, length};
ghost use Rattle.ec_files.specs.Languages.{language_of};
ghost use Rattle.ec_server.specs.CommandEnds.{SaysBytes, SaysReplayed};
ghost use Rattle.ec_files.specs.ExitStatus.{hands_on};

use crate::file_source::FileSource;
use crate::served::{MOST_INPUT, serve};
use ec_check::Checked;
use ec_files::{MOST_REPLAYED, Status};
use ec_outside::{Folder, FolderAnswer, Sink};
use std::alloc::Global;

/// Serves the lines of bytes with a theory.
fn serve_bytes<K: Sink>(alloc: Global, checked: Checked, bytes: Vec<u8>, output: &mut K) -> Status
    requires { length bytes.items ≤ MOST_REPLAYED }
    ensures says { SaysBytes K.stands K.faults (language_of checked) output.old output.new bytes.items result }
    ensures handed_on { IsTrue (hands_on result) → K.waiting output.new ≡ 0 }
{
    let mut source = FileSource::new(bytes);
    serve(alloc, checked, &mut source, output, MOST_INPUT)
}

/// Serves the lines of a file with a theory.
#[tactic(auto, unfolding(ec_files::specs::ExitStatus::hands_on))]
pub(crate) fn replay_with<F: Folder, K: Sink>(
    alloc: Global,
    checked: Checked,
    lines: &str,
    files: &mut F,
    output: &mut K,
) -> Status
    ensures says { SaysReplayed K.stands K.faults (F.files files.old) lines.now (F.faults files.old) (F.faults files.new) output.old output.new checked result }
    ensures files_told { (result ≡ Status.FolderFault) ⊎ (F.faults files.new ≡ F.faults files.old) }
    ensures handed_on { IsTrue (hands_on result) → K.waiting output.new ≡ 0 }
{
    let mut bytes = Vec::new(alloc);
    match files.read_whole(lines, &mut bytes, MOST_REPLAYED) {
        Ok(()) => serve_bytes(alloc, checked, bytes, output),
        Err(FolderAnswer::Failed) => Status::FolderFault,
        Err(FolderAnswer::Memory) => Status::NoMemory,
        Err(FolderAnswer::Long) => Status::LongLines,
    }
}
