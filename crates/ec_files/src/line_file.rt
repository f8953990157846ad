//! Files of lines, read whole.
ghost use Rattle.std.specs.Prelude.{◌≡◌, ◌≤◌, ◌⊎◌, IfOk, IfErr, IsErrOf, IsSome, length};
ghost use Rattle.ec_files.specs.LineFiles.{HasLines};
ghost use Rattle.ec_files.specs.Answering.{IsUnread};

use crate::no_answer::NoAnswer;
use ec_outside::{Folder, FolderAnswer};
use std::alloc::Global;

/// The most bytes that a file of lines has, and a certificate.
pub const MOST_REPLAYED: usize = 67_108_864;

/// Reads the file of that name whole.
pub(crate) fn read_lines<F: Folder>(
    alloc: Global,
    name: &str,
    files: &mut F,
) -> Result<Vec<u8>, NoAnswer>
    ensures within { IfOk result (λ bytes. length bytes.items ≤ MOST_REPLAYED) }
    ensures bytes { IfOk result (λ bytes. IsSome (F.files files.old) → HasLines (F.files files.old) name.now bytes.items) }
    ensures reason { IfErr result (IsUnread (F.files files.old) name.now (F.faults files.old) (F.faults files.new)) }
    ensures unchanged { F.files files.new ≡ F.files files.old }
    ensures quiet { IsErrOf result NoAnswer.FolderFault ⊎ (F.faults files.new ≡ F.faults files.old) }
    ensures counted { F.faults files.old ≤ F.faults files.new }
{
    let mut bytes = Vec::new(alloc);
    match files.read_whole(name, &mut bytes, MOST_REPLAYED) {
        Ok(()) => Ok(bytes),
        Err(FolderAnswer::Failed) => Err(NoAnswer::FolderFault),
        Err(FolderAnswer::Memory) => Err(NoAnswer::NoMemory),
        Err(FolderAnswer::Long) => Err(NoAnswer::LongFile),
    }
}
