//! The file of a theory.
ghost use Rattle.std.specs.Prelude.{◌≡◌, ◌≤◌, ◌⊎◌, length, IfOk, IfErr, IsErrOf, IsSome};
ghost use Rattle.ec_theory.specs.Accepted.{IsAccepted};
ghost use Rattle.ec_files.specs.TheoryFiles.{HasTheory};
ghost use Rattle.ec_files.specs.Loading.{IsBytesReason, IsReason};

use crate::theory_text::{fault_text, said};
use ec_check::Checked;
use ec_lines::ReplyText;
use ec_outside::{Folder, FolderAnswer};
use ec_theory::{MOST_BYTES, accept};
use std::alloc::Global;

/// Why there is no theory.
#[derive(Drop)]
pub enum NoTheory {
    /// The file could not be read.
    FolderFault,
    /// Memory ran out.
    NoMemory,
    /// The file is no theory, and this is said of it.
    Said(ReplyText),
}

/// Reads the theory that the bytes of a file spell.
fn read_bytes(alloc: Global, bytes: &[u8]) -> Result<Checked, NoTheory>
    requires { length bytes.now ≤ MOST_BYTES }
    ensures theory { IfOk result (λ theory. IsAccepted bytes.now theory) }
    ensures reason { IfErr result (λ reason. IsBytesReason bytes.now reason) }
{
    match accept(alloc, bytes) {
        Ok(checked) => Ok(checked),
        Err(refused) => match fault_text(refused) {
            Some(text) => Err(NoTheory::Said(text)),
            None => Err(NoTheory::NoMemory),
        },
    }
}

/// Reads the file of a theory, and the theory in it.
pub fn load<F: Folder>(alloc: Global, name: &str, files: &mut F) -> Result<Checked, NoTheory>
    ensures theory { IfOk result (λ theory. IsSome (F.files files.old) → HasTheory (F.files files.old) name.now theory) }
    ensures reason { IfErr result (λ reason. IsReason (F.files files.old) name.now (F.faults files.old) (F.faults files.new) reason) }
    ensures unchanged { F.files files.new ≡ F.files files.old }
    ensures quiet { IsErrOf result NoTheory.FolderFault ⊎ (F.faults files.new ≡ F.faults files.old) }
    ensures counted { F.faults files.old ≤ F.faults files.new }
{
    let mut bytes = Vec::new(alloc);
    match files.read_whole(name, &mut bytes, MOST_BYTES) {
        Ok(()) => read_bytes(alloc, &bytes),
        Err(FolderAnswer::Failed) => Err(NoTheory::FolderFault),
        Err(FolderAnswer::Memory) => Err(NoTheory::NoMemory),
        Err(FolderAnswer::Long) => Err(NoTheory::Said(said(b"too-long"))),
    }
}
