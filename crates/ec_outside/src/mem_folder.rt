ghost use Rattle.std.specs.Prelude.{◌≡◌, ◌<◌, ◌≤◌, ◌↔◌, ◌⊎◌, None, Some, [], length, if◌then◌else◌, IsTrue, IsSome, IfOk, OnOk, OnErr, IsErrOf};
ghost use Rattle.std.specs.FinMap as map;
ghost use Rattle.ec_outside.specs.Calls.{no_calls, next_fails, one_more};
ghost use Rattle.ec_outside.specs.Counts.{Rose, last_count, next_count};
ghost use Rattle.ec_outside.specs.Files.{HasFile, IsMissing, IsTooLong};
ghost use Rattle.ec_outside.specs.FolderState.{read_fails, is_fault};

use crate::counted_calls::CountedCalls;
use crate::folder::{Folder, FolderAnswer};
use crate::named_files::NamedFiles;
use ec_lists::NoMemory;
use std::alloc::Global;
use std::marker::Model;

/// A folder that holds its files in memory, and fails at the calls that it was told to fail at,
/// numbered from 1.
#[derive(Drop)]
pub struct MemFolder {
    files: NamedFiles,
    reads: CountedCalls,
}

impl Model for MemFolder {
    ghost use Rattle.ec_outside.specs.FolderState.{FolderState, folder_code};

    ghost Value = { FolderState };

    ghost coded = { folder_code };

    ghost view = { λ f. record { files = f.files; reads = f.reads.calls; faults = f.reads.faults } };
}

impl MemFolder {
    /// A folder with no files.
    pub fn new(alloc: Global, failing: &[u64]) -> Result<MemFolder, NoMemory>
        ensures files { IfOk result (λ folder. folder.files ≡ map.empty) }
        ensures reads { IfOk result (λ folder. folder.reads ≡ no_calls failing.now) }
        ensures faults { IfOk result (λ folder. folder.faults ≡ 0) }
    {
        Ok(MemFolder {
            files: NamedFiles::new(alloc),
            reads: CountedCalls::new(alloc, failing)?,
        })
    }

    /// Adds a file under a name that the folder does not have.
    pub fn add(&mut self, name: &str, bytes: &[u8]) -> Result<(), NoMemory>
        requires { map.get self.old.files name.now ≡ None }
        ensures ok { OnOk result (self.new ≡ record self.old { files = map.insert self.old.files name.now bytes.now }) }
        ensures err { OnErr result (self.new ≡ self.old) }
    {
        self.files.add(name, bytes)
    }
}

impl Folder for MemFolder {
    ghost files = { λ f. Some f.files };

    ghost faults = { λ f. f.faults };

    fn read_whole(
        &mut self,
        name: &str,
        into: &mut Vec<u8>,
        most: usize,
    ) -> Result<(), FolderAnswer>
        requires { into.old.items ≡ [] }

        // As for every folder.
        ensures within { OnOk result (length into.new.items ≤ most) }
        ensures exact { OnOk result (IsSome (Some self.old.files) → HasFile (Some self.old.files) name.now into.new.items) }
        ensures failed { IsErrOf result FolderAnswer.Failed →
            Rose self.old.faults self.new.faults ⊎ IsMissing (Some self.old.files) name.now }
        ensures quiet { IsErrOf result FolderAnswer.Failed ⊎ (self.new.faults ≡ self.old.faults) }
        ensures missing { IsMissing (Some self.old.files) name.now → self.new.faults ≡ self.old.faults }
        ensures long { IsErrOf result FolderAnswer.Long → IsSome (Some self.old.files) →
            IsTooLong (Some self.old.files) name.now most }
        ensures long_without_fault { IsErrOf result FolderAnswer.Long → IsSome (Some self.old.files) →
            ¬ Rose self.old.faults self.new.faults }
        ensures too_long { IsTooLong (Some self.old.files) name.now most → ¬ Rose self.old.faults self.new.faults →
            IsErrOf result FolderAnswer.Long ⊎ IsErrOf result FolderAnswer.Memory }
        ensures unchanged { Some self.new.files ≡ Some self.old.files }
        ensures counted { self.old.faults ≤ self.new.faults }
        ensures bounded { self.new.faults ≤ last_count }

        // Exactly which calls fail, and which are counted.
        ensures fails { IsErrOf result FolderAnswer.Failed ↔ IsTrue (read_fails self.old name.now) }
        ensures reads { self.new.reads ≡ one_more self.old.reads }
        ensures faults { self.new.faults ≡ (if is_fault self.old name.now then next_count self.old.faults else self.old.faults) }
    {
        let file = self.files.get(name);
        let fails = self.reads.next_fails(file.is_some());
        match file {
            None => Err(FolderAnswer::Failed),
            Some(_) if fails => Err(FolderAnswer::Failed),
            Some(bytes) if bytes.len() > most => Err(FolderAnswer::Long),
            Some(bytes) => match into.extend_from_slice(bytes) {
                Ok(()) => Ok(()),
                Err(_) => Err(FolderAnswer::Memory),
            },
        }
    }
}
