ghost use Rattle.std.specs.Prelude.{◌≡◌, ℕ, ◌<◌, ◌≤◌, ◌⊎◌, [], length, Option, IsSome, OnOk, IsErrOf};
ghost use Rattle.ec_outside.specs.Counts.{Rose, last_count};
ghost use Rattle.ec_outside.specs.Files.{Files, HasFile, IsMissing, IsTooLong};

/// Why a file was not read.
#[derive(Clone, Copy, PartialEq, Eq)]
pub enum FolderAnswer {
    /// The folder failed, or there is no file of that name.
    Failed,
    /// The file is longer than was asked for.
    Long,
    /// There was no memory for the bytes.
    Memory,
}

/// Where files are read from, each whole and by its name.
pub trait Folder {
    // The files, where the folder tells them. No call changes them.
    ghost files: { Self → Option Files };

    // How many calls have failed so far. A call for a file that is known to be missing is not counted.
    ghost faults: { Self → ℕ };

    /// Reads the file `name` into the empty `into`, if it has no more than `most` bytes. After a
    /// refusal `into` is of no further use. Any call may answer that memory ran out.
    fn read_whole(
        &mut self,
        name: &str,
        into: &mut Vec<u8>,
        most: usize,
    ) -> Result<(), FolderAnswer>
        requires { into.old.items ≡ [] }

        // Which bytes were read.
        ensures within { OnOk result (length into.new.items ≤ most) }
        ensures exact { OnOk result (IsSome (files self.old) → HasFile (files self.old) name.now into.new.items) }

        // When there are none.
        ensures failed { IsErrOf result FolderAnswer.Failed →
            Rose (faults self.old) (faults self.new) ⊎ IsMissing (files self.old) name.now }
        ensures quiet { IsErrOf result FolderAnswer.Failed ⊎ (faults self.new ≡ faults self.old) }
        ensures missing { IsMissing (files self.old) name.now → faults self.new ≡ faults self.old }
        ensures long { IsErrOf result FolderAnswer.Long → IsSome (files self.old) →
            IsTooLong (files self.old) name.now most }
        ensures long_without_fault { IsErrOf result FolderAnswer.Long → IsSome (files self.old) →
            ¬ Rose (faults self.old) (faults self.new) }
        ensures too_long { IsTooLong (files self.old) name.now most → ¬ Rose (faults self.old) (faults self.new) →
            IsErrOf result FolderAnswer.Long ⊎ IsErrOf result FolderAnswer.Memory }

        ensures unchanged { files self.new ≡ files self.old }
        ensures counted { faults self.old ≤ faults self.new }
        ensures bounded { faults self.old ≤ last_count → faults self.new ≤ last_count };
}
