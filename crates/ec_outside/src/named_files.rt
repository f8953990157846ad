ghost use Rattle.std.specs.Prelude.{◌≡◌, None, OnOk, OnErr};
ghost use Rattle.std.specs.Option.{option_copied};
ghost use Rattle.std.specs.FinMap as map;

use ec_lists::NoMemory;
use std::alloc::Global;
use std::marker::Model;

/// A file that a folder in memory holds.
#[derive(Drop)]
struct File {
    name: String,
    bytes: Vec<u8>,
}

/// Files in memory, found by their names.
#[derive(Drop)]
pub struct NamedFiles {
    alloc: Global,
    files: Vec<File>,
}

impl Model for NamedFiles {
    ghost use Rattle.std.specs.FinMap as map;
    ghost use Rattle.ec_outside.specs.Files.{Files};
    ghost use Rattle.ec_outside.specs.FolderState.{files_code};

    ghost Value = { Files };

    ghost coded = { files_code };

    ghost use Rattle.ec_outside.specs.Entries.{entries_of};

    ghost view = { λ f. map.from_entries (entries_of f.files.items) };
}

impl NamedFiles {
    /// No files.
    pub fn new(alloc: Global) -> NamedFiles
        ensures { result ≡ map.empty }
    {
        NamedFiles {
            alloc,
            files: Vec::new(alloc),
        }
    }

    /// The bytes of the file of that name.
    pub fn get(&self, name: &str) -> Option<&[u8]>
        ensures { option_copied result ≡ map.get self.now name.now }
    {
        for file in &self.files {
            if name == file.name.as_str() {
                return Some(file.bytes.as_slice());
            }
        }
        None
    }

    /// Adds a file under a name that is new.
    pub fn add(&mut self, name: &str, bytes: &[u8]) -> Result<(), NoMemory>
        requires { map.get self.old name.now ≡ None }
        ensures ok { OnOk result (self.new ≡ map.insert self.old name.now bytes.now) }
        ensures err { OnErr result (self.new ≡ self.old) }
    {
        let name = String::from_str(self.alloc, name)?;
        let bytes = Vec::from_slice(self.alloc, bytes)?;
        self.files.push(File { name, bytes })?;
        Ok(())
    }
}
