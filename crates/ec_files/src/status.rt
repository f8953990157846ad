//! How a run of the program ends.
ghost use Rattle.std.specs.Prelude.{◌≡◌};
ghost use Rattle.ec_files.specs.ExitStatus.{code_of};

/// How a run of the program ended.
#[derive(Clone, Copy, Debug, PartialEq, Eq)]
pub enum Status {
    /// The lines were answered to their end or to `quit`, or the theory was accepted.
    Done,
    /// The words ask for nothing that there is, or name a time that is none of the theory.
    NoShape,
    /// The theory is not accepted.
    BadTheory,
    /// The input failed.
    ReadFault,
    /// The output failed.
    WriteFault,
    /// Memory ran out before anything was written.
    NoMemory,
    /// A file could not be read.
    FolderFault,
    /// As many bytes of input were taken as may be, with neither end nor `quit` met.
    LimitReached,
    /// A file of lines or a certificate is too long.
    LongLines,
    /// The event file is refused.
    BadEvents,
}

impl Status {
    /// The exit status of the program.
    #[tactic(auto, unfolding(crate::specs::ExitStatus::code_of))]
    pub fn code(self) -> u8
        ensures { result ≡ code_of self }
    {
        match self {
            Status::Done => 0,
            Status::NoShape => 2,
            Status::BadTheory => 3,
            Status::ReadFault => 4,
            Status::WriteFault => 5,
            Status::NoMemory => 6,
            Status::FolderFault => 7,
            Status::LimitReached => 8,
            Status::LongLines => 9,
            Status::BadEvents => 10,
        }
    }
}
