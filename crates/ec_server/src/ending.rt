//! How the serving of an input can end.
ghost use Rattle.std.specs.Prelude.{◌≡◌};
ghost use Rattle.ec_server.specs.Ending.{status_of};

use ec_files::Status;

/// Where the serving of an input ended.
#[derive(Clone, Copy, Debug, PartialEq, Eq)]
pub enum Ending {
    /// At the end of the input.
    End,
    /// At a `quit`.
    Quit,
    /// As many bytes were taken as the limit allows, with neither end nor `quit` met.
    Limit,
    /// A read failed.
    ReadFault,
    /// A write or a flush failed.
    WriteFault,
}

impl Ending {
    /// The status of a run whose serving ended so.
    #[tactic(auto, unfolding(crate::specs::Ending::status_of))]
    pub fn status(self) -> Status
        ensures { result ≡ status_of self }
    {
        match self {
            Ending::End | Ending::Quit => Status::Done,
            Ending::Limit => Status::LimitReached,
            Ending::ReadFault => Status::ReadFault,
            Ending::WriteFault => Status::WriteFault,
        }
    }
}
