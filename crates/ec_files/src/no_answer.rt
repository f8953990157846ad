//! Why a claim has no answer.

use ec_cert::EventName;

/// Why a claim, or what is read for it, has no answer.
#[derive(Clone, Copy)]
pub(crate) enum NoAnswer {
    /// A file could not be read.
    FolderFault,
    /// Memory ran out.
    NoMemory,
    /// The event file or the certificate is too long.
    LongFile,
    /// This line of the event file is refused, and this is what for.
    BadEvents(u32, EventName),
}
