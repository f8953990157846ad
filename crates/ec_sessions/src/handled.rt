//! How the handling of a line can end.

/// How a line was handled.
#[derive(Clone, Copy, Debug, PartialEq, Eq)]
pub enum Handled {
    /// Its reply was written whole, or it has none; the next line may come.
    Go,
    /// It was `quit`, and its reply was written whole.
    Bye,
    /// The sink failed, with a first part of the reply written. What the line changed stands.
    WriteFault,
}
