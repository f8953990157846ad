//! What a certificate comes to.

/// What a certificate for a property and a time comes to.
#[derive(Clone, Copy)]
pub enum Verdict {
    /// It is the label, and the property holds.
    Yes,
    /// It is the label, and the property does not hold.
    No,
    /// It is not the label: the line, from 1, at which it leaves it.
    Bad(u32),
}
