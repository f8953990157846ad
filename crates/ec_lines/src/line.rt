/// A line without its line end: its bytes, or that it has too many of them.
#[derive(Clone, Copy)]
pub enum Line<'a> {
    /// The bytes of a line, at most `LONGEST_LINE` of them.
    Text(&'a [u8]),
    /// A line with more bytes than that, which nobody has looked at.
    Long,
}
