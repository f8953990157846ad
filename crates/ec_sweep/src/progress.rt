/// How far a sweep has come in the lists of a change: how many of the removed events, and how many of the added ones, stand
/// at an instant that was visited.
#[derive(Clone, Copy, Debug, PartialEq, Eq)]
pub struct Progress {
    pub removed: usize,
    pub added: usize,
}
