/// How many mentions of properties the present events make, and how many links between exclusive properties those make. Each
/// has a limit.
#[derive(Clone, Copy, Debug, PartialEq, Eq)]
pub struct Tally {
    pub mentions: u64,
    pub links: u64,
}
