use ec_terms::Ground;

/// A property as a table keeps it.
#[derive(Drop)]
pub(crate) struct Property {
    pub(crate) term: Ground,
    pub(crate) mentions: u32,
}
