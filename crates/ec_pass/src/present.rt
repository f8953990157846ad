//! What a pass keeps.

use ec_exclusive::CurrentProps;
use ec_store::PropTable;
use ec_terms::PropId;
use std::alloc::Global;

/// What is current at an instant, by number, and what the active entries of the events there start and
/// end, as far as they were looked at.
#[derive(Drop)]
pub(crate) struct Present {
    pub(crate) props: PropTable,
    pub(crate) current: CurrentProps,
    pub(crate) started: Vec<PropId>,
    pub(crate) ended: Vec<PropId>,
    pub(crate) added: Vec<PropId>,
    pub(crate) alloc: Global,
}
