//! Updates at all of a list of locations at once.

pub(crate) mod set;
pub(crate) mod take;
