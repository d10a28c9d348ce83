//! Updates of a document at locations.

pub(crate) mod at_once;
pub(crate) mod each;
pub(crate) mod fallible;
pub(crate) mod locations;
pub(crate) mod single;
