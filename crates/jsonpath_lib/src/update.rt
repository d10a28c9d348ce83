//! Updates of a document at what any of several paths selects.

pub(crate) mod masking;
pub(crate) mod removing_by_several_paths;
pub(crate) mod several_paths;
