//! Functions from a path text to an answer or a changed document, in one call; those for several texts are in `update`.

pub(crate) mod selecting;
pub(crate) mod updates;
