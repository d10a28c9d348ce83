//! Documents of a stream, one after another.

pub(crate) mod piece;
pub(crate) mod visit_documents;
