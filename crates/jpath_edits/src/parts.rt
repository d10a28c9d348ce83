//! The parts of a document's text that an edit replaces: how they are found, checked and replaced.

pub(crate) mod check_parts;
pub(crate) mod check_taken_parts;
pub(crate) mod find_parts;
pub(crate) mod part;
pub(crate) mod part_texts;
pub(crate) mod positions;
pub(crate) mod splice;
