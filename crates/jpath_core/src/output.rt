//! What is written for the matches of a document: lines, arrays, tables.

pub(crate) mod matches;
pub(crate) mod places;
pub(crate) mod table;
