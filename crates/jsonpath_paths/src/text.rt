//! The text of a path, read character by character.

pub(crate) mod str_reader;
