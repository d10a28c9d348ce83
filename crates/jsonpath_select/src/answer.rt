//! What a path selects (nodes, values, locations, first value; as text, typed); updates; documents read and printed.

pub(crate) mod count_first_exists;
pub(crate) mod document;
pub(crate) mod of_spots;
pub(crate) mod select;
pub(crate) mod targets;
pub(crate) mod text;
pub(crate) mod try_replace;
pub(crate) mod typed;
pub(crate) mod unread_number;
