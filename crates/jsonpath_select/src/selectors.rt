//! Selectors and update types: names of one pair, of a path and a value.

pub(crate) mod chained_updates;
pub(crate) mod held_pair;
pub(crate) mod json_selector;
pub(crate) mod lent_value;
pub(crate) mod owned_value;
pub(crate) mod selector;
pub(crate) mod updates_in_place;
pub(crate) mod walked_path;
