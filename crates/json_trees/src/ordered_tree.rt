//! The exact tree of a text with its members in the order of their names, as a document.

pub(crate) mod handle;
pub(crate) mod in_order;
pub(crate) mod order;
mod places;
pub(crate) mod put_in_order;
mod sort_by_name;
pub(crate) mod tree;
pub(crate) mod way;
