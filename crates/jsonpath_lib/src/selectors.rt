//! `PathSelector`, which borrows a document and selects in it by one path text after another.

pub(crate) mod path_selector;
