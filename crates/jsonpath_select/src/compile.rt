//! Compiled paths, the methods of every one, token lists, and the visitor of a path that owns its text.

pub(crate) mod any_path;
pub(crate) mod compile_path;
pub(crate) mod node;
pub(crate) mod node_visitor;
pub(crate) mod parser;
pub(crate) mod token_list_fit;
