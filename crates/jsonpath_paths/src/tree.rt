//! The syntax tree of a path, and its token list.

pub(crate) mod clone;
pub(crate) mod items;
pub(crate) mod parser_node;
pub(crate) mod parser_node_visitor;
pub(crate) mod parser_token_handler;
pub(crate) mod token_list;
