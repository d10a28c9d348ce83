//! Compiled paths, checks of token lists, what a path selects in a document, updates of what it selects, selectors and
//! update types, which store a path and a value, and JSON texts and errors, read and printed.
#![tactic(auto)]

mod answer;
mod comparison;
mod compile;
mod error;
mod filters;
pub mod laws;
mod machine;
mod selectors;
mod step;
mod tagged;
mod walk;

pub use answer::count_first_exists::{exists_in_tree, first_in_tree};
pub use answer::document::{document_to_text, read_document};
pub use answer::select::{
    select_in_tree, select_node_set_in_tree, select_nodes_in_tree, select_path,
    select_path_in_any_order, select_tokens,
};
pub use answer::text::list_to_text;
pub use answer::try_replace::TryFault;
pub use answer::typed::list_to_typed;
pub use answer::unread_number::unread_number_error;
pub use compile::any_path::{AnyPath, PathParts};
pub use compile::compile_path::compile_path;
pub use compile::node::Node;
pub use compile::node_visitor::NodeVisitor;
pub use compile::parser::{ParseFault, Parser};
pub use compile::token_list_fit::tokens_fit;
pub use error::{JsonPathError, error_of_parse_fault, path_error, serde_error};
pub use selectors::held_pair::{HeldPair, HeldValue};
pub use selectors::json_selector::{JsonSelector, JsonSelectorMut};
pub use selectors::selector::{Selector, SelectorMut};
pub use selectors::walked_path::{OfNode, WalkedPath};
pub use step::names::borrowed_name_at;
