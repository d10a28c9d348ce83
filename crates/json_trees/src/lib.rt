//! The tree of a JSON text, on which paths are run: numbers as they are written, the members of each object in the order
//! of their names.
#![tactic(auto)]

mod document;
mod exact_tree;
pub mod laws;
mod numbers;
mod ordered_tree;
mod printing;
mod refusal;
mod targets;
mod text_value;

pub use document::Document;
pub use exact_tree::read_exact_tree;
pub use numbers::number_key::NumberKey;
pub use numbers::written_number::has_minus;
pub use ordered_tree::handle::{MemberValue, OrderedValue};
pub use ordered_tree::in_order::{copy_in_order, is_tree_ordered};
pub use ordered_tree::way::Way;
pub use printing::{Replacement, Unprinted, changed_text, compact_list_text, compact_text};
pub use refusal::DocumentRefusal;
pub use targets::{StepList, are_in_order};
pub use text_value::TextValue;
