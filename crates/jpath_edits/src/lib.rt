//! Edits of a document's text: the values at some locations, the parts of the text that are replaced there, and what
//! the edited text is, read again.
#![tactic(auto)]

mod change;
mod changed_value;
mod check_edited_text;
mod growth;
mod parts;
mod same_exact_tree;
mod target_locations;

pub use change::{Change, changed_text};
pub use check_edited_text::are_bytes_of_changed_document;
pub use growth::{Grown, Growth, grown_text};
pub use parts::part_texts::PartReader;
pub use target_locations::locations_below_root;
