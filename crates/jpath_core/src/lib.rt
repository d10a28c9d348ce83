//! What `jpath` writes for paths: lines, tables, edits.
#![tactic(auto)]

mod edit;
mod exact_tree;
mod grow;
pub mod laws;
mod output;
mod printable_value;
mod selection;

pub use edit::{Edited, edit_text};
pub use exact_tree::exact_evaluator::{
    ExactOutcome, add_lines_by_exact_tree, may_answer_by_exact_tree,
};
pub use grow::{NewMember, add_member_text, append_text, rename_text};
pub use jpath_edits::{Change, PartReader};
pub use jpath_texts::{
    Document, DocumentRefusal, Ended, How, Kind, Layout, Line, LineColumn, LineEnd, Look, MARK,
    NumberKey, OrderedValue, Piece, Query, ReadFailure, Separated, Shown, Taken, Visitor,
    add_compact_value, add_header, add_line_end, add_value_in_look, read_exact_tree,
    visit_documents,
};
pub use output::matches::{add_array, add_lines_for_path, count_matches};
pub use output::places::add_escape;
pub use output::table::add_rows;
pub use selection::select_in_document;
