//! JSON texts as `jpath` reads and writes them: the documents of a stream, compiled paths, and how values are written.
#![tactic(auto)]

mod output;
mod query;
mod stream;

pub use json_recognizer::{Kind, LineColumn, MARK, ReadFailure};
pub use json_trees::{
    Document, DocumentRefusal, MemberValue, NumberKey, OrderedValue, Way, has_minus,
    read_exact_tree,
};
pub use output::array_items::{add_array_end, add_array_item};
pub use output::csv_and_tsv::{Separated, add_header, add_row};
pub use output::entry_lines::{add_entry_lines, add_length_line};
pub use output::look::{Layout, Look};
pub use output::match_line::{
    Line, LineEnd, Shown, add_file_name, add_line_end, add_line_start, add_record_start,
};
pub use output::value_text::{add_compact_value, add_value_in_look};
pub use query::Query;
pub use stream::piece::Piece;
pub use stream::visit_documents::{Ended, How, Taken, Visitor, visit_documents};
