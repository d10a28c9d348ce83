//! A recognizer of JSON that takes the bytes as they are read: whether a document continues, where it ends, or which
//! byte is the first with which no document can continue, and what was expected in place of that byte.
#![tactic(auto)]

mod buffer;
mod class;
mod laws;
mod machine;
mod search;
mod state;
mod steps;
mod stream;
mod table;
mod text;
mod wanted;

pub use buffer::lines::{count_blanks, place_after};
pub use buffer::piece::{Kind, LineColumn};
pub use buffer::reading::ReadFailure;
pub use buffer::stream_buffer::{MARK, StreamBuffer};
pub use laws::{accepts_documents, found_by_grammar};
pub use state::{State, start};
pub use stream::{Found, find_end, first_document_len, is_final};
pub use wanted::{Wanted, wanted_at};
