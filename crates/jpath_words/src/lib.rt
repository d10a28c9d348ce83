//! The command line of `jpath`: its options, the task that they ask for, and the messages about a path with a syntax
//! error, or one that mixes `&&` and `||`.
#![tactic(auto)]

mod arguments;
mod command_line;
mod completions;
mod hints;
mod plain_path;
mod refused_path;
mod task;
mod word_faults;

pub use arguments::filled_words::{FilledPaths, fill_paths, words_with_paths};
pub use command_line::{EditWords, Flags, ParseOutcome, Words, parse_words};
pub use plain_path::NamedMember;
pub use task::{Edit, Refused, Table, Task, Wanted, wanted_of_words, wants_color};
