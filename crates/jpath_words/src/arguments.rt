//! Arguments of the command line (`--arg`, `--argjson`) and the path texts into which they are put.

pub mod argument;
pub mod filled_path;
pub mod filled_words;
pub mod quoted;
