//! The tokens of a path text, and those of a tree's token list.

pub(crate) mod token_reader;
pub(crate) mod tokenizer;
pub(crate) mod tokens;
