//! The lower layers of the library, for code that builds on them: characters, tokens, token lists, syntax trees and
//! visitors of path texts; steps, comparisons and single updates of documents; readers and writers.

pub use jsonpath_nodes::{
    Atom, Cmp, CmpEq, CmpGe, CmpGt, CmpLe, CmpLt, CmpNe, Handle, Tree, TreeNode, ValueWalker,
    abs_index, compute_paths, holds, holds_atoms, take_at_once, to_num, update_at,
};
pub use jsonpath_paths::{
    Condition, FilterToken, Inner, Items, ParseToken, ParserNode, ParserNodeVisitor, ParserStep,
    ParserTokenHandler, ReaderError, StrRange, StrReader, Term, Token, TokenReader, Tokenizer,
};
pub use jsonpath_select::{NodeVisitor, select_tokens, tokens_fit};
pub use jsonpath_streams::{Checked, Input, IoFailed, Output};
