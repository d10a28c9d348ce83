//! `Parser`, which compiles a path text to a `Node` that owns it, and its error `ParseFault`, which has a row of `^`.
ghost use Rattle.std.specs.Prelude.{◌≡◌, ◌<◌, ◌^◌, ◌++◌, List, ℕ, Some, None, codes, decimal, string_bytes, IfOk, IfErr};
ghost use Rattle.jsonpath_paths.specs.Spelling.{IsInGrammar};
ghost use Rattle.jsonpath_select.specs.compile.Faults.{caret_text, parse_fault_text, IsEndOfRow, IsFaultOf, IsParseRefused};

use crate::compile::node::Node;
use jsonpath_paths::{PathParser, TokenError};
use std::alloc::{AllocError, Global};
use std::error::Error;
use std::fmt;

/// The error of compiling a path text by `Parser`. `Display` and `Debug` print the same text.
///
/// ```text
/// let refused = match Parser::compile(alloc, "$[a]") {
///     Ok(_) => return Err(Fail::new("it is a path")),
///     Err(refused) => refused,
/// };
/// assert!(rt; refused.to_string(alloc)?.as_str() == "$[a]\n^^^");
/// ```
#[derive(Drop)]
pub enum ParseFault {
    /// An error: the text to be compiled is no path. The message is the text, a line end and a `^` for each byte of the
    /// text up to the end of the wrong token, or for each of its bytes if the text ends too early.
    Text(String),
    /// An error of compiling a path text: memory ran out. It is printed as `out of memory`.
    OutOfMemory,
}

impl ParseFault {
    /// The byte position of the syntax error: just after the wrong token or character, or the text's length if the text
    /// ends too early. The message's row of `^` has this length. `None` for `OutOfMemory`.
    ///
    /// ```text
    /// match Parser::compile(alloc, "$.a[b]") {
    ///     Ok(_) => assert!(rt; false),
    ///     Err(refused) => assert!(rt; refused.position() == Some(5)),
    /// }
    /// ```
    pub fn position(&self) -> Option<usize>
        ensures { IsEndOfRow self.now result }
    {
        match self {
            ParseFault::Text(message) => caret_row_length(message.as_str()),
            ParseFault::OutOfMemory => None,
        }
    }
}

impl fmt::Display for ParseFault {
    ghost output = { λ fault. Some (parse_fault_text fault) };

    fn fmt<W: fmt::Write>(&self, f: &mut fmt::Formatter<W>) -> fmt::Result {
        match self {
            ParseFault::Text(message) => f.write_str(message.as_str()),
            ParseFault::OutOfMemory => f.write_str("out of memory"),
        }
    }
}

impl fmt::Debug for ParseFault {
    ghost debug_output = { λ fault. Some (parse_fault_text fault) };

    fn fmt<W: fmt::Write>(&self, f: &mut fmt::Formatter<W>) -> fmt::Result {
        write!(f, "{self}")
    }
}

impl Error for ParseFault {}

/// Compiles path texts into paths that own a copy of their text.
///
/// ```text
/// let node = Parser::compile(alloc, "$.a")?;
/// assert!(rt; node.text() == "$.a");
/// assert!(rt; Parser::compile(alloc, "$.").is_err());
/// ```
pub struct Parser;

impl Parser {
    /// Compiles a copy of a path text. Errors: `Text` exactly if it is outside the grammar, or `OutOfMemory`.
    ///
    /// ```text
    /// let node = Parser::compile(alloc, "$[0]")?;
    /// assert!(rt; node.text() == "$[0]");
    /// ```
    pub fn compile(alloc: Global, text: &str) -> Result<Node, ParseFault>
        ensures text { IfOk result (λ node. node ≡ text.now) }
        ensures spelled { IfOk result (λ _. IsInGrammar text.now) }
        ensures refused { IfErr result (IsParseRefused text.now) }
    {
        let path = match PathParser::compile(alloc, text) {
            Ok(path) => path,
            Err(error) => return Err(fault_of_token_error(alloc, text, error)),
        };
        let (tree, tokens) = path.into_tree_and_tokens();
        match String::from_str(alloc, text) {
            Ok(text) => Ok(Node::new(text, tree, tokens)),
            Err(AllocError) => Err(ParseFault::OutOfMemory),
        }
    }
}

// The refusal of this path text for a token error: the text with a row of `^` that ends at the error, or `OutOfMemory`.
fn fault_of_token_error(alloc: Global, path: &str, error: TokenError) -> ParseFault
    ensures { IsFaultOf path.now error result }
{
    let carets = match error {
        TokenError::OutOfMemory => return ParseFault::OutOfMemory,
        TokenError::Eof => path.len(),
        TokenError::Position(at) => at,
    };
    path_with_caret_row(alloc, path, carets).map_or(ParseFault::OutOfMemory, ParseFault::Text)
}

// The path, a line end and so many `^`.
pub(crate) fn path_with_caret_row(
    alloc: Global,
    path: &str,
    carets: usize,
) -> Result<String, AllocError>
    ensures { IfOk result (λ message. string_bytes message ≡ caret_text path.now carets) }
{
    let mut message = String::new(alloc);
    message.push_str(path)?;
    message.push('\n')?;
    for _ in 0..carets {
        message.push('^')?;
    }
    Ok(message)
}

// How many `^` the message's last line has; None where that line has something else, or the message has no line end.
pub(crate) fn caret_row_length(message: &str) -> Option<usize>
    ensures carets { (path : List ℕ) (n : ℕ) → message.now ≡ caret_text path n → result ≡ Some n }
    ensures position { (at : ℕ) → at < 2 ^ 64 → message.now ≡ codes "Position:" ++ decimal at → result ≡ None }
    ensures end { message.now ≡ codes "Eof" → result ≡ None }
{
    let bytes = message.as_bytes();
    let mut row = None;
    for (place, byte) in bytes.iter().enumerate() {
        row = match *byte {
            b'\n' => Some(place + 1),
            b'^' => row,
            _ => None,
        };
    }
    match row {
        Some(start) => Some(bytes.len() - start),
        None => None,
    }
}
