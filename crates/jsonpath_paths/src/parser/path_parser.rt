//! `PathParser`, a compiled path: a path text, its syntax tree and the token list of that tree.

ghost use Rattle.std.specs.Prelude.{◌≡◌, ◌≢◌, ◌++◌, true, false, ℕ, List, IfOk, IfErr, IsOk};
ghost use Rattle.jsonpath_paths.specs.tree.Tree.{Path};
ghost use Rattle.jsonpath_paths.specs.tree.Visit.{path_tokens, MayReadPath};
ghost use Rattle.jsonpath_paths.specs.text.Spans.{IsSpan};
ghost use Rattle.jsonpath_paths.specs.text.Characters.{bytes_at};
ghost use Rattle.jsonpath_paths.specs.declared.text.str_reader.StrRange.{StrRange};
ghost use denote.Ref.{Bor};
ghost use Rattle.jsonpath_paths.specs.plan.RefusedPlace.{refused_place};
ghost use Rattle.jsonpath_paths.specs.RefusedAt.{RefusedAt};
ghost use Rattle.jsonpath_paths.specs.Spelling.{Spells, IsInGrammar};
ghost use Rattle.jsonpath_paths.specs.Listed.{IsListOfText};
ghost use Rattle.jsonpath_paths.specs.tree.View.{path_of};
ghost use Rattle.jsonpath_paths.specs.declared.token.tokens.TokenError.TheVariants.{OutOfMemory};

use crate::parser::tree_parser::{Refusal, TreeParser};
use crate::text::str_reader::{StrRange, StrReader};
use crate::token::tokenizer::{Tokenizer, lexemes_up_to_refusal};
use crate::token::tokens::{ParseToken, TokenError};
use crate::tree::parser_node::ParserNode;
use crate::tree::parser_node_visitor::ParserNodeVisitor;
use crate::tree::parser_token_handler::ParserTokenHandler;
use crate::tree::token_list::token_list;
use std::alloc::{AllocError, Global};
use std::marker::Model;

/// A compiled path: a path text, its syntax tree, and its token list: that tree written out as `ParseToken`s.
///
/// ```text
/// let path = PathParser::compile(alloc, "$.store['book'][0]")?;
/// assert!(rt; path.tree().steps.len() == 3);
/// ```
#[derive(Drop)]
pub struct PathParser<'a> {
    text: &'a str,
    tree: ParserNode,
    tokens: Vec<ParseToken>,
}

impl<'a> Model for PathParser<'a> {
    ghost use Rattle.std.specs.Prelude.{List, ℕ};
    ghost use Rattle.jsonpath_paths.specs.Parser.{text_of, HoldsTree};

    ghost Value = { List ℕ };

    ghost view = { text_of };

    ghost invariant = { HoldsTree };
}

// Where a path text is refused: at the end of the first token that the parser did not take, or, where it took all, at
// the end of the character behind them, which begins no token.
fn error_at_refused_token_or_character(
    parser: &TreeParser<'_>,
    stop: &Tokenizer<'_>,
    text: &str,
) -> TokenError
    requires same { stop.now.text ≡ text.now }
    requires parsed { parser.now.text ≡ text.now }
    ensures exact { result ≡ refused_place text.now parser.now.lexemes stop.now }
{
    match parser.next_token_end() {
        Some(n) => {
            if n == text.len() {
                TokenError::Eof
            } else {
                TokenError::Position(n)
            }
        }
        None => stop.error_at_refused_character_end(),
    }
}

impl<'a> PathParser<'a> {
    /// Parses a path text: `Ok` for exactly the texts of the grammar, unless memory runs out. A syntax error is at the
    /// first token with which no path can continue, or at the first character that begins no token. The error is
    /// `Position`, with the number of bytes up to the end of this token or character. But it is `Eof` if this token or
    /// character is the last of the text, or if the text ends too early.
    ///
    /// ```text
    /// let refused = PathParser::compile(alloc, "$.a[b]").err();
    /// assert!(rt; refused == Some(TokenError::Position(5)));
    /// let refused = PathParser::compile(alloc, "$.a[").err();
    /// assert!(rt; refused == Some(TokenError::Eof));
    /// ```
    pub fn compile(alloc: Global, input: &'a str) -> Result<PathParser<'a>, TokenError>
        ensures found { IfOk result (λ p. (p ≡ input.now) × IsInGrammar input.now) }
        ensures only { IfErr result (λ e. e ≢ OutOfMemory → IsInGrammar input.now → ⊥) }
        ensures refused { IfErr result (λ e. e ≢ OutOfMemory → RefusedAt input.now e) }
    {
        let (found, stop) = lexemes_up_to_refusal(alloc, input)?;
        let mut parser = TreeParser::new(alloc, input, found.as_slice());
        match parser.parse_whole_path() {
            Ok(tree) => {
                if stop.is_at_end() {
                    let tokens = token_list(alloc, &tree, found.len())?;
                    Ok(PathParser {
                        text: input,
                        tree,
                        tokens,
                    })
                } else {
                    Err(stop.error_at_refused_character_end())
                }
            }
            Err(fault) => match fault {
                Refusal::OutOfMemory => Err(TokenError::OutOfMemory),
                Refusal::Refused => Err(error_at_refused_token_or_character(&parser, &stop, input)),
            },
        }
    }

    /// Passes this path's token list, which is its syntax tree written out as a list, to `handler`, token by token.
    /// With each token it passes a function that returns the part of the path text at a span. Always returns `Ok`, also
    /// if the handler could not receive some token; the handler's `failed` then returns true. The call parses nothing;
    /// it is named as in the Rust crate `jsonpath_lib`.
    ///
    /// ```text
    /// let path = PathParser::compile(alloc, "$..a")?;
    /// let mut collector = Collector::new(alloc);
    /// let _ = path.parse(&mut collector);
    /// assert!(rt; collector.tokens.len() == 3);
    /// ```
    pub fn parse<H: ParserTokenHandler<&'a str>>(&self, handler: &mut H) -> Result<(), String>
        requires { (s : StrRange) (v : Bor (List ℕ)) → v.now ≡ bytes_at self.now s → H.takes handler.old s v }
        ensures ok { IsOk result }
        ensures stays_failed { H.has_failed handler.old ≡ true → H.has_failed handler.new ≡ true }
        ensures given { H.has_failed handler.new ≡ false → (p : Path) → Spells self.now p → H.tokens handler.new ≡ H.tokens handler.old ++ path_tokens p }
    {
        let reader = StrReader::new(self.text);
        self.visit(&self.tree, handler, &|span: &StrRange| reader.read(span));
        Ok(())
    }

    /// The text of this path, as it was compiled.
    ///
    /// ```text
    /// let path = PathParser::compile(alloc, "$.a")?;
    /// assert!(rt; path.text() == "$.a");
    /// ```
    pub fn text(&self) -> &'a str
        ensures { result.now ≡ self.now }
    {
        self.text
    }

    /// The syntax tree of this path.
    ///
    /// ```text
    /// let path = PathParser::compile(alloc, "$[?(@.a)].b")?;
    /// assert!(rt; path.tree().steps.len() == 2);
    /// ```
    pub fn tree(&self) -> &ParserNode
        ensures spells { Spells self.now (path_of result.now) }
        ensures spans { MayReadPath (λ s. IsSpan self.now s.now) (path_of result.now) }
    {
        &self.tree
    }

    /// The token list of this path: its syntax tree, written out as a list. The call allocates no memory.
    ///
    /// ```text
    /// let path = PathParser::compile(alloc, "$..a")?;
    /// assert!(rt; path.tokens().len() == 3);
    /// ```
    pub fn tokens(&self) -> &[ParseToken]
        ensures { IsListOfText self.now result.now }
    {
        self.tokens.as_slice()
    }

    /// Turns the path into the syntax tree of its text.
    ///
    /// ```text
    /// let tree = PathParser::compile(alloc, "$")?.into_tree();
    /// assert!(rt; tree.absolute && tree.steps.is_empty());
    /// ```
    pub fn into_tree(self) -> ParserNode
        ensures spells { Spells self.entry (path_of result) }
        ensures spans { MayReadPath (λ s. IsSpan self.entry s.now) (path_of result) }
    {
        let (tree, _) = self.into_tree_and_tokens();
        tree
    }

    /// Turns the path into a pair: the syntax tree of its text, and its token list, that tree written out as a list.
    ///
    /// ```text
    /// let (tree, tokens) = PathParser::compile(alloc, "$.a[0]")?.into_tree_and_tokens();
    /// assert!(rt; tree.steps.len() == 2 && tokens.len() == 6);
    /// ```
    pub fn into_tree_and_tokens(self) -> (ParserNode, Vec<ParseToken>)
        ensures spells { Spells self.entry (path_of result.0) }
        ensures spans { MayReadPath (λ s. IsSpan self.entry s.now) (path_of result.0) }
        ensures list { IsListOfText self.entry result.1.items }
    {
        let PathParser {
            text: _,
            tree,
            tokens,
        } = self;
        (tree, tokens)
    }
}

impl<'a> ParserNodeVisitor for PathParser<'a> {}

/// Clones a compiled path: the clone has the same text, syntax tree and token list (the tree written out as a list).
/// `clone` returns a `Result`; its only error is out of memory.
impl<'a> Clone for PathParser<'a> {
    ghost is_clone = { λ parser copy. copy ≡ parser };

    fn clone(&self) -> Result<PathParser<'a>, AllocError> {
        let tree = self.tree.clone()?;
        let tokens = self.tokens.clone()?;
        Ok(PathParser {
            text: self.text,
            tree,
            tokens,
        })
    }
}
