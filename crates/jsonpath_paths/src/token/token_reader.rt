//! Tokens of a path text, with one that may be looked at before it is taken.

ghost use Rattle.std.specs.Prelude.{◌≡◌, IfOk, IfErr};
ghost use Rattle.jsonpath_paths.specs.token.Kinds.{HasNone};
ghost use Rattle.jsonpath_paths.specs.text.TextPlace.{ahead};
ghost use Rattle.jsonpath_paths.specs.token.Refusals.{fault};
ghost use Rattle.jsonpath_paths.specs.token.Tokens.{TakesToken, span_of};
ghost use Rattle.jsonpath_paths.specs.token.Looked.{Looked, LooksAt, error_at_end};
ghost use Rattle.jsonpath_paths.specs.text.Spans.{IsSpan};
ghost use Rattle.jsonpath_paths.specs.text.Characters.{bytes_at};

use crate::text::str_reader::StrRange;
use crate::token::tokenizer::Tokenizer;
use crate::token::tokens::{Token, TokenError};
use std::alloc::AllocError;
use std::marker::Model;

/// Reads a path text token by token, and records the position up to which it has read or peeked.
///
/// ```text
/// let mut reader = TokenReader::new("[0]");
/// assert!(rt; reader.next_token() == Ok(Token::OpenArray(StrRange::new(0, 1))));
/// assert!(rt; reader.next_token() == Ok(Token::Key(StrRange::new(1, 1))));
/// ```
#[derive(Drop)]
pub struct TokenReader<'a> {
    tokenizer: Tokenizer<'a>,
    seen: usize,
}

impl<'a> Model for TokenReader<'a> {
    ghost use Rattle.jsonpath_paths.specs.token.Looked.{Looked, looked_code, looked_of};

    ghost Value = { Looked };

    ghost coded = { looked_code };

    ghost view = { looked_of };
}

impl<'a> TokenReader<'a> {
    /// Makes a reader that takes the tokens of this path text one by one, from the beginning of the text.
    ///
    /// ```text
    /// let mut reader = TokenReader::new("*");
    /// assert!(rt; reader.next_token() == Ok(Token::Asterisk(StrRange::new(0, 1))));
    /// ```
    pub fn new(text: &'a str) -> TokenReader<'a>
        ensures { result ≡ record { place = record { text = text.now; pos = 0 }; seen = 0 } }
    {
        TokenReader {
            tokenizer: Tokenizer::new(text),
            seen: 0,
        }
    }

    /// Returns the next token without taking it: `next_token` then returns the same. If no token begins at the reader's
    /// position, returns the error that `next_token` returns there; `to_error` then reports this position.
    ///
    /// ```text
    /// let mut reader = TokenReader::new("==1");
    /// assert!(rt; reader.peek_token() == Ok(Token::Equal(StrRange::new(0, 2))));
    /// assert!(rt; reader.next_token() == Ok(Token::Equal(StrRange::new(0, 2))));
    /// ```
    pub fn peek_token(&mut self) -> Result<Token, TokenError>
        ensures stays { self.new.place ≡ self.old.place }
        ensures found { IfOk result (λ t. LooksAt self.old.place t self.new.seen) }
        ensures span { IfOk result (λ t. IsSpan self.new.place.text (span_of t)) }
        ensures none { IfErr result (λ e. HasNone (ahead self.old.place) × (self.new.seen ≡ self.old.place.pos) × (e ≡ fault self.old.place.pos (ahead self.old.place))) }
    {
        let mut ahead = self.tokenizer.copy_of_place();
        let found = ahead.next_token();
        self.seen = ahead.pos();
        found
    }

    /// Takes the next token. If none begins at the reader's position, returns an error and keeps the position, so that
    /// each later call returns the same error: `Eof` at the end of the text, at a quoted text that is not closed, or if
    /// the character at the position is the text's last; else `Position` with the number of bytes before the position.
    ///
    /// ```text
    /// let mut reader = TokenReader::new("@ ");
    /// let _ = reader.next_token();
    /// assert!(rt; reader.next_token() == Ok(Token::Whitespace(StrRange::new(1, 1))));
    /// assert!(rt; reader.next_token() == Err(TokenError::Eof));
    /// ```
    pub fn next_token(&mut self) -> Result<Token, TokenError>
        ensures found { IfOk result (λ t. TakesToken self.old.place t self.new.place) }
        ensures span { IfOk result (λ t. IsSpan self.new.place.text (span_of t)) }
        ensures none { IfErr result (λ e. HasNone (ahead self.old.place) × (self.new.place ≡ self.old.place) × (e ≡ fault self.old.place.pos (ahead self.old.place))) }
        ensures seen { self.new.seen ≡ self.new.place.pos }
    {
        let found = self.tokenizer.next_token();
        self.seen = self.tokenizer.pos();
        found
    }

    /// Makes a syntax error after what was read or peeked: `Eof` at the text's end, else `Position`, in bytes.
    ///
    /// ```text
    /// let mut reader = TokenReader::new("$[a]");
    /// let _ = reader.next_token();
    /// assert!(rt; reader.to_error() == TokenError::Position(1));
    /// ```
    pub fn to_error(&self) -> TokenError
        ensures { result ≡ error_at_end self.now }
    {
        if self.seen == self.tokenizer.text().len() {
            TokenError::Eof
        } else {
            TokenError::Position(self.seen)
        }
    }

    /// Returns the part of the path text at this span, and takes no token. Precondition: the span lies within the text,
    /// and neither of its ends is inside a character. Named as in the Rust crate `jsonpath_lib`.
    ///
    /// ```text
    /// let mut reader = TokenReader::new("store.book");
    /// if let Ok(Token::Key(word)) = reader.next_token() {
    ///     assert!(rt; reader.read_value(&word) == "store");
    /// }
    /// ```
    pub fn read_value(&self, span: &StrRange) -> &'a str
        requires { IsSpan self.now.place.text span.now }
        ensures { result.now ≡ bytes_at self.now.place.text span.now }
    {
        self.tokenizer.text_at_span(span)
    }
}

/// Clones a token reader: both have read, and peeked, up to the same positions. `clone` always returns `Ok`.
impl<'a> Clone for TokenReader<'a> {
    ghost use Rattle.std.specs.Prelude.{⊤};

    ghost is_clone = { λ reader copy. copy ≡ reader };

    ghost is_infallible = { λ _. ⊤ };

    fn clone(&self) -> Result<TokenReader<'a>, AllocError> {
        Ok(TokenReader {
            tokenizer: self.tokenizer.copy_of_place(),
            seen: self.seen,
        })
    }
}
