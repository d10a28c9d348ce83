//! The tokens of a path text, the error where there is none, and the tokens of a syntax tree's token list.

ghost use Rattle.std.specs.Prelude.{◌≡◌, ◌↔◌, Some, IsTrue};
ghost use Rattle.jsonpath_paths.specs.RefusalTexts.{token_error_text};
ghost use Rattle.jsonpath_paths.specs.token.Tokens.{token, kind_of, span_of};
ghost use Rattle.jsonpath_paths.specs.tree.Tree.{is_comparison};

use crate::decimal::Decimal;
use crate::text::str_reader::StrRange;
use crate::tree::items::Items;
use std::alloc::AllocError;
use std::error::Error;
use std::fmt;

/// The error of reading a path text: a syntax error at a position, a syntax error at the text's end, or out of memory.
///
/// ```text
/// let error = PathParser::compile(alloc, "$[a]")
///     .err()
///     .unwrap_or(TokenError::Eof);
/// let text = format!(in alloc; "{error}")?;
/// assert!(rt; text.as_str() == "Position:3");
/// ```
#[derive(Clone, Copy, Debug, PartialEq, Eq)]
pub enum TokenError {
    /// A syntax error: the path text ends too early, or its last token or character is wrong.
    Eof,
    /// An error: a syntax error of a path text, at this byte position. If `PathParser` returns it, the wrong token or
    /// character ends there. If `Tokenizer`, or `next_token` or `peek_token` of `TokenReader` returns it, the wrong
    /// character begins there. If `to_error` of `TokenReader` returns it, the text was read or peeked up to there.
    Position(usize),
    /// An error of reading a path text: memory ran out.
    OutOfMemory,
}

impl fmt::Display for TokenError {
    ghost output = { λ error. Some (token_error_text error) };

    fn fmt<W: fmt::Write>(&self, f: &mut fmt::Formatter<W>) -> fmt::Result {
        match *self {
            TokenError::Eof => f.write_str("Eof"),
            TokenError::Position(at) => write!(f, "Position:{at}"),
            TokenError::OutOfMemory => f.write_str("out of memory"),
        }
    }
}

impl Error for TokenError {}

impl From<AllocError> for TokenError {
    ghost use Rattle.jsonpath_paths.specs.declared.token.tokens.TokenError.TheVariants.{OutOfMemory};

    ghost from_gives = { λ _ e. e ≡ OutOfMemory };

    fn from(_: AllocError) -> TokenError {
        TokenError::OutOfMemory
    }
}

/// The kind of a path text's token, such as a word (an unquoted name or number) or `[`, without position or length.
///
/// ```text
/// let expected = expected_tokens(alloc, "$[0")?;
/// let bracket = Expected::Token(Kind::CloseArray);
/// assert!(rt; expected.is_some_and(|it| it.tokens.as_slice().contains(&bracket)));
/// ```
#[derive(Clone, Copy, Debug, PartialEq, Eq)]
pub enum Kind {
    /// The kind of the token `$` in a path.
    Absolute,
    /// The kind of the token `.` in a path.
    Dot,
    /// The kind of the token `@` in a path.
    At,
    /// The kind of the token `[` in a path.
    OpenArray,
    /// The kind of the token `]` in a path.
    CloseArray,
    /// The kind of the token `*` in a path.
    Asterisk,
    /// The kind of the token `?` in a path.
    Question,
    /// The kind of the token `,` in a path.
    Comma,
    /// The kind of the token `:` in a path.
    Split,
    /// The kind of the token `(` in a path.
    OpenParenthesis,
    /// The kind of the token `)` in a path.
    CloseParenthesis,
    /// The kind of a token that is a word: an unquoted run of characters, such as a name or a number.
    Key,
    /// The kind of a token that is a text in double quotes.
    DoubleQuoted,
    /// The kind of a token that is a text in single quotes.
    SingleQuoted,
    /// The kind of the token `==` in a path.
    Equal,
    /// The kind of the token `>=` in a path.
    GreaterOrEqual,
    /// The kind of the token `>` in a path.
    Greater,
    /// The kind of the token `<` in a path.
    Little,
    /// The kind of the token `<=` in a path.
    LittleOrEqual,
    /// The kind of the token `!=` in a path.
    NotEqual,
    /// The kind of the token `&&` in a path.
    And,
    /// The kind of the token `||` in a path.
    Or,
    /// The kind of a token that is a run of whitespace characters.
    Whitespace,
}

/// A token of a path text: its kind, and its span (position and length in the text).
#[derive(Clone, Copy)]
pub struct Lexeme {
    pub kind: Kind,
    pub span: StrRange,
}

/// A token of a path text, with its span in the text. The span of a quoted text includes the quotes.
///
/// ```text
/// let mut tokenizer = Tokenizer::new("'a b'");
/// assert!(rt; tokenizer.next_token() == Ok(Token::SingleQuoted(StrRange::new(0, 5))));
/// ```
#[derive(Clone, Copy, Debug, PartialEq, Eq)]
pub enum Token {
    /// The token `$`, where it is no part of a name or a quoted text, with its span.
    Absolute(StrRange),
    /// The token `.`, with its span.
    Dot(StrRange),
    /// The token `@`, with its span.
    At(StrRange),
    /// The token `[`, with its span.
    OpenArray(StrRange),
    /// The token `]`, with its span.
    CloseArray(StrRange),
    /// The token `*`, with its span.
    Asterisk(StrRange),
    /// The token `?`, with its span.
    Question(StrRange),
    /// The token `,`, with its span.
    Comma(StrRange),
    /// The token `:`, with its span.
    Split(StrRange),
    /// The token `(`, with its span.
    OpenParenthesis(StrRange),
    /// The token `)`, with its span.
    CloseParenthesis(StrRange),
    /// A token that is a word (an unquoted run of characters, such as a name or a number), with its span.
    Key(StrRange),
    /// A token that is a text in double quotes, with its span, quotes included.
    DoubleQuoted(StrRange),
    /// A token that is a text in single quotes, with its span, quotes included.
    SingleQuoted(StrRange),
    /// The token `==`, with its span.
    Equal(StrRange),
    /// The token `>=`, with its span.
    GreaterOrEqual(StrRange),
    /// The token `>`, with its span.
    Greater(StrRange),
    /// The token `<`, with its span.
    Little(StrRange),
    /// The token `<=`, with its span.
    LittleOrEqual(StrRange),
    /// The token `!=`, with its span.
    NotEqual(StrRange),
    /// The token `&&`, with its span.
    And(StrRange),
    /// The token `||`, with its span.
    Or(StrRange),
    /// A token that is a run of whitespace characters outside quoted texts, as long as possible, with its span.
    Whitespace(StrRange),
}

impl Kind {
    // The token of this kind at the span.
    pub(crate) fn token_at(self, s: StrRange) -> Token
        ensures { result ≡ token self s }
    {
        match self {
            Kind::Absolute => Token::Absolute(s),
            Kind::Dot => Token::Dot(s),
            Kind::At => Token::At(s),
            Kind::OpenArray => Token::OpenArray(s),
            Kind::CloseArray => Token::CloseArray(s),
            Kind::Asterisk => Token::Asterisk(s),
            Kind::Question => Token::Question(s),
            Kind::Comma => Token::Comma(s),
            Kind::Split => Token::Split(s),
            Kind::OpenParenthesis => Token::OpenParenthesis(s),
            Kind::CloseParenthesis => Token::CloseParenthesis(s),
            Kind::Key => Token::Key(s),
            Kind::DoubleQuoted => Token::DoubleQuoted(s),
            Kind::SingleQuoted => Token::SingleQuoted(s),
            Kind::Equal => Token::Equal(s),
            Kind::GreaterOrEqual => Token::GreaterOrEqual(s),
            Kind::Greater => Token::Greater(s),
            Kind::Little => Token::Little(s),
            Kind::LittleOrEqual => Token::LittleOrEqual(s),
            Kind::NotEqual => Token::NotEqual(s),
            Kind::And => Token::And(s),
            Kind::Or => Token::Or(s),
            Kind::Whitespace => Token::Whitespace(s),
        }
    }
}

impl Token {
    // What the token is, without its span.
    fn kind(&self) -> Kind
        ensures { result ≡ kind_of self.now }
    {
        match self {
            Token::Absolute(_) => Kind::Absolute,
            Token::Dot(_) => Kind::Dot,
            Token::At(_) => Kind::At,
            Token::OpenArray(_) => Kind::OpenArray,
            Token::CloseArray(_) => Kind::CloseArray,
            Token::Asterisk(_) => Kind::Asterisk,
            Token::Question(_) => Kind::Question,
            Token::Comma(_) => Kind::Comma,
            Token::Split(_) => Kind::Split,
            Token::OpenParenthesis(_) => Kind::OpenParenthesis,
            Token::CloseParenthesis(_) => Kind::CloseParenthesis,
            Token::Key(_) => Kind::Key,
            Token::DoubleQuoted(_) => Kind::DoubleQuoted,
            Token::SingleQuoted(_) => Kind::SingleQuoted,
            Token::Equal(_) => Kind::Equal,
            Token::GreaterOrEqual(_) => Kind::GreaterOrEqual,
            Token::Greater(_) => Kind::Greater,
            Token::Little(_) => Kind::Little,
            Token::LittleOrEqual(_) => Kind::LittleOrEqual,
            Token::NotEqual(_) => Kind::NotEqual,
            Token::And(_) => Kind::And,
            Token::Or(_) => Kind::Or,
            Token::Whitespace(_) => Kind::Whitespace,
        }
    }

    /// The span of this token in the path text, quotes included.
    ///
    /// ```text
    /// let text = Token::SingleQuoted(StrRange::new(2, 3));
    /// assert!(rt; text.span() == StrRange::new(2, 3));
    /// ```
    pub fn span(&self) -> StrRange
        ensures { result ≡ span_of self.now }
    {
        match *self {
            Token::Absolute(span)
            | Token::Dot(span)
            | Token::At(span)
            | Token::OpenArray(span)
            | Token::CloseArray(span)
            | Token::Asterisk(span)
            | Token::Question(span)
            | Token::Comma(span)
            | Token::Split(span)
            | Token::OpenParenthesis(span)
            | Token::CloseParenthesis(span)
            | Token::Key(span)
            | Token::DoubleQuoted(span)
            | Token::SingleQuoted(span)
            | Token::Equal(span)
            | Token::GreaterOrEqual(span)
            | Token::Greater(span)
            | Token::Little(span)
            | Token::LittleOrEqual(span)
            | Token::NotEqual(span)
            | Token::And(span)
            | Token::Or(span)
            | Token::Whitespace(span) => span,
        }
    }

    /// Whether the two tokens are of one kind, such as two commas, whatever their spans.
    ///
    /// ```text
    /// let dot = Token::Dot(StrRange::new(1, 1));
    /// assert!(rt; dot.is_match_token_type(Token::Dot(StrRange::new(5, 1))));
    /// ```
    pub fn is_match_token_type(&self, other: Token) -> bool
        ensures { IsTrue result ↔ (kind_of self.now ≡ kind_of other) }
    {
        self.kind() == other.kind()
    }

    /// Returns a token of the same kind with the given span. This token itself stays as it is, in spite of the method's
    /// name, which is the same as in the Rust crate `jsonpath_lib`.
    ///
    /// ```text
    /// let mut dot = Token::Dot(StrRange::new(1, 1));
    /// let other = StrRange::new(5, 1);
    /// assert!(rt; dot.reset_span(other) == Token::Dot(other));
    /// ```
    pub fn reset_span(&mut self, span: StrRange) -> Token
        ensures result { result ≡ token (kind_of self.old) span }
        ensures stays { self.new ≡ self.old }
    {
        self.kind().token_at(span)
    }
}

/// An operator of a filter, written between its two sides: `&&`, `||`, or one of six comparisons, such as `<`.
///
/// ```text
/// let path = PathParser::compile(alloc, "$[?(@.a || @.b)]")?;
/// let is_or = |it: &ParserStep| match &it.inner {
///     Inner::Filter(Condition::Join(op, _, _)) => *op == FilterToken::Or,
///     _ => false,
/// };
/// assert!(rt; path.tree().steps.get(0).is_some_and(is_or));
/// ```
#[derive(Clone, Copy, Debug, PartialEq, Eq)]
pub enum FilterToken {
    /// An operator of a filter: the comparison `==`.
    Equal,
    /// An operator of a filter: the comparison `!=`.
    NotEqual,
    /// An operator of a filter: the comparison `<`.
    Little,
    /// An operator of a filter: the comparison `<=`.
    LittleOrEqual,
    /// An operator of a filter: the comparison `>`.
    Greater,
    /// An operator of a filter: the comparison `>=`.
    GreaterOrEqual,
    /// An operator of a filter: the connective `&&`, which joins two conditions.
    And,
    /// An operator of a filter: the connective `||`.
    Or,
}

impl FilterToken {
    /// Whether this operator compares two values: true for all but the connectives `And` and `Or`.
    ///
    /// ```text
    /// assert!(rt; FilterToken::Equal.is_comparison());
    /// assert!(rt; !FilterToken::And.is_comparison());
    /// ```
    pub fn is_comparison(&self) -> bool
        ensures { result ≡ is_comparison self.now }
    {
        match self {
            FilterToken::And | FilterToken::Or => false,
            _ => true,
        }
    }
}

/// One token of a path's token list, which is the path's syntax tree written out as a list. The span of a name covers
/// it as it is in the path text, with its quotes and backslashes.
///
/// ```text
/// let path = PathParser::compile(alloc, "$.*")?;
/// let tokens = [ParseToken::Absolute, ParseToken::In, ParseToken::All];
/// assert!(rt; path.tokens() == tokens.as_slice());
/// ```
#[derive(Debug, PartialEq, Eq, Drop)]
pub enum ParseToken {
    /// The token that begins a path from the document's root, `$`.
    Absolute,
    /// The token that begins a path from the value that a filter tests, `@`.
    Relative,
    /// A token of a path's token list (the syntax tree written out as a list): it begins a step with a single dot and
    /// no brackets, such as `.a`. The step selects among the children of each node that the steps before it have
    /// selected.
    In,
    /// The token that begins a step after `..`: the step selects among the children of each node that the steps before
    /// it have selected, and among the children of all descendants of these nodes.
    Leaves,
    /// A token of a path's token list (the syntax tree as a list): `*`, with which a step selects all children.
    All,
    /// A token of a path's token list (the syntax tree written out as a list): one name that a step selects, or a
    /// quoted text that is a side of a comparison. It is given by its span (position and length) in the path text.
    Key(StrRange),
    /// A token of a path's token list (the syntax tree written out as a list): two or more names that one step selects.
    /// Each name is given by its span in the path text, in the text's order.
    Keys(Items<StrRange>),
    /// A token of a path's token list (the syntax tree written out): the `[` that opens a step such as `['a']`.
    Array,
    /// A token of a path's token list (the syntax tree written out as a list): the `]` that ends a step in brackets.
    ArrayEof,
    /// A token of a path's token list (the syntax tree written out as a list): a comparison, such as `==`, or a
    /// connective, `&&` or `||`, of a filter. It comes after the tokens of its two sides.
    Filter(FilterToken),
    /// A token of a path's token list (the syntax tree written out as a list): the slice that a step selects. Its
    /// fields are the slice's start, end and step, each of which may be missing.
    Range(Option<i64>, Option<i64>, Option<u64>),
    /// A token of a path's token list (its written-out syntax tree): two or more indexes of one step, in text order.
    Union(Items<i64>),
    /// A token of a path's token list (the syntax tree as a list): a step's single index, or a number to compare with.
    Number(Decimal),
    /// A token of a path's token list (the syntax tree written out): a boolean literal compared in a filter.
    Bool(bool),
    /// A token that never occurs in a compiled path; it is here because the Rust crate `jsonpath_lib` has it.
    Eof,
}
