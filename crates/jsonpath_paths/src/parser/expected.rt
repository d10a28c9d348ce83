//! What would have been allowed at the position of a path text's syntax error.

ghost use Rattle.std.specs.Prelude.{◌≡◌, List, Some, IfOk, IfSome, IfNone, is_some, length, option_map};
ghost use Rattle.jsonpath_paths.specs.Expectations.{AreExpected, IsLongestFront};
ghost use Rattle.jsonpath_paths.specs.Spelling.{IsInGrammar};
ghost use Rattle.jsonpath_paths.specs.plan.Wants.{Want, feed, run, signs, stop, whole_wants};
ghost use Rattle.jsonpath_paths.specs.plan.Expecting.{all_fed, word_fed};
ghost use Rattle.jsonpath_paths.specs.text.Spans.{AreSpans};

use crate::parser::tree_parser::{Refusal, TreeParser};
use crate::text::str_reader::StrRange;
use crate::token::tokenizer::lexemes_up_to_refusal;
use crate::token::tokens::{Kind, Lexeme};
use std::alloc::{AllocError, Global};

/// What a path could go on with at a syntax error: a token of some kind, or an unquoted word such as an index.
///
/// ```text
/// let expected = expected_tokens(alloc, "$[0,a]")?;
/// assert!(rt; expected.is_some_and(|it| it.tokens.as_slice().contains(&Expected::Index)));
/// ```
#[derive(Clone, Copy, Debug, PartialEq, Eq)]
pub enum Expected {
    /// What a path could go on with at a syntax error: any token of this kind. `Kind::Key` means that any word (a name
    /// or number without quotes) is allowed, as it is after a dot.
    Token(Kind),
    /// How a path could go on at a syntax error: a word (an unquoted token) that is an index, such as `0` or `-1`.
    Index,
    /// What a path could go on with at a syntax error: the step of a slice, an unquoted token such as `2`.
    RangeStep,
    /// What a path could go on with at a syntax error: a word (an unquoted token) that is `true` or `false` (in any
    /// letter case), an integer, or the part of a number before its decimal point.
    Literal,
    /// What a path could go on with at a syntax error: the digits after a number's decimal point, such as the `5` of
    /// `2.5`. They are an unquoted token of their own.
    Fraction,
}

/// What would have been allowed at a path text's syntax error: which tokens, and whether the path could end there.
///
/// ```text
/// let expected = expected_tokens(alloc, "$.a b")?;
/// assert!(rt; expected.is_some_and(|it| it.end && it.tokens.is_empty()));
/// ```
#[derive(Debug, PartialEq, Eq, Drop)]
pub struct ExpectedTokens {
    /// A field: the tokens that would have been allowed at the position of a path text's syntax error. First come kinds
    /// of token such as `[`, in a fixed order, each at most once; then one kind of word (an unquoted name or number),
    /// if a word was allowed. The list is empty if the path could only have ended there.
    pub tokens: Vec<Expected>,
    /// A field: whether the path could end at its syntax error, that is, whether the tokens before it are a path.
    pub end: bool,
}

// The kinds of token but words, in the order in which they are reported.
const OTHER_KINDS: [Kind; 22] = [
    Kind::Absolute,
    Kind::At,
    Kind::Dot,
    Kind::OpenArray,
    Kind::CloseArray,
    Kind::Asterisk,
    Kind::Question,
    Kind::SingleQuoted,
    Kind::DoubleQuoted,
    Kind::Comma,
    Kind::Split,
    Kind::OpenParenthesis,
    Kind::CloseParenthesis,
    Kind::Equal,
    Kind::NotEqual,
    Kind::Little,
    Kind::LittleOrEqual,
    Kind::Greater,
    Kind::GreaterOrEqual,
    Kind::And,
    Kind::Or,
    Kind::Whitespace,
];

// How many tokens are left from the first one on with which no path goes on. `None` where the tokens are a path.
fn tokens_left(alloc: Global, text: &str, tokens: &[Lexeme]) -> Result<Option<usize>, AllocError>
    requires { AreSpans text.now tokens.now }
    ensures { IfOk result (λ left. left ≡ option_map length (stop text.now whole_wants tokens.now)) }
{
    let mut parser = TreeParser::new(alloc, text, tokens);
    match parser.parse_whole_path() {
        Ok(_) => return Ok(None),
        Err(Refusal::OutOfMemory) => return Err(AllocError),
        Err(Refusal::Refused) => (),
    }
    Ok(Some(parser.tokens_left()))
}

// Whether a path can go on behind its first tokens with one of this kind that has these bytes.
fn can_follow(
    alloc: Global,
    text: &str,
    front: &[Lexeme],
    kind: Kind,
    word: &str,
) -> Result<bool, AllocError>
    requires { AreSpans text.now front.now }
    ensures { IfOk result (λ b. (us : List Want) → run whole_wants (signs text.now front.now) ≡ Some us → b ≡ is_some (feed us kind word.now)) }
{
    let mut longer = String::from_str(alloc, text)?;
    longer.push_str(word)?;
    let mut tokens = Vec::from_slice(alloc, front)?;
    let span = StrRange::new(text.len(), word.len());
    tokens.push(Lexeme { kind, span })?;
    let left = tokens_left(alloc, longer.as_str(), tokens.as_slice())?;
    Ok(left.unwrap_or(0) == 0)
}

// The words with which a path can go on behind its first tokens. A word is tried for each kind of them.
fn expected_word(
    alloc: Global,
    text: &str,
    front: &[Lexeme],
) -> Result<Option<Expected>, AllocError>
    requires { AreSpans text.now front.now }
    ensures { IfOk result (λ o. (us : List Want) → run whole_wants (signs text.now front.now) ≡ Some us → o ≡ word_fed us) }
{
    if can_follow(alloc, text, front, Kind::Key, "a")? {
        return Ok(Some(Expected::Token(Kind::Key)));
    }
    if can_follow(alloc, text, front, Kind::Key, "true")? {
        return Ok(Some(Expected::Literal));
    }
    if can_follow(alloc, text, front, Kind::Key, "-1")? {
        return Ok(Some(Expected::Index));
    }
    if can_follow(alloc, text, front, Kind::Key, "+1")? {
        return Ok(Some(Expected::RangeStep));
    }
    if can_follow(alloc, text, front, Kind::Key, "1")? {
        return Ok(Some(Expected::Fraction));
    }
    Ok(None)
}

// The tokens with which a path can go on behind its first tokens.
fn expected_behind(alloc: Global, text: &str, front: &[Lexeme]) -> Result<Vec<Expected>, AllocError>
    requires { AreSpans text.now front.now }
    ensures { IfOk result (λ v. (us : List Want) → run whole_wants (signs text.now front.now) ≡ Some us → v.items ≡ all_fed us OTHER_KINDS) }
{
    let mut expected = Vec::new(alloc);
    for kind in &OTHER_KINDS {
        if can_follow(alloc, text, front, *kind, "")? {
            expected.push(Expected::Token(*kind))?;
        }
    }
    match expected_word(alloc, text, front)? {
        Some(word) => {
            expected.push(word)?;
            Ok(expected)
        }
        None => Ok(expected),
    }
}

// The longest front of a text's tokens that some path begins with. `None` where the text is a path.
fn longest_front(alloc: Global, text: &str) -> Result<Option<Vec<Lexeme>>, AllocError>
    ensures none { IfOk result (λ o. IfNone o (IsInGrammar text.now)) }
    ensures some { IfOk result (λ o. IfSome o (λ _. ¬ IsInGrammar text.now)) }
    ensures front { IfOk result (λ o. IfSome o (λ front. IsLongestFront text.now front.items)) }
    ensures spans { IfOk result (λ o. IfSome o (λ front. AreSpans text.now front.items)) }
{
    let (mut found, behind) = lexemes_up_to_refusal(alloc, text)?;
    let left = tokens_left(alloc, text, found.as_slice())?;
    if left.is_none() && behind.is_at_end() {
        return Ok(None);
    }
    found.truncate(found.len().saturating_sub(left.unwrap_or(0)));
    Ok(Some(found))
}

/// What could follow, in some path, the tokens before a path text's syntax error: each kind of token, and whether the
/// path could end there. `None` for a text that is a path. The only error is that memory runs out.
///
/// ```text
/// let expected = expected_tokens(alloc, "$.a[?(@.b) x]")?;
/// let close = Expected::Token(Kind::CloseArray);
/// assert!(rt; expected.is_some_and(|it| !it.end && it.tokens.as_slice() == [close].as_slice()));
/// ```
pub fn expected_tokens(alloc: Global, text: &str) -> Result<Option<ExpectedTokens>, AllocError>
    ensures path { IfOk result (λ o. IfNone o (IsInGrammar text.now)) }
    ensures error { IfOk result (λ o. IfSome o (λ _. ¬ IsInGrammar text.now)) }
    ensures expected { IfOk result (λ o. IfSome o (λ it. AreExpected text.now it.tokens.items it.end)) }
{
    let Some(front) = longest_front(alloc, text)? else {
        return Ok(None);
    };
    let tokens = expected_behind(alloc, text, front.as_slice())?;
    let end = tokens_left(alloc, text, front.as_slice())?.is_none();
    Ok(Some(ExpectedTokens { tokens, end }))
}
