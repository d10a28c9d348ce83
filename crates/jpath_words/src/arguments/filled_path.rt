//! A path text with arguments in place of their placeholders: how it is made, and that its other tokens stay.

ghost use Rattle.std.specs.Prelude.{◌≡◌, ◌++◌, false, [], All, Contains, IfOk, IfSome, None, IsTrue, string_bytes};
ghost use Rattle.std.specs.Str.{IsUtf8};
ghost use Rattle.jsonpath_paths.specs.text.TextPlace.{ahead};
ghost use Rattle.jsonpath_paths.specs.token.Kinds.{HasNone};
ghost use Rattle.jsonpath_paths.specs.token.Tokens.{kind_of};
ghost use Rattle.jpath_words.specs.Arguments.{start_of, is_dot, IsPlaceholder, TakesText, TakesPut, TakesKeptOrPut, Fills, IsFilled};

use crate::arguments::argument::{Argument, find_argument};
use jsonpath_paths::{StrRange, Token, TokenError, TokenReader};
use std::alloc::{AllocError, Global};
use std::slice;

// The path text with what these arguments put in place of their placeholders: each placeholder becomes one quoted text or
// one number, and each other token stays. So does what is between tokens in a text that is no path.
pub(crate) fn filled_path(
    alloc: Global,
    path: &str,
    arguments: &[Argument],
) -> Result<String, AllocError>
    ensures { IfOk result (λ made. IsFilled arguments.now path.now (string_bytes made)) }
{
    let mut made = String::new(alloc);
    let mut rest = path;
    for _ in 0..path.len() {
        let (tokens, behind) = split_text(rest, end_of_tokens(rest));
        let filled = tokens_with_arguments(alloc, tokens, arguments)?;
        if begins_with_token(behind) || !keeps_tokens(tokens, filled.as_str(), arguments) {
            break;
        }
        let (between, further) = split_text(behind, end_of_character(behind));
        made.push_str(filled.as_str())?;
        made.push_str(between)?;
        rest = further;
    }
    made.push_str(rest)?;
    Ok(made)
}

// The byte behind the tokens with which the text begins.
fn end_of_tokens(text: &str) -> usize {
    let mut tokens = TokenReader::new(text);
    let mut end = 0usize;
    for _ in 0..text.len() {
        let Ok(token) = tokens.next_token() else {
            break;
        };
        let span = token.span();
        end = span.pos.saturating_add(span.offset);
    }
    end
}

// The byte behind the text's first character.
fn end_of_character(text: &str) -> usize {
    text.chars().next().map_or(0, |c| c.len_utf8())
}

// Whether a token begins the text.
fn begins_with_token(text: &str) -> bool
    ensures { result ≡ false → HasNone (ahead (start_of text.now)) }
{
    TokenReader::new(text).next_token().is_ok()
}

// These tokens, one behind the other, with what arguments put in place of their placeholders.
fn tokens_with_arguments(
    alloc: Global,
    text: &str,
    arguments: &[Argument],
) -> Result<String, AllocError> {
    let mut made = String::new(alloc);
    let mut typed = TokenReader::new(text);
    let mut is_behind_dot = false;
    for _ in 0..text.len() {
        let Ok(token) = typed.next_token() else {
            break;
        };
        let word = typed.read_value(&token.span());
        match argument_at(arguments, token, word, is_behind_dot) {
            Some(argument) => made.push_str(argument.put.as_str())?,
            None => made.push_str(word)?,
        }
        is_behind_dot = is_dot(token);
    }
    Ok(made)
}

// Whether the made text has the tokens of the path text, but for each placeholder what its argument puts.
fn keeps_tokens(path: &str, made: &str, arguments: &[Argument]) -> bool
    ensures { IsTrue result → Fills arguments.now false (start_of path.now) (start_of made.now) }
{
    let mut typed = TokenReader::new(path);
    let mut put = TokenReader::new(made);
    let mut is_behind_dot = false;
    for _ in 0..path.len().saturating_add(1) {
        let Ok(token) = typed.next_token() else {
            return is_at_end(&mut typed) && is_at_end(&mut put);
        };
        let word = typed.read_value(&token.span());
        if !takes_kept_or_put(&mut put, arguments, token, word, is_behind_dot) {
            return false;
        }
        is_behind_dot = is_dot(token);
    }
    false
}

// Takes what becomes of a token of the path text, if it is next: what an argument puts, or the token itself.
fn takes_kept_or_put(
    put: &mut TokenReader<'_>,
    arguments: &[Argument],
    token: Token,
    word: &str,
    is_behind_dot: bool,
) -> bool
    ensures { IsTrue result → TakesKeptOrPut arguments.now is_behind_dot (kind_of token) word.now put.old.place put.new.place }
{
    match argument_at(arguments, token, word, is_behind_dot) {
        Some(argument) => takes_put(put, argument.put.as_str()),
        None => takes_text(put, token, word),
    }
}

// Whether the path text has the argument's placeholder, or a place where no token begins, behind which it may be.
pub(crate) fn may_use_argument(path: &str, argument: &Argument) -> bool {
    let mut typed = TokenReader::new(path);
    let mut is_behind_dot = false;
    for _ in 0..path.len() {
        let Ok(token) = typed.next_token() else {
            break;
        };
        let word = typed.read_value(&token.span());
        if argument_at(slice::from_ref(argument), token, word, is_behind_dot).is_some() {
            return true;
        }
        is_behind_dot = is_dot(token);
    }
    !is_at_end(&mut typed)
}

// Whether the text is one number and nothing else: a word, or two with a point between them.
pub(crate) fn is_number_alone(text: &str) -> bool {
    let mut tokens = TokenReader::new(text);
    takes_number(&mut tokens, text) && is_at_end(&mut tokens)
}

// The argument whose placeholder this token of a path is: a word, and no dot is before it.
fn argument_at<'s>(
    arguments: &'s [Argument],
    token: Token,
    word: &str,
    is_behind_dot: bool,
) -> Option<&'s Argument>
    ensures some { IfSome result (λ found. Contains arguments.now found.now × IsPlaceholder is_behind_dot (kind_of token) word.now found.now) }
    ensures none { result ≡ None → All (λ a. IsPlaceholder is_behind_dot (kind_of token) word.now a → ⊥) arguments.now }
{
    match token {
        Token::Key(_) => {
            if is_behind_dot {
                return None;
            }
            find_argument(arguments, word)
        }
        _ => None,
    }
}

fn is_dot(token: Token) -> bool
    ensures { result ≡ is_dot (kind_of token) }
{
    matches!(token, Token::Dot(_))
}

// Takes the next token, if it is of this token's kind and has this text.
fn takes_text(tokens: &mut TokenReader<'_>, like: Token, text: &str) -> bool
    ensures { IsTrue result → TakesText (kind_of like) text.now tokens.old.place tokens.new.place }
{
    match tokens.next_token() {
        Ok(next) => next.is_match_token_type(like) && tokens.read_value(&next.span()) == text,
        Err(_) => false,
    }
}

// Takes what an argument puts, if it is next: one quoted text, or one number.
fn takes_put(tokens: &mut TokenReader<'_>, put: &str) -> bool
    ensures { IsTrue result → TakesPut put.now tokens.old.place tokens.new.place }
{
    if put.starts_with('\'') {
        return takes_text(tokens, Token::SingleQuoted(StrRange::new(0, 0)), put);
    }
    takes_number(tokens, put)
}

// Takes a number of this text, if it is next: a word, or two with a point between them.
fn takes_number(tokens: &mut TokenReader<'_>, number: &str) -> bool
    ensures { IsTrue result → TakesPut number.now tokens.old.place tokens.new.place }
{
    match number.find('.') {
        Some(at) => {
            let (whole, behind) = split_text(number, at);
            takes_words_about_point(tokens, whole, behind)
        }
        None => takes_text(tokens, Token::Key(StrRange::new(0, 0)), number),
    }
}

// Takes a word of the first text, and a point and a word that make the second, if they are next.
fn takes_words_about_point(tokens: &mut TokenReader<'_>, whole: &str, behind: &str) -> bool
    ensures { IsTrue result → TakesPut (whole.now ++ behind.now) tokens.old.place tokens.new.place }
{
    let nowhere = StrRange::new(0, 0);
    let (point, fraction) = split_text(behind, 1);
    if !takes_text(tokens, Token::Key(nowhere), whole) {
        return false;
    }
    if !takes_text(tokens, Token::Dot(nowhere), point) {
        return false;
    }
    takes_text(tokens, Token::Key(nowhere), fraction)
}

// The text up to this byte and from there on; all of it behind nothing where it can't be cut there.
pub(crate) fn split_text(text: &str, at: usize) -> (&str, &str)
    ensures whole { text.now ≡ result.0.now ++ result.1.now }
    ensures text { IsUtf8 result.1.now }
{
    match (text.get(..at), text.get(at..)) {
        (Some(front), Some(behind)) => (front, behind),
        _ => ("", text),
    }
}

// Whether nothing is left of the text.
fn is_at_end(tokens: &mut TokenReader<'_>) -> bool
    ensures { IsTrue result → ahead tokens.old.place ≡ [] }
{
    match tokens.next_token() {
        Ok(_) => false,
        Err(_) => matches!(tokens.to_error(), TokenError::Eof),
    }
}
