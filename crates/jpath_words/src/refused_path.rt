//! How a syntax error in a path is printed: the text, a caret under the position, and a hint.

ghost use Rattle.std.specs.Prelude.{IfOk, string_bytes};
ghost use Rattle.jpath_words.specs.Refusals.{ShowsPath};

use crate::hints::hint_for_refused_path;
use jsonpath_paths::{Expected, Kind, PathParser, TokenError, Tokenizer, expected_tokens};
use std::alloc::{AllocError, Global};
use unicode_width::UnicodeWidthStr;

// Prints on standard error why a path text is no path: the text, a caret under the position of the syntax error, what
// could have been there, and a hint, if there is one. If memory runs out, it prints `out of memory` instead.
pub(crate) fn tell_refused_path(
    rt: &(impl Eprint + Alloc<A = Global>),
    path: &str,
    error: &TokenError,
) {
    match refused_path_text(rt.alloc(), path, error) {
        Ok(text) => {
            let text = text.as_str();
            let _ = eprint!(rt; "{text}");
        }
        Err(AllocError) => {
            let _ = eprintln!(rt; "jpath: out of memory");
        }
    }
}

// What `tell_refused_path` prints. The only error is that memory runs out.
fn refused_path_text(alloc: Global, path: &str, error: &TokenError) -> Result<String, AllocError>
    ensures { IfOk result (λ text. ShowsPath path.now (string_bytes text)) }
{
    if let TokenError::OutOfMemory = error {
        return Err(AllocError);
    }
    let at = refused_position(alloc, path, error);
    let before = path.get(..at).unwrap_or(path);
    let what = if at < path.len() {
        "has an error here"
    } else {
        "ends too early"
    };
    let blanks = row_of_blanks(alloc, before.width())?;
    let expected = expected_line(alloc, path)?;
    let hint = hint_line(alloc, path, at)?;
    let (blanks, expected, hint) = (blanks.as_str(), expected.as_str(), hint.as_str());
    format!(in alloc; "jpath: the path {what}\n  {path}\n  {blanks}^\n{expected}{hint}")
}

// The row with what could have been at the error of a path text, or an empty text if it is a path.
fn expected_line(alloc: Global, path: &str) -> Result<String, AllocError> {
    let mut line = String::new(alloc);
    let Some(expected) = expected_tokens(alloc, path)? else {
        return Ok(line);
    };
    let mut before = "expected: ";
    for token in expected.tokens.iter() {
        let words = words_for(token);
        if !words.is_empty() {
            line.push_str(before)?;
            line.push_str(words)?;
            before = ", ";
        }
    }
    if expected.end {
        line.push_str(before)?;
        line.push_str("the end")?;
    }
    line.push('\n')?;
    Ok(line)
}

// How tokens are named that could have been at an error. Empty for blanks, and where others of the same words are named.
fn words_for(expected: &Expected) -> &'static str {
    match expected {
        Expected::Index => "an index",
        Expected::RangeStep => "a step",
        Expected::Literal => "a number, true or false",
        Expected::Fraction => "digits",
        Expected::Token(kind) => words_for_kind(*kind),
    }
}

fn words_for_kind(kind: Kind) -> &'static str {
    match kind {
        Kind::Absolute => "\"$\"",
        Kind::At => "\"@\"",
        Kind::Dot => "\".\"",
        Kind::OpenArray => "\"[\"",
        Kind::CloseArray => "\"]\"",
        Kind::Asterisk => "\"*\"",
        Kind::Question => "\"?\"",
        Kind::SingleQuoted => "a quoted text",
        Kind::Comma => "\",\"",
        Kind::Split => "\":\"",
        Kind::OpenParenthesis => "\"(\"",
        Kind::CloseParenthesis => "\")\"",
        Kind::Equal => "a comparison",
        Kind::And => "\"&&\"",
        Kind::Or => "\"||\"",
        Kind::Key => "a name",
        _ => "",
    }
}

// The row with a hint, or an empty text if there is none.
fn hint_line(alloc: Global, path: &str, at: usize) -> Result<String, AllocError> {
    let hint = hint_for_refused_path(alloc, path, at)?;
    if hint.is_empty() {
        return Ok(hint);
    }
    let hint = hint.as_str();
    format!(in alloc; "hint: {hint}\n")
}

// A text of so many blanks, which puts the caret under its place.
fn row_of_blanks(alloc: Global, count: usize) -> Result<String, AllocError> {
    let mut blanks = String::new(alloc);
    for _ in 0..count {
        blanks.push(' ')?;
    }
    Ok(blanks)
}

// The byte under which the caret of a refused path stands: where the refused token begins, or a quoted text that isn't
// closed; the text's length where it ends too early.
fn refused_position(alloc: Global, path: &str, error: &TokenError) -> usize {
    match error {
        TokenError::Position(end) => start_of_token_ending_at(path, *end),
        TokenError::Eof => match is_last_token_refused(alloc, path) {
            Ok(true) => start_of_token_ending_at(path, path.len()),
            _ => unclosed_quote_start(path).unwrap_or(path.len()),
        },
        TokenError::OutOfMemory => path.len(),
    }
}

// Whether the last token of a refused text is itself refused, so that nothing written behind it makes the text a path;
// false where only something is missing behind it.
fn is_last_token_refused(alloc: Global, path: &str) -> Result<bool, AllocError> {
    let mut longer = String::from_str(alloc, path)?;
    longer.push(' ')?;
    let refused = PathParser::compile(alloc, longer.as_str());
    Ok(matches!(refused, Err(TokenError::Position(end)) if end == path.len()))
}

// The byte at which the first token begins that ends at this byte or behind it; where there is no such token, the
// character that ends there.
fn start_of_token_ending_at(path: &str, end: usize) -> usize {
    let mut tokens = Tokenizer::new(path);
    for _ in 0..path.len() {
        match tokens.next_token() {
            Ok(token) => {
                let span = token.span();
                if span.pos.saturating_add(span.offset) >= end {
                    return span.pos;
                }
            }
            Err(_) => break,
        }
    }
    start_of_char_ending_at(path, end)
}

// The byte at which the character begins that ends at this byte.
fn start_of_char_ending_at(path: &str, end: usize) -> usize {
    let mut start = 0;
    for (at, _) in path.char_indices() {
        if at < end {
            start = at;
        }
    }
    start
}

// The byte of the quote that opens a text which isn't closed. `None` where there is none.
fn unclosed_quote_start(path: &str) -> Option<usize> {
    let mut tokens = Tokenizer::new(path);
    let mut end = 0usize;
    for _ in 0..path.len() {
        match tokens.next_token() {
            Ok(token) => {
                let span = token.span();
                end = span.pos.saturating_add(span.offset);
            }
            Err(_) => break,
        }
    }
    let rest = path.get(end..)?;
    if rest.starts_with('\'') || rest.starts_with('"') {
        Some(end)
    } else {
        None
    }
}
