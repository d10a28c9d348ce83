//! The names of steps, and the quoted texts of comparisons, at spans of a path text.

ghost use Rattle.std.specs.Prelude.{◌≡◌, ◌==◌, ◌-◌, length, take, map, string_bytes, IfOk, IfSome, MatchOption};
ghost use Rattle.std.specs.Cow.{cow_str_bytes};
ghost use Rattle.std.specs.List.{list_any};
ghost use Rattle.std.specs.Str.{chars, encode_utf8_all, IsUtf8};
ghost use Rattle.jsonpath_paths.specs.text.Characters.{backslash, unescaped, name_of};
ghost use Rattle.jsonpath_paths.specs.text.Spans.{slice_at};
ghost use Rattle.jsonpath_select.specs.Parts.{name_at};

use jsonpath_nodes::NoMemory;
use jsonpath_paths::{StrRange, StrReader};
use std::alloc::Global;
use std::borrow::CowStr;

// The part of the text at a span, or the empty text where the span cuts a character or passes the end.
#[tactic(auto, unfolding(jsonpath_paths::specs::text::Spans::slice_at))]
pub(crate) fn slice_at<'t>(text: &'t str, span: StrRange) -> &'t str
    ensures { result.now ≡ slice_at text.now span }
{
    let end = span.pos.saturating_add(span.offset);
    if text.is_char_boundary(span.pos) && text.is_char_boundary(end) {
        &text[span.pos..end]
    } else {
        ""
    }
}

// Whether a backslash stands in the text.
fn has_backslash(text: &str) -> bool
    ensures { result ≡ list_any (λ c. c == backslash) (chars text.now) }
{
    text.chars().any(|c| c == '\\')
}

// The text without the backslashes that escape the character behind them. A last one that escapes nothing stays.
fn unescaped_text(alloc: Global, text: &str) -> Result<String, NoMemory>
    ensures { IfOk result (λ plain. string_bytes plain ≡ encode_utf8_all (unescaped (chars text.now))) }
{
    let mut plain = String::new(alloc);
    let mut is_escaped = false;
    let mut reader = StrReader::new(text);
    while let Ok((_, c)) = reader.next_char() {
        if c == '\\' && !is_escaped {
            is_escaped = true;
        } else {
            plain.push(c)?;
            is_escaped = false;
        }
    }
    if is_escaped {
        plain.push('\\')?;
    }
    Ok(plain)
}

// The text without its last character.
fn without_last_character(text: &str) -> &str
    ensures { chars result.now ≡ take (length (chars text.now) - 1) (chars text.now) }
{
    let mut chars = text.chars();
    chars.next_back();
    chars.as_str()
}

// What stands between the quotes of a quoted text; None where the text begins with no quote.
fn inside_quotes(text: &str) -> Option<&str>
    ensures { MatchOption result (name_of (chars text.now) ≡ chars text.now) (λ s. (name_of (chars text.now) ≡ unescaped (chars s.now)) × IsUtf8 s.now) }
{
    let mut inside = text.chars();
    match inside.next() {
        Some('"' | '\'') => Some(without_last_character(inside.as_str())),
        _ => None,
    }
}

/// Borrows the name or quoted text at a span of a path text, without its quotes. The span is a byte position, from 0,
/// and a length in bytes. `None` if a quoted text has a backslash, as in `'a\'b'`. If the span begins or ends inside a
/// character, or exceeds the text, the result is `Some("")`.
///
/// ```text
/// let name = borrowed_name_at("$['a']", StrRange::new(2, 3));
/// assert!(rt; name == Some("a"));
/// ```
pub fn borrowed_name_at(text: &str, span: StrRange) -> Option<&str>
    ensures { IfSome result (λ name. name.now ≡ name_at text.now span) }
{
    let whole = slice_at(text, span);
    match inside_quotes(whole) {
        Some(inner) => {
            if has_backslash(inner) {
                None
            } else {
                Some(inner)
            }
        }
        None => Some(whole),
    }
}

// A copy of what a word or a quoted text means: without its quotes and the backslashes that escape.
fn copied_name(alloc: Global, whole: &str) -> Result<String, NoMemory>
    ensures { IfOk result (λ name. string_bytes name ≡ encode_utf8_all (name_of (chars whole.now))) }
{
    match inside_quotes(whole) {
        Some(inner) => unescaped_text(alloc, inner),
        None => Ok(String::from_str(alloc, whole)?),
    }
}

// The name or text that the word or quoted text at a span means. It is copied only where a backslash goes.
pub(crate) fn name_at<'t>(
    alloc: Global,
    text: &'t str,
    span: StrRange,
) -> Result<CowStr<'t, Global>, NoMemory>
    ensures { IfOk result (λ name. cow_str_bytes name ≡ name_at text.now span) }
{
    match borrowed_name_at(text, span) {
        Some(plain) => Ok(CowStr::Borrowed(plain)),
        None => Ok(CowStr::Owned(copied_name(alloc, slice_at(text, span))?)),
    }
}

// The names or texts that the words and quoted texts at the spans mean, in their order.
pub(crate) fn names_at<'t>(
    alloc: Global,
    text: &'t str,
    spans: &[StrRange],
) -> Result<Vec<CowStr<'t, Global>>, NoMemory>
    ensures { IfOk result (λ names. map cow_str_bytes names.items ≡ map (name_at text.now) spans.now) }
{
    let mut names = Vec::new(alloc);
    for span in spans {
        names.push(name_at(alloc, text, *span)?)?;
    }
    Ok(names)
}
