//! Whether a list of tokens is the token list of a path, found in one pass over it with a stack of what is open or
//! complete so far; and whether a text has names at its spans.

ghost use Rattle.std.specs.Prelude.{◌≡◌, ◌↔◌, IsTrue, Some, IfOk, IfErr};
ghost use Rattle.std.specs.List.{list_all};
ghost use Rattle.jsonpath_paths.specs.tree.WellFormed.{is_literal};
ghost use Rattle.jsonpath_paths.specs.Listed.{is_name_at, has_names_of_token, IsSomePath};
ghost use Rattle.jsonpath_select.specs.plan.Fits.{may_stand_alone_in_brackets, may_stand_in_brackets, is_term_entry, is_condition_entry, takes_dots, takes_array, on_top, may_join, worded, ended, operated, fits, is_one_path_from_root, is_token_list_of_path};
ghost use Rattle.jsonpath_select.specs.plan.Entries.{entry_of, entries_of, Took, name_span};

use crate::error::JsonPathError;
use crate::step::index::decimal_to_index;
use crate::step::names::slice_at;
use jsonpath_nodes::NoMemory;
use jsonpath_paths::{FilterToken, ParseToken, StrRange, Token, Tokenizer};
use std::alloc::Global;

// What stands on the stack of that pass. `absolute`: a path begins at the root; `leaves`: `..` stands behind it.
#[derive(Clone, Copy)]
pub enum Entry {
    // A path.
    Ready { absolute: bool },
    // A path with dots behind it.
    Dotted { absolute: bool, leaves: bool },
    // A path with an open bracket behind it, or with `..` and an open bracket.
    Opened { absolute: bool, leaves: bool },
    // A plain step or a literal behind no dots: whether it may stand alone in brackets, or beside a comparison.
    StepOrLiteral { alone: bool, term: bool },
    // A comparison, or conditions joined.
    Logical,
}

/// Whether the text and the tokens can be passed to `select_tokens`, which selects by a path's token list (its syntax
/// tree written as a list). True exactly if `tokens` is some path's token list, however deeply nested, and `text` has a
/// name, quoted or not, at each span in `tokens`. The text need not be a path. The only error: `OutOfMemory`.
///
/// ```text
/// let tokens = [ParseToken::Absolute, ParseToken::In, ParseToken::Key(StrRange::new(2, 1))];
/// assert!(rt; tokens_fit(alloc, "$.a", &tokens)?);
/// assert!(rt; !tokens_fit(alloc, "$.a", &[])?);
/// ```
pub fn tokens_fit(alloc: Global, text: &str, tokens: &[ParseToken]) -> Result<bool, JsonPathError>
    ensures fits { IfOk result (λ fit. IsTrue fit ↔ IsSomePath text.now tokens.now) }
    ensures refused { IfErr result (λ e. e ≡ JsonPathError.OutOfMemory) }
{
    if !has_names_of_tokens(text, tokens) {
        return Ok(false);
    }
    let fit = is_token_list_of_path(alloc, tokens)?;
    Ok(fit)
}

// The span of the token, if it is a word or a text in quotes.
fn name_span(token: Token) -> Option<StrRange>
    ensures { result ≡ name_span token }
{
    match token {
        Token::Key(span) => Some(span),
        Token::DoubleQuoted(span) => Some(span),
        Token::SingleQuoted(span) => Some(span),
        _ => None,
    }
}

// Whether the text has a word, or a text in quotes, at the span.
fn is_name_at(text: &str, span: StrRange) -> bool
    ensures { result ≡ is_name_at text.now span }
{
    let part = slice_at(text, span);
    match Tokenizer::new(part).next_token() {
        Ok(token) => match name_span(token) {
            Some(found) => found.offset == part.len(),
            None => false,
        },
        Err(_) => false,
    }
}

// Whether the text has a word, or a text in quotes, at each of the spans.
fn are_names_at(text: &str, spans: &[StrRange]) -> bool
    ensures { result ≡ list_all (is_name_at text.now) spans.now }
{
    spans.iter().all(|span| is_name_at(text, *span))
}

// Whether the text has a word, or a text in quotes, at each span of the token.
fn has_names_of_token(text: &str, token: &ParseToken) -> bool
    ensures { result ≡ has_names_of_token text.now token.now }
{
    match token {
        ParseToken::Key(span) => is_name_at(text, *span),
        ParseToken::Keys(spans) => are_names_at(text, spans.as_slice()),
        _ => true,
    }
}

// Whether the text has a word, or a text in quotes, at each span of all tokens.
fn has_names_of_tokens(text: &str, tokens: &[ParseToken]) -> bool
    ensures { result ≡ list_all (has_names_of_token text.now) tokens.now }
{
    tokens.iter().all(|token| has_names_of_token(text, token))
}

// Takes in `.`, or `..` where `leaves` is set, behind the path on top of the stack; false where no path is there.
fn accept_dots(leaves: bool, entries: &mut Vec<Entry>) -> Result<bool, NoMemory>
    ensures { IfOk result (λ ok. Took ok entries.new.items (on_top (takes_dots leaves) (entries_of entries.old.items))) }
{
    match entries.pop() {
        Some(Entry::Ready { absolute }) => {
            entries.push(Entry::Dotted { absolute, leaves })?;
            Ok(true)
        }
        _ => Ok(false),
    }
}

// Takes in a bracket that opens behind the path on top of the stack, or behind its `..`; false where neither is there.
fn accept_open_bracket(entries: &mut Vec<Entry>) -> Result<bool, NoMemory>
    ensures { IfOk result (λ ok. Took ok entries.new.items (on_top takes_array (entries_of entries.old.items))) }
{
    let (absolute, leaves) = match entries.pop() {
        Some(Entry::Ready { absolute }) => (absolute, false),
        Some(Entry::Dotted { absolute, leaves }) if leaves => (absolute, true),
        _ => return Ok(false),
    };
    entries.push(Entry::Opened { absolute, leaves })?;
    Ok(true)
}

// Takes in a closing bracket: the stack's top becomes a step of the path below; false if unfit or none is open.
fn accept_close_bracket(entries: &mut Vec<Entry>) -> Result<bool, NoMemory>
    ensures { IfOk result (λ ok. Took ok entries.new.items (ended (entries_of entries.old.items))) }
{
    match (entries.pop(), entries.pop()) {
        (Some(inner), Some(Entry::Opened { absolute, .. })) if may_stand_in_brackets(inner) => {
            entries.push(Entry::Ready { absolute })?;
            Ok(true)
        }
        _ => Ok(false),
    }
}

// Takes in a comparison, `&&` or `||`: the stack's top two entries become a condition; false if missing or unfit.
fn accept_operator(op: FilterToken, entries: &mut Vec<Entry>) -> Result<bool, NoMemory>
    ensures { IfOk result (λ ok. Took ok entries.new.items (operated op (entries_of entries.old.items))) }
{
    match (entries.pop(), entries.pop()) {
        (Some(right), Some(left)) if may_stand_beside_operator(op, left, right) => {
            entries.push(Entry::Logical)?;
            Ok(true)
        }
        _ => Ok(false),
    }
}

// Whether both sides may stand beside the operator: terms beside a comparison, conditions beside `&&` and `||`.
fn may_stand_beside_operator(op: FilterToken, left: Entry, right: Entry) -> bool
    ensures { result ≡ may_join op (entry_of left) (entry_of right) }
{
    if op.is_comparison() {
        is_term_entry(left) && is_term_entry(right)
    } else {
        is_condition_entry(left) && is_condition_entry(right)
    }
}

// Takes in a token that is a plain step or a literal (names, indexes, a range, `*`, a number or a truth): behind dots
// it is a step of the path, else an entry by itself. False where it may not stand behind the dots.
fn accept_plain_step_or_literal(
    token: &ParseToken,
    entries: &mut Vec<Entry>,
) -> Result<bool, NoMemory>
    ensures { IfOk result (λ ok. Took ok entries.new.items (worded token.now (entries_of entries.old.items))) }
{
    match entries.pop() {
        Some(Entry::Dotted { absolute, .. }) => match token {
            ParseToken::All | ParseToken::Key(_) => {
                entries.push(Entry::Ready { absolute })?;
                Ok(true)
            }
            _ => Ok(false),
        },
        below => {
            if let Some(entry) = below {
                entries.push(entry)?;
            }
            entries.push(Entry::StepOrLiteral {
                alone: may_stand_alone_in_brackets(token),
                term: is_literal(token),
            })?;
            Ok(true)
        }
    }
}

// Takes in the next token of the list; false where it can't follow what is on the stack.
fn accept_token(token: &ParseToken, entries: &mut Vec<Entry>) -> Result<bool, NoMemory>
    ensures { IfOk result (λ ok. Took ok entries.new.items (fits token.now (entries_of entries.old.items))) }
{
    match token {
        ParseToken::Absolute => {
            entries.push(Entry::Ready { absolute: true })?;
            Ok(true)
        }
        ParseToken::Relative => {
            entries.push(Entry::Ready { absolute: false })?;
            Ok(true)
        }
        ParseToken::In => accept_dots(false, entries),
        ParseToken::Leaves => accept_dots(true, entries),
        ParseToken::Array => accept_open_bracket(entries),
        ParseToken::ArrayEof => accept_close_bracket(entries),
        ParseToken::Filter(op) => accept_operator(*op, entries),
        ParseToken::Eof => Ok(false),
        _ => accept_plain_step_or_literal(token, entries),
    }
}

// Whether the tokens are the list of one path, told by one pass over them.
fn is_token_list_of_path(alloc: Global, tokens: &[ParseToken]) -> Result<bool, NoMemory>
    ensures { IfOk result (λ fit. fit ≡ is_token_list_of_path tokens.now) }
{
    let mut entries = Vec::new(alloc);
    for token in tokens {
        let ok = accept_token(token, &mut entries)?;
        if !ok {
            return Ok(false);
        }
    }
    Ok(is_one_path_from_root(entries.as_slice()))
}

// Whether one path from the root is left on the stack, and nothing else.
fn is_one_path_from_root(entries: &[Entry]) -> bool
    ensures { result ≡ is_one_path_from_root (Some (entries_of entries.now)) }
{
    matches!(entries, [Entry::Ready { absolute: true }])
}

// Whether an entry of the stack may stand between brackets, as a plain step or as the condition of a filter.
fn may_stand_in_brackets(entry: Entry) -> bool
    ensures { result ≡ may_stand_in_brackets (entry_of entry) }
{
    match entry {
        Entry::Ready { absolute } => !absolute,
        Entry::StepOrLiteral { alone, .. } => alone,
        Entry::Logical => true,
        _ => false,
    }
}

// Whether the entry may stand beside a comparison: a path, or a literal.
fn is_term_entry(entry: Entry) -> bool
    ensures { result ≡ is_term_entry (entry_of entry) }
{
    match entry {
        Entry::Ready { .. } => true,
        Entry::StepOrLiteral { term, .. } => term,
        _ => false,
    }
}

// Whether the entry may stand beside `&&` and `||`: a path from the candidate, or a condition.
fn is_condition_entry(entry: Entry) -> bool
    ensures { result ≡ is_condition_entry (entry_of entry) }
{
    match entry {
        Entry::Ready { absolute } => !absolute,
        Entry::Logical => true,
        _ => false,
    }
}

// Whether the token may stand alone between brackets, as a plain step.
fn may_stand_alone_in_brackets(token: &ParseToken) -> bool
    ensures { result ≡ may_stand_alone_in_brackets token.now }
{
    match token {
        ParseToken::All => true,
        ParseToken::Key(_) => true,
        ParseToken::Keys(spans) => 2 <= spans.as_slice().len(),
        ParseToken::Union(indexes) => 2 <= indexes.as_slice().len(),
        ParseToken::Range(_, _, _) => true,
        ParseToken::Number(decimal) => decimal_to_index(*decimal).is_some(),
        _ => false,
    }
}

// Whether the token may stand beside a comparison as a literal.
fn is_literal(token: &ParseToken) -> bool
    ensures { result ≡ is_literal token.now }
{
    matches!(
        token,
        ParseToken::Key(_) | ParseToken::Number(_) | ParseToken::Bool(_)
    )
}
