//! Hints on what to write in place of a path with a syntax error, and a warning about `&&` beside `||`.

ghost use Rattle.std.specs.Prelude.{◌≢◌, IfOk, IfSome, slice_index, string_bytes};
ghost use Rattle.jpath_words.specs.Refusals.{BeginsWithRoot, EndsWithPath};
ghost use Rattle.jsonpath_paths.specs.Spelling.{IsInGrammar};

mod other_tools;
mod quotes;

use crate::hints::other_tools::{hint_to_begin_with_root, sentence_for_other_tool};
use crate::hints::quotes::{STRAIGHT_QUOTES, has_unquoted, is_quote, replace_unquoted};
use jsonpath_paths::{PathParser, Token, Tokenizer};
use std::alloc::{AllocError, Global};

const NO_NULL: &str = "a filter can't ask for null; (@.a) keeps what has the name a, null or not";

const NO_VALUE: &str =
    "a comparison has a value on each side: a path, a number or a text in quotes";

const NO_NOT: &str =
    "there is no `!`: no filter asks for what is missing; write != for ==, or >= for <";

const NO_MATCH: &str =
    "there are no regular expressions: compare with ==, or filter the lines by grep";

const NO_FUNCTION: &str =
    "there are no functions in a path: jpath --lengths '$.a' tells a length, jpath -c counts the matches";

const NO_LIST: &str = "several paths are given by -e: jpath -e '$.a' -e '$.b'";

const NO_IN: &str = "there is no `in`: write == for each text, joined by ||";

const NO_CALL: &str =
    "there are no functions in a filter: compare with == or <, or filter the lines by grep";

const NO_BETWEEN: &str = "a range is two comparisons: @.a >= 1 && @.a <= 9";

const NO_AND: &str = "conditions are joined by && and ||: [?(@.a && @.b)]";

const NO_SUM: &str = "a path computes nothing: write the number itself";

const NO_BACKWARDS: &str = "a range has no negative step: it never runs backwards";

const NO_MIXTURE: &str = "a list has names alone, or indexes alone";

const NO_SUCH_INDEX: &str = "an index is a whole number of 64 bits";

const NOT_CLOSED: &str = "the quoted text isn't closed";

const NO_ARGUMENT: &str =
    "--arg NAME TEXT puts a text in place of {NAME}, --argjson NAME NUMBER a number";

const NO_NUMBER: &str =
    "a number has digits on both sides of its point, no comma and no exponent: 0.5, 1000";

const NO_QUOTES: &str = "a text in a filter needs quotes: @.name == 'Moby Dick'";

const NO_BRACKETS: &str = "a name with a blank needs brackets and quotes: $['first name']";

const PARENTHESES: &str = "a filter's condition is written in parentheses: [?(@.price < 10)]";

const AND: [(&str, &str); 2] = [(" and ", " && "), (" AND ", " && ")];

const OR: [(&str, &str); 2] = [(" or ", " || "), (" OR ", " || ")];

// What is written instead of signs of another language, wherever they stand outside of quoted texts, and why.
const SIGNS: [(&[(&str, &str)], &str); 6] = [
    (&STRAIGHT_QUOTES, "a quoted text has ' or \" on both sides"),
    (&[("===", "==")], "equal is written =="),
    (&[("!==", "!="), ("<>", "!=")], "not equal is written !="),
    (&AND, "conditions are joined by &&"),
    (&OR, "conditions are joined by ||"),
    (&[("/", ".")], "names are separated by dots"),
];

// What other languages have where nothing is.
const NULLS: [&str; 4] = ["null", "NULL", "None", "undefined"];

// What is said of a path that has this outside of quoted texts.
const PARTS: [(&str, &str); 5] = [
    ("=~", NO_MATCH),
    ("~=", NO_MATCH),
    ("match(", NO_MATCH),
    ("search(", NO_MATCH),
    ("length(", NO_FUNCTION),
];

// What is said of a filter with an error where these words begin, in capitals or not.
const WORDS: [(&str, &str); 10] = [
    ("in ", NO_IN),
    ("not ", NO_NOT),
    ("like ", NO_MATCH),
    ("is null", NO_NULL),
    ("is not null", NO_NULL),
    ("contains ", NO_CALL),
    ("includes ", NO_CALL),
    ("between ", NO_BETWEEN),
    ("and ", NO_AND),
    ("or ", NO_AND),
];

// What is written instead of a wrong text at the error, and why.
const REPLACEMENTS: [(&str, &str, &str); 15] = [
    ("=>", ">=", "greater or equal is >="),
    ("=<", "<=", "less or equal is <="),
    ("=", "==", "a comparison has two equals signs"),
    ("&", "&&", "conditions are joined by &&"),
    ("|", "||", "conditions are joined by ||"),
    ("]", "*]", "all children are [*]"),
    ("]", ")]", "a [?( is closed by )]"),
    (
        "?",
        "",
        "a member that is missing is passed over, without a ?",
    ),
    (
        "(@.length-1)",
        "-1",
        "an index below zero counts from the end",
    ),
    ("last()", "-1", "an index below zero counts from the end"),
    ("(", "?(", "a filter has ? before its parentheses"),
    (" ", "", "no blank is allowed here"),
    ("$", "$.", "a dot comes between $ and a name"),
    ("", "]", "a [ is closed by ]"),
    ("", ")]", "a [?( is closed by )]"),
];

/// A sentence on what to write instead of a path text with a syntax error, or an empty text if no hint is known; `at`
/// is the number of bytes before the wrong token. If the sentence proposes a path, that path has no syntax error. The
/// only error is that memory runs out.
pub fn hint_for_refused_path(alloc: Global, path: &str, at: usize) -> Result<String, AllocError>
    ensures { IfOk result (λ hint. slice_index path.now 0 ≢ 36 → BeginsWithRoot (string_bytes hint)) }
{
    if !path.starts_with('$') {
        return hint_to_begin_with_root(alloc, path);
    }
    let before = path.get(..at).unwrap_or("");
    let rest = path.get(at..).unwrap_or("");
    if let Some(hint) = hint_with_path(alloc, path, before, rest)? {
        return Ok(hint);
    }
    if let Some(sentence) = hint_for_unsupported_syntax(path, before, rest) {
        return String::from_str(alloc, sentence);
    }
    if !is_name_with_blank(before, rest) {
        return Ok(String::new(alloc));
    }
    match hint_to_quote_name_with_blank(alloc, before, rest)? {
        Some(hint) => Ok(hint),
        None => String::from_str(alloc, NO_BRACKETS),
    }
}

// A hint that proposes a path in place of the refused one. `None` where none is found that is one.
fn hint_with_path(
    alloc: Global,
    path: &str,
    before: &str,
    rest: &str,
) -> Result<Option<String>, AllocError>
    ensures { IfOk result (λ o. IfSome o (λ hint. EndsWithPath (string_bytes hint))) }
{
    if let Some(hint) = hint_to_quote_names(alloc, before, rest)? {
        return Ok(Some(hint));
    }
    if let Some(hint) = hint_to_replace(alloc, before, rest)? {
        return Ok(Some(hint));
    }
    if let Some(hint) = hint_to_quote_text(alloc, path, before, rest)? {
        return Ok(Some(hint));
    }
    let front = before.trim_end();
    if front.len() < before.len() && !is_name_with_blank(before, rest) {
        return hint_if_path(alloc, "no blank is allowed here", front, "", rest);
    }
    match path_with_parentheses(alloc, path)? {
        Some(fixed) => {
            hint_if_path(
                alloc,
                "a filter's condition is written in parentheses",
                fixed.as_str(),
                "",
                "",
            )
        }
        None => Ok(None),
    }
}

// The hint with the first of the replacements that makes a path of the text.
fn hint_to_replace(alloc: Global, before: &str, rest: &str) -> Result<Option<String>, AllocError>
    ensures { IfOk result (λ o. IfSome o (λ hint. EndsWithPath (string_bytes hint))) }
{
    let mut fixed = format!(in alloc; "{before}{rest}")?;
    for (signs, sentence) in &SIGNS {
        fixed = replace_unquoted(alloc, fixed.as_str(), *signs)?;
        if let Some(hint) = hint_if_path(alloc, *sentence, fixed.as_str(), "", "")? {
            return Ok(Some(hint));
        }
    }
    for (wrong, right, sentence) in &REPLACEMENTS {
        if let Some(tail) = rest.strip_prefix(*wrong) {
            if let Some(hint) = hint_if_path(alloc, *sentence, before, *right, tail)? {
                return Ok(Some(hint));
            }
        }
    }
    Ok(None)
}

// The hint for bare names in brackets, `[a]` or `[a,b]`: to write each in quotes.
fn hint_to_quote_names(
    alloc: Global,
    before: &str,
    rest: &str,
) -> Result<Option<String>, AllocError>
    ensures { IfOk result (λ o. IfSome o (λ hint. EndsWithPath (string_bytes hint))) }
{
    let Some((names, tail)) = rest.split_once("]") else {
        return Ok(None);
    };
    if !before.ends_with('[') || !is_bare(names) {
        return Ok(None);
    }
    let mut quoted = String::new(alloc);
    for name in names.split(",") {
        if !quoted.is_empty() {
            quoted.push(',')?;
        }
        quoted.push('\'')?;
        quoted.push_str(name.trim())?;
        quoted.push('\'')?;
    }
    quoted.push(']')?;
    hint_if_path(
        alloc,
        "a name in brackets needs quotes",
        before,
        quoted.as_str(),
        tail,
    )
}

// The hint for a name with blanks behind a dot: to write it in brackets and quotes.
fn hint_to_quote_name_with_blank(
    alloc: Global,
    before: &str,
    rest: &str,
) -> Result<Option<String>, AllocError>
    ensures { IfOk result (λ o. IfSome o (λ hint. EndsWithPath (string_bytes hint))) }
{
    let at = before.rfind(".").unwrap_or(0);
    let front = before.get(..at).unwrap_or("");
    let begun = before.get(at..).unwrap_or("").trim_start_matches('.');
    if !begun.chars().all(|c| is_of_name(c) || c == ' ') {
        return Ok(None);
    }
    let behind = rest.trim_start_matches(|c: char| is_of_name(c) || c == ' ');
    let length = rest.len().saturating_sub(behind.len());
    let named = rest.get(..length).unwrap_or("");
    let ended = named.trim_end();
    let end = ended.len();
    let dot = if front.ends_with('.') { "." } else { "" };
    let fixed = format!(in alloc;
        "{front}{dot}['{begun}{ended}']{}",
        rest.get(end..).unwrap_or("")
    )?;
    hint_if_path(
        alloc,
        "a name with a blank needs brackets and quotes",
        fixed.as_str(),
        "",
        "",
    )
}

// The hint for a text without quotes behind a comparison sign, `== cod` or `> 10.day`: to write it in quotes.
fn hint_to_quote_text(
    alloc: Global,
    path: &str,
    before: &str,
    rest: &str,
) -> Result<Option<String>, AllocError>
    ensures { IfOk result (λ o. IfSome o (λ hint. EndsWithPath (string_bytes hint))) }
{
    let Some(compared) = compared_text(path, before) else {
        return Ok(None);
    };
    let text = compared.text;
    if is_no_text(text) || rest.starts_with('{') || is_number_of_json(text) {
        return Ok(None);
    }
    let quoted = format!(in alloc; "'{text}'")?;
    hint_if_path(
        alloc,
        "a text in a filter needs quotes",
        compared.front,
        quoted.as_str(),
        compared.tail,
    )
}

// A text without quotes that is compared, and the path before and behind it.
#[derive(Clone, Copy, Drop)]
struct ComparedText<'p> {
    front: &'p str,
    text: &'p str,
    tail: &'p str,
}

// The text without quotes behind a comparison sign in which a path is refused, where `before` ends. `None` where there
// is none.
fn compared_text<'p>(path: &'p str, before: &'p str) -> Option<ComparedText<'p>> {
    let front = before.trim_end_matches(|c: char| !is_end_of_text(c));
    if !ends_with_comparison(front) {
        return None;
    }
    let compared = path.get(front.len()..).unwrap_or("");
    let tail = compared.trim_start_matches(|c: char| !is_end_of_text(c));
    let length = compared.len().saturating_sub(tail.len());
    let text = compared.get(..length).unwrap_or("");
    Some(ComparedText { front, text, tail })
}

// Whether the text ends with a comparison sign, and blanks behind it at most.
fn ends_with_comparison(text: &str) -> bool {
    text.trim_end()
        .ends_with(|c: char| c == '=' || c == '<' || c == '>')
}

// Whether the text is empty, or what other languages have where nothing is.
fn is_no_text(text: &str) -> bool {
    text.is_empty() || NULLS.iter().any(|null| text == *null)
}

// Whether the text is a number that JSON or people have, and a path has not: `.5`, `5.`, `1e2`, `8,95`.
fn is_number_of_json(text: &str) -> bool {
    let is_open = text.starts_with('.') || text.ends_with('.');
    (is_open || text.contains(|c: char| matches!(c, 'e' | 'E' | ',')))
        && text.find(".") == text.rfind(".")
        && text.contains(|c: char| c.is_ascii_digit())
        && text.starts_with(|c: char| c.is_ascii_digit() || c == '.')
        && text.chars().all(|c| c.is_ascii_digit()
            || matches!(c, '.' | ',' | 'e' | 'E' | '+' | '-'))
}

// Whether a word ends before blanks at the end of `before`, and another begins `rest`.
fn is_name_with_blank(before: &str, rest: &str) -> bool {
    let front = before.trim_end();
    front.len() < before.len()
        && front.ends_with(|c: char| is_of_name(c))
        && rest.starts_with(|c: char| is_of_name(c))
}

fn is_of_name(c: char) -> bool {
    c.is_alphanumeric() || c == '_'
}

// Whether a text without quotes that is compared ends before this character, or begins behind it.
fn is_end_of_text(c: char) -> bool {
    c.is_whitespace() || is_quote(c) || matches!(c, '=' | '<' | '>' | '&' | '|' | '(' | ')')
}

// Whether a text in brackets can be bare names: it has a letter, and no sign of another form.
fn is_bare(names: &str) -> bool {
    names.contains(|c: char| c.is_alphabetic() || c == '_')
        && !names.contains(|c: char| {
            is_quote(c) || matches!(c, '(' | '$' | '{' | '@' | '=' | '<' | '>')
        })
}

// The sentence and the path that these three texts make, if they make one.
fn hint_if_path(
    alloc: Global,
    sentence: &str,
    front: &str,
    put: &str,
    tail: &str,
) -> Result<Option<String>, AllocError>
    ensures { IfOk result (λ o. IfSome o (λ hint. EndsWithPath (string_bytes hint))) }
{
    let fixed = format!(in alloc; "{front}{put}{tail}")?;
    let fixed = fixed.as_str();
    match PathParser::compile(alloc, fixed) {
        Ok(_) => {
            let hint = format!(in alloc; "{sentence}: {fixed}")?;
            Ok(Some(hint))
        }
        Err(_) => Ok(None),
    }
}

// The path text with parentheses about the condition of its first filter, as `[?(..)]`, also for `[@..]`. `None` where it
// has no filter, where they stand there, or where it is no path with them.
fn path_with_parentheses(alloc: Global, path: &str) -> Result<Option<String>, AllocError>
    ensures { IfOk result (λ o. IfSome o (λ fixed. IsInGrammar (string_bytes fixed))) }
{
    let path = replace_unquoted(alloc, path, &[("[@", "[?@")])?;
    let Some((front, rest)) = path.as_str().split_once("[?") else {
        return Ok(None);
    };
    if rest.starts_with('(') {
        return Ok(None);
    }
    for close in [rest.find("]"), rest.rfind("]")] {
        let close = close.unwrap_or(0);
        let condition = rest.get(..close).unwrap_or("");
        let tail = rest.get(close..).unwrap_or("");
        let fixed = format!(in alloc; "{front}[?({condition}){tail}")?;
        if PathParser::compile(alloc, fixed.as_str()).is_ok() {
            return Ok(Some(fixed));
        }
    }
    Ok(None)
}

// The sentence for what other JSONPaths have and this one has not, or writes otherwise. `before` and `rest` are the text
// up to the error and from there. `None` where it is none of them.
fn hint_for_unsupported_syntax(path: &str, before: &str, rest: &str) -> Option<&'static str> {
    let has_filter = path.contains("[?");
    if !has_filter && !rest.starts_with(|c: char| is_of_name(c) || matches!(c, '(' | '\'' | '"')) {
        if let Some(sentence) = sentence_for_other_tool(rest) {
            return Some(sentence);
        }
    }
    let compared = rest.trim_start_matches('=').trim_start();
    if NULLS.iter().any(|null| compared.starts_with(*null)) {
        return Some(NO_NULL);
    }
    if rest.starts_with('{') {
        return Some(NO_ARGUMENT);
    }
    for (part, sentence) in &PARTS {
        if has_unquoted(path, *part) {
            return Some(*sentence);
        }
    }
    if rest.starts_with('(') && has_filter && before.ends_with(|c: char| is_of_name(c)) {
        return Some(NO_CALL);
    }
    if rest.starts_with("()") || (rest.starts_with('(') && !has_filter) {
        return Some(NO_FUNCTION);
    }
    for (words, sentence) in &WORDS {
        let begin = rest.get(..words.len()).unwrap_or("");
        if has_filter && begin.eq_ignore_ascii_case(*words) {
            return Some(*sentence);
        }
    }
    if !has_filter && rest.starts_with(',') && !before.ends_with(|c: char| c.is_ascii_digit()) {
        return Some(NO_LIST);
    }
    if rest.starts_with('!') {
        return Some(NO_NOT);
    }
    if rest.starts_with('-') && has_unquoted(path, ":") {
        return Some(NO_BACKWARDS);
    }
    if has_filter && (rest.starts_with('-') || rest.starts_with('+') || rest.starts_with('*')) {
        return Some(NO_SUM);
    }
    if has_filter && !path.contains("[?(") {
        return Some(PARENTHESES);
    }
    if rest.starts_with('\'') || rest.starts_with('"') {
        return sentence_at_quote(before, rest);
    }
    if let Some(compared) = compared_text(path, before) {
        return sentence_for_compared(compared.text, rest);
    }
    if before.ends_with('[') && rest.starts_with(|c: char| c.is_ascii_digit() || c == '-') {
        return Some(NO_SUCH_INDEX);
    }
    None
}

// The sentence where what is compared with is refused: it is a number or a text that a path writes otherwise.
fn sentence_for_compared(text: &str, rest: &str) -> Option<&'static str> {
    if text.is_empty()
        && (rest.is_empty() || rest.starts_with(|c: char| matches!(c, ')' | '&' | '|')))
    {
        return Some(NO_VALUE);
    }
    if is_number_of_json(text) {
        return Some(NO_NUMBER);
    }
    if rest.starts_with(|c: char| is_of_name(c)) {
        return Some(NO_QUOTES);
    }
    None
}

// The sentence where a quoted text is refused: it isn't closed, or stands in a list of indexes.
fn sentence_at_quote(before: &str, rest: &str) -> Option<&'static str> {
    let quoted = rest.get(1..).unwrap_or("");
    let is_closed = rest.get(..1).is_some_and(|quote| quoted.contains(quote));
    if !is_closed {
        return Some(NOT_CLOSED);
    }
    if before.trim_end().ends_with(',') {
        return Some(NO_MIXTURE);
    }
    if before.ends_with('.') {
        return Some("a quoted name needs brackets: ['a'], not .'a'");
    }
    None
}

// Prints a warning on standard error if a path has `&&` and `||` in one condition without parentheses between them:
// here both have the same precedence and group to the right, unlike in RFC 9535.
pub(crate) fn warn_of_mixed_connectives(rt: &(impl Eprint + Alloc<A = Global>), path: &str) {
    if let Ok(true) = has_mixed_connectives(rt.alloc(), path) {
        let _ = eprintln!(rt;
            "jpath: warning: && and || have the same precedence here and group to the right: set parentheses in {path}"
        );
    }
}

// Whether `&&` and `||` both stand within one pair of parentheses of a path, what stands in further parentheses there
// left aside.
fn has_mixed_connectives(alloc: Global, path: &str) -> Result<bool, AllocError> {
    let mut levels = Vec::new(alloc);
    let mut here = (false, false);
    let mut tokens = Tokenizer::new(path);
    for _ in 0..path.len() {
        match tokens.next_token() {
            Ok(Token::OpenParenthesis(_)) => {
                levels.push(here)?;
                here = (false, false);
            }
            Ok(Token::CloseParenthesis(_)) => here = levels.pop().unwrap_or((false, false)),
            Ok(Token::And(_)) => here.0 = true,
            Ok(Token::Or(_)) => here.1 = true,
            Ok(_) => (),
            Err(_) => break,
        }
        if here.0 && here.1 {
            return Ok(true);
        }
    }
    Ok(false)
}
