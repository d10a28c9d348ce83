//! Hints for what other tools have in the place of a path: filters of jq, XPaths, and files.

ghost use Rattle.std.specs.Prelude.{IfOk, string_bytes};
ghost use Rattle.jpath_words.specs.Refusals.{BeginsWithRoot};

use crate::hints::{is_of_name, path_with_parentheses};
use jsonpath_paths::PathParser;
use std::alloc::{AllocError, Global};

// What is said of an XPath of several names, which goes into lists by itself.
const ON_LISTS: &str = "; [*] behind a name takes the items of its list";

// The sentence for a text that begins with no `$`: to write it with `$` in front, if it is a path then, or what is written
// for it.
pub(super) fn hint_to_begin_with_root(alloc: Global, path: &str) -> Result<String, AllocError>
    ensures { IfOk result (λ hint. BeginsWithRoot (string_bytes hint)) }
{
    let path = path.trim().trim_start_matches('$');
    let fixed = path_from_root(alloc, path)?;
    let fixed = fixed.as_str();
    let more = if is_file_name(path) {
        " and comes before the FILE: jpath '$.name' file.json"
    } else if let Some(sentence) = sentence_unless_xpath(alloc, path, fixed) {
        return format!(in alloc; "a path begins with $; {sentence}");
    } else if !path.starts_with('{') && PathParser::compile(alloc, fixed).is_ok() {
        let goes_down = path.trim_start_matches('/').contains("/");
        let note = if goes_down { ON_LISTS } else { "" };
        return format!(in alloc; "a path begins with $: write {fixed}{note}");
    } else if path.contains(",") {
        "; several are given by -e: jpath -e '$.a' -e '$.b'"
    } else {
        ", the document: $.name, $[0], $..name"
    };
    format!(in alloc; "a path begins with ${more}")
}

// The sentence for what jq has. An XPath, whatever its names are, has none if `fixed`, made of it, is a path, but for one
// with an index, which would be another's: XPath counts from 1.
fn sentence_unless_xpath(alloc: Global, path: &str, fixed: &str) -> Option<&'static str> {
    if path.starts_with('/') && PathParser::compile(alloc, fixed).is_ok() {
        if path.contains("[") && !path.contains("[@") {
            return Some("an index counts from 0, and names are separated by dots: $.a[0].b");
        }
        return None;
    }
    sentence_for_other_tool(path)
}

// The text as a path from `$`, with parentheses about the condition of its first filter, if that makes it one.
fn path_from_root(alloc: Global, path: &str) -> Result<String, AllocError> {
    let names = names_from_root(alloc, path)?;
    match path_with_parentheses(alloc, names.as_str())? {
        Some(fixed) => Ok(fixed),
        None => Ok(names),
    }
}

// The text with `$` in front, `[*]` for each `[]`, a dot for each slash of an XPath, or two where it begins with two, and
// no `?` at its end.
fn names_from_root(alloc: Global, path: &str) -> Result<String, AllocError> {
    let slash = match (path.starts_with("//"), path.starts_with('/')) {
        (true, _) => "..",
        (_, true) => ".",
        _ => "/",
    };
    let names = path.trim_end_matches('?').replace(alloc, "[]", "[*]")?;
    let names = names.as_str().replace(alloc, "//", "..")?;
    let names = names.as_str().replace(alloc, "/", slash)?;
    let names = names.as_str();
    if names == "." {
        return String::from_str(alloc, "$");
    }
    if names.starts_with('.') || names.starts_with('[') {
        return format!(in alloc; "${names}");
    }
    format!(in alloc; "$.{names}")
}

// Whether the text looks like the name of a file. One that begins with a slash and has no dot may be an XPath.
fn is_file_name(text: &str) -> bool {
    (text.contains("/") || text.ends_with(".json"))
        && !text.contains(|c: char| c.is_whitespace() || matches!(c, '|' | '(' | '['))
        && (!text.starts_with('.') || text.starts_with("./") || text.starts_with("../"))
        && (!text.starts_with('/') || text.contains("."))
}

// The sentence for what jq has and a path has not. `None` where the text has none of it.
pub(super) fn sentence_for_other_tool(text: &str) -> Option<&'static str> {
    if text.contains("//") && (text.contains(" ") || !text.starts_with('/')) {
        return Some("there is no //: what is missing is passed over, as by $..price");
    }
    let has_call = text.contains("(") && !text.contains("(@");
    for word in text.split(|c: char| !is_of_name(c) && !matches!(c, '.' | '-' | '\'' | '"')) {
        let sentence = match word {
            "keys" | "keys_unsorted" => "jpath --keys '$' lists the names of members",
            "to_entries" | "with_entries" | "from_entries" =>
                "jpath --entries '$' lists names with values",
            "length" => "jpath --lengths '$.a' tells a length, jpath -c '$.a[*]' counts matches",
            "paths" => "jpath -l '$..*' lists all locations",
            "select" if has_call => "a filter is written $[?(@.price < 10)]",
            "del" if has_call => "jpath --remove '$.x' removes x",
            _ => continue,
        };
        return Some(sentence);
    }
    if text.contains("+=") {
        return Some("jpath --append '$.list' '\"x\"' adds an item, --set '$.a' 2 sets a number");
    }
    let compares = ["==", "!=", "<=", ">=", "=>", "=~", "[?"]
        .iter()
        .any(|sign| text.contains(*sign));
    if text.contains("=") && !compares {
        return Some("jpath --set '$.rate' 0.5 sets a value, --add also one that is missing");
    }
    if text.contains("|") || has_call {
        return Some("there are no functions and no |: write several commands between pipes");
    }
    None
}
