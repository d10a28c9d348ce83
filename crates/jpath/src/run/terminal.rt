//! What a terminal gets of a document's output: no control character that could move its cursor or change its state.

use jpath_core::add_escape;
use std::alloc::{AllocError, Global};
use std::str;

// The sequences by which colours are set and taken back.
const COLORS: [&str; 5] = [
    "\u{1b}[34;1m",
    "\u{1b}[32m",
    "\u{1b}[36m",
    "\u{1b}[35m",
    "\u{1b}[0m",
];

/// Replaces each control character in a text by an escape such as `\u001b`, so that a terminal doesn't obey it. Tabs,
/// line ends and the five sequences with which `jpath` itself sets and resets colours stay. A control character inside
/// a quoted text of a JSON document means the same when it is escaped. A text that is not UTF-8 stays as it is. The
/// only error is that memory ran out; the text is then as it was, or empty.
pub fn escape_for_terminal(alloc: Global, text: &mut Vec<u8>) -> Result<(), AllocError> {
    let shown = match str::from_utf8(text.as_slice()) {
        Ok(text) => text_for_terminal(alloc, text)?,
        Err(_) => return Ok(()),
    };
    text.clear();
    text.extend_from_slice(shown.as_bytes())
}

// The text as a terminal gets it.
fn text_for_terminal(alloc: Global, text: &str) -> Result<String, AllocError> {
    let mut shown = String::new(alloc);
    for (at, c) in text.char_indices() {
        if is_harmless(c, text.get(at..).unwrap_or("")) {
            shown.push(c)?;
        } else {
            add_escape(c, &mut shown)?;
        }
    }
    Ok(shown)
}

// Whether a terminal may get a character as it is. The text begins with it.
fn is_harmless(c: char, text: &str) -> bool {
    match c {
        '\n' | '\t' => true,
        '\r' => text.starts_with("\r\n"),
        '\u{1b}' => COLORS.iter().any(|color| text.starts_with(*color)),
        _ => !c.is_control(),
    }
}
