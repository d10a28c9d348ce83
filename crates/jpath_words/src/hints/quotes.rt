//! The quoted texts of a path that has an error: no hint changes them, or is given for what is in them.

use std::alloc::{AllocError, Global};

// What a path has for the quotes of other languages.
pub(super) const STRAIGHT_QUOTES: [(&str, &str); 5] = [
    ("‘", "'"),
    ("’", "'"),
    ("“", "\""),
    ("”", "\""),
    ("`", "'"),
];

// Whether this is a quote, of a path or of another language.
pub(super) fn is_quote(c: char) -> bool {
    matches!(c, '\'' | '"' | '`' | '‘' | '’' | '“' | '”')
}

// The quote of a path's quoted texts. `None` where it has both quotes, or backslashes: what is quoted isn't told apart then.
fn only_quote(path: &str) -> Option<&'static str> {
    match (path.contains("'"), path.contains("\""), path.contains("\\")) {
        (true, false, false) => Some("'"),
        (false, _, false) => Some("\""),
        _ => None,
    }
}

// Whether this stands outside of a path's quoted texts.
pub(super) fn has_unquoted(path: &str, sign: &str) -> bool {
    only_quote(path).is_some_and(|quote| path
        .split(quote)
        .step_by(2)
        .any(|piece| piece.contains(sign)))
}

// The path with the second of each pair in place of the first, outside of its quoted texts.
pub(super) fn replace_unquoted(
    alloc: Global,
    path: &str,
    pairs: &[(&str, &str)],
) -> Result<String, AllocError> {
    let mut replaced = String::new(alloc);
    let Some(quote) = only_quote(path) else {
        return String::from_str(alloc, path);
    };
    for (number, piece) in path.split(quote).enumerate() {
        let mut piece = String::from_str(alloc, piece)?;
        for (wrong, right) in pairs {
            if number % 2 == 0 {
                piece = piece.as_str().replace(alloc, *wrong, *right)?;
            }
        }
        replaced.push_str(if number == 0 { "" } else { quote })?;
        replaced.push_str(piece.as_str())?;
    }
    Ok(replaced)
}
