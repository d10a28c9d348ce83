//! A text as a path has it between single quotes.

ghost use Rattle.std.specs.Prelude.{◌≡◌, ◌++◌, true, IfOk, OnOk, string_bytes};
ghost use Rattle.std.specs.Str.{chars, encode_utf8_all};
ghost use Rattle.jsonpath_paths.specs.text.Characters.{name_of, single_quote};
ghost use Rattle.jsonpath_paths.specs.token.Kinds.{is_quoted};
ghost use Rattle.jpath_words.specs.Arguments.{guarded_char};

use std::alloc::{AllocError, Global};

// The text between single quotes: one token of a path, which means just this text, whatever quotes and backslashes it
// has.
pub(crate) fn quoted_text(alloc: Global, text: &str) -> Result<String, AllocError>
    ensures whole { IfOk result (λ quoted. is_quoted single_quote (chars (string_bytes quoted)) ≡ true) }
    ensures means { IfOk result (λ quoted. name_of (chars (string_bytes quoted)) ≡ chars text.now) }
{
    let mut quoted = String::from_str(alloc, "'")?;
    for c in text.chars() {
        add_guarded_char(c, &mut quoted)?;
    }
    quoted.push('\'')?;
    Ok(quoted)
}

// Adds a character, behind a backslash if it is a single quote or a backslash.
fn add_guarded_char(c: char, quoted: &mut String) -> Result<(), AllocError>
    ensures { OnOk result (string_bytes quoted.new ≡ string_bytes quoted.old ++ encode_utf8_all (guarded_char c)) }
{
    if c == '\'' || c == '\\' {
        quoted.push('\\')?;
    }
    quoted.push(c)
}
