//! `JsonPathError`, its texts, the position that it names, and how it is made of other errors.
ghost use Rattle.std.specs.Prelude.{◌≡◌, ◌++◌, ℕ, ◌<◌, ◌^◌, Some, None, IfOk, codes, decimal, option_map, string_bytes};
ghost use Rattle.jsonpath_select.specs.JsonPathErrors.{error_text, IsFaultError, IsPathErrorOf, IsPositionIn, IsPositionOf, IsMarked, IsMarkOf};
ghost use Rattle.jsonpath_select.specs.answer.AnswerText.{IsSerdeErrorOf};

use crate::compile::parser::{ParseFault, caret_row_length, path_with_caret_row};
use jsonpath_nodes::NoMemory;
use jsonpath_paths::TokenError;
use serde_json::Error as SerdeError;
use std::alloc::{AllocError, AllocFailed, Global};
use std::error::Error;
use std::fmt;

/// The error that this library's calls return. `Display` and `Debug` print the same text.
///
/// ```text
/// let refused = match compile_path(alloc, "$[") {
///     Ok(_) => return Err(Fail::new("it is a path")),
///     Err(refused) => refused,
/// };
/// assert!(rt; refused.to_string(alloc)?.as_str() == "path error: \nEof\n");
/// ```
#[derive(Drop)]
pub enum JsonPathError {
    /// An error of a selector, an object such as `Selector` that has a path and a value to search: no path is set. A
    /// value may be set or not. It is printed as `path not set`.
    EmptyPath,
    /// An error of a selector, an object such as `Selector` that has a path and a value to search: a path is set, but
    /// no value. It is printed as `json value not set`.
    EmptyValue,
    /// An error: a text that was to be compiled is no path. The field is the message: `Eof` if the text ends too early
    /// or its last token or character is wrong, else `Position:` and the byte position just after the wrong token or
    /// character. If the text was compiled by `Parser`, to a path that owns its text, the message is instead the path
    /// text and a line of `^`: one for each byte up to that position, or for each byte of the text where the message
    /// would be `Eof`. The error is printed as `path error: `, a line end, the message and a line end.
    Path(String),
    /// An error: a text is no JSON, a value can't be deserialized to the wanted type, or a number to be printed or
    /// deserialized is neither an `i64` nor a `u64`. Printed as two lines: `serde error: ` and the field's message.
    Serde(String),
    /// An error: memory ran out. It is printed as `out of memory`.
    OutOfMemory,
}

impl fmt::Display for JsonPathError {
    ghost output = { λ e. Some (error_text e) };

    fn fmt<W: fmt::Write>(&self, f: &mut fmt::Formatter<W>) -> fmt::Result {
        match self {
            JsonPathError::EmptyPath => f.write_str("path not set"),
            JsonPathError::EmptyValue => f.write_str("json value not set"),
            JsonPathError::Path(message) => {
                let message = message.as_str();
                write!(f, "path error: \n{message}\n")
            }
            JsonPathError::Serde(message) => {
                let message = message.as_str();
                write!(f, "serde error: \n{message}\n")
            }
            JsonPathError::OutOfMemory => f.write_str("out of memory"),
        }
    }
}

impl fmt::Debug for JsonPathError {
    ghost debug_output = { λ e. Some (error_text e) };

    fn fmt<W: fmt::Write>(&self, f: &mut fmt::Formatter<W>) -> fmt::Result {
        write!(f, "{self}")
    }
}

impl Error for JsonPathError {}

impl JsonPathError {
    /// Returns the byte position just after the wrong token or character of a syntax error; `None` for any other error.
    /// If the text ends too early, or its last token or character is wrong, the result is also `None`, unless the error
    /// comes from `Parser`, which compiles to a path that owns its text: then the result is the text's length, which is
    /// the length of the row of `^` in the message.
    ///
    /// ```text
    /// match compile_path(alloc, "$.a[b]") {
    ///     Ok(_) => assert!(rt; false),
    ///     Err(refused) => assert!(rt; refused.position() == Some(5)),
    /// }
    /// ```
    pub fn position(&self) -> Option<usize>
        ensures { IsPositionOf self.now result }
    {
        match self {
            JsonPathError::Path(message) => position_in_message(message.as_str()),
            _ => None,
        }
    }

    /// Shows where in `path` this syntax error is. `path` must be the text that was compiled; this is not checked.
    /// Returns `path`, a line end, and a `^` for each byte of `path` up to the end of the wrong token or character, or
    /// for each byte of `path` if the text ends too early. For an error of `Parser`, which compiles to a path that owns
    /// its text, the returned text is equal to the error's message. Returns `None` if this is no syntax error. The call
    /// fails only if memory runs out.
    ///
    /// ```text
    /// let refused = compile_path(alloc, "$.a[b]")
    ///     .err()
    ///     .unwrap_or(JsonPathError::OutOfMemory);
    /// let shown = refused.path_with_carets(alloc, "$.a[b]")?;
    /// assert!(rt; shown.is_some_and(|text| text.as_str() == "$.a[b]\n^^^^^"));
    /// ```
    pub fn path_with_carets(&self, alloc: Global, path: &str) -> Result<Option<String>, AllocError>
        ensures { IfOk result (λ found. IsMarkOf path.now self.now (option_map string_bytes found)) }
    {
        match self {
            JsonPathError::Path(message) => Ok(Some(path_with_carets_of_message(
                alloc,
                message.as_str(),
                path,
            )?)),
            _ => Ok(None),
        }
    }
}

// The position in the message of a path's refusal: where its row of `^` ends, if it has one, else its number.
fn position_in_message(message: &str) -> Option<usize>
    ensures { IsPositionIn message.now result }
{
    caret_row_length(message).or_else(|| number_in_message(message))
}

// The number behind `Position:`, if the message of a path's refusal begins so.
fn number_in_message(message: &str) -> Option<usize>
    ensures some { (at : ℕ) → at < 2 ^ 64 → message.now ≡ codes "Position:" ++ decimal at → result ≡ Some at }
    ensures none { message.now ≡ codes "Eof" → result ≡ None }
{
    message.strip_prefix("Position:")?.parse::<usize>().ok()
}

// The path over as many `^` as the message's position says, at most the path's bytes, and so many if it has none.
fn path_with_carets_of_message(
    alloc: Global,
    message: &str,
    path: &str,
) -> Result<String, AllocError>
    ensures { IfOk result (λ text. IsMarked path.now message.now (string_bytes text)) }
{
    let end = position_in_message(message).unwrap_or(path.len());
    path_with_caret_row(alloc, path, end.min(path.len()))
}

/// Converts a `TokenError` (the error of reading a path text) to a `JsonPathError`. `Eof` becomes `Path` with the
/// message `Eof`. `Position` becomes `Path` with the message `Position:` followed by the byte position. `OutOfMemory`
/// becomes `OutOfMemory`; so does any error if memory runs out for the message.
///
/// ```text
/// let error = path_error(alloc, &TokenError::Position(3));
/// assert!(rt; error.position() == Some(3));
/// ```
pub fn path_error(alloc: Global, error: &TokenError) -> JsonPathError
    ensures { IsPathErrorOf error.now result }
{
    let message = match *error {
        TokenError::OutOfMemory => return JsonPathError::OutOfMemory,
        TokenError::Eof => String::from_str(alloc, "Eof"),
        TokenError::Position(at) => format!(in alloc; "Position:{at}"),
    };
    message.map_or(JsonPathError::OutOfMemory, JsonPathError::Path)
}

/// Converts an error of `Parser`: `Text` to `Path` with a copied message, or to `OutOfMemory` if it can't be copied.
///
/// ```text
/// match Parser::compile(alloc, "$[") {
///     Ok(_) => return Err(Fail::new("it is a path")),
///     Err(fault) => assert!(rt; matches!(error_of_parse_fault(alloc, &fault), JsonPathError::Path(_))),
/// }
/// ```
pub fn error_of_parse_fault(alloc: Global, fault: &ParseFault) -> JsonPathError
    ensures { IsFaultError fault.now result }
{
    let ParseFault::Text(message) = fault else {
        return JsonPathError::OutOfMemory;
    };
    String::from_str(alloc, message.as_str()).map_or(
        JsonPathError::OutOfMemory,
        JsonPathError::Path,
    )
}

/// Converts a `ParseFault`, the error of compiling a path text by `Parser`, to a `JsonPathError`. `Text` becomes `Path`
/// with the same message, and `OutOfMemory` becomes `OutOfMemory`. The call allocates no memory.
impl From<ParseFault> for JsonPathError {
    ghost use Rattle.jsonpath_select.specs.JsonPathErrors.{error_of};
    ghost use Rattle.std.specs.Prelude.{◌≡◌};

    ghost from_gives = { λ fault error. error ≡ error_of fault };

    fn from(fault: ParseFault) -> JsonPathError {
        match fault {
            ParseFault::Text(message) => JsonPathError::Path(message),
            ParseFault::OutOfMemory => JsonPathError::OutOfMemory,
        }
    }
}

/// Converts an out-of-memory error to `JsonPathError::OutOfMemory`.
impl From<NoMemory> for JsonPathError {
    ghost use Rattle.std.specs.Prelude.{◌≡◌};
    ghost use Rattle.jsonpath_select.specs.declared.error.JsonPathError.TheVariants.{OutOfMemory};

    ghost from_gives = { λ _ error. error ≡ OutOfMemory };

    fn from(_: NoMemory) -> JsonPathError {
        JsonPathError::OutOfMemory
    }
}

/// Converts an out-of-memory error to `JsonPathError::OutOfMemory`.
impl From<AllocError> for JsonPathError {
    ghost use Rattle.std.specs.Prelude.{◌≡◌};
    ghost use Rattle.jsonpath_select.specs.declared.error.JsonPathError.TheVariants.{OutOfMemory};

    ghost from_gives = { λ _ error. error ≡ OutOfMemory };

    fn from(_: AllocError) -> JsonPathError {
        JsonPathError::OutOfMemory
    }
}

/// Converts an out-of-memory error to `JsonPathError::OutOfMemory`.
impl<T: Drop> From<AllocFailed<T>> for JsonPathError {
    ghost use Rattle.std.specs.Prelude.{◌≡◌};
    ghost use Rattle.jsonpath_select.specs.declared.error.JsonPathError.TheVariants.{OutOfMemory};

    ghost from_gives = { λ _ error. error ≡ OutOfMemory };

    fn from(_: AllocFailed<T>) -> JsonPathError {
        JsonPathError::OutOfMemory
    }
}

/// The error for an error of `serde_json`: `Serde` with its text as the message, or `OutOfMemory` if memory ran out.
///
/// ```text
/// let read: Result<u8, _> = serde_json::from_str(alloc, "true");
/// let Err(error) = read else { unreachable!() };
/// assert!(rt; matches!(serde_error(alloc, &error), JsonPathError::Serde(_)));
/// ```
pub fn serde_error(alloc: Global, error: &SerdeError) -> JsonPathError
    ensures { IsSerdeErrorOf error.now result }
{
    if error.is_memory() {
        return JsonPathError::OutOfMemory;
    }
    format!(in alloc; "{error}").map_or(JsonPathError::OutOfMemory, JsonPathError::Serde)
}
