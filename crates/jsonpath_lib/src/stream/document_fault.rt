//! Why a document of a stream is not read, with its line and column.
ghost use Rattle.std.specs.Prelude.{◌≡◌, ◌≤◌, ◌++◌, List, ℕ, Some, codes, length, IfOk, IfErr, IfSome, IfNone};
ghost use Rattle.serde_json.specs.View.{view};
ghost use Rattle.jsonpath_select.specs.answer.AnswerText.{IsTextOf};
ghost use Rattle.jsonpath_select.specs.JsonPathErrors.{error_text};
ghost use Rattle.json_recognizer.specs.Buffer.{left, piece_of, wrong_in, place_of, IsSound, StandsBehind};
ghost use Rattle.json_recognizer.specs.Lines.{place_behind};
ghost use Rattle.json_recognizer.specs.declared.stream.Found.TheVariants as found;
ghost use Rattle.jsonpath_lib.specs.stream.Faults.{Says, IsUnread, place_of_fault};

use json_recognizer::{LineColumn, ReadFailure, StreamBuffer};
use jsonpath_select::JsonPathError;
use serde_json::{Error as SerdeError, Value};
use std::alloc::{AllocError, Global};
use std::error::Error;
use std::fmt;

/// Why the next document of a stream of JSON texts can't be returned.
///
/// ```text
/// let fault = Documents::new(alloc, b"[1").next().and_then(|item| item.err());
/// assert!(rt; fault.is_some_and(|fault| fault.kind == FaultKind::CutShort));
/// ```
#[derive(Clone, Copy, Debug, Drop, PartialEq, Eq)]
pub enum FaultKind {
    /// An error in a stream of documents: no JSON document can continue with the byte at the error's position.
    WrongByte,
    /// An error of reading a stream of documents: the stream ends inside a document. The error's position is that of
    /// the stream's last byte; if this byte is a line end, the position is column 0 of the next line.
    CutShort,
    /// An error of reading a stream of documents: `serde_json` rejects the document, for example because a number is
    /// too large. The error's position is the one that `serde_json` reports, counted from the beginning of the stream.
    Unread,
    /// An error of reading documents: a read of the input failed. The error's position is after the last byte read.
    ReadFailed,
    /// An error of reading the next document of a stream: memory ran out. Its position is just after the last byte
    /// read, or, if a document was being parsed, the one from `serde_json`, counted from the stream's beginning.
    OutOfMemory,
    /// An error of reading documents: more bytes than 64 bits can count. Position: after the last returned document.
    TooLong,
}

/// The error of reading the next document of a stream, with its position in the whole stream.
///
/// ```text
/// let mut second = Documents::new(alloc, b"[1]\n[2,}").skip(1);
/// let fault = second.next().and_then(|item| item.err());
/// assert!(rt; fault.is_some_and(|fault| fault.line == 2 && fault.column == 4));
/// ```
#[derive(Drop)]
pub struct DocumentFault {
    /// A field of an error of reading a stream of documents: the reason why the next document can't be returned.
    pub kind: FaultKind,
    /// The line of the error in the whole stream, counted from 1.
    pub line: usize,
    /// The column of the error, in bytes from 1, as `serde_json` counts; 0 for a document cut short after a line end.
    pub column: usize,
    /// A field of the error of reading the next document of a stream: the cause. It is `Serde`, with a message that
    /// ends with the line and column, as `serde_json`'s messages do; or `OutOfMemory`.
    pub error: JsonPathError,
}

/// Prints an error of reading documents: `serde error: ` and, on the next line, its message; or `out of memory`.
impl fmt::Display for DocumentFault {
    ghost output = { λ fault. Some (error_text fault.error) };

    fn fmt<W: fmt::Write>(&self, f: &mut fmt::Formatter<W>) -> fmt::Result {
        let error = &self.error;
        write!(f, "{error}")
    }
}

impl fmt::Debug for DocumentFault {
    ghost debug_output = { λ fault. Some (error_text fault.error) };

    fn fmt<W: fmt::Write>(&self, f: &mut fmt::Formatter<W>) -> fmt::Result {
        write!(f, "{self}")
    }
}

impl Error for DocumentFault {}

/// Converts a document stream's error to its field `error`: a message ending in line and column, or `OutOfMemory`.
impl From<DocumentFault> for JsonPathError {
    ghost from_gives = { λ fault error. error ≡ fault.error };

    fn from(fault: DocumentFault) -> JsonPathError {
        fault.error
    }
}

impl DocumentFault {
    // The fault of this kind at this place, with a message of these words; without words, memory ran out.
    pub(crate) fn new(
        alloc: Global,
        kind: FaultKind,
        place: LineColumn,
        words: Option<&str>,
    ) -> DocumentFault
        ensures kind { result.kind ≡ kind }
        ensures place { place_of_fault result ≡ place }
        ensures memory { IfNone words.entry (result.error ≡ JsonPathError.OutOfMemory) }
        ensures says { IfSome words.entry (λ words. Says words.now result) }
    {
        let (line, column) = (place.line, place.column);
        let message = match words {
            Some(words) => format!(in alloc; "{words} at line {line} column {column}").ok(),
            None => None,
        };
        DocumentFault {
            kind,
            line,
            column,
            error: message.map_or(JsonPathError::OutOfMemory, JsonPathError::Serde),
        }
    }
}

// Reads the text of a document, which begins at this place of its stream.
pub(crate) fn read_document(
    alloc: Global,
    text: &[u8],
    place: LineColumn,
) -> Result<Value, DocumentFault>
    ensures ok { IfOk result (λ document. IsTextOf text.now (view document)) }
    ensures err { IfErr result (λ fault. IsUnread fault.kind text.now fault) }
{
    let error = match Value::from_slice(alloc, text) {
        Ok(document) => return Ok(document),
        Err(error) => error,
    };
    let place = place_of_error(place, &error);
    match words_of(alloc, &error) {
        Ok(words) if !error.is_memory() => {
            let words = Some(words.as_str());
            Err(DocumentFault::new(alloc, FaultKind::Unread, place, words))
        }
        _ => Err(DocumentFault::new(alloc, FaultKind::OutOfMemory, place, None)),
    }
}

// The words of an error of `serde_json`, without the line and column in the document.
fn words_of(alloc: Global, error: &SerdeError) -> Result<String, AllocError> {
    let text = format!(in alloc; "{error}")?;
    let place = format!(in alloc; " at line {} column {}", error.line(), error.column())?;
    let text = text.as_str();
    String::from_str(alloc, text.strip_suffix(place.as_str()).unwrap_or(text))
}

// The place in the stream of an error of `serde_json` in a document that begins at this place.
fn place_of_error(place: LineColumn, error: &SerdeError) -> LineColumn {
    let first = if error.line() > 1 { 1 } else { place.column };
    LineColumn {
        line: place.line.saturating_add(error.line().saturating_sub(1)),
        column: first.saturating_add(error.column()).saturating_sub(1),
    }
}

// The fault of the piece at hand, which is refused.
pub(crate) fn of_piece(alloc: Global, buffer: &StreamBuffer) -> DocumentFault
    requires { IsSound buffer.now }
    ensures place { (passed stream : List ℕ) → StandsBehind buffer.now passed → (wrong_in buffer.now ≡ found.GoesOn → piece_of buffer.now ≡ stream) → ((more : List ℕ) × (stream ≡ left buffer.now ++ more)) → place_of_fault result ≡ place_of (wrong_in buffer.now) passed stream }
    ensures cut { wrong_in buffer.now ≡ found.GoesOn → (result.kind ≡ FaultKind.CutShort) × Says (codes "EOF while parsing") result }
    ensures byte { (n : ℕ) → wrong_in buffer.now ≡ found.Refused n → (result.kind ≡ FaultKind.WrongByte) × Says (codes "invalid JSON") result }
{
    let place = buffer.place_of_refusal();
    if buffer.is_cut_short() {
        DocumentFault::new(alloc, FaultKind::CutShort, place, Some("EOF while parsing"))
    } else {
        DocumentFault::new(alloc, FaultKind::WrongByte, place, Some("invalid JSON"))
    }
}

// The fault of a stream that can't be read on.
pub(crate) fn of_read(alloc: Global, buffer: &StreamBuffer, failure: ReadFailure) -> DocumentFault
    requires { buffer.now.start ≤ length buffer.now.bytes.items }
    ensures place { (passed : List ℕ) → StandsBehind buffer.now passed → place_of_fault result ≡ place_behind (passed ++ left buffer.now) }
    ensures failed { failure ≡ ReadFailure.Failed → (result.kind ≡ FaultKind.ReadFailed) × Says (codes "a read failed") result }
    ensures memory { failure ≡ ReadFailure.OutOfMemory → (result.kind ≡ FaultKind.OutOfMemory) × (result.error ≡ JsonPathError.OutOfMemory) }
{
    let place = buffer.place_behind_all();
    match failure {
        ReadFailure::Failed => {
            DocumentFault::new(alloc, FaultKind::ReadFailed, place, Some("a read failed"))
        }
        ReadFailure::OutOfMemory => DocumentFault::new(alloc, FaultKind::OutOfMemory, place, None),
    }
}
