//! Documents as JSON texts: read from one, and printed as one.
ghost use Rattle.std.specs.Prelude.{◌≡◌, string_bytes, Some, IfOk, IfErr};
ghost use Rattle.serde_json.specs.View.{view};
ghost use Rattle.jsonpath_select.specs.answer.AnswerText.{document_text, IsDocumentTextRefused, IsTextOf, IsDocumentRefused};

use crate::answer::unread_number::{has_unread_number, unread_number_error};
use crate::error::{JsonPathError, serde_error};
use serde_json::Value;
use std::alloc::Global;

/// Reads a JSON text; of an object's members with the same name the last counts. Errors: `Serde`, with `serde_json`'s
/// message, if it is no JSON document, nests deeper than 127 levels or has a number beyond all `f64`; or `OutOfMemory`.
///
/// ```text
/// let document = read_document(alloc, b"{\"b\": 1, \"a\": [2]}")?;
/// assert!(rt; document_to_text(alloc, &document)?.as_str() == "{\"a\":[2],\"b\":1}");
/// assert!(rt; matches!(read_document(alloc, b"[1"), Err(JsonPathError::Serde(_))));
/// ```
pub fn read_document(alloc: Global, bytes: &[u8]) -> Result<Value, JsonPathError>
    ensures ok { IfOk result (λ document. IsTextOf bytes.now (view document)) }
    ensures refused { IfErr result (IsDocumentRefused bytes.now) }
{
    Value::from_slice(alloc, bytes).map_err(|error| serde_error(alloc, &error))
}

/// The compact JSON text of a document. Errors: `Serde` exactly if the document contains, at any depth, a number that
/// is neither an `i64` nor a `u64`, such as 1.5; or `OutOfMemory`.
///
/// ```text
/// let document = read_document(alloc, b"{ \"a\": [1, null] }")?;
/// assert!(rt; document_to_text(alloc, &document)?.as_str() == "{\"a\":[1,null]}");
/// let unread = read_document(alloc, b"[0.5]")?;
/// assert!(rt; document_to_text(alloc, &unread).is_err());
/// ```
pub fn document_to_text(alloc: Global, document: &Value) -> Result<String, JsonPathError>
    ensures ok { IfOk result (λ text.
        document_text (view document.now) ≡ Some (string_bytes text)) }
    ensures refused { IfErr result (IsDocumentTextRefused (view document.now)) }
{
    if has_unread_number(document) {
        return Err(unread_number_error(alloc));
    }
    Ok(Value::to_string(document, alloc)?)
}
