//! What a path text selects: values in a document, or their text or typed values from a JSON text.
ghost use Rattle.std.specs.Prelude.{map, string_bytes, vec_len, IfOk, IfErr};
ghost use Rattle.serde_json.specs.View.{view};
ghost use Rattle.jsonpath_nodes.specs.document.OfData.{document_of};
ghost use Rattle.jsonpath_select.specs.JsonPathErrors.{IsPathRefused};
ghost use Rattle.jsonpath_select.specs.Meaning.{Selects};
ghost use Rattle.jsonpath_lib.specs.functions.Answers.{IsTextFromJson, IsCountFromJson, IsTextRefusal, IsTypedRefusal};
ghost use Rattle.jsonpath_select.specs.answer.Given.{IsTypedCountOf};
ghost use Rattle.jsonpath_lib.specs.compiled.Kept.{IsTypedRefusedIn};

use crate::text::Text;
use json::Scratch;
use jsonpath_select::{AnyPath, JsonPathError, compile_path};
use serde::DeserializeOwned;
use serde_json::Value;
use std::alloc::Global;

/// The values that the path selects in the document, in the order in which the path's steps find them, with duplicates.
/// Errors: `Path` exactly if the text is no path, or `OutOfMemory`.
///
/// ```text
/// let document = read_document(alloc, b"[[1, 2], [3]]")?;
/// let firsts = select(alloc, &document, "$..[0]")?;
/// assert!(rt; list_to_text(alloc, firsts.as_slice())?.as_str() == "[[1,2],1,3]");
/// ```
pub fn select<'a>(
    alloc: Global,
    json: &'a Value,
    path: &str,
) -> Result<Vec<&'a Value>, JsonPathError>
    ensures ok { IfOk result (λ found. Selects path.now (document_of (view json.now)) (map (λ v. document_of (view v.now)) found.items)) }
    ensures refused { IfErr result (IsPathRefused path.now) }
{
    let compiled = compile_path(alloc, path)?;
    let found = compiled.select(alloc, json)?;
    Ok(found)
}

/// Reads a JSON text, then the path, and returns the selected values as a JSON text: `[`, their compact texts joined by
/// `,`, and `]`, in the order found, with duplicates. Errors: `Serde` if `serde_json` rejects the text or a selected
/// value has a number that is neither an `i64` nor a `u64`, such as 1.5; `Path` if `path` is no path; or `OutOfMemory`.
///
/// ```text
/// let text = select_as_str(alloc, "[1, 2, 3]", "$[-2:]")?;
/// assert!(rt; text.as_str() == "[2,3]");
/// ```
#[tactic(auto, using(crate::proofs::JsonTextRefusedLemmas::refused_after, crate::proofs::JsonTextRefusedLemmas::text_refused))]
pub fn select_as_str(alloc: Global, json: &str, path: &str) -> Result<String, JsonPathError>
    ensures ok { IfOk result (λ text. IsTextFromJson json.now path.now (string_bytes text)) }
    ensures refused { IfErr result (IsTextRefusal json.now path.now) }
{
    let mut scratch = Scratch::new(alloc);
    let text = Text::read(alloc, json.as_bytes(), &mut scratch)?;
    let compiled = compile_path(alloc, path)?;
    text.select_as_str(alloc, &compiled)
}

/// Reads a JSON text, then a path, and deserializes each selected value to a `T`, in the order found, with duplicates.
/// Errors: `Path` if `path` is no path; `OutOfMemory`; or `Serde` if `serde_json` rejects the JSON text or can't make a
/// `T` of a selected value, or if such a value has a number that is neither an `i64` nor a `u64`, such as 1.5.
///
/// ```text
/// let numbers = select_as::<u8>(alloc, "[[1, 2], [3]]", "$[*][0]")?;
/// assert!(rt; matches!(numbers.as_slice(), [1, 3]));
/// ```
#[tactic(auto, using(crate::proofs::JsonTextRefusedLemmas::refused_after, crate::proofs::JsonTextRefusedLemmas::typed_refused))]
pub fn select_as<T: DeserializeOwned>(
    alloc: Global,
    json: &str,
    path: &str,
) -> Result<Vec<T>, JsonPathError>
    ensures ok { IfOk result (λ found. IsCountFromJson json.now path.now (vec_len found)) }
    ensures refused { IfErr result (IsTypedRefusal json.now path.now) }
{
    let mut scratch = Scratch::new(alloc);
    let text = Text::read(alloc, json.as_bytes(), &mut scratch)?;
    let compiled = compile_path(alloc, path)?;
    text.select_as(alloc, &compiled)
}

// The values that the path selects in the document, each as a `T`; the errors are those of `PathSelectorAs::select`.
pub(crate) fn select_to_typed<T: DeserializeOwned>(
    alloc: Global,
    json: &Value,
    path: &str,
) -> Result<Vec<T>, JsonPathError>
    ensures ok { IfOk result (λ found. IsTypedCountOf (Selects path.now (document_of (view json.now))) (vec_len found)) }
    ensures refused { IfErr result (IsTypedRefusedIn (document_of (view json.now)) path.now) }
{
    let compiled = compile_path(alloc, path)?;
    compiled.select_as(alloc, json)
}
