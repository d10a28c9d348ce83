//! One document for many path texts: what each of them selects in it.
ghost use Rattle.std.specs.Prelude.{◌≡◌, map, vec_len, IfOk, IfErr};
ghost use Rattle.serde_json.specs.View.{view};
ghost use Rattle.jsonpath_nodes.specs.document.OfData.{document_of};
ghost use Rattle.jsonpath_select.specs.JsonPathErrors.{IsPathRefused};
ghost use Rattle.jsonpath_select.specs.Meaning.{Selects};
ghost use Rattle.jsonpath_lib.specs.compiled.Kept.{held_document, typed_held_document, IsCountIn, IsTypedRefusedIn};

use crate::functions::selecting::{select, select_to_typed};
use jsonpath_select::JsonPathError;
use serde::DeserializeOwned;
use serde_json::Value;
use std::alloc::Global;
use std::marker::PhantomData;

/// A borrowed document: each call of its method `select` returns the values that a path text selects in it.
///
/// ```text
/// let document = read_document(alloc, b"[1, 2, 3]")?;
/// assert_eq!(rt; selector(&document).select(alloc, "$[1:]")?.len(), 2);
/// ```
#[derive(Drop)]
pub struct PathSelector<'a> {
    pub(crate) json: &'a Value,
}

/// A selector for this document, to be used with any number of path texts. The call allocates no memory.
///
/// ```text
/// let document = read_document(alloc, b"[1, 2, 3]")?;
/// let within = selector(&document);
/// assert_eq!(rt; within.select(alloc, "$[*]")?.len(), 3);
/// assert_eq!(rt; within.select(alloc, "$[1:]")?.len(), 2);
/// ```
pub fn selector<'a>(json: &'a Value) -> PathSelector<'a>
    ensures { held_document result ≡ document_of (view json.now) }
{
    PathSelector { json }
}

impl<'a> PathSelector<'a> {
    /// The values that the path selects in the document, in the order in which the path finds them, with duplicates.
    /// They borrow the document alone. Errors: `Path` exactly if the text is no path, or `OutOfMemory`.
    ///
    /// ```text
    /// let document = read_document(alloc, b"[1, 2, 3]")?;
    /// let found = selector(&document).select(alloc, "$[1:]")?;
    /// assert!(rt; list_to_text(alloc, found.as_slice())?.as_str() == "[2,3]");
    /// ```
    pub fn select(&self, alloc: Global, path: &str) -> Result<Vec<&'a Value>, JsonPathError>
        ensures ok { IfOk result (λ found. Selects path.now (held_document self.now) (map (λ v. document_of (view v.now)) found.items)) }
        ensures refused { IfErr result (IsPathRefused path.now) }
    {
        select(alloc, self.json, path)
    }
}

/// A borrowed document: each call of `select` returns what a path text selects in it, each value deserialized to a `T`.
///
/// ```text
/// let document = read_document(alloc, b"[[1], [2, 3]]")?;
/// let lists = selector_as::<Vec<u8>>(&document);
/// assert_eq!(rt; lists.select(alloc, "$[*]")?.len(), 2);
/// ```
#[derive(Drop)]
pub struct PathSelectorAs<'a, T> {
    json: &'a Value,
    typed: PhantomData<T>,
}

/// A selector for this document that deserializes each selected value to a `T`. The call allocates no memory.
///
/// ```text
/// let document = read_document(alloc, b"[1, 2, 3]")?;
/// let last = selector_as::<u8>(&document).select(alloc, "$[-1]")?;
/// assert!(rt; matches!(last.as_slice(), [3]));
/// ```
pub fn selector_as<'a, T: DeserializeOwned>(json: &'a Value) -> PathSelectorAs<'a, T>
    ensures { typed_held_document result ≡ document_of (view json.now) }
{
    PathSelectorAs {
        json,
        typed: PhantomData,
    }
}

impl<'a, T: DeserializeOwned> PathSelectorAs<'a, T> {
    /// Deserializes each value that the path selects to a `T`, in the order found, with duplicates. Errors: `Path`
    /// exactly if the text is no path; `OutOfMemory`; or `Serde` if `serde_json` can't make a `T` of a selected value,
    /// or if such a value contains a number that is neither an `i64` nor a `u64`, such as 1.5, even if `T` is `f64`.
    ///
    /// ```text
    /// let document = read_document(alloc, b"[1, 2, 3]")?;
    /// let numbers = selector_as::<u8>(&document).select(alloc, "$[1:]")?;
    /// assert!(rt; matches!(numbers.as_slice(), [2, 3]));
    /// ```
    pub fn select(&self, alloc: Global, path: &str) -> Result<Vec<T>, JsonPathError>
        ensures ok { IfOk result (λ found. IsCountIn (typed_held_document self.now) path.now (vec_len found)) }
        ensures refused { IfErr result (IsTypedRefusedIn (typed_held_document self.now) path.now) }
    {
        select_to_typed(alloc, self.json, path)
    }
}
