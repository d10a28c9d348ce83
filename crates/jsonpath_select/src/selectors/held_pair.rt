//! A pair of a path and a value, and what the path selects in the value.
ghost use Rattle.std.specs.Prelude.{◌≡◌, Some, None, option_map, string_bytes, vec_len, IfOk, IfErr};
ghost use Rattle.serde_json.specs.View.{view};
ghost use Rattle.jsonpath_nodes.specs.document.OfData.{document_of};
ghost use Rattle.serde_json.specs.declared.value.Value.{Value};
ghost use Rattle.jsonpath_select.specs.selectors.Held.{document, AreLocationsFor, AreValuesFor, IsTextFor, IsCountFor, IsSelectRefused, IsTextRefusedFor, IsTypedRefusedFor};
ghost use Rattle.jsonpath_select.specs.answer.Counted.{IsCountOf, TellsIfAny};

use crate::compile::any_path::AnyPath;
use crate::error::JsonPathError;
use jsonpath_nodes::Location;
use serde::DeserializeOwned;
use serde_json::Value;
use std::alloc::Global;
use std::marker::Model;

/// A trait of what a selector can store to search: `Value`, which it owns and can change, and `&Value`, a borrowed one.
///
/// ```text
/// let document = read_document(alloc, b"7")?;
/// let reference = &document;
/// assert!(rt; HeldValue::lent(&reference).as_u64() == Some(7));
/// ```
pub trait HeldValue {
    // The value.
    ghost held: { Self → Value };

    /// A method that implementors provide: returns a reference to the value that a selector type, such as `Selector`,
    /// stores, whether the selector owns or borrows this value.
    ///
    /// ```text
    /// let document = read_document(alloc, b"7")?;
    /// assert!(rt; HeldValue::lent(&document).as_u64() == Some(7));
    /// ```
    fn lent(&self) -> &Value
        ensures { result.now ≡ held self.now };
}

impl HeldValue for Value {
    ghost held = { λ value. value };

    fn lent(&self) -> &Value {
        self
    }
}

impl<'a> HeldValue for &'a Value {
    ghost held = { λ value. value.now };

    fn lent(&self) -> &Value {
        *self
    }
}

/// A selector, which is an object with an optional path and an optional value to search, each the one that was set
/// last. [`JsonSelector`](crate::JsonSelector) and [`Selector`](crate::Selector) borrow the value;
/// [`JsonSelectorMut`](crate::JsonSelectorMut) and [`SelectorMut`](crate::SelectorMut) own it and change it.
///
/// ```text
/// let mut held: HeldPair<Node, Value> = HeldPair::default();
/// held.value(read_document(alloc, b"[1, 2, 3]")?);
/// assert!(rt; matches!(held.count(alloc), Err(JsonPathError::EmptyPath)));
/// ```
#[derive(Drop)]
pub struct HeldPair<P: AnyPath, V: HeldValue> {
    pub(crate) path: Option<P>,
    pub(crate) value: Option<V>,
}

impl<P: AnyPath, V: HeldValue> Model for HeldPair<P, V> {
    ghost use Rattle.jsonpath_select.specs.selectors.Held.{Held, held_code};

    ghost Value = { Held };

    ghost coded = { held_code };

    ghost use Rattle.std.specs.Prelude.{option_map};

    ghost view = { λ s. record { path = option_map P.spelling s.path; value = option_map V.held s.value } };
}

/// The default of a selector type, such as `Selector`: a selector with no path and no value. Allocates no memory.
impl<P: AnyPath, V: HeldValue> Default for HeldPair<P, V> {
    ghost is_default = { λ held. held ≡ record { path = None; value = None } };

    fn default() -> HeldPair<P, V> {
        HeldPair {
            path: None,
            value: None,
        }
    }
}

impl<P: AnyPath, V: HeldValue> HeldPair<P, V> {
    // The path and the value. Refused with `EmptyPath` (no path is held) or `EmptyValue` (a path and no value).
    pub(crate) fn path_and_value(&self) -> Result<(&P, &V), JsonPathError>
        ensures path { IfOk result (λ held. self.now.path ≡ Some (P.spelling held.0.now)) }
        ensures value { IfOk result (λ held. document self.now ≡ Some (document_of (view (V.held held.1.now)))) }
        ensures refused { IfErr result (IsSelectRefused self.now.path (document self.now)) }
    {
        let path = self.path.as_ref().ok_or(JsonPathError::EmptyPath)?;
        let value = self.value.as_ref().ok_or(JsonPathError::EmptyValue)?;
        Ok((path, value))
    }

    /// The locations that the selector's path selects in its value, in the order in which the path finds them, with
    /// duplicates. Errors: `EmptyPath` (no path), `EmptyValue` (a path, no value), `OutOfMemory`.
    ///
    /// ```text
    /// let document = read_document(alloc, b"[1, 2, 3]")?;
    /// let mut held = JsonSelector::new(alloc, compile_path(alloc, "$[1:]")?)?;
    /// let found = held.value(&document).select_locations(alloc)?;
    /// assert_eq!(rt; found.len(), 2);
    /// assert!(rt; found[1].to_string(alloc)?.as_str() == "$[2]");
    /// ```
    pub fn select_locations(&self, alloc: Global) -> Result<Vec<Location>, JsonPathError>
        ensures ok { IfOk result (λ found. AreLocationsFor self.now.path (document self.now) found.items) }
        ensures refused { IfErr result (IsSelectRefused self.now.path (document self.now)) }
    {
        let (path, value) = self.path_and_value()?;
        path.select_locations(alloc, value.lent())
    }

    /// The selected values as the text of a compact JSON array, in the order in which the path finds them, with
    /// duplicates. Errors: `EmptyPath` without a path, else `EmptyValue` without a value; `OutOfMemory`; or `Serde`
    /// exactly if a value contains, at any depth, a number that is neither an `i64` nor a `u64`, such as 1.5.
    ///
    /// ```text
    /// let mut held = SelectorMut::new();
    /// held.str_path(alloc, "$[1:]")?.value(read_document(alloc, b"[1, 2, 3]")?);
    /// assert!(rt; held.select_as_str(alloc)?.as_str() == "[2,3]");
    /// ```
    pub fn select_as_str(&self, alloc: Global) -> Result<String, JsonPathError>
        ensures ok { IfOk result (λ text. IsTextFor self.now.path (document self.now) (string_bytes text)) }
        ensures refused { IfErr result (IsTextRefusedFor self.now.path (document self.now)) }
    {
        let (path, value) = self.path_and_value()?;
        path.select_as_str(alloc, value.lent())
    }

    /// Deserializes each selected value to a `T`, in the order in which the path finds the values, with duplicates.
    /// Errors: `EmptyPath` without a path, else `EmptyValue` without a value; `OutOfMemory`; or `Serde` if `serde_json`
    /// can't make a `T` of a selected value. The error is also `Serde` if a selected value contains a number that is
    /// neither an `i64` nor a `u64`, such as 1.5, even if `T` is `f64`.
    ///
    /// ```text
    /// let document = read_document(alloc, b"[1, 2, 3]")?;
    /// let mut held = Selector::new();
    /// held.value(&document).str_path(alloc, "$[1:]")?;
    /// let numbers = held.select_as::<u8>(alloc)?;
    /// assert!(rt; matches!(numbers.as_slice(), [2, 3]));
    /// ```
    pub fn select_as<T: DeserializeOwned>(&self, alloc: Global) -> Result<Vec<T>, JsonPathError>
        ensures ok { IfOk result (λ found. IsCountFor self.now.path (document self.now) (vec_len found)) }
        ensures refused { IfErr result (IsTypedRefusedFor self.now.path (document self.now)) }
    {
        let (path, value) = self.path_and_value()?;
        path.select_as(alloc, value.lent())
    }

    /// The number of values that the selector's path selects in its value, duplicates included. Errors: `EmptyPath` if
    /// there is no path, else `EmptyValue` if there is no value, else `OutOfMemory`.
    ///
    /// ```text
    /// let document = read_document(alloc, b"[1, 2, 3]")?;
    /// let mut held = JsonSelector::new(alloc, compile_path(alloc, "$[1:]")?)?;
    /// assert_eq!(rt; held.value(&document).count(alloc)?, 2);
    /// ```
    pub fn count(&self, alloc: Global) -> Result<usize, JsonPathError>
        ensures ok { IfOk result (IsCountOf (AreValuesFor self.now.path (document self.now))) }
        ensures refused { IfErr result (IsSelectRefused self.now.path (document self.now)) }
    {
        let (path, value) = self.path_and_value()?;
        path.count(alloc, value.lent())
    }

    /// Whether the path selects a value. Errors: `EmptyPath` (no path), else `EmptyValue` (no value), `OutOfMemory`.
    ///
    /// ```text
    /// let mut held = SelectorMut::new();
    /// held.str_path(alloc, "$[1:]")?.value(read_document(alloc, b"[1, 2, 3]")?);
    /// assert!(rt; held.exists(alloc)?);
    /// ```
    pub fn exists(&self, alloc: Global) -> Result<bool, JsonPathError>
        ensures ok { IfOk result (TellsIfAny (AreValuesFor self.now.path (document self.now))) }
        ensures refused { IfErr result (IsSelectRefused self.now.path (document self.now)) }
    {
        let (path, value) = self.path_and_value()?;
        path.exists(alloc, value.lent())
    }
}
