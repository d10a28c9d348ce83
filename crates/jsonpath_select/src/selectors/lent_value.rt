//! Selectors, which borrow their value; their answers borrow it, too.
ghost use Rattle.std.specs.Prelude.{◌≡◌, Some, map, option_map, IfOk, IfErr};
ghost use Rattle.serde_json.specs.View.{view};
ghost use Rattle.jsonpath_nodes.specs.document.OfData.{document_of};
ghost use Rattle.jsonpath_select.specs.selectors.Held.{document, AreSpotsFor, AreValuesFor, IsSelectRefused};
ghost use Rattle.jsonpath_select.specs.answer.Counted.{IsFirstOf};

use crate::compile::any_path::AnyPath;
use crate::error::JsonPathError;
use crate::selectors::held_pair::HeldPair;
use jsonpath_nodes::Spot;
use serde_json::Value;
use std::alloc::Global;

impl<'a, P: AnyPath> HeldPair<P, &'a Value> {
    /// Sets the value that the selector searches, in place of the one before, and returns the selector. The call
    /// allocates no memory. Named as in the Rust crate `jsonpath_lib`.
    ///
    /// ```text
    /// let document = read_document(alloc, b"[1, 2, 3]")?;
    /// let mut held = JsonSelector::new(alloc, compile_path(alloc, "$[1:]")?)?;
    /// assert_eq!(rt; held.value(&document).count(alloc)?, 2);
    /// ```
    pub fn value(&mut self, value: &'a Value) -> &mut Self
        ensures place { result.ghost_name ≡ self.entry.ghost_name }
        ensures held { result.now ≡ record self.entry.now { value = Some value.now } }
    {
        self.value = Some(value);
        self
    }

    /// Only returns the selector, which caches no answer; for code written for the Rust crate `jsonpath_lib`.
    ///
    /// ```text
    /// let document = read_document(alloc, b"[1, 2, 3]")?;
    /// let mut held = Selector::new();
    /// held.value(&document).str_path(alloc, "$[1:]")?;
    /// assert_eq!(rt; held.reset_value().count(alloc)?, 2);
    /// ```
    pub fn reset_value(&mut self) -> &mut Self
        ensures place { result.ghost_name ≡ self.entry.ghost_name }
        ensures same { result.now ≡ self.entry.now }
    {
        self
    }

    /// The values that the selector's path selects, in the order its steps find them, with duplicates. They borrow only
    /// the searched value. Errors: `EmptyPath` (no path), `EmptyValue` (a path, no value), `OutOfMemory`.
    ///
    /// ```text
    /// let document = read_document(alloc, b"[1, 2, 3]")?;
    /// let mut held = JsonSelector::new(alloc, compile_path(alloc, "$[1:]")?)?;
    /// let found = held.value(&document).select(alloc)?;
    /// assert!(rt; list_to_text(alloc, found.as_slice())?.as_str() == "[2,3]");
    /// ```
    pub fn select(&self, alloc: Global) -> Result<Vec<&'a Value>, JsonPathError>
        ensures ok { IfOk result (λ found. AreValuesFor self.now.path (document self.now) (map (λ v. document_of (view v.now)) found.items)) }
        ensures refused { IfErr result (IsSelectRefused self.now.path (document self.now)) }
    {
        let (path, value) = self.path_and_value()?;
        path.select(alloc, *value)
    }

    /// The selected nodes (values with locations), in the order the path finds them, with duplicates. They borrow only
    /// the searched value. Errors: `EmptyPath` (no path), `EmptyValue` (a path, no value), `OutOfMemory`.
    ///
    /// ```text
    /// let document = read_document(alloc, b"[1, 2, 3]")?;
    /// let mut held = Selector::new();
    /// held.value(&document).str_path(alloc, "$[1:]")?;
    /// let spots = held.select_spots(alloc)?;
    /// assert_eq!(rt; spots.len(), 2);
    /// assert!(rt; spots[1].value().as_u64() == Some(3));
    /// ```
    pub fn select_spots(&self, alloc: Global) -> Result<Vec<Spot<'a>>, JsonPathError>
        ensures ok { IfOk result (λ found. AreSpotsFor self.now.path (document self.now) found.items) }
        ensures refused { IfErr result (IsSelectRefused self.now.path (document self.now)) }
    {
        let (path, value) = self.path_and_value()?;
        path.select_spots(alloc, *value)
    }

    /// The first of the selected values, in the order in which the path finds them, or `None`. It borrows only the
    /// searched value. Errors: `EmptyPath` (no path), `EmptyValue` (a path, no value), `OutOfMemory`.
    ///
    /// ```text
    /// let document = read_document(alloc, b"[1, 2, 3]")?;
    /// let mut held = JsonSelector::new(alloc, compile_path(alloc, "$[1:]")?)?;
    /// let first = held.value(&document).first(alloc)?.unwrap_or(&Value::Null);
    /// assert!(rt; first.as_u64() == Some(2));
    /// ```
    pub fn first(&self, alloc: Global) -> Result<Option<&'a Value>, JsonPathError>
        ensures ok { IfOk result (λ first. IsFirstOf (AreValuesFor self.now.path (document self.now)) (option_map (λ v. document_of (view v.now)) first)) }
        ensures refused { IfErr result (IsSelectRefused self.now.path (document self.now)) }
    {
        let (path, value) = self.path_and_value()?;
        path.first(alloc, *value)
    }
}
