//! Update types, which own their document: how it is set, read and taken out.
ghost use Rattle.std.specs.Prelude.{◌≡◌, Some, None, map, option_map, IfOk, IfErr};
ghost use Rattle.serde_json.specs.View.{view};
ghost use Rattle.jsonpath_nodes.specs.document.OfData.{document_of};
ghost use Rattle.jsonpath_select.specs.selectors.Held.{document, AreSpotsFor, AreValuesFor, IsSelectRefused};
ghost use Rattle.jsonpath_select.specs.answer.Counted.{IsFirstOf};

use crate::compile::any_path::AnyPath;
use crate::error::JsonPathError;
use crate::selectors::held_pair::HeldPair;
use jsonpath_nodes::Spot;
use serde_json::Value;
use std::alloc::Global;

impl<P: AnyPath> HeldPair<P, Value> {
    /// Gives the selector a document to change; drops the old. Allocates nothing. Named as in Rust's `jsonpath_lib`.
    ///
    /// ```text
    /// let mut held = SelectorMut::new();
    /// held.str_path(alloc, "$[1:]")?.value(read_document(alloc, b"[1, 2, 3]")?);
    /// assert_eq!(rt; held.count(alloc)?, 2);
    /// ```
    pub fn value(&mut self, value: Value) -> &mut Self
        ensures place { result.ghost_name ≡ self.entry.ghost_name }
        ensures held { result.now ≡ record self.entry.now { value = Some value } }
    {
        self.value = Some(value);
        self
    }

    /// Moves the document, as changed so far, out of the selector; `None` if it has none. Allocates no memory.
    ///
    /// ```text
    /// let mut held = SelectorMut::default();
    /// held.value(Value::Null);
    /// assert!(rt; held.take().is_some());
    /// assert!(rt; held.take().is_none());
    /// ```
    pub fn take(&mut self) -> Option<Value>
        ensures taken { result ≡ self.old.value }
        ensures held { self.new ≡ record self.old { value = None } }
    {
        self.value.take()
    }

    /// The values that the path selects in the document, in the order in which the path finds them, with duplicates.
    /// Errors: `EmptyPath` (no path), `EmptyValue` (a path, no document), `OutOfMemory`.
    ///
    /// ```text
    /// let mut held = SelectorMut::new();
    /// held.str_path(alloc, "$[1:]")?.value(read_document(alloc, b"[1, 2, 3]")?);
    /// let found = held.select(alloc)?;
    /// assert!(rt; list_to_text(alloc, found.as_slice())?.as_str() == "[2,3]");
    /// ```
    pub fn select(&self, alloc: Global) -> Result<Vec<&Value>, JsonPathError>
        ensures ok { IfOk result (λ found. AreValuesFor self.now.path (document self.now) (map (λ v. document_of (view v.now)) found.items)) }
        ensures refused { IfErr result (IsSelectRefused self.now.path (document self.now)) }
    {
        let (path, value) = self.path_and_value()?;
        path.select(alloc, value)
    }

    /// The nodes (values with locations) that the path selects in the document, in the order in which the path finds
    /// them, with duplicates. Errors: `EmptyPath` (no path), `EmptyValue` (a path, no document), `OutOfMemory`.
    ///
    /// ```text
    /// let mut held = SelectorMut::new();
    /// held.str_path(alloc, "$[1:]")?.value(read_document(alloc, b"[1, 2, 3]")?);
    /// let spots = held.select_spots(alloc)?;
    /// assert_eq!(rt; spots.len(), 2);
    /// assert!(rt; spots[1].value().as_u64() == Some(3));
    /// ```
    pub fn select_spots(&self, alloc: Global) -> Result<Vec<Spot<'_>>, JsonPathError>
        ensures ok { IfOk result (λ found. AreSpotsFor self.now.path (document self.now) found.items) }
        ensures refused { IfErr result (IsSelectRefused self.now.path (document self.now)) }
    {
        let (path, value) = self.path_and_value()?;
        path.select_spots(alloc, value)
    }

    /// The first selected value, in the order in which the path finds them, or `None`. Errors: `EmptyPath` (no path),
    /// `EmptyValue` (a path, no document), `OutOfMemory`.
    ///
    /// ```text
    /// let mut held = SelectorMut::new();
    /// held.str_path(alloc, "$[1:]")?.value(read_document(alloc, b"[1, 2, 3]")?);
    /// let first = held.first(alloc)?.unwrap_or(&Value::Null);
    /// assert!(rt; first.as_u64() == Some(2));
    /// ```
    pub fn first(&self, alloc: Global) -> Result<Option<&Value>, JsonPathError>
        ensures ok { IfOk result (λ first. IsFirstOf (AreValuesFor self.now.path (document self.now)) (option_map (λ v. document_of (view v.now)) first)) }
        ensures refused { IfErr result (IsSelectRefused self.now.path (document self.now)) }
    {
        let (path, value) = self.path_and_value()?;
        path.first(alloc, value)
    }
}
