//! Updates of the document of an update type, which chain: at `Ok` each returns the update type itself.
ghost use Rattle.std.specs.Prelude.{◌≡◌, IfOk, IfErr, OnErr};
ghost use Rattle.std.specs.Borrow.{sem};
ghost use Rattle.serde_json.specs.View.{view};
ghost use Rattle.jsonpath_nodes.specs.document.OfData.{document_of};
ghost use Rattle.jsonpath_select.specs.selectors.Held.{document, IsSelectRefused};
ghost use Rattle.jsonpath_select.specs.selectors.HeldChanges.{DeletesHeld, RemovesHeld, SetsHeld, ReplacesHeld};
ghost use Rattle.jsonpath_select.specs.selectors.PairLends.{held_lends};

use crate::compile::any_path::AnyPath;
use crate::error::JsonPathError;
use crate::selectors::held_pair::HeldPair;
use serde_json::Value;
use std::alloc::Global;

impl<P: AnyPath> HeldPair<P, Value> {
    /// Replaces each selected value of the selector's document by null, and returns the selector. The root, and values
    /// inside another replaced value, are not replaced. All else stays as it is.
    ///
    /// Errors, changing nothing: `EmptyPath` (no path), else `EmptyValue` (no document), else `OutOfMemory` alone.
    ///
    /// ```text
    /// let mut held = SelectorMut::new();
    /// held.str_path(alloc, "$[1:]")?.value(read_document(alloc, b"[1, 2, 3]")?);
    /// let changed = held.delete(alloc)?.take().unwrap_or(Value::Null);
    /// assert!(rt; document_to_text(alloc, &changed)?.as_str() == "[1,null,null]");
    /// ```
    pub fn delete(&mut self, alloc: Global) -> Result<&mut Self, JsonPathError>
        ensures* kept { sem 𝓛 (held_lends P.row P.AnyPath self.entry result) }
        ensures place { IfOk result (λ s. s.ghost_name ≡ self.entry.ghost_name) }
        ensures path { IfOk result (λ s. s.now.path ≡ self.old.path) }
        ensures ok { IfOk result (λ s. DeletesHeld self.old.path (document self.old) (document s.now)) }
        ensures refused { IfErr result (IsSelectRefused self.old.path (document self.old)) }
    {
        match self.delete_in_place(alloc) {
            Ok(()) => Ok(self),
            Err(error) => Err(error),
        }
    }

    /// Removes the selected values below the root from the selector's document; an array's other items keep their
    /// order. Errors, changing nothing: `EmptyPath` (no path), else `EmptyValue` (no document), else `OutOfMemory`.
    ///
    /// ```text
    /// let mut held = SelectorMut::new();
    /// held.str_path(alloc, "$[1:]")?.value(read_document(alloc, b"[1, 2, 3]")?);
    /// let changed = held.remove(alloc)?.take().unwrap_or(Value::Null);
    /// assert!(rt; document_to_text(alloc, &changed)?.as_str() == "[1]");
    /// ```
    pub fn remove(&mut self, alloc: Global) -> Result<&mut Self, JsonPathError>
        ensures* kept { sem 𝓛 (held_lends P.row P.AnyPath self.entry result) }
        ensures place { IfOk result (λ s. s.ghost_name ≡ self.entry.ghost_name) }
        ensures path { IfOk result (λ s. s.now.path ≡ self.old.path) }
        ensures ok { IfOk result (λ s. RemovesHeld self.old.path (document self.old) (document s.now)) }
        ensures refused { IfErr result (IsSelectRefused self.old.path (document self.old)) }
    {
        match self.remove_in_place(alloc) {
            Ok(()) => Ok(self),
            Err(error) => Err(error),
        }
    }

    /// Replaces each selected value of the selector's document by a copy of the value `new`, and returns the selector.
    /// The root, and values inside another replaced value, are not replaced. Errors: `EmptyPath` (no path),
    /// `EmptyValue` (a path, no document), else `OutOfMemory`; nothing has changed then.
    ///
    /// ```text
    /// let mut held = SelectorMut::new();
    /// held.str_path(alloc, "$[1:]")?.value(read_document(alloc, b"[1, 2, 3]")?);
    /// let changed = held.set(alloc, &Value::Bool(true))?.take().unwrap_or(Value::Null);
    /// assert!(rt; document_to_text(alloc, &changed)?.as_str() == "[1,true,true]");
    /// ```
    pub fn set(&mut self, alloc: Global, new: &Value) -> Result<&mut Self, JsonPathError>
        ensures* kept { sem 𝓛 (held_lends P.row P.AnyPath self.entry result) }
        ensures place { IfOk result (λ s. s.ghost_name ≡ self.entry.ghost_name) }
        ensures path { IfOk result (λ s. s.now.path ≡ self.old.path) }
        ensures ok { IfOk result (λ s. SetsHeld (document_of (view new.now)) self.old.path (document self.old) (document s.now)) }
        ensures refused { IfErr result (IsSelectRefused self.old.path (document self.old)) }
    {
        match self.set_in_place(alloc, new) {
            Ok(()) => Ok(self),
            Err(error) => Err(error),
        }
    }

    /// Calls the closure once for each selected location below the root, with the value that the earlier updates left
    /// there: if the closure returns `Some`, this replaces the value; if `None`, the value is removed. The locations
    /// come in document order: parents before children, members by their names' bytes, items by index. They are found
    /// beforehand and stay fixed: if the item at `$[0]` is removed, the next item is then at `$[0]`, no longer at
    /// `$[1]`. A location that no longer exists is skipped. Errors, before the closure is called: `EmptyPath` (no
    /// path), `EmptyValue` (a path, no document), `OutOfMemory`.
    ///
    /// ```text
    /// let mut held = SelectorMut::new();
    /// held.str_path(alloc, "$[1:]")?.value(read_document(alloc, b"[1, 2, 3]")?);
    /// let to_null = &mut |_old: Value| Some(Value::Null);
    /// held.replace_with(alloc, to_null)?;
    /// assert!(rt; held.select_as_str(alloc)?.as_str() == "[null,null]");
    /// ```
    pub fn replace_with<F: FnMut(Value) -> Option<Value>>(
        &mut self,
        alloc: Global,
        fun: &mut F,
    ) -> Result<&mut Self, JsonPathError>
        requires { F.IsAlwaysCallable fun.old }
        ensures* kept { sem 𝓛 (held_lends P.row P.AnyPath self.entry result) }
        ensures place { IfOk result (λ s. s.ghost_name ≡ self.entry.ghost_name) }
        ensures path { IfOk result (λ s. s.now.path ≡ self.old.path) }
        ensures ok { IfOk result (λ s. ReplacesHeld F.FnMut self.old.path (document self.old) fun.old fun.new (document s.now)) }
        ensures refused { IfErr result (IsSelectRefused self.old.path (document self.old)) }
        ensures unasked { OnErr result (fun.new ≡ fun.old) }
        ensures callable { F.IsAlwaysCallable fun.new }
    {
        match self.replace_in_place(alloc, fun) {
            Ok(()) => Ok(self),
            Err(error) => Err(error),
        }
    }
}
