//! Updates of the document of an update type, as statements: each returns `Ok(())` or an error.
ghost use Rattle.std.specs.Prelude.{◌≡◌, Ok, IfErr, OnOk, OnErr};
ghost use Rattle.serde_json.specs.View.{view};
ghost use Rattle.jsonpath_nodes.specs.document.OfData.{document_of};
ghost use Rattle.jsonpath_select.specs.selectors.Held.{document, IsSelectRefused};
ghost use Rattle.jsonpath_select.specs.selectors.HeldChanges.{DeletesHeld, RemovesHeld, SetsHeld, ReplacesHeld, TriesHeld, EndsHeld};

use crate::answer::try_replace::TryFault;
use crate::compile::any_path::AnyPath;
use crate::error::JsonPathError;
use crate::selectors::held_pair::HeldPair;
use serde_json::Value;
use std::alloc::Global;

impl<P: AnyPath> HeldPair<P, Value> {
    /// Like `delete`, replaces each selected value of the document by null, except the root and values inside a
    /// replaced one. Errors: `EmptyPath` (no path), `EmptyValue` (only a path), `OutOfMemory`; nothing changes then.
    ///
    /// ```text
    /// let mut held = SelectorMut::new();
    /// held.str_path(alloc, "$[1:]")?.value(read_document(alloc, b"[1, 2, 3]")?);
    /// held.delete_in_place(alloc)?;
    /// assert!(rt; held.select_as_str(alloc)?.as_str() == "[null,null]");
    /// ```
    pub fn delete_in_place(&mut self, alloc: Global) -> Result<(), JsonPathError>
        ensures path { self.new.path ≡ self.old.path }
        ensures ok { OnOk result (DeletesHeld self.old.path (document self.old) (document self.new)) }
        ensures refused { IfErr result (IsSelectRefused self.old.path (document self.old)) }
        ensures kept { OnErr result (self.new ≡ self.old) }
    {
        let path = self.path.as_ref().ok_or(JsonPathError::EmptyPath)?;
        let value = self.value.as_mut().ok_or(JsonPathError::EmptyValue)?;
        path.delete_in(alloc, value)
    }

    /// Removes the selected values below the root from the selector's document, all at once, as `remove` does. Errors:
    /// `EmptyPath` (no path), else `EmptyValue` (no document), else `OutOfMemory`; nothing has changed then.
    ///
    /// ```text
    /// let mut held = SelectorMut::new();
    /// held.str_path(alloc, "$[1:]")?.value(read_document(alloc, b"[1, 2, 3]")?);
    /// held.remove_in_place(alloc)?;
    /// assert!(rt; !held.exists(alloc)?);
    /// ```
    pub fn remove_in_place(&mut self, alloc: Global) -> Result<(), JsonPathError>
        ensures path { self.new.path ≡ self.old.path }
        ensures ok { OnOk result (RemovesHeld self.old.path (document self.old) (document self.new)) }
        ensures refused { IfErr result (IsSelectRefused self.old.path (document self.old)) }
        ensures kept { OnErr result (self.new ≡ self.old) }
    {
        let path = self.path.as_ref().ok_or(JsonPathError::EmptyPath)?;
        let value = self.value.as_mut().ok_or(JsonPathError::EmptyValue)?;
        path.remove_in(alloc, value)
    }

    /// Replaces each selected value of the selector's document by a copy of the value `new`, as `set` does, but returns
    /// no `&mut Self`. The root, and values inside another replaced value, are not replaced. Errors: `EmptyPath` (no
    /// path), `EmptyValue` (a path, no document), `OutOfMemory`; nothing has changed then.
    ///
    /// ```text
    /// let mut held = SelectorMut::new();
    /// held.str_path(alloc, "$[1:]")?.value(read_document(alloc, b"[1, 2, 3]")?);
    /// held.set_in_place(alloc, &Value::Bool(true))?;
    /// assert!(rt; held.select_as_str(alloc)?.as_str() == "[true,true]");
    /// ```
    pub fn set_in_place(&mut self, alloc: Global, new: &Value) -> Result<(), JsonPathError>
        ensures path { self.new.path ≡ self.old.path }
        ensures ok { OnOk result (SetsHeld (document_of (view new.now)) self.old.path (document self.old) (document self.new)) }
        ensures refused { IfErr result (IsSelectRefused self.old.path (document self.old)) }
        ensures kept { OnErr result (self.new ≡ self.old) }
    {
        let path = self.path.as_ref().ok_or(JsonPathError::EmptyPath)?;
        let value = self.value.as_mut().ok_or(JsonPathError::EmptyValue)?;
        path.set_in(alloc, value, new)
    }

    /// Calls the closure once for each selected location below the root, with the value that the earlier updates left
    /// there: if the closure returns `Some`, this replaces the value; if `None`, the value is removed. A location that
    /// no longer exists is skipped. The method `replace_with` does the same, but returns `&mut Self`. Errors, before
    /// the closure is called: `EmptyPath` (no path), `EmptyValue` (a path, no document), `OutOfMemory`.
    ///
    /// ```text
    /// let mut held = SelectorMut::new();
    /// held.str_path(alloc, "$[1:]")?.value(read_document(alloc, b"[1, 2, 3]")?);
    /// let to_null = &mut |_old: Value| Some(Value::Null);
    /// held.replace_in_place(alloc, to_null)?;
    /// assert!(rt; held.select_as_str(alloc)?.as_str() == "[null,null]");
    /// ```
    pub fn replace_in_place<F: FnMut(Value) -> Option<Value>>(
        &mut self,
        alloc: Global,
        fun: &mut F,
    ) -> Result<(), JsonPathError>
        requires { F.IsAlwaysCallable fun.old }
        ensures path { self.new.path ≡ self.old.path }
        ensures ok { OnOk result (ReplacesHeld F.FnMut self.old.path (document self.old) fun.old fun.new (document self.new)) }
        ensures refused { IfErr result (IsSelectRefused self.old.path (document self.old)) }
        ensures kept { OnErr result (self.new ≡ self.old) }
        ensures unasked { OnErr result (fun.new ≡ fun.old) }
        ensures callable { F.IsAlwaysCallable fun.new }
    {
        let path = self.path.as_ref().ok_or(JsonPathError::EmptyPath)?;
        let value = self.value.as_mut().ok_or(JsonPathError::EmptyValue)?;
        path.replace_in(alloc, value, fun)
    }

    /// Calls the closure once for each selected location below the root that still exists, with a reference to the
    /// value that the earlier updates left there: `Some` replaces the value, `None` removes it. The locations come in
    /// document order: parents before children, members by their names' bytes, items by index. The closure's first
    /// error ends the updates and is returned as `Refused`; the updates before it remain. Errors before the closure is
    /// called are `Unasked`: `EmptyPath` (no path), `EmptyValue` (a path, no document), `OutOfMemory`.
    ///
    /// ```text
    /// let mut held = SelectorMut::new();
    /// held.str_path(alloc, "$[1:]")?.value(read_document(alloc, b"[1, 2, 3]")?);
    /// let refuse = &mut |_old: &Value| Err::<Option<Value>, u8>(7);
    /// let tried = held.try_replace_in_place(alloc, refuse);
    /// assert!(rt; matches!(tried, Err(TryFault::Refused(7))));
    /// ```
    pub fn try_replace_in_place<E, F: FnMut(&Value) -> Result<Option<Value>, E>>(
        &mut self,
        alloc: Global,
        fun: &mut F,
    ) -> Result<(), TryFault<E>>
        requires { F.IsAlwaysCallable fun.old }
        ensures path { self.new.path ≡ self.old.path }
        ensures ok { OnOk result (TriesHeld F.FnMut self.old.path (document self.old) fun.old (Ok tt) fun.new (document self.new)) }
        ensures refused { IfErr result (EndsHeld F.FnMut self.old.path (document self.old) fun.old fun.new (document self.new)) }
        ensures callable { F.IsAlwaysCallable fun.new }
    {
        let Some(path) = &self.path else {
            return Err(TryFault::Unasked(JsonPathError::EmptyPath));
        };
        let Some(value) = &mut self.value else {
            return Err(TryFault::Unasked(JsonPathError::EmptyValue));
        };
        path.try_replace_in(alloc, value, fun)
    }
}
