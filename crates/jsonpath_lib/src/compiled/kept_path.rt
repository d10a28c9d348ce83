//! A compiled path that is kept for many documents: what it selects in them, and updates at what it selects.
ghost use Rattle.std.specs.Prelude.{◌≡◌, map, IfOk, IfErr, OnErr};
ghost use Rattle.serde_json.specs.View.{view};
ghost use Rattle.jsonpath_nodes.specs.document.OfData.{document_of};
ghost use Rattle.jsonpath_select.specs.Meaning.{Selects};
ghost use Rattle.jsonpath_select.specs.Targets.{IsDeleted, IsReplaced};

use jsonpath_select::{AnyPath, JsonPathError, PathParts};
use serde_json::Value;
use std::alloc::Global;
use std::marker::Model;

/// A compiled path, stored for use on many documents. It has two aliases: [`Compiled`](crate::Compiled) owns the path
/// text; [`PathCompiled`](crate::PathCompiled) borrows it, and its clones share one compiled path. Besides `select`,
/// `delete` and `replace_with` it has the methods of [`AnyPath`](crate::AnyPath).
///
/// ```text
/// let path: KeptPath<Node> = Compiled::compile(alloc, "$[1:]")?;
/// assert_eq!(rt; path.count(alloc, &read_document(alloc, b"[1, 2, 3]")?)?, 2);
/// ```
#[derive(Drop)]
pub struct KeptPath<P: AnyPath> {
    pub(crate) path: P,
}

impl<P: AnyPath> Model for KeptPath<P> {
    ghost use Rattle.std.specs.Prelude.{List, ℕ};

    ghost Value = { List ℕ };

    ghost view = { λ kept. P.spelling kept.path };
}

impl<P: AnyPath> AnyPath for KeptPath<P> {
    ghost spelling = { λ kept. kept };

    fn parts(&self) -> PathParts<'_> {
        self.path.parts()
    }
}

impl<P: AnyPath> KeptPath<P> {
    /// The values that this path selects in the document, in the order in which the path finds them, with duplicates.
    /// They borrow the document alone. The only error is `OutOfMemory`.
    ///
    /// ```text
    /// let document = read_document(alloc, b"[1, 2, 3]")?;
    /// let found = Compiled::compile(alloc, "$[1:]")?.select(alloc, &document)?;
    /// assert!(rt; list_to_text(alloc, found.as_slice())?.as_str() == "[2,3]");
    /// ```
    pub fn select<'v>(
        &self,
        alloc: Global,
        value: &'v Value,
    ) -> Result<Vec<&'v Value>, JsonPathError>
        ensures ok { IfOk result (λ found. Selects self.now (document_of (view value.now)) (map (λ v. document_of (view v.now)) found.items)) }
        ensures refused { IfErr result (λ e. e ≡ JsonPathError.OutOfMemory) }
    {
        self.path.select(alloc, value)
    }

    /// The document with each selected value replaced by null, except the root and values inside another replaced
    /// value. The only error is `OutOfMemory`; the document is then dropped.
    ///
    /// ```text
    /// let document = read_document(alloc, b"[1, 2, 3]")?;
    /// let deleted = Compiled::compile(alloc, "$[1:]")?.delete(alloc, document)?;
    /// assert!(rt; document_to_text(alloc, &deleted)?.as_str() == "[1,null,null]");
    /// ```
    pub fn delete(&self, alloc: Global, value: Value) -> Result<Value, JsonPathError>
        ensures ok { IfOk result (λ changed. IsDeleted self.now (document_of (view value)) (document_of (view changed))) }
        ensures refused { IfErr result (λ e. e ≡ JsonPathError.OutOfMemory) }
    {
        let mut changed = value;
        self.path.delete_in(alloc, &mut changed)?;
        Ok(changed)
    }

    /// Calls the closure once for each selected location below the root, with the value that the earlier updates left
    /// there, and returns the changed document. A returned `Some` replaces that value, `None` removes it. The locations
    /// come in document order: parents before children, members by their names' bytes, items by index. They are fixed
    /// beforehand: after an item was removed, the next is at its location; a location that no longer exists is skipped.
    /// The only error is `OutOfMemory`; the closure is then not called, and the document is dropped.
    ///
    /// ```text
    /// let document = read_document(alloc, b"[1, 2, 3]")?;
    /// let to_null = &mut |_old: Value| Some(Value::Null);
    /// let changed = Compiled::compile(alloc, "$[1:]")?.replace_with(alloc, document, to_null)?;
    /// assert!(rt; document_to_text(alloc, &changed)?.as_str() == "[1,null,null]");
    /// ```
    pub fn replace_with<F: FnMut(Value) -> Option<Value>>(
        &self,
        alloc: Global,
        value: Value,
        fun: &mut F,
    ) -> Result<Value, JsonPathError>
        requires { F.IsAlwaysCallable fun.old }
        ensures ok { IfOk result (λ changed. IsReplaced F.FnMut self.now (document_of (view value)) fun.old fun.new (document_of (view changed))) }
        ensures refused { IfErr result (λ e. e ≡ JsonPathError.OutOfMemory) }
        ensures unasked { OnErr result (fun.new ≡ fun.old) }
        ensures callable { F.IsAlwaysCallable fun.new }
    {
        let mut changed = value;
        self.path.replace_in(alloc, &mut changed, fun)?;
        Ok(changed)
    }
}
