//! Selectors by a path text or a `Node`, a compiled path that owns its text.
ghost use Rattle.std.specs.Prelude.{◌≡◌, Some, None, option_map, IfOk, IfErr, OnOk, OnErr};
ghost use Rattle.std.specs.Borrow.{sem};
ghost use Rattle.jsonpath_paths.specs.Spelling.{IsInGrammar};
ghost use Rattle.jsonpath_select.specs.JsonPathErrors.{IsPathRefusedMarked};
ghost use Rattle.jsonpath_select.specs.selectors.PairLends.{pair_lends};

use crate::compile::node::Node;
use crate::compile::parser::Parser;
use crate::error::JsonPathError;
use crate::selectors::held_pair::{HeldPair, HeldValue};
use crate::selectors::walked_path::{OfNode, WalkedPath};
use serde_json::Value;
use std::alloc::Global;

/// A selector, which is an object with a compiled path and a borrowed value to search. The path is set as a path text
/// or as a `Node`, a path that is compiled already. Path and value are optional; each is the one set last, by whichever
/// call. A select call changes neither of them, whether it succeeds or not, and stores no answer.
///
/// ```text
/// let document = read_document(alloc, b"[1, 2, 3]")?;
/// let mut held = Selector::new();
/// held.value(&document).str_path(alloc, "$[0]")?;
/// assert!(rt; held.select_as_str(alloc)?.as_str() == "[1]");
/// held.str_path(alloc, "$[-1]")?;
/// assert!(rt; held.select_as_str(alloc)?.as_str() == "[3]");
/// ```
pub type Selector<'a, 'b> = HeldPair<WalkedPath<'b>, &'a Value>;

/// A selector, which is an object with a compiled path and an owned document, which its updates change. Both are
/// optional; each is the one set last, by whichever call. An update changes only the document. If an update returns an
/// error, the document is unchanged, unless the closure that makes the new values returned this error.
///
/// ```text
/// let document = read_document(alloc, b"[1, 2, 3]")?;
/// let mut held = SelectorMut::new();
/// held.str_path(alloc, "$[0]")?.value(document);
/// let changed = held.remove(alloc)?.take().unwrap_or(Value::Null);
/// assert!(rt; document_to_text(alloc, &changed)?.as_str() == "[2,3]");
/// ```
pub type SelectorMut = HeldPair<Node, Value>;

impl<P: OfNode + Drop, V: HeldValue> HeldPair<P, V> {
    /// Compiles a path text, replaces the selector's path by it, and returns the selector. Errors: `Path` exactly if
    /// the text is outside the grammar, or `OutOfMemory`; the selector is unchanged after either. The message of `Path`
    /// is the text, a line end and a `^` for each byte of the text up to the end of the wrong token, or for each of its
    /// bytes if the text ends too early. Named as in the Rust crate `jsonpath_lib`.
    ///
    /// ```text
    /// let document = read_document(alloc, b"[1, 2, 3]")?;
    /// let mut held = Selector::new();
    /// held.value(&document).str_path(alloc, "$[0]")?;
    /// assert!(rt; held.str_path(alloc, "$[").is_err());
    /// assert!(rt; held.select_as_str(alloc)?.as_str() == "[1]");
    /// ```
    pub fn str_path(&mut self, alloc: Global, path: &str) -> Result<&mut Self, JsonPathError>
        ensures* kept { sem 𝓛 (pair_lends P.row P.AnyPath V.row V.HeldValue self.entry result) }
        ensures place { IfOk result (λ s. s.ghost_name ≡ self.entry.ghost_name) }
        ensures ok { IfOk result (λ s. s.now ≡ record self.old { path = Some path.now }) }
        ensures spelled { OnOk result (IsInGrammar path.now) }
        ensures refused { IfErr result (IsPathRefusedMarked path.now) }
    {
        match self.set_path(alloc, path) {
            Ok(()) => Ok(self),
            Err(error) => Err(error),
        }
    }

    /// Compiles a path text and replaces the selector's path, as `str_path` does. It returns no `&mut Self`, so that
    /// its contract (its proved specification) can also say what the selector has after an error. Errors: `Path`
    /// exactly if the text is outside the grammar, or `OutOfMemory`; nothing has changed then.
    ///
    /// ```text
    /// let mut held = SelectorMut::new();
    /// held.str_path(alloc, "$[1:]")?.value(read_document(alloc, b"[1, 2, 3]")?);
    /// assert!(rt; held.set_path(alloc, "$[").is_err());
    /// assert!(rt; held.select_as_str(alloc)?.as_str() == "[2,3]");
    /// ```
    pub fn set_path(&mut self, alloc: Global, path: &str) -> Result<(), JsonPathError>
        ensures ok { OnOk result (self.new ≡ record self.old { path = Some path.now }) }
        ensures spelled { OnOk result (IsInGrammar path.now) }
        ensures refused { IfErr result (IsPathRefusedMarked path.now) }
        ensures kept { OnErr result (self.new ≡ self.old) }
    {
        let node = Parser::compile(alloc, path)?;
        self.path = Some(P::of_node(node));
        Ok(())
    }
}

impl<'a, 'b> Selector<'a, 'b> {
    /// Makes a selector, for a compiled path and a borrowed value to search, both not set yet. Allocates no memory.
    ///
    /// ```text
    /// let held = Selector::new();
    /// assert!(rt; matches!(held.select(alloc), Err(JsonPathError::EmptyPath)));
    /// ```
    pub fn new() -> Selector<'a, 'b>
        ensures { result ≡ record { path = None; value = None } }
    {
        HeldPair::default()
    }

    /// The selector's compiled path, or `None`. Allocates no memory. Named as in the Rust crate `jsonpath_lib`.
    ///
    /// ```text
    /// let mut held = Selector::new();
    /// assert!(rt; held.node_ref().is_none());
    /// held.set_path(alloc, "$[0]")?;
    /// assert!(rt; held.node_ref().is_some_and(|node| node.text() == "$[0]"));
    /// ```
    pub fn node_ref(&self) -> Option<&Node>
        ensures { option_map (λ node. node.now) result ≡ self.now.path }
    {
        match &self.path {
            Some(path) => Some(path.node()),
            None => None,
        }
    }

    /// Sets the selector's compiled path, borrowed. Allocates no memory. Named as in the Rust crate `jsonpath_lib`.
    ///
    /// ```text
    /// let document = read_document(alloc, b"[1, 2, 3]")?;
    /// let node = Parser::compile(alloc, "$[0]")?;
    /// let mut held = Selector::new();
    /// held.value(&document).compiled_path(&node);
    /// assert!(rt; held.select_as_str(alloc)?.as_str() == "[1]");
    /// ```
    pub fn compiled_path(&mut self, node: &'b Node) -> &mut Self
        ensures place { result.ghost_name ≡ self.entry.ghost_name }
        ensures held { result.now ≡ record self.entry.now { path = Some node.now } }
    {
        self.path = Some(WalkedPath::Lent(node));
        self
    }
}

impl SelectorMut {
    /// Makes a `SelectorMut` with no path and no document. The call allocates no memory.
    ///
    /// ```text
    /// let mut held = SelectorMut::new();
    /// assert!(rt; matches!(held.delete(alloc), Err(JsonPathError::EmptyPath)));
    /// ```
    pub fn new() -> SelectorMut
        ensures { result ≡ record { path = None; value = None } }
    {
        HeldPair::default()
    }

    /// Sets the selector's path to this compiled one. Allocates no memory. Named as in the Rust crate `jsonpath_lib`.
    ///
    /// ```text
    /// let mut held = SelectorMut::new();
    /// held.str_path(alloc, "$[1:]")?.value(read_document(alloc, b"[1, 2, 3]")?);
    /// held.compiled_path(Parser::compile(alloc, "$[0]")?);
    /// assert!(rt; held.select_as_str(alloc)?.as_str() == "[1]");
    /// ```
    pub fn compiled_path(&mut self, node: Node) -> &mut Self
        ensures place { result.ghost_name ≡ self.entry.ghost_name }
        ensures held { result.now ≡ record self.entry.now { path = Some node } }
    {
        self.path = Some(node);
        self
    }
}
