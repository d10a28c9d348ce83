//! Selectors by a `PathParser`, a compiled path that borrows its text; the selector owns or shares the path.
ghost use Rattle.std.specs.Prelude.{◌≡◌, Some, None, IfOk, IfErr, OnOk, OnErr};
ghost use Rattle.std.specs.Borrow.{sem};
ghost use Rattle.jsonpath_select.specs.selectors.PairLends.{json_pair_lends};

use crate::error::JsonPathError;
use crate::selectors::held_pair::{HeldPair, HeldValue};
use jsonpath_paths::PathParser;
use serde_json::Value;
use std::alloc::Global;
use std::rc::Rc;

/// A selector, which is an object with a compiled path and a borrowed value to search. Both are optional, and either
/// can be set again, which replaces the earlier one. A select call changes neither, and stores no answer.
///
/// ```text
/// let document = read_document(alloc, b"[1, 2, 3]")?;
/// let mut held = JsonSelector::new(alloc, compile_path(alloc, "$[1:]")?)?;
/// let text = held.value(&document).select_as_str(alloc)?;
/// assert!(rt; text.as_str() == "[2,3]");
/// ```
pub type JsonSelector<'a> = HeldPair<Rc<PathParser<'a>>, &'a Value>;

/// A selector, which is an object with a `PathParser` (a compiled path, which borrows its text and may be shared) and
/// an owned document, which its updates change. Both are optional; each is the one set last. An update changes only the
/// document. If an update returns an error, the document is unchanged, unless the update's closure returned this error.
///
/// ```text
/// let document = read_document(alloc, b"[1, 2, 3]")?;
/// let mut held = JsonSelectorMut::new(alloc, compile_path(alloc, "$[0]")?)?;
/// let changed = held.value(document).delete(alloc)?.take();
/// let changed = changed.unwrap_or(Value::Null);
/// assert!(rt; document_to_text(alloc, &changed)?.as_str() == "[null,2,3]");
/// ```
pub type JsonSelectorMut<'a> = HeldPair<Rc<PathParser<'a>>, Value>;

impl<'p, V: HeldValue> HeldPair<Rc<PathParser<'p>>, V> {
    /// Makes a selector with this path, without a value. The only error is `OutOfMemory`; the path is then dropped.
    ///
    /// ```text
    /// let held = JsonSelector::new(alloc, compile_path(alloc, "$[0]")?)?;
    /// assert!(rt; matches!(held.select(alloc), Err(JsonPathError::EmptyValue)));
    /// ```
    pub fn new(
        alloc: Global,
        parser: PathParser<'p>,
    ) -> Result<HeldPair<Rc<PathParser<'p>>, V>, JsonPathError>
        ensures ok { IfOk result (λ s. s ≡ record { path = Some parser.entry; value = None }) }
        ensures refused { IfErr result (λ e. e ≡ JsonPathError.OutOfMemory) }
    {
        Ok(HeldPair::new_ref(Rc::new(alloc, parser)?))
    }

    /// Makes a `JsonSelector` or a `JsonSelectorMut` with this shared path and no value. The call allocates no memory.
    /// Named as in the Rust crate `jsonpath_lib`.
    ///
    /// ```text
    /// let document = read_document(alloc, b"[1, 2, 3]")?;
    /// let path = Rc::new(alloc, compile_path(alloc, "$[0]")?)?;
    /// let mut held = JsonSelector::new_ref(path);
    /// assert_eq!(rt; held.value(&document).count(alloc)?, 1);
    /// ```
    pub fn new_ref(parser: Rc<PathParser<'p>>) -> HeldPair<Rc<PathParser<'p>>, V>
        ensures { result ≡ record { path = Some parser.entry.value; value = None } }
    {
        HeldPair {
            path: Some(parser),
            value: None,
        }
    }

    /// Replaces the selector's path by the given one, and returns the selector; its value stays. The only error:
    /// `OutOfMemory`; nothing changes then, and the given path is dropped. Named as in the Rust crate `jsonpath_lib`.
    ///
    /// ```text
    /// let document = read_document(alloc, b"[1, 2, 3]")?;
    /// let mut held = JsonSelector::new(alloc, compile_path(alloc, "$[1:]")?)?;
    /// held.value(&document);
    /// held.reset_parser(alloc, compile_path(alloc, "$[0]")?)?;
    /// assert!(rt; held.select_as_str(alloc)?.as_str() == "[1]");
    /// ```
    pub fn reset_parser(
        &mut self,
        alloc: Global,
        parser: PathParser<'p>,
    ) -> Result<&mut Self, JsonPathError>
        ensures* kept { sem 𝓛 (json_pair_lends V.row V.HeldValue self.entry result) }
        ensures place { IfOk result (λ s. s.ghost_name ≡ self.entry.ghost_name) }
        ensures ok { IfOk result (λ s. s.now ≡ record self.old { path = Some parser.entry }) }
        ensures refused { IfErr result (λ e. e ≡ JsonPathError.OutOfMemory) }
    {
        match self.set_parser(alloc, parser) {
            Ok(()) => Ok(self),
            Err(error) => Err(error),
        }
    }

    /// Replaces the selector's path by the given one; its value stays. The method `reset_parser` does the same, but
    /// returns the selector as `&mut Self`. This method doesn't, so that its contract (its proved specification) can
    /// also say what the selector has after an error. The only error is `OutOfMemory`; nothing has changed then.
    ///
    /// ```text
    /// let mut held = JsonSelectorMut::new(alloc, compile_path(alloc, "$[1:]")?)?;
    /// held.value(read_document(alloc, b"[1, 2, 3]")?);
    /// held.set_parser(alloc, compile_path(alloc, "$[0]")?)?;
    /// assert!(rt; held.select_as_str(alloc)?.as_str() == "[1]");
    /// ```
    pub fn set_parser(&mut self, alloc: Global, parser: PathParser<'p>) -> Result<(), JsonPathError>
        ensures ok { OnOk result (self.new ≡ record self.old { path = Some parser.entry }) }
        ensures refused { IfErr result (λ e. e ≡ JsonPathError.OutOfMemory) }
        ensures kept { OnErr result (self.new ≡ self.old) }
    {
        self.path = Some(Rc::new(alloc, parser)?);
        Ok(())
    }

    /// Replaces the selector's path by the given one, which is shared (in an `Rc`), and returns the selector. Its value
    /// stays. The call allocates no memory. Named as in the Rust crate `jsonpath_lib`.
    ///
    /// ```text
    /// let document = read_document(alloc, b"[1, 2, 3]")?;
    /// let mut held = JsonSelector::new(alloc, compile_path(alloc, "$[1:]")?)?;
    /// held.value(&document);
    /// held.reset_parser_ref(Rc::new(alloc, compile_path(alloc, "$[0]")?)?);
    /// assert!(rt; held.select_as_str(alloc)?.as_str() == "[1]");
    /// ```
    pub fn reset_parser_ref(&mut self, parser: Rc<PathParser<'p>>) -> &mut Self
        ensures place { result.ghost_name ≡ self.entry.ghost_name }
        ensures held { result.now ≡ record self.entry.now { path = Some parser.entry.value } }
    {
        self.path = Some(parser);
        self
    }
}
