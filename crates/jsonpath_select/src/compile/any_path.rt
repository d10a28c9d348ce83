//! A compiled path of any kind: what it selects in a document, and updates at what it selects.
ghost use Rattle.std.specs.Prelude.{◌≡◌, ℕ, List, Ok, map, option_map, string_bytes, vec_len, IfOk, IfErr, OnOk, OnErr};
ghost use Rattle.serde_json.specs.View.{view};
ghost use Rattle.jsonpath_nodes.specs.document.OfData.{document_of};
ghost use Rattle.jsonpath_select.specs.answer.Counted.{IsCountOf, IsFirstOf, TellsIfAny};
ghost use Rattle.jsonpath_select.specs.answer.Given.{IsTextOfAnswer, IsTypedCountOf, IsTextRefusedOf, IsTypedRefusedOf};
ghost use Rattle.jsonpath_select.specs.AnyPath.{ArePartsOf};
ghost use Rattle.jsonpath_select.specs.Meaning.{Selects, SelectsAt, SelectsSpots};
ghost use Rattle.jsonpath_select.specs.Targets.{IsDeleted, IsRemoved, IsSet, IsReplaced};
ghost use Rattle.jsonpath_select.specs.Tried.{IsTried, IsEnded};

use crate::answer::count_first_exists::{exists_by_parts, first_by_parts};
use crate::answer::of_spots::locations_of_selected_spots;
use crate::answer::select::{nodes_by_parts, values_in_tree};
use crate::answer::targets::targets_of;
use crate::answer::text::list_to_text;
use crate::answer::try_replace::{TryFault, try_replace_at_targets};
use crate::answer::typed::list_to_typed;
use crate::compile::node::Node;
use crate::error::JsonPathError;
use jsonpath_nodes::{Location, Spot, delete_at, replace_at, set_at_once, take_at_once};
use jsonpath_paths::{ParseToken, ParserNode, PathParser};
use serde::DeserializeOwned;
use serde_json::Value;
use std::alloc::Global;
use std::rc::Rc;

/// The parts of a compiled path, borrowed: its text, its syntax tree, and its token list, which is that tree as a list.
///
/// ```text
/// let path = Parser::compile(alloc, "$[0]")?;
/// let parts = path.parts();
/// assert!(rt; parts.text == "$[0]");
/// assert_eq!(rt; parts.tree.steps.len(), 1);
/// ```
#[derive(Clone, Copy)]
pub struct PathParts<'p> {
    /// A field of the parts of a compiled path: its text.
    pub text: &'p str,
    /// A field of the parts of a compiled path: its syntax tree.
    pub tree: &'p ParserNode,
    /// The token list of a compiled path: its syntax tree written out as a list.
    pub tokens: &'p [ParseToken],
}

/// A trait of compiled paths. Its implementors: `PathParser`, which borrows its text; `Node`, which owns its text;
/// `Compiled` and `PathCompiled` of this library's crate `jsonpath_lib`; and an `Rc` of any of these. Methods with a
/// `&Value` select in that document; those with a `&mut Value` change the document at the selected values.
///
/// ```text
/// let mut document = read_document(alloc, b"[1, 2, 3]")?;
/// let path = compile_path(alloc, "$[1:]")?;
/// assert_eq!(rt; path.count(alloc, &document)?, 2);
/// path.delete_in(alloc, &mut document)?;
/// assert!(rt; path.select_as_str(alloc, &document)?.as_str() == "[null,null]");
/// ```
pub trait AnyPath {
    // The text of the path.
    ghost spelling: { Self → List ℕ };

    /// This path's text, syntax tree and token list (the tree written out), borrowed. The call allocates no memory.
    ///
    /// ```text
    /// let path = compile_path(alloc, "$.*")?;
    /// assert!(rt; path.parts().text == "$.*");
    /// assert_eq!(rt; path.parts().tokens.len(), 3);
    /// ```
    fn parts(&self) -> PathParts<'_>
        ensures { ArePartsOf (spelling self.now) result };

    /// The values that the path selects in the document, in the order in which the path finds them, with duplicates.
    /// They borrow the document alone. The only error is `OutOfMemory`.
    ///
    /// ```text
    /// let document = read_document(alloc, b"[1, 2, 3]")?;
    /// let path = compile_path(alloc, "$[1:]")?;
    /// let found = path.select(alloc, &document)?;
    /// assert!(rt; list_to_text(alloc, found.as_slice())?.as_str() == "[2,3]");
    /// ```
    fn select<'v>(&self, alloc: Global, value: &'v Value) -> Result<Vec<&'v Value>, JsonPathError>
        ensures ok { IfOk result (λ found. Selects (spelling self.now) (document_of (view value.now)) (map (λ v. document_of (view v.now)) found.items)) }
        ensures refused { IfErr result (λ e. e ≡ JsonPathError.OutOfMemory) }
    {
        Ok(values_in_tree(alloc, value, self.parts())?)
    }

    /// The nodes that the path selects in the document, each a value with its location, in the order in which the path
    /// finds them, with duplicates. They borrow the document alone. The only error is `OutOfMemory`.
    ///
    /// ```text
    /// let document = read_document(alloc, b"[1, 2, 3]")?;
    /// let path = compile_path(alloc, "$[1:]")?;
    /// let spots = path.select_spots(alloc, &document)?;
    /// assert_eq!(rt; spots.len(), 2);
    /// assert!(rt; spots[1].value().as_u64() == Some(3));
    /// ```
    fn select_spots<'v>(
        &self,
        alloc: Global,
        value: &'v Value,
    ) -> Result<Vec<Spot<'v>>, JsonPathError>
        ensures ok { IfOk result (λ found. SelectsSpots (spelling self.now) (document_of (view value.now)) found.items) }
        ensures refused { IfErr result (λ e. e ≡ JsonPathError.OutOfMemory) }
    {
        Ok(nodes_by_parts(alloc, value, self.parts())?)
    }

    /// The locations that the path selects, in the order in which it finds them, with duplicates. Error: `OutOfMemory`.
    ///
    /// ```text
    /// let document = read_document(alloc, b"[1, 2, 3]")?;
    /// let path = compile_path(alloc, "$[1:]")?;
    /// let found = path.select_locations(alloc, &document)?;
    /// assert_eq!(rt; found.len(), 2);
    /// assert!(rt; found[1].to_string(alloc)?.as_str() == "$[2]");
    /// ```
    fn select_locations(&self, alloc: Global, value: &Value) -> Result<Vec<Location>, JsonPathError>
        ensures ok { IfOk result (λ found. SelectsAt (spelling self.now) (document_of (view value.now)) found.items) }
        ensures refused { IfErr result (λ e. e ≡ JsonPathError.OutOfMemory) }
    {
        let spots = self.select_spots(alloc, value)?;
        locations_of_selected_spots(alloc, spots.as_slice())
    }

    /// The values that the path selects as a JSON text: `[`, their compact texts joined by `,`, and `]`, in the order
    /// in which the path finds the values, with duplicates. Errors: `OutOfMemory`, and `Serde` exactly if one of the
    /// values contains, at any depth, a number that is neither an `i64` nor a `u64`, such as 1.5.
    ///
    /// ```text
    /// let document = read_document(alloc, b"[1, 2, 3]")?;
    /// let path = compile_path(alloc, "$[1:]")?;
    /// assert!(rt; path.select_as_str(alloc, &document)?.as_str() == "[2,3]");
    /// ```
    fn select_as_str(&self, alloc: Global, value: &Value) -> Result<String, JsonPathError>
        ensures ok { IfOk result (λ text. IsTextOfAnswer (Selects (spelling self.now) (document_of (view value.now))) (string_bytes text)) }
        ensures refused { IfErr result (IsTextRefusedOf (Selects (spelling self.now) (document_of (view value.now)))) }
    {
        let found = self.select(alloc, value)?;
        list_to_text(alloc, found.as_slice())
    }

    /// Deserializes each selected value to a `T`, in the order in which the path finds the values, with duplicates.
    /// Errors: `OutOfMemory`, or `Serde` if `serde_json` can't make a `T` of a selected value, or if such a value
    /// contains a number that is neither an `i64` nor a `u64`, such as 1.5, even if `T` is `f64`.
    ///
    /// ```text
    /// let document = read_document(alloc, b"[1, 2, 3]")?;
    /// let path = compile_path(alloc, "$[1:]")?;
    /// let numbers = path.select_as::<u8>(alloc, &document)?;
    /// assert!(rt; matches!(numbers.as_slice(), [2, 3]));
    /// ```
    fn select_as<T: DeserializeOwned>(
        &self,
        alloc: Global,
        value: &Value,
    ) -> Result<Vec<T>, JsonPathError>
        ensures ok { IfOk result (λ found. IsTypedCountOf (Selects (spelling self.now) (document_of (view value.now))) (vec_len found)) }
        ensures refused { IfErr result (IsTypedRefusedOf (Selects (spelling self.now) (document_of (view value.now)))) }
    {
        let found = self.select(alloc, value)?;
        list_to_typed(alloc, found.as_slice())
    }

    /// The number of values that the path selects in the document, duplicates included. The call builds the list of
    /// these values and returns its length. The only error is `OutOfMemory`.
    ///
    /// ```text
    /// let document = read_document(alloc, b"[1, 2, 3]")?;
    /// let path = compile_path(alloc, "$[0,0,1]")?;
    /// assert_eq!(rt; path.count(alloc, &document)?, 3);
    /// ```
    fn count(&self, alloc: Global, value: &Value) -> Result<usize, JsonPathError>
        ensures ok { IfOk result (IsCountOf (Selects (spelling self.now) (document_of (view value.now)))) }
        ensures refused { IfErr result (λ e. e ≡ JsonPathError.OutOfMemory) }
    {
        let found = self.select(alloc, value)?;
        Ok(found.len())
    }

    /// The first of the values that the path selects, in the order in which the path finds them, or `None`. It borrows
    /// only the document. The only error is `OutOfMemory`.
    ///
    /// ```text
    /// let document = read_document(alloc, b"[1, 2, 3]")?;
    /// let path = compile_path(alloc, "$[2,0]")?;
    /// let first = path.first(alloc, &document)?.unwrap_or(&Value::Null);
    /// assert!(rt; first.as_u64() == Some(3));
    /// ```
    fn first<'v>(&self, alloc: Global, value: &'v Value) -> Result<Option<&'v Value>, JsonPathError>
        ensures ok { IfOk result (λ first. IsFirstOf (Selects (spelling self.now) (document_of (view value.now))) (option_map (λ v. document_of (view v.now)) first)) }
        ensures refused { IfErr result (λ e. e ≡ JsonPathError.OutOfMemory) }
    {
        Ok(first_by_parts(alloc, value, self.parts())?)
    }

    /// Whether the path selects any value in the document. The only error is `OutOfMemory`.
    ///
    /// ```text
    /// let document = read_document(alloc, b"[1, 2, 3]")?;
    /// let path = compile_path(alloc, "$[*][?(@ > 2)]")?;
    /// assert!(rt; path.exists(alloc, &document)?);
    /// ```
    fn exists(&self, alloc: Global, value: &Value) -> Result<bool, JsonPathError>
        ensures ok { IfOk result (TellsIfAny (Selects (spelling self.now) (document_of (view value.now)))) }
        ensures refused { IfErr result (λ e. e ≡ JsonPathError.OutOfMemory) }
    {
        Ok(exists_by_parts(alloc, value, self.parts())?)
    }

    /// Replaces each selected value by null, except the root and values inside another replaced value. All else stays
    /// as it is. The only error is `OutOfMemory`, and then the document is unchanged.
    ///
    /// ```text
    /// let mut document = read_document(alloc, b"[1, [2, 3]]")?;
    /// let path = compile_path(alloc, "$[1][0]")?;
    /// path.delete_in(alloc, &mut document)?;
    /// assert!(rt; document_to_text(alloc, &document)?.as_str() == "[1,[null,3]]");
    /// ```
    fn delete_in(&self, alloc: Global, value: &mut Value) -> Result<(), JsonPathError>
        ensures ok { OnOk result (IsDeleted (spelling self.now) (document_of (view value.old)) (document_of (view value.new))) }
        ensures refused { IfErr result (λ e. e ≡ JsonPathError.OutOfMemory) }
        ensures kept { OnErr result (value.new ≡ value.old) }
    {
        let targets = targets_of(alloc, value, self.parts())?;
        delete_at(value, targets.as_slice());
        Ok(())
    }

    /// Removes the selected values below the root, all at once: the other items of an array keep their order. The
    /// only error is `OutOfMemory`, and then the document is unchanged.
    ///
    /// ```text
    /// let mut document = read_document(alloc, b"[1, 2, 3]")?;
    /// let path = compile_path(alloc, "$[0,2]")?;
    /// path.remove_in(alloc, &mut document)?;
    /// assert!(rt; document_to_text(alloc, &document)?.as_str() == "[2]");
    /// ```
    fn remove_in(&self, alloc: Global, value: &mut Value) -> Result<(), JsonPathError>
        ensures ok { OnOk result (IsRemoved (spelling self.now) (document_of (view value.old)) (document_of (view value.new))) }
        ensures refused { IfErr result (λ e. e ≡ JsonPathError.OutOfMemory) }
        ensures kept { OnErr result (value.new ≡ value.old) }
    {
        let targets = targets_of(alloc, value, self.parts())?;
        take_at_once(value, targets.as_slice())?;
        Ok(())
    }

    /// Replaces each selected value by a copy of `new`, all at once, except the root and values inside another replaced
    /// value. All else stays as it is. The only error is `OutOfMemory`, and then the document is unchanged.
    ///
    /// ```text
    /// let mut document = read_document(alloc, b"[1, [2, 3]]")?;
    /// let path = compile_path(alloc, "$..[0]")?;
    /// path.set_in(alloc, &mut document, &Value::Bool(true))?;
    /// assert!(rt; document_to_text(alloc, &document)?.as_str() == "[true,[true,3]]");
    /// ```
    fn set_in(&self, alloc: Global, value: &mut Value, new: &Value) -> Result<(), JsonPathError>
        ensures ok { OnOk result (IsSet (spelling self.now) (document_of (view new.now)) (document_of (view value.old)) (document_of (view value.new))) }
        ensures refused { IfErr result (λ e. e ≡ JsonPathError.OutOfMemory) }
        ensures kept { OnErr result (value.new ≡ value.old) }
    {
        let targets = targets_of(alloc, value, self.parts())?;
        set_at_once(alloc, value, targets.as_slice(), new)?;
        Ok(())
    }

    /// Calls the closure once for each selected location below the root, with the value that the earlier updates left
    /// there: `Some` replaces the value, `None` removes it. The locations come in document order: parents before
    /// children, members by their names' bytes, items by index. They are found beforehand and stay fixed: after an item
    /// was removed, the next item is at its location; a location that no longer exists is skipped. The only error is
    /// `OutOfMemory`; then the document is unchanged and the closure was not called.
    ///
    /// ```text
    /// let mut document = read_document(alloc, b"[1, 2, 3]")?;
    /// let path = compile_path(alloc, "$[1]")?;
    /// path.replace_in(alloc, &mut document, &mut |_old: Value| None)?;
    /// assert!(rt; document_to_text(alloc, &document)?.as_str() == "[1,3]");
    /// ```
    fn replace_in<F: FnMut(Value) -> Option<Value>>(
        &self,
        alloc: Global,
        value: &mut Value,
        fun: &mut F,
    ) -> Result<(), JsonPathError>
        requires { F.IsAlwaysCallable fun.old }
        ensures ok { OnOk result (IsReplaced F.FnMut (spelling self.now) (document_of (view value.old)) fun.old fun.new (document_of (view value.new))) }
        ensures refused { IfErr result (λ e. e ≡ JsonPathError.OutOfMemory) }
        ensures kept { OnErr result (value.new ≡ value.old) }
        ensures unasked { OnErr result (fun.new ≡ fun.old) }
        ensures callable { F.IsAlwaysCallable fun.new }
    {
        let targets = targets_of(alloc, value, self.parts())?;
        replace_at(value, targets.as_slice(), fun);
        Ok(())
    }

    /// Calls the closure once for each selected location below the root, with a reference to the value that the earlier
    /// updates left there: `Some` replaces the value, `None` removes it. The locations come in document order: parents
    /// before children, members by their names' bytes, items by index. They are found beforehand and stay fixed: after
    /// an item was removed, the next item is at its location; a location that no longer exists is skipped. The
    /// closure's first error ends the updates and is returned as `Refused`; the updates before it remain. The only
    /// other error is `Unasked` with `OutOfMemory`, before the closure is called.
    ///
    /// ```text
    /// let mut document = read_document(alloc, b"[1, \"x\", 3]")?;
    /// let path = compile_path(alloc, "$[*]")?;
    /// let only_numbers = &mut |old: &Value| match old.as_u64() {
    ///     Some(_) => Ok(Some(Value::Null)),
    ///     None => Err("no number"),
    /// };
    /// let tried = path.try_replace_in(alloc, &mut document, only_numbers);
    /// assert!(rt; matches!(tried, Err(TryFault::Refused("no number"))));
    /// assert!(rt; document_to_text(alloc, &document)?.as_str() == "[null,\"x\",3]");
    /// ```
    fn try_replace_in<E, F: FnMut(&Value) -> Result<Option<Value>, E>>(
        &self,
        alloc: Global,
        value: &mut Value,
        fun: &mut F,
    ) -> Result<(), TryFault<E>>
        requires { F.IsAlwaysCallable fun.old }
        ensures ok { OnOk result (IsTried F.FnMut (spelling self.now) (document_of (view value.old)) fun.old (Ok tt) fun.new (document_of (view value.new))) }
        ensures refused { IfErr result (IsEnded F.FnMut (λ e. e ≡ JsonPathError.OutOfMemory) (spelling self.now) (document_of (view value.old)) fun.old fun.new (document_of (view value.new))) }
        ensures callable { F.IsAlwaysCallable fun.new }
    {
        try_replace_at_targets(alloc, value, self.parts(), fun)
    }
}

impl<'p> AnyPath for PathParser<'p> {
    ghost spelling = { λ path. path };

    fn parts(&self) -> PathParts<'_> {
        PathParts {
            text: self.text(),
            tree: self.tree(),
            tokens: self.tokens(),
        }
    }
}

impl AnyPath for Node {
    ghost spelling = { λ path. path };

    fn parts(&self) -> PathParts<'_> {
        PathParts {
            text: self.text(),
            tree: self.tree(),
            tokens: self.tokens(),
        }
    }
}

impl<P: AnyPath> AnyPath for Rc<P> {
    ghost spelling = { λ path. P.spelling path.value };

    fn parts(&self) -> PathParts<'_> {
        P::parts(self)
    }
}
