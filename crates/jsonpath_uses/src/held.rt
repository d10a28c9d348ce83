//! What selectors and update types store, call after call, as callers state and prove it.
ghost use Rattle.std.specs.Prelude.{◌≡◌, Some, map, true, false, IfOk, IfSome, OnOk, OnErr};
ghost use Rattle.serde_json.specs.View.{view};
ghost use Rattle.jsonpath_nodes.specs.document.OfData.{document_of};
ghost use Rattle.jsonpath_select.specs.Targets.{IsDeleted};
ghost use Rattle.jsonpath_select.specs.selectors.HeldChanges.{RemovesHeld};
ghost use Rattle.jsonpath_select.specs.selectors.Held.{document};
ghost use Rattle.jsonpath_select.specs.Meaning.{Selects};

use jsonpath_lib::{HeldPair, JsonPathError, JsonSelectorMut, PathParser, Selector, SelectorMut};
use jsonpath_select::{HeldValue, OfNode};
use serde_json::Value;
use std::alloc::Global;
use std::rc::Rc;

/// Sets a `JsonSelector`'s or `JsonSelectorMut`'s path by `set_parser`. The only error: `OutOfMemory`, with no change.
pub fn set_parser_in_pair<'a, V: HeldValue>(
    alloc: Global,
    held: &mut HeldPair<Rc<PathParser<'a>>, V>,
    path: PathParser<'a>,
) -> Result<(), JsonPathError>
    ensures ok { OnOk result (held.new ≡ record held.old { path = Some path.entry }) }
    ensures kept { OnErr result (held.new ≡ held.old) }
{
    held.set_parser(alloc, path)?;
    Ok(())
}

/// Sets a `Selector`'s or `SelectorMut`'s path by `set_path`. Errors, with no change: `Path` (no path), `OutOfMemory`.
pub fn set_path_in_pair<P: OfNode + Drop, V: HeldValue>(
    alloc: Global,
    held: &mut HeldPair<P, V>,
    path: &str,
) -> Result<(), JsonPathError>
    ensures ok { OnOk result (held.new ≡ record held.old { path = Some path.now }) }
    ensures kept { OnErr result (held.new ≡ held.old) }
{
    held.set_path(alloc, path)?;
    Ok(())
}

/// Sets a `Selector`'s path to `first`, then to `second`, and returns what `second` selects in `json`, in the order in
/// which its steps find the values, with duplicates. Errors: `Path` for a text that is no path, or `OutOfMemory`.
pub fn select_by_second_path<'a>(
    alloc: Global,
    json: &'a Value,
    first: &str,
    second: &str,
) -> Result<Vec<&'a Value>, JsonPathError>
    ensures { IfOk result (λ found. Selects second.now (document_of (view json.now)) (map (λ v. document_of (view v.now)) found.items)) }
{
    let mut held = Selector::new();
    held.value(json);
    held.set_path(alloc, first)?;
    held.set_path(alloc, second)?;
    held.select(alloc)
}

/// Compiles a path text once, in a `Selector`, and returns what it selects in `one` and in `other`, each list in the
/// order found, with duplicates. Errors: `Path` if the text is no path, or `OutOfMemory`.
pub fn select_in_two_documents<'a>(
    alloc: Global,
    path: &str,
    one: &'a Value,
    other: &'a Value,
) -> Result<(Vec<&'a Value>, Vec<&'a Value>), JsonPathError>
    ensures one { IfOk result (λ found. Selects path.now (document_of (view one.now)) (map (λ v. document_of (view v.now)) found.0.items)) }
    ensures other { IfOk result (λ found. Selects path.now (document_of (view other.now)) (map (λ v. document_of (view v.now)) found.1.items)) }
{
    let mut held = Selector::new();
    held.set_path(alloc, path)?;
    held.value(one);
    let first = held.select(alloc)?;
    held.value(other);
    let second = held.select(alloc)?;
    Ok((first, second))
}

/// The document with null in place of what the path selects below the root, made by unchained calls on a
/// `JsonSelectorMut`. `None` only if the selector had no document, which can't happen here. Only error: `OutOfMemory`.
pub fn delete_in_statements(
    alloc: Global,
    json: Value,
    path: PathParser<'_>,
) -> Result<Option<Value>, JsonPathError>
    ensures { IfOk result (λ left. IfSome left (λ changed. IsDeleted path.entry (document_of (view json)) (document_of (view changed)))) }
{
    let mut held = JsonSelectorMut::new(alloc, path)?;
    held.value(json);
    held.delete_in_place(alloc)?;
    Ok(held.take())
}

/// Removes from the document of a `SelectorMut` what its path selects below the root, and returns true. If there is no
/// path or no document, or memory runs out, returns false, and the document is as it was.
pub fn remove_or_leave(alloc: Global, held: &mut SelectorMut) -> bool
    ensures removed { result ≡ true → RemovesHeld held.old.path (document held.old) (document held.new) }
    ensures left { result ≡ false → held.new ≡ held.old }
{
    held.remove_in_place(alloc).is_ok()
}
