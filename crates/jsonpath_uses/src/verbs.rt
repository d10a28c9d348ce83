//! The methods of `AnyPath` called on a `PathParser`. Where the trait's contracts say `spelling` (a path's text), those
//! here name the path. The spelling of every other compiled path is its own text, so the same holds of it.
ghost use Rattle.std.specs.Prelude.{◌≡◌, Ok, map, option_map, string_bytes, vec_len, IfOk, IfErr, OnOk, OnErr};
ghost use Rattle.serde_json.specs.View.{view};
ghost use Rattle.jsonpath_nodes.specs.document.OfData.{document_of};
ghost use Rattle.jsonpath_select.specs.answer.Counted.{IsCountOf, IsFirstOf, TellsIfAny};
ghost use Rattle.jsonpath_select.specs.answer.Given.{IsTextOfAnswer, IsTypedCountOf, IsTextRefusedOf, IsTypedRefusedOf};
ghost use Rattle.jsonpath_select.specs.Meaning.{Selects, SelectsAt, SelectsSpots};
ghost use Rattle.jsonpath_select.specs.Targets.{IsDeleted, IsRemoved, IsSet, IsReplaced};
ghost use Rattle.jsonpath_select.specs.Tried.{IsTried, IsEnded};

use jsonpath_lib::{AnyPath, JsonPathError, KeptPath, Location, Node, PathParser, Spot, TryFault};
use serde::DeserializeOwned;
use serde_json::Value;
use std::alloc::Global;
use std::rc::Rc;

/// The values that the path selects, in the order in which it finds them, with duplicates. Error: `OutOfMemory`.
pub fn select<'v>(
    alloc: Global,
    json: &'v Value,
    path: &PathParser<'_>,
) -> Result<Vec<&'v Value>, JsonPathError>
    ensures ok { IfOk result (λ found. Selects path.now (document_of (view json.now)) (map (λ v. document_of (view v.now)) found.items)) }
    ensures refused { IfErr result (λ e. e ≡ JsonPathError.OutOfMemory) }
{
    path.select(alloc, json)
}

/// The nodes (values with locations) the path selects, in the order found, with duplicates. Error: `OutOfMemory`.
pub fn select_spots<'v>(
    alloc: Global,
    json: &'v Value,
    path: &PathParser<'_>,
) -> Result<Vec<Spot<'v>>, JsonPathError>
    ensures ok { IfOk result (λ found. SelectsSpots path.now (document_of (view json.now)) found.items) }
    ensures refused { IfErr result (λ e. e ≡ JsonPathError.OutOfMemory) }
{
    path.select_spots(alloc, json)
}

/// The locations that the path selects, in the order in which it finds them, with duplicates. Error: `OutOfMemory`.
pub fn select_locations(
    alloc: Global,
    json: &Value,
    path: &PathParser<'_>,
) -> Result<Vec<Location>, JsonPathError>
    ensures ok { IfOk result (λ found. SelectsAt path.now (document_of (view json.now)) found.items) }
    ensures refused { IfErr result (λ e. e ≡ JsonPathError.OutOfMemory) }
{
    path.select_locations(alloc, json)
}

/// The values that the path selects, in the order in which it finds them, with duplicates, as a JSON array's text.
/// Errors: `OutOfMemory`, or `Serde` if a selected value contains a number that is no `i64` and no `u64`, such as 1.5.
pub fn select_as_str(
    alloc: Global,
    json: &Value,
    path: &PathParser<'_>,
) -> Result<String, JsonPathError>
    ensures ok { IfOk result (λ text. IsTextOfAnswer (Selects path.now (document_of (view json.now))) (string_bytes text)) }
    ensures refused { IfErr result (IsTextRefusedOf (Selects path.now (document_of (view json.now)))) }
{
    path.select_as_str(alloc, json)
}

/// The values that the path selects, in the order found, with duplicates, each made a `T`. Errors: `OutOfMemory`, or
/// `Serde` if a value can't be made a `T` or contains a number that is neither an `i64` nor a `u64`, such as 1.5.
pub fn select_as<T: DeserializeOwned>(
    alloc: Global,
    json: &Value,
    path: &PathParser<'_>,
) -> Result<Vec<T>, JsonPathError>
    ensures ok { IfOk result (λ found. IsTypedCountOf (Selects path.now (document_of (view json.now))) (vec_len found)) }
    ensures refused { IfErr result (IsTypedRefusedOf (Selects path.now (document_of (view json.now)))) }
{
    path.select_as(alloc, json)
}

/// How many values the path selects in the document, duplicates included. The only error is `OutOfMemory`.
pub fn count(alloc: Global, json: &Value, path: &PathParser<'_>) -> Result<usize, JsonPathError>
    ensures ok { IfOk result (IsCountOf (Selects path.now (document_of (view json.now)))) }
    ensures refused { IfErr result (λ e. e ≡ JsonPathError.OutOfMemory) }
{
    path.count(alloc, json)
}

/// The value that the path finds first in the document, or `None` if it finds none. The only error: `OutOfMemory`.
pub fn first<'v>(
    alloc: Global,
    json: &'v Value,
    path: &PathParser<'_>,
) -> Result<Option<&'v Value>, JsonPathError>
    ensures ok { IfOk result (λ first. IsFirstOf (Selects path.now (document_of (view json.now))) (option_map (λ v. document_of (view v.now)) first)) }
    ensures refused { IfErr result (λ e. e ≡ JsonPathError.OutOfMemory) }
{
    path.first(alloc, json)
}

/// Whether the path selects any value in the document. The only error is `OutOfMemory`.
pub fn exists(alloc: Global, json: &Value, path: &PathParser<'_>) -> Result<bool, JsonPathError>
    ensures ok { IfOk result (TellsIfAny (Selects path.now (document_of (view json.now)))) }
    ensures refused { IfErr result (λ e. e ≡ JsonPathError.OutOfMemory) }
{
    path.exists(alloc, json)
}

/// Replaces by null each value the path selects below `value`'s root. The only error: `OutOfMemory`, with no change.
pub fn delete_in(
    alloc: Global,
    value: &mut Value,
    path: &PathParser<'_>,
) -> Result<(), JsonPathError>
    ensures ok { OnOk result (IsDeleted path.now (document_of (view value.old)) (document_of (view value.new))) }
    ensures refused { IfErr result (λ e. e ≡ JsonPathError.OutOfMemory) }
    ensures kept { OnErr result (value.new ≡ value.old) }
{
    path.delete_in(alloc, value)
}

/// Removes from `value` what the path selects below its root. The only error: `OutOfMemory`; then nothing changes.
pub fn remove_in(
    alloc: Global,
    value: &mut Value,
    path: &PathParser<'_>,
) -> Result<(), JsonPathError>
    ensures ok { OnOk result (IsRemoved path.now (document_of (view value.old)) (document_of (view value.new))) }
    ensures refused { IfErr result (λ e. e ≡ JsonPathError.OutOfMemory) }
    ensures kept { OnErr result (value.new ≡ value.old) }
{
    path.remove_in(alloc, value)
}

/// Replaces by copies of `new` each value the path selects below `value`'s root. Error: `OutOfMemory`, with no change.
pub fn set_in(
    alloc: Global,
    value: &mut Value,
    path: &PathParser<'_>,
    new: &Value,
) -> Result<(), JsonPathError>
    ensures ok { OnOk result (IsSet path.now (document_of (view new.now)) (document_of (view value.old)) (document_of (view value.new))) }
    ensures refused { IfErr result (λ e. e ≡ JsonPathError.OutOfMemory) }
    ensures kept { OnErr result (value.new ≡ value.old) }
{
    path.set_in(alloc, value, new)
}

/// At each location that the path selects below the root, in document order (parents first), replaces the value by the
/// closure's result, or removes it at `None`. The only error: `OutOfMemory`, before any closure call or change.
pub fn replace_in<F: FnMut(Value) -> Option<Value>>(
    alloc: Global,
    value: &mut Value,
    path: &PathParser<'_>,
    fun: &mut F,
) -> Result<(), JsonPathError>
    requires { F.IsAlwaysCallable fun.old }
    ensures ok { OnOk result (IsReplaced F.FnMut path.now (document_of (view value.old)) fun.old fun.new (document_of (view value.new))) }
    ensures refused { IfErr result (λ e. e ≡ JsonPathError.OutOfMemory) }
    ensures kept { OnErr result (value.new ≡ value.old) }
    ensures unasked { OnErr result (fun.new ≡ fun.old) }
    ensures callable { F.IsAlwaysCallable fun.new }
{
    path.replace_in(alloc, value, fun)
}

/// Replaces or removes as `replace_in` does, by a closure that borrows the value and may fail. Its first error ends the
/// updates and is returned as `Refused`; the updates before it remain. The only other error is `Unasked` with
/// `OutOfMemory`, before any closure call or change.
pub fn try_replace_in<E, F: FnMut(&Value) -> Result<Option<Value>, E>>(
    alloc: Global,
    value: &mut Value,
    path: &PathParser<'_>,
    fun: &mut F,
) -> Result<(), TryFault<E>>
    requires { F.IsAlwaysCallable fun.old }
    ensures ok { OnOk result (IsTried F.FnMut path.now (document_of (view value.old)) fun.old (Ok tt) fun.new (document_of (view value.new))) }
    ensures refused { IfErr result (IsEnded F.FnMut (λ e. e ≡ JsonPathError.OutOfMemory) path.now (document_of (view value.old)) fun.old fun.new (document_of (view value.new))) }
    ensures callable { F.IsAlwaysCallable fun.new }
{
    path.try_replace_in(alloc, value, fun)
}

/// Returns the text from which a path was compiled. Contracts (proved specifications) call this text `spelling`.
pub fn spelling_of<P: AnyPath>(path: &P) -> &str
    ensures { result.now ≡ P.spelling path.now }
{
    path.parts().text
}

/// Returns the text from which a `Node`, a compiled path that owns its text, was compiled: its `spelling`.
pub fn spelling_of_node(path: &Node) -> &str
    ensures { result.now ≡ path.now }
{
    spelling_of(path)
}

/// Returns the text from which a compiled path behind an `Rc` was compiled: its `spelling`.
pub fn spelling_of_shared<P: AnyPath>(path: &Rc<P>) -> &str
    ensures { result.now ≡ P.spelling path.now.value }
{
    spelling_of(path)
}

/// Returns the text from which a `KeptPath`, such as a `Compiled` or a `PathCompiled`, was compiled: its `spelling`.
pub fn spelling_of_kept<P: AnyPath>(path: &KeptPath<P>) -> &str
    ensures { result.now ≡ path.now }
{
    spelling_of(path)
}
