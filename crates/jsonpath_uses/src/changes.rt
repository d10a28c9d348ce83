//! What updates leave, as callers state and prove it.
ghost use Rattle.std.specs.Prelude.{◌≡◌, [], ◌∷◌, codes, map, true, Some, None, IfOk, IfSome, IsSome, OnOk};
ghost use Rattle.jsonpath_nodes.specs.document.Document.{boolean};
ghost use Rattle.serde_json.specs.View.{view};
ghost use Rattle.jsonpath_nodes.specs.document.OfData.{document_of};
ghost use Rattle.jsonpath_nodes.specs.update.Apart.{apart_below_root};
ghost use Rattle.jsonpath_nodes.specs.place.Location.{Location, name, at};
ghost use Rattle.jsonpath_nodes.specs.update.Update.{update};
ghost use Rattle.jsonpath_lib.specs.update.Masked.{AreRemoved};

use jsonpath_lib::{
    AnyPath, JsonPathError, compile_path, laws, mask, remove_by_path_texts, replace_with,
};
use serde_json::Value;
use std::alloc::Global;

/// Replaces by null what two paths select below the root, in the equal values `one` and `other`. The paths are given as
/// `first`, `second` for `one`, as `second`, `first` for `other`; in each value, both select before anything changes.
/// Returns the two results, which are equal; `None` if a text is no path or memory runs out.
pub fn mask_in_either_order(
    alloc: Global,
    one: Value,
    other: Value,
    first: &str,
    second: &str,
) -> Option<(Value, Value)>
    requires { view one ≡ view other }
    ensures { IfSome result (λ masked. view masked.0 ≡ view masked.1) }
{
    laws::masks_in_any_order();
    laws::documents_keep_data_apart();
    let Ok(one) = mask(alloc, one, &[first, second]) else {
        return None;
    };
    let Ok(other) = mask(alloc, other, &[second, first]) else {
        return None;
    };
    Some((one, other))
}

/// `config` with true in place of any value at `$.log.on`; all else stays. Error: `OutOfMemory`, which drops `config`.
pub fn with_log_switched_on(alloc: Global, config: Value) -> Result<Value, JsonPathError>
    ensures on { IfOk result (λ changed. IsSome (at (document_of (view config)) (name (codes "log") ∷ name (codes "on") ∷ []))
        → at (document_of (view changed)) (name (codes "log") ∷ name (codes "on") ∷ []) ≡ Some (boolean true)) }
    ensures rest { IfOk result (λ changed. (m : Location) → apart_below_root m (name (codes "log") ∷ name (codes "on") ∷ []) ≡ true
        → at (document_of (view changed)) m ≡ at (document_of (view config)) m) }
{
    laws::dotted_names_select_one_location();
    laws::putting_at_one_location();
    let on = &mut |_old: Value| Some(Value::Bool(true));
    laws::replaces_selected_location(on);
    replace_with(alloc, config, "$.log.on", on)
}

/// Removes by `$.price`, twice: the first call removes the member `price`, if there is one, the second changes nothing.
/// The only error is `OutOfMemory`; if it is the second call's, the first call has removed the member already.
pub fn remove_price_twice(alloc: Global, json: &mut Value) -> Result<(), JsonPathError>
    ensures { OnOk result (document_of (view json.new) ≡ update (name (codes "price") ∷ []) None (document_of (view json.old))) }
{
    laws::dotted_names_select_one_location();
    laws::deletes_and_removes_selected_location();
    laws::putting_at_one_location();
    laws::value_is_document(json);
    let path = compile_path(alloc, "$.price")?;
    path.remove_in(alloc, json)?;
    path.remove_in(alloc, json)?;
    Ok(())
}

/// The document without the values below the root that any of these paths selects. All paths select before anything is
/// removed. Errors: `Path` for the first text that is no path, or `OutOfMemory`; the document is then dropped.
pub fn without_secrets(alloc: Global, json: Value, secrets: &[&str]) -> Result<Value, JsonPathError>
    ensures { IfOk result (λ left. AreRemoved (map (λ p. p.now) secrets.now) (document_of (view json)) (document_of (view left))) }
{
    let left = remove_by_path_texts(alloc, json, secrets)?;
    Ok(left)
}
