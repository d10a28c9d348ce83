//! Updates of a document at what a path text selects, in one call.
ghost use Rattle.std.specs.Prelude.{◌≡◌, IfOk, IfErr, OnErr};
ghost use Rattle.serde_json.specs.View.{view};
ghost use Rattle.jsonpath_nodes.specs.document.OfData.{document_of};
ghost use Rattle.jsonpath_select.specs.JsonPathErrors.{IsPathRefused};
ghost use Rattle.jsonpath_select.specs.Targets.{IsDeleted, IsReplaced};

use jsonpath_select::{AnyPath, JsonPathError, compile_path};
use serde_json::Value;
use std::alloc::Global;

/// The document with each selected value replaced by null, except the root and values inside another replaced value.
/// Errors: `Path` exactly if the text is no path, or `OutOfMemory`; the document is then dropped.
///
/// ```text
/// let document = read_document(alloc, b"[1, 2.5]")?;
/// let deleted = delete(alloc, document, "$[1]")?;
/// assert!(rt; document_to_text(alloc, &deleted)?.as_str() == "[1,null]");
/// ```
pub fn delete(alloc: Global, value: Value, path: &str) -> Result<Value, JsonPathError>
    ensures ok { IfOk result (λ changed. IsDeleted path.now (document_of (view value)) (document_of (view changed))) }
    ensures refused { IfErr result (IsPathRefused path.now) }
{
    let compiled = compile_path(alloc, path)?;
    let mut changed = value;
    compiled.delete_in(alloc, &mut changed)?;
    Ok(changed)
}

/// Calls the closure once for each selected location below the root, with the value that earlier updates left there; a
/// location that is gone by then is skipped. A returned `Some` replaces that value, `None` removes it. The result is
/// the changed document. The locations come in document order: parents before children, members by their names' bytes,
/// items by index. They are fixed beforehand: after an item is removed, the next is at its location. Errors: `Path`
/// exactly if the text is no path, or `OutOfMemory`; the closure is then not called, and the document is dropped.
///
/// ```text
/// let document = read_document(alloc, b"[1, 2, 3]")?;
/// let truth = &mut |_old: Value| Some(Value::Bool(true));
/// let replaced = replace_with(alloc, document, "$[0,2]", truth)?;
/// assert!(rt; document_to_text(alloc, &replaced)?.as_str() == "[true,2,true]");
/// ```
pub fn replace_with<F: FnMut(Value) -> Option<Value>>(
    alloc: Global,
    value: Value,
    path: &str,
    fun: &mut F,
) -> Result<Value, JsonPathError>
    requires { F.IsAlwaysCallable fun.old }
    ensures ok { IfOk result (λ changed. IsReplaced F.FnMut path.now (document_of (view value)) fun.old fun.new (document_of (view changed))) }
    ensures refused { IfErr result (IsPathRefused path.now) }
    ensures unasked { OnErr result (fun.new ≡ fun.old) }
    ensures callable { F.IsAlwaysCallable fun.new }
{
    let compiled = compile_path(alloc, path)?;
    let mut changed = value;
    compiled.replace_in(alloc, &mut changed, fun)?;
    Ok(changed)
}
