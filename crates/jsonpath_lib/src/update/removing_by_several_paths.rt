//! Removing: what any of several paths selects is taken away.
ghost use Rattle.std.specs.Prelude.{◌≡◌, map, IfErr, OnOk, OnErr, IfOk};
ghost use Rattle.serde_json.specs.View.{view};
ghost use Rattle.jsonpath_nodes.specs.document.OfData.{document_of};
ghost use Rattle.jsonpath_lib.specs.update.Masked.{AreRemoved, ArePathsRefused};

use crate::update::several_paths::{MaskFault, compile_or_give_back, targets_of_all};
use jsonpath_nodes::take_at_once;
use jsonpath_paths::PathParser;
use jsonpath_select::JsonPathError;
use serde_json::Value;
use std::alloc::Global;

/// The document without the values below the root that any path selects, removed all at once: the other items of an
/// array keep their order. All paths apply to the original document, in any order; without paths it is unchanged.
///
/// The error has the unchanged document, and the index of the first text that is no path, or none if memory ran out.
///
/// ```text
/// let document = read_document(alloc, b"[1, [2, 3], 4]")?;
/// let left = remove_by_path_texts(alloc, document, &["$[0]", "$[1][0]"])?;
/// assert!(rt; document_to_text(alloc, &left)?.as_str() == "[[3],4]");
/// ```
pub fn remove_by_path_texts(alloc: Global, value: Value, paths: &[&str]) -> Result<Value, MaskFault>
    ensures ok { IfOk result (λ left. AreRemoved (map (λ p. p.now) paths.now) (document_of (view value)) (document_of (view left))) }
    ensures refused { IfErr result (λ fault. ArePathsRefused (map (λ p. p.now) paths.now) fault.index fault.fault) }
    ensures kept { IfErr result (λ fault. fault.value ≡ value) }
{
    let (mut left, compiled) = compile_or_give_back(alloc, value, paths)?;
    match remove_at_paths(alloc, &mut left, compiled.as_slice()) {
        Ok(()) => Ok(left),
        Err(fault) => Err(MaskFault {
            index: None,
            fault,
            value: left,
        }),
    }
}

/// Removes the values below the root that any path selects, all at once: the other items of an array keep their order.
/// All paths apply to the original document, in any order. The only error is `OutOfMemory`, with no change.
///
/// ```text
/// let mut document = read_document(alloc, b"[1, 2, 3]")?;
/// remove_at_paths(alloc, &mut document, compile_paths(alloc, &["$[0]", "$[2]"])?.as_slice())?;
/// assert!(rt; document_to_text(alloc, &document)?.as_str() == "[2]");
/// ```
pub fn remove_at_paths(
    alloc: Global,
    value: &mut Value,
    paths: &[PathParser<'_>],
) -> Result<(), JsonPathError>
    ensures ok { OnOk result (AreRemoved paths.now (document_of (view value.old)) (document_of (view value.new))) }
    ensures refused { IfErr result (λ e. e ≡ JsonPathError.OutOfMemory) }
    ensures kept { OnErr result (value.new ≡ value.old) }
{
    let locations = targets_of_all(alloc, value, paths)?;
    take_at_once(value, locations.as_slice())?;
    Ok(())
}
