//! Masking: null at what several paths select.
ghost use Rattle.std.specs.Prelude.{◌≡◌, map, IfErr, OnOk, OnErr, IfOk};
ghost use Rattle.serde_json.specs.View.{view};
ghost use Rattle.jsonpath_nodes.specs.document.OfData.{document_of};
ghost use Rattle.jsonpath_lib.specs.update.Masked.{IsMasked, ArePathsRefused};

use crate::update::several_paths::{MaskFault, compile_or_give_back, targets_of_all};
use jsonpath_nodes::delete_at;
use jsonpath_paths::PathParser;
use jsonpath_select::JsonPathError;
use serde_json::Value;
use std::alloc::Global;

/// The document with null in place of each value below the root that any of the paths selects. All paths are applied to
/// the original document, so their order does not matter; without paths the document is returned unchanged.
///
/// The error has the unchanged document, and the index of the first text that is no path, or none if memory ran out.
///
/// ```text
/// let document = read_document(alloc, b"[1, [2, 3]]")?;
/// let masked = mask(alloc, document, &["$[0]", "$[1][0]"])?;
/// assert!(rt; document_to_text(alloc, &masked)?.as_str() == "[null,[null,3]]");
/// ```
pub fn mask(alloc: Global, value: Value, paths: &[&str]) -> Result<Value, MaskFault>
    ensures ok { IfOk result (λ masked. IsMasked (map (λ p. p.now) paths.now) (document_of (view value)) (document_of (view masked))) }
    ensures refused { IfErr result (λ fault. ArePathsRefused (map (λ p. p.now) paths.now) fault.index fault.fault) }
    ensures kept { IfErr result (λ fault. fault.value ≡ value) }
{
    let (mut masked, compiled) = compile_or_give_back(alloc, value, paths)?;
    match mask_at_paths(alloc, &mut masked, compiled.as_slice()) {
        Ok(()) => Ok(masked),
        Err(fault) => Err(MaskFault {
            index: None,
            fault,
            value: masked,
        }),
    }
}

/// Puts null in place of each value below the root that any path selects. All paths are applied to the original
/// document, so their order does not matter. The only error is `OutOfMemory`; the document is then unchanged.
///
/// ```text
/// let mut document = read_document(alloc, b"[1, 2, 3]")?;
/// mask_at_paths(alloc, &mut document, compile_paths(alloc, &["$[0]", "$[2]"])?.as_slice())?;
/// assert!(rt; document_to_text(alloc, &document)?.as_str() == "[null,2,null]");
/// ```
pub fn mask_at_paths(
    alloc: Global,
    value: &mut Value,
    paths: &[PathParser<'_>],
) -> Result<(), JsonPathError>
    ensures ok { OnOk result (IsMasked paths.now (document_of (view value.old)) (document_of (view value.new))) }
    ensures refused { IfErr result (λ e. e ≡ JsonPathError.OutOfMemory) }
    ensures kept { OnErr result (value.new ≡ value.old) }
{
    let locations = targets_of_all(alloc, value, paths)?;
    delete_at(value, locations.as_slice());
    Ok(())
}
