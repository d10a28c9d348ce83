//! The targets of a compiled path: all updates by one path go by these.
ghost use Rattle.std.specs.Prelude.{◌≡◌, IfErr, IfOk};
ghost use Rattle.std.specs.List.Sorted.{IsStrictlySortedBy};
ghost use Rattle.serde_json.specs.View.{view};
ghost use Rattle.jsonpath_nodes.specs.document.OfData.{document_of};
ghost use Rattle.jsonpath_nodes.specs.place.Location.{location_cmp};
ghost use Rattle.jsonpath_select.specs.AnyPath.{ArePartsOf};
ghost use Rattle.jsonpath_select.specs.Targets.{AreTargets};

use crate::answer::select::node_set_by_parts;
use crate::compile::any_path::PathParts;
use crate::error::JsonPathError;
use jsonpath_nodes::laws::spots_show_their_locations;
use jsonpath_nodes::{Location, compute_paths};
use serde_json::Value;
use std::alloc::Global;

// The locations that the path selects, the root among them, each once, in document order.
pub(crate) fn targets_of(
    alloc: Global,
    value: &Value,
    path: PathParts<'_>,
) -> Result<Vec<Location>, JsonPathError>
    requires { ArePartsOf path.text.now path }
    ensures ok { IfOk result (λ found. AreTargets path.entry.text.now (document_of (view value.now)) found.items) }
    ensures ordered { IfOk result (λ found. IsStrictlySortedBy location_cmp found.items) }
    ensures refused { IfErr result (λ e. e ≡ JsonPathError.OutOfMemory) }
{
    spots_show_their_locations();
    let spots = node_set_by_parts(alloc, value, path)?;
    let found = compute_paths(alloc, spots.as_slice())?;
    Ok(found)
}
