//! Routes: paths that are compiled once and stored, and the first that matches a message.
ghost use Rattle.std.specs.Prelude.{◌<◌, [], slice_index_or, length, IfOk, IfSome, IfNone};
ghost use Rattle.serde_json.specs.View.{view};
ghost use Rattle.jsonpath_nodes.specs.document.OfData.{document_of};
ghost use Rattle.jsonpath_uses.specs.Routes.{Matches, NoneBefore};

use jsonpath_lib::{AnyPath, JsonPathError, PathParser};
use serde_json::Value;
use std::alloc::Global;

/// The index, from 0, of the first of the rules that selects something in `message`, or `None`. Error: `OutOfMemory`.
pub fn first_route(
    alloc: Global,
    message: &Value,
    rules: &[PathParser<'_>],
) -> Result<Option<usize>, JsonPathError>
    ensures found { IfOk result (λ route. IfSome route (λ i. (i < length rules.now) × Matches (slice_index_or rules.now i []) (document_of (view message.now)))) }
    ensures first { IfOk result (λ route. IfSome route (λ i. NoneBefore rules.now i (document_of (view message.now)))) }
    ensures none { IfOk result (λ route. IfNone route (NoneBefore rules.now (length rules.now) (document_of (view message.now)))) }
{
    for (number, rule) in rules.iter().enumerate() {
        if rule.exists(alloc, message)? {
            return Ok(Some(number));
        }
    }
    Ok(None)
}
