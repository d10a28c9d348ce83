//! Looking up a value's children: whether it may have any, and the one of a name or at an index, even negative.

ghost use Rattle.std.specs.Prelude.{◌≡◌, ◌≤◌, option_map, unwrap_or};
ghost use Rattle.jsonpath_nodes.specs.document.Find.{item_at};
ghost use Rattle.serde_json.specs.View.{view};
ghost use Rattle.jsonpath_nodes.specs.document.OfData.{document_of};
ghost use Rattle.jsonpath_nodes.specs.plan.Containers.{is_container};
ghost use Rattle.jsonpath_nodes.specs.step.Steps.{abs_index as index_from_front};

use crate::tree::Tree;
use serde_json::Value;

// Whether a value is an array or an object.
#[inline(always)]
pub(crate) fn is_container<T: Tree>(value: T) -> bool
    ensures { result ≡ is_container (T.content value) }
{
    value.as_array().is_some() || value.as_object().is_some()
}

// The item at an index from the front, or None where the value is no array that has one there.
pub(crate) fn item_of_value<'a>(value: &'a Value, index: usize) -> Option<&'a Value>
    ensures { option_map (λ v. document_of (view v.now)) result ≡ item_at index (document_of (view value.now)) }
{
    match value {
        Value::Array(items) => <&Value as Tree>::item_at(items, index),
        _ => None,
    }
}

/// Converts an index of a path to one from the front of an array of `len` items. A negative index counts from the end,
/// and gives 0 if it is before the first item; an index past the end gives `len`.
///
/// ```text
/// assert_eq!(rt; abs_index(-1, 3), 2);
/// assert_eq!(rt; abs_index(-5, 3), 0);
/// assert_eq!(rt; abs_index(7, 3), 3);
/// ```
pub fn abs_index(n: i64, len: usize) -> usize
    ensures { result ≡ index_from_front n len }
{
    if n < 0 {
        len.saturating_sub(n.unsigned_abs() as usize)
    } else {
        len.min(n as usize)
    }
}

// A bound of a range as an index from the front, at most `len`; `missing` where the path writes none.
pub(crate) fn range_bound(n: Option<i64>, missing: usize, len: usize) -> usize
    requires { missing ≤ len }
    ensures value { result ≡ unwrap_or (option_map (λ m. index_from_front m len) n) missing }
    ensures within { result ≤ len }
{
    match n {
        Some(m) => abs_index(m, len),
        None => missing,
    }
}
