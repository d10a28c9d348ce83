//! Numbers that are no integers of 64 bits, which are not printed: whether a value contains one, and the error.
ghost use Rattle.std.specs.Prelude.{◌≡◌, map};
ghost use Rattle.serde_json.specs.View.{view};
ghost use Rattle.serde_json.specs.Written.{has_float};
ghost use Rattle.jsonpath_select.specs.answer.AnswerText.{holds_unread, IsUnreadError};

use crate::error::JsonPathError;
use serde_json::Value;
use std::alloc::Global;

const UNREAD_NUMBER: &str = "number is not a whole number of 64 bits";

// Whether an unread number, one that is no whole number of 64 bits, stands in the value, at any depth.
pub(crate) fn has_unread_number(value: &Value) -> bool
    ensures { result ≡ has_float (view value.now) }
{
    match value {
        Value::Null | Value::Bool(_) | Value::String(_) => false,
        Value::Number(number) => number.is_f64(),
        Value::Array(items) => {
            for item in items {
                if has_unread_number(item) {
                    return true;
                }
            }
            false
        }
        Value::Object(members) => {
            for (_key, member) in members.iter() {
                if has_unread_number(member) {
                    return true;
                }
            }
            false
        }
    }
}

// Whether an unread number, one that is no whole number of 64 bits, stands in one of the values, at any depth.
pub(crate) fn has_unread_number_in_values(values: &[&Value]) -> bool
    ensures { result ≡ holds_unread (map (λ v. view v.now) values.now) }
{
    for value in values {
        if has_unread_number(value) {
            return true;
        }
    }
    false
}

/// The error where a text or typed values would be made of a number that is neither an `i64` nor a `u64`, such as 1.5:
/// `Serde`, with a message that says so, or `OutOfMemory`.
///
/// ```text
/// assert!(rt; matches!(unread_number_error(alloc), JsonPathError::Serde(_)));
/// ```
pub fn unread_number_error(alloc: Global) -> JsonPathError
    ensures { IsUnreadError result }
{
    String::from_str(alloc, UNREAD_NUMBER).map_or(JsonPathError::OutOfMemory, JsonPathError::Serde)
}
