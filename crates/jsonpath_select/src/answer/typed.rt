//! A list of values as values of the caller's types.
ghost use Rattle.std.specs.Prelude.{◌≡◌, false, map, length, vec_len, IfOk, IfErr, OnOk};
ghost use Rattle.serde_json.specs.View.{view};
ghost use Rattle.jsonpath_select.specs.answer.AnswerText.{holds_unread, IsTypedRefused};

use crate::answer::unread_number::{has_unread_number_in_values, unread_number_error};
use crate::error::{JsonPathError, serde_error};
use serde::DeserializeOwned;
use serde_json::{Error, Value};
use std::alloc::Global;

/// Deserializes each value to a `T`, in the list's order. Errors: `OutOfMemory`, or `Serde` if `serde_json` can't make
/// a `T` of a value, or a value contains a number that is no `i64` or `u64`, such as 1.5, even if `T` is `f64`.
///
/// ```text
/// let document = read_document(alloc, b"[[1, 2], [3]]")?;
/// let found = select(alloc, &document, "$[*][0]")?;
/// let numbers = list_to_typed::<u8>(alloc, found.as_slice())?;
/// assert_eq!(rt; numbers.len(), 2);
/// assert_eq!(rt; numbers[1], 3);
/// ```
pub fn list_to_typed<T: DeserializeOwned>(
    alloc: Global,
    values: &[&Value],
) -> Result<Vec<T>, JsonPathError>
    ensures count { IfOk result (λ found. vec_len found ≡ length values.now) }
    ensures read { OnOk result (holds_unread (map (λ v. view v.now) values.now) ≡ false) }
    ensures refused { IfErr result (IsTypedRefused (map (λ v. view v.now) values.now)) }
{
    if has_unread_number_in_values(values) {
        return Err(unread_number_error(alloc));
    }
    let mut found = Vec::new(alloc);
    for value in values {
        let typed = typed_value(alloc, value).map_err(|error| serde_error(alloc, &error))?;
        found.push(typed)?;
    }
    Ok(found)
}

// The value as a `T`, which `serde_json` makes of a copy of it; its error where it makes none.
fn typed_value<T: DeserializeOwned>(alloc: Global, value: &Value) -> Result<T, Error> {
    serde_json::from_value(alloc, value.clone()?)
}
