//! JSON texts of what a path selects, and of a list of values.
ghost use Rattle.std.specs.Prelude.{◌≡◌, false, map, string_bytes, Some, None, IfOk, IfErr, IsTrue, OnOk, ◌++◌};
ghost use Rattle.json.specs.Print.{escape};
ghost use Rattle.serde_json.specs.View.{view};
ghost use Rattle.serde_json.specs.Written.{has_float, compact_text, comma_if};
ghost use Rattle.jsonpath_select.specs.answer.AnswerText.{list_text, bracketed, holds_unread, IsListTextRefused};

use crate::answer::unread_number::{has_unread_number_in_values, unread_number_error};
use crate::error::JsonPathError;
use itoa::Buffer;
use serde_json::Value;
use std::alloc::{AllocError, Global};

/// The JSON text of a list of values: their compact texts in order, joined by commas, in brackets. Errors: `Serde`
/// exactly if a value contains, at any depth, a number that is neither `i64` nor `u64`, such as 1.5; or `OutOfMemory`.
///
/// ```text
/// let document = read_document(alloc, b"[1, \"b\"]")?;
/// let found = select(alloc, &document, "$[*]")?;
/// assert!(rt; list_to_text(alloc, found.as_slice())?.as_str() == "[1,\"b\"]");
/// ```
pub fn list_to_text(alloc: Global, values: &[&Value]) -> Result<String, JsonPathError>
    ensures ok { IfOk result (λ text.
        list_text (map (λ v. view v.now) values.now) ≡ Some (string_bytes text)) }
    ensures refused { IfErr result (IsListTextRefused (map (λ v. view v.now) values.now)) }
{
    if has_unread_number_in_values(values) {
        return Err(unread_number_error(alloc));
    }
    Ok(compact_list_text(alloc, values)?)
}

// The values' compact texts in brackets, with commas between them.
fn compact_list_text(alloc: Global, values: &[&Value]) -> Result<String, AllocError>
    requires { holds_unread (map (λ v. view v.now) values.now) ≡ false }
    ensures { IfOk result (λ text. string_bytes text ≡ bracketed (map (λ v. view v.now) values.now)) }
{
    let mut text = String::new(alloc);
    text.push('[')?;
    let mut later = false;
    for value in values {
        push_list_value(alloc, &mut text, later, value)?;
        later = true;
    }
    text.push(']')?;
    Ok(text)
}

// Adds the compact JSON text of a list's value to the text, with a comma before it unless it is the first one.
fn push_list_value(
    alloc: Global,
    text: &mut String,
    later: bool,
    value: &Value,
) -> Result<(), AllocError>
    requires { has_float (view value.now) ≡ false }
    ensures { OnOk result (string_bytes text.new
        ≡ string_bytes text.old ++ (comma_if later ++ compact_text (view value.now))) }
{
    if later {
        text.push(',')?;
    }
    match value {
        Value::Null => text.push_str("null"),
        Value::Bool(true) => text.push_str("true"),
        Value::Bool(false) => text.push_str("false"),
        Value::Number(number) => match number.as_u64() {
            Some(n) => text.push_str(Buffer::new().format(n)),
            None => push_compact_text(alloc, text, value),
        },
        Value::String(s) if needs_no_escape(s.as_str()) => {
            text.push('"')?;
            text.push_str(s.as_str())?;
            text.push('"')
        }
        _ => push_compact_text(alloc, text, value),
    }
}

// Adds a value's compact JSON text. The shorter text is copied into the longer one, so that no large one stands twice.
fn push_compact_text(alloc: Global, text: &mut String, value: &Value) -> Result<(), AllocError>
    requires { has_float (view value.now) ≡ false }
    ensures { OnOk result (string_bytes text.new ≡ string_bytes text.old ++ compact_text (view value.now)) }
{
    let mut own = Value::to_string(value, alloc)?;
    if own.len() <= text.len() {
        return text.push_str(own.as_str());
    }
    own.insert_str(0, text.as_str())?;
    *text = own;
    Ok(())
}

// Whether the JSON string of this text is the text itself in quotes: no quote, backslash or byte below 32 is in it.
fn needs_no_escape(text: &str) -> bool
    ensures { IsTrue result → escape text.now ≡ text.now }
{
    let bytes = text.as_bytes();
    for b in bytes {
        if *b < 32 || *b == b'"' || *b == b'\\' {
            return false;
        }
    }
    true
}
