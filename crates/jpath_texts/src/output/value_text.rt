//! The text of a value: compact, over lines, or in colours; texts raw.

ghost use Rattle.std.specs.Prelude.{◌≡◌, ◌++◌, OnOk, OnErr};
ghost use Rattle.json.specs.Tree.{HasNumbers};
ghost use Rattle.json.specs.Value.{value_view};
ghost use Rattle.jpath_texts.specs.Lines.{compact, shown, with_members_kept};

use crate::output::arranged::rearranged;
use crate::output::colored_or_indented_value::add_value_at_depth;
use crate::output::look::Look;
use crate::output::quoted_text::add_quoted;
use json::{Value as Exact, Writer};
use std::alloc::{AllocError, Global};
use std::mem;

/// Appends the compact JSON text of a value to `out`. If an object has a name several times, each of these members is
/// written. The only error is that memory ran out; nothing is appended then.
pub fn add_compact_value(
    alloc: Global,
    out: &mut Vec<u8>,
    value: &Exact<'_>,
) -> Result<(), AllocError>
    requires { HasNumbers (value_view value.now) }
    ensures ok { OnOk result (out.new.items ≡ out.old.items ++ compact (value_view value.now)) }
    ensures err { OnErr result (out.new.items ≡ out.old.items) }
{
    if out.is_empty() {
        return write_compact_value(alloc, out, value);
    }
    let mut apart = Vec::new(alloc);
    write_compact_value(alloc, &mut apart, value)?;
    out.extend_from_slice(apart.as_slice())
}

// The same by the writer of JSON, which clears up to 16 KB behind what is there already.
fn write_compact_value(
    alloc: Global,
    out: &mut Vec<u8>,
    value: &Exact<'_>,
) -> Result<(), AllocError>
    requires { HasNumbers (value_view value.now) }
    ensures ok { OnOk result (out.new.items ≡ out.old.items ++ compact (value_view value.now)) }
    ensures err { OnErr result (out.new.items ≡ out.old.items) }
{
    let mut writer = Writer::new(mem::replace(out, Vec::new(alloc)));
    let written = writer.value(value);
    *out = writer.into_inner();
    written
}

/// Appends to `out` the text of a value. `look` says how it is printed: a text with or without quotes and escapes,
/// members sorted or not, on one line or over several, in colours or not. If an object has a name several times, the
/// name is written once, where it occurs first, with its last value. If `look.is_sorted`, the members of each object
/// are written in the order of their names' bytes. The only error is that memory ran out; `out` may then end with a
/// part of the text.
#[inline(always)]
pub fn add_value_in_look(
    alloc: Global,
    out: &mut Vec<u8>,
    value: &Exact<'_>,
    look: Look,
) -> Result<(), AllocError>
    requires { HasNumbers (value_view value.now) }
    ensures { OnOk result (out.new.items ≡ out.old.items ++ shown look (value_view value.now)) }
{
    match rearranged(alloc, value, look.is_sorted)? {
        Some(made) => add_value_with_members_kept(alloc, out, &made, look),
        None => add_value_with_members_kept(alloc, out, value, look),
    }
}

// Writes a value behind what is there, raw, compact, over lines or in colours, as the look says; its members as they
// stand.
#[inline(always)]
pub(crate) fn add_value_with_members_kept(
    alloc: Global,
    out: &mut Vec<u8>,
    value: &Exact<'_>,
    look: Look,
) -> Result<(), AllocError>
    requires { HasNumbers (value_view value.now) }
    ensures { OnOk result (out.new.items ≡ out.old.items ++ with_members_kept look (value_view value.now)) }
{
    if look.is_raw {
        if let Exact::String(text) = value {
            return out.extend_from_slice(text.as_bytes());
        }
    }
    if look.is_compact() {
        add_value_on_one_line(alloc, out, value)
    } else {
        add_value_at_depth(out, value, look, 0)
    }
}

// Writes the compact text of a value; of an array or object by the writer of JSON, which is slow to begin.
#[inline(always)]
#[tactic(auto, unfolding(json::specs::Print::print_from))]
fn add_value_on_one_line(
    alloc: Global,
    out: &mut Vec<u8>,
    value: &Exact<'_>,
) -> Result<(), AllocError>
    requires { HasNumbers (value_view value.now) }
    ensures { OnOk result (out.new.items ≡ out.old.items ++ compact (value_view value.now)) }
{
    match value {
        Exact::Null => out.extend_from_slice(b"null"),
        Exact::Bool(true) => out.extend_from_slice(b"true"),
        Exact::Bool(false) => out.extend_from_slice(b"false"),
        Exact::Number(digits) => out.extend_from_slice(digits.as_bytes()),
        Exact::String(text) => add_quoted(out, *text),
        Exact::Array(_) | Exact::Object(_) => add_compact_value(alloc, out, value),
    }
}
