//! Values in colours, for a terminal, and values over lines, at a depth of indentation. A value on one line without
//! colours is written in `value_text.rt`.

ghost use Rattle.std.specs.Prelude.{◌≡◌, ◌∷◌, ◌++◌, replicate, false, OnOk};
ghost use Rattle.json.specs.Print.{quoted};
ghost use Rattle.json.specs.Value.{value_view, items_view, members_view};
ghost use Rattle.jpath_texts.specs.AtDepth.{at_depth, rest_of_array, rest_of_object, comma_and_indent, indent, closed_by, colon, inner, in_color};

use crate::output::look::{Layout, Look};
use crate::output::quoted_text::add_quoted;
use json::Value as Exact;
use std::alloc::AllocError;

const NAME: &[u8] = b"\x1b[34;1m";

const TEXT: &[u8] = b"\x1b[32m";

const NUMBER: &[u8] = b"\x1b[36m";

const WORD: &[u8] = b"\x1b[35m";

const PLAIN: &[u8] = b"\x1b[0m";

// Writes a value behind what is there, at a depth of indentation, in colours or not, over lines or not, as the look
// says. Names have one colour, texts another, numbers a third, truths and null a fourth. Members are written as they
// stand. A refusal may leave a part of it.
#[cycle(at_depth)]
#[inline(always)]
pub(crate) fn add_value_at_depth(
    out: &mut Vec<u8>,
    value: &Exact<'_>,
    look: Look,
    depth: usize,
) -> Result<(), AllocError>
    ensures { OnOk result (out.new.items ≡ out.old.items ++ at_depth look depth (value_view value.now)) }
{
    match value {
        Exact::Null => add_in_color(out, look.is_colored, WORD, b"null"),
        Exact::Bool(true) => add_in_color(out, look.is_colored, WORD, b"true"),
        Exact::Bool(false) => add_in_color(out, look.is_colored, WORD, b"false"),
        Exact::Number(digits) => add_in_color(out, look.is_colored, NUMBER, digits.as_bytes()),
        Exact::String(text) => add_quoted_in_color(out, look.is_colored, TEXT, *text),
        Exact::Array(items) => add_array_at_depth(out, items, look, depth),
        Exact::Object(members) => add_object_at_depth(out, members, look, depth),
    }
}

// Writes an array with its brackets at a depth of indentation.
#[cycle(at_depth)]
fn add_array_at_depth(
    out: &mut Vec<u8>,
    items: &Vec<Exact<'_>>,
    look: Look,
    depth: usize,
) -> Result<(), AllocError>
    ensures { OnOk result (out.new.items ≡ out.old.items ++ 91 ∷ rest_of_array false look depth (items_view items.now.items)) }
{
    let inside = inner_depth(depth);
    let mut has_items = false;
    out.push(b'[')?;
    for item in items {
        add_comma_and_indent(out, has_items, look.layout, inside)?;
        add_value_at_depth(out, item, look, inside)?;
        has_items = true;
    }
    add_closing(out, b']', has_items, look.layout, depth)
}

// Writes an object with its braces at a depth of indentation.
#[cycle(at_depth)]
fn add_object_at_depth(
    out: &mut Vec<u8>,
    members: &Vec<(&str, Exact<'_>)>,
    look: Look,
    depth: usize,
) -> Result<(), AllocError>
    ensures { OnOk result (out.new.items ≡ out.old.items ++ 123 ∷ rest_of_object false look depth (members_view members.now.items)) }
{
    let inside = inner_depth(depth);
    let mut has_members = false;
    out.push(b'{')?;
    for member in members {
        add_comma_and_indent(out, has_members, look.layout, inside)?;
        add_quoted_in_color(out, look.is_colored, NAME, member.0)?;
        add_colon(out, look.layout)?;
        add_value_at_depth(out, &member.1, look, inside)?;
        has_members = true;
    }
    add_closing(out, b'}', has_members, look.layout, depth)
}

// Writes the bracket or brace that closes, over lines on a line of its own if something stands before it.
pub(crate) fn add_closing(
    out: &mut Vec<u8>,
    bracket: u8,
    has_items: bool,
    layout: Layout,
    depth: usize,
) -> Result<(), AllocError>
    ensures { OnOk result (out.new.items ≡ out.old.items ++ closed_by bracket has_items layout depth) }
{
    if has_items {
        add_line_end_and_indent(out, layout, depth)?;
    }
    Ok(out.push(bracket)?)
}

// Writes the colon behind a name, and over lines a blank.
fn add_colon(out: &mut Vec<u8>, layout: Layout) -> Result<(), AllocError>
    ensures { OnOk result (out.new.items ≡ out.old.items ++ colon layout) }
{
    if layout.is_over_lines() {
        out.extend_from_slice(b": ")
    } else {
        out.extend_from_slice(b":")
    }
}

// The depth of what stands in an array or object at this depth: one more.
fn inner_depth(depth: usize) -> usize
    ensures { result ≡ inner depth }
{
    depth.saturating_add(1)
}

// Writes a comma, if there is one, and over lines the line end and the indentation of the next line.
pub(crate) fn add_comma_and_indent(
    out: &mut Vec<u8>,
    has_comma: bool,
    layout: Layout,
    depth: usize,
) -> Result<(), AllocError>
    ensures { OnOk result (out.new.items ≡ out.old.items ++ comma_and_indent has_comma layout depth) }
{
    if has_comma {
        out.push(b',')?;
    }
    add_line_end_and_indent(out, layout, depth)
}

// Writes a line end and the indentation of the next line; nothing where a value is on one line.
fn add_line_end_and_indent(
    out: &mut Vec<u8>,
    layout: Layout,
    depth: usize,
) -> Result<(), AllocError>
    ensures { OnOk result (out.new.items ≡ out.old.items ++ indent layout depth) }
{
    match layout {
        Layout::OneLine => Ok(()),
        Layout::Blanks(count) => {
            out.push(b'\n')?;
            for _ in 0..depth {
                add_repeated(out, b' ', count)?;
            }
            Ok(())
        }
        Layout::Tabs => {
            out.push(b'\n')?;
            add_repeated(out, b'\t', depth)
        }
    }
}

// Writes a byte so many times.
fn add_repeated(out: &mut Vec<u8>, byte: u8, count: usize) -> Result<(), AllocError>
    ensures { OnOk result (out.new.items ≡ out.old.items ++ replicate count byte) }
{
    for _ in 0..count {
        out.push(byte)?;
    }
    Ok(())
}

// Writes a text as JSON has it, in quotes, and in this colour if there are colours.
fn add_quoted_in_color(
    out: &mut Vec<u8>,
    is_colored: bool,
    color: &[u8],
    text: &str,
) -> Result<(), AllocError>
    ensures { OnOk result (out.new.items ≡ out.old.items ++ in_color is_colored color.now (quoted text.now)) }
{
    if !is_colored {
        return add_quoted(out, text);
    }
    out.extend_from_slice(color)?;
    add_quoted(out, text)?;
    out.extend_from_slice(PLAIN)
}

// Writes bytes as they are, in this colour if there are colours.
fn add_in_color(
    out: &mut Vec<u8>,
    is_colored: bool,
    color: &[u8],
    text: &[u8],
) -> Result<(), AllocError>
    ensures { OnOk result (out.new.items ≡ out.old.items ++ in_color is_colored color.now text.now) }
{
    if !is_colored {
        return out.extend_from_slice(text);
    }
    out.extend_from_slice(color)?;
    out.extend_from_slice(text)?;
    out.extend_from_slice(PLAIN)
}
