//! The locations of matches, as paths on lines, alone or in a column before the values.

ghost use Rattle.std.specs.Prelude.{◌≡◌, ◌%◌, ◌∷◌, ◌++◌, map, IfOk, OnOk, string_bytes};
ghost use Rattle.std.specs.Char.{digit_char};
ghost use Rattle.std.specs.Str.{chars, encode_utf8_all};
ghost use Rattle.json.specs.Tree.{HasNumbers};
ghost use Rattle.json.specs.Value.{value_view};
ghost use Rattle.jsonpath_nodes.specs.place.LocationText.{location_text, step_chars};
ghost use Rattle.jsonpath_nodes.specs.place.Owned.{owned_step};
ghost use Rattle.jsonpath_nodes.specs.place.SpotPlace.{step_of};
ghost use Rattle.jpath_texts.specs.Lines.{on_line, shown};
ghost use Rattle.jpath_core.specs.Nodes.{location_of};
ghost use Rattle.jpath_core.specs.Printable.{escape, has_control, is_control, printable, printable_char};

use crate::laws::escapes_hold;
use jpath_texts::{Line, OrderedValue, add_line_end, add_line_start, add_value_in_look};
use json::Value as Exact;
use jsonpath_nodes::{LocStep, NoMemory, PathStep, TreeNode};
use std::alloc::{AllocError, Global};

// Writes the place of a match on a line, as the path that selects just that; a control character of a name is escaped.
pub(crate) fn add_place_line(
    alloc: Global,
    node: &TreeNode<OrderedValue<'_, '_>>,
    line: &Line<'_>,
    out: &mut Vec<u8>,
) -> Result<(), NoMemory>
    ensures { OnOk result (out.new.items ≡ out.old.items ++ on_line line.now (printable (location_text (location_of node.now)))) }
{
    add_line_start(out, line)?;
    add_location(alloc, node, out)?;
    add_line_end(out, line.end)?;
    Ok(())
}

// Writes the place of a match, a tab and its value on a line. No tab or line end of a name breaks the two columns.
pub(crate) fn add_place_and_value_line(
    alloc: Global,
    node: &TreeNode<OrderedValue<'_, '_>>,
    value: &Exact<'_>,
    line: &Line<'_>,
    out: &mut Vec<u8>,
) -> Result<(), NoMemory>
    requires { HasNumbers (value_view value.now) }
    ensures { OnOk result (out.new.items ≡ out.old.items ++ on_line line.now (printable (location_text (location_of node.now)) ++ 9 ∷ shown line.now.look (value_view value.now))) }
{
    add_line_start(out, line)?;
    add_location(alloc, node, out)?;
    out.push(b'\t')?;
    add_value_in_look(alloc, out, value, line.look)?;
    add_line_end(out, line.end)?;
    Ok(())
}

// Writes a node's location as a path whose control characters are escaped.
fn add_location(
    alloc: Global,
    node: &TreeNode<OrderedValue<'_, '_>>,
    out: &mut Vec<u8>,
) -> Result<(), NoMemory>
    ensures { OnOk result (out.new.items ≡ out.old.items ++ printable (location_text (location_of node.now))) }
{
    let mut steps = Vec::new(alloc);
    node.add_steps(&mut steps)?;
    let text = text_of_steps(alloc, steps.as_slice())?;
    add_printable_text(alloc, text.as_str(), out)?;
    Ok(())
}

// The text of the location with these steps.
fn text_of_steps(alloc: Global, steps: &[PathStep<'_>]) -> Result<String, AllocError>
    ensures { IfOk result (λ text. string_bytes text ≡ location_text (map step_of steps.now)) }
{
    let mut text = String::with_capacity(alloc, steps.len().saturating_mul(8))?;
    text.push_str("$")?;
    for step in steps {
        add_step(alloc, step, &mut text)?;
    }
    Ok(text)
}

// Adds the text of a step, in brackets.
fn add_step(alloc: Global, step: &PathStep<'_>, text: &mut String) -> Result<(), AllocError>
    ensures { OnOk result (string_bytes text.new ≡ string_bytes text.old ++ encode_utf8_all (step_chars (step_of step.now))) }
{
    let copy = copied_step(alloc, *step)?;
    write!(text, "{copy}")?;
    Ok(())
}

// A step, copied.
fn copied_step(alloc: Global, step: PathStep<'_>) -> Result<LocStep, AllocError>
    ensures { IfOk result (λ copy. owned_step copy ≡ step_of step.entry) }
{
    match step {
        PathStep::Name(name) => Ok(LocStep::Name(String::from_str(alloc, name)?)),
        PathStep::Index(index) => Ok(LocStep::Index(index)),
    }
}

// Writes a text whose control characters are escaped. Without them it is written as it is (`escapes_hold`).
fn add_printable_text(alloc: Global, text: &str, out: &mut Vec<u8>) -> Result<(), AllocError>
    ensures { OnOk result (out.new.items ≡ out.old.items ++ printable text.now) }
{
    escapes_hold();
    if has_control(text) {
        let printable = printable_text(alloc, text)?;
        return out.extend_from_slice(printable.as_bytes());
    }
    out.extend_from_slice(text.as_bytes())
}

// Whether a control character stands in the text.
fn has_control(text: &str) -> bool
    ensures { result ≡ has_control (chars text.now) }
{
    text.chars().any(|c| is_control(c))
}

// Whether a character is a control character: C0, DEL or C1.
fn is_control(c: char) -> bool
    ensures { result ≡ is_control c }
{
    matches!(c, '\0'..='\u{1f}' | '\u{7f}'..='\u{9f}')
}

// The text with each control character escaped.
fn printable_text(alloc: Global, text: &str) -> Result<String, AllocError>
    ensures { IfOk result (λ made. string_bytes made ≡ printable text.now) }
{
    let mut made = String::new(alloc);
    for c in text.chars() {
        add_printable_char(c, &mut made)?;
    }
    Ok(made)
}

// Adds a character, or its escape if it is a control character.
fn add_printable_char(c: char, made: &mut String) -> Result<(), AllocError>
    ensures { OnOk result (string_bytes made.new ≡ string_bytes made.old ++ encode_utf8_all (printable_char c)) }
{
    if is_control(c) {
        add_escape(c, made)
    } else {
        made.push(c)
    }
}

/// Appends the escape of a control character to `made`: `\t`, `\n`, `\r`, or `\u00` and two hexadecimal digits, as
/// `\u001b`. The only error is that memory ran out; `made` may then end with a part of it.
pub fn add_escape(c: char, made: &mut String) -> Result<(), AllocError>
    ensures { OnOk result (string_bytes made.new ≡ string_bytes made.old ++ encode_utf8_all (escape c)) }
{
    match c {
        '\t' => made.push_str("\\t"),
        '\n' => made.push_str("\\n"),
        '\r' => made.push_str("\\r"),
        _ => {
            made.push_str("\\u00")?;
            made.push(digit(c as u32 / 16))?;
            made.push(digit(c as u32))
        }
    }
}

// The last hexadecimal digit of a number.
fn digit(number: u32) -> char
    ensures { result ≡ digit_char (number % 16) }
{
    char::from_digit(number % 16, 16).unwrap_or('0')
}
