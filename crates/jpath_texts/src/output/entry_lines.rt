//! Lines about what is in a value: the names of its members or the indexes of its items, with or without their values,
//! and how many they are.

ghost use Rattle.std.specs.Prelude.{◌≡◌, ◌++◌, length, chars, OnOk, IfOk};
ghost use Rattle.std.specs.Fmt.{decimal};
ghost use Rattle.json.specs.Json.{number, string};
ghost use Rattle.json.specs.Tree.{HasNumbers, ItemsHaveNumbers, MembersHaveNumbers};
ghost use Rattle.json.specs.Value.{value_view, items_view, members_view};
ghost use Rattle.jpath_texts.specs.Entries.{entries, entries_of_items, entries_of_members, behind_key, entry_line, entry_lines, lines_of_entries, length_of, length_value};
ghost use Rattle.jpath_texts.specs.Lines.{on_line, with_members_kept};
ghost use Rattle.jpath_texts.specs.NamesOnce.{names_once};

use crate::output::arranged::rearranged;
use crate::output::look::Look;
use crate::output::match_line::{Line, add_line_end, add_line_start};
use crate::output::value_text::add_value_with_members_kept;
use json::Value as Exact;
use std::alloc::{AllocError, Global};

/// Appends a line to `out` for each member of a value, with its name, or for each item, with its index from 0; nothing
/// for a value that is no object and no array. If `has_values` is set, a tab and the value of the member or item
/// follow. If an object has a name several times, the name is written once, where it occurs first, with its last value.
/// If `line.look.is_sorted`, members are written in the order of their names' bytes. The only error is that memory ran
/// out; `out` may then end with a part of the lines.
pub fn add_entry_lines(
    alloc: Global,
    value: &Exact<'_>,
    has_values: bool,
    line: &Line<'_>,
    out: &mut Vec<u8>,
) -> Result<(), AllocError>
    requires { HasNumbers (value_view value.now) }
    ensures { OnOk result (out.new.items ≡ out.old.items ++ entry_lines has_values line.now (value_view value.now)) }
{
    match rearranged(alloc, value, line.look.is_sorted)? {
        Some(made) => add_lines_of_entries(alloc, &made, has_values, line, out),
        None => add_lines_of_entries(alloc, value, has_values, line, out),
    }
}

// Writes a line for each member or item of a value, as they stand in it.
fn add_lines_of_entries(
    alloc: Global,
    value: &Exact<'_>,
    has_values: bool,
    line: &Line<'_>,
    out: &mut Vec<u8>,
) -> Result<(), AllocError>
    requires { HasNumbers (value_view value.now) }
    ensures { OnOk result (out.new.items ≡ out.old.items ++ lines_of_entries has_values line.now (entries (value_view value.now))) }
{
    match value {
        Exact::Array(items) => add_item_lines(alloc, items, has_values, line, out),
        Exact::Object(members) => add_member_lines(alloc, members, has_values, line, out),
        _ => Ok(()),
    }
}

// Writes a line for each item of an array.
fn add_item_lines(
    alloc: Global,
    items: &Vec<Exact<'_>>,
    has_values: bool,
    line: &Line<'_>,
    out: &mut Vec<u8>,
) -> Result<(), AllocError>
    requires { ItemsHaveNumbers (items_view items.now.items) }
    ensures { OnOk result (out.new.items ≡ out.old.items ++ lines_of_entries has_values line.now (entries_of_items 0 (items_view items.now.items))) }
{
    for (index, item) in items.iter().enumerate() {
        add_item_line(alloc, index, item, has_values, line, out)?;
    }
    Ok(())
}

// Writes a line for each member of an object.
fn add_member_lines(
    alloc: Global,
    members: &Vec<(&str, Exact<'_>)>,
    has_values: bool,
    line: &Line<'_>,
    out: &mut Vec<u8>,
) -> Result<(), AllocError>
    requires { MembersHaveNumbers (members_view members.now.items) }
    ensures { OnOk result (out.new.items ≡ out.old.items ++ lines_of_entries has_values line.now (entries_of_members (members_view members.now.items))) }
{
    for member in members {
        add_member_line(alloc, member.0, &member.1, has_values, line, out)?;
    }
    Ok(())
}

// Writes the line of an item: its index, and its value where values are wanted.
fn add_item_line(
    alloc: Global,
    index: usize,
    item: &Exact<'_>,
    has_values: bool,
    line: &Line<'_>,
    out: &mut Vec<u8>,
) -> Result<(), AllocError>
    requires { HasNumbers (value_view item.now) }
    ensures { OnOk result (out.new.items ≡ out.old.items ++ entry_line has_values line.now (number (decimal index), value_view item.now)) }
{
    add_line_start(out, line)?;
    add_number(alloc, index, line.look, out)?;
    add_value_behind_key(alloc, item, has_values, line.look, out)?;
    add_line_end(out, line.end)
}

// Writes the line of a member: its name, and its value where values are wanted.
fn add_member_line(
    alloc: Global,
    name: &str,
    value: &Exact<'_>,
    has_values: bool,
    line: &Line<'_>,
    out: &mut Vec<u8>,
) -> Result<(), AllocError>
    requires { HasNumbers (value_view value.now) }
    ensures { OnOk result (out.new.items ≡ out.old.items ++ entry_line has_values line.now (string name.now, value_view value.now)) }
{
    add_line_start(out, line)?;
    add_value_with_members_kept(alloc, out, &Exact::String(name), line.look)?;
    add_value_behind_key(alloc, value, has_values, line.look, out)?;
    add_line_end(out, line.end)
}

// Writes a tab and a value where values are wanted.
fn add_value_behind_key(
    alloc: Global,
    value: &Exact<'_>,
    has_values: bool,
    look: Look,
    out: &mut Vec<u8>,
) -> Result<(), AllocError>
    requires { HasNumbers (value_view value.now) }
    ensures { OnOk result (out.new.items ≡ out.old.items ++ behind_key has_values look (value_view value.now)) }
{
    if !has_values {
        return Ok(());
    }
    out.push(b'\t')?;
    add_value_with_members_kept(alloc, out, value, look)
}

/// Appends a line to `out` with the length of a value: the number of items of an array, of members of an object (a name
/// that occurs several times is counted once) or of characters of a string; `null` for any other value. The only error
/// is that memory ran out; `out` may then end with a part of the line.
pub fn add_length_line(
    alloc: Global,
    value: &Exact<'_>,
    line: &Line<'_>,
    out: &mut Vec<u8>,
) -> Result<(), AllocError>
    ensures { OnOk result (out.new.items ≡ out.old.items ++ on_line line.now (with_members_kept line.now.look (length_value (length_of (value_view value.now))))) }
{
    let length = length_of_value(alloc, value)?;
    add_line_start(out, line)?;
    add_length(alloc, length, line.look, out)?;
    add_line_end(out, line.end)
}

// Writes a length, or null where there is none.
fn add_length(
    alloc: Global,
    length: Option<usize>,
    look: Look,
    out: &mut Vec<u8>,
) -> Result<(), AllocError>
    ensures { OnOk result (out.new.items ≡ out.old.items ++ with_members_kept look (length_value length)) }
{
    match length {
        Some(count) => add_number(alloc, count, look, out),
        None => add_value_with_members_kept(alloc, out, &Exact::Null, look),
    }
}

// Writes a whole number as a value.
fn add_number(alloc: Global, count: usize, look: Look, out: &mut Vec<u8>) -> Result<(), AllocError>
    ensures { OnOk result (out.new.items ≡ out.old.items ++ with_members_kept look (number (decimal count))) }
{
    let digits = format!(in alloc; "{count}")?;
    add_value_with_members_kept(alloc, out, &Exact::Number(digits.as_str()), look)
}

// How long a value is. A name that comes again is counted once.
fn length_of_value(alloc: Global, value: &Exact<'_>) -> Result<Option<usize>, AllocError>
    ensures { IfOk result (λ found. found ≡ length_of (value_view value.now)) }
{
    match value {
        Exact::String(text) => Ok(Some(count_characters(*text))),
        Exact::Array(_) => Ok(Some(count_entries(value))),
        Exact::Object(_) => Ok(Some(count_members(alloc, value)?)),
        _ => Ok(None),
    }
}

// How many characters a text has.
fn count_characters(text: &str) -> usize
    ensures { result ≡ length (chars text.now) }
{
    text.chars().count()
}

// How many members an object has, a name that comes again counted once.
fn count_members(alloc: Global, value: &Exact<'_>) -> Result<usize, AllocError>
    ensures { IfOk result (λ count. count ≡ length (entries (names_once (value_view value.now)))) }
{
    match rearranged(alloc, value, false)? {
        Some(made) => Ok(count_entries(&made)),
        None => Ok(count_entries(value)),
    }
}

// How many members or items a value has.
fn count_entries(value: &Exact<'_>) -> usize
    ensures { result ≡ length (entries (value_view value.now)) }
{
    match value {
        Exact::Array(items) => items.len(),
        Exact::Object(members) => members.len(),
        _ => 0,
    }
}
