//! The one array that `jpath -a` writes for a document: its items, in colours or over lines, and its end.

ghost use Rattle.std.specs.Prelude.{◌≡◌, ◌++◌, OnOk};
ghost use Rattle.json.specs.Value.{value_view};
ghost use Rattle.jpath_texts.specs.AtDepth.{array_item, array_end};

use crate::output::arranged::rearranged;
use crate::output::colored_or_indented_value::{
    add_closing, add_comma_and_indent, add_value_at_depth,
};
use crate::output::look::Look;
use json::Value as Exact;
use std::alloc::{AllocError, Global};

/// Appends an item of a JSON array to `out`, in colours or over several lines as `look` says, after a comma if
/// `has_comma`. If an object in it has a name several times, the name is written once, where it occurs first, with its
/// last value. If `look.is_sorted`, the members of each object are written in the order of their names' bytes. The only
/// error is that memory ran out; `out` may then end with a part of the item.
pub fn add_array_item(
    alloc: Global,
    out: &mut Vec<u8>,
    has_comma: bool,
    value: &Exact<'_>,
    look: Look,
) -> Result<(), AllocError>
    ensures { OnOk result (out.new.items ≡ out.old.items ++ array_item has_comma look (value_view value.now)) }
{
    add_comma_and_indent(out, has_comma, look.layout, 1)?;
    match rearranged(alloc, value, look.is_sorted)? {
        Some(made) => add_value_at_depth(out, &made, look, 1),
        None => add_value_at_depth(out, value, look, 1),
    }
}

/// Appends the closing bracket of a JSON array to `out`. The bracket is on a line of its own if the array has items
/// (`has_items`) and `look`, which says how values are printed, puts each item on lines of its own. The only error is
/// that memory ran out; `out` may then end with the white space before the bracket.
pub fn add_array_end(out: &mut Vec<u8>, has_items: bool, look: Look) -> Result<(), AllocError>
    ensures { OnOk result (out.new.items ≡ out.old.items ++ array_end has_items look) }
{
    add_closing(out, b']', has_items, look.layout, 0)
}
