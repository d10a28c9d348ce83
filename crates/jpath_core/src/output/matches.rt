//! What is written for the matches of one document, and how many there are.

ghost use Rattle.std.specs.Prelude.{◌≡◌, ◌++◌, false, length, map, filter_map, All, OnOk, IfOk, Some};
ghost use Rattle.json.specs.Tree.{HasNumbers};
ghost use Rattle.json.specs.Value.{value_view};
ghost use Rattle.jsonpath_paths.specs.tree.Tree.{Path};
ghost use Rattle.jsonpath_paths.specs.Spelling.{Spells};
ghost use Rattle.jsonpath_select.specs.Meaning.{sel};
ghost use Rattle.json_trees.specs.ExactAt.{exact_at};
ghost use Rattle.json_trees.specs.ExactDocument.{exact_document};
ghost use Rattle.jpath_core.specs.Matches.{lines_text, match_text, items_text, item_text, AddsMatches, AddsArray, AreSelected, IsCountOf};
ghost use Rattle.jpath_core.specs.Nodes.{location_of};
ghost use Rattle.jpath_core.specs.AlongExactTree.{value_line};

use crate::output::places::{add_place_and_value_line, add_place_line};
use crate::printable_value::printable_value_at_node;
use crate::selection::select_in_document;
use jpath_texts::{
    Document, DocumentRefusal, Line, Look, OrderedValue, Query, Shown, Way, add_array_end,
    add_array_item, add_entry_lines, add_length_line, add_line_end, add_line_start,
    add_value_in_look,
};
use json::Value as Exact;
use jsonpath_nodes::{NoMemory, TreeNode};
use jsonpath_paths::laws::one_tree_per_text;
use std::alloc::{AllocError, Global};

/// Appends to `out` the lines for each value that a path selects in a document. `line` says what these lines show of
/// the value (the value itself, its location, its members or its length) and how. The values come in the order in which
/// the path's steps find them (`*` finds members in the order of their names' bytes), with duplicates. Returns the
/// number of these values. Errors: those of `select_in_document`; `out` may then end with a part of the lines.
pub fn add_lines_for_path(
    alloc: Global,
    document: &Document<'_>,
    query: &Query<'_>,
    line: &Line<'_>,
    out: &mut Vec<u8>,
) -> Result<usize, DocumentRefusal>
    requires { HasNumbers (value_view document.now.exact) }
    ensures { IfOk result (λ count. (p : Path) → Spells query.now.path p → AddsMatches query.now.path line.now (value_view document.now.exact) out.old.items out.new.items count p) }
{
    one_tree_per_text();
    let nodes = select_in_document(alloc, document, query)?;
    add_lines_of_nodes(alloc, document.root(alloc), nodes.as_slice(), line, out)?;
    Ok(nodes.len())
}

/// How many values several paths select in a document in total, with duplicates, or `usize::MAX` if there are more.
/// Errors: those of `select_in_document`.
pub fn count_matches(
    alloc: Global,
    document: &Document<'_>,
    queries: &[Query<'_>],
) -> Result<usize, DocumentRefusal>
    ensures { IfOk result (λ count. IsCountOf queries.now (value_view document.now.exact) count) }
{
    let mut count = 0usize;
    for query in queries {
        count = count.saturating_add(select_in_document(alloc, document, query)?.len());
    }
    Ok(count)
}

// How many values one path selects in a document.
pub(crate) fn count_matches_of_path(
    alloc: Global,
    document: &Document<'_>,
    query: &Query<'_>,
) -> Result<usize, DocumentRefusal>
    ensures { IfOk result (λ count. (p : Path) → Spells query.now.path p → count ≡ length (sel query.now.path (exact_document (value_view document.now.exact)) p)) }
{
    one_tree_per_text();
    Ok(select_in_document(alloc, document, query)?.len())
}

/// Appends to `out` one JSON array of the values that the paths select: path by path, and for each path in the order in
/// which its steps find them, with duplicates. Before the array comes the byte 30 if `line.is_record`, then the file
/// name in `line.name` and a colon, or nothing if `line.name` is `None`. After the array comes what `line.end` says: a
/// line feed, the byte 0 or nothing. Returns how many values there are. Errors: those of `select_in_document`; `out`
/// may then end with a part of this output.
pub fn add_array(
    alloc: Global,
    document: &Document<'_>,
    queries: &[Query<'_>],
    line: &Line<'_>,
    out: &mut Vec<u8>,
) -> Result<usize, DocumentRefusal>
    requires { HasNumbers (value_view document.now.exact) }
    ensures { IfOk result (λ count. AddsArray queries.now line.now (value_view document.now.exact) out.old.items out.new.items count) }
{
    let values = selected_values(alloc, document, queries)?;
    add_line_start(out, line)?;
    out.push(b'[')?;
    add_array_items(alloc, values.as_slice(), line.look, out)?;
    add_line_end(out, line.end)?;
    Ok(values.len())
}

// A value that a path selects.
#[derive(Clone, Copy, Drop)]
struct Selected<'v, 'a> {
    value: &'v Exact<'a>,
}

// The values that the paths select, path by path.
fn selected_values<'v, 'a>(
    alloc: Global,
    document: &'v Document<'a>,
    queries: &[Query<'_>],
) -> Result<Vec<Selected<'v, 'a>>, DocumentRefusal>
    requires { HasNumbers (value_view document.now.exact) }
    ensures selected { IfOk result (λ values. AreSelected queries.now (value_view document.now.exact) (map (λ v. value_view v.value.now) values.items)) }
    ensures writable { IfOk result (λ values. All (λ v. HasNumbers (value_view v.value.now)) values.items) }
{
    let mut values = Vec::new(alloc);
    for query in queries {
        let nodes = select_in_document(alloc, document, query)?;
        add_values_at_nodes(alloc, document.root(alloc), nodes.as_slice(), &mut values)?;
    }
    Ok(values)
}

// Adds the values at the nodes.
fn add_values_at_nodes<'v, 'a>(
    alloc: Global,
    root: OrderedValue<'v, 'a>,
    nodes: &[TreeNode<OrderedValue<'_, '_>>],
    values: &mut Vec<Selected<'v, 'a>>,
) -> Result<(), DocumentRefusal>
    requires { HasNumbers (value_view root.value.now) }
    ensures added { OnOk result (map (λ v. value_view v.value.now) values.new.items
        ≡ map (λ v. value_view v.value.now) values.old.items ++ filter_map (exact_at (value_view root.entry.value.now)) (map location_of nodes.now)) }
    ensures writable { All (λ v. HasNumbers (value_view v.value.now)) values.old.items → All (λ v. HasNumbers (value_view v.value.now)) values.new.items }
{
    let mut way = Way::new(alloc);
    for node in nodes {
        if let Some(found) = printable_value_at_node(root, &mut way, node)? {
            values.push(Selected {
                value: found.value(),
            })?;
        }
    }
    Ok(())
}

// Writes the items of an array, and its end.
fn add_array_items(
    alloc: Global,
    values: &[Selected<'_, '_>],
    look: Look,
    out: &mut Vec<u8>,
) -> Result<(), AllocError>
    requires { All (λ v. HasNumbers (value_view v.value.now)) values.now }
    ensures { OnOk result (out.new.items ≡ out.old.items ++ items_text false look (map (λ v. value_view v.value.now) values.now)) }
{
    let mut has_items = false;
    for selected in values {
        add_item(alloc, has_items, selected.value, look, out)?;
        has_items = true;
    }
    add_array_end(out, has_items, look)
}

// Writes an item of an array, after a comma or not.
fn add_item(
    alloc: Global,
    has_comma: bool,
    value: &Exact<'_>,
    look: Look,
    out: &mut Vec<u8>,
) -> Result<(), AllocError>
    requires { HasNumbers (value_view value.now) }
    ensures { OnOk result (out.new.items ≡ out.old.items ++ item_text has_comma look (value_view value.now)) }
{
    if !look.is_compact() {
        return add_array_item(alloc, out, has_comma, value, look);
    }
    if has_comma {
        out.push(b',')?;
    }
    add_value_in_look(
        alloc,
        out,
        value,
        Look {
            is_raw: false,
            ..look
        },
    )
}

// Adds the lines of each node to what is written: its place, its value or both, or what is in the value, as is asked for.
fn add_lines_of_nodes(
    alloc: Global,
    root: OrderedValue<'_, '_>,
    nodes: &[TreeNode<OrderedValue<'_, '_>>],
    line: &Line<'_>,
    out: &mut Vec<u8>,
) -> Result<(), DocumentRefusal>
    requires { HasNumbers (value_view root.value.now) }
    ensures { OnOk result (out.new.items ≡ out.old.items ++ lines_text line.now (value_view root.entry.value.now) (map location_of nodes.now)) }
{
    let mut way = Way::new(alloc);
    for node in nodes {
        if let Some(found) = printable_value_at_node(root, &mut way, node)? {
            add_lines_of_match(alloc, node, found.value(), line, out)?;
        }
    }
    Ok(())
}

// Writes the lines of one match: one with its place, its value or both, or its length; or one for each of its members.
fn add_lines_of_match(
    alloc: Global,
    node: &TreeNode<OrderedValue<'_, '_>>,
    value: &Exact<'_>,
    line: &Line<'_>,
    out: &mut Vec<u8>,
) -> Result<(), NoMemory>
    requires { HasNumbers (value_view value.now) }
    ensures { OnOk result (out.new.items ≡ out.old.items ++ match_text line.now (location_of node.now) (value_view value.now)) }
{
    match line.shown {
        Shown::Values => add_value_line(alloc, value, line, out)?,
        Shown::Places => add_place_line(alloc, node, line, out)?,
        Shown::PlacesAndValues => add_place_and_value_line(alloc, node, value, line, out)?,
        Shown::Keys => add_entry_lines(alloc, value, false, line, out)?,
        Shown::Entries => add_entry_lines(alloc, value, true, line, out)?,
        Shown::Lengths => add_length_line(alloc, value, line, out)?,
    }
    Ok(())
}

// Writes a value on a line of its own, whatever the line is to show of matches.
#[inline(always)]
pub(crate) fn add_value_line(
    alloc: Global,
    value: &Exact<'_>,
    line: &Line<'_>,
    out: &mut Vec<u8>,
) -> Result<(), AllocError>
    requires { HasNumbers (value_view value.now) }
    ensures { OnOk result (out.new.items ≡ out.old.items ++ value_line line.now (value_view value.now)) }
{
    add_line_start(out, line)?;
    add_value_in_look(alloc, out, value, line.look)?;
    add_line_end(out, line.end)
}
