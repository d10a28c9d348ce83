//! Rows of a table: a line for each value that one path selects, a field for each column.

ghost use Rattle.std.specs.Prelude.{◌≡◌, map, IfOk, OnOk};
ghost use Rattle.json.specs.Tree.{HasNumbers};
ghost use Rattle.json.specs.Value.{value_view};
ghost use Rattle.jpath_core.specs.Nodes.{location_of};
ghost use Rattle.jpath_core.specs.Rows.{first_field, AddsRow, AddsRows, AreFields, IsField};

use crate::printable_value::printable_value_at_node;
use crate::selection::select_in_document;
use jpath_texts::{
    Document, DocumentRefusal, Layout, Look, OrderedValue, Query, Separated, Way, add_row,
    add_value_in_look,
};
use jsonpath_nodes::TreeNode;
use jsonpath_select::select_nodes_in_tree;
use std::alloc::Global;

/// Appends to `out` a row of a table for each value that the path `rows` selects in a document, in the order in which
/// the path's steps find them, and returns the number of rows. A row has one field for each path of `columns`, in their
/// order. Such a path is applied to the row's value as its root, and the field is the first value that it selects: a
/// text is written without its JSON quotes and escapes, any other value as compact JSON. The field is empty if the path
/// selects nothing. Errors: those of `select_in_document`; `out` may then end with a part of the rows, or have lost all
/// its content.
pub fn add_rows(
    alloc: Global,
    document: &Document<'_>,
    rows: &Query<'_>,
    columns: &[Query<'_>],
    separated: Separated,
    out: &mut Vec<u8>,
) -> Result<usize, DocumentRefusal>
    requires { HasNumbers (value_view document.now.exact) }
    ensures { IfOk result (λ count. AddsRows rows.now.path columns.now separated (value_view document.now.exact) out.old.items out.new.items count) }
{
    let nodes = select_in_document(alloc, document, rows)?;
    for node in nodes.as_slice() {
        add_row_of_node(alloc, document.root(alloc), node, columns, separated, out)?;
    }
    Ok(nodes.len())
}

// Writes the row of one value.
fn add_row_of_node(
    alloc: Global,
    root: OrderedValue<'_, '_>,
    node: &TreeNode<OrderedValue<'_, '_>>,
    columns: &[Query<'_>],
    separated: Separated,
    out: &mut Vec<u8>,
) -> Result<(), DocumentRefusal>
    requires { HasNumbers (value_view root.value.now) }
    ensures { OnOk result (AddsRow (value_view root.entry.value.now) columns.now separated (location_of node.now) out.old.items out.new.items) }
{
    let mut way = Way::new(alloc);
    let Some(value) = printable_value_at_node(root, &mut way, node)? else {
        return Ok(());
    };
    let fields = row_fields(alloc, value, columns)?;
    add_row(alloc, fields.as_slice(), separated, out)?;
    Ok(())
}

// The fields of the row of one value, one for each column.
fn row_fields(
    alloc: Global,
    value: OrderedValue<'_, '_>,
    columns: &[Query<'_>],
) -> Result<Vec<Vec<u8>>, DocumentRefusal>
    requires { HasNumbers (value_view value.value.now) }
    ensures { IfOk result (λ fields. AreFields (value_view value.entry.value.now) columns.now (map (λ f. f.items) fields.items)) }
{
    let mut fields = Vec::new(alloc);
    for column in columns {
        fields.push(field_of_column(alloc, value, column)?)?;
    }
    Ok(fields)
}

// The field of a column in the row of one value: the column's first match there, a text raw and all else compact, or
// nothing where there is none.
fn field_of_column(
    alloc: Global,
    value: OrderedValue<'_, '_>,
    column: &Query<'_>,
) -> Result<Vec<u8>, DocumentRefusal>
    requires { HasNumbers (value_view value.value.now) }
    ensures { IfOk result (λ field. IsField (value_view value.entry.value.now) column.now field.items) }
{
    let nodes = select_nodes_in_tree(alloc, value, column.path())?;
    Ok(field_of_first(alloc, value, nodes.as_slice())?)
}

// The field of the value at the first of the nodes, or nothing.
fn field_of_first(
    alloc: Global,
    root: OrderedValue<'_, '_>,
    nodes: &[TreeNode<OrderedValue<'_, '_>>],
) -> Result<Vec<u8>, DocumentRefusal>
    requires { HasNumbers (value_view root.value.now) }
    ensures { IfOk result (λ field. field.items ≡ first_field (value_view root.entry.value.now) (map location_of nodes.now)) }
{
    let mut field = Vec::new(alloc);
    let Some(node) = nodes.first() else {
        return Ok(field);
    };
    let mut way = Way::new(alloc);
    let Some(value) = printable_value_at_node(root, &mut way, node)? else {
        return Ok(field);
    };
    let look = Look {
        is_raw: true,
        is_sorted: false,
        layout: Layout::OneLine,
        is_colored: false,
    };
    add_value_in_look(alloc, &mut field, value.value(), look)?;
    Ok(field)
}
