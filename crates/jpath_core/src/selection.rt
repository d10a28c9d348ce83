//! What a path selects in a document.

ghost use Rattle.std.specs.Prelude.{IfOk};
ghost use Rattle.json.specs.Value.{value_view};
ghost use Rattle.jsonpath_select.specs.Meaning.{SelectsNodes};
ghost use Rattle.json_trees.specs.ExactDocument.{document_at, exact_document, name_bytes};

use jpath_texts::{Document, DocumentRefusal, OrderedValue, Query};
use jsonpath_nodes::TreeNode;
use jsonpath_select::select_nodes_in_tree;
use std::alloc::Global;

/// The nodes that a path selects in a document, in the order in which the path's steps find them (`*` finds members in
/// the order of their names' bytes), with duplicates; may be empty. Filters compare numbers exactly, however many digits
/// they have. Errors: `HugeExponent` if a filter compares a number whose exponent doesn't fit in 128 bits, or
/// `OutOfMemory`.
pub fn select_in_document<'v, 'a>(
    alloc: Global,
    document: &'v Document<'a>,
    query: &Query<'_>,
) -> Result<Vec<TreeNode<OrderedValue<'v, 'a>>>, DocumentRefusal>
    ensures { IfOk result (λ found. SelectsNodes name_bytes document_at query.now.path (exact_document (value_view document.now.exact)) found.items) }
{
    select_nodes_in_tree(alloc, document.root(alloc), query.path())
}
