//! The value of a document at a node's location, to be printed.

ghost use Rattle.std.specs.Prelude.{◌≡◌, option_map, IfOk, IfSome};
ghost use Rattle.json.specs.Tree.{HasNumbers};
ghost use Rattle.json.specs.Value.{value_view};
ghost use Rattle.json_trees.specs.ExactAt.{exact_at};
ghost use Rattle.json_trees.specs.Way.{IsWayFrom};
ghost use Rattle.jpath_core.specs.Nodes.{location_of};

use jpath_texts::{OrderedValue, Way};
use jsonpath_nodes::{NoMemory, TreeNode};

// The value at a node's location in a tree whose numbers can be written as they stand. The way leads to it then.
pub(crate) fn printable_value_at_node<'s, 'v, 'a>(
    root: OrderedValue<'v, 'a>,
    way: &mut Way<'s, 'v, 'a>,
    node: &'s TreeNode<OrderedValue<'_, '_>>,
) -> Result<Option<OrderedValue<'v, 'a>>, NoMemory>
    requires writable { HasNumbers (value_view root.value.now) }
    requires way { IsWayFrom (value_view root.value.now) way.now }
    ensures way { IsWayFrom (value_view root.entry.value.now) way.new }
    ensures value { IfOk result (λ found. option_map (λ v. value_view v.value.now) found ≡ exact_at (value_view root.entry.value.now) (location_of node.now)) }
    ensures writable { IfOk result (λ found. IfSome found (λ v. HasNumbers (value_view v.value.now))) }
{
    match way.value_at(root, node)? {
        Some(value) => Ok(Some(value)),
        None => Ok(None),
    }
}
