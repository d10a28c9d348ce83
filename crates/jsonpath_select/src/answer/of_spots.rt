//! The locations of nodes, and their values.
ghost use Rattle.std.specs.Prelude.{◌≡◌, List, ℕ, map, IfOk, IfErr};
ghost use Rattle.jsonpath_nodes.specs.document.Document.{Document};
ghost use Rattle.jsonpath_select.specs.Meaning.{Selects, SelectsAt, SelectsNodes, SelectsSpots};

use crate::error::JsonPathError;
use jsonpath_nodes::laws::spots_show_their_locations;
use jsonpath_nodes::{Location, NoMemory, Spot, Tree, TreeNode};
use std::alloc::Global;

// The locations of the spots that a path has selected, in their order, with their repeats.
pub(crate) fn locations_of_selected_spots(
    alloc: Global,
    spots: &[Spot<'_>],
) -> Result<Vec<Location>, JsonPathError>
    ensures ok { IfOk result (λ found. (text : List ℕ) (doc : Document) → SelectsSpots text doc spots.now → SelectsAt text doc found.items) }
    ensures refused { IfErr result (λ e. e ≡ JsonPathError.OutOfMemory) }
{
    spots_show_their_locations();
    let mut found = Vec::new(alloc);
    for spot in spots {
        found.push(spot.location(alloc)?)?;
    }
    Ok(found)
}

// The values at the nodes that a path has selected in a tree, in their order, with their repeats.
pub(crate) fn values_of_selected_nodes<T: Tree>(
    alloc: Global,
    nodes: &[TreeNode<T>],
) -> Result<Vec<T>, NoMemory>
    ensures { IfOk result (λ found. (text : List ℕ) (doc : Document) → SelectsNodes T.Name.bytes T.content text doc nodes.now → Selects text doc (map T.content found.items)) }
{
    let mut found = Vec::new(alloc);
    for node in nodes {
        found.push(node.value())?;
    }
    Ok(found)
}
