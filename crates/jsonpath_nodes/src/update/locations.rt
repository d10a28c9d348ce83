//! The locations of nodes, each once and in document order, for updates.

ghost use Rattle.std.specs.Prelude.{◌≡◌, [], ◌∷◌, ◌++◌, map, IfOk, IsTrue};
ghost use Rattle.std.specs.List.Sorted.{IsStrictlySortedBy};
ghost use Rattle.jsonpath_nodes.specs.place.Location.{location_cmp};
ghost use Rattle.jsonpath_nodes.specs.place.Order.{once_in_order};
ghost use Rattle.jsonpath_nodes.specs.place.SpotPlace.{place_location};

use crate::memory::NoMemory;
use crate::place::location::Location;
use crate::place::spot::TreeNode;
use crate::tree::Tree;
use std::alloc::Global;
use std::collections::BTreeSet;

/// The locations of the nodes, each once, in document order (parents before children, members by their names' bytes,
/// items by index). Named as in the Rust crate `jsonpath_lib`. The only error is `NoMemory`.
///
/// ```text
/// let document = Value::from_str(alloc, "[1, [2, 3]]")?;
/// let spots = Spot::root(alloc, &document).below(alloc)?;
/// let locations = compute_paths(alloc, spots.as_slice())?;
/// assert_eq!(rt; locations.len(), 5);
/// ```
pub fn compute_paths<T: Tree>(
    alloc: Global,
    spots: &[TreeNode<T>],
) -> Result<Vec<Location>, NoMemory>
    ensures once { IfOk result (λ paths. paths.items ≡ once_in_order (map (place_location T.Name.bytes) spots.now)) }
    ensures ordered { IfOk result (λ paths. IsStrictlySortedBy location_cmp paths.items) }
{
    let mut found = Vec::new(alloc);
    for (i, spot) in spots.iter().enumerate() {
        let location = spot.location(alloc)?;
        if !is_after_last_location(found.as_slice(), &location) {
            let paths = collect_in_document_order(alloc, found, &spots[i..])?;
            return Ok(paths);
        }
        found.push(location)?;
    }
    Ok(found)
}

// Whether a location comes after the last of those found, which stand in document order; true where none is found yet.
fn is_after_last_location(found: &[Location], location: &Location) -> bool
    ensures { IsTrue result → IsStrictlySortedBy location_cmp found.now → IsStrictlySortedBy location_cmp (found.now ++ location.now ∷ []) }
{
    match found.split_last() {
        Some((last, _)) => *last < *location,
        None => true,
    }
}

// The locations found and those of the spots, each once, in document order.
fn collect_in_document_order<T: Tree>(
    alloc: Global,
    found: Vec<Location>,
    spots: &[TreeNode<T>],
) -> Result<Vec<Location>, NoMemory>
    ensures { IfOk result (λ paths. paths.items ≡ once_in_order (found.items ++ map (place_location T.Name.bytes) spots.now)) }
{
    let mut seen = BTreeSet::new(alloc);
    for location in found {
        seen.insert(location)?;
    }
    for spot in spots {
        seen.insert(spot.location(alloc)?)?;
    }
    Ok(seen.into_iter().collect(alloc)?)
}
