//! The places of an object's members in the order of their names.

ghost use Rattle.std.specs.Prelude.{◌≡◌, map, IfOk};
ghost use Rattle.json.specs.Value.{members_view};
ghost use Rattle.json_trees.specs.OrderedTree.{places};

use crate::ordered_tree::sort_by_name::sort_by_name;
use json::Value as Exact;
use std::alloc::{AllocError, Global};

// The places of members by their names' bytes, of a name that comes again the place of the last one.
pub(crate) fn places_of_members(
    alloc: Global,
    members: &[(&str, Exact<'_>)],
) -> Result<Vec<usize>, AllocError>
    ensures { IfOk result (λ found. found.items ≡ map (λ e. e.1) (places (members_view members.now))) }
{
    let mut found = Vec::with_capacity(alloc, members.len())?;
    for (place, member) in members.iter().enumerate() {
        found.push((member.0, place))?;
    }
    sort_by_name(alloc, &mut found)?;
    second_of_each(alloc, found.as_slice())
}

// The places of these names and places.
fn second_of_each(alloc: Global, found: &[(&str, usize)]) -> Result<Vec<usize>, AllocError>
    ensures { IfOk result (λ made. made.items ≡ map (λ e. e.1) found.now) }
{
    let mut made = Vec::with_capacity(alloc, found.len())?;
    for entry in found {
        made.push(entry.1)?;
    }
    Ok(made)
}
