//! Which of a list of locations are changed: those below the root that are below no other such location of the list.

ghost use Rattle.std.specs.Prelude.{◌≡◌, map, option_map, IfOk};
ghost use Rattle.jsonpath_nodes.specs.step.SameMembers.{is_at_or_below, topmost};
ghost use Rattle.jpath_edits.specs.Changed.{below_root};

use jsonpath_nodes::Location;
use std::alloc::{AllocError, Global};

/// Returns the list without its first location if this is the root's, else the whole list. So if the list has each
/// location once, in document order (in which the root comes first), the result has exactly the locations below the
/// root. The result may be empty.
pub fn locations_below_root(places: &[Location]) -> &[Location]
    ensures { result.now ≡ below_root places.now }
{
    match places.split_first() {
        Some((first, rest)) => if first.steps().is_empty() {
            rest
        } else {
            places
        },
        None => places,
    }
}

// The locations, which stand in document order, without those at or below another one before them.
pub(crate) fn topmost_locations<'l>(
    alloc: Global,
    locations: &'l [Location],
) -> Result<Vec<&'l Location>, AllocError>
    ensures { IfOk result (λ tops. map (λ t. t.now) tops.items ≡ topmost locations.now) }
{
    let mut tops: Vec<&Location> = Vec::new(alloc);
    let mut last = None;
    for location in locations {
        if !is_at_or_below(last, location) {
            tops.push(location)?;
            last = Some(location);
        }
    }
    Ok(tops)
}

// Whether a location stands at or below the last one that was kept; false where none was.
fn is_at_or_below(last: Option<&Location>, location: &Location) -> bool
    ensures { result ≡ is_at_or_below (option_map (λ t. t.now) last.entry) location.now }
{
    match last {
        Some(top) => location.is_at_or_below(top),
        None => false,
    }
}
