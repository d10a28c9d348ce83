//! Removing the values at a list of locations all at once, in one pass over each array.

ghost use Rattle.std.specs.Prelude.{◌≡◌, ◌+◌, ◌-◌, ◌++◌, ◌<◌, ◌≤◌, None, IfSome, IsOk, vec_len, slice_range, take, drop, length, option_map};
ghost use Rattle.std.specs.List.Sorted.{IsStrictlySortedBy};
ghost use Rattle.serde_json.specs.View.{view};
ghost use Rattle.jsonpath_nodes.specs.document.OfData.{document_of, items_document, members_document};
ghost use Rattle.jsonpath_nodes.specs.plan.Groups.{beyond, first_index, first_name, goes_through, group_len};
ghost use Rattle.jsonpath_nodes.specs.place.Location.{location_cmp};
ghost use Rattle.jsonpath_nodes.specs.place.Owned.{owned_step};
ghost use Rattle.jsonpath_nodes.specs.update.Topmost.{taken, items_with_answer, members_with_answer};

use crate::memory::NoMemory;
use crate::place::location::{LocStep, Location};
use serde_json::{Map, Value};

/// Removes the values at all locations of a list. Each location is that of a value before the call, even if an earlier
/// item of the same array is removed, too. An array's remaining items keep their order and close the gaps; the root and
/// nonexistent locations are skipped.
///
/// Precondition: the list is in document order (parents before children, members by their names' bytes, items by
/// index), each location once, as `compute_paths` returns it. Removing allocates no memory and always returns `Ok`.
///
/// ```text
/// let mut document = Value::from_str(alloc, "[1, [2, 3]]")?;
/// let spots = Spot::root(alloc, &document).children(alloc)?;
/// let locations = compute_paths(alloc, spots.as_slice())?;
/// drop(spots);
/// take_at_once(&mut document, locations.as_slice())?;
/// assert!(rt; document.to_string(alloc)?.as_str() == "[]");
/// ```
pub fn take_at_once(value: &mut Value, locations: &[Location]) -> Result<(), NoMemory>
    requires { IsStrictlySortedBy location_cmp locations.now }
    ensures taken { document_of (view value.new) ≡ taken locations.now (document_of (view value.old)) }
    ensures done { IsOk result }
{
    take_from_value(value, locations, 0);
    Ok(())
}

// Takes away what stands at the topmost of the locations; their first `depth` steps lead to this value.
#[cycle(take)]
fn take_from_value(value: &mut Value, locations: &[Location], depth: usize)
    requires { IsStrictlySortedBy location_cmp (beyond depth locations.now) }
    ensures { document_of (view value.new) ≡ taken (beyond depth locations.now) (document_of (view value.old)) }
{
    if let Some(list) = value.as_array_mut() {
        take_items(list, locations, depth);
        return;
    }
    if let Some(map) = value.as_object_mut() {
        take_members(map, locations, depth);
    }
}

// Removes the topmost locations' values from the array at their first `depth` steps. Kept items move once at most.
#[cycle(take)]
fn take_items(list: &mut Vec<Value>, locations: &[Location], depth: usize)
    requires { IsStrictlySortedBy location_cmp (beyond depth locations.now) }
    ensures { items_document list.new.items ≡ items_with_answer None (beyond depth locations.now) 0 (items_document list.old.items) }
{
    let mut kept = 0;
    let mut next = 0;
    let mut rest = locations;
    while let Some((first, others)) = rest.split_first() {
        let Some(i) = index_at_depth(first, depth, list.len()) else {
            rest = others;
            continue;
        };
        let (here, later) = rest.split_at(group_len(rest, depth));
        kept = move_items_down(list, kept, next, i);
        next = i + 1;
        if first.steps().len() > depth + 1 {
            list.swap(kept, i);
            take_from_value(&mut list[kept], here, depth + 1);
            kept += 1;
        }
        rest = later;
    }
    kept = move_items_down(list, kept, next, list.len());
    list.truncate(kept);
}

// Takes away what stands at the topmost of the locations in an object; their first `depth` steps lead to it.
#[cycle(take)]
fn take_members(map: &mut Map<String, Value>, locations: &[Location], depth: usize)
    requires { IsStrictlySortedBy location_cmp (beyond depth locations.now) }
    ensures { members_document map.new.entries ≡ members_with_answer None (beyond depth locations.now) (members_document map.old.entries) }
{
    let mut rest = locations;
    while let Some((first, others)) = rest.split_first() {
        let Some(name) = name_at_depth(first, depth) else {
            rest = others;
            continue;
        };
        let (here, later) = rest.split_at(group_len(rest, depth));
        if first.steps().len() == depth + 1 {
            drop(map.remove(name));
        } else if let Some(member) = map.get_mut(name) {
            take_from_value(member, here, depth + 1);
        }
        rest = later;
    }
}

// The index that a location has as its step at `depth`, if it has one there and that is below `len`.
fn index_at_depth(location: &Location, depth: usize, len: usize) -> Option<usize>
    ensures at { result ≡ first_index len (drop depth location.now) }
    ensures within { IfSome result (λ i. i < len) }
{
    match location.steps().get(depth)? {
        LocStep::Index(i) => (*i < len).then_some(*i),
        LocStep::Name(_) => None,
    }
}

// The name that a location has as its step at `depth`, if it has one there.
fn name_at_depth(location: &Location, depth: usize) -> Option<&str>
    ensures { option_map (λ k. k.now) result ≡ first_name (drop depth location.now) }
{
    match location.steps().get(depth)? {
        LocStep::Name(name) => Some(name.as_str()),
        LocStep::Index(_) => None,
    }
}

// Whether a location has this step at `depth`.
fn has_step_at_depth(location: &Location, depth: usize, step: &LocStep) -> bool
    ensures { result ≡ goes_through (owned_step step.now) (drop depth location.now) }
{
    match location.steps().get(depth) {
        Some(s) => s == step,
        None => false,
    }
}

// How many of the locations at the front have the step at `depth` that the first of them has; 0 where it has none.
fn group_len(locations: &[Location], depth: usize) -> usize
    ensures count { result ≡ group_len (beyond depth locations.now) }
    ensures within { result ≤ length locations.now }
{
    let Some((first, _)) = locations.split_first() else {
        return 0;
    };
    let Some(step) = first.steps().get(depth) else {
        return 0;
    };
    let mut n = 0;
    for location in locations {
        if !has_step_at_depth(location, depth, step) {
            return n;
        }
        n += 1;
    }
    n
}

// Moves the items from `next` to `to` down, so that they stand from `kept` on. Answers where they end.
fn move_items_down(list: &mut Vec<Value>, kept: usize, next: usize, to: usize) -> usize
    requires behind { kept ≤ next }
    requires ahead { next ≤ to }
    requires within { to ≤ vec_len list.old }
    ensures end { result ≡ kept + (to - next) }
    ensures moved { take result list.new.items ≡ take kept list.old.items ++ slice_range list.old.items next to }
    ensures beyond { drop to list.new.items ≡ drop to list.old.items }
    ensures len { vec_len list.new ≡ vec_len list.old }
    ensures before { result ≤ to }
{
    if kept == next {
        return to;
    }
    let mut end = kept;
    for i in next..to {
        list.swap(end, i);
        end += 1;
    }
    end
}
