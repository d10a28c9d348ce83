//! Putting one value at all of a list of locations at once.

ghost use Rattle.std.specs.Prelude.{◌≡◌, ◌++◌, ◌∷◌, List, map, length, replicate, IfOk, IsTrue, OnOk, OnErr, Option, Some};
ghost use Rattle.std.specs.List.Sorted.{IsStrictlySortedBy};
ghost use Rattle.jsonpath_nodes.specs.document.Document.{Document};
ghost use Rattle.serde_json.specs.View.{view};
ghost use Rattle.jsonpath_nodes.specs.document.OfData.{document_of, value_document};
ghost use Rattle.jsonpath_nodes.specs.place.Location.{Location, location_cmp};
ghost use Rattle.jsonpath_nodes.specs.update.Run.{update_each_back};
ghost use Rattle.jsonpath_nodes.specs.update.Topmost.{put, with_answer_at_topmost, is_covered_by};
ghost use Rattle.jsonpath_nodes.specs.update.Update.{update};

use crate::memory::NoMemory;
use crate::place::location::Location;
use crate::update::single::update_at_steps;
use serde_json::Value;
use std::alloc::Global;

/// Replaces the value at each location of a list by a copy of `new`. The root and locations that don't exist are
/// skipped. A location that is below another one of the list is skipped, too, unless that other one is the root.
///
/// Precondition: the list is in document order (parents before children, members by their names' bytes, items by
/// index), each location once, as `compute_paths` returns it. The only error: `NoMemory`; the value is then unchanged.
///
/// ```text
/// let mut document = Value::from_str(alloc, "[1, [2, 3]]")?;
/// let spots = Spot::root(alloc, &document).children(alloc)?;
/// let locations = compute_paths(alloc, spots.as_slice())?;
/// drop(spots);
/// set_at_once(alloc, &mut document, locations.as_slice(), &Value::Null)?;
/// assert!(rt; document.to_string(alloc)?.as_str() == "[null,null]");
/// ```
pub fn set_at_once(
    alloc: Global,
    value: &mut Value,
    locations: &[Location],
    new: &Value,
) -> Result<(), NoMemory>
    requires { IsStrictlySortedBy location_cmp locations.now }
    ensures set { OnOk result (document_of (view value.new) ≡ put (document_of (view new.now)) locations.now (document_of (view value.old))) }
    ensures kept { OnErr result (value.new ≡ value.old) }
{
    let tops = topmost_locations(alloc, locations)?;
    let copies = copies_of(alloc, new, tops.len())?;
    put_copies(value, tops, copies);
    Ok(())
}

// Puts these values at the locations, from the last back to the first.
fn put_copies(value: &mut Value, locations: Vec<&Location>, copies: Vec<Value>)
    ensures { (d : Document) → map value_document copies.items ≡ replicate (length locations.entry.items) d
        → document_of (view value.new) ≡ update_each_back (Some d) (map (λ t. t.now) locations.entry.items) (document_of (view value.old)) }
{
    let mut left = locations;
    let mut unused = copies;
    while let Some(location) = left.pop() {
        if let Some(copy) = unused.pop() {
            put_at(value, location, copy);
        }
    }
}

// The locations not below another one. The root, if there, hides none and is kept: a put there changes nothing.
fn topmost_locations<'l>(
    alloc: Global,
    locations: &'l [Location],
) -> Result<Vec<&'l Location>, NoMemory>
    requires { IsStrictlySortedBy location_cmp locations.now }
    ensures sorted { IfOk result (λ tops. IsStrictlySortedBy location_cmp (map (λ t. t.now) tops.items)) }
    ensures same { IfOk result (λ tops. (answer : Option Document) (d : Document) → with_answer_at_topmost answer (map (λ t. t.now) tops.items) d ≡ with_answer_at_topmost answer locations.now d) }
{
    let mut tops: Vec<&Location> = Vec::new(alloc);
    for location in locations {
        if !is_covered_by_last(tops.as_slice(), location) {
            tops.push(location)?;
        }
    }
    Ok(tops)
}

// Whether a location stands at or below the last of these, and that is not the root: then putting a value there, too,
// changes nothing more. No where there is no last.
fn is_covered_by_last(tops: &[&Location], location: &Location) -> bool
    ensures { IsTrue result → (answer : Option Document) (ls : List Location) (d : Document)
        → with_answer_at_topmost answer (map (λ t. t.now) tops.now ++ location.now ∷ ls) d ≡ with_answer_at_topmost answer (map (λ t. t.now) tops.now ++ ls) d }
{
    match tops.split_last() {
        Some((top, _)) => is_non_root_at_or_above(top, location),
        None => false,
    }
}

// Whether the first location is not the root and has the second at or below it.
fn is_non_root_at_or_above(top: &Location, location: &Location) -> bool
    ensures { result ≡ is_covered_by top.now location.now }
{
    !top.steps().is_empty() && location.is_at_or_below(top)
}

// So many copies of a value.
fn copies_of(alloc: Global, value: &Value, count: usize) -> Result<Vec<Value>, NoMemory>
    ensures { IfOk result (λ copies. map value_document copies.items ≡ replicate count (document_of (view value.now))) }
{
    let mut copies = Vec::new(alloc);
    for _ in 0..count {
        copies.push(value.clone()?)?;
    }
    Ok(copies)
}

// Puts a value at one location below the root, if something stands there.
fn put_at(value: &mut Value, location: &Location, new: Value)
    ensures { document_of (view value.new) ≡ update location.now (Some (document_of (view new))) (document_of (view value.old)) }
{
    let mut new = Some(new);
    update_at_steps(value, location.steps(), &mut |_old: Value| new.take());
}
