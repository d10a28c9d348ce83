//! Lists of nodes as sets: each location once, in document order; the nodes without an ancestor in the list; the
//! indexes of the nodes at locations of another list.

ghost use Rattle.std.specs.Prelude.{◌≡◌, [], ◌∷◌, ◌++◌, List, map, true, Some, if◌then◌else◌, IfOk, OnOk, IsTrue, refl};
ghost use Rattle.std.specs.Cmp.{eq_by_cmp_equiv, on_total, partial_equiv_from_equiv, partial_order_from_total};
ghost use Rattle.std.specs.List.{AllByRecursion, list_any};
ghost use Rattle.std.specs.List.Sorted.{IsStrictlySortedBy};
ghost use Rattle.std.specs.Ordering.{as_partial_cmp, eq_by_cmp, on};
ghost use Rattle.jsonpath_nodes.specs.document.Document.{Document};
ghost use Rattle.jsonpath_nodes.specs.place.Location.{Location, location_cmp, is_same};
ghost use Rattle.jsonpath_nodes.specs.place.NumbersWhere.{numbers_where};
ghost use Rattle.jsonpath_nodes.specs.place.Order.{location_total, once_in_order};
ghost use Rattle.jsonpath_nodes.specs.place.SpotPlace.{place_location, place_value, place_sight};
ghost use Rattle.jsonpath_nodes.specs.place.Mark.{MarksLeadBy, MarksStandAt};
ghost use Rattle.jsonpath_nodes.specs.plan.OrderedSpots.{IsShownIn, comes_behind, from_top, last_location, ordered_spot_location, ordered_spot_sight};
ghost use Rattle.jsonpath_nodes.specs.step.SameMembers.{is_at_or_below, topmost};

use crate::memory::NoMemory;
use crate::place::reversed_steps::{
    compare_reversed_locations, is_reversed_prefix_of, reversed_steps,
};
use crate::place::spot::TreeNode;
use crate::step::descends::DownStep;
use crate::tree::Tree;
use crate::tree::name::{Handle, Name};
use std::alloc::Global;
use std::cmp::Ordering;
use std::collections::BTreeSet;

/// Sorts nodes into document order (parents before children, members by their names' bytes, items by index) and keeps
/// one node for each location. The only error is `NoMemory`.
///
/// ```text
/// let twice = [spots[1].clone()?, spots[0].clone()?, spots[1].clone()?];
/// assert_eq!(rt; in_document_order(alloc, &twice)?.len(), 2);
/// ```
pub fn in_document_order<T: Tree>(
    alloc: Global,
    spots: &[TreeNode<T>],
) -> Result<Vec<TreeNode<T>>, NoMemory>
    ensures { IfOk result (λ found. MarksLeadBy true (place_location T.Name.bytes) (place_value T.content) (λ _ ls. once_in_order ls) spots.now found.items) }
{
    if are_ordered_without_repeats(alloc, spots)? {
        let same = clone_spots(alloc, spots)?;
        return Ok(same);
    }
    let placed = ordered_spots(alloc, spots)?;
    let found = into_spots(alloc, placed)?;
    Ok(found)
}

// Whether each spot comes behind the one before it, so that they stand in document order, each once.
fn are_ordered_without_repeats<T: Tree>(
    alloc: Global,
    spots: &[TreeNode<T>],
) -> Result<bool, NoMemory>
    ensures { IfOk result (λ ordered. IsTrue ordered → IsStrictlySortedBy location_cmp (map (place_location T.Name.bytes) spots.now)) }
{
    let mut last = None;
    for spot in spots {
        let up = reversed_steps(alloc, &spot.trail)?;
        if !is_after_last_spot(&last, up.as_slice()) {
            return Ok(false);
        }
        last = Some(up);
    }
    Ok(true)
}

// Whether a location comes behind `last` in document order; true without a last. Steps are given last step first.
fn is_after_last_spot<N: Name>(last: &Option<Vec<DownStep<N>>>, up: &[DownStep<N>]) -> bool
    ensures { result ≡ comes_behind (last_location N.bytes last.now) (from_top N.bytes up.now) }
{
    match last {
        Some(before) => compare_reversed_locations(before.as_slice(), up).is_lt(),
        None => true,
    }
}

// Clones of the spots.
fn clone_spots<T: Tree>(alloc: Global, spots: &[TreeNode<T>]) -> Result<Vec<TreeNode<T>>, NoMemory>
    ensures { IfOk result (λ same. map (place_sight T.Name.bytes T.content) same.items ≡ map (place_sight T.Name.bytes T.content) spots.now) }
{
    let mut same = Vec::with_capacity(alloc, spots.len())?;
    for spot in spots {
        same.push(spot.clone()?)?;
    }
    Ok(same)
}

// The ascending indexes, from 0, of the nodes in `spots` whose location a node in `others` has.
pub(crate) fn indexes_standing_among<T: Tree>(
    alloc: Global,
    spots: &[TreeNode<T>],
    others: &[TreeNode<T>],
) -> Result<Vec<usize>, NoMemory>
    ensures { IfOk result (λ numbers. numbers.items ≡ numbers_where (λ l. list_any (is_same l) (once_in_order (map (place_location T.Name.bytes) others.now))) 0 (map (place_location T.Name.bytes) spots.now)) }
{
    let places = ordered_spots(alloc, others)?;
    let mut numbers = Vec::new(alloc);
    for (number, spot) in spots.iter().enumerate() {
        let placed = OrderedSpot::of_spot(alloc, spot)?;
        push_index_if(places.contains(&placed), number, &mut numbers)?;
    }
    Ok(numbers)
}

// Adds the index of a spot to a list, if the spot passes; else the list stays as it is.
fn push_index_if(passes: bool, number: usize, numbers: &mut Vec<usize>) -> Result<(), NoMemory>
    ensures { OnOk result (numbers.new.items ≡ (if passes then numbers.old.items ++ number ∷ [] else numbers.old.items)) }
{
    if passes {
        numbers.push(number)?;
    }
    Ok(())
}

// The spots as a set in document order, each location once.
fn ordered_spots<T: Tree>(
    alloc: Global,
    spots: &[TreeNode<T>],
) -> Result<BTreeSet<OrderedSpot<T>>, NoMemory>
    ensures order { IfOk result (λ placed. map (ordered_spot_location T.Name.bytes) placed.keys ≡ once_in_order (map (place_location T.Name.bytes) spots.now)) }
    ensures shown { IfOk result (λ placed. (doc : Document) (ls : List Location) → MarksStandAt true (place_location T.Name.bytes) (place_value T.content) doc ls spots.now → AllByRecursion (IsShownIn T.Name.bytes T.content doc) placed.keys) }
{
    let mut placed = BTreeSet::new(alloc);
    for spot in spots {
        placed.insert(OrderedSpot::of_spot(alloc, spot)?)?;
    }
    Ok(placed)
}

// The nodes, in order, without each that is at or below the location of the node kept last.
pub(crate) fn topmost_spots<T: Tree>(
    alloc: Global,
    spots: &[TreeNode<T>],
) -> Result<Vec<TreeNode<T>>, NoMemory>
    ensures { IfOk result (λ found. MarksLeadBy true (place_location T.Name.bytes) (place_value T.content) (λ _ ls. topmost ls) spots.now found.items) }
{
    let mut kept = Vec::new(alloc);
    let mut last = None;
    for spot in spots {
        push_if_topmost(alloc, spot, &mut last, &mut kept)?;
    }
    Ok(kept)
}

// Adds a spot to those kept, unless it stands at or below the last one kept, to which `last` has the steps.
fn push_if_topmost<T: Tree>(
    alloc: Global,
    spot: &TreeNode<T>,
    last: &mut Option<Vec<DownStep<T::Name>>>,
    kept: &mut Vec<TreeNode<T>>,
) -> Result<(), NoMemory>
    ensures last { OnOk result (last_location T.Name.bytes last.new ≡ (if is_at_or_below (last_location T.Name.bytes last.old) (place_location T.Name.bytes spot.now) then last_location T.Name.bytes last.old else Some (place_location T.Name.bytes spot.now))) }
    ensures kept { OnOk result (map (place_sight T.Name.bytes T.content) kept.new.items ≡ map (place_sight T.Name.bytes T.content) kept.old.items ++ (if is_at_or_below (last_location T.Name.bytes last.old) (place_location T.Name.bytes spot.now) then [] else place_sight T.Name.bytes T.content spot.now ∷ [])) }
{
    let up = reversed_steps(alloc, &spot.trail)?;
    if !is_at_or_below_last(last, up.as_slice()) {
        kept.push(spot.clone()?)?;
        *last = Some(up);
    }
    Ok(())
}

// Whether a location is `last` or below it; false without a last. Steps are given last step first.
fn is_at_or_below_last<N: Name>(last: &Option<Vec<DownStep<N>>>, up: &[DownStep<N>]) -> bool
    ensures { result ≡ is_at_or_below (last_location N.bytes last.now) (from_top N.bytes up.now) }
{
    match last {
        Some(top) => is_reversed_prefix_of(top.as_slice(), up),
        None => false,
    }
}

// A spot with the steps to it, the last one first, so that spots are ordered by their locations.
#[derive(Drop)]
pub struct OrderedSpot<T: Handle> {
    pub(crate) up: Vec<DownStep<T::Name>>,
    pub(crate) spot: TreeNode<T>,
}

impl<T: Tree> OrderedSpot<T> {
    // A clone of the spot beside the steps to it, by which it is ordered.
    pub(crate) fn of_spot(alloc: Global, spot: &TreeNode<T>) -> Result<OrderedSpot<T>, NoMemory>
        ensures location { IfOk result (λ placed. ordered_spot_location T.Name.bytes placed ≡ place_location T.Name.bytes spot.now) }
        ensures sight { IfOk result (λ placed. ordered_spot_sight T.Name.bytes T.content placed ≡ place_sight T.Name.bytes T.content spot.now) }
    {
        let up = reversed_steps(alloc, &spot.trail)?;
        Ok(OrderedSpot {
            up,
            spot: spot.clone()?,
        })
    }
}

impl<T: Handle> PartialEq for OrderedSpot<T> {
    ghost eq = { on (ordered_spot_location T.Name.bytes) (eq_by_cmp location_cmp) };

    ghost laws = { partial_equiv_from_equiv (eq_by_cmp_equiv (on_total (ordered_spot_location T.Name.bytes) location_total)) };

    fn eq(&self, other: &OrderedSpot<T>) -> bool {
        compare_reversed_locations(self.up.as_slice(), other.up.as_slice()).is_eq()
    }
}

impl<T: Handle> Eq for OrderedSpot<T> {
    ghost laws = { eq_by_cmp_equiv (on_total (ordered_spot_location T.Name.bytes) location_total) };
}

impl<T: Handle> PartialOrd for OrderedSpot<T> {
    ghost partial_cmp = { as_partial_cmp (on (ordered_spot_location T.Name.bytes) location_cmp) };

    ghost laws = { partial_order_from_total (on_total (ordered_spot_location T.Name.bytes) location_total) };

    fn partial_cmp(&self, other: &OrderedSpot<T>) -> Option<Ordering> {
        Some(compare_reversed_locations(self.up.as_slice(), other.up.as_slice()))
    }
}

impl<T: Handle> Ord for OrderedSpot<T> {
    ghost cmp = { on (ordered_spot_location T.Name.bytes) location_cmp };

    ghost total = { on_total (ordered_spot_location T.Name.bytes) location_total };

    ghost matches_partial_cmp = { λ x y. refl };

    ghost matches_eq = { λ x y. refl };

    fn cmp(&self, other: &OrderedSpot<T>) -> Ordering {
        compare_reversed_locations(self.up.as_slice(), other.up.as_slice())
    }
}

// The spots of an ordered set, in document order, without the steps beside them.
fn into_spots<T: Tree>(
    alloc: Global,
    placed: BTreeSet<OrderedSpot<T>>,
) -> Result<Vec<TreeNode<T>>, NoMemory>
    ensures { IfOk result (λ found. map (place_sight T.Name.bytes T.content) found.items ≡ map (ordered_spot_sight T.Name.bytes T.content) placed.keys) }
{
    let mut found = Vec::new(alloc);
    for one in placed {
        found.push(one.spot)?;
    }
    Ok(found)
}
