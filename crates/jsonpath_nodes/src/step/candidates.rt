//! The candidates of a filter that uses a relative query with at least one segment: found at or below a value, and once
//! for each location. They are defined at `ValueWalker::walk_dedup_all`.

ghost use Rattle.std.specs.Prelude.{◌≡◌, ◌++◌, ◌∷◌, [], map, true, Some, IsTrue, IfOk, OnOk, if◌then◌else◌};
ghost use Rattle.jsonpath_nodes.specs.document.Document.{array, object};
ghost use Rattle.jsonpath_nodes.specs.plan.Ascending.{first_difference_ascends, Ascend};
ghost use Rattle.jsonpath_nodes.specs.plan.Containers.{some_container};
ghost use Rattle.jsonpath_nodes.specs.plan.Way.{way_stand, Stays};
ghost use Rattle.jsonpath_nodes.specs.place.Location.{Location as Stand, flat, flat_items};
ghost use Rattle.jsonpath_nodes.specs.place.Mark.{MarksGain, MarksLeadBy};
ghost use Rattle.jsonpath_nodes.specs.place.Order.{IsOrderedDocument};
ghost use Rattle.jsonpath_nodes.specs.place.Owned.{owned_steps};
ghost use Rattle.jsonpath_nodes.specs.place.SpotPlace.{place_location, place_value, place_sight};
ghost use Rattle.jsonpath_nodes.specs.step.Candidates.{candidates_below, flat_members, in_objects};
ghost use Rattle.jsonpath_nodes.specs.step.Steps.{step, all_below, each_once, every, flattened};

use crate::memory::NoMemory;
use crate::place::location::{LocStep, Location};
use crate::place::spot::TreeNode;
use crate::step::child_lookup::is_container;
use crate::step::descends::{Descends, DownStep};
use crate::step::gather::{Flattened, add_at_or_below};
use crate::step::plain_step::PlainStep;
use crate::steps_on_marks::{
    candidates_below_mark, flattened_from_each, plain_step_from_all_below,
};
use crate::tree::Tree;
use std::alloc::Global;
use std::cmp::Ordering;
use std::collections::BTreeSet;

// ---- what is no array and is reached through arrays alone

// Adds what is no array and is reached through arrays alone from the value of a node: the node, if it is no array.
#[inline]
pub(crate) fn add_flattened<M: Descends>(
    alloc: Global,
    node: &M,
    out: &mut Vec<M>,
) -> Result<(), NoMemory>
    ensures { OnOk result (MarksGain M.located M.stand M.content flat (M.stand node.now) (M.content node.now) out.old.items out.new.items) }
{
    if let Some(items) = node.tree().as_array() {
        let mut way = node.way_from(alloc)?;
        add_flattened_items::<M>(items, &mut way, out)
    } else {
        out.push(node.copy()?)?;
        Ok(())
    }
}

// Adds what is no array and is reached through arrays alone from each item, itself included, of the descent's array.
fn add_flattened_items<M: Descends>(
    items: <M::Tree as Tree>::Array,
    way: &mut M::Way,
    out: &mut Vec<M>,
) -> Result<(), NoMemory>
    ensures gains { OnOk result (MarksGain M.located M.stand M.content (λ d. flat_items 0 (M.Tree.items items)) (way_stand M.located (M.start way.old) (M.steps way.old)) (array (M.Tree.items items)) out.old.items out.new.items) }
    ensures stays { OnOk result (Stays M.located (M.start way.old) (M.steps way.old) (M.start way.new) (M.steps way.new)) }
{
    let here = M::items_here(way)?;
    // Also says that the indexes fit.
    let _len = <M::Tree as Tree>::len(items);
    let mut left = <M::Tree as Tree>::each_item(items);
    let mut i = 0;
    while let Some(item) = <M::Tree as Tree>::next_item(&mut left) {
        if let Some(inner) = item.as_array() {
            M::go_down(way, DownStep::Item(i))?;
            add_flattened_items::<M>(inner, way, out)?;
            M::go_back(way);
        } else {
            M::push_item(&here, i, item, out)?;
        }
        i += 1;
    }
    Ok(())
}

// Adds what is no array and is reached through arrays alone from each member of the object where the descent is: the
// member itself, where it is no array. It answers whether a member is an array or an object.
pub(crate) fn add_flattened_members<M: Descends>(
    members: <M::Tree as Tree>::Object,
    way: &mut M::Way,
    out: &mut Vec<M>,
) -> Result<bool, NoMemory>
    ensures gains { OnOk result (MarksGain M.located M.stand M.content (λ d. flat_members (M.Tree.members members)) (way_stand M.located (M.start way.old) (M.steps way.old)) (object (M.Tree.members members)) out.old.items out.new.items) }
    ensures holds { IfOk result (λ b. b ≡ some_container (M.Tree.members members)) }
    ensures stays { OnOk result (Stays M.located (M.start way.old) (M.steps way.old) (M.start way.new) (M.steps way.new)) }
{
    let here = M::members_here(way)?;
    let mut holds = false;
    let mut left = <M::Tree as Tree>::each_member(members);
    while let Some((name, member)) = <M::Tree as Tree>::next_member(&mut left) {
        if let Some(inner) = member.as_array() {
            M::go_down(way, DownStep::Member(name))?;
            add_flattened_items::<M>(inner, way, out)?;
            M::go_back(way);
        } else {
            M::push_member(&here, name, member, out)?;
        }
        holds = holds || is_container(member);
    }
    Ok(holds)
}

// ---- behind `..`

// Adds the candidates of a filter behind `..`, whose own `@` has a step, from a node's value: each non-array reached
// through arrays alone from below the value, once. Its clauses also say that names ascend in each object there.
pub(crate) fn add_candidates_below<M: Descends>(
    alloc: Global,
    node: &M,
    out: &mut Vec<M>,
) -> Result<(), NoMemory>
    ensures gains { OnOk result (MarksGain M.located M.stand M.content candidates_below (M.stand node.now) (M.content node.now) out.old.items out.new.items) }
    ensures document { OnOk result (IsOrderedDocument (M.content node.now)) }
{
    let value = node.tree();
    let mut way = node.way_from(alloc)?;
    if let Some(items) = value.as_array() {
        add_flattened_items::<M>(items, &mut way, out)?;
    }
    add_in_objects::<M>(value, &mut way, out)
}

// Adds a filter's candidates in each object at or below the value where the descent is, an object's before those of the
// objects below it. In an object they are what is no array and is reached through arrays alone from a member.
#[inline(always)]
fn add_in_objects<M: Descends>(
    value: M::Tree,
    way: &mut M::Way,
    out: &mut Vec<M>,
) -> Result<(), NoMemory>
    ensures gains { OnOk result (MarksGain M.located M.stand M.content in_objects (way_stand M.located (M.start way.old) (M.steps way.old)) (M.Tree.content value) out.old.items out.new.items) }
    ensures document { OnOk result (IsOrderedDocument (M.Tree.content value)) }
{
    add_at_or_below::<M, Flattened>(value, way, &Flattened, out)?;
    Ok(())
}

// ---- each location once

// The candidates of a filter with a relative query of at least one segment, found from these nodes, each location once.
pub(crate) fn flattened_once<T: Tree>(
    alloc: Global,
    places: &[TreeNode<T>],
) -> Result<Vec<TreeNode<T>>, NoMemory>
    ensures { IfOk result (λ found. MarksLeadBy true (place_location T.Name.bytes) (place_value T.content) flattened places.now found.items) }
{
    let found = flattened_from_each(alloc, places)?;
    if are_ordered_and_disjoint(alloc, places)? {
        return Ok(found);
    }
    first_of_each_location(alloc, found)
}

// Those of a filter after `..`, each location once.
pub(crate) fn candidates_below_once<T: Tree>(
    alloc: Global,
    places: &[TreeNode<T>],
) -> Result<Vec<TreeNode<T>>, NoMemory>
    ensures { IfOk result (λ found. MarksLeadBy true (place_location T.Name.bytes) (place_value T.content) (λ doc ls. flattened doc (step doc every (all_below doc ls))) places.now found.items) }
{
    match places {
        [place] => candidates_below_mark(alloc, place),
        _ => {
            let lower = plain_step_from_all_below(alloc, places, &PlainStep::Every)?;
            flattened_once(alloc, lower.as_slice())
        }
    }
}

// Whether the spots ascend in document order, none at or below another: no candidate is then found from two of them.
fn are_ordered_and_disjoint<T: Tree>(alloc: Global, spots: &[TreeNode<T>]) -> Result<bool, NoMemory>
    ensures { IfOk result (λ apart. IsTrue apart → Ascend (map (place_location T.Name.bytes) spots.now)) }
{
    if spots.len() < 2 {
        return Ok(true);
    }
    let mut last: Option<Location> = None;
    for spot in spots {
        let here = spot.location(alloc)?;
        if !is_after_and_disjoint(&last, &here) {
            return Ok(false);
        }
        last = Some(here);
    }
    Ok(true)
}

// Whether a location comes after `last` in document order, and neither is below the other; true where there is no last.
fn is_after_and_disjoint(last: &Option<Location>, here: &Location) -> bool
    ensures { IsTrue result → (l : Stand) → last.now ≡ Some l → first_difference_ascends l here.now ≡ true }
{
    match last {
        Some(before) => first_difference_ascends(before.steps(), here.steps()),
        None => true,
    }
}

// Whether a step differs and the first that does is less on the left: then neither location is below the other.
fn first_difference_ascends(left: &[LocStep], right: &[LocStep]) -> bool
    ensures { result ≡ first_difference_ascends (owned_steps left.now) (owned_steps right.now) }
{
    match left {
        [] => false,
        [s, ls @ ..] => match right {
            [] => false,
            [t, ms @ ..] => match s.cmp(t) {
                Ordering::Less => true,
                Ordering::Equal => first_difference_ascends(ls, ms),
                Ordering::Greater => false,
            },
        },
    }
}

// The first of the spots at each location, in their order.
fn first_of_each_location<T: Tree>(
    alloc: Global,
    spots: Vec<TreeNode<T>>,
) -> Result<Vec<TreeNode<T>>, NoMemory>
    ensures { IfOk result (λ kept. MarksLeadBy true (place_location T.Name.bytes) (place_value T.content) (λ _ ls. each_once ls) spots.items kept.items) }
{
    let mut seen = BTreeSet::new(alloc);
    let mut kept = Vec::new(alloc);
    for spot in spots {
        let is_new = seen.insert(spot.location(alloc)?)?;
        push_if_new(is_new, spot, &mut kept)?;
    }
    Ok(kept)
}

// Adds a spot to those kept, if its location is new among them.
fn push_if_new<T: Tree>(
    is_new: bool,
    spot: TreeNode<T>,
    kept: &mut Vec<TreeNode<T>>,
) -> Result<(), NoMemory>
    ensures { OnOk result (map (place_sight T.Name.bytes T.content) kept.new.items ≡ map (place_sight T.Name.bytes T.content) kept.old.items ++ (if is_new then place_sight T.Name.bytes T.content spot ∷ [] else [])) }
{
    if is_new {
        kept.push(spot)?;
    }
    Ok(())
}
