//! Trails: the locations of nodes, as linked lists. All nodes below a container share its trail.

ghost use Rattle.std.specs.Prelude.{◌≡◌, [], ◌∷◌, ◌++◌, map, IfOk, OnOk};
ghost use Rattle.jsonpath_nodes.specs.place.Location.{name as by_name, index as by_index};
ghost use Rattle.jsonpath_nodes.specs.place.SpotPlace.{location_at, path_location, held_path_location, step_of};

use crate::memory::NoMemory;
use crate::place::spot::PathStep;
use crate::tree::name::Name;
use std::alloc::{AllocError, Global};
use std::rc::Rc;

// The steps from the root to a value. The members of an object that is an item of an array share the steps to the
// array; the index takes 32 bits there, so that a trail takes three words.
#[derive(Drop)]
pub enum Trail<N> {
    Root,
    Member(Rc<Trail<N>>, N),
    Item(Rc<Trail<N>>, usize),
    ItemMember(u32, Rc<Trail<N>>, N),
}

// What leads to an array or object, held for its contents: its trail, or its array's trail and its index there.
#[derive(Drop)]
pub enum HeldPathToContainer<N> {
    Whole(Rc<Trail<N>>),
    Item(Rc<Trail<N>>, u32),
}

// What leads to a value, lent: the trail to it, or that to the array that has it as an item, and its index.
#[derive(Clone, Copy)]
pub enum PathTo<'b, N> {
    Whole(&'b Trail<N>),
    Item(&'b Rc<Trail<N>>, usize),
}

// A trail to the same place.
pub(crate) fn clone_trail<N: Name>(trail: &Trail<N>) -> Result<Trail<N>, AllocError>
    ensures { IfOk result (λ copy. location_at N.bytes copy ≡ location_at N.bytes trail.now) }
{
    match trail {
        Trail::Root => Ok(Trail::Root),
        Trail::Member(parent, key) => Ok(Trail::Member(parent.clone()?, *key)),
        Trail::Item(parent, i) => Ok(Trail::Item(parent.clone()?, *i)),
        Trail::ItemMember(i, parent, key) => Ok(Trail::ItemMember(*i, parent.clone()?, *key)),
    }
}

// A trail to the same value, for its children to share.
pub(crate) fn shared_trail<N: Name>(
    alloc: Global,
    trail: &Trail<N>,
) -> Result<Rc<Trail<N>>, NoMemory>
    ensures { IfOk result (λ here. location_at N.bytes here.value ≡ location_at N.bytes trail.now) }
{
    Ok(Rc::new(alloc, clone_trail(trail)?)?)
}

// The path to an array or object, to which the trail leads, held for what stands in it to share.
#[inline]
pub(crate) fn held_path_to_container<N: Name>(
    alloc: Global,
    trail: &Trail<N>,
) -> Result<HeldPathToContainer<N>, NoMemory>
    ensures { IfOk result (λ here. held_path_location N.bytes here ≡ location_at N.bytes trail.now) }
{
    match trail {
        Trail::Item(parent, i) => held_path_to_item(alloc, parent.clone()?, *i),
        _ => Ok(HeldPathToContainer::Whole(shared_trail(alloc, trail)?)),
    }
}

// The path to the item at this index of an array, to which `parent` leads, held for what is in the item to share.
#[inline]
pub(crate) fn held_path_to_item<N: Name>(
    alloc: Global,
    parent: Rc<Trail<N>>,
    index: usize,
) -> Result<HeldPathToContainer<N>, NoMemory>
    ensures { IfOk result (λ held. held_path_location N.bytes held ≡ location_at N.bytes parent.value ++ by_index index ∷ []) }
{
    match u32::try_from(index) {
        Ok(short) => Ok(HeldPathToContainer::Item(parent, short)),
        Err(_) => Ok(HeldPathToContainer::Whole(Rc::new(alloc, Trail::Item(parent, index))?)),
    }
}

// A held path to the same array or object, which shares its trail.
#[inline]
pub(crate) fn clone_held_path<N: Name>(
    held: &HeldPathToContainer<N>,
) -> Result<HeldPathToContainer<N>, AllocError>
    ensures { IfOk result (λ copy. held_path_location N.bytes copy ≡ held_path_location N.bytes held.now) }
{
    match held {
        HeldPathToContainer::Whole(parent) => Ok(HeldPathToContainer::Whole(parent.clone()?)),
        HeldPathToContainer::Item(parent, i) => Ok(HeldPathToContainer::Item(parent.clone()?, *i)),
    }
}

// A trail to the array or object where a held path leads: the one that it holds, or a new one to the item of an array.
pub(crate) fn trail_of_held_path<N: Name>(
    alloc: Global,
    held: &HeldPathToContainer<N>,
) -> Result<Rc<Trail<N>>, NoMemory>
    ensures { IfOk result (λ trail. location_at N.bytes trail.value ≡ held_path_location N.bytes held.now) }
{
    match held {
        HeldPathToContainer::Whole(parent) => Ok(parent.clone()?),
        HeldPathToContainer::Item(parent, i) => Ok(Rc::new(
            alloc,
            Trail::Item(parent.clone()?, *i as usize),
        )?),
    }
}

// A trail to the member of this name of the object where a held path leads.
#[inline]
pub(crate) fn member_trail<N: Name>(held: HeldPathToContainer<N>, key: N) -> Trail<N>
    ensures { location_at N.bytes result ≡ held_path_location N.bytes held ++ by_name (N.bytes key) ∷ [] }
{
    match held {
        HeldPathToContainer::Whole(parent) => Trail::Member(parent, key),
        HeldPathToContainer::Item(parent, i) => Trail::ItemMember(i, parent, key),
    }
}

// Adds the steps of a path to a value, from the root down, to a list of steps that borrow from the trail.
pub(crate) fn add_steps_of_path_to_value<'b, N: Name>(
    path_to: PathTo<'b, N>,
    steps: &mut Vec<PathStep<'b>>,
) -> Result<(), NoMemory>
    ensures { OnOk result (map step_of steps.new.items ≡ map step_of steps.old.items ++ path_location N.bytes path_to.entry) }
{
    match path_to {
        PathTo::Whole(trail) => add_steps_of_trail(trail, steps)?,
        PathTo::Item(parent, i) => {
            add_steps_of_trail(parent, steps)?;
            steps.push(PathStep::Index(i))?;
        }
    }
    Ok(())
}

// Adds the steps of a trail, from the root down, to a list of steps that borrow from it.
fn add_steps_of_trail<'b, N: Name>(
    trail: &'b Trail<N>,
    steps: &mut Vec<PathStep<'b>>,
) -> Result<(), NoMemory>
    ensures { OnOk result (map step_of steps.new.items ≡ map step_of steps.old.items ++ location_at N.bytes trail.now) }
{
    match trail {
        Trail::Root => {}
        Trail::Member(parent, key) => {
            add_steps_of_trail(parent, steps)?;
            steps.push(PathStep::Name(key.as_text()))?;
        }
        Trail::Item(parent, i) => {
            add_steps_of_trail(parent, steps)?;
            steps.push(PathStep::Index(*i))?;
        }
        Trail::ItemMember(i, parent, key) => {
            add_steps_of_trail(parent, steps)?;
            steps.push(PathStep::Index(*i as usize))?;
            steps.push(PathStep::Name(key.as_text()))?;
        }
    }
    Ok(())
}
