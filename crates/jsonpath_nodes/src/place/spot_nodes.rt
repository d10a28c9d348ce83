//! `TreeNode` as a node whose children are nodes: they share its location.

ghost use Rattle.std.specs.Prelude.{◌≡◌, [], ◌∷◌, ◌++◌, true, OnOk};
ghost use Rattle.jsonpath_nodes.specs.place.SpotPlace.{place_location, place_value, location_at, held_path_location};
ghost use Rattle.jsonpath_nodes.specs.declared.step.descends.DownStep.TheVariants.{Item, Member};
ghost use Rattle.jsonpath_nodes.specs.place.Location.{name as by_name, index as by_index};

use crate::memory::NoMemory;
use crate::place::spot::TreeNode;
use crate::place::trail::{
    HeldPathToContainer, Trail, clone_held_path, clone_trail, held_path_to_container, member_trail,
    shared_trail,
};
use crate::step::descend::descent_path::DescentPath;
use crate::step::descends::{Descends, DownStep};
use crate::tree::Tree;
use std::alloc::Global;
use std::rc::Rc;

impl<T: Tree> Descends for TreeNode<T> {
    type Tree = T;

    type Items = Rc<Trail<T::Name>>;

    type Members = HeldPathToContainer<T::Name>;

    type Way = DescentPath<T::Name>;

    ghost located = { true };

    ghost stand = { λ place. place_location T.Name.bytes place };

    ghost content = { λ place. place_value T.content place };

    ghost items_stand = { λ here. location_at T.Name.bytes here.value };

    ghost members_stand = { λ here. held_path_location T.Name.bytes here };

    ghost start = { λ way. way.0 };

    ghost steps = { λ way. way.1 };

    #[inline(always)]
    fn tree(&self) -> T {
        self.value
    }

    #[inline]
    fn copy(&self) -> Result<TreeNode<T>, NoMemory> {
        Ok(self.clone()?)
    }

    // The trail to the array, which the spots of its items share.
    fn shared_by_items(&self, alloc: Global) -> Result<Rc<Trail<T::Name>>, NoMemory> {
        shared_trail(alloc, &self.trail)
    }

    // The path to the object, which the spots of its members share.
    fn shared_by_members(&self, alloc: Global) -> Result<HeldPathToContainer<T::Name>, NoMemory> {
        held_path_to_container(alloc, &self.trail)
    }

    // Adds the spot of an item to a list: it shares the trail to the array, and has its index behind it.
    #[inline(always)]
    fn push_item(
        here: &Rc<Trail<T::Name>>,
        index: usize,
        value: T,
        out: &mut Vec<TreeNode<T>>,
    ) -> Result<(), NoMemory> {
        out.push(TreeNode {
            value,
            trail: Trail::Item(here.clone()?, index),
        })?;
        Ok(())
    }

    // Adds the spot of a member to a list: it shares the path to the object, and has its name behind it.
    #[inline(always)]
    fn push_member(
        here: &HeldPathToContainer<T::Name>,
        name: T::Name,
        value: T,
        out: &mut Vec<TreeNode<T>>,
    ) -> Result<(), NoMemory> {
        out.push(TreeNode {
            value,
            trail: member_trail(clone_held_path(here)?, name),
        })?;
        Ok(())
    }

    // Adds the spot of one member of the value to a list. The trail to the value is made for this spot alone; where the
    // value is an item of an array, the trail to the array is shared instead.
    #[inline(always)]
    fn push_single_member(
        &self,
        alloc: Global,
        name: T::Name,
        value: T,
        out: &mut Vec<TreeNode<T>>,
    ) -> Result<(), NoMemory> {
        out.push(TreeNode {
            value,
            trail: member_trail(held_path_to_container(alloc, &self.trail)?, name),
        })?;
        Ok(())
    }

    fn way_from(&self, alloc: Global) -> Result<DescentPath<T::Name>, NoMemory> {
        Ok(DescentPath::new(alloc, clone_trail(&self.trail)?))
    }

    #[inline]
    fn go_down(way: &mut DescentPath<T::Name>, step: DownStep<T::Name>) -> Result<(), NoMemory>
        ensures start { OnOk result (way.new.0 ≡ way.old.0) }
        ensures steps { OnOk result (way.new.1 ≡ way.old.1 ++ (elim step [ Item i ↦ by_index i | Member k ↦ by_name (T.Name.bytes k) ]) ∷ []) }
    {
        way.path.go_step_down(step)
    }

    #[inline]
    fn go_back(way: &mut DescentPath<T::Name>) {
        way.path.go_step_up();
    }

    fn items_here(way: &mut DescentPath<T::Name>) -> Result<Rc<Trail<T::Name>>, NoMemory> {
        way.path.trail_for_items()
    }

    fn members_here(
        way: &mut DescentPath<T::Name>,
    ) -> Result<HeldPathToContainer<T::Name>, NoMemory> {
        way.path.held_path_for_members()
    }
}
