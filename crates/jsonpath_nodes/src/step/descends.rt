//! How the children of a node become nodes of the same kind: a value of a tree keeps no location, a `TreeNode` all of it.

ghost use Rattle.std.specs.Prelude.{◌≡◌, [], ◌∷◌, ◌++◌, Bool, List, false, Some, IfOk, OnOk};
ghost use Rattle.jsonpath_nodes.specs.document.Document.{Document};
ghost use Rattle.jsonpath_nodes.specs.place.Location.{Location, Step, name as by_name, index as by_index};
ghost use Rattle.jsonpath_nodes.specs.place.Mark.{MarksGainOne, kept_location, shown};
ghost use Rattle.jsonpath_nodes.specs.plan.Way.{down_step, way_stand, AreSame, Stays, without_last};

use crate::memory::NoMemory;
use crate::tree::Tree;
use crate::tree::name::Handle;
use std::alloc::Global;

// A step down, to an item of an array or to a member of an object.
#[derive(Clone, Copy)]
pub enum DownStep<N> {
    Item(usize),
    Member(N),
}

// A node from which a step leads on. What it keeps of its location is shared by the nodes of its children. The way of a
// descent is what the descent keeps of the location where it is.
pub trait Descends: Drop + Sized {
    type Tree: Tree;
    // The part of their location that the items of one array share.
    type Items: Drop;
    // The part of their location that the members of one object share.
    type Members: Drop;
    // What a descent keeps of the location where it is.
    type Way: Drop;

    // Whether a node keeps its location.
    ghost located: { Bool };
    // The location, as far as it is kept, and the value.
    ghost stand: { Self → Location };

    ghost content: { Self → Document };
    // Where the array and the object stand.
    ghost items_stand: { Self.Items → Location };

    ghost members_stand: { Self.Members → Location };
    // Where a descent began, and the steps down from there, as far as they are kept.
    ghost start: { Self.Way → Location };

    ghost steps: { Self.Way → List Step };

    fn tree(&self) -> Self::Tree
        ensures { Self.Tree.content result ≡ content self.now };

    // One more node at the same location.
    fn copy(&self) -> Result<Self, NoMemory>
        ensures { IfOk result (λ copy. shown stand content copy ≡ (kept_location located (stand self.now), Some (content self.now))) };

    // What the items of the value share, if it is an array.
    fn shared_by_items(&self, alloc: Global) -> Result<Self::Items, NoMemory>
        ensures { IfOk result (λ here. items_stand here ≡ stand self.now) };

    // What the members of the value share, if it is an object.
    fn shared_by_members(&self, alloc: Global) -> Result<Self::Members, NoMemory>
        ensures { IfOk result (λ here. members_stand here ≡ stand self.now) };

    // Adds an item to a list.
    fn push_item(
        here: &Self::Items,
        index: usize,
        value: Self::Tree,
        out: &mut Vec<Self>,
    ) -> Result<(), NoMemory>
        ensures { OnOk result (MarksGainOne located stand content (items_stand here.now ++ by_index index ∷ []) (Self.Tree.content value) out.old.items out.new.items) };

    // Adds a member to a list.
    fn push_member(
        here: &Self::Members,
        name: <Self::Tree as Handle>::Name,
        value: Self::Tree,
        out: &mut Vec<Self>,
    ) -> Result<(), NoMemory>
        ensures { OnOk result (MarksGainOne located stand content (members_stand here.now ++ by_name (Self.Tree.Name.bytes name) ∷ []) (Self.Tree.content value) out.old.items out.new.items) };

    // Adds a member of the value to a list, if no other is to share the value's location with it.
    fn push_single_member(
        &self,
        alloc: Global,
        name: <Self::Tree as Handle>::Name,
        value: Self::Tree,
        out: &mut Vec<Self>,
    ) -> Result<(), NoMemory>
        ensures { OnOk result (MarksGainOne located stand content (stand self.now ++ by_name (Self.Tree.Name.bytes name) ∷ []) (Self.Tree.content value) out.old.items out.new.items) };

    // The way of a descent that begins at the node.
    fn way_from(&self, alloc: Global) -> Result<Self::Way, NoMemory>
        ensures { IfOk result (λ way. way_stand located (start way) (steps way) ≡ stand self.now) };

    // Goes on by a step.
    fn go_down(
        way: &mut Self::Way,
        step: DownStep<<Self::Tree as Handle>::Name>,
    ) -> Result<(), NoMemory>
        ensures start { OnOk result (start way.new ≡ start way.old) }
        ensures steps { OnOk result (AreSame located (steps way.new) (steps way.old ++ down_step Self.Tree.Name.bytes step ∷ [])) };

    // Takes the last step back.
    fn go_back(way: &mut Self::Way)
        ensures start { start way.new ≡ start way.old }
        ensures steps { AreSame located (steps way.new) (without_last (steps way.old)) };

    // What the items of the array where the descent is share.
    fn items_here(way: &mut Self::Way) -> Result<Self::Items, NoMemory>
        ensures stands { IfOk result (λ here. items_stand here ≡ way_stand located (start way.old) (steps way.old)) }
        ensures stays { OnOk result (Stays located (start way.old) (steps way.old) (start way.new) (steps way.new)) };

    // What the members of the object where the descent is share.
    fn members_here(way: &mut Self::Way) -> Result<Self::Members, NoMemory>
        ensures stands { IfOk result (λ here. members_stand here ≡ way_stand located (start way.old) (steps way.old)) }
        ensures stays { OnOk result (Stays located (start way.old) (steps way.old) (start way.new) (steps way.new)) };
}

// A value keeps no location.
impl<T: Tree> Descends for T {
    type Tree = T;

    type Items = ();

    type Members = ();

    type Way = ();

    ghost located = { false };

    ghost stand = { λ node. [] };

    ghost content = { λ node. T.content node };

    ghost items_stand = { λ here. [] };

    ghost members_stand = { λ here. [] };

    ghost start = { λ way. [] };

    ghost steps = { λ way. [] };

    #[inline(always)]
    fn tree(&self) -> T {
        *self
    }

    #[inline(always)]
    fn copy(&self) -> Result<T, NoMemory> {
        Ok(*self)
    }

    #[inline(always)]
    fn shared_by_items(&self, _alloc: Global) -> Result<(), NoMemory> {
        Ok(())
    }

    #[inline(always)]
    fn shared_by_members(&self, _alloc: Global) -> Result<(), NoMemory> {
        Ok(())
    }

    #[inline(always)]
    fn push_item(_here: &(), _index: usize, value: T, out: &mut Vec<T>) -> Result<(), NoMemory> {
        out.push(value)?;
        Ok(())
    }

    #[inline(always)]
    fn push_member(_here: &(), _name: T::Name, value: T, out: &mut Vec<T>) -> Result<(), NoMemory> {
        out.push(value)?;
        Ok(())
    }

    #[inline(always)]
    fn push_single_member(
        &self,
        _alloc: Global,
        _name: T::Name,
        value: T,
        out: &mut Vec<T>,
    ) -> Result<(), NoMemory> {
        out.push(value)?;
        Ok(())
    }

    #[inline(always)]
    fn way_from(&self, _alloc: Global) -> Result<(), NoMemory> {
        Ok(())
    }

    #[inline(always)]
    fn go_down(_way: &mut (), step: DownStep<T::Name>) -> Result<(), NoMemory>
        ensures start { OnOk result (way_stand false [] [] ≡ []) }
        ensures steps { OnOk result (AreSame false [] (down_step T.Name.bytes step ∷ [])) }
    {
        Ok(())
    }

    #[inline(always)]
    fn go_back(_way: &mut ()) {}

    #[inline(always)]
    fn items_here(_way: &mut ()) -> Result<(), NoMemory> {
        Ok(())
    }

    #[inline(always)]
    fn members_here(_way: &mut ()) -> Result<(), NoMemory> {
        Ok(())
    }
}
