//! `Mark`, a reference to a selected node: either the value alone, or a `TreeNode`, such as a `Spot`, which has the location
//! too. It names no lifetime, so functions that call themselves can be generic over it.

ghost use Rattle.std.specs.Prelude.{◌≡◌, [], ◌∷◌, Bool, true, false, IfOk, OnOk};
ghost use Rattle.jsonpath_nodes.specs.document.Document.{Document};
ghost use Rattle.jsonpath_nodes.specs.place.Location.{Location, flat};
ghost use Rattle.jsonpath_nodes.specs.place.Mark.{MarksGain, MarksStandAt, shown};
ghost use Rattle.jsonpath_nodes.specs.place.Order.{IsOrderedDocument};
ghost use Rattle.jsonpath_nodes.specs.place.SpotPlace.{place_location, place_value};
ghost use Rattle.jsonpath_nodes.specs.step.Candidates.{candidates_below};
ghost use Rattle.jsonpath_nodes.specs.step.PlainSteps.{plain_step_of};
ghost use Rattle.jsonpath_nodes.specs.step.Separate.{HasNamesInOrder};
ghost use Rattle.jsonpath_nodes.specs.step.Steps.{deep, named, single_steps};

use crate::memory::NoMemory;
use crate::place::spot::TreeNode;
use crate::step::plain_step::PlainStep;
use crate::step::{candidates, children, gather};
use crate::tree::{Tree, order};
use std::alloc::Global;

/// A trait of selected nodes. It has two kinds of implementors: each `Tree`, such as `&Value`, is a node without its
/// location, and each `TreeNode`, such as `Spot`, is a node with its location. Evaluation code is generic over both. The
/// only error of the methods that append nodes to a list is `NoMemory`; some of the nodes may then be appended already.
///
/// In contracts (proved specifications), a list of nodes is at a list of locations if both lists are equally long and
/// each node has the value at the location with the same index and, if it is a `TreeNode`, this location, too.
///
/// ```text
/// let mut found = Vec::new(alloc);
/// (&document).add_flattened(alloc, &mut found)?;
/// assert_eq!(rt; found.len(), 4);
/// ```
pub trait Mark: Drop + Sized {
    // Whether a mark keeps its location.
    ghost located: { Bool };
    // Where a mark stands, as far as it keeps that, and its value.
    ghost stand: { Self → Location };

    ghost content: { Self → Document };

    /// A method that implementors provide: returns the root node of the document that consists of this node's value.
    fn as_root(&self, alloc: Global) -> Self
        ensures { MarksStandAt located stand content (content self.now) ([] ∷ []) (result ∷ []) };

    /// A method that implementors provide: returns a copy of this node, with the same value and location.
    fn copy(&self) -> Result<Self, NoMemory>
        ensures { IfOk result (λ mark. shown stand content mark ≡ shown stand content self.now) };

    /// A lemma that implementors provide: in each object at or below this node, the member names ascend by their bytes.
    /// Its call takes time, since it goes through the node's whole value.
    fn value_is_document(&self)
        ensures { IsOrderedDocument (content self.now) };

    /// A lemma that implementors provide: if this node is an object, its member names ascend by their bytes.
    fn object_names_ascend(&self)
        ensures { HasNamesInOrder (content self.now) };

    /// Appends to `out` the children of this node that the step `plain` selects, with duplicates. Their order is the
    /// one that the comments of `PlainStep`, the type of the step, give for it.
    fn add_selected_children(
        &self,
        alloc: Global,
        plain: &PlainStep<'_>,
        out: &mut Vec<Self>,
    ) -> Result<(), NoMemory>
        ensures { OnOk result (MarksGain located stand content (single_steps (plain_step_of plain.now)) (stand self.now) (content self.now) out.old.items out.new.items) };

    /// A method that implementors provide: appends to `out` the member of this name, if this node is an object that has
    /// one. The name is taken literally, without quotes or escapes.
    fn add_named_member(
        &self,
        alloc: Global,
        name: &str,
        out: &mut Vec<Self>,
    ) -> Result<(), NoMemory>
        ensures { OnOk result (MarksGain located stand content (single_steps (named name.now)) (stand self.now) (content self.now) out.old.items out.new.items) };

    /// Appends to `out` what the step `plain` selects from this node and from each of its descendants, which are
    /// visited in preorder: each value before its children, items by index, members by their names' bytes.
    fn add_selected_at_or_below(
        &self,
        alloc: Global,
        plain: &PlainStep<'_>,
        out: &mut Vec<Self>,
    ) -> Result<(), NoMemory>
        ensures { OnOk result (MarksGain located stand content (deep (plain_step_of plain.now)) (stand self.now) (content self.now) out.old.items out.new.items) };

    /// If this node is an array, appends its items to `out`, with each item that is an array replaced by its items in
    /// turn, until no array is left. If this node is no array, appends the node itself.
    fn add_flattened(&self, alloc: Global, out: &mut Vec<Self>) -> Result<(), NoMemory>
        ensures { OnOk result (MarksGain located stand content flat (stand self.now) (content self.now) out.old.items out.new.items) };

    /// A method that implementors provide: appends to `out` the values that a filter after `..` tests when applied to
    /// this node, if the filter has a relative query with at least one segment, such as `@.a`. These are the node's
    /// non-array descendants, each once. For their order, take what `..*` selects from the node, replace each array by
    /// its items again and again, until no array is left, and keep only each value's first occurrence.
    ///
    /// For proofs, the contract also guarantees that each object's names at or below this node ascend by bytes.
    fn add_candidates_below(&self, alloc: Global, out: &mut Vec<Self>) -> Result<(), NoMemory>
        ensures gains { OnOk result (MarksGain located stand content candidates_below (stand self.now) (content self.now) out.old.items out.new.items) }
        ensures document { OnOk result (IsOrderedDocument (content self.now)) };
}

/// Implements `Mark` (a document's node) for each `Tree` (a handle to a value), as a node without its location.
impl<T: Tree> Mark for T {
    ghost located = { false };

    ghost stand = { λ mark. [] };

    ghost content = { λ mark. T.content mark };

    #[inline(always)]
    fn as_root(&self, _alloc: Global) -> T {
        *self
    }

    #[inline(always)]
    fn copy(&self) -> Result<T, NoMemory> {
        Ok(*self)
    }

    fn value_is_document(&self) {
        order::value_is_document(*self);
    }

    #[inline(always)]
    fn object_names_ascend(&self) {
        order::object_names_ascend(*self);
    }

    #[inline(always)]
    fn add_selected_children(
        &self,
        alloc: Global,
        plain: &PlainStep<'_>,
        out: &mut Vec<T>,
    ) -> Result<(), NoMemory> {
        children::add_selected_children(self, alloc, plain, out)
    }

    #[inline(always)]
    fn add_named_member(
        &self,
        alloc: Global,
        name: &str,
        out: &mut Vec<T>,
    ) -> Result<(), NoMemory> {
        children::add_named_member(self, alloc, name, out)
    }

    #[inline]
    fn add_selected_at_or_below(
        &self,
        alloc: Global,
        plain: &PlainStep<'_>,
        out: &mut Vec<T>,
    ) -> Result<(), NoMemory> {
        gather::add_selected_at_or_below(alloc, self, plain, out)
    }

    #[inline]
    fn add_flattened(&self, alloc: Global, out: &mut Vec<T>) -> Result<(), NoMemory> {
        candidates::add_flattened(alloc, self, out)
    }

    #[inline]
    fn add_candidates_below(&self, alloc: Global, out: &mut Vec<T>) -> Result<(), NoMemory> {
        candidates::add_candidates_below(alloc, self, out)
    }
}

/// Implements the trait `Mark` (a node of a document) for `TreeNode`: such a node has its value and its location. The
/// nodes of its children share the steps of its location instead of copying them.
impl<T: Tree> Mark for TreeNode<T> {
    ghost located = { true };

    ghost stand = { λ place. place_location T.Name.bytes place };

    ghost content = { λ place. place_value T.content place };

    #[inline(always)]
    fn as_root(&self, _alloc: Global) -> TreeNode<T> {
        TreeNode::at_root(self.value)
    }

    #[inline(always)]
    fn copy(&self) -> Result<TreeNode<T>, NoMemory> {
        Ok(self.clone()?)
    }

    fn value_is_document(&self) {
        order::value_is_document(self.value);
    }

    #[inline(always)]
    fn object_names_ascend(&self) {
        order::object_names_ascend(self.value);
    }

    #[inline(always)]
    fn add_selected_children(
        &self,
        alloc: Global,
        plain: &PlainStep<'_>,
        out: &mut Vec<TreeNode<T>>,
    ) -> Result<(), NoMemory> {
        children::add_selected_children(self, alloc, plain, out)
    }

    #[inline(always)]
    fn add_named_member(
        &self,
        alloc: Global,
        name: &str,
        out: &mut Vec<TreeNode<T>>,
    ) -> Result<(), NoMemory> {
        children::add_named_member(self, alloc, name, out)
    }

    #[inline]
    fn add_selected_at_or_below(
        &self,
        alloc: Global,
        plain: &PlainStep<'_>,
        out: &mut Vec<TreeNode<T>>,
    ) -> Result<(), NoMemory> {
        gather::add_selected_at_or_below(alloc, self, plain, out)
    }

    #[inline]
    fn add_flattened(&self, alloc: Global, out: &mut Vec<TreeNode<T>>) -> Result<(), NoMemory> {
        candidates::add_flattened(alloc, self, out)
    }

    #[inline]
    fn add_candidates_below(
        &self,
        alloc: Global,
        out: &mut Vec<TreeNode<T>>,
    ) -> Result<(), NoMemory> {
        candidates::add_candidates_below(alloc, self, out)
    }
}
