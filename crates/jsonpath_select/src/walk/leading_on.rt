//! What a path selects from the root, as a list. Where the walk follows nothing that leads nowhere, one pass forward
//! finds the set of places after each step, and one pass back those from which the later steps lead somewhere.

ghost use Rattle.std.specs.Prelude.{◌≡◌, ◌++◌, ◌∷◌, [], List, length, filter, IfOk, OnOk};
ghost use Rattle.jsonpath_paths.specs.tree.View.{inner_of, path_of, steps_of_list};
ghost use Rattle.jsonpath_nodes.specs.place.Location.{Location};
ghost use Rattle.jsonpath_nodes.specs.place.Mark.{MarksStandAt};
ghost use Rattle.jsonpath_nodes.specs.place.Order.{IsOrderedDocument};
ghost use Rattle.jsonpath_select.specs.Meaning.{follow, sel};
ghost use Rattle.jsonpath_select.specs.plan.LeadingOn.{AreAfterEach, AreAt, is_among, leading_from_root, leading_to, set_from_root};
ghost use Rattle.jsonpath_select.specs.plan.Machine.{Tagged};
ghost use Rattle.jsonpath_select.specs.plan.Shown.{Shows};

use crate::laws::{dropping_repeats_keeps_the_set, what_leads_on_suffices};
use crate::tagged::conditions::tags_where_marks_found;
use crate::tagged::kept_marks::keep_marks_at_indexes;
use crate::tagged::marks::TaggedMarks;
use crate::tagged::start_of_paths::{root_shared_by_candidates, start_of_path};
use crate::walk::follower::Follower;
use jsonpath_nodes::laws::{
    equal_locations_are_same, locations_once_in_order_ascend, steps_ignore_order_and_repeats,
    topmost_descend_to_same_set,
};
use jsonpath_nodes::{Carried, NoMemory};
use jsonpath_paths::{ParserNode, ParserStep};

impl<'r, 't, M: Carried> Follower<'r, 't, M> {
    // Marks at what a path selects in the document, in the path's order, with its repeats. Where `keeps_what_leads_on` is
    // set, nothing is followed that leads to nothing.
    pub(crate) fn select_list(
        &self,
        keeps_what_leads_on: bool,
        path: &ParserNode,
    ) -> Result<Vec<M>, M::Stop>
        ensures { IfOk result (λ found. MarksStandAt M.located M.stand M.content (M.content self.now.root.now) (sel self.now.text.now (M.content self.now.root.now) (path_of path.now)) found.items) }
    {
        self.root.value_is_document();
        let start = root_shared_by_candidates(self.alloc, self.root)?;
        let found = self.lists_from_root(keeps_what_leads_on, path, &start.pairs)?;
        Ok(found.marks)
    }

    // What a path selects from the root, in the path's order, with its repeats.
    fn lists_from_root(
        &self,
        keeps_what_leads_on: bool,
        path: &ParserNode,
        root: &TaggedMarks<M>,
    ) -> Result<TaggedMarks<M>, M::Stop>
        ensures { IfOk result (λ found. IsOrderedDocument (M.content self.now.root.now) → (ps : List Tagged) → Shows M.located M.stand M.content (M.content self.now.root.now) ps root.now → AreAt M.located M.stand M.content (M.content self.now.root.now) (sel self.now.text.now (M.content self.now.root.now) (path_of path.now)) found) }
    {
        let steps = path.steps.as_slice();
        if !keeps_what_leads_on {
            return self.lists_after_steps(steps, root);
        }
        let sets = self.sets_after_each_step(steps, root)?;
        let kept = self.keep_what_leads_on(steps, sets)?;
        self.lists_among(steps, root, kept.as_slice())
    }

    // Where the steps lead from the root, one after the other.
    fn lists_after_steps(
        &self,
        steps: &[ParserStep],
        root: &TaggedMarks<M>,
    ) -> Result<TaggedMarks<M>, M::Stop>
        ensures { IfOk result (λ found. IsOrderedDocument (M.content self.now.root.now) → (ps : List Tagged) → Shows M.located M.stand M.content (M.content self.now.root.now) ps root.now → AreAt M.located M.stand M.content (M.content self.now.root.now) (follow self.now.text.now (M.content self.now.root.now) (steps_of_list steps.now) ([] ∷ [])) found) }
    {
        dropping_repeats_keeps_the_set();
        locations_once_in_order_ascend();
        topmost_descend_to_same_set();
        let mut current = start_of_path(self.alloc, self.root, true, root)?.pairs;
        for step in steps {
            current = self.lists_after_inner(&step.inner, step.leaves, 1, current)?;
        }
        Ok(current)
    }

    // The pass forward: the set of the places after each step from the root.
    fn sets_after_each_step(
        &self,
        steps: &[ParserStep],
        root: &TaggedMarks<M>,
    ) -> Result<Vec<TaggedMarks<M>>, M::Stop>
        ensures count { IfOk result (λ found. length found.items ≡ length steps.now) }
        ensures places { IfOk result (λ found. (ps : List Tagged) → Shows M.located M.stand M.content (M.content self.now.root.now) ps root.now → AreAfterEach M.located M.stand M.content (M.content self.now.root.now) (set_from_root self.now.sets self.now.text.now (M.content self.now.root.now) steps.now) found.items) }
    {
        let mut sets = Vec::new(self.alloc);
        let mut current = start_of_path(self.alloc, self.root, true, root)?.pairs;
        for step in steps {
            let next = self.sets_after_step(step, 1, current)?;
            let copies = start_of_path(self.alloc, self.root, false, &next)?.pairs;
            push_places(copies, &mut sets)?;
            current = next;
        }
        Ok(sets)
    }

    // The pass back: of each set those places stay from which the later steps lead somewhere.
    fn keep_what_leads_on(
        &self,
        steps: &[ParserStep],
        sets: Vec<TaggedMarks<M>>,
    ) -> Result<Vec<TaggedMarks<M>>, M::Stop>
        requires { length sets.items ≡ length steps.now }
        ensures count { IfOk result (λ found. length found.items ≡ length steps.now) }
        ensures places { IfOk result (λ found. IsOrderedDocument (M.content self.now.root.now) → AreAfterEach M.located M.stand M.content (M.content self.now.root.now) (set_from_root self.now.sets self.now.text.now (M.content self.now.root.now) steps.now) sets.items
            → AreAfterEach M.located M.stand M.content (M.content self.now.root.now) (leading_from_root self.now.sets self.now.text.now (M.content self.now.root.now) steps.now) found.items) }
    {
        dropping_repeats_keeps_the_set();
        equal_locations_are_same();
        locations_once_in_order_ascend();
        steps_ignore_order_and_repeats();
        topmost_descend_to_same_set();
        let mut kept = sets;
        let mut number = steps.len();
        while number > 1 {
            number -= 1;
            kept[number - 1] = self.places_leading_to(
                &steps[number],
                &kept[number - 1],
                &kept[number],
            )?;
        }
        Ok(kept)
    }

    // Those of some places from which a step leads to one of the places ahead.
    fn places_leading_to(
        &self,
        step: &ParserStep,
        here: &TaggedMarks<M>,
        ahead: &TaggedMarks<M>,
    ) -> Result<TaggedMarks<M>, M::Stop>
        ensures { IfOk result (λ found. (ls ms : List Location) → AreAt M.located M.stand M.content (M.content self.now.root.now) ls here.now → AreAt M.located M.stand M.content (M.content self.now.root.now) ms ahead.now
            → AreAt M.located M.stand M.content (M.content self.now.root.now) (leading_to self.now.sets self.now.text.now (M.content self.now.root.now) (inner_of step.now.inner) step.now.leaves ms ls) found) }
    {
        let count = here.marks.as_slice().len();
        let starts = start_of_path(self.alloc, self.root, false, here)?.pairs;
        let next = self.lists_after_inner(&step.inner, step.leaves, count, starts)?;
        let found = self.keep_standing_among(next, ahead)?;
        let numbers = tags_where_marks_found(self.alloc, false, count, &found)?;
        let copies = start_of_path(self.alloc, self.root, false, here)?.pairs;
        Ok(keep_marks_at_indexes(self.alloc, copies, numbers.as_slice())?)
    }

    // The list: after each step go on those marks alone that stand at the places kept.
    fn lists_among(
        &self,
        steps: &[ParserStep],
        root: &TaggedMarks<M>,
        kept: &[TaggedMarks<M>],
    ) -> Result<TaggedMarks<M>, M::Stop>
        requires { length kept.now ≡ length steps.now }
        ensures { IfOk result (λ found. IsOrderedDocument (M.content self.now.root.now) → (ps : List Tagged) → Shows M.located M.stand M.content (M.content self.now.root.now) ps root.now
            → AreAfterEach M.located M.stand M.content (M.content self.now.root.now) (leading_from_root self.now.sets self.now.text.now (M.content self.now.root.now) steps.now) kept.now
            → AreAt M.located M.stand M.content (M.content self.now.root.now) (follow self.now.text.now (M.content self.now.root.now) (steps_of_list steps.now) ([] ∷ [])) found) }
    {
        dropping_repeats_keeps_the_set();
        equal_locations_are_same();
        locations_once_in_order_ascend();
        steps_ignore_order_and_repeats();
        topmost_descend_to_same_set();
        what_leads_on_suffices();
        let mut current = start_of_path(self.alloc, self.root, true, root)?.pairs;
        for (number, step) in steps.iter().enumerate() {
            let next = self.lists_after_inner(&step.inner, step.leaves, 1, current)?;
            current = self.keep_standing_among(next, &kept[number])?;
        }
        Ok(current)
    }

    // The marks, with their tags, that stand at one of the places ahead.
    fn keep_standing_among(
        &self,
        pairs: TaggedMarks<M>,
        ahead: &TaggedMarks<M>,
    ) -> Result<TaggedMarks<M>, M::Stop>
        ensures { IfOk result (λ found. (ps : List Tagged) (ms : List Location) → Shows M.located M.stand M.content (M.content self.now.root.now) ps pairs → AreAt M.located M.stand M.content (M.content self.now.root.now) ms ahead.now
            → Shows M.located M.stand M.content (M.content self.now.root.now) (filter (λ (p : Tagged). is_among ms p.1) ps) found) }
    {
        let numbers = M::indexes_standing_among(
            self.alloc,
            pairs.marks.as_slice(),
            ahead.marks.as_slice(),
        )?;
        Ok(keep_marks_at_indexes(self.alloc, pairs, numbers.as_slice())?)
    }
}

// Adds the places after one more step.
fn push_places<M: Drop>(
    places: TaggedMarks<M>,
    sets: &mut Vec<TaggedMarks<M>>,
) -> Result<(), NoMemory>
    ensures { OnOk result (sets.new.items ≡ sets.old.items ++ places ∷ []) }
{
    sets.push(places)?;
    Ok(())
}
