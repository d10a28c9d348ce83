//! The walk along a path's syntax tree, for all candidates of a filter at once: as lists (with repeats) or sets.

ghost use Rattle.std.specs.Prelude.{◌≡◌, List, length, if◌then◌else◌, IfOk};
ghost use Rattle.jsonpath_nodes.specs.document.Document.{Document};
ghost use Rattle.jsonpath_nodes.specs.step.SameMembers.{topmost};
ghost use Rattle.jsonpath_paths.specs.tree.View.{path_of, inner_of, condition_of, term_of};
ghost use Rattle.jsonpath_nodes.specs.place.Location.{Location};
ghost use Rattle.jsonpath_nodes.specs.place.NumbersWhere.{numbers_where};
ghost use Rattle.jsonpath_select.specs.plan.Machine.{Tagged, places, spread};
ghost use Rattle.jsonpath_select.specs.plan.Manner.{holds_in};
ghost use Rattle.jsonpath_select.specs.plan.Shown.{Shows};
ghost use Rattle.jsonpath_select.specs.plan.Stack.{IsOfTerm, ShowsFound, ShowsOperand};
ghost use Rattle.jsonpath_select.specs.plan.Walk.{found_in, led_in, set_after, step_in, term_in};

use crate::comparison::comparer::Comparer;
use crate::tagged::conditions::{join_tags, tags_where_marks_found};
use crate::tagged::kept_marks::keep_marks_at_indexes;
use crate::tagged::marks::{Found, TaggedMarks};
use crate::tagged::moves::{Move, candidates_of_filter, lead_marks_of_candidates};
use crate::tagged::operand::Operand;
use crate::tagged::shared_lists::{distinct_marks, list_count_for_candidates};
use crate::tagged::start_of_paths::start_of_path;
use crate::walk::own_step::condition_has_own_step;
use jsonpath_nodes::Carried;
use jsonpath_nodes::laws::{
    equal_locations_are_same, locations_once_in_order_ascend, steps_ignore_order_and_repeats,
};
use jsonpath_paths::{Condition, Inner, ParserNode, ParserStep, Term};
use std::alloc::Global;

// What follows a path with this text: in the manner of sets, if `sets`, else in that of lists.
#[derive(Drop)]
pub struct Follower<'r, 't, M> {
    pub(crate) alloc: Global,
    pub(crate) text: &'t str,
    pub(crate) sets: bool,
    pub(crate) root: &'r M,
}

impl<'r, 't, M: Carried> Follower<'r, 't, M> {
    // Where a path leads from each of the candidates, or from the root once for all of them.
    #[cycle(walk)]
    pub(crate) fn lists_after_path(
        &self,
        path: &ParserNode,
        candidates: &TaggedMarks<M>,
    ) -> Result<Found<M>, M::Stop>
        ensures { IfOk result (λ found. (ps : List Tagged) → Shows M.located M.stand M.content (M.content self.now.root.now) ps candidates.now → ShowsFound M.located M.stand M.content (M.content self.now.root.now) (found_in self.now.sets self.now.text.now (M.content self.now.root.now) (path_of path.now) (places ps)) found) }
    {
        let start = start_of_path(self.alloc, self.root, path.absolute, candidates)?;
        let mut pairs = start.pairs;
        let lists = list_count_for_candidates(path.absolute, candidates.marks.as_slice().len());
        for step in &path.steps {
            pairs = self.lists_after_step(step, lists, pairs)?;
        }
        Ok(Found {
            is_shared: path.absolute,
            pairs,
        })
    }

    // Where one step leads the marks of each of so many lists. Nothing goes on from no marks.
    #[cycle(walk)]
    fn lists_after_step(
        &self,
        step: &ParserStep,
        lists: usize,
        pairs: TaggedMarks<M>,
    ) -> Result<TaggedMarks<M>, M::Stop>
        ensures { IfOk result (λ found. (f : Location → List Location) (ls : List Location) → lists ≡ length ls → Shows M.located M.stand M.content (M.content self.now.root.now) (spread f 0 ls) pairs
            → Shows M.located M.stand M.content (M.content self.now.root.now) (spread (λ c. step_in self.now.sets self.now.text.now (M.content self.now.root.now) (inner_of step.now.inner) step.now.leaves (f c)) 0 ls) found) }
    {
        if pairs.tags.as_slice().is_empty() {
            return Ok(pairs);
        }
        if self.sets {
            self.sets_after_step(step, lists, pairs)
        } else {
            self.lists_after_inner(&step.inner, step.leaves, lists, pairs)
        }
    }

    // Where one step leads the marks of each of so many lists, each location once in a list, in document order. A
    // descent begins at the topmost marks, which lead to what all of them lead to.
    #[cycle(walk)]
    pub(crate) fn sets_after_step(
        &self,
        step: &ParserStep,
        lists: usize,
        pairs: TaggedMarks<M>,
    ) -> Result<TaggedMarks<M>, M::Stop>
        ensures { IfOk result (λ found. (f : Location → List Location) (ls : List Location) → lists ≡ length ls → Shows M.located M.stand M.content (M.content self.now.root.now) (spread f 0 ls) pairs
            → Shows M.located M.stand M.content (M.content self.now.root.now) (spread (λ c. set_after self.now.sets self.now.text.now (M.content self.now.root.now) (inner_of step.now.inner) step.now.leaves (f c)) 0 ls) found) }
    {
        let top = self.topmost_before_descent(step.leaves, lists, pairs)?;
        let found = self.lists_after_inner(&step.inner, step.leaves, lists, top)?;
        lead_marks_of_candidates(self.alloc, Move::InOrder, lists, found)
    }

    // The marks that a step by sets is taken from: behind `..` the topmost of each list, else all of them.
    fn topmost_before_descent(
        &self,
        leaves: bool,
        lists: usize,
        pairs: TaggedMarks<M>,
    ) -> Result<TaggedMarks<M>, M::Stop>
        ensures { IfOk result (λ found. (doc : Document) (f : Location → List Location) (ls : List Location) → lists ≡ length ls → Shows M.located M.stand M.content doc (spread f 0 ls) pairs
            → Shows M.located M.stand M.content doc (spread (λ c. if leaves then topmost (f c) else f c) 0 ls) found) }
    {
        if leaves {
            lead_marks_of_candidates(self.alloc, Move::Topmost, lists, pairs)
        } else {
            Ok(pairs)
        }
    }

    // Where a step's token or filter, after `..` if `leaves`, leads each of so many lists' marks, with repeats.
    #[cycle(walk)]
    pub(crate) fn lists_after_inner(
        &self,
        inner: &Inner,
        leaves: bool,
        lists: usize,
        pairs: TaggedMarks<M>,
    ) -> Result<TaggedMarks<M>, M::Stop>
        ensures { IfOk result (λ found. (f : Location → List Location) (ls : List Location) → lists ≡ length ls → Shows M.located M.stand M.content (M.content self.now.root.now) (spread f 0 ls) pairs
            → Shows M.located M.stand M.content (M.content self.now.root.now) (spread (λ c. led_in self.now.sets self.now.text.now (M.content self.now.root.now) (inner_of inner.now) leaves (f c)) 0 ls) found) }
    {
        match inner {
            Inner::Token(token) => {
                let by = Move::Step {
                    leaves,
                    token,
                    text: self.text,
                };
                lead_marks_of_candidates(self.alloc, by, lists, pairs)
            }
            Inner::Filter(condition) => {
                let deep = condition_has_own_step(condition);
                let flat = candidates_of_filter(self.alloc, leaves, deep, lists, pairs)?;
                let numbers = self.indexes_of_passing_candidates(condition, &flat)?;
                Ok(keep_marks_at_indexes(self.alloc, flat, numbers.as_slice())?)
            }
        }
    }

    // The indexes of the candidates at which the condition holds; by sets it is decided once for each location.
    #[cycle(walk)]
    fn indexes_of_passing_candidates(
        &self,
        condition: &Condition,
        candidates: &TaggedMarks<M>,
    ) -> Result<Vec<usize>, M::Stop>
        ensures { IfOk result (λ numbers. (ps : List Tagged) → Shows M.located M.stand M.content (M.content self.now.root.now) ps candidates.now → numbers.items ≡ numbers_where (holds_in self.now.sets self.now.text.now (M.content self.now.root.now) (condition_of condition.now)) 0 (places ps)) }
    {
        if !self.sets {
            return self.indexes_where_condition_holds(condition, candidates);
        }
        let distinct = distinct_marks(self.alloc, candidates)?.pairs;
        if distinct.marks.as_slice().len() == candidates.marks.as_slice().len() {
            return self.indexes_where_condition_holds(condition, candidates);
        }
        locations_once_in_order_ascend();
        steps_ignore_order_and_repeats();
        equal_locations_are_same();
        let numbers = self.indexes_where_condition_holds(condition, &distinct)?;
        let passing = keep_marks_at_indexes(self.alloc, distinct, numbers.as_slice())?;
        M::indexes_standing_among(
            self.alloc,
            candidates.marks.as_slice(),
            passing.marks.as_slice(),
        )
    }

    // The indexes of the candidates at which the condition holds, decided for all of them at once.
    #[cycle(walk)]
    fn indexes_where_condition_holds(
        &self,
        condition: &Condition,
        candidates: &TaggedMarks<M>,
    ) -> Result<Vec<usize>, M::Stop>
        ensures { IfOk result (λ numbers. (ps : List Tagged) → Shows M.located M.stand M.content (M.content self.now.root.now) ps candidates.now → numbers.items ≡ numbers_where (holds_in self.now.sets self.now.text.now (M.content self.now.root.now) (condition_of condition.now)) 0 (places ps)) }
    {
        let count = candidates.marks.as_slice().len();
        match condition {
            Condition::Lone(path) => {
                let found = self.lists_after_path(path, candidates)?;
                Ok(tags_where_marks_found(self.alloc, found.is_shared, count, &found.pairs)?)
            }
            Condition::Compare(left, op, right) => {
                let lefts = self.operand_of_term(left, candidates)?;
                let rights = self.operand_of_term(right, candidates)?;
                let comparer = Comparer {
                    alloc: self.alloc,
                    op: *op,
                    text: self.text,
                    count,
                };
                Ok(comparer.tags_where_comparison_holds(self.root, lefts, rights)?)
            }
            Condition::Join(op, left, right) => {
                let lefts = self.indexes_where_condition_holds(left, candidates)?;
                let rights = self.indexes_where_condition_holds(right, candidates)?;
                Ok(join_tags(self.alloc, *op, count, lefts.as_slice(), rights.as_slice())?)
            }
        }
    }

    // What a comparison takes of a term: where its path leads from the candidates, or its literal.
    #[cycle(walk)]
    fn operand_of_term<'c>(
        &self,
        term: &'c Term,
        candidates: &TaggedMarks<M>,
    ) -> Result<Operand<'c, M>, M::Stop>
        ensures kind { IfOk result (λ operand. IsOfTerm operand) }
        ensures ok { IfOk result (λ operand. (ps : List Tagged) → Shows M.located M.stand M.content (M.content self.now.root.now) ps candidates.now → ShowsOperand M.located M.stand M.content self.now.text.now (M.content self.now.root.now) (term_in self.now.sets self.now.text.now (M.content self.now.root.now) (term_of term.now) (places ps)) operand) }
    {
        match term {
            Term::Path(path) => {
                let found = self.lists_after_path(path, candidates)?;
                Ok(Operand::Marks(found))
            }
            Term::Literal(token) => Ok(Operand::Literal(token)),
        }
    }
}
