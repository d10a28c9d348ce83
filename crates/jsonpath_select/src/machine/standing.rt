//! How the locations of a list are related, step after step: whether a filter behind may find a candidate twice.

ghost use Rattle.std.specs.Prelude.{◌≡◌, ◌<◌, Bool, List, false, filter, length, true, IfOk, IsTrue};
ghost use Rattle.jsonpath_nodes.specs.document.Document.{Document};
ghost use Rattle.jsonpath_nodes.specs.place.Location.{Location};
ghost use Rattle.jsonpath_nodes.specs.place.Mark.{MarksStandAt};
ghost use Rattle.jsonpath_nodes.specs.step.Separate.{goes_by_names, is_every, IsApart, IsDisjoint, NamesInOrderAt, SelectsNoneTwice};
ghost use Rattle.jsonpath_nodes.specs.step.Steps.{every, step, all_below, flattened, Plain};
ghost use Rattle.jsonpath_select.specs.plan.Machine.{stepped};
ghost use Rattle.jsonpath_select.specs.Parts.{plain_of};
ghost use Rattle.jsonpath_select.specs.plan.Standing.{IsStanding};

use crate::machine::machine::Machine;
use crate::step::distinct_selections::{indexes_select_distinct_items, names_are_distinct};
use jsonpath_nodes::laws::{
    apart_locations_meet_candidates_once, steps_keep_locations_apart,
    steps_keep_locations_disjoint, steps_lead_without_repeats,
};
use jsonpath_nodes::{Carried, Mark, NoMemory};
use jsonpath_paths::ParseToken;
use std::alloc::Global;

// What is known of how the places of a list stand to each other.
#[derive(Clone, Copy)]
pub enum Standing {
    // No two are the same, and none stands below another.
    Disjoint,
    // No two are the same, and none leads to another by indexes alone.
    Apart,
    // No two are the same.
    Distinct,
    Unknown,
}

// Marks, and what is known of how their places stand to each other.
#[derive(Drop)]
pub struct StandingMarks<M> {
    pub(crate) standing: Standing,
    pub(crate) marks: Vec<M>,
}

impl Standing {
    // Whether it is known that no two of the places are the same, and none stands below another.
    pub(crate) fn are_disjoint(self) -> bool
        ensures { IsTrue result → (ls : List Location) → IsStanding self ls → IsDisjoint ls }
    {
        matches!(self, Standing::Disjoint)
    }

    // Whether it is known that no two of the places are the same, and none leads to another by indexes alone, so that
    // through arrays alone no value is reached from two of them.
    pub(crate) fn are_apart(self) -> bool
        ensures { IsTrue result → (ls : List Location) → IsStanding self ls → IsApart ls }
    {
        steps_keep_locations_disjoint();
        match self {
            Standing::Disjoint => true,
            Standing::Apart => true,
            _ => false,
        }
    }

    // How the places that a filter keeps stand to each other, and those to which an index, a range or a union of
    // different indexes leads: as those before. The clause `indexes` is of each step but `*` that selects no child twice.
    pub(crate) fn after_filter_or_indexes(self) -> Standing
        ensures filter { (ls : List Location) (test : Location → Bool) → IsStanding self ls → IsStanding result (filter test ls) }
        ensures indexes { (doc : Document) (p : Plain) (ls : List Location) → is_every p ≡ false → SelectsNoneTwice p → IsStanding self ls → IsStanding result (step doc p ls) }
    {
        steps_keep_locations_disjoint();
        steps_keep_locations_apart();
        steps_lead_without_repeats();
        match self {
            Standing::Disjoint => Standing::Disjoint,
            Standing::Apart => Standing::Apart,
            Standing::Distinct => Standing::Distinct,
            Standing::Unknown => Standing::Unknown,
        }
    }

    // How the candidates of a filter whose own `@` has a step stand to each other: what is reached out of arrays in
    // arrays from places that stand so, each once.
    pub(crate) fn after_flattening(self) -> Standing
        ensures { (doc : Document) (ls : List Location) → IsStanding self ls → IsStanding result (flattened doc ls) }
    {
        steps_keep_locations_disjoint();
        apart_locations_meet_candidates_once();
        match self {
            Standing::Disjoint => Standing::Disjoint,
            _ => Standing::Apart,
        }
    }

    // How places stand to each other that a name, or a list of different names, reaches from places that stand so.
    pub(crate) fn after_names(self) -> Standing
        ensures { (doc : Document) (p : Plain) (ls : List Location) → goes_by_names p ≡ true → SelectsNoneTwice p → IsStanding self ls → IsStanding result (step doc p ls) }
    {
        steps_keep_locations_disjoint();
        apart_locations_meet_candidates_once();
        steps_keep_locations_apart();
        match self {
            Standing::Disjoint => Standing::Disjoint,
            Standing::Apart => Standing::Apart,
            Standing::Distinct => Standing::Apart,
            Standing::Unknown => Standing::Unknown,
        }
    }

    // How places after `*` stand to each other, if those before stand as this says and each object's names ascend.
    pub(crate) fn after_wildcard(self) -> Standing
        ensures { (doc : Document) (ls : List Location) → NamesInOrderAt doc ls → IsStanding self ls → IsStanding result (step doc every ls) }
    {
        steps_keep_locations_disjoint();
        apart_locations_meet_candidates_once();
        steps_lead_without_repeats();
        match self {
            Standing::Disjoint => Standing::Disjoint,
            Standing::Apart => Standing::Distinct,
            Standing::Distinct => Standing::Distinct,
            Standing::Unknown => Standing::Unknown,
        }
    }

    // How the places to which a token's step leads from places that stand as this says do so; `Unknown` for `*`.
    fn after_token(
        self,
        alloc: Global,
        text: &str,
        token: &ParseToken,
    ) -> Result<Standing, NoMemory>
        ensures { IfOk result (λ next. (doc : Document) (ls : List Location) → IsStanding self ls → IsStanding next (step doc (plain_of text.now token.now) ls)) }
    {
        match token {
            ParseToken::Key(_) => Ok(self.after_names()),
            ParseToken::Keys(spans) => {
                if names_are_distinct(alloc, text, spans.as_slice())? {
                    return Ok(self.after_names());
                }
                Ok(Standing::Unknown)
            }
            ParseToken::Number(_) => Ok(self.after_filter_or_indexes()),
            ParseToken::Range(_, _, _) => Ok(self.after_filter_or_indexes()),
            ParseToken::Union(indexes) => {
                if indexes_select_distinct_items(alloc, indexes.as_slice())? {
                    return Ok(self.after_filter_or_indexes());
                }
                Ok(Standing::Unknown)
            }
            _ => Ok(Standing::Unknown),
        }
    }
}

impl<'r, 't, M: Carried> Machine<'r, 't, M> {
    // How the `count` places to which one plain step leads from these marks stand to each other: `leaves` says that
    // `..` is before it, `standing` how the marks stand. Fewer than two places are disjoint. For a `*` with no `..`,
    // the marks' objects are looked at, for `..` the whole document, so the proof knows that names there ascend.
    pub(crate) fn standing_after_step_from_marks(
        &self,
        standing: Standing,
        leaves: bool,
        token: &ParseToken,
        marks: &[M],
        count: usize,
    ) -> Result<Standing, NoMemory>
        ensures { IfOk result (λ next. (ls : List Location) → MarksStandAt M.located M.stand M.content (M.content self.now.root.now) ls marks.now → length (stepped self.now.text.now (M.content self.now.root.now) leaves token.now ls) ≡ count → IsStanding standing ls → IsStanding next (stepped self.now.text.now (M.content self.now.root.now) leaves token.now ls)) }
    {
        if count < 2 {
            return Ok(Standing::Disjoint);
        }
        match token {
            ParseToken::All if !leaves => {
                prove_names_ascend_at_marks(marks);
                Ok(standing.after_wildcard())
            }
            _ => self.standing_after_step(standing, leaves, token),
        }
    }

    // How the places to which one plain step leads stand to each other: `leaves` says that `..` stands before it,
    // `standing` how those that it leads from stand. None of these places is looked at; only for `..` the whole
    // document is looked over. For a `*` that no `..` stands before it is `Unknown`.
    pub(crate) fn standing_after_step(
        &self,
        standing: Standing,
        leaves: bool,
        token: &ParseToken,
    ) -> Result<Standing, NoMemory>
        ensures { IfOk result (λ next. (ls : List Location) → IsStanding standing ls → IsStanding next (stepped self.now.text.now (M.content self.now.root.now) leaves token.now ls)) }
    {
        if leaves {
            self.standing_after_descent(standing, token)
        } else {
            standing.after_token(self.alloc, self.text, token)
        }
    }

    // How the places to which a step behind `..` leads stand to each other, where those that it leads from stand as
    // `standing` says. The names of all objects of the document are looked at, which costs no more than such a step.
    fn standing_after_descent(
        &self,
        standing: Standing,
        token: &ParseToken,
    ) -> Result<Standing, NoMemory>
        ensures { IfOk result (λ next. (ls : List Location) → IsStanding standing ls → IsStanding next (step (M.content self.now.root.now) (plain_of self.now.text.now token.now) (all_below (M.content self.now.root.now) ls))) }
    {
        if !standing.are_disjoint() {
            return Ok(Standing::Unknown);
        }
        self.root.value_is_document();
        steps_keep_locations_disjoint();
        steps_lead_without_repeats();
        match token {
            ParseToken::All => Ok(Standing::Distinct),
            _ => Standing::Distinct.after_token(self.alloc, self.text, token),
        }
    }
}

// Goes over the marks for the proof alone: it then knows that the names of each object among them ascend.
pub(crate) fn prove_names_ascend_at_marks<M: Mark>(marks: &[M])
    ensures { (doc : Document) (ls : List Location) → MarksStandAt M.located M.stand M.content doc ls marks.now → NamesInOrderAt doc ls }
{
    for mark in marks {
        mark.object_names_ascend();
    }
}
