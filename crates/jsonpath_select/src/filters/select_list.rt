//! What a path selects, as a list: its filters one after the other, each decided for all of its candidates at once. If
//! the locations before a filter are known to be apart, no candidate can come twice.

ghost use Rattle.std.specs.Prelude.{List, filter, IfOk, IsTrue};
ghost use Rattle.std.specs.List.{list_all};
ghost use Rattle.jsonpath_paths.specs.tree.Tree.{Condition, Path, PathSteps};
ghost use Rattle.jsonpath_nodes.specs.place.Location.{Location};
ghost use Rattle.jsonpath_nodes.specs.place.Mark.{MarksLeadBy, MarksStandAt};
ghost use Rattle.jsonpath_nodes.specs.step.Steps.{every, step, all_below, flattened, from_each};
ghost use Rattle.jsonpath_nodes.specs.step.Candidates.{candidates_below};
ghost use Rattle.jsonpath_paths.specs.Listed.{IsListOf, IsSomePath};
ghost use Rattle.jsonpath_select.specs.Meaning.{follow, holds, sel};
ghost use Rattle.jsonpath_select.specs.plan.Machine.{gathered};
ghost use Rattle.jsonpath_select.specs.plan.NextFilter.{AreASetAt, CodesCondition, CodesPath, CodesSteps};
ghost use Rattle.jsonpath_select.specs.plan.Standing.{along, AreStanding, IsStanding};
ghost use Rattle.jsonpath_select.specs.plan.Unfiltered.{is_plain_step};

use crate::filters::next_filter::{
    FilterApproach, condition_end, instructions_after_condition, next_filter,
};
use crate::machine::instruction::{Instruction, instructions_of_token_list};
use crate::machine::machine::Machine;
use crate::machine::manner::{Manner, manner_of};
use crate::machine::standing::{Standing, StandingMarks};
use crate::tagged::shared_lists::marks_shared_by_candidates;
use jsonpath_nodes::laws::{
    apart_locations_meet_candidates_once, candidates_of_disjoint_in_descents,
};
use jsonpath_nodes::{Carried, Mark, NoMemory};
use jsonpath_paths::ParseToken;
use std::alloc::Global;

impl<'r, 't, M: Carried> Machine<'r, 't, M> {
    // Marks at what the path with this token list selects, in the path's order. Stops with `NeedsLocations` where the
    // marks are references and can't tell whether a place is met twice.
    pub(crate) fn select_by_tokens(&self, tokens: &[ParseToken]) -> Result<Vec<M>, M::Stop>
        requires { IsSomePath self.now.text.now tokens.now }
        ensures { IfOk result (λ found. (p : Path) → IsListOf self.now.text.now p tokens.now → MarksStandAt M.located M.stand M.content (M.content self.now.root.now) (sel self.now.text.now (M.content self.now.root.now) p) found.items) }
    {
        let code = instructions_of_token_list(self.alloc, tokens)?;
        let manner = manner_of(self.alloc, self.text, code.as_slice())?;
        self.select_list(manner, code.as_slice())
    }

    // Marks at what the path with this token list selects, as a set: by sets, where the path is better evaluated so.
    pub(crate) fn select_set_by_tokens(&self, tokens: &[ParseToken]) -> Result<Vec<M>, M::Stop>
        requires { IsSomePath self.now.text.now tokens.now }
        ensures { IfOk result (λ found. (p : Path) → IsListOf self.now.text.now p tokens.now → AreASetAt M.located M.stand M.content (M.content self.now.root.now) (sel self.now.text.now (M.content self.now.root.now) p) found.items) }
    {
        let code = instructions_of_token_list(self.alloc, tokens)?;
        let manner = manner_of(self.alloc, self.text, code.as_slice())?;
        if manner.is_better_by_sets() {
            return self.select_set(code.as_slice());
        }
        self.select_list(manner, code.as_slice())
    }

    // Marks at what the path with these instructions selects, in the path's order.
    pub(crate) fn select_list(
        &self,
        manner: Manner,
        code: &[Instruction<'_>],
    ) -> Result<Vec<M>, M::Stop>
        requires { (p : Path) × CodesPath code.now p }
        ensures { IfOk result (λ found. (p : Path) → CodesPath code.now p → MarksStandAt M.located M.stand M.content (M.content self.now.root.now) (sel self.now.text.now (M.content self.now.root.now) p) found.items) }
    {
        let machine = Machine {
            by_sets: manner.decides_by_sets,
            ..*self
        };
        let root = machine.root_marks()?;
        if manner.keeps_what_leads_on() {
            return machine.lead_on_to_end(&code[1..], root);
        }
        machine.lead_to_end(&code[1..], root)
    }

    // Marks at where these instructions, with which a path ends, lead from places. It is followed how the places stand
    // to each other as long as a filter is to come whose own `@` has a step.
    pub(crate) fn lead_to_end(
        &self,
        left: &[Instruction<'_>],
        from: StandingMarks<M>,
    ) -> Result<Vec<M>, M::Stop>
        requires steps { (ss : PathSteps) × CodesSteps left.now ss }
        requires there { (ls : List Location) × AreStanding M.located M.stand M.content (M.content self.now.root.now) ls from }
        ensures { IfOk result (λ found. (ss : PathSteps) (ls : List Location) → CodesSteps left.now ss → AreStanding M.located M.stand M.content (M.content self.now.root.now) ls from
            → MarksStandAt M.located M.stand M.content (M.content self.now.root.now) (follow self.now.text.now (M.content self.now.root.now) ss ls) found.items) }
    {
        let shallow = instruction_count_after_last_filter_with_own_step(left);
        let mut rest = left;
        let mut found = from;
        while let Some((way, behind)) = next_filter(rest) {
            let end = condition_end(behind);
            found = self.marks_kept_by_filter(way, &behind[..end], rest.len() > shallow, found)?;
            rest = instructions_after_condition(behind);
        }
        let led = self.follow_steps(rest, false, found)?;
        Ok(led.marks)
    }

    // The marks the next filter keeps, from those before its plain steps, and, if `asks_standing`, their `Standing`.
    fn marks_kept_by_filter(
        &self,
        way: FilterApproach<'_, '_>,
        condition: &[Instruction<'_>],
        asks_standing: bool,
        from: StandingMarks<M>,
    ) -> Result<StandingMarks<M>, M::Stop>
        requires steps { IsTrue (list_all is_plain_step way.steps.now) }
        requires is { (f : Condition) × CodesCondition condition.now f }
        requires there { (ls : List Location) × AreStanding M.located M.stand M.content (M.content self.now.root.now) ls from }
        ensures { IfOk result (λ found. (f : Condition) (ls : List Location) → CodesCondition condition.now f → AreStanding M.located M.stand M.content (M.content self.now.root.now) ls from
            → AreStanding M.located M.stand M.content (M.content self.now.root.now) (filter (λ l. holds self.now.text.now (M.content self.now.root.now) f l) (gathered (M.content self.now.root.now) way.entry.leaves way.entry.deep (along self.now.text.now (M.content self.now.root.now) way.entry.steps.now ls))) found) }
    {
        let led = self.follow_steps(way.steps, asks_standing, from)?;
        let candidates = self.candidates_of_places(way, asks_standing, led)?;
        self.keep_passing_with_standing(condition, candidates)
    }

    // A filter's candidates, from the places that lead to it, and, if `asks_standing`, how they stand to each other.
    pub(crate) fn candidates_of_places(
        &self,
        way: FilterApproach<'_, '_>,
        asks_standing: bool,
        led: StandingMarks<M>,
    ) -> Result<StandingMarks<M>, M::Stop>
        ensures { IfOk result (λ found. (ls : List Location) → AreStanding M.located M.stand M.content (M.content self.now.root.now) ls led → AreStanding M.located M.stand M.content (M.content self.now.root.now) (gathered (M.content self.now.root.now) way.entry.leaves way.entry.deep ls) found) }
    {
        apart_locations_meet_candidates_once();
        match (way.leaves, way.deep) {
            (false, false) => Ok(led),
            (true, false) => Ok(self.follow_step(true, &ParseToken::All, asks_standing, led)?),
            (false, true) => Ok(StandingMarks {
                standing: led.standing.after_flattening(),
                marks: self.candidates_once_at(led.standing, led.marks.as_slice())?,
            }),
            (true, true) => Ok(StandingMarks {
                standing: Standing::Apart,
                marks: self.candidates_once_below(led.standing, led.marks.as_slice())?,
            }),
        }
    }

    // The candidates behind `..` of a filter whose own `@` has a step, each place once. Where it is known that none of
    // the marks stands below another, the document is looked over and repeats are not looked for; else references end
    // with `NeedsLocations` where a place may be met twice.
    fn candidates_once_below(&self, standing: Standing, marks: &[M]) -> Result<Vec<M>, M::Stop>
        ensures { IfOk result (λ found. (ls : List Location) → IsStanding standing ls → MarksStandAt M.located M.stand M.content (M.content self.now.root.now) ls marks.now
            → MarksStandAt M.located M.stand M.content (M.content self.now.root.now) (flattened (M.content self.now.root.now) (step (M.content self.now.root.now) every (all_below (M.content self.now.root.now) ls))) found.items) }
    {
        if marks.len() < 2 || !standing.are_disjoint() {
            return M::candidates_below_once(self.alloc, marks);
        }
        self.root.value_is_document();
        candidates_of_disjoint_in_descents();
        let found = candidates_below_each(self.alloc, marks)?;
        Ok(found)
    }

    // The candidates at which a condition holds, and how they stand to each other.
    pub(crate) fn keep_passing_with_standing(
        &self,
        condition: &[Instruction<'_>],
        candidates: StandingMarks<M>,
    ) -> Result<StandingMarks<M>, M::Stop>
        requires is { (f : Condition) × CodesCondition condition.now f }
        requires there { (cs : List Location) × AreStanding M.located M.stand M.content (M.content self.now.root.now) cs candidates }
        ensures { IfOk result (λ found. (f : Condition) (cs : List Location) → CodesCondition condition.now f → AreStanding M.located M.stand M.content (M.content self.now.root.now) cs candidates
            → AreStanding M.located M.stand M.content (M.content self.now.root.now) (filter (λ l. holds self.now.text.now (M.content self.now.root.now) f l) cs) found) }
    {
        let standing = candidates.standing.after_filter_or_indexes();
        let all = marks_shared_by_candidates(self.alloc, candidates.marks)?;
        let kept = self.keep_passing_candidates(condition, all)?;
        Ok(StandingMarks {
            standing,
            marks: kept.pairs.marks,
        })
    }
}

// Counts the instructions, conditions' too, after the start of the last filter whose own `@` has a step; else all.
pub(crate) fn instruction_count_after_last_filter_with_own_step(left: &[Instruction<'_>]) -> usize {
    let mut end = left.len();
    for (place, instruction) in left.iter().enumerate() {
        if let Instruction::Enter { deep: true, .. } = instruction {
            end = left.len() - place - 1;
        }
    }
    end
}

// The candidates behind `..` of a filter whose own `@` has a step, from one mark after the other.
fn candidates_below_each<M: Mark>(alloc: Global, marks: &[M]) -> Result<Vec<M>, NoMemory>
    ensures { IfOk result (λ found. MarksLeadBy M.located M.stand M.content (λ doc ls. from_each doc candidates_below ls) marks.now found.items) }
{
    let mut found = Vec::new(alloc);
    for mark in marks {
        mark.add_candidates_below(alloc, &mut found)?;
    }
    Ok(found)
}
