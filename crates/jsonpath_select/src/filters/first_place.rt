//! The first node that a path selects. In slices of 1, 4, 16, .. its first filter's candidates are decided and the rest
//! of the path applied, until one selects something. Without filters, it slices the nodes before the last step.

ghost use Rattle.std.specs.Prelude.{◌<◌, ◌≤◌, [], ◌∷◌, List, IfOk, Option};
ghost use Rattle.jsonpath_paths.specs.tree.Tree.{Path, PathSteps, Condition};
ghost use Rattle.jsonpath_nodes.specs.place.Location.{Location};
ghost use Rattle.jsonpath_paths.specs.Listed.{IsListOf, IsSomePath};
ghost use Rattle.jsonpath_select.specs.Meaning.{follow, sel};
ghost use Rattle.jsonpath_select.specs.plan.First.{BeginAs, CodesOptionalCondition, kept_by};
ghost use Rattle.jsonpath_select.specs.plan.NextFilter.{CodesSteps};
ghost use Rattle.jsonpath_select.specs.plan.Standing.{AreStanding, IsStanding};
ghost use Rattle.jsonpath_nodes.specs.place.Mark.{MarksStandAt};

use crate::filters::next_filter::{condition_end, next_filter};
use crate::filters::select_list::instruction_count_after_last_filter_with_own_step;
use crate::laws::first_is_of_first_piece;
use crate::machine::instruction::{Instruction, instructions_of_token_list};
use crate::machine::machine::Machine;
use crate::machine::manner::manner_of;
use crate::machine::standing::{Standing, StandingMarks};
use crate::tagged::shared_lists::copied_marks;
use jsonpath_nodes::Carried;
use jsonpath_paths::ParseToken;

impl<'r, 't, M: Carried> Machine<'r, 't, M> {
    // Marks whose first is at the first place that the path with this token list selects; none where it selects
    // nothing. Stops with `NeedsLocations` where the marks are references and can't tell whether a place is met twice.
    pub(crate) fn first_by_tokens(&self, tokens: &[ParseToken]) -> Result<Vec<M>, M::Stop>
        requires { IsSomePath self.now.text.now tokens.now }
        ensures { IfOk result (λ found. (p : Path) → IsListOf self.now.text.now p tokens.now → BeginAs M.located M.stand M.content (M.content self.now.root.now) (sel self.now.text.now (M.content self.now.root.now) p) found.items) }
    {
        let code = instructions_of_token_list(self.alloc, tokens)?;
        let manner = manner_of(self.alloc, self.text, code.as_slice())?;
        if manner.keeps_what_leads_on() {
            return self.select_list(manner, code.as_slice());
        }
        let machine = Machine {
            by_sets: manner.decides_by_sets,
            ..*self
        };
        machine.first_by_instructions(&code.as_slice()[1..])
    }

    // Marks that begin as where these instructions, which follow the path's `$`, lead from the root.
    fn first_by_instructions(&self, left: &[Instruction<'_>]) -> Result<Vec<M>, M::Stop>
        requires { (ss : PathSteps) × CodesSteps left.now ss }
        ensures { IfOk result (λ found. (ss : PathSteps) → CodesSteps left.now ss → BeginAs M.located M.stand M.content (M.content self.now.root.now) (follow self.now.text.now (M.content self.now.root.now) ss ([] ∷ [])) found.items) }
    {
        let root = self.root_marks()?;
        match next_filter(left) {
            Some((way, behind)) => {
                let shallow = instruction_count_after_last_filter_with_own_step(left);
                let asks_standing = left.len() > shallow;
                let led = self.follow_steps(way.steps, asks_standing, root)?;
                let candidates = self.candidates_of_places(way, asks_standing, led)?;
                let end = condition_end(behind);
                let starts = candidates.marks.as_slice();
                let condition = Some(&behind[..end]);
                self.first_in_slices(condition, &behind[end..], candidates.standing, starts)
            }
            None => {
                let last = left.len().saturating_sub(1);
                let led = self.follow_steps(&left[..last], false, root)?;
                let starts = led.marks.as_slice();
                self.first_in_slices(None, &left[last..], Standing::Unknown, starts)
            }
        }
    }

    // Marks that begin as where the instructions lead from those of the starting places at which the condition holds,
    // from all of them where there is none. They are tried in slices that grow.
    fn first_in_slices(
        &self,
        condition: Option<&[Instruction<'_>]>,
        left: &[Instruction<'_>],
        standing: Standing,
        starts: &[M],
    ) -> Result<Vec<M>, M::Stop>
        requires is { (f : Option Condition) × CodesOptionalCondition condition f }
        requires steps { (ss : PathSteps) × CodesSteps left.now ss }
        requires there { (ls : List Location) × MarksStandAt M.located M.stand M.content (M.content self.now.root.now) ls starts.now × IsStanding standing ls }
        ensures { IfOk result (λ found. (f : Option Condition) (ss : PathSteps) (ls : List Location) → CodesOptionalCondition condition.entry f → CodesSteps left.now ss → MarksStandAt M.located M.stand M.content (M.content self.now.root.now) ls starts.now → IsStanding standing ls
            → BeginAs M.located M.stand M.content (M.content self.now.root.now) (follow self.now.text.now (M.content self.now.root.now) ss (kept_by self.now.text.now (M.content self.now.root.now) f ls)) found.items) }
    {
        first_is_of_first_piece();
        let mut from = 0;
        while from < starts.len() {
            let end = slice_end(from, starts.len());
            let marks = copied_marks(self.alloc, &starts[from..end])?;
            let slice = StandingMarks { standing, marks };
            let found = self.lead_slice_to_end(condition, left, slice)?;
            if !found.as_slice().is_empty() {
                return Ok(found);
            }
            from = end;
        }
        Ok(Vec::new(self.alloc))
    }

    // Marks at where the instructions lead from the places at which the condition holds, or from all, without one.
    fn lead_slice_to_end(
        &self,
        condition: Option<&[Instruction<'_>]>,
        left: &[Instruction<'_>],
        slice: StandingMarks<M>,
    ) -> Result<Vec<M>, M::Stop>
        requires is { (f : Option Condition) × CodesOptionalCondition condition f }
        requires steps { (ss : PathSteps) × CodesSteps left.now ss }
        requires there { (ls : List Location) × AreStanding M.located M.stand M.content (M.content self.now.root.now) ls slice }
        ensures { IfOk result (λ found. (f : Option Condition) (ss : PathSteps) (ls : List Location) → CodesOptionalCondition condition.entry f → CodesSteps left.now ss → AreStanding M.located M.stand M.content (M.content self.now.root.now) ls slice
            → MarksStandAt M.located M.stand M.content (M.content self.now.root.now) (follow self.now.text.now (M.content self.now.root.now) ss (kept_by self.now.text.now (M.content self.now.root.now) f ls)) found.items) }
    {
        match condition {
            Some(condition) => {
                let kept = self.keep_passing_with_standing(condition, slice)?;
                self.lead_to_end(left, kept)
            }
            None => self.lead_to_end(left, slice),
        }
    }
}

// The index at which the slice ends that begins at `from`, of `count` places: it has 1 place, then 4, 16 and so on.
fn slice_end(from: usize, count: usize) -> usize
    requires { from < count }
    ensures after { from < result }
    ensures within { result ≤ count }
{
    if from < count / 4 {
        from * 4 + 1
    } else {
        count
    }
}
