//! Paths of several steps that can reach a node more than once: after each step only those nodes are kept from which the
//! steps behind it lead to something, so that no repeats are carried on that lead to nothing.

ghost use Rattle.std.specs.Prelude.{◌≤◌, ◌<◌, List, drop, filter, length, take, false, IfOk};
ghost use Rattle.jsonpath_nodes.specs.place.Location.{Location};
ghost use Rattle.jsonpath_nodes.specs.place.Mark.{MarksStandAt};
ghost use Rattle.jsonpath_paths.specs.tree.Tree.{PathSteps, lone, path};
ghost use Rattle.jsonpath_select.specs.Meaning.{follow, holds};
ghost use Rattle.jsonpath_select.specs.plan.NextFilter.{CodesCondition, CodesSteps, first_step, later_steps};
ghost use Rattle.jsonpath_select.specs.plan.Standing.{AreStanding};

use crate::filters::next_filter::condition_end;
use crate::laws::what_leads_on_suffices;
use crate::machine::instruction::Instruction;
use crate::machine::machine::Machine;
use crate::machine::standing::{Standing, StandingMarks};
use jsonpath_nodes::{Carried, NoMemory};
use std::alloc::Global;

impl<'r, 't, M: Carried> Machine<'r, 't, M> {
    // Marks at where these instructions, with which a path ends, lead from places, step by step; from none, nowhere.
    pub(crate) fn lead_on_to_end(
        &self,
        left: &[Instruction<'_>],
        from: StandingMarks<M>,
    ) -> Result<Vec<M>, M::Stop>
        requires steps { (ss : PathSteps) × CodesSteps left.now ss }
        requires there { (ls : List Location) × AreStanding M.located M.stand M.content (M.content self.now.root.now) ls from }
        ensures { IfOk result (λ found. (ss : PathSteps) (ls : List Location) → CodesSteps left.now ss → AreStanding M.located M.stand M.content (M.content self.now.root.now) ls from
            → MarksStandAt M.located M.stand M.content (M.content self.now.root.now) (follow self.now.text.now (M.content self.now.root.now) ss ls) found.items) }
    {
        what_leads_on_suffices();
        let mut rest = left;
        let mut found = from;
        while !rest.is_empty() {
            if found.marks.as_slice().is_empty() {
                return Ok(found.marks);
            }
            let led = self.lead_to_end(instructions_of_first_step(rest), found)?;
            rest = instructions_behind_first_step(rest);
            found = self.keep_leading_on(rest, led)?;
        }
        Ok(found.marks)
    }

    // Those of the marks from which the steps with these instructions lead to something: all, if there is no step.
    fn keep_leading_on(
        &self,
        steps: &[Instruction<'_>],
        marks: Vec<M>,
    ) -> Result<StandingMarks<M>, M::Stop>
        requires steps { (ss : PathSteps) × CodesSteps steps.now ss }
        requires there { (ls : List Location) × MarksStandAt M.located M.stand M.content (M.content self.now.root.now) ls marks.items }
        ensures { IfOk result (λ found. (ss : PathSteps) (ls : List Location) → CodesSteps steps.now ss → MarksStandAt M.located M.stand M.content (M.content self.now.root.now) ls marks.items
            → AreStanding M.located M.stand M.content (M.content self.now.root.now) (filter (λ l. holds self.now.text.now (M.content self.now.root.now) (lone (path false ss)) l) ls) found) }
    {
        let standing = Standing::Unknown;
        if steps.is_empty() {
            return Ok(StandingMarks { standing, marks });
        }
        let machine = Machine {
            by_sets: true,
            ..*self
        };
        let condition = lone_condition(self.alloc, steps)?;
        machine.keep_passing_with_standing(condition.as_slice(), StandingMarks { standing, marks })
    }
}

// The instructions of the first of the steps with these.
fn instructions_of_first_step<'c, 't>(left: &'c [Instruction<'t>]) -> &'c [Instruction<'t>]
    requires { 0 < length left.now }
    ensures { (ss : PathSteps) → CodesSteps left.now ss → CodesSteps result.now (first_step ss) }
{
    &left[..first_step_end(left)]
}

// The instructions behind those of the first of the steps.
fn instructions_behind_first_step<'c, 't>(left: &'c [Instruction<'t>]) -> &'c [Instruction<'t>]
    requires { 0 < length left.now }
    ensures behind { (ss : PathSteps) → CodesSteps left.now ss → CodesSteps result.now (later_steps ss) }
    ensures shorter { length result.now < length left.now }
{
    &left[first_step_end(left)..]
}

// The index behind the instructions of the first of the steps.
fn first_step_end(left: &[Instruction<'_>]) -> usize
    requires { 0 < length left.now }
    ensures first { (ss : PathSteps) → CodesSteps left.now ss → CodesSteps (take result left.now) (first_step ss) }
    ensures behind { (ss : PathSteps) → CodesSteps left.now ss → CodesSteps (drop result left.now) (later_steps ss) }
    ensures after { 0 < result }
    ensures within { result ≤ length left.now }
{
    match left[0] {
        Instruction::Enter { .. } => condition_end(&left[1..]) + 1,
        _ => 1,
    }
}

// The instructions of the condition that the steps with these instructions lead from `@` to something.
fn lone_condition<'t>(
    alloc: Global,
    steps: &[Instruction<'t>],
) -> Result<Vec<Instruction<'t>>, NoMemory>
    ensures { IfOk result (λ code. (ss : PathSteps) → CodesSteps steps.now ss → CodesCondition code.items (lone (path false ss))) }
{
    let mut code = Vec::new(alloc);
    code.push(Instruction::Start { absolute: false })?;
    code.extend_from_slice(steps)?;
    code.push(Instruction::Leave)?;
    Ok(code)
}
