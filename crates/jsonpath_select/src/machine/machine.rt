//! The machine that runs token lists: `Machine`, and how it executes all instructions of a list, one after the other.

ghost use Rattle.std.specs.Prelude.{◌<◌, length, drop, IfOk, IfSome, OnOk, List, filter};
ghost use Rattle.jsonpath_select.specs.plan.Machine.{at_first};
ghost use Rattle.jsonpath_select.specs.plan.Stack.{ShowsStacks, ExecutesAll, CanGoOn, Advances, IsStepByName, BeginsWithName, ShowsFound};
ghost use Rattle.jsonpath_paths.specs.tree.Tree.{Condition, Path};
ghost use Rattle.jsonpath_nodes.specs.place.Location.{Location};
ghost use Rattle.jsonpath_select.specs.Meaning.{holds, sel};
ghost use Rattle.jsonpath_select.specs.plan.NextFilter.{AreASetAt, CodesCondition, CodesPath, Decides};
ghost use Rattle.jsonpath_select.specs.plan.Standing.{for_all};

use crate::laws::dropping_repeats_keeps_the_set;
use crate::machine::by_sets::{condition_by_sets, instructions_by_sets};
use crate::machine::instruction::Instruction;
use crate::machine::stacks::{Stacks, pop_marks, push_top};
use crate::tagged::marks::Found;
use crate::tagged::start_of_paths::root_shared_by_candidates;
use jsonpath_nodes::laws::{
    equal_locations_are_same, locations_once_in_order_ascend, steps_ignore_order_and_repeats,
    topmost_descend_to_same_set,
};
use jsonpath_nodes::{Carried, NoMemory};
use jsonpath_paths::{ParseToken, StrRange};
use std::alloc::Global;

// The machine: the root of the document that it runs on, and the text at whose spans the names stand.
#[derive(Drop)]
pub struct Machine<'r, 't, M> {
    pub(crate) alloc: Global,
    pub(crate) root: &'r M,
    pub(crate) text: &'t str,
    // Whether conditions are decided by sets.
    pub(crate) by_sets: bool,
}

impl<'r, 't, M: Carried> Machine<'r, 't, M> {
    // The stacks with which the machine begins: the root as the one candidate, and no operand.
    pub(crate) fn stacks_at_start<'c>(&self) -> Result<Stacks<'c, M>, NoMemory>
        ensures { IfOk result (λ stacks. ShowsStacks M.located M.stand M.content self.now.text.now (M.content self.now.root.now) at_first stacks) }
    {
        let first = root_shared_by_candidates(self.alloc, self.root)?;
        let mut frames = Vec::new(self.alloc);
        frames.push(first)?;
        let operands = Vec::new(self.alloc);
        Ok(Stacks { frames, operands })
    }

    // Executes all of the instructions on the two stacks, in their order.
    pub(crate) fn execute_all<'c>(
        &self,
        code: &[Instruction<'c>],
        stacks: &mut Stacks<'c, M>,
    ) -> Result<(), M::Stop>
        requires { CanGoOn M.located M.stand M.content self.now.text.now (M.content self.now.root.now) code.now stacks.old }
        ensures { OnOk result (ExecutesAll M.located M.stand M.content self.now.text.now (M.content self.now.root.now) code.now stacks.old stacks.new) }
    {
        let mut at = 0;
        while at < code.len() {
            at = self.execute_next(code, at, stacks)?;
        }
        Ok(())
    }

    // The candidates at which a condition holds, decided for all of them at once.
    pub(crate) fn keep_passing_candidates(
        &self,
        condition: &[Instruction<'_>],
        candidates: Found<M>,
    ) -> Result<Found<M>, M::Stop>
        requires is { (f : Condition) × CodesCondition condition.now f }
        requires there { (cs : List Location) × ShowsFound M.located M.stand M.content (M.content self.now.root.now) (for_all cs) candidates }
        ensures { IfOk result (λ found. (f : Condition) (cs : List Location) → CodesCondition condition.now f → ShowsFound M.located M.stand M.content (M.content self.now.root.now) (for_all cs) candidates
            → ShowsFound M.located M.stand M.content (M.content self.now.root.now) (for_all (filter (λ l. holds self.now.text.now (M.content self.now.root.now) f l) cs)) found) }
    {
        equal_locations_are_same();
        locations_once_in_order_ascend();
        steps_ignore_order_and_repeats();
        if !self.by_sets {
            return self.execute_at_candidates(condition, candidates);
        }
        self.root.value_is_document();
        topmost_descend_to_same_set();
        dropping_repeats_keeps_the_set();
        let code = condition_by_sets(self.alloc, condition)?;
        self.execute_at_candidates(code.as_slice(), candidates)
    }

    // Executes instructions that lead from the candidates of a filter to those of them that pass.
    fn execute_at_candidates(
        &self,
        code: &[Instruction<'_>],
        candidates: Found<M>,
    ) -> Result<Found<M>, M::Stop>
        requires { (cs : List Location) × (ks : List Location) × ShowsFound M.located M.stand M.content (M.content self.now.root.now) (for_all cs) candidates × Decides self.now.text.now (M.content self.now.root.now) code.now cs ks }
        ensures { IfOk result (λ found. (cs ks : List Location) → ShowsFound M.located M.stand M.content (M.content self.now.root.now) (for_all cs) candidates → Decides self.now.text.now (M.content self.now.root.now) code.now cs ks
            → ShowsFound M.located M.stand M.content (M.content self.now.root.now) (for_all ks) found) }
    {
        let mut stacks = self.stacks_at_start()?;
        push_top(&mut stacks.frames, candidates)?;
        self.execute_all(code, &mut stacks)?;
        Ok(pop_marks(&mut stacks.operands))
    }

    // What a path selects, by sets, from its instructions: each location once, in document order.
    pub(crate) fn select_set(&self, code: &[Instruction<'_>]) -> Result<Vec<M>, M::Stop>
        requires { (p : Path) × CodesPath code.now p }
        ensures { IfOk result (λ found. (p : Path) → CodesPath code.now p → AreASetAt M.located M.stand M.content (M.content self.now.root.now) (sel self.now.text.now (M.content self.now.root.now) p) found.items) }
    {
        equal_locations_are_same();
        locations_once_in_order_ascend();
        steps_ignore_order_and_repeats();
        self.root.value_is_document();
        topmost_descend_to_same_set();
        dropping_repeats_keeps_the_set();
        let code = instructions_by_sets(self.alloc, code)?;
        let mut stacks = self.stacks_at_start()?;
        self.execute_all(code.as_slice(), &mut stacks)?;
        Ok(pop_marks(&mut stacks.operands).pairs.marks)
    }

    // Executes the instruction at an index, and answers the index of the next one. A path from `@` that begins with a
    // name is looked up at once, with no list of where it begins.
    fn execute_next<'c>(
        &self,
        code: &[Instruction<'c>],
        at: usize,
        stacks: &mut Stacks<'c, M>,
    ) -> Result<usize, M::Stop>
        requires some { at < length code.now }
        requires can { CanGoOn M.located M.stand M.content self.now.text.now (M.content self.now.root.now) (drop at code.now) stacks.old }
        ensures { IfOk result (λ next. Advances M.located M.stand M.content self.now.text.now (M.content self.now.root.now) code.now at stacks.old next stacks.new) }
    {
        if let Some(span) = leading_name_span(&code[at..]) {
            self.start_at_member(span, stacks)?;
            return Ok(at + 2);
        }
        self.execute_instruction(code[at], stacks)?;
        Ok(at + 1)
    }
}

// The span of the name, if the instructions begin with a path from `@` whose first step, without `..`, is that name.
fn leading_name_span(left: &[Instruction<'_>]) -> Option<StrRange>
    ensures { IfSome result (BeginsWithName left.now) }
{
    match left {
        [Instruction::Start { absolute: false }, second, ..] => step_name_span(second),
        _ => None,
    }
}

// The span of the name, if the instruction is a step by one name that no `..` stands before; else None.
fn step_name_span(instruction: &Instruction<'_>) -> Option<StrRange>
    ensures { IfSome result (IsStepByName instruction.now) }
{
    match instruction {
        Instruction::Step {
            leaves: false,
            token: ParseToken::Key(span),
        } => Some(*span),
        _ => None,
    }
}
