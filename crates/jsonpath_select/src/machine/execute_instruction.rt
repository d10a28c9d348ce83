//! How the machine executes one instruction, for all candidates at once. As in `Instruction`, `leaves` means that
//! `..` comes before a step or a filter, and `deep` that a filter uses a relative query with at least one segment.

ghost use Rattle.std.specs.Prelude.{OnOk};
ghost use Rattle.jsonpath_nodes.specs.document.Document.{Document};
ghost use Rattle.jsonpath_select.specs.plan.Code as code;
ghost use Rattle.jsonpath_select.specs.plan.Shown.{led};
ghost use Rattle.jsonpath_select.specs.plan.Stack.{EndsInOne, CanExecute, CanLeadTop, Executes, LeadsTop, Reaches};
ghost use Rattle.jsonpath_select.specs.plan.Ordered.{instruction_of};

use crate::comparison::comparer::Comparer;
use crate::machine::instruction::Instruction;
use crate::machine::machine::Machine;
use crate::machine::stacks::{Stacks, pop_marks, pop_top, push_top};
use crate::step::names::name_at;
use crate::tagged::conditions::{condition_tags, join_tags};
use crate::tagged::kept_marks::keep_marks_at_indexes;
use crate::tagged::marks::Found;
use crate::tagged::moves::{Move, candidates_of_filter, lead_marks_of_candidates};
use crate::tagged::operand::Operand;
use crate::tagged::shared_lists::{distinct_marks, list_count_for_candidates};
use crate::tagged::start_of_paths::{members_named, start_of_path};
use jsonpath_nodes::{Carried, NoMemory};
use jsonpath_paths::{FilterToken, ParseToken, StrRange};

impl<'r, 't, M: Carried> Machine<'r, 't, M> {
    // Executes one instruction on the two stacks.
    pub(crate) fn execute_instruction<'c>(
        &self,
        instruction: Instruction<'c>,
        stacks: &mut Stacks<'c, M>,
    ) -> Result<(), M::Stop>
        requires { CanExecute M.located M.stand M.content self.now.text.now (instruction_of instruction) stacks.old }
        ensures { OnOk result (Executes M.located M.stand M.content self.now.text.now (M.content self.now.root.now) (instruction_of instruction.entry) stacks.old stacks.new) }
    {
        match instruction {
            Instruction::Start { absolute } => Ok(self.start_path(absolute, stacks)?),
            Instruction::Step { leaves, token } => self.take_plain_step(leaves, token, stacks),
            Instruction::Topmost => self.lead_top(Move::Topmost, stacks),
            Instruction::InOrder => self.lead_top(Move::InOrder, stacks),
            Instruction::Distinct => self.put_candidates_aside(stacks),
            Instruction::PutBack => self.put_back(stacks),
            Instruction::Enter { leaves, deep } => self.begin_filter(leaves, deep, stacks),
            Instruction::Leave => Ok(self.end_filter(stacks)?),
            Instruction::Constant(token) => Ok(push_top(
                &mut stacks.operands,
                Operand::Literal(token),
            )?),
            Instruction::Compares(op) => self.compare_two_operands(op, stacks),
            Instruction::Joins(op) => Ok(self.join_two_conditions(op, stacks)?),
        }
    }

    // Puts on the operands where a path begins: at the root, or at each candidate of the innermost filter.
    fn start_path(&self, absolute: bool, stacks: &mut Stacks<'_, M>) -> Result<(), NoMemory>
        requires { CanExecute M.located M.stand M.content self.now.text.now (code.start absolute) stacks.old }
        ensures { OnOk result (Executes M.located M.stand M.content self.now.text.now (M.content self.now.root.now) (code.start absolute) stacks.old stacks.new) }
    {
        let found = start_of_path(
            self.alloc,
            self.root,
            absolute,
            &stacks.innermost_candidates().pairs,
        )?;
        stacks.operands.push(Operand::Marks(found))?;
        Ok(())
    }

    // Puts on the operands where a path from `@` leads by its first step: each candidate's member of the name at a span.
    pub(crate) fn start_at_member(
        &self,
        span: StrRange,
        stacks: &mut Stacks<'_, M>,
    ) -> Result<(), NoMemory>
        requires { EndsInOne stacks.old.frames.items }
        ensures { OnOk result ((doc : Document) → Reaches M.located M.stand M.content self.now.text.now doc span stacks.old stacks.new) }
    {
        let key = name_at(self.alloc, self.text, span)?;
        let candidates = stacks.innermost_candidates().pairs.marks.as_slice();
        let pairs = members_named(self.alloc, candidates, key.as_str())?;
        let found = Found {
            is_shared: false,
            pairs,
        };
        stacks.operands.push(Operand::Marks(found))?;
        Ok(())
    }

    // Leads the path on top of the operands one plain step on. One name, with no `..` before it, is read once for all.
    fn take_plain_step(
        &self,
        leaves: bool,
        token: &ParseToken,
        stacks: &mut Stacks<'_, M>,
    ) -> Result<(), M::Stop>
        requires { CanExecute M.located M.stand M.content self.now.text.now (code.plain_step leaves token.now) stacks.old }
        ensures { OnOk result ((doc : Document) → Executes M.located M.stand M.content self.now.text.now doc (code.plain_step leaves token.now) stacks.old stacks.new) }
    {
        match (leaves, token) {
            (false, ParseToken::Key(span)) => {
                let key = name_at(self.alloc, self.text, *span)?;
                self.lead_top(Move::Member(key.as_str()), stacks)
            }
            _ => {
                let by = Move::Step {
                    leaves,
                    token,
                    text: self.text,
                };
                self.lead_top(by, stacks)
            }
        }
    }

    // Moves what the path on top of the operands has found, for each candidate by itself.
    fn lead_top(&self, by: Move<'_>, stacks: &mut Stacks<'_, M>) -> Result<(), M::Stop>
        requires { CanLeadTop M.located M.stand M.content self.now.text.now stacks.old }
        ensures { OnOk result ((doc : Document) → LeadsTop M.located M.stand M.content self.now.text.now doc (led doc by.entry) stacks.old stacks.new) }
    {
        let Found { is_shared, pairs } = pop_marks(&mut stacks.operands);
        let lists = list_count_for_candidates(is_shared, stacks.candidate_count());
        let pairs = lead_marks_of_candidates(self.alloc, by, lists, pairs)?;
        let found = Operand::Marks(Found { is_shared, pairs });
        Ok(push_top(&mut stacks.operands, found)?)
    }

    // Puts the candidates of the innermost filter on the operands, and in their place each location of them once.
    fn put_candidates_aside(&self, stacks: &mut Stacks<'_, M>) -> Result<(), M::Stop>
        requires { CanExecute M.located M.stand M.content self.now.text.now code.distinct stacks.old }
        ensures { OnOk result ((doc : Document) → Executes M.located M.stand M.content self.now.text.now doc code.distinct stacks.old stacks.new) }
    {
        let candidates = pop_top(&mut stacks.frames);
        let distinct = distinct_marks(self.alloc, &candidates.pairs)?;
        push_top(&mut stacks.frames, distinct)?;
        Ok(push_top(&mut stacks.operands, Operand::Marks(candidates))?)
    }

    // Puts on the operands, in place of the two on top, those of the candidates put aside whose location has passed.
    fn put_back(&self, stacks: &mut Stacks<'_, M>) -> Result<(), M::Stop>
        requires { CanExecute M.located M.stand M.content self.now.text.now code.put_back stacks.old }
        ensures { OnOk result ((doc : Document) → Executes M.located M.stand M.content self.now.text.now doc code.put_back stacks.old stacks.new) }
    {
        let passed = pop_marks(&mut stacks.operands);
        let Found { is_shared, pairs } = pop_marks(&mut stacks.operands);
        let marks = pairs.marks.as_slice();
        let indexes = M::indexes_standing_among(self.alloc, marks, passed.pairs.marks.as_slice())?;
        let pairs = keep_marks_at_indexes(self.alloc, pairs, indexes.as_slice())?;
        let found = Operand::Marks(Found { is_shared, pairs });
        Ok(push_top(&mut stacks.operands, found)?)
    }

    // Opens a filter: its candidates, found from the marks on top of the operands, are put on the frames.
    fn begin_filter(
        &self,
        leaves: bool,
        deep: bool,
        stacks: &mut Stacks<'_, M>,
    ) -> Result<(), M::Stop>
        requires { CanExecute M.located M.stand M.content self.now.text.now (code.enter leaves deep) stacks.old }
        ensures { OnOk result ((doc : Document) → Executes M.located M.stand M.content self.now.text.now doc (code.enter leaves deep) stacks.old stacks.new) }
    {
        let Found { is_shared, pairs } = pop_marks(&mut stacks.operands);
        let lists = list_count_for_candidates(is_shared, stacks.candidate_count());
        let pairs = candidates_of_filter(self.alloc, leaves, deep, lists, pairs)?;
        Ok(push_top(&mut stacks.frames, Found { is_shared, pairs })?)
    }

    // Closes the innermost filter: its candidates that pass the condition on top of the operands are put there.
    fn end_filter(&self, stacks: &mut Stacks<'_, M>) -> Result<(), NoMemory>
        requires { CanExecute M.located M.stand M.content self.now.text.now code.leave stacks.old }
        ensures { OnOk result ((doc : Document) → Executes M.located M.stand M.content self.now.text.now doc code.leave stacks.old stacks.new) }
    {
        let condition = pop_top(&mut stacks.operands);
        let Found { is_shared, pairs } = pop_top(&mut stacks.frames);
        let tags = condition_tags(self.alloc, pairs.marks.as_slice().len(), condition)?;
        let pairs = keep_marks_at_indexes(self.alloc, pairs, tags.as_slice())?;
        stacks
            .operands
            .push(Operand::Marks(Found { is_shared, pairs }))?;
        Ok(())
    }

    // Puts on the operands, in place of the two on top, the tags of the candidates at which the comparison holds.
    fn compare_two_operands(
        &self,
        op: FilterToken,
        stacks: &mut Stacks<'_, M>,
    ) -> Result<(), M::Stop>
        requires { CanExecute M.located M.stand M.content self.now.text.now (code.compares op) stacks.old }
        ensures { OnOk result ((doc : Document) → Executes M.located M.stand M.content self.now.text.now doc (code.compares op) stacks.old stacks.new) }
    {
        let right = pop_top(&mut stacks.operands);
        let left = pop_top(&mut stacks.operands);
        let comparison = Comparer {
            alloc: self.alloc,
            op,
            text: self.text,
            count: stacks.candidate_count(),
        };
        let tags = comparison.tags_where_comparison_holds(self.root, left, right)?;
        Ok(push_top(&mut stacks.operands, Operand::Tags(tags))?)
    }

    // Puts on the operands, in place of the two conditions on top, the tags at which their `&&` or `||` holds.
    fn join_two_conditions(
        &self,
        op: FilterToken,
        stacks: &mut Stacks<'_, M>,
    ) -> Result<(), NoMemory>
        requires { CanExecute M.located M.stand M.content self.now.text.now (code.joins op) stacks.old }
        ensures { OnOk result ((doc : Document) → Executes M.located M.stand M.content self.now.text.now doc (code.joins op) stacks.old stacks.new) }
    {
        let right = pop_top(&mut stacks.operands);
        let left = pop_top(&mut stacks.operands);
        let count = stacks.candidate_count();
        let lefts = condition_tags(self.alloc, count, left)?;
        let rights = condition_tags(self.alloc, count, right)?;
        let tags = join_tags(self.alloc, op, count, lefts.as_slice(), rights.as_slice())?;
        stacks.operands.push(Operand::Tags(tags))?;
        Ok(())
    }
}
