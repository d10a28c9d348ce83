//! Filters' conditions: connectives, comparisons and their terms. Each condition and term is put on the heap by its own
//! call, so that a parser level takes little stack. `levels`: how many nested conditions may still be opened.

ghost use Rattle.std.specs.Prelude.{◌≡◌, ◌≤◌, length, option_map, MatchResult, false};
ghost use Rattle.std.specs.Prelude.{◌∷◌, []};
ghost use Rattle.jsonpath_paths.specs.plan.Parsing.{Reads};
ghost use Rattle.jsonpath_paths.specs.plan.Wants.{Stops, StopsBefore, StopsDeeper, condition, part, steps as steps_wanted, candidate_tail, blanks, tail, sign, term, literal};
ghost use Rattle.jsonpath_paths.specs.tree.View.{steps_of_list, condition_of, term_of};
ghost use Rattle.jsonpath_paths.specs.plan.ParsedParts.{condition_by, condition_at, part_at, comparison_or_lone_at, candidate_condition_at, comparison_at, term_at, rest_of_comparison, literal_at};
ghost use Rattle.jsonpath_paths.specs.tree.Tree.{path, at_path, literal as tree_literal, lone as tree_lone, join, compare};
ghost use Rattle.jsonpath_paths.specs.declared.parser.tree_parser.Refusal.TheVariants.{OutOfMemory};

use crate::parser::tree_parser::{Refusal, TreeParser};
use crate::token::tokens::{FilterToken, Kind};
use crate::tree::parser_node::{Condition, ParserStep, Term, node_of_steps};
use std::alloc::Global;

impl TreeParser<'_> {
    // Takes a condition up to and with its closing parenthesis, one level deeper: behind an opening parenthesis, or,
    // behind `&&` or `||`, what is left up to the parenthesis that closes the whole. Refused with no `levels` left.
    #[cycle(nested)]
    #[tactic(auto, using(crate::proofs::parser::LevelLemmas::condition_below))]
    pub(crate) fn parse_condition_one_level_deeper(
        &mut self,
        levels: usize,
    ) -> Result<Box<Condition>, Refusal>
        ensures reads { Reads (λ b. condition_of b.value) (condition_at self.old.text levels self.old.lexemes) result self.old self.new }
        ensures stops { StopsDeeper levels result self.old self.new }
        ensures shorter { length self.new.lexemes ≤ length self.old.lexemes }
    {
        if levels == 0 {
            return Err(Refusal::Refused);
        }
        self.parse_condition_and_closing_parenthesis(levels - 1)
    }

    // Takes a condition up to and with its closing parenthesis. `&&` and `||` group to the right.
    #[cycle(nested)]
    #[tactic(auto, unfolding(crate::specs::plan::ParsedParts::condition_by))]
    fn parse_condition_and_closing_parenthesis(
        &mut self,
        levels: usize,
    ) -> Result<Box<Condition>, Refusal>
        ensures reads { Reads (λ b. condition_of b.value) (condition_by self.old.text (condition_at self.old.text levels) self.old.lexemes) result self.old self.new }
        ensures stops { Stops (condition levels ∷ []) result self.old self.new }
        ensures shorter { length self.new.lexemes ≤ length self.old.lexemes }
    {
        self.skip_blanks();
        let first = self.parse_first_part_of_condition(levels)?;
        self.skip_blanks();
        if self.take_token(Kind::CloseParenthesis).is_some() {
            return Ok(first);
        }
        let front = self.copy_of_place();
        let Some(op) = self.take_connective_sign() else {
            drop_condition_out_of_line(first);
            return Err(Refusal::Refused);
        };
        let second = match self.parse_condition_one_level_deeper(levels) {
            Ok(second) => second,
            Err(fault) => {
                if levels == 0 {
                    *self = front;
                }
                drop_condition_out_of_line(first);
                return Err(fault);
            }
        };
        boxed_join(self.alloc, op, first, second)
    }

    // Takes the first part of a condition, which is all of it where no `&&` or `||` follows: a condition in
    // parentheses, a path from the candidate, or a comparison.
    #[cycle(nested)]
    #[tactic(auto, unfolding(crate::specs::plan::ParsedParts::part_at))]
    fn parse_first_part_of_condition(&mut self, levels: usize) -> Result<Box<Condition>, Refusal>
        ensures reads { Reads (λ b. condition_of b.value) (part_at self.old.text (condition_at self.old.text levels) self.old.lexemes) result self.old self.new }
        ensures stops { StopsBefore (part levels ∷ []) (blanks ∷ tail levels ∷ []) result self.old self.new }
        ensures shorter { length self.new.lexemes ≤ length self.old.lexemes }
    {
        let front = self.copy_of_place();
        if self.take_token(Kind::OpenParenthesis).is_some() {
            let inside = self.parse_condition_one_level_deeper(levels);
            if inside.is_err() && levels == 0 {
                *self = front;
            }
            return inside;
        }
        if self.take_token(Kind::At).is_some() {
            return self.parse_candidate_path_condition(levels);
        }
        self.parse_whole_comparison(levels)
    }

    // Takes the condition behind an `@`: that this path reaches something, or a comparison that begins with it.
    #[cycle(nested)]
    #[inline(never)]
    fn parse_candidate_path_condition(&mut self, levels: usize) -> Result<Box<Condition>, Refusal>
        ensures reads { Reads (λ b. condition_of b.value) (candidate_condition_at self.old.text (condition_at self.old.text levels) self.old.lexemes) result self.old self.new }
        ensures stops { StopsBefore (steps_wanted levels ∷ candidate_tail levels ∷ []) (blanks ∷ tail levels ∷ []) result self.old self.new }
        ensures shorter { length self.new.lexemes ≤ length self.old.lexemes }
    {
        let steps = self.parse_steps(levels)?;
        self.parse_comparison_or_existence_test(levels, steps)
    }

    // Makes these steps from the candidate a condition: a comparison if its sign is next, else an existence test.
    #[cycle(nested)]
    #[inline(never)]
    fn parse_comparison_or_existence_test(
        &mut self,
        levels: usize,
        steps: Vec<ParserStep>,
    ) -> Result<Box<Condition>, Refusal>
        ensures reads { Reads (λ b. condition_of b.value) (comparison_or_lone_at self.old.text (condition_at self.old.text levels) (steps_of_list steps.items) self.old.lexemes) result self.old self.new }
        ensures stops { StopsBefore (candidate_tail levels ∷ []) (blanks ∷ tail levels ∷ []) result self.old self.new }
        ensures shorter { length self.new.lexemes ≤ length self.old.lexemes }
    {
        match self.parse_comparison_sign_behind_blanks() {
            Some(op) => {
                let first = boxed_path_term(self.alloc, false, steps)?;
                self.parse_rest_of_comparison(levels, first, op)
            }
            None => boxed_existence_test(self.alloc, steps),
        }
    }

    // Takes a comparison with both its sides. The left one is a literal or a path from the root: `@` was tried before.
    #[cycle(nested)]
    #[inline(never)]
    fn parse_whole_comparison(&mut self, levels: usize) -> Result<Box<Condition>, Refusal>
        ensures reads { Reads (λ b. condition_of b.value) (comparison_at self.old.text (condition_at self.old.text levels) self.old.lexemes) result self.old self.new }
        ensures stops { Stops (term levels ∷ blanks ∷ sign ∷ blanks ∷ term levels ∷ []) result self.old self.new }
        ensures shorter { length self.new.lexemes ≤ length self.old.lexemes }
    {
        let first = self.parse_term(levels)?;
        match self.parse_comparison_sign_behind_blanks() {
            Some(op) => self.parse_rest_of_comparison(levels, first, op),
            None => {
                drop_term_out_of_line(first);
                self.skip_blanks();
                Err(Refusal::Refused)
            }
        }
    }

    // Takes the right side of a comparison, and answers the comparison of `first`, the left side, with it.
    #[cycle(nested)]
    fn parse_rest_of_comparison(
        &mut self,
        levels: usize,
        first: Box<Term>,
        op: FilterToken,
    ) -> Result<Box<Condition>, Refusal>
        ensures reads { Reads (λ b. condition_of b.value) (rest_of_comparison self.old.text (condition_at self.old.text levels) (term_of first.value) (op, self.old.lexemes)) result self.old self.new }
        ensures stops { Stops (blanks ∷ term levels ∷ []) result self.old self.new }
        ensures shorter { length self.new.lexemes ≤ length self.old.lexemes }
    {
        self.skip_blanks();
        let second = match self.parse_term(levels) {
            Ok(second) => second,
            Err(fault) => {
                drop_term_out_of_line(first);
                return Err(fault);
            }
        };
        boxed_comparison(self.alloc, first, op, second)
    }

    // Takes one side of a comparison: a path from the candidate or the root, or a literal.
    #[cycle(nested)]
    #[tactic(auto, unfolding(crate::specs::plan::ParsedParts::term_at))]
    fn parse_term(&mut self, levels: usize) -> Result<Box<Term>, Refusal>
        ensures reads { Reads (λ b. term_of b.value) (term_at self.old.text (condition_at self.old.text levels) self.old.lexemes) result self.old self.new }
        ensures stops { Stops (term levels ∷ []) result self.old self.new }
        ensures shorter { length self.new.lexemes ≤ length self.old.lexemes }
    {
        if self.take_token(Kind::At).is_some() {
            let steps = self.parse_steps(levels)?;
            let path = boxed_path_term(self.alloc, false, steps)?;
            return Ok(path);
        }
        if self.take_token(Kind::Absolute).is_some() {
            let steps = self.parse_steps(levels)?;
            let root = boxed_path_term(self.alloc, true, steps)?;
            return Ok(root);
        }
        self.parse_boxed_literal_term()
    }

    // Takes a literal as a side of a comparison, and puts it on the heap.
    #[inline(never)]
    fn parse_boxed_literal_term(&mut self) -> Result<Box<Term>, Refusal>
        ensures reads { Reads (λ b. term_of b.value) (option_map (λ r. (tree_literal r.0, r.1)) (literal_at self.old.text self.old.lexemes)) result self.old self.new }
        ensures stops { Stops (literal ∷ []) result self.old self.new }
        ensures shorter { length self.new.lexemes ≤ length self.old.lexemes }
    {
        let token = self.parse_literal()?;
        Ok(Box::new(self.alloc, Term::Literal(token))?)
    }
}

// The condition that two conditions make with `&&` or `||` between them, on the heap.
#[inline(never)]
fn boxed_join(
    alloc: Global,
    op: FilterToken,
    first: Box<Condition>,
    second: Box<Condition>,
) -> Result<Box<Condition>, Refusal>
    ensures { MatchResult result (λ b. condition_of b.value ≡ join op (condition_of first.value) (condition_of second.value)) (λ e. e ≡ OutOfMemory) }
{
    boxed_condition(alloc, Condition::Join(op, first, second))
}

// Puts a condition on the heap.
#[inline(never)]
fn boxed_condition(alloc: Global, condition: Condition) -> Result<Box<Condition>, Refusal>
    ensures { MatchResult result (λ b. b.value ≡ condition) (λ e. e ≡ OutOfMemory) }
{
    Ok(Box::new(alloc, condition)?)
}

// The condition that a path from the candidate reaches something, on the heap.
#[inline(never)]
fn boxed_existence_test(alloc: Global, steps: Vec<ParserStep>) -> Result<Box<Condition>, Refusal>
    ensures { MatchResult result (λ b. condition_of b.value ≡ tree_lone (path false (steps_of_list steps.items))) (λ e. e ≡ OutOfMemory) }
{
    let path = node_of_steps(false, steps);
    boxed_condition(alloc, Condition::Lone(path))
}

// Drops a term in a call of its own: a level of the parser then keeps no room for that.
#[inline(never)]
fn drop_term_out_of_line(_term: Box<Term>) {}

// Drops a condition in a call of its own: a level of the parser then keeps no room for that.
#[inline(never)]
fn drop_condition_out_of_line(_condition: Box<Condition>) {}

// A comparison of two terms, on the heap.
#[inline(never)]
fn boxed_comparison(
    alloc: Global,
    first: Box<Term>,
    op: FilterToken,
    second: Box<Term>,
) -> Result<Box<Condition>, Refusal>
    ensures { MatchResult result (λ b. condition_of b.value ≡ compare (term_of first.value) op (term_of second.value)) (λ e. e ≡ OutOfMemory) }
{
    boxed_condition(
        alloc,
        Condition::Compare(Box::into_inner(first), op, Box::into_inner(second)),
    )
}

// A path as a side of a comparison, on the heap.
#[inline(never)]
fn boxed_path_term(
    alloc: Global,
    absolute: bool,
    steps: Vec<ParserStep>,
) -> Result<Box<Term>, Refusal>
    ensures { MatchResult result (λ b. term_of b.value ≡ at_path (path absolute (steps_of_list steps.items))) (λ e. e ≡ OutOfMemory) }
{
    let path = node_of_steps(absolute, steps);
    Ok(Box::new(alloc, Term::Path(path))?)
}
