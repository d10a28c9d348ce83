//! Steps, and the brackets of a step. `levels` says how many nested conditions of filters may still be opened.

ghost use Rattle.std.specs.Prelude.{◌≡◌, ◌≤◌, ◌<◌, ◌++◌, ◌∷◌, [], length, option_map, IfOk, MatchResult};
ghost use Rattle.jsonpath_paths.specs.plan.Parsing.{Reads};
ghost use Rattle.jsonpath_paths.specs.plan.Wants.{Stops, steps, step, word, inner, close, plain};
ghost use Rattle.jsonpath_paths.specs.declared.tree.parser_node.ParserStep.{ParserStep};
ghost use Rattle.jsonpath_paths.specs.tree.View.{steps_of_list, inner_of, condition_of};
ghost use Rattle.jsonpath_paths.specs.plan.ParsedParts.{plain_at, steps_at, step_at, array_at, word_step, inner_at, condition_at};
ghost use Rattle.jsonpath_paths.specs.tree.Tree.{filter as tree_filter, plain as tree_plain};
ghost use Rattle.jsonpath_paths.specs.declared.parser.tree_parser.Refusal.TheVariants.{OutOfMemory};

use crate::parser::tree_parser::{Refusal, TreeParser};
use crate::token::tokens::{Kind, ParseToken};
use crate::tree::parser_node::{Condition, Inner, ParserStep};

impl TreeParser<'_> {
    // Takes as many steps as follow.
    #[cycle(nested)]
    pub(crate) fn parse_steps(&mut self, levels: usize) -> Result<Vec<ParserStep>, Refusal>
        ensures reads { Reads (λ v. steps_of_list v.items) (steps_at self.old.text (condition_at self.old.text levels) self.old.lexemes) result self.old self.new }
        ensures stops { Stops (steps levels ∷ []) result self.old self.new }
        ensures shorter { length self.new.lexemes ≤ length self.old.lexemes }
    {
        let mut found: Vec<ParserStep> = Vec::new(self.alloc);
        while self.is_step_next() {
            let last = found.len();
            push_placeholder_step(&mut found)?;
            match self.parse_step(levels, &mut found[last]) {
                Ok(()) => {}
                Err(fault) => return Err(fault),
            }
        }
        Ok(found)
    }

    // Takes one step, `.word`, `..word`, `[inner]`, `.[inner]` or `..[inner]`, and puts it into `next`.
    #[cycle(nested)]
    #[tactic(auto, unfolding(crate::specs::plan::ParsedParts::step_at))]
    fn parse_step(&mut self, levels: usize, next: &mut ParserStep) -> Result<(), Refusal>
        ensures reads { Reads (λ _. (next.new.leaves, next.new.bracket, inner_of next.new.inner)) (step_at self.old.text (condition_at self.old.text levels) self.old.lexemes) result self.old self.new }
        ensures stops { Stops (step levels ∷ []) result self.old self.new }
        ensures shorter { length self.new.lexemes ≤ length self.old.lexemes }
        ensures taken { IfOk result (λ _. length self.new.lexemes < length self.old.lexemes) }
    {
        if self.take_token(Kind::OpenArray).is_some() {
            self.skip_blanks();
            return self.parse_rest_of_brackets(levels, false, next);
        }
        if self.take_token(Kind::Dot).is_none() {
            return Err(Refusal::Refused);
        }
        let leaves = self.take_token(Kind::Dot).is_some();
        if self.take_token(Kind::OpenArray).is_some() {
            if leaves {
                self.skip_blanks();
            }
            return self.parse_rest_of_brackets(levels, leaves, next);
        }
        self.parse_word_step(leaves, next)
    }

    // Takes the word or `*` behind the dots of a step, and puts the step into `next`. `leaves`: there were two dots.
    #[inline(never)]
    fn parse_word_step(&mut self, leaves: bool, next: &mut ParserStep) -> Result<(), Refusal>
        ensures reads { Reads (λ _. (next.new.leaves, next.new.bracket, inner_of next.new.inner)) (word_step self.old.text (condition_at self.old.text 0) leaves self.old.lexemes) result self.old self.new }
        ensures stops { Stops (word ∷ []) result self.old self.new }
        ensures shorter { length self.new.lexemes ≤ length self.old.lexemes }
    {
        let token = self.take_word_or_wildcard()?;
        *next = ParserStep {
            leaves,
            bracket: false,
            inner: Inner::Token(token),
        };
        Ok(())
    }

    // Takes what stands behind the opening bracket of a step, with the closing one, and puts the step into `next`.
    // `leaves` says whether two dots stand before the bracket.
    #[cycle(nested)]
    #[tactic(auto, unfolding(crate::specs::plan::ParsedParts::array_at))]
    fn parse_rest_of_brackets(
        &mut self,
        levels: usize,
        leaves: bool,
        next: &mut ParserStep,
    ) -> Result<(), Refusal>
        ensures reads { Reads (λ _. (next.new.leaves, next.new.bracket, inner_of next.new.inner)) (array_at self.old.text (condition_at self.old.text levels) leaves self.old.lexemes) result self.old self.new }
        ensures stops { Stops (inner levels ∷ close ∷ []) result self.old self.new }
        ensures shorter { length self.new.lexemes ≤ length self.old.lexemes }
    {
        self.parse_bracket_content(levels, &mut next.inner)?;
        if self.take_token(Kind::CloseArray).is_none() {
            return Err(Refusal::Refused);
        }
        next.leaves = leaves;
        next.bracket = true;
        Ok(())
    }

    // Takes what stands in the brackets of a step, a filter `?(condition)` or what is none, and puts it into the step.
    #[cycle(nested)]
    #[tactic(auto, unfolding(crate::specs::plan::ParsedParts::inner_at))]
    fn parse_bracket_content(&mut self, levels: usize, into: &mut Inner) -> Result<(), Refusal>
        ensures reads { Reads (λ _. inner_of into.new) (inner_at self.old.text (condition_at self.old.text levels) self.old.lexemes) result self.old self.new }
        ensures stops { Stops (inner levels ∷ []) result self.old self.new }
        ensures shorter { length self.new.lexemes ≤ length self.old.lexemes }
    {
        let front = self.copy_of_place();
        if self.take_token(Kind::Question).is_none() {
            return self.parse_plain_token_into_step(into);
        }
        if self.take_token(Kind::OpenParenthesis).is_none() {
            if levels == 0 {
                *self = front;
            }
            return Err(Refusal::Refused);
        }
        let condition = match self.parse_condition_one_level_deeper(levels) {
            Ok(condition) => condition,
            Err(fault) => {
                if levels == 0 {
                    *self = front;
                }
                return Err(fault);
            }
        };
        self.skip_blanks();
        put_filter(into, condition);
        Ok(())
    }

    // Takes what stands in brackets and is no filter, and puts its token into the step.
    #[inline(never)]
    fn parse_plain_token_into_step(&mut self, into: &mut Inner) -> Result<(), Refusal>
        ensures reads { Reads (λ _. inner_of into.new) (option_map (λ r. (tree_plain r.0, r.1)) (plain_at self.old.text self.old.lexemes)) result self.old self.new }
        ensures stops { Stops (plain ∷ []) result self.old self.new }
        ensures shorter { length self.new.lexemes ≤ length self.old.lexemes }
    {
        let token = self.parse_plain_bracket_token()?;
        *into = Inner::Token(token);
        Ok(())
    }
}

// Adds a step that is filled in later: a level of the parser then holds no step of its own.
#[inline(never)]
fn push_placeholder_step(found: &mut Vec<ParserStep>) -> Result<(), Refusal>
    ensures { MatchResult result (λ _. (blank : ParserStep) × (found.new.items ≡ found.old.items ++ blank ∷ [])) (λ e. e ≡ OutOfMemory) }
{
    found.push(ParserStep {
        leaves: false,
        bracket: false,
        inner: Inner::Token(ParseToken::All),
    })?;
    Ok(())
}

// Makes the inner part of a step a filter with this condition.
#[inline(never)]
fn put_filter(into: &mut Inner, condition: Box<Condition>)
    ensures { inner_of into.new ≡ tree_filter (condition_of condition.value) }
{
    *into = Inner::Filter(Box::into_inner(condition));
}
