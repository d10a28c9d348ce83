//! Parses what is in brackets and no filter (`steps.rt` has filters): names, indexes, lists of both, slices and `*`.

ghost use Rattle.std.specs.Prelude.{◌≤◌, length, Some};
ghost use Rattle.jsonpath_paths.specs.plan.Parsing.{Reads};
ghost use Rattle.jsonpath_paths.specs.plan.Wants.{Stops, plain, indexes_range_or_names as indexes_range_or_names_wanted, range_or_names as range_or_names_wanted, after_first_index, index, more_indexes, range_to, range_by, range_step, after_name, quoted, more_names, blanks};
ghost use Rattle.std.specs.Prelude.{◌∷◌, []};
ghost use Rattle.jsonpath_paths.specs.plan.ParsedParts.{plain_at, range_bound_at, optional_range_step, range_step_part_at, rest_of_range, rest_of_union, index_union_or_range, name_or_name_list, indexes_range_or_names, range_or_names, quoted_names_at, rest_of_name_list, with_more_indexes, with_more_names};

use crate::decimal::Decimal;
use crate::parser::numbers;
use crate::parser::tree_parser::{Refusal, TreeParser};
use crate::text::str_reader::StrRange;
use crate::token::tokens::{Kind, ParseToken};
use crate::tree::items::Items;

impl TreeParser<'_> {
    // Takes a range's bound and the blanks behind it. `None` where no word is next; refused where it spells no index.
    fn parse_optional_range_bound(&mut self) -> Result<Option<i64>, Refusal>
        ensures reads { Reads (λ n. n) (range_bound_at self.old.text self.old.lexemes) result self.old self.new }
        ensures stops { Stops (range_to ∷ []) result self.old self.new }
        ensures shorter { length self.new.lexemes ≤ length self.old.lexemes }
    {
        let mut behind = self.copy_of_place();
        let Some(span) = behind.take_token(Kind::Key) else {
            return Ok(None);
        };
        match numbers::parse_index(behind.text_at_span(span)) {
            Some(n) => {
                behind.skip_blanks();
                *self = behind;
                Ok(Some(n))
            }
            None => Err(Refusal::Refused),
        }
    }

    // Takes a range's step and the blanks behind it. `None` where no word is next; refused where it spells no step.
    fn parse_optional_range_step(&mut self) -> Result<Option<u64>, Refusal>
        ensures reads { Reads (λ n. n) (optional_range_step self.old.text self.old.lexemes) result self.old self.new }
        ensures stops { Stops (range_step ∷ []) result self.old self.new }
        ensures shorter { length self.new.lexemes ≤ length self.old.lexemes }
    {
        let mut behind = self.copy_of_place();
        let Some(span) = behind.take_token(Kind::Key) else {
            return Ok(None);
        };
        match numbers::parse_range_step(behind.text_at_span(span)) {
            Some(n) => {
                behind.skip_blanks();
                *self = behind;
                Ok(Some(n))
            }
            None => Err(Refusal::Refused),
        }
    }

    // Takes the last part of a range, `:step`, `:` or nothing, and answers the step, if there is one.
    fn parse_optional_colon_and_range_step(&mut self) -> Result<Option<u64>, Refusal>
        ensures reads { Reads (λ n. n) (range_step_part_at self.old.text self.old.lexemes) result self.old self.new }
        ensures stops { Stops (range_by ∷ []) result self.old self.new }
        ensures shorter { length self.new.lexemes ≤ length self.old.lexemes }
    {
        if self.take_token(Kind::Split).is_none() {
            return Ok(None);
        }
        self.skip_blanks();
        self.parse_optional_range_step()
    }

    // Takes what is behind the first colon of a range, and answers its token, whose first bound is `from`.
    fn parse_rest_of_range(&mut self, from: Option<i64>) -> Result<ParseToken, Refusal>
        ensures reads { Reads (λ t. t) (rest_of_range self.old.text from self.old.lexemes) result self.old self.new }
        ensures stops { Stops (blanks ∷ range_to ∷ range_by ∷ []) result self.old self.new }
        ensures shorter { length self.new.lexemes ≤ length self.old.lexemes }
    {
        self.skip_blanks();
        let to = self.parse_optional_range_bound()?;
        let step = self.parse_optional_colon_and_range_step()?;
        Ok(ParseToken::Range(from, to, step))
    }

    // Takes the further indexes of a union, each behind a comma, and answers those in `found` and these behind them.
    fn parse_and_append_indexes(&mut self, mut found: Vec<i64>) -> Result<Vec<i64>, Refusal>
        ensures reads { Reads (λ v. v.items) (with_more_indexes self.old.text found.items self.old.lexemes) result self.old self.new }
        ensures stops { Stops (more_indexes ∷ []) result self.old self.new }
        ensures shorter { length self.new.lexemes ≤ length self.old.lexemes }
    {
        while self.take_token(Kind::Comma).is_some() {
            self.skip_blanks();
            let n = match self.take_index() {
                Ok(n) => n,
                Err(fault) => return Err(fault),
            };
            found.push(n)?;
        }
        self.skip_blanks();
        Ok(found)
    }

    // Takes what is behind the first comma of a union, and answers its token, which begins with `first`.
    fn parse_rest_of_union(&mut self, first: i64) -> Result<ParseToken, Refusal>
        ensures reads { Reads (λ t. t) (rest_of_union self.old.text first self.old.lexemes) result self.old self.new }
        ensures stops { Stops (blanks ∷ index ∷ more_indexes ∷ []) result self.old self.new }
        ensures shorter { length self.new.lexemes ≤ length self.old.lexemes }
    {
        self.skip_blanks();
        let second = self.take_index()?;
        let mut found = Vec::new(self.alloc);
        found.push(first)?;
        found.push(second)?;
        let all = self.parse_and_append_indexes(found)?;
        Ok(ParseToken::Union(Items::from_vec(all)))
    }

    // Takes a list's further names, each behind a comma, and answers the spans in `found` and then theirs.
    fn parse_and_append_names(&mut self, mut found: Vec<StrRange>) -> Result<Vec<StrRange>, Refusal>
        ensures reads { Reads (λ v. v.items) (with_more_names self.old.text found.items self.old.lexemes) result self.old self.new }
        ensures stops { Stops (more_names ∷ []) result self.old self.new }
        ensures shorter { length self.new.lexemes ≤ length self.old.lexemes }
    {
        while self.take_token(Kind::Comma).is_some() {
            self.skip_blanks();
            let span = match self.take_quoted_text() {
                Ok(span) => span,
                Err(fault) => return Err(fault),
            };
            self.skip_blanks();
            found.push(span)?;
        }
        Ok(found)
    }

    // Takes what is behind the first comma of a list of names, and answers its token, which begins with `first`.
    fn parse_rest_of_name_list(&mut self, first: StrRange) -> Result<ParseToken, Refusal>
        ensures reads { Reads (λ t. t) (rest_of_name_list self.old.text first self.old.lexemes) result self.old self.new }
        ensures stops { Stops (blanks ∷ quoted ∷ blanks ∷ more_names ∷ []) result self.old self.new }
        ensures shorter { length self.new.lexemes ≤ length self.old.lexemes }
    {
        self.skip_blanks();
        let second = self.take_quoted_text()?;
        self.skip_blanks();
        let mut found = Vec::new(self.alloc);
        found.push(first)?;
        found.push(second)?;
        let all = self.parse_and_append_names(found)?;
        Ok(ParseToken::Keys(Items::from_vec(all)))
    }

    // Takes what is behind the first index in brackets, and answers the token of the index alone, a union or a range.
    fn parse_behind_first_index(&mut self, n: i64) -> Result<ParseToken, Refusal>
        ensures reads { Reads (λ t. t) (index_union_or_range self.old.text n self.old.lexemes) result self.old self.new }
        ensures stops { Stops (after_first_index ∷ []) result self.old self.new }
        ensures shorter { length self.new.lexemes ≤ length self.old.lexemes }
    {
        if self.take_token(Kind::Comma).is_some() {
            return self.parse_rest_of_union(n);
        }
        if self.take_token(Kind::Split).is_some() {
            return self.parse_rest_of_range(Some(n));
        }
        Ok(ParseToken::Number(Decimal::of_i64(n)))
    }

    // Takes what is behind the first name in brackets, and answers the token of the name alone or a list of names.
    fn parse_behind_first_name(&mut self, span: StrRange) -> Result<ParseToken, Refusal>
        ensures reads { Reads (λ t. t) (name_or_name_list self.old.text span self.old.lexemes) result self.old self.new }
        ensures stops { Stops (after_name ∷ []) result self.old self.new }
        ensures shorter { length self.new.lexemes ≤ length self.old.lexemes }
    {
        if self.take_token(Kind::Comma).is_some() {
            return self.parse_rest_of_name_list(span);
        }
        self.skip_blanks();
        Ok(ParseToken::Key(span))
    }

    // Takes a quoted name, or a list of them, as it stands in brackets.
    fn parse_name_or_name_list(&mut self) -> Result<ParseToken, Refusal>
        ensures reads { Reads (λ t. t) (quoted_names_at self.old.text self.old.lexemes) result self.old self.new }
        ensures stops { Stops (quoted ∷ after_name ∷ []) result self.old self.new }
        ensures shorter { length self.new.lexemes ≤ length self.old.lexemes }
    {
        let span = self.take_quoted_text()?;
        self.parse_behind_first_name(span)
    }

    // Takes a range that has no first bound, or one quoted name or more.
    fn parse_range_or_names(&mut self) -> Result<ParseToken, Refusal>
        ensures reads { Reads (λ t. t) (range_or_names self.old.text self.old.lexemes) result self.old self.new }
        ensures stops { Stops (range_or_names_wanted ∷ []) result self.old self.new }
        ensures shorter { length self.new.lexemes ≤ length self.old.lexemes }
    {
        if self.take_token(Kind::Split).is_some() {
            return self.parse_rest_of_range(None);
        }
        self.parse_name_or_name_list()
    }

    // Takes what is in brackets and neither a filter nor `*`: one index or more, a range, or one name or more.
    fn parse_indexes_range_or_names(&mut self) -> Result<ParseToken, Refusal>
        ensures reads { Reads (λ t. t) (indexes_range_or_names self.old.text self.old.lexemes) result self.old self.new }
        ensures stops { Stops (indexes_range_or_names_wanted ∷ []) result self.old self.new }
        ensures shorter { length self.new.lexemes ≤ length self.old.lexemes }
    {
        let mut behind = self.copy_of_place();
        if let Some(span) = behind.take_token(Kind::Key) {
            return match numbers::parse_index(behind.text_at_span(span)) {
                Some(n) => {
                    behind.skip_blanks();
                    *self = behind;
                    self.parse_behind_first_index(n)
                }
                None => Err(Refusal::Refused),
            };
        }
        self.parse_range_or_names()
    }

    // Takes what stands in brackets and is no filter, and answers its token: `*`, indexes, a range or names.
    #[tactic(auto, unfolding(crate::specs::plan::ParsedParts::plain_at))]
    pub(crate) fn parse_plain_bracket_token(&mut self) -> Result<ParseToken, Refusal>
        ensures reads { Reads (λ t. t) (plain_at self.old.text self.old.lexemes) result self.old self.new }
        ensures stops { Stops (plain ∷ []) result self.old self.new }
        ensures shorter { length self.new.lexemes ≤ length self.old.lexemes }
    {
        if self.take_token(Kind::Asterisk).is_some() {
            self.skip_blanks();
            return Ok(ParseToken::All);
        }
        self.parse_indexes_range_or_names()
    }
}
