//! Literals: `true`, `false`, numbers and quoted texts, as the sides of comparisons.

ghost use Rattle.std.specs.Prelude.{◌≡◌, ◌≤◌, length, ◌∷◌, [], is_some, Some, None, MatchResult};
ghost use Rattle.jsonpath_paths.specs.plan.Parsing.{Reads};
ghost use Rattle.jsonpath_paths.specs.plan.Wants.{Stops, StopsBehind, if_word, literal, literal_word, fraction};
ghost use Rattle.jsonpath_paths.specs.declared.parser.tree_parser.Refusal.TheVariants.{Refused};
ghost use Rattle.std.specs.Str.{str_eq_ignore_ascii_case};
ghost use Rattle.jsonpath_paths.specs.Literals.{truth_of};
ghost use Rattle.jsonpath_paths.specs.Numbers.{decimal_of};
ghost use Rattle.jsonpath_paths.specs.plan.ParsedParts.{literal_at, rest_of_number, literal_from_word};

use crate::decimal::Decimal;
use crate::parser::numbers;
use crate::parser::tree_parser::{Refusal, TreeParser};
use crate::token::tokens::{Kind, ParseToken};

impl TreeParser<'_> {
    // The number that begins with this word, which the caller has taken: the word alone, or, where a point is next,
    // with the point and the digits behind it, which are taken here. Refused where they spell no number in range.
    fn parse_rest_of_number(&mut self, word: &str) -> Result<Decimal, Refusal>
        ensures reads { Reads (λ d. d) (rest_of_number self.old.text word.now self.old.lexemes) result self.old self.new }
        ensures stops { StopsBehind (if_word (is_some (decimal_of word.now [])) (fraction ∷ [])) result self.old self.new }
        ensures shorter { length self.new.lexemes ≤ length self.old.lexemes }
    {
        if self.take_token(Kind::Dot).is_none() {
            return parse_decimal_or_refuse(word, "");
        }
        let mut behind = self.copy_of_place();
        match behind.take_token(Kind::Key) {
            Some(span) => {
                let found = parse_decimal_or_refuse(word, behind.text_at_span(span));
                if found.is_ok() {
                    *self = behind;
                }
                found
            }
            None => Err(Refusal::Refused),
        }
    }

    // The literal that begins with this word, which is taken: `true`, `false` or a number; else it is refused.
    fn parse_literal_beginning_with_word(&mut self, word: &str) -> Result<ParseToken, Refusal>
        ensures reads { Reads (λ t. t) (literal_from_word self.old.text word.now self.old.lexemes) result self.old self.new }
        ensures stops { StopsBehind (literal_word word.now []) result self.old self.new }
        ensures shorter { length self.new.lexemes ≤ length self.old.lexemes }
    {
        if let Some(truth) = parse_bool(word) {
            return Ok(ParseToken::Bool(truth));
        }
        let found = self.parse_rest_of_number(word)?;
        Ok(ParseToken::Number(found))
    }

    // Takes a literal, and answers its token: `true`, `false`, a number or a quoted text.
    #[tactic(auto, unfolding(crate::specs::plan::ParsedParts::literal_at))]
    pub(crate) fn parse_literal(&mut self) -> Result<ParseToken, Refusal>
        ensures reads { Reads (λ t. t) (literal_at self.old.text self.old.lexemes) result self.old self.new }
        ensures stops { Stops (literal ∷ []) result self.old self.new }
        ensures shorter { length self.new.lexemes ≤ length self.old.lexemes }
    {
        let mut behind = self.copy_of_place();
        if let Some(span) = behind.take_token(Kind::Key) {
            let word = behind.text_at_span(span);
            let found = behind.parse_literal_beginning_with_word(word);
            if found.is_ok() || numbers::parse_decimal(word, "").is_some() {
                *self = behind;
            }
            return found;
        }
        let span = self.take_quoted_text()?;
        Ok(ParseToken::Key(span))
    }
}

// The number with this whole part and these digits behind the point, if any. Refused where it is out of range.
fn parse_decimal_or_refuse(whole: &str, fraction: &str) -> Result<Decimal, Refusal>
    ensures { MatchResult result (λ d. decimal_of whole.now fraction.now ≡ Some d) (λ e. (e ≡ Refused) × (decimal_of whole.now fraction.now ≡ None)) }
{
    match numbers::parse_decimal(whole, fraction) {
        Some(found) => Ok(found),
        None => Err(Refusal::Refused),
    }
}

// Whether two words are equal but for the case of their ASCII letters.
fn are_equal_ignoring_case(word: &str, other: &str) -> bool
    ensures { result ≡ str_eq_ignore_ascii_case word.now other.now }
{
    word.eq_ignore_ascii_case(other)
}

// The truth that a word spells, as `true` or `false` in letters of any case. `None` for any other word.
#[tactic(auto, unfolding(crate::specs::Literals::truth_of))]
fn parse_bool(word: &str) -> Option<bool>
    ensures { result ≡ truth_of word.now }
{
    if are_equal_ignoring_case(word, "true") {
        return Some(true);
    }
    if are_equal_ignoring_case(word, "false") {
        return Some(false);
    }
    None
}
