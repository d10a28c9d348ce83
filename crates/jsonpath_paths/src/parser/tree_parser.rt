//! The tree parser: its place among the tokens, and how it takes single tokens.

ghost use Rattle.std.specs.Prelude.{IsTrue, ◌↔◌, ◌≡◌, Some, None, option_map, IfNone, IfSome, [], length, ◌≤◌, ◌<◌};
ghost use Rattle.jsonpath_paths.specs.plan.Parsing.{Reads, next_token_end};
ghost use Rattle.jsonpath_paths.specs.plan.Wants.{Stops, Want, stop, word, index, quoted, blanks};
ghost use Rattle.std.specs.Prelude.{◌∷◌, List};
ghost use Rattle.jsonpath_paths.specs.plan.ParsedParts.{by_kind, begins_step, take_token, index_at, step_word_at, quoted_at, skip};
ghost use Rattle.jsonpath_paths.specs.Grammar.{comparison, connective};
ghost use Rattle.jsonpath_paths.specs.text.Characters.{bytes_at};
ghost use Rattle.jsonpath_paths.specs.text.Spans.{IsSpan, AreSpans};
ghost use Rattle.jsonpath_paths.specs.declared.parser.tree_parser.Refusal.TheVariants.{Refused};

use crate::parser::numbers;
use crate::text::str_reader::StrRange;
use crate::token::tokens::{FilterToken, Kind, Lexeme, ParseToken};
use std::alloc::{AllocError, AllocFailed, Global};
use std::marker::Model;

// Why the parser stops: no path begins with the tokens so far and the next one, or a growth of memory was refused.
#[derive(Clone, Copy)]
pub enum Refusal {
    Refused,
    OutOfMemory,
}

impl From<AllocError> for Refusal {
    ghost use Rattle.jsonpath_paths.specs.declared.parser.tree_parser.Refusal.TheVariants.{OutOfMemory};

    ghost from_gives = { λ _ e. e ≡ OutOfMemory };

    fn from(_: AllocError) -> Refusal {
        Refusal::OutOfMemory
    }
}

impl<T: Drop> From<AllocFailed<T>> for Refusal {
    ghost use Rattle.jsonpath_paths.specs.declared.parser.tree_parser.Refusal.TheVariants.{OutOfMemory};

    ghost from_gives = { λ _ e. e ≡ OutOfMemory };

    fn from(_: AllocFailed<T>) -> Refusal {
        Refusal::OutOfMemory
    }
}

// A path text, the tokens of it that are left, and the memory for the tree that they spell.
#[derive(Drop)]
pub struct TreeParser<'s> {
    pub(crate) alloc: Global,
    text: &'s str,
    lexemes: &'s [Lexeme],
}

impl<'s> Model for TreeParser<'s> {
    ghost use Rattle.jsonpath_paths.specs.plan.TokensLeft.{TokensLeft};

    ghost Value = { TokensLeft };

    ghost use Rattle.jsonpath_paths.specs.plan.Parsing.{left_of};

    ghost view = { left_of };

    ghost use Rattle.jsonpath_paths.specs.text.Spans.{AreSpans};

    ghost invariant = { λ c. AreSpans c.text.now c.lexemes.now };
}

impl<'s> TreeParser<'s> {
    // A parser at the first of these tokens.
    pub(crate) fn new(alloc: Global, text: &'s str, lexemes: &'s [Lexeme]) -> TreeParser<'s>
        requires { AreSpans text.now lexemes.now }
        ensures { result ≡ record { text = text.now; lexemes = lexemes.now } }
    {
        TreeParser {
            alloc,
            text,
            lexemes,
        }
    }

    // A copy at the same place, to look ahead with or to go back to.
    pub(crate) fn copy_of_place(&self) -> TreeParser<'s>
        ensures { result ≡ self.now }
    {
        TreeParser {
            alloc: self.alloc,
            text: self.text,
            lexemes: self.lexemes,
        }
    }

    // Takes the next token and answers its span, if it is of this kind; else nothing is taken.
    #[tactic(auto, using(crate::proofs::parser::SameKindLemmas::same_kind_is))]
    pub(crate) fn take_token(&mut self, kind: Kind) -> Option<StrRange>
        ensures value { option_map (λ s. (s, self.new.lexemes)) result ≡ take_token kind self.old.lexemes }
        ensures none { IfNone result (self.new.lexemes ≡ self.old.lexemes) }
        ensures text { self.new.text ≡ self.old.text }
        ensures span { IfSome result (λ s. IsSpan self.new.text s) }
        ensures shorter { length self.new.lexemes ≤ length self.old.lexemes }
        ensures taken { IfSome result (λ _. length self.new.lexemes < length self.old.lexemes) }
    {
        if let [first, rest @ ..] = self.lexemes {
            if first.kind == kind {
                let span = first.span;
                self.lexemes = rest;
                return Some(span);
            }
        }
        None
    }

    // The part of the text at a span.
    pub(crate) fn text_at_span(&self, span: StrRange) -> &'s str
        requires { IsSpan self.now.text span }
        ensures { result.now ≡ bytes_at self.now.text span }
    {
        &self.text[span.pos..span.pos + span.offset]
    }

    // The byte position right behind the next token. `None` where no token is left.
    pub(crate) fn next_token_end(&self) -> Option<usize>
        ensures { result ≡ next_token_end self.now.lexemes }
    {
        match self.lexemes {
            [first, ..] => Some(first.span.pos + first.span.offset),
            [] => None,
        }
    }

    // Takes a word that spells an index. Refused where none is next.
    pub(crate) fn take_index(&mut self) -> Result<i64, Refusal>
        ensures reads { Reads (λ n. n) (index_at self.old.text self.old.lexemes) result self.old self.new }
        ensures stops { Stops (index ∷ []) result self.old self.new }
        ensures shorter { length self.new.lexemes ≤ length self.old.lexemes }
    {
        let mut behind = self.copy_of_place();
        let Some(span) = behind.take_token(Kind::Key) else {
            return Err(Refusal::Refused);
        };
        match numbers::parse_index(behind.text_at_span(span)) {
            Some(n) => {
                *self = behind;
                Ok(n)
            }
            None => Err(Refusal::Refused),
        }
    }

    // Takes a text in double or single quotes, and answers its span, quotes included. Refused where none is next.
    pub(crate) fn take_quoted_text(&mut self) -> Result<StrRange, Refusal>
        ensures reads { Reads (λ s. s) (quoted_at self.old.lexemes) result self.old self.new }
        ensures stops { Stops (quoted ∷ []) result self.old self.new }
        ensures shorter { length self.new.lexemes ≤ length self.old.lexemes }
    {
        if let Some(span) = self.take_token(Kind::DoubleQuoted) {
            return Ok(span);
        }
        match self.take_token(Kind::SingleQuoted) {
            Some(span) => Ok(span),
            None => Err(Refusal::Refused),
        }
    }

    // Takes a word or `*`, as it stands behind dots. Refused where neither is next.
    pub(crate) fn take_word_or_wildcard(&mut self) -> Result<ParseToken, Refusal>
        ensures reads { Reads (λ t. t) (step_word_at self.old.text self.old.lexemes) result self.old self.new }
        ensures stops { Stops (word ∷ []) result self.old self.new }
        ensures shorter { length self.new.lexemes ≤ length self.old.lexemes }
    {
        if let Some(span) = self.take_token(Kind::Key) {
            return Ok(ParseToken::Key(span));
        }
        match self.take_token(Kind::Asterisk) {
            Some(_) => Ok(ParseToken::All),
            None => Err(Refusal::Refused),
        }
    }

    // Takes `&&` or `||`, if one is next.
    pub(crate) fn take_connective_sign(&mut self) -> Option<FilterToken>
        ensures value { option_map (λ o. (o, self.new.lexemes)) result ≡ by_kind connective self.old.lexemes }
        ensures none { IfNone result (self.new.lexemes ≡ self.old.lexemes) }
        ensures text { self.new.text ≡ self.old.text }
        ensures shorter { length self.new.lexemes ≤ length self.old.lexemes }
    {
        if let [first, rest @ ..] = self.lexemes {
            let found = match first.kind {
                Kind::And => Some(FilterToken::And),
                Kind::Or => Some(FilterToken::Or),
                _ => None,
            };
            if found.is_some() {
                self.lexemes = rest;
            }
            return found;
        }
        None
    }

    // Takes one of the six signs of comparison, if one is next.
    pub(crate) fn take_comparison_sign(&mut self) -> Option<FilterToken>
        ensures value { option_map (λ o. (o, self.new.lexemes)) result ≡ by_kind comparison self.old.lexemes }
        ensures none { IfNone result (self.new.lexemes ≡ self.old.lexemes) }
        ensures text { self.new.text ≡ self.old.text }
        ensures shorter { length self.new.lexemes ≤ length self.old.lexemes }
    {
        if let [first, rest @ ..] = self.lexemes {
            let found = match first.kind {
                Kind::Equal => Some(FilterToken::Equal),
                Kind::NotEqual => Some(FilterToken::NotEqual),
                Kind::Little => Some(FilterToken::Little),
                Kind::LittleOrEqual => Some(FilterToken::LittleOrEqual),
                Kind::Greater => Some(FilterToken::Greater),
                Kind::GreaterOrEqual => Some(FilterToken::GreaterOrEqual),
                _ => None,
            };
            if found.is_some() {
                self.lexemes = rest;
            }
            return found;
        }
        None
    }

    // Takes blanks and a sign of comparison behind them, or nothing.
    pub(crate) fn parse_comparison_sign_behind_blanks(&mut self) -> Option<FilterToken>
        ensures value { option_map (λ o. (o, self.new.lexemes)) result ≡ by_kind comparison (skip self.old.lexemes) }
        ensures none { IfNone result (self.new.lexemes ≡ self.old.lexemes) }
        ensures text { self.new.text ≡ self.old.text }
        ensures shorter { length self.new.lexemes ≤ length self.old.lexemes }
    {
        let mut behind = self.copy_of_place();
        behind.skip_blanks();
        let found = behind.take_comparison_sign();
        if found.is_some() {
            *self = behind;
        }
        found
    }

    // How many tokens are left.
    pub(crate) fn tokens_left(&self) -> usize
        ensures { result ≡ length self.now.lexemes }
    {
        self.lexemes.len()
    }

    // Whether no token is left.
    pub(crate) fn is_at_end(&self) -> bool
        ensures { IsTrue result ↔ (self.now.lexemes ≡ []) }
    {
        self.lexemes.is_empty()
    }

    // Whether a dot or an opening bracket is next.
    #[tactic(auto, using(crate::proofs::parser::SameKindLemmas::same_kind_is))]
    pub(crate) fn is_step_next(&self) -> bool
        ensures { result ≡ begins_step self.now.text (λ _. None) self.now.lexemes }
    {
        match self.lexemes {
            [first, ..] => first.kind == Kind::Dot || first.kind == Kind::OpenArray,
            [] => false,
        }
    }

    // Takes blanks, if they are next.
    #[tactic(auto, unfolding(crate::specs::plan::ParsedParts::skip), using(crate::proofs::parser::SameKindLemmas::same_kind_is))]
    pub(crate) fn skip_blanks(&mut self)
        ensures blanks { self.new.lexemes ≡ skip self.old.lexemes }
        ensures stops { (ws : List Want) → stop self.old.text (blanks ∷ ws) self.old.lexemes ≡ stop self.old.text ws self.new.lexemes }
        ensures shorter { length self.new.lexemes ≤ length self.old.lexemes }
        ensures text { self.new.text ≡ self.old.text }
    {
        if let [first, rest @ ..] = self.lexemes {
            if first.kind == Kind::Whitespace {
                self.lexemes = rest;
            }
        }
    }
}
