//! The tokens of a text, each the longest possible.

ghost use Rattle.std.specs.Prelude.{◌≡◌, ◌+◌, ◌<◌, ◌≤◌, ◌↔◌, length, drop, IfOk, IfErr, IsTrue, [], Some, None, option_map, if◌then◌else◌};
ghost use Rattle.std.specs.List.{take_while};
ghost use Rattle.std.specs.Str.{chars, IsUtf8};
ghost use Rattle.std.specs.Char.{is_whitespace};
ghost use Rattle.jsonpath_paths.specs.token.Kinds.{HasNone};
ghost use Rattle.jsonpath_paths.specs.token.Tokens.{TakesToken, span_of};
ghost use Rattle.jsonpath_paths.specs.plan.NextToken.{ends_at, closes_at, first_at, next_at, reading, nothing_but};
ghost use Rattle.jsonpath_paths.specs.text.Spans.{IsSpan, AreSpans, Tile};
ghost use Rattle.jsonpath_paths.specs.token.Reading.{and_then, reading_from, single_character_kind, optional_equals, two_characters, quoted_lexeme, dollar_word, blanks_or_word, operator_blanks_or_word, several_character_lexeme, lexeme_beginning_with};
ghost use Rattle.jsonpath_paths.specs.token.Refusals.{fault};
ghost use Rattle.jsonpath_paths.specs.plan.RefusedPlace.{behind_character};
ghost use Rattle.jsonpath_paths.specs.text.TextPlace.{ahead, past};
ghost use Rattle.jsonpath_paths.specs.text.Characters.{is_stop_character, is_no_stop, goes_on, bytes_at};

use crate::text::str_reader::{StrRange, StrReader};
use crate::token::tokens::{Kind, Lexeme, Token, TokenError};
use std::alloc::{AllocError, Global};
use std::marker::Model;

// The kind of a character that is a token by itself. `None` for any other character.
fn single_character_kind(c: char) -> Option<Kind>
    ensures { result ≡ single_character_kind c }
{
    match c {
        '.' => Some(Kind::Dot),
        '*' => Some(Kind::Asterisk),
        '[' => Some(Kind::OpenArray),
        ']' => Some(Kind::CloseArray),
        '(' => Some(Kind::OpenParenthesis),
        ')' => Some(Kind::CloseParenthesis),
        '@' => Some(Kind::At),
        '?' => Some(Kind::Question),
        ',' => Some(Kind::Comma),
        ':' => Some(Kind::Split),
        _ => None,
    }
}

// Whether a character ends every word: one that is a token by itself, the beginning of an operator, or a blank. (A
// dollar sign, too, ends a word, but not one that begins with it.)
fn is_stop_character(c: char) -> bool
    ensures { result ≡ is_stop_character c }
{
    match c {
        '.'
        | '*'
        | '['
        | ']'
        | '('
        | ')'
        | '@'
        | '?'
        | ','
        | ':'
        | '<'
        | '>'
        | '='
        | '&'
        | '|'
        | '!' => true,
        _ => c.is_whitespace(),
    }
}

// Takes an equals sign, if one is next, as behind `<` and `>`: the kind is then `with_equal`, else `alone`.
fn take_optional_equals(reader: &mut StrReader<'_>, alone: Kind, with_equal: Kind) -> Kind
    ensures { ends_at (optional_equals alone with_equal (ahead reader.old)) reader.old ≡ Some (result, reader.new) }
{
    match reader.peek_char() {
        Ok('=') => {
            let _ = reader.next_char();
            with_equal
        }
        _ => alone,
    }
}

// Takes the second character of an operator, as of `==`, and answers its kind. `None` where another is next.
fn take_second_character(reader: &mut StrReader<'_>, kind: Kind, second: char) -> Option<Kind>
    ensures { ends_at (two_characters kind second (ahead reader.old)) reader.old ≡ option_map (λ kind. (kind, reader.new)) result }
{
    match reader.next_char() {
        Ok((_, c)) => { if c == second { Some(kind) } else { None } }
        Err(_) => None,
    }
}

// Reads up to and with the quote that closes a text, over what stands behind a backslash. Answers whether there is one.
fn read_past_closing_quote(reader: &mut StrReader<'_>, quote: char) -> bool
    ensures { closes_at quote reader.old ≡ (if result then Some reader.new else None) }
{
    while let Ok((_, c)) = reader.next_char() {
        if c == quote {
            return true;
        }
        if c == '\\' {
            let _ = reader.next_char();
        }
    }
    false
}

// Reads the rest of a text behind its opening quote, and answers its kind. `None` where it is not closed.
fn read_rest_of_quoted_text(reader: &mut StrReader<'_>, kind: Kind, quote: char) -> Option<Kind>
    ensures { ends_at (quoted_lexeme kind quote (ahead reader.old)) reader.old ≡ option_map (λ kind. (kind, reader.new)) result }
{
    if read_past_closing_quote(reader, quote) {
        Some(kind)
    } else {
        None
    }
}

// Passes over characters up to a stop character.
fn skip_to_stop_character(reader: &mut StrReader<'_>)
    ensures { reader.new ≡ past reader.old (take_while is_no_stop (ahead reader.old)) }
{
    let _ = reader.take_while(|c| !is_stop_character(*c));
}

// Passes over the rest of a word: up to a stop character or a dollar sign.
fn skip_rest_of_word(reader: &mut StrReader<'_>)
    ensures { reader.new ≡ past reader.old (take_while goes_on (ahead reader.old)) }
{
    let _ = reader.take_while(|c| !(is_stop_character(*c) || *c == '$'));
}

// Passes over blanks.
fn skip_blanks(reader: &mut StrReader<'_>)
    ensures { reader.new ≡ past reader.old (take_while is_whitespace (ahead reader.old)) }
{
    let _ = reader.take_while(|c| c.is_whitespace());
}

// Reads what is behind a dollar sign up to a stop character, and answers its kind: `$` alone, or a word.
fn read_rest_of_dollar_lexeme(reader: &mut StrReader<'_>) -> Kind
    ensures { ends_at (dollar_word (ahead reader.old)) reader.old ≡ Some (result, reader.new) }
{
    match reader.peek_char() {
        Ok(c) => {
            if is_stop_character(c) {
                return Kind::Absolute;
            }
            skip_to_stop_character(reader);
            Kind::Key
        }
        Err(_) => Kind::Absolute,
    }
}

// Reads the rest of the blanks, or of the word, that begins with this character, and answers which of the two it is.
fn read_rest_of_blanks_or_word(reader: &mut StrReader<'_>, c: char) -> Kind
    ensures { ends_at (blanks_or_word c (ahead reader.old)) reader.old ≡ Some (result, reader.new) }
{
    if c.is_whitespace() {
        skip_blanks(reader);
        Kind::Whitespace
    } else {
        skip_rest_of_word(reader);
        Kind::Key
    }
}

// Reads the rest of the operator, blanks or word begun by this character: its kind, or `None` for half an operator.
fn read_rest_of_operator_blanks_or_word(reader: &mut StrReader<'_>, c: char) -> Option<Kind>
    ensures { ends_at (operator_blanks_or_word c (ahead reader.old)) reader.old ≡ option_map (λ kind. (kind, reader.new)) result }
{
    match c {
        '=' => take_second_character(reader, Kind::Equal, '='),
        '!' => take_second_character(reader, Kind::NotEqual, '='),
        '&' => take_second_character(reader, Kind::And, '&'),
        '|' => take_second_character(reader, Kind::Or, '|'),
        '>' => Some(take_optional_equals(reader, Kind::Greater, Kind::GreaterOrEqual)),
        '<' => Some(take_optional_equals(reader, Kind::Little, Kind::LittleOrEqual)),
        _ => Some(read_rest_of_blanks_or_word(reader, c)),
    }
}

// Reads the rest of a token that can have several characters (a dollar word, a quoted text, an operator, blanks or a
// word), of which this is the first, and answers its kind. `None` where it is not whole.
fn read_rest_of_long_lexeme(reader: &mut StrReader<'_>, c: char) -> Option<Kind>
    ensures { ends_at (several_character_lexeme c (ahead reader.old)) reader.old ≡ option_map (λ kind. (kind, reader.new)) result }
{
    match c {
        '$' => Some(read_rest_of_dollar_lexeme(reader)),
        '"' => read_rest_of_quoted_text(reader, Kind::DoubleQuoted, '"'),
        '\'' => read_rest_of_quoted_text(reader, Kind::SingleQuoted, '\''),
        _ => read_rest_of_operator_blanks_or_word(reader, c),
    }
}

// Reads the rest of the token that begins with this character, and answers its kind. `None` where it is not whole.
fn read_rest_of_lexeme(reader: &mut StrReader<'_>, c: char) -> Option<Kind>
    ensures { ends_at (lexeme_beginning_with c (ahead reader.old)) reader.old ≡ option_map (λ kind. (kind, reader.new)) result }
{
    match single_character_kind(c) {
        Some(kind) => Some(kind),
        None => read_rest_of_long_lexeme(reader, c),
    }
}

// Reads the token that begins where the reader stands, and answers its kind. `None` where none begins there.
fn read_first_lexeme(reader: &mut StrReader<'_>) -> Option<Kind>
    ensures { first_at reader.old ≡ option_map (λ kind. (kind, reader.new)) result }
{
    match reader.next_char() {
        Ok((_, c)) => read_rest_of_lexeme(reader, c),
        Err(_) => None,
    }
}

// The error where no token begins: `Eof` at the end of the text, at a quote that is not closed and at a character that
// ends the text, else `Position` of the next character's first byte.
fn error_at_refused_character_start(reader: &StrReader<'_>) -> TokenError
    ensures { result ≡ fault reader.now.pos (ahead reader.now) }
{
    let mut ahead = reader.copy_of_place();
    match ahead.next_char() {
        Ok((_, c)) => {
            if c == '"' || c == '\'' {
                return TokenError::Eof;
            }
            match ahead.peek_char() {
                Ok(_) => TokenError::Position(reader.current_pos()),
                Err(_) => TokenError::Eof,
            }
        }
        Err(_) => TokenError::Eof,
    }
}

/// Reads a path text token by token.
///
/// ```text
/// let mut tokenizer = Tokenizer::new("$.a");
/// assert!(rt; tokenizer.next_token() == Ok(Token::Absolute(StrRange::new(0, 1))));
/// assert!(rt; tokenizer.next_token() == Ok(Token::Dot(StrRange::new(1, 1))));
/// ```
#[derive(Drop)]
pub struct Tokenizer<'a> {
    reader: StrReader<'a>,
}

impl<'a> Model for Tokenizer<'a> {
    ghost use Rattle.jsonpath_paths.specs.text.TextPlace.{Place, place_code};

    ghost Value = { Place };

    ghost coded = { place_code };

    ghost view = { λ t. t.reader };
}

impl<'a> Tokenizer<'a> {
    /// Makes a `Tokenizer`, which reads this path text token by token. Its position is at the beginning of the text.
    ///
    /// ```text
    /// let mut tokenizer = Tokenizer::new("가.b");
    /// assert!(rt; tokenizer.next_token() == Ok(Token::Key(StrRange::new(0, 3))));
    /// ```
    pub fn new(text: &'a str) -> Tokenizer<'a>
        ensures { result ≡ record { text = text.now; pos = 0 } }
    {
        Tokenizer {
            reader: StrReader::new(text),
        }
    }

    // Takes the next token, and answers its kind and span. Where none begins, an error is answered and nothing changes.
    pub(crate) fn take_next_lexeme(&mut self) -> Result<Lexeme, TokenError>
        ensures value { next_at self.old ≡ (result, self.new) }
        ensures more { IfOk result (λ p. (reading self.old ≡ and_then p (reading self.new)) × IsSpan self.new.text p.span) }
        ensures follows { IfOk result (λ p. (p.span.pos ≡ self.old.pos) × (self.old.pos + p.span.offset ≡ self.new.pos)) }
        ensures shorter { IfOk result (λ _. length (ahead self.new) < length (ahead self.old)) }
        ensures text { self.new.text ≡ self.old.text }
        ensures end { IfErr result (λ e. (reading self.old ≡ nothing_but (ahead self.old)) × (self.new ≡ self.old) × (e ≡ fault self.old.pos (ahead self.old))) }
    {
        self.take_lexeme_cutting_no_character()
    }

    // Takes the next token, and answers as `take_next_lexeme` does, which calls it. The clauses say, too, that the
    // places before and behind the token cut no character.
    fn take_lexeme_cutting_no_character(&mut self) -> Result<Lexeme, TokenError>
        ensures value { next_at self.old ≡ (result, self.new) }
        ensures before { IsUtf8 (drop self.old.pos self.old.text) }
        ensures behind { IsUtf8 (drop self.new.pos self.new.text) }
        ensures within { self.new.pos ≤ length self.new.text }
    {
        let mut ahead = self.reader.copy_of_place();
        match read_first_lexeme(&mut ahead) {
            Some(kind) => {
                let pos = self.reader.current_pos();
                let span = StrRange::new(pos, ahead.current_pos() - pos);
                self.reader = ahead;
                Ok(Lexeme { kind, span })
            }
            None => {
                let _ = self.reader.current_pos();
                Err(error_at_refused_character_start(&self.reader))
            }
        }
    }

    // A copy at the same place of the text.
    pub(crate) fn copy_of_place(&self) -> Tokenizer<'a>
        ensures { result ≡ self.now }
    {
        Tokenizer {
            reader: self.reader.copy_of_place(),
        }
    }

    // How many bytes of the text are read.
    pub(crate) fn pos(&self) -> usize
        ensures { result ≡ self.now.pos }
    {
        self.reader.current_pos()
    }

    // The whole text.
    pub(crate) fn text(&self) -> &'a str
        ensures { result.now ≡ self.now.text }
    {
        self.reader.origin_str()
    }

    // The part of the text at the span, which lies in it and cuts no character.
    pub(crate) fn text_at_span(&self, span: &StrRange) -> &'a str
        requires { IsSpan self.now.text span.now }
        ensures { result.now ≡ bytes_at self.now.text span.now }
    {
        self.reader.read(span)
    }

    // The error for the next character, which begins no token: `Position` of its end, or `Eof` where it ends the text,
    // is a quote that is not closed, or there is none.
    pub(crate) fn error_at_refused_character_end(&self) -> TokenError
        ensures exact { result ≡ behind_character self.now.text self.now.pos (ahead self.now) }
    {
        let mut ahead = self.reader.copy_of_place();
        match ahead.next_char() {
            Ok((_, c)) => {
                if c == '"' || c == '\'' {
                    return TokenError::Eof;
                }
                let end = ahead.current_pos();
                if end == self.text().len() {
                    TokenError::Eof
                } else {
                    TokenError::Position(end)
                }
            }
            Err(_) => TokenError::Eof,
        }
    }

    // Whether the text is read to its end.
    pub(crate) fn is_at_end(&self) -> bool
        ensures { IsTrue result ↔ (ahead self.now ≡ []) }
    {
        self.reader.copy_of_place().peek_char().is_err()
    }

    /// Takes the next token. If none begins at the tokenizer's position, returns an error, and the position stays, so
    /// each later call returns the same error. It is `Eof` at the text's end, at an unclosed quoted text, or if the
    /// character at the position is the text's last one; else `Position` with the number of bytes before the position.
    ///
    /// ```text
    /// let mut tokenizer = Tokenizer::new("=1");
    /// assert!(rt; tokenizer.next_token() == Err(TokenError::Position(0)));
    /// ```
    pub fn next_token(&mut self) -> Result<Token, TokenError>
        ensures found { IfOk result (λ t. TakesToken self.old t self.new) }
        ensures span { IfOk result (λ t. IsSpan self.new.text (span_of t)) }
        ensures none { IfErr result (λ e. HasNone (ahead self.old) × (self.new ≡ self.old) × (e ≡ fault self.old.pos (ahead self.old))) }
    {
        match self.take_next_lexeme() {
            Ok(lexeme) => Ok(lexeme.kind.token_at(lexeme.span)),
            Err(fault) => Err(fault),
        }
    }
}

/// Clones a tokenizer, with its text and its position in it. `clone` allocates no memory and always returns `Ok`.
impl<'a> Clone for Tokenizer<'a> {
    ghost use Rattle.std.specs.Prelude.{⊤};

    ghost is_clone = { λ tokenizer copy. copy ≡ tokenizer };

    ghost is_infallible = { λ _. ⊤ };

    fn clone(&self) -> Result<Tokenizer<'a>, AllocError> {
        Ok(self.copy_of_place())
    }
}

// Room for the lexemes of most paths: as many as a short path has characters.
const ROOM: usize = 64;

// All tokens of a text, by kind and span, up to its end or a refused character, and the tokenizer there.
pub(crate) fn lexemes_up_to_refusal<'a>(
    alloc: Global,
    text: &'a str,
) -> Result<(Vec<Lexeme>, Tokenizer<'a>), AllocError>
    ensures lexemes { IfOk result (λ r. r.0.items ≡ (reading_from 0 0 (chars text.now)).lexemes) }
    ensures rest { IfOk result (λ r. (reading_from 0 0 (chars text.now)).rest ≡ ahead r.1) }
    ensures spans { IfOk result (λ r. AreSpans text.now r.0.items) }
    ensures tile { IfOk result (λ r. Tile 0 r.0.items r.1.pos) }
    ensures text { IfOk result (λ r. r.1.text ≡ text.now) }
{
    let mut tokenizer = Tokenizer::new(text);
    let mut found = Vec::with_capacity(alloc, text.len().min(ROOM))?;
    while let Ok(lexeme) = tokenizer.take_next_lexeme() {
        found.push(lexeme)?;
    }
    Ok((found, tokenizer))
}
