//! The words of an error.
ghost use Rattle.std.specs.Prelude.{◌≡◌, ◌≢◌, ◌≤◌, true, Some};
ghost use Rattle.json_recognizer.specs.Grammar.{max_depth};
ghost use Rattle.json_recognizer.specs.State.{frames};
ghost use Rattle.json_recognizer.specs.Wanted.{names, wanted_words};
ghost use Rattle.json_recognizer.specs.Machine.{move, top_of, move_behind, move_number, move_text};
ghost use Rattle.json_recognizer.specs.declared.class.Class.{Class};
ghost use Rattle.json_recognizer.specs.declared.machine.Move.TheVariants.{Wrong};

use crate::class::{Class, class_of};
use crate::machine::{Mode, NumberPart, TextPart, Top};
use crate::state::{State, top};
use std::fmt::{self, Display, Formatter};

/// Why a byte is wrong in a JSON text: what could have been in its place, or what is wrong with it.
#[derive(Clone, Copy, Debug, Drop, PartialEq, Eq)]
pub enum Wanted {
    Value,
    ValueOrBracket,
    Name,
    NameOrBrace,
    Colon,
    CommaOrBracket,
    CommaOrBrace,
    /// An error in a JSON text: the wrong byte comes after the end of the document. Only blanks are allowed there.
    End,
    Digit,
    DigitOrSign,
    /// A reason why a byte of a JSON text is wrong: in its place the rest of `true`, `false` or `null` was expected, as
    /// at the second letter of `nan`.
    Word,
    HexDigit,
    Escape,
    /// An error in a JSON text: a quoted text has, as an escape such as `\udc00`, one half of a surrogate pair (two
    /// escapes for one character) without the other half. The wrong byte is the first one that shows this.
    LoneSurrogate,
    /// An error in a JSON text: the wrong byte is a control character inside a quoted text. There a control character
    /// has to be written as an escape.
    Control,
    NotUtf8,
    /// An error in a JSON text: the wrong byte opens an array or object that would be inside 127 others. A text may
    /// nest 127 levels deep, but no deeper.
    TooDeep,
    /// An error in a JSON text: the wrong byte is a closing bracket or brace, and a comma comes before it, as in
    /// `[1,]`.
    CommaBefore,
    Comment,
    /// A reason why a byte of a JSON text is wrong: a value is expected there, and the byte is `N` or `I`, as at the
    /// beginning of `NaN` or `Infinity`, which are no JSON. The bytes after it are not looked at.
    NotANumber,
}

/// Prints, as part of an error message, why a byte is wrong in a JSON text, for example `a colon is wanted`.
impl Display for Wanted {
    ghost output = { λ wanted. Some (wanted_words wanted) };

    fn fmt<W: fmt::Write>(&self, f: &mut Formatter<W>) -> fmt::Result {
        f.write_str(match self {
            Wanted::Value => "a value is wanted",
            Wanted::ValueOrBracket => "a value or ] is wanted",
            Wanted::Name => "a name in quotes is wanted",
            Wanted::NameOrBrace => "a name in quotes or } is wanted",
            Wanted::Colon => "a colon is wanted",
            Wanted::CommaOrBracket => "a comma or ] is wanted",
            Wanted::CommaOrBrace => "a comma or } is wanted",
            Wanted::End => "a blank is wanted behind the document",
            Wanted::Digit => "a digit is wanted",
            Wanted::DigitOrSign => "a digit or a sign is wanted",
            Wanted::Word => "the rest of true, false or null is wanted",
            Wanted::HexDigit => "a hexadecimal digit is wanted",
            Wanted::Escape => "a text has no such escape",
            Wanted::LoneSurrogate => "half of a surrogate pair stands alone",
            Wanted::Control => "a text has this control character by an escape alone",
            Wanted::NotUtf8 => "the text is no UTF-8",
            Wanted::TooDeep => "it nests deeper than 127 levels",
            Wanted::CommaBefore => "a comma stands before the bracket",
            Wanted::Comment => "JSON has no comments",
            Wanted::NotANumber => "JSON has no NaN and no Infinity",
        })
    }
}

fn behind(top: Top, class: Class) -> Wanted
    ensures { (c : Class) → names result c ≡ true → move_behind top c ≢ Wrong }
{
    match (top, class) {
        (_, Class::Slash) => Wanted::Comment,
        (Top::Outside, _) => Wanted::End,
        (Top::InArray, _) => Wanted::CommaOrBracket,
        (Top::InObject, _) => Wanted::CommaOrBrace,
    }
}

fn in_number(part: NumberPart, top: Top, class: Class) -> Wanted
    ensures { (c : Class) → names result c ≡ true → move_number part top c ≢ Wrong }
{
    match part {
        NumberPart::AfterMinus | NumberPart::AfterDot | NumberPart::AfterSign => Wanted::Digit,
        NumberPart::AfterE => Wanted::DigitOrSign,
        _ => behind(top, class),
    }
}

fn in_text(part: TextPart, is_name: bool, class: Class) -> Wanted
    ensures { (c : Class) → names result c ≡ true → move_text part is_name c ≢ Wrong }
{
    match (part, class) {
        (TextPart::InChars, Class::White | Class::Control) => Wanted::Control,
        (TextPart::AfterBackslash, _) => Wanted::Escape,
        (
            TextPart::UnitD,
            Class::AnyC
            | Class::AnyD
            | Class::SmallE
            | Class::LargeE
            | Class::SmallF
            | Class::LargeF,
        ) => { Wanted::LoneSurrogate }
        (TextPart::HighEnd | TextPart::HighU | TextPart::LowD | TextPart::LowC, _) =>
            Wanted::LoneSurrogate,
        (
            TextPart::Unit4
            | TextPart::UnitD
            | TextPart::Unit3
            | TextPart::Unit2
            | TextPart::Unit1
            | TextPart::High2
            | TextPart::High1,
            _,
        ) => Wanted::HexDigit,
        (_, _) => Wanted::NotUtf8,
    }
}

/// The reason, for an error message, why a byte of class `class` is wrong in a JSON text: what was expected in its
/// place, or what is wrong with it. `mode` says in what part of the text the recognizer is, and `top` what directly
/// encloses the byte: an array, an object or nothing. If the reason says what was expected, each byte that it names
/// would have been accepted, except `[` or `{` where they would nest too deep, and the hexadecimal digits C to F after
/// `\ud`. Bytes that the reason doesn't name may be accepted, too.
pub fn what_was_wanted(mode: Mode, top: Top, class: Class) -> Wanted
    ensures { (c : Class) → names result c ≡ true → move mode top c ≢ Wrong }
{
    match (mode, class) {
        (Mode::Value | Mode::First | Mode::Name | Mode::FirstName, Class::Slash) => Wanted::Comment,
        (Mode::Value | Mode::First, Class::OpenBracket | Class::OpenBrace) => Wanted::TooDeep,
        (Mode::Value, Class::CloseBracket) => match top {
            Top::InArray => Wanted::CommaBefore,
            _ => Wanted::Value,
        },
        (Mode::Name, Class::CloseBrace) => Wanted::CommaBefore,
        (Mode::Value, _) => Wanted::Value,
        (Mode::First, _) => match top {
            Top::InArray => Wanted::ValueOrBracket,
            _ => Wanted::Value,
        },
        (Mode::Name, _) => Wanted::Name,
        (Mode::FirstName, _) => match top {
            Top::InObject => Wanted::NameOrBrace,
            _ => Wanted::Name,
        },
        (Mode::AfterName, _) => Wanted::Colon,
        (Mode::Behind, _) => behind(top, class),
        (Mode::InNumber(part), _) => in_number(part, top, class),
        (Mode::InWord(_), _) => Wanted::Word,
        (Mode::InText(part, is_name), _) => in_text(part, is_name, class),
    }
}

/// The reason, for an error message, why `byte` is wrong in this state of the recognizer; `byte` must be wrong there.
/// If the reason says what was expected, each byte that it names would have been accepted here, except `[` or `{` where
/// they would nest too deep, and the hexadecimal digits C to F after `\ud`.
pub fn wanted_at(state: &State, byte: u8) -> Wanted
    requires { state.now.depth ≤ max_depth }
    ensures { (c : Class) → names result c ≡ true → move state.now.mode (top_of (frames state.now.depth state.now.kinds)) c ≢ Wrong }
{
    match (state.mode, byte) {
        (Mode::Value | Mode::First, b'N' | b'I') => Wanted::NotANumber,
        _ => what_was_wanted(state.mode, top(state), class_of(byte)),
    }
}
