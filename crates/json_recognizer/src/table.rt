//! The table of what a byte does in each mode.
ghost use Rattle.std.specs.Prelude.{◌≡◌};
ghost use Rattle.json_recognizer.specs.Classes.{class_of};
ghost use Rattle.json_recognizer.specs.plan.Rows.{IsRow, IsLetter, mode_at};

use crate::machine::{Mode, NumberPart, TextPart, WordPart};

// The rows that the code names. A row goes by the number of its letter: the first is 48, which is `0`.
pub(crate) const VALUE: usize = 48;

pub(crate) const FIRST: usize = 49;

pub(crate) const BEHIND: usize = 50;

pub(crate) const NAME: usize = 51;

pub(crate) const FIRST_NAME: usize = 52;

pub(crate) const AFTER_NAME: usize = 53;

pub(crate) const IN_WHOLE: usize = 56;

pub(crate) const IN_FRACTION: usize = 58;

pub(crate) const IN_EXPONENT: usize = 61;

pub(crate) const VALUE_CHARS: usize = 72;

pub(crate) const NAME_CHARS: usize = 73;

struct Table {
    // For each byte its class: a letter from `#` on, in the order of `Class`.
    columns: [u8; 256],
    // For each mode a row, and in it for each class a letter. From `0` on, it is that of the row to which the byte leads,
    // and nothing else changes. What the others tell stands in `make` and `take_letter`.
    letters: [[u8; 45]; 64],
}

static TABLE: Table = Table {
    columns: *b"\
        %%%%%%%%%$$%%$%%%%%%%%%%%%%%%%%%\
        #D,DDDDDDDD0*/1.2333333344+DDDDD\
        D<<78:=DDDDDDDDDDDDDDDDDDDD&-'DD\
        D56789;DDDDDADCDDD?B>@DDDDD(D)DD\
        EEEEEEEEEEEEEEEEFFFFFFFFFFFFFFFF\
        GGGGGGGGGGGGGGGGGGGGGGGGGGGGGGGG\
        OOHHHHHHHHHHHHHHHHHHHHHHHHHHHHHH\
        IJJJJJJJJJJJJKJJLMMMNOOOOOOOOOOO",
    letters: [
        *b"00.(.+...'..6..788......A..>....E............",
        *b"11.()+...'..6..788......A..>....E............",
        *b"22..).-,.....................................",
        *b"33.......#...................................",
        *b"44....-..#...................................",
        *b"55......0....................................",
        *b"...............788...........................",
        *b"&&.%)%-,.%....9.......;;.....................",
        *b"&&.%)%-,.%....9888....;;.....................",
        *b"...............:::...........................",
        *b"&&.%)%-,.%.....:::....;;.....................",
        *b"............<<.===...........................",
        *b"...............===...........................",
        *b"&&.%)%-,.%.....===...........................",
        *b"............................?................",
        *b".............................@...............",
        *b"....................../......................",
        *b"..................B..........................",
        *b"..............................C..............",
        *b"...............................D.............",
        *b"....................../......................",
        *b".............................F...............",
        *b"..............................G..............",
        *b"............................../..............",
        *b"H..HHHHHH/JHHHHHHHHHHHHHHHHHHHHHHH...bhdjlfn.",
        *b"I..IIIIII5KIIIIIIIIIIIIIIIIIIIIIII...ciekmgo.",
        *b".........'''.......'....'..''L..'............",
        *b".........###.......#....#..##M..#............",
        *b"...............PPPPPPNPPPPP..................",
        *b"...............QQQQQQOQQQQQ..................",
        *b"...............RRVVV.....V...................",
        *b"...............SSWWW.....W...................",
        *b"...............RRRRRRRRRRRR..................",
        *b"...............SSSSSSSSSSSS..................",
        *b"...............TTTTTTTTTTTT..................",
        *b"...............UUUUUUUUUUUU..................",
        *b"...............''''''''''''..................",
        *b"...............############..................",
        *b"...............XXXXXXXXXXXX..................",
        *b"...............YYYYYYYYYYYY..................",
        *b"...............ZZZZZZZZZZZZ..................",
        *b"...............[[[[[[[[[[[[..................",
        *b"..........\\..................................",
        *b"..........]..................................",
        *b".............................^...............",
        *b"............................._...............",
        *b".....................`.......................",
        *b".....................a.......................",
        *b"....................RRRRR.R..................",
        *b"....................SSSSS.S..................",
        *b"..................................'''........",
        *b"..................................###........",
        *b"..................................bbb........",
        *b"..................................ccc........",
        *b"..................................ddd........",
        *b"..................................eee........",
        *b"....................................b........",
        *b"....................................c........",
        *b"..................................bb.........",
        *b"..................................cc.........",
        *b"...................................dd........",
        *b"...................................ee........",
        *b"..................................d..........",
        *b"..................................e..........",
    ],
};

// The mode of each row.
static MODES: [Mode; 64] = [
    Mode::Value,
    Mode::First,
    Mode::Behind,
    Mode::Name,
    Mode::FirstName,
    Mode::AfterName,
    Mode::InNumber(NumberPart::AfterMinus),
    Mode::InNumber(NumberPart::AfterZero),
    Mode::InNumber(NumberPart::InWhole),
    Mode::InNumber(NumberPart::AfterDot),
    Mode::InNumber(NumberPart::InFraction),
    Mode::InNumber(NumberPart::AfterE),
    Mode::InNumber(NumberPart::AfterSign),
    Mode::InNumber(NumberPart::InExponent),
    Mode::InWord(WordPart::AfterT),
    Mode::InWord(WordPart::AfterTr),
    Mode::InWord(WordPart::AfterTru),
    Mode::InWord(WordPart::AfterF),
    Mode::InWord(WordPart::AfterFa),
    Mode::InWord(WordPart::AfterFal),
    Mode::InWord(WordPart::AfterFals),
    Mode::InWord(WordPart::AfterN),
    Mode::InWord(WordPart::AfterNu),
    Mode::InWord(WordPart::AfterNul),
    Mode::InText(TextPart::InChars, false),
    Mode::InText(TextPart::InChars, true),
    Mode::InText(TextPart::AfterBackslash, false),
    Mode::InText(TextPart::AfterBackslash, true),
    Mode::InText(TextPart::Unit4, false),
    Mode::InText(TextPart::Unit4, true),
    Mode::InText(TextPart::UnitD, false),
    Mode::InText(TextPart::UnitD, true),
    Mode::InText(TextPart::Unit3, false),
    Mode::InText(TextPart::Unit3, true),
    Mode::InText(TextPart::Unit2, false),
    Mode::InText(TextPart::Unit2, true),
    Mode::InText(TextPart::Unit1, false),
    Mode::InText(TextPart::Unit1, true),
    Mode::InText(TextPart::High2, false),
    Mode::InText(TextPart::High2, true),
    Mode::InText(TextPart::High1, false),
    Mode::InText(TextPart::High1, true),
    Mode::InText(TextPart::HighEnd, false),
    Mode::InText(TextPart::HighEnd, true),
    Mode::InText(TextPart::HighU, false),
    Mode::InText(TextPart::HighU, true),
    Mode::InText(TextPart::LowD, false),
    Mode::InText(TextPart::LowD, true),
    Mode::InText(TextPart::LowC, false),
    Mode::InText(TextPart::LowC, true),
    Mode::InText(TextPart::Utf1, false),
    Mode::InText(TextPart::Utf1, true),
    Mode::InText(TextPart::Utf2, false),
    Mode::InText(TextPart::Utf2, true),
    Mode::InText(TextPart::Utf3, false),
    Mode::InText(TextPart::Utf3, true),
    Mode::InText(TextPart::UtfE0, false),
    Mode::InText(TextPart::UtfE0, true),
    Mode::InText(TextPart::UtfEd, false),
    Mode::InText(TextPart::UtfEd, true),
    Mode::InText(TextPart::UtfF0, false),
    Mode::InText(TextPart::UtfF0, true),
    Mode::InText(TextPart::UtfF4, false),
    Mode::InText(TextPart::UtfF4, true),
];

#[inline(always)]
pub(crate) fn mode_at(row: usize) -> Mode
    requires { IsRow row }
    ensures { result ≡ mode_at row }
{
    MODES[row - 48]
}

#[inline(always)]
pub(crate) fn row_of(mode: Mode) -> usize
    ensures row { IsRow result }
    ensures mode { mode_at result ≡ mode }
{
    match mode {
        Mode::Value => VALUE,
        Mode::First => FIRST,
        Mode::Behind => BEHIND,
        Mode::Name => NAME,
        Mode::FirstName => FIRST_NAME,
        Mode::AfterName => AFTER_NAME,
        Mode::InNumber(part) => 54 + part as usize,
        Mode::InWord(part) => 62 + part as usize,
        Mode::InText(part, is_name) => {
            if is_name {
                73 + 2 * (part as usize)
            } else {
                72 + 2 * (part as usize)
            }
        }
    }
}

// The letter of what the byte does in the row's mode.
#[inline(always)]
pub(crate) fn letter_at(row: usize, byte: u8) -> u8
    requires { IsRow row }
    ensures { IsLetter (mode_at row) (class_of byte) result }
{
    TABLE.letters[row - 48][TABLE.columns[byte as usize] as usize - 35]
}
