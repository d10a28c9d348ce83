//! The report of a document with an error. The document comes as a piece of a stream: its bytes, with the blanks
//! before it.

ghost use Rattle.std.specs.Prelude.{◌≡◌, ◌<◌, ◌≤◌, ◌++◌, ℕ, List, take, length, Some};
ghost use Rattle.json_recognizer.specs.Lines.{place_behind};
ghost use Rattle.json_recognizer.specs.Stream.{found_in, IsWithin};
ghost use Rattle.json_recognizer.specs.declared.stream.Found.TheVariants.{Refused};
ghost use Rattle.jpath_files.specs.Refusals.{Fits, IsRefusedAt, reason_words, refused_words};

use jpath_texts::DocumentRefusal;
use json_recognizer::{
    Found, LineColumn, Wanted, count_blanks, find_end, is_final, place_after, start, wanted_at,
};
use std::fmt::{self, Display, Formatter};

/// The kinds of errors of a document of a file: what is wrong with the document.
#[derive(Clone, Copy, Debug, Drop, PartialEq, Eq)]
pub enum Reason {
    /// An error in a document of a file: one of its bytes is wrong. The field says what could have been in place of
    /// this byte, or what is wrong with it.
    Wrong(Wanted),
    EndsTooEarly,
    /// An error for a document of a file, other than a wrong byte or a document that ends too early. The field says
    /// which: the text is no JSON document, the document can't be compared or edited as asked, or memory ran out.
    Other(DocumentRefusal),
}

impl Display for Reason {
    ghost output = { λ reason. Some (reason_words reason) };

    fn fmt<W: fmt::Write>(&self, f: &mut Formatter<W>) -> fmt::Result {
        match self {
            Reason::Wrong(wanted) => write!(f, "{wanted}"),
            Reason::EndsTooEarly => f.write_str("the document ends too early"),
            Reason::Other(refusal) => match refusal {
                DocumentRefusal::NotADocument => f.write_str("no JSON"),
                DocumentRefusal::HugeExponent => {
                    f.write_str("a number is compared whose exponent has more than 38 digits")
                }
                DocumentRefusal::EditNests => {
                    f.write_str("the edited document would nest deeper than 127 levels")
                }
                DocumentRefusal::EditDiffers => f.write_str(
                    "the edited text is another document than it should be, so it is not written",
                ),
                DocumentRefusal::OutOfMemory => f.write_str("out of memory"),
            },
        }
    }
}

/// The error for a document of a file: the file's name, the line and column of the error (both counted from 1, the
/// column in bytes), and the reason. `Display` prints the error as the line that `jpath` writes to standard error.
#[derive(Clone, Copy, Debug, Drop)]
pub struct RefusedDocument<'n> {
    /// A field of the error for a document of a file: the name of the file.
    pub name: &'n str,
    pub place: LineColumn,
    pub reason: Reason,
}

impl Display for RefusedDocument<'_> {
    ghost output = { λ refused. Some (refused_words refused) };

    fn fmt<W: fmt::Write>(&self, f: &mut Formatter<W>) -> fmt::Result {
        let (name, reason) = (self.name, self.reason);
        let LineColumn { line, column } = self.place;
        write!(f, "jpath: {name}:{line}:{column}: {reason}")
    }
}

impl<'n> RefusedDocument<'n> {
    /// Makes the error for a document of a file. `bytes` is the document, or wrong bytes in place of one, and begins at
    /// the line and column `place` in the file; `refusal` is the cause. If it is `NotADocument` because a byte is wrong
    /// or `bytes` ends too early, the error's position is that of the first wrong byte, or the end of `bytes`. In every
    /// other case, such as an edited document that nests too deep, the error's position is that of the first byte of
    /// `bytes` that is no blank.
    pub fn of_piece(
        name: &'n str,
        bytes: &[u8],
        place: LineColumn,
        refusal: DocumentRefusal,
    ) -> RefusedDocument<'n>
        ensures name { result.name.now ≡ name.entry.now }
        ensures at { (at : ℕ) × IsRefusedAt refusal bytes.now at result.reason × ((passed : List ℕ) → place ≡ place_behind passed → result.place ≡ place_behind (passed ++ take at bytes.now)) }
    {
        let (at, reason) = refused_at(bytes, refusal);
        RefusedDocument {
            name,
            place: place_after(place, &bytes[..at]),
            reason,
        }
    }
}

// The byte at which a piece is refused, or its end, and why.
fn refused_at(bytes: &[u8], refusal: DocumentRefusal) -> (usize, Reason)
    ensures at { IsRefusedAt refusal bytes.now result.0 result.1 }
    ensures within { result.0 ≤ length bytes.now }
{
    if refusal != DocumentRefusal::NotADocument {
        return (count_blanks(bytes), Reason::Other(refusal));
    }
    match found_in(bytes) {
        Found::Refused(at) => (at, Reason::Wrong(wanted_behind(bytes, at))),
        Found::GoesOn => (bytes.len(), Reason::EndsTooEarly),
        Found::Ends(_) => (count_blanks(bytes), Reason::Other(refusal)),
    }
}

// What a text is: its first document, its first wrong byte, or neither.
fn found_in(bytes: &[u8]) -> Found
    ensures found { result ≡ found_in bytes.now }
    ensures within { IsWithin result (length bytes.now) }
{
    let mut state = start();
    match find_end(&mut state, bytes) {
        Found::GoesOn => {
            if is_final(&state) {
                Found::Ends(bytes.len())
            } else {
                Found::GoesOn
            }
        }
        found => found,
    }
}

// What was wanted in the place of the first wrong byte.
fn wanted_behind(bytes: &[u8], at: usize) -> Wanted
    requires wrong { found_in bytes.now ≡ Refused at }
    requires within { at < length bytes.now }
    ensures { Fits result (take at bytes.now) }
{
    let mut state = start();
    let _ = find_end(&mut state, &bytes[..at]);
    wanted_at(&state, bytes[at])
}
