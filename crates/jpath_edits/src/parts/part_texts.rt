//! What the texts of parts are: a value, a name with its colon, blanks with a comma.

ghost use Rattle.std.specs.Prelude.{◌≡◌, IfOk, IfSome, IsTrue, Some};
ghost use Rattle.json.specs.Value.{value_view};
ghost use Rattle.json.specs.Word.{is_space};
ghost use Rattle.jpath_edits.specs.Changed.{IsBare, IsBlankBut, IsEdge, IsNameText};
ghost use Rattle.json_trees.specs.Exact.{exact_of};

use crate::same_exact_tree::is_same_exact_tree;
use jpath_texts::{DocumentRefusal, read_exact_tree};
use json::{Scratch, Value as Exact};
use json_recognizer::first_document_len;
use std::alloc::Global;

/// A reader of the parts of a text that an edit replaces. It keeps its memory from one part to the next, and from one
/// document to the next.
#[derive(Drop)]
pub struct PartReader {
    alloc: Global,
    scratch: Scratch,
}

impl PartReader {
    /// Makes a `PartReader`, a reader of the parts of a text that an edit replaces. It has read no part yet.
    pub fn new(alloc: Global) -> PartReader
        ensures { result.alloc ≡ alloc }
    {
        PartReader {
            alloc,
            scratch: Scratch::new(alloc),
        }
    }

    /// The allocator that this reader was made with.
    pub fn alloc(&self) -> Global
        ensures { result ≡ self.now.alloc }
    {
        self.alloc
    }

    // Whether a text, read again, is this value.
    pub(crate) fn is_text_of(
        &mut self,
        text: &str,
        value: &Exact<'_>,
    ) -> Result<bool, DocumentRefusal>
        ensures { IfOk result (λ right. IsTrue right → exact_of text.now ≡ Some (value_view value.now)) }
    {
        match read_exact_tree(self.alloc, text, &mut self.scratch) {
            Ok(found) => Ok(is_same_exact_tree(&found, value)),
            Err(DocumentRefusal::OutOfMemory) => Err(DocumentRefusal::OutOfMemory),
            Err(_) => Ok(false),
        }
    }

    // Whether a text is this name in quotes with one colon, and blanks at most beside them.
    pub(crate) fn is_name_with_colon(
        &mut self,
        text: &str,
        name: &str,
    ) -> Result<bool, DocumentRefusal>
        ensures { IfOk result (λ right. IsTrue right → IsNameText name.now text.now) }
    {
        let end = first_document_len(text.as_bytes());
        match (text.get(..end), text.get(end..)) {
            (Some(word), Some(colon)) => if is_blank_with_one_colon(colon.as_bytes()) {
                self.is_text_of(word, &Exact::String(name))
            } else {
                Ok(false)
            },
            _ => Ok(false),
        }
    }
}

// Whether there are bytes, and no blank stands at either end of them.
pub(crate) fn has_no_outer_blanks(bytes: &[u8]) -> bool
    ensures { IsTrue result → IsBare bytes.now }
{
    match (bytes.first(), bytes.last()) {
        (Some(first), Some(last)) => !is_blank_byte(*first) && !is_blank_byte(*last),
        _ => false,
    }
}

// Whether the bytes are blanks with at most one comma.
pub(crate) fn is_blank_with_optional_comma(bytes: &[u8]) -> bool
    ensures { IsTrue result → IsEdge bytes.now }
{
    match count_in_blanks(bytes, b',') {
        Some(commas) => commas <= 1,
        None => false,
    }
}

// Whether the bytes are blanks with exactly one colon.
fn is_blank_with_one_colon(bytes: &[u8]) -> bool
    ensures { IsTrue result → IsBlankBut 58 1 bytes.now }
{
    match count_in_blanks(bytes, b':') {
        Some(colons) => colons == 1,
        None => false,
    }
}

// How often a byte stands among the bytes, if all others are blanks; else None.
fn count_in_blanks(bytes: &[u8], mark: u8) -> Option<usize>
    ensures { IfSome result (λ count. IsBlankBut mark count bytes.now) }
{
    if bytes
        .iter()
        .all(|byte| is_blank_byte(*byte) || *byte == mark)
    {
        Some(bytes.iter().filter(|byte| **byte == mark).count())
    } else {
        None
    }
}

// Whether the byte is a blank of JSON: a space, a tab or one of a line end.
fn is_blank_byte(byte: u8) -> bool
    ensures { result ≡ is_space byte }
{
    byte == b' ' || byte == b'\t' || byte == b'\n' || byte == b'\r'
}
