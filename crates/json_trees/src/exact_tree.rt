//! The exact tree of a JSON text: numbers by their digits, members in their order.

ghost use Rattle.std.specs.Prelude.{◌≡◌, Some, IfOk, IfErr};
ghost use Rattle.json.specs.Tree.{HasNumbers};
ghost use Rattle.json.specs.Value.{value_view};
ghost use Rattle.json_trees.specs.Exact.{exact_of, IsWhyRefused};

use crate::refusal::DocumentRefusal;
use json::{Error, Reader, Scratch, Value as Exact};
use std::alloc::Global;

const MAX_DEPTH: usize = 127;

/// Reads the exact tree of a JSON text: numbers as written, members in the order of the text, repeated names included.
/// The tree borrows the text and `scratch`, which stores unescaped copies of texts with escapes. Errors: `NotADocument`
/// if the text is no JSON document or nests deeper than 127 levels, or `OutOfMemory`.
pub fn read_exact_tree<'a>(
    alloc: Global,
    text: &'a str,
    scratch: &'a mut Scratch,
) -> Result<Exact<'a>, DocumentRefusal>
    ensures ok { IfOk result (λ exact. exact_of text.now ≡ Some (value_view exact)) }
    ensures writable { IfOk result (λ exact. HasNumbers (value_view exact)) }
    ensures refused { IfErr result (IsWhyRefused text.now) }
{
    let Ok(mut reader) = Reader::new(text, scratch) else {
        return Err(DocumentRefusal::OutOfMemory);
    };
    let exact = match Exact::read(alloc, &mut reader, MAX_DEPTH) {
        Ok(exact) => exact,
        Err(Error::OutOfMemory) => return Err(DocumentRefusal::OutOfMemory),
        Err(_) => return Err(DocumentRefusal::NotADocument),
    };
    if reader.next().is_some() {
        return Err(DocumentRefusal::NotADocument);
    }
    Ok(exact)
}
