//! Whether an edited text, read again, is the changed document.

ghost use Rattle.std.specs.Prelude.{◌≡◌, IfOk, IsTrue, Some, option_map};
ghost use Rattle.json.specs.Value.{value_view};
ghost use Rattle.jpath_edits.specs.Changed.{ReadsChanged, ReadsWith};
ghost use Rattle.json_trees.specs.Exact.{exact_of};
ghost use Rattle.json_trees.specs.ExactDocument.{document_at};

use crate::change::Change;
use crate::changed_value::{SameTree, is_changed_value};
use crate::same_exact_tree::is_same_exact_tree;
use crate::target_locations::locations_below_root;
use jpath_texts::{Document, DocumentRefusal, OrderedValue};
use json::Scratch;
use jsonpath_nodes::Location;
use std::alloc::Global;
use std::str;

impl<'t, 'a, 'u, 'b> SameTree<OrderedValue<'u, 'b>> for OrderedValue<'t, 'a> {
    fn is_same(self, other: OrderedValue<'u, 'b>) -> bool {
        is_same_exact_tree(self.value(), other.value())
    }
}

/// Checks an edit. Returns whether the edited text `written`, read again, is the original document with `change` made
/// at the locations `places`, except at the root and inside another changed value; numbers are compared as they are
/// written. `before` is the root of the original document. Returns false if `written` is not UTF-8.
///
/// Errors: `EditNests` if the edited text or the new value can't be read, or `OutOfMemory`.
pub fn are_bytes_of_changed_document(
    alloc: Global,
    before: OrderedValue<'_, '_>,
    places: &[Location],
    change: Change<'_>,
    written: &[u8],
) -> Result<bool, DocumentRefusal>
    ensures { IfOk result (λ same. IsTrue same → ReadsChanged change.entry places.now (value_view before.entry.value.now) written.now) }
{
    let Ok(edited) = str::from_utf8(written) else {
        return Ok(false);
    };
    match change {
        Change::Put(value) => {
            let mut scratch = Scratch::new(alloc);
            let new = read_again(alloc, value, &mut scratch)?;
            is_text_with_answer(alloc, before, places, Some(new.root(alloc)), edited)
        }
        Change::Take => is_text_with_answer(alloc, before, places, None, edited),
    }
}

// Whether an edited text, read again, is the document with the new value at the topmost of the places, or, if there is no
// new value, with nothing there.
fn is_text_with_answer(
    alloc: Global,
    before: OrderedValue<'_, '_>,
    places: &[Location],
    new: Option<OrderedValue<'_, '_>>,
    edited: &str,
) -> Result<bool, DocumentRefusal>
    ensures { IfOk result (λ same. IsTrue same → ReadsWith (option_map document_at new.entry) places.now (value_view before.entry.value.now) edited.now) }
{
    let mut scratch = Scratch::new(alloc);
    let after = read_again(alloc, edited, &mut scratch)?;
    let targets = locations_below_root(places);
    Ok(is_changed_value(before, after.root(alloc), targets, 0, new))
}

// The document of a text. Refused as `EditNests` where it can't be read.
fn read_again<'a>(
    alloc: Global,
    text: &'a str,
    scratch: &'a mut Scratch,
) -> Result<Document<'a>, DocumentRefusal>
    ensures { IfOk result (λ document. exact_of text.now ≡ Some (value_view document.exact)) }
{
    match Document::read(alloc, text, scratch) {
        Ok(document) => Ok(document),
        Err(DocumentRefusal::OutOfMemory) => Err(DocumentRefusal::OutOfMemory),
        Err(_) => Err(DocumentRefusal::EditNests),
    }
}
