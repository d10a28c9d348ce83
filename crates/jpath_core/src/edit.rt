//! Edits by a path: the text of a document with what the path selects changed, and checked before it is returned.

ghost use Rattle.std.specs.Prelude.{IfOk};
ghost use Rattle.std.specs.List.Sorted.{IsStrictlySortedBy};
ghost use Rattle.json.specs.Value.{value_view};
ghost use Rattle.jsonpath_nodes.specs.place.Location.{location_cmp};
ghost use Rattle.jsonpath_select.specs.Targets.{AreTargets};
ghost use Rattle.json_trees.specs.ExactDocument.{exact_document};
ghost use Rattle.jpath_edits.specs.Changed.{put_by, IsSpliced};
ghost use Rattle.jpath_core.specs.Edited.{IsEditedAt};

use crate::selection::select_in_document;
use jpath_edits::{
    Change, PartReader, are_bytes_of_changed_document, changed_text, locations_below_root,
};
use jpath_texts::{Document, DocumentRefusal, Query};
use jsonpath_nodes::{Location, compute_paths};
use std::alloc::Global;

/// The result of an edit of a document: the edited text, how many values, members or items were to be changed, and
/// whether the edit's path selects the root.
#[derive(Drop)]
pub struct Edited {
    /// A field of the result of an edit: the text of the edited document.
    pub text: Vec<u8>,
    /// A field of the result of an edit. For an edit that replaces or removes values: how many different locations
    /// below the root its path selects. For an edit that adds or renames: how many members or items were added, or how
    /// many members were renamed.
    pub targets: usize,
    /// A field of the result of an edit: whether the path of the edit selects the root, which can be neither replaced
    /// nor removed. For an edit that adds members or items or renames members, it is always false.
    pub selects_root: bool,
}

/// The text of a document after `change` is made at each value that one path selects in the original document. The root
/// is not changed, nor is a value inside another changed value. `text` is the text from which the document was read;
/// `reader` reads the replaced parts, with memory that it keeps from edit to edit. To replace a value, its own text is
/// replaced. To remove it, the whole member or item is removed: the blanks before it, its name and colon, and the comma
/// after it (or before it, if nothing is left after it). If an object has the name of a removed member several times,
/// each of these members is removed. Every other byte of the text stays.
///
/// The edited text is read again before it is returned. Errors: `EditNests` if it nests too deep to be read, or if the
/// new value is no JSON; `EditDiffers` if what is read is another document, which would be a fault of this library; or
/// those of `select_in_document`.
pub fn edit_text(
    reader: &mut PartReader,
    text: &str,
    document: &Document<'_>,
    query: &Query<'_>,
    change: Change<'_>,
) -> Result<Edited, DocumentRefusal>
    ensures bytes { IfOk result (λ edited. IsSpliced (put_by change.entry) text.now edited.text.items) }
    ensures targets { IfOk result (λ edited. IsEditedAt query.now.path change.entry (value_view document.now.exact) text.now edited.text.items) }
{
    let alloc = reader.alloc();
    let places = select_locations_in_document_order(alloc, document, query)?;
    let all = places.as_slice();
    let root = document.root(alloc);
    let written = changed_text(reader, text, root, all, change)?;
    if !are_bytes_of_changed_document(alloc, root, all, change, written.as_slice())? {
        return Err(DocumentRefusal::EditDiffers);
    }
    let targets = locations_below_root(all).len();
    Ok(Edited {
        text: written,
        targets,
        selects_root: targets < all.len(),
    })
}

// Where the path leads in the document, each place once, in document order.
pub(crate) fn select_locations_in_document_order(
    alloc: Global,
    document: &Document<'_>,
    query: &Query<'_>,
) -> Result<Vec<Location>, DocumentRefusal>
    ensures targets { IfOk result (λ places. AreTargets query.now.path (exact_document (value_view document.now.exact)) places.items) }
    ensures ordered { IfOk result (λ places. IsStrictlySortedBy location_cmp places.items) }
{
    let nodes = select_in_document(alloc, document, query)?;
    let places = compute_paths(alloc, nodes.as_slice())?;
    Ok(places)
}
