//! Changes of a document's text: the values at some locations are replaced, and every other byte stays.

ghost use Rattle.std.specs.Prelude.{◌≡◌, IfOk};
ghost use Rattle.json.specs.Value.{value_view};
ghost use Rattle.jpath_edits.specs.Changed.{put_by, IsChangedAt};

use crate::parts::check_parts::are_parts_at_targets;
use crate::parts::find_parts::find_parts;
use crate::parts::part_texts::PartReader;
use crate::parts::splice::splice_parts;
use crate::target_locations::locations_below_root;
use jpath_texts::{DocumentRefusal, OrderedValue};
use jsonpath_nodes::Location;

/// What an edit does with each value that the edit's path selects: it replaces the value or removes it.
#[derive(Clone, Copy, Debug, Drop)]
pub enum Change<'c> {
    /// A change of a document: each selected value is replaced by this JSON text.
    Put(&'c str),
    /// What an edit does: it removes each selected member or item from the document's text, together with the blanks
    /// before it and one comma. This is the comma after it or, if there is none, the one before it.
    Take,
}

impl<'c> Change<'c> {
    // The bytes that take the place of each part that gives way: the new text, or none where the part is taken.
    fn replacement_bytes(&self) -> &'c [u8]
        ensures { result.now ≡ put_by self.now }
    {
        match *self {
            Change::Put(text) => text.as_bytes(),
            Change::Take => &[],
        }
    }
}

/// The text of a document with `change` made, all at once, at each location of `places` except the root and locations
/// below another changed one. `root` is the document's root, whose value keeps numbers as written. `places` has each
/// location once, in document order: parents first, names by bytes, indexes by number. `reader` reads the replaced parts,
/// with memory that it keeps from edit to edit. Errors: `EditDiffers` if a part of the text that is to be replaced, read
/// by itself, is not the value that the document has at that location, which would be a fault of this library; or
/// `OutOfMemory`.
pub fn changed_text(
    reader: &mut PartReader,
    text: &str,
    root: OrderedValue<'_, '_>,
    places: &[Location],
    change: Change<'_>,
) -> Result<Vec<u8>, DocumentRefusal>
    ensures { IfOk result (λ written. IsChangedAt change.entry (value_view root.entry.value.now) places.now text.now written.items) }
{
    let alloc = reader.alloc();
    let targets = locations_below_root(places);
    let takes = matches!(change, Change::Take);
    let parts = find_parts(alloc, text, root.value(), targets, takes)?;
    let Some(written) = splice_parts(
        alloc,
        text.as_bytes(),
        parts.as_slice(),
        change.replacement_bytes(),
    )?
    else {
        return Err(DocumentRefusal::EditDiffers);
    };
    if !are_parts_at_targets(reader, text, root, targets, parts, change)? {
        return Err(DocumentRefusal::EditDiffers);
    }
    Ok(written)
}
