//! Edits by a path that make something in a document, or give members another name.

ghost use Rattle.std.specs.Prelude.{IfOk, IfSome};
ghost use Rattle.json.specs.Value.{value_view};
ghost use Rattle.jpath_edits.specs.Grown.{CanBeWritten, IsGrownAt};
ghost use Rattle.jpath_edits.specs.declared.growth.Growth.TheVariants.{Name};
ghost use Rattle.jpath_core.specs.Edited.{IsAppended, IsGrownByPath, IsMade, IsMemberPut};

use crate::edit::{Edited, edit_text, select_locations_in_document_order};
use crate::output::matches::count_matches_of_path;
use jpath_edits::{Change, Growth, PartReader, grown_text};
use jpath_texts::{Document, DocumentRefusal, Query, read_exact_tree};
use json::Scratch;
use jsonpath_nodes::Location;
use std::alloc::Global;
use std::slice;

/// A member to be added to an object: the location of the object, the member's name, and the JSON text of its value.
#[derive(Clone, Copy, Drop)]
pub struct NewMember<'m> {
    pub above: &'m Location,
    pub name: &'m str,
    pub value: &'m str,
}

/// Returns the text of a document in which one member is set. `query` is the path to this member; `member` gives the
/// location of its object (`above`), its name, and the JSON text of its new value. If the path selects a value, this
/// value is replaced, as `edit_text` does with `reader`. If it selects nothing, the member is added at the end of the
/// object at `member.above`; if there is no object at that location, the text is returned unchanged. Every other byte
/// of the text stays.
///
/// The edited text is read again before it is returned. Errors: `EditNests` if the edited text nests too deep to be
/// read, or if a value is to be replaced and the new value is no JSON; `EditDiffers` if what is read is not the edited
/// document, which would be a fault of this library; `NotADocument` if a member is to be added and its value is no JSON
/// or nests deeper than 127 levels; or those of `select_in_document`.
pub fn add_member_text(
    reader: &mut PartReader,
    text: &str,
    document: &Document<'_>,
    query: &Query<'_>,
    member: &NewMember<'_>,
) -> Result<Edited, DocumentRefusal>
    ensures { IfOk result (λ edited. IsMemberPut query.now.path member.now (value_view document.now.exact) text.now edited.text.items) }
{
    let alloc = reader.alloc();
    if count_matches_of_path(alloc, document, query)? > 0 {
        return edit_text(reader, text, document, query, Change::Put(member.value));
    }
    make_member_text(alloc, text, document, member)
}

// The text of a document in which a growth is made at these places, or `None` where it can't be made.
fn text_with_growth(
    alloc: Global,
    text: &str,
    document: &Document<'_>,
    places: &[Location],
    growth: &Growth<'_, '_>,
) -> Result<Option<Edited>, DocumentRefusal>
    requires { CanBeWritten growth.now }
    ensures { IfOk result (λ found. IfSome found (λ edited. IsGrownAt growth.now (value_view document.now.exact) places.now text.now edited.text.items)) }
{
    match grown_text(alloc, text, document.root(alloc), places, growth)? {
        Some(grown) => Ok(Some(Edited {
            text: grown.text,
            targets: grown.count,
            selects_root: false,
        })),
        None => Ok(None),
    }
}

// The text of a document with a member made that isn't there.
fn make_member_text(
    alloc: Global,
    text: &str,
    document: &Document<'_>,
    member: &NewMember<'_>,
) -> Result<Edited, DocumentRefusal>
    ensures { IfOk result (λ edited. IsMade member.now (value_view document.now.exact) text.now edited.text.items) }
{
    let mut scratch = Scratch::new(alloc);
    let value = read_exact_tree(alloc, member.value, &mut scratch)?;
    let growth = Growth::Member(member.name, &value);
    let places = slice::from_ref(member.above);
    match text_with_growth(alloc, text, document, places, &growth)? {
        Some(edited) => Ok(edited),
        None => Err(DocumentRefusal::EditDiffers),
    }
}

/// The text of a document with an item added at the end of each array that a path selects, except arrays inside another
/// selected value. Selected values that are no arrays stay as they are. `value` is the item's JSON text. Every other
/// byte of the text stays.
///
/// The edited text is read again before it is returned. Errors: `NotADocument` if `value` is no JSON or nests deeper
/// than 127 levels; `EditNests` if the edited text nests too deep to be read; `EditDiffers` if what is read is not the
/// edited document, which would be a fault of this library; or those of `select_in_document`.
pub fn append_text(
    alloc: Global,
    text: &str,
    document: &Document<'_>,
    query: &Query<'_>,
    value: &str,
) -> Result<Edited, DocumentRefusal>
    ensures { IfOk result (λ edited. IsAppended query.now.path value.now (value_view document.now.exact) text.now edited.text.items) }
{
    let places = select_locations_in_document_order(alloc, document, query)?;
    let mut scratch = Scratch::new(alloc);
    let item = read_exact_tree(alloc, value, &mut scratch)?;
    let growth = Growth::Item(&item);
    match text_with_growth(alloc, text, document, places.as_slice(), &growth)? {
        Some(edited) => Ok(edited),
        None => Err(DocumentRefusal::EditDiffers),
    }
}

/// The text of a document in which each member that a path selects is renamed, except members inside another selected
/// value. `old` is the name with which the path ends, `new` the members' new name. Returns `None`, and renames nothing,
/// if one of the objects around these members has a member named `new` already. Every other byte of the text stays.
///
/// The edited text is read again before it is returned. Errors: `EditNests` if it nests too deep to be read;
/// `EditDiffers` if what is read is not the edited document, which would be a fault of this library; or those of
/// `select_in_document`.
pub fn rename_text(
    alloc: Global,
    text: &str,
    document: &Document<'_>,
    query: &Query<'_>,
    old: &str,
    new: &str,
) -> Result<Option<Edited>, DocumentRefusal>
    ensures { IfOk result (λ found. IfSome found (λ edited. IsGrownByPath query.now.path (Name old.entry new.entry) (value_view document.now.exact) text.now edited.text.items)) }
{
    let places = select_locations_in_document_order(alloc, document, query)?;
    let growth = Growth::Name(old, new);
    text_with_growth(alloc, text, document, places.as_slice(), &growth)
}
