//! Edits that make something: a member at the end of an object, an item at the end of a list, a name in place of
//! another. Every other byte of the text stays.

ghost use Rattle.std.specs.Prelude.{◌≡◌, map, IfOk, IfSome, IsTrue, Some};
ghost use Rattle.json.specs.Value.{value_view};
ghost use Rattle.jsonpath_nodes.specs.place.Owned.{owned_steps};
ghost use Rattle.jpath_edits.specs.Grown.{container_of, containers_of, grown_all, CanBeWritten, IsGrownAt};
ghost use Rattle.json_trees.specs.Exact.{exact_of};

mod find_seams;
mod is_grown_text;
mod layout;
mod seam;
mod take_back;

use crate::target_locations::topmost_locations;
use find_seams::find_seams;
use is_grown_text::is_grown_text;
use jpath_texts::{DocumentRefusal, OrderedValue};
use json::Value as Exact;
use jsonpath_nodes::{LocStep, Location};
use seam::{are_seams_of, fill_seams};
use std::alloc::{AllocError, Global};
use std::str;

/// What an edit adds or renames in a document: it adds a member to an object or an item to an array, or renames a
/// member.
#[derive(Clone, Copy, Debug, Drop)]
pub enum Growth<'c, 'v> {
    /// A change of an object: a member with this name and this value is added at its end. The object must have no
    /// member of that name; if it has one, the edit fails.
    Member(&'c str, &'c Exact<'v>),
    /// A change of an array: an item with this value is added at its end.
    Item(&'c Exact<'v>),
    /// A change of an object: a member is renamed from the first name to the second. The object must have no member of
    /// the second name; if it has one, nothing is renamed.
    Name(&'c str, &'c str),
}

/// The text of an edited document, and how many members or items were added to it, or members renamed in it.
#[derive(Drop)]
pub struct Grown {
    /// A field of the result of an edit that adds or renames: the text of the edited document.
    pub text: Vec<u8>,
    /// A field of the result of an edit that adds or renames: how many members or items were added, or how many members
    /// were renamed. If an object has the old name several times, each of these members is counted.
    pub count: usize,
}

/// The text of a document with members or items added or members renamed, as `growth` says, at each location of
/// `places` that is not below another one of them. `root` is the document's root, whose value keeps numbers as written.
/// `places` has each location once, in document order: parents first, names by bytes, indexes by number. To add a
/// member or an item, the locations are those of the objects or arrays to which it is added; a value of another type
/// stays as it is. To rename, they are the locations of the members.
///
/// A new member or item gets the same blanks before it as the last member or item that its object or array had. If that
/// object or array had only one, with no blanks before it, the new one gets one blank if the document has a blank after
/// its first colon, else none. In an empty object or array, the new one is laid out like the document: on an indented
/// line of its own if the document has several lines.
///
/// Returns `None` if one of the members to be renamed is in an object that has a member of the new name already.
/// Errors: `EditNests` if the edited text nests too deep to be read; `EditDiffers` if, read again, it is not the
/// document with these changes, which would be a fault of this library; or `OutOfMemory`.
pub fn grown_text(
    alloc: Global,
    text: &str,
    root: OrderedValue<'_, '_>,
    places: &[Location],
    growth: &Growth<'_, '_>,
) -> Result<Option<Grown>, DocumentRefusal>
    requires { CanBeWritten growth.now }
    ensures { IfOk result (λ found. IfSome found (λ grown. IsGrownAt growth.now (value_view root.entry.value.now) places.now text.now grown.text.items)) }
{
    let containers = containers(alloc, places, growth)?;
    if is_name_taken(root, containers.as_slice(), growth) {
        return Ok(None);
    }
    let seams = find_seams(alloc, text, root, places, growth)?;
    let Some(bytes) = fill_seams(alloc, text.as_bytes(), seams.as_slice())? else {
        return Err(DocumentRefusal::EditDiffers);
    };
    if !are_seams_of(alloc, text, seams.as_slice(), growth)?
        || !is_grown(
            alloc,
            bytes.as_slice(),
            root.value(),
            containers.as_slice(),
            growth,
        )?
    {
        return Err(DocumentRefusal::EditDiffers);
    }
    Ok(Some(Grown {
        text: bytes,
        count: seams.len(),
    }))
}

// Whether these bytes, read, are the document with the growth made in each of these containers; false if they are not
// UTF-8.
fn is_grown(
    alloc: Global,
    bytes: &[u8],
    exact: &Exact<'_>,
    containers: &[&[LocStep]],
    growth: &Growth<'_, '_>,
) -> Result<bool, DocumentRefusal>
    ensures { IfOk result (λ right. IsTrue right → exact_of bytes.now ≡ Some (grown_all growth.now (map (λ c. owned_steps c.now) containers.now) (value_view exact.now))) }
{
    match str::from_utf8(bytes) {
        Ok(written) => is_grown_text(alloc, written, exact, containers, growth),
        Err(_) => Ok(false),
    }
}

// Where the objects and lists stand in which something is made, for the topmost of these places.
fn containers<'l>(
    alloc: Global,
    places: &'l [Location],
    growth: &Growth<'_, '_>,
) -> Result<Vec<&'l [LocStep]>, AllocError>
    ensures { IfOk result (λ found. map (λ c. owned_steps c.now) found.items ≡ containers_of growth.now places.now) }
{
    let tops = topmost_locations(alloc, places)?;
    let mut found = Vec::new(alloc);
    for location in tops.as_slice() {
        found.push(container(location, growth))?;
    }
    Ok(found)
}

// Where the object or list stands in which something is made: at a location itself, or above a member that gets
// another name.
fn container<'l>(location: &'l Location, growth: &Growth<'_, '_>) -> &'l [LocStep]
    ensures { owned_steps result.now ≡ container_of growth.now location.now }
{
    match growth {
        Growth::Name(_, _) => match location.steps().split_last() {
            Some((_, above)) => above,
            None => location.steps(),
        },
        _ => location.steps(),
    }
}

// Whether a name is to be given to a member of an object that has one of that name already.
fn is_name_taken(
    root: OrderedValue<'_, '_>,
    containers: &[&[LocStep]],
    growth: &Growth<'_, '_>,
) -> bool {
    match growth {
        Growth::Name(_, new) => containers.iter().any(|container| {
            match root.value_below(*container) {
                Some(object) => object.value().get(*new).is_some(),
                None => false,
            }
        }),
        _ => false,
    }
}
