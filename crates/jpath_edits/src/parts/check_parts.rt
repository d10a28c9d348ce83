//! Whether the parts of the text that an edit replaces are what is at the locations that it changes.

ghost use Rattle.std.specs.Prelude.{map, IfOk, IsTrue};
ghost use Rattle.json.specs.Value.{value_view};
ghost use Rattle.jpath_edits.specs.Changed.{part_text, IsTextAt, AreTextsAt, GiveWay};

use crate::change::Change;
use crate::parts::check_taken_parts::are_members_or_items_at;
use crate::parts::part::Part;
use crate::parts::part_texts::{PartReader, has_no_outer_blanks};
use crate::target_locations::topmost_locations;
use jpath_texts::{DocumentRefusal, OrderedValue};
use jsonpath_nodes::Location;

// Whether the parts of a text are what is to give way at the topmost of the targets.
pub(crate) fn are_parts_at_targets(
    reader: &mut PartReader,
    text: &str,
    root: OrderedValue<'_, '_>,
    targets: &[Location],
    parts: Vec<Part>,
    change: Change<'_>,
) -> Result<bool, DocumentRefusal>
    ensures { IfOk result (λ right. IsTrue right → GiveWay change.entry (value_view root.entry.value.now) targets.now (map (part_text text.now) parts.items)) }
{
    let tops = topmost_locations(reader.alloc(), targets)?;
    let mut ordered = parts;
    ordered.sort_by_key(|part| part.target)?;
    match change {
        Change::Put(_) => are_texts_at(reader, text, root, tops.as_slice(), ordered.as_slice()),
        Change::Take => are_members_or_items_at(
            reader,
            text,
            root,
            tops.as_slice(),
            ordered.as_slice(),
        ),
    }
}

// Whether there is a part for each location, and each is the text of what stands there.
fn are_texts_at(
    reader: &mut PartReader,
    text: &str,
    root: OrderedValue<'_, '_>,
    locations: &[&Location],
    parts: &[Part],
) -> Result<bool, DocumentRefusal>
    ensures { IfOk result (λ right. IsTrue right → AreTextsAt (value_view root.entry.value.now) (map (λ l. l.now) locations.now) (map (part_text text.now) parts.now)) }
{
    for (index, location) in locations.iter().enumerate() {
        let Some(part) = parts.get(index) else {
            return Ok(false);
        };
        if !is_text_at(reader, text, root, location, part)? {
            return Ok(false);
        }
    }
    Ok(parts.len() == locations.len())
}

// Whether a part is the text of what stands at the location, with no blanks around it.
fn is_text_at(
    reader: &mut PartReader,
    text: &str,
    root: OrderedValue<'_, '_>,
    location: &Location,
    part: &Part,
) -> Result<bool, DocumentRefusal>
    ensures { IfOk result (λ right. IsTrue right → IsTextAt (value_view root.entry.value.now) location.now (part_text text.now part.now)) }
{
    match (text.get(part.start..part.end), root.value_at(location)) {
        (Some(part), Some(value)) => if has_no_outer_blanks(part.as_bytes()) {
            reader.is_text_of(part, value.value())
        } else {
            Ok(false)
        },
        _ => Ok(false),
    }
}
