//! Whether the parts to be removed are the members and items at the locations that the edit changes.

ghost use Rattle.std.specs.Prelude.{[], ◌∷◌, map, IfOk, IfSome, IsTrue};
ghost use Rattle.json.specs.Value.{value_view};
ghost use Rattle.jsonpath_nodes.specs.place.Owned.{owned_step};
ghost use Rattle.json_trees.specs.ExactAt.{values_by};
ghost use Rattle.jpath_edits.specs.Changed.{part_text, IsLabel, IsChildText, AreChildrenBefore, IsTakenBefore, AreTakenAt};

use crate::parts::part::Part;
use crate::parts::part_texts::{PartReader, is_blank_with_optional_comma};
use jpath_texts::{DocumentRefusal, MemberValue, OrderedValue};
use json::Value as Exact;
use jsonpath_nodes::{LocStep, Location};

// Whether the parts of a text are the members and items at these locations, in their order.
pub(crate) fn are_members_or_items_at(
    reader: &mut PartReader,
    text: &str,
    root: OrderedValue<'_, '_>,
    locations: &[&Location],
    parts: &[Part],
) -> Result<bool, DocumentRefusal>
    ensures { IfOk result (λ right. IsTrue right → AreTakenAt (value_view root.entry.value.now) (map (λ l. l.now) locations.now) (map (part_text text.now) parts.now)) }
{
    let mut left = parts;
    for location in locations {
        match strip_parts_of_location(reader, text, root, location, left)? {
            Some(behind) => left = behind,
            None => return Ok(false),
        }
    }
    Ok(left.is_empty())
}

// The rest of the parts, without those of the member or item at one location, with which they have to begin; None where
// they don't.
fn strip_parts_of_location<'p>(
    reader: &mut PartReader,
    text: &str,
    root: OrderedValue<'_, '_>,
    location: &Location,
    parts: &'p [Part],
) -> Result<Option<&'p [Part]>, DocumentRefusal>
    ensures { IfOk result (λ found. IfSome found (λ behind. IsTakenBefore (value_view root.entry.value.now) location.now (map (part_text text.now) parts.entry.now) (map (part_text text.now) behind.now))) }
{
    match location.steps().split_last() {
        Some((step, above)) => match root.value_below(above) {
            Some(parent) => strip_parts_of_children(reader, text, parent, step, parts),
            None => Ok(None),
        },
        None => Ok(None),
    }
}

// The rest of the parts, without those of what the step leads to from a value, with which they have to begin; None
// where they don't. All of them where the step leads to nothing.
fn strip_parts_of_children<'p>(
    reader: &mut PartReader,
    text: &str,
    parent: OrderedValue<'_, '_>,
    step: &LocStep,
    parts: &'p [Part],
) -> Result<Option<&'p [Part]>, DocumentRefusal>
    ensures { IfOk result (λ found. IfSome found (λ behind. AreChildrenBefore (owned_step step.now) (values_by (owned_step step.now) (value_view parent.entry.value.now)) (map (part_text text.now) parts.entry.now) (map (part_text text.now) behind.now))) }
{
    match step {
        LocStep::Name(name) => {
            let values = parent.values_named(name.as_str())?;
            strip_parts_of_values(reader, text, values.as_slice(), step, parts)
        }
        LocStep::Index(index) => match parent.value().at(*index) {
            Some(item) => strip_part_of_child(reader, text, item, step, parts),
            None => Ok(Some(parts)),
        },
    }
}

// The rest of the parts, without those of the members or the item that have these values, with which they have to begin;
// None where they don't.
fn strip_parts_of_values<'p>(
    reader: &mut PartReader,
    text: &str,
    values: &[MemberValue<'_, '_>],
    step: &LocStep,
    parts: &'p [Part],
) -> Result<Option<&'p [Part]>, DocumentRefusal>
    ensures { IfOk result (λ found. IfSome found (λ behind. AreChildrenBefore (owned_step step.now) (map (λ m. value_view m.value.now) values.now) (map (part_text text.now) parts.entry.now) (map (part_text text.now) behind.now))) }
{
    let mut left = parts;
    for member in values {
        match strip_part_of_child(reader, text, member.value, step, left)? {
            Some(behind) => left = behind,
            None => return Ok(None),
        }
    }
    Ok(Some(left))
}

// The rest of the parts, without the first one, which has to be the text of the item with this value, or of the member
// with the step's name and this value; None where it isn't.
fn strip_part_of_child<'p>(
    reader: &mut PartReader,
    text: &str,
    value: &Exact<'_>,
    step: &LocStep,
    parts: &'p [Part],
) -> Result<Option<&'p [Part]>, DocumentRefusal>
    ensures { IfOk result (λ found. IfSome found (λ behind. AreChildrenBefore (owned_step step.now) (value_view value.now ∷ []) (map (part_text text.now) parts.entry.now) (map (part_text text.now) behind.now))) }
{
    match parts.split_first() {
        Some((part, behind)) => if is_child_text(reader, text, step, value, part)? {
            Ok(Some(behind))
        } else {
            Ok(None)
        },
        None => Ok(None),
    }
}

// Whether a part is the text of the item with this value, or of the member with the step's name and this value, with
// blanks and at most one comma on either side.
fn is_child_text(
    reader: &mut PartReader,
    text: &str,
    step: &LocStep,
    value: &Exact<'_>,
    part: &Part,
) -> Result<bool, DocumentRefusal>
    ensures { IfOk result (λ right. IsTrue right → IsChildText (owned_step step.now) (value_view value.now) (part_text text.now part.now)) }
{
    let (Some(before), Some(label)) = (
        text.get(part.start..part.label),
        text.get(part.label..part.value),
    ) else {
        return Ok(false);
    };
    let (Some(own), Some(behind)) = (
        text.get(part.value..part.value_end),
        text.get(part.value_end..part.end),
    ) else {
        return Ok(false);
    };
    if !is_blank_with_optional_comma(before.as_bytes())
        || !is_blank_with_optional_comma(behind.as_bytes())
        || !is_text_before_value(reader, label, step)?
    {
        return Ok(false);
    }
    reader.is_text_of(own, value)
}

// Whether a text is what stands before the value that the step leads to: a name and a colon, or nothing before an item.
fn is_text_before_value(
    reader: &mut PartReader,
    text: &str,
    step: &LocStep,
) -> Result<bool, DocumentRefusal>
    ensures { IfOk result (λ right. IsTrue right → IsLabel (owned_step step.now) text.now) }
{
    match step {
        LocStep::Name(name) => reader.is_name_with_colon(text, name.as_str()),
        LocStep::Index(_) => Ok(text.is_empty()),
    }
}
