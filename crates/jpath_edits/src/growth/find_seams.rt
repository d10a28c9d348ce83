//! Finds where a document's text grows, and the bytes that go there.

ghost use Rattle.jpath_edits.specs.Grown.{CanBeWritten};

use crate::growth::Growth;
use crate::growth::layout::{DocumentStyle, LastChild, add_name_text};
use crate::growth::seam::Seam;
use crate::parts::find_parts::find_parts;
use crate::parts::part::Part;
use crate::parts::positions::{ChildStart, Positions};
use crate::target_locations::locations_below_root;
use jpath_texts::{OrderedValue, add_compact_value};
use json::Value as Exact;
use jsonpath_nodes::Location;
use std::alloc::{AllocError, Global};

// The seams of a document's text, in the text's order, where something is made at the topmost of these places.
pub(crate) fn find_seams(
    alloc: Global,
    text: &str,
    root: OrderedValue<'_, '_>,
    places: &[Location],
    growth: &Growth<'_, '_>,
) -> Result<Vec<Seam>, AllocError>
    requires { CanBeWritten growth.now }
{
    let at = Positions {
        text: text.as_bytes(),
    };
    let below = locations_below_root(places);
    if let Growth::Name(_, new) = growth {
        let parts = find_parts(alloc, text, root.value(), below, true)?;
        return seams_at_names(alloc, at, parts.as_slice(), *new);
    }
    if below.len() < places.len() {
        let whole = Part::of_value(at.blanks_end(0), text.len(), 0);
        return seams_in_containers(alloc, at, root, &[whole], &places[..1], growth);
    }
    let parts = find_parts(alloc, text, root.value(), places, false)?;
    seams_in_containers(alloc, at, root, parts.as_slice(), places, growth)
}

// A seam at the name of each member among the parts, with the new name.
fn seams_at_names(
    alloc: Global,
    at: Positions<'_>,
    parts: &[Part],
    new: &str,
) -> Result<Vec<Seam>, AllocError> {
    let mut seams = Vec::new(alloc);
    for part in parts {
        if part.label < part.value {
            let mut put = Vec::new(alloc);
            add_name_text(alloc, new, &mut put)?;
            seams.push(Seam {
                start: part.label,
                end: at.value_end(part.label),
                put,
            })?;
        }
    }
    Ok(seams)
}

// A seam at the end of each object or list among the parts, with what is made there.
fn seams_in_containers(
    alloc: Global,
    at: Positions<'_>,
    root: OrderedValue<'_, '_>,
    parts: &[Part],
    places: &[Location],
    growth: &Growth<'_, '_>,
) -> Result<Vec<Seam>, AllocError>
    requires { CanBeWritten growth.now }
{
    let style = DocumentStyle::of_text(at.text);
    let mut seams = Vec::new(alloc);
    for part in parts {
        let Some(place) = places.get(part.target) else {
            continue;
        };
        let Some(container) = root.value_at(place) else {
            continue;
        };
        let last = match (container.value(), growth) {
            (Exact::Object(members), Growth::Member(_, _)) => {
                last_child(at, part.value, members.len(), true)
            }
            (Exact::Array(items), Growth::Item(_)) => last_child(
                at,
                part.value,
                items.len(),
                false,
            ),
            _ => continue,
        };
        seams.push(seam_at_end(alloc, at, part.value, last, growth, &style)?)?;
    }
    Ok(seams)
}

// The last of so many members or items of the object or list that begins at `start`, if there are any.
fn last_child(at: Positions<'_>, start: usize, count: usize, is_object: bool) -> Option<LastChild> {
    let mut last = None;
    let mut from = start.saturating_add(1);
    for index in 0..count {
        let begins = if is_object {
            at.member_start(from)
        } else {
            ChildStart::of_item(at.blanks_end(from))
        };
        let end = at.value_end(begins.value);
        last = Some(LastChild {
            from,
            begins,
            end,
            is_only: index == 0,
        });
        from = at.position_behind_comma(end);
    }
    last
}

// The seam at the end of the object or list that begins at `start`, whose last member or item this is.
fn seam_at_end(
    alloc: Global,
    at: Positions<'_>,
    start: usize,
    last: Option<LastChild>,
    growth: &Growth<'_, '_>,
    style: &DocumentStyle<'_>,
) -> Result<Seam, AllocError>
    requires { CanBeWritten growth.now }
{
    let mut put = Vec::new(alloc);
    let position = match last {
        Some(last) => {
            put.push(b',')?;
            put.extend_from_slice(style.blanks_like(at, &last))?;
            add_made_text(alloc, growth, style.colon_like(at, &last), &mut put)?;
            last.end
        }
        None => {
            style.add_line_start(at, start, true, &mut put)?;
            add_made_text(alloc, growth, style.colon(), &mut put)?;
            if !style.has_line_end_behind(at, start) {
                style.add_line_start(at, start, false, &mut put)?;
            }
            start.saturating_add(1)
        }
    };
    Ok(Seam {
        start: position,
        end: position,
        put,
    })
}

// Writes what is made: a member's name and colon, and the value.
fn add_made_text(
    alloc: Global,
    growth: &Growth<'_, '_>,
    colon: &[u8],
    put: &mut Vec<u8>,
) -> Result<(), AllocError>
    requires { CanBeWritten growth.now }
{
    match growth {
        Growth::Member(name, value) => {
            add_name_text(alloc, *name, put)?;
            put.extend_from_slice(colon)?;
            add_compact_value(alloc, put, *value)
        }
        Growth::Item(value) => add_compact_value(alloc, put, *value),
        Growth::Name(_, _) => Ok(()),
    }
}
