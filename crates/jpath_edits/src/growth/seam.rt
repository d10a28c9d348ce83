//! Seams: stretches of a text that give way to other bytes, each to bytes of its own.

ghost use Rattle.std.specs.Prelude.{map, slice_range, IfOk, IfSome, IsTrue};
ghost use Rattle.jpath_edits.specs.Grown.{AreGoneFor, IsFilledAt, IsGoneFor};

use crate::growth::Growth;
use crate::parts::part_texts::PartReader;
use jpath_texts::DocumentRefusal;
use json::Value as Exact;
use std::alloc::{AllocError, Global};

// A stretch of a text that gives way to other bytes. It is empty where they are only added.
#[derive(Drop)]
pub(crate) struct Seam {
    pub(crate) start: usize,
    pub(crate) end: usize,
    pub(crate) put: Vec<u8>,
}

// The text with the bytes of each seam in its place; `None` where the seams don't rise or overlap.
pub(crate) fn fill_seams(
    alloc: Global,
    text: &[u8],
    seams: &[Seam],
) -> Result<Option<Vec<u8>>, AllocError>
    ensures { IfOk result (λ found. IfSome found (λ written. IsFilledAt seams.now text.now written.items)) }
{
    let mut written = Vec::with_capacity(alloc, text.len())?;
    let mut at = 0usize;
    for seam in seams {
        if seam.start < at || seam.end < seam.start || text.len() < seam.end {
            return Ok(None);
        }
        written.extend_from_slice(&text[at..seam.start])?;
        written.extend_from_slice(seam.put.as_slice())?;
        at = seam.end;
    }
    written.extend_from_slice(&text[at..])?;
    Ok(Some(written))
}

// Whether what gives way at each seam is nothing, or where a name is changed that name.
pub(crate) fn are_seams_of(
    alloc: Global,
    text: &str,
    seams: &[Seam],
    growth: &Growth<'_, '_>,
) -> Result<bool, DocumentRefusal>
    ensures { IfOk result (λ right. IsTrue right → AreGoneFor growth.now (map (λ s. slice_range text.now s.start s.end) seams.now)) }
{
    for seam in seams {
        if !is_seam_of(alloc, text, seam, growth)? {
            return Ok(false);
        }
    }
    Ok(true)
}

// Whether what gives way at the seam is nothing, or where a name is changed that name.
fn is_seam_of(
    alloc: Global,
    text: &str,
    seam: &Seam,
    growth: &Growth<'_, '_>,
) -> Result<bool, DocumentRefusal>
    ensures { IfOk result (λ right. IsTrue right → IsGoneFor growth.now (slice_range text.now seam.now.start seam.now.end)) }
{
    let Some(gone) = text.get(seam.start..seam.end) else {
        return Ok(false);
    };
    match growth {
        Growth::Name(old, _) => PartReader::new(alloc).is_text_of(gone, &Exact::String(*old)),
        _ => Ok(gone.is_empty()),
    }
}
