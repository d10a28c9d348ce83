//! A text with other bytes in place of some of its parts.

ghost use Rattle.std.specs.Prelude.{IfOk, IfSome};
ghost use Rattle.jpath_edits.specs.Changed.{IsSplicedAt};

use crate::parts::part::Part;
use std::alloc::{AllocError, Global};

// The text with these bytes in place of each of the parts, which rise and do not overlap; `None`
// where they don't.
pub(crate) fn splice_parts(
    alloc: Global,
    text: &[u8],
    parts: &[Part],
    put: &[u8],
) -> Result<Option<Vec<u8>>, AllocError>
    ensures { IfOk result (λ found. IfSome found (λ written. IsSplicedAt parts.now put.now text.now written.items)) }
{
    let mut written = Vec::with_capacity(alloc, text.len())?;
    let mut at = 0usize;
    for part in parts {
        if part.start < at || part.end < part.start || text.len() < part.end {
            return Ok(None);
        }
        written.extend_from_slice(&text[at..part.start])?;
        written.extend_from_slice(put)?;
        at = part.end;
    }
    written.extend_from_slice(&text[at..])?;
    Ok(Some(written))
}
