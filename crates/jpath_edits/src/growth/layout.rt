//! How a new member or item is laid out: like the one before it, or else like the document.

use crate::parts::positions::{ChildStart, Positions};
use jpath_texts::add_compact_value;
use json::Value as Exact;
use std::alloc::{AllocError, Global};

// The last member or item of an object or a list.
#[derive(Clone, Copy)]
pub(crate) struct LastChild {
    // Behind the comma or the bracket before it.
    pub(crate) from: usize,
    pub(crate) begins: ChildStart,
    pub(crate) end: usize,
    // Whether no other stands before it.
    pub(crate) is_only: bool,
}

// How a document is laid out.
#[derive(Clone, Copy)]
pub(crate) struct DocumentStyle<'t> {
    // Whether a blank stands behind its first colon.
    is_spaced: bool,
    // How its lines end; empty where it stands on one line.
    line_end: &'t [u8],
    // The blanks with which its second line begins.
    indentation: &'t [u8],
}

impl<'t> DocumentStyle<'t> {
    // How the document of this text is laid out.
    pub(crate) fn of_text(text: &'t [u8]) -> DocumentStyle<'t> {
        let line_end = match text.iter().position(|byte| *byte == b'\n') {
            Some(at) => at,
            None => text.len(),
        };
        let behind = text.get(line_end..).unwrap_or(b"");
        let has_return = line_end > 0 && text.get(line_end.saturating_sub(1)) == Some(&b'\r');
        DocumentStyle {
            is_spaced: has_blank_behind_colon(text),
            line_end: match (behind.first(), has_return) {
                (None, _) => b"",
                (Some(_), true) => b"\r\n",
                (Some(_), false) => b"\n",
            },
            indentation: leading_blanks(behind.get(1..).unwrap_or(b"")),
        }
    }

    // The blanks before a member or an item behind this last one: those before that one, or a blank where it stands
    // alone with none before it and the document has blanks.
    pub(crate) fn blanks_like(&self, at: Positions<'t>, last: &LastChild) -> &'t [u8] {
        let own = at.text.get(last.from..last.begins.label).unwrap_or(b"");
        if own.is_empty() && last.is_only && self.is_spaced {
            return b" ";
        }
        own
    }

    // The colon of a member behind this last one, with its blanks.
    pub(crate) fn colon_like(&self, at: Positions<'t>, last: &LastChild) -> &'t [u8] {
        let end = at.value_end(last.begins.label);
        at.text.get(end..last.begins.value).unwrap_or(b"")
    }

    // The colon of a member, with its blanks, where none stands beside it.
    pub(crate) fn colon(&self) -> &'t [u8] {
        if self.is_spaced { b": " } else { b":" }
    }

    // Writes a line end and the blanks of the line on which an object or a list begins, and for what stands in it one
    // indentation more; nothing where the document stands on one line.
    pub(crate) fn add_line_start(
        &self,
        at: Positions<'_>,
        start: usize,
        is_inside: bool,
        put: &mut Vec<u8>,
    ) -> Result<(), AllocError> {
        if self.line_end.is_empty() {
            return Ok(());
        }
        put.extend_from_slice(self.line_end)?;
        let before = at.text.get(..start).unwrap_or(b"");
        let line = match before.iter().rposition(|byte| *byte == b'\n') {
            Some(end) => before.get(end.saturating_add(1)..).unwrap_or(b""),
            None => b"",
        };
        put.extend_from_slice(leading_blanks(line))?;
        if is_inside {
            put.extend_from_slice(self.indentation)?;
        }
        Ok(())
    }

    // Whether a line end stands among the blanks of an empty object or list.
    pub(crate) fn has_line_end_behind(&self, at: Positions<'_>, start: usize) -> bool {
        let from = start.saturating_add(1);
        let blanks = at.text.get(from..at.blanks_end(from)).unwrap_or(b"");
        blanks.contains(&b'\n')
    }
}

// Writes a name in quotes.
pub(crate) fn add_name_text(
    alloc: Global,
    name: &str,
    put: &mut Vec<u8>,
) -> Result<(), AllocError> {
    add_compact_value(alloc, put, &Exact::String(name))
}

// The blanks and tabs with which the bytes begin.
fn leading_blanks(bytes: &[u8]) -> &[u8] {
    let end = match bytes
        .iter()
        .position(|byte| *byte != b' ' && *byte != b'\t')
    {
        Some(end) => end,
        None => bytes.len(),
    };
    bytes.get(..end).unwrap_or(b"")
}

// Whether a blank stands behind the first colon that follows a quote.
fn has_blank_behind_colon(text: &[u8]) -> bool {
    for (at, byte) in text.iter().enumerate() {
        let next = at.saturating_add(1);
        if *byte == b'"' && text.get(next) == Some(&b':') {
            return text.get(next.saturating_add(1)) == Some(&b' ');
        }
    }
    false
}
