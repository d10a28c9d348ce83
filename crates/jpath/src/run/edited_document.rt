//! The text of a document as the edits of the command line leave it.

use jpath_core::{
    Change, Document, DocumentRefusal, Edited, Look, NewMember, PartReader, add_member_text,
    add_value_in_look, append_text, edit_text, read_exact_tree, rename_text,
};
use jpath_words::{Edit, EditWords};
use json::Scratch;
use std::alloc::{AllocError, Global};
use std::str;

/// What `jpath` keeps from one document of its input to the next: the memory in which it reads a document and the parts
/// that an edit replaces, and one bool for each edit of the command line. The bool is true if the edit has changed some
/// document so far, or if a message was printed that says why it changed none.
#[derive(Drop)]
pub struct Kept {
    pub scratch: Scratch,
    // Made at the first edit.
    parts: Option<PartReader>,
    made_or_told: Vec<bool>,
}

impl Kept {
    /// Makes the state of a run before its first document is read. No buffer is kept for reuse yet, and no edit is
    /// recorded as having changed a document.
    pub fn new(alloc: Global) -> Kept {
        Kept {
            scratch: Scratch::new(alloc),
            parts: None,
            made_or_told: Vec::new(alloc),
        }
    }

    // Notes that the edit at this place of the command line was made in a document, or that a message said why not.
    fn note_made_or_told(&mut self, at: usize) -> Result<(), AllocError> {
        if self.made_or_told.len() <= at {
            self.made_or_told.resize(at.saturating_add(1), false)?;
        }
        if let Some(noted) = self.made_or_told.get_mut(at) {
            *noted = true;
        }
        Ok(())
    }

    /// Whether the edit at this index, counted from 0 in the order of the command line, has changed no document so far,
    /// and no message was printed that says why.
    pub fn has_made_nothing(&self, at: usize) -> bool {
        self.made_or_told.as_slice().get(at) != Some(&true)
    }
}

/// Makes all edits in the document with the text `text`, one after another, and appends the text of the edited document
/// to `out`. This text keeps the document's layout; but if `look`, which says how values are printed, asks for several
/// lines, the document is printed anew in that layout, with a line end. Returns a sum over all edits: how many
/// locations below the root each selected for replacing or removing, or how many members or items it added or renamed.
/// If an edit would replace or remove the root, the root stays; if the new name of a renaming is in use already, that
/// edit renames nothing. In both cases a message is printed on standard error, and no error is returned.
///
/// Errors: `NotADocument` if `text` is no JSON document; `HugeExponent` if a number can't be compared; `EditNests` if
/// an edited text nests too deep; `EditDiffers` if an edited text, read again, is not the edited document, a fault of
/// the program; or `OutOfMemory`. `out` may then end with a part of the text.
#[inline(never)]
pub fn add_edited_document(
    rt: &(impl Eprint + Alloc<A = Global>),
    edits: &[Edit<'_>],
    look: Look,
    text: &str,
    kept: &mut Kept,
    out: &mut Vec<u8>,
) -> Result<usize, DocumentRefusal> {
    let (bytes, count) = apply_edits(rt, edits, text, kept)?;
    if look.layout.is_over_lines() {
        add_pretty_document(rt.alloc(), bytes.as_slice(), look, &mut kept.scratch, out)?;
    } else {
        out.extend_from_slice(bytes.as_slice())?;
    }
    Ok(count)
}

// The text of the document as the edits leave it, one after another, and how many places their paths select below the
// root.
fn apply_edits(
    rt: &(impl Eprint + Alloc<A = Global>),
    edits: &[Edit<'_>],
    text: &str,
    kept: &mut Kept,
) -> Result<(Vec<u8>, usize), DocumentRefusal> {
    let mut count = 0usize;
    let mut bytes = Vec::from_slice(rt.alloc(), text.as_bytes())?;
    for (at, edit) in edits.iter().enumerate() {
        let (next, found, is_told) = apply_edit(rt, edit, bytes.as_slice(), kept)?;
        bytes = next;
        count = count.saturating_add(found);
        if found > 0 || is_told {
            kept.note_made_or_told(at)?;
        }
    }
    Ok((bytes, count))
}

// Writes an edited document, indented anew, and a line end.
fn add_pretty_document(
    alloc: Global,
    bytes: &[u8],
    look: Look,
    scratch: &mut Scratch,
    out: &mut Vec<u8>,
) -> Result<(), DocumentRefusal> {
    let Ok(text) = str::from_utf8(bytes) else {
        return Err(DocumentRefusal::NotADocument);
    };
    let exact = read_exact_tree(alloc, text, scratch)?;
    add_value_in_look(alloc, out, &exact, look)?;
    Ok(out.push(b'\n')?)
}

// The text of the document as one edit leaves it, how often it was made, and whether anything is told of it: that it
// selects the root, or that a new name is taken.
fn apply_edit(
    rt: &(impl Eprint + Alloc<A = Global>),
    edit: &Edit<'_>,
    bytes: &[u8],
    kept: &mut Kept,
) -> Result<(Vec<u8>, usize, bool), DocumentRefusal> {
    let alloc = rt.alloc();
    let Ok(text) = str::from_utf8(bytes) else {
        return Err(DocumentRefusal::NotADocument);
    };
    let path = edit.words.path();
    let document = Document::read(alloc, text, &mut kept.scratch)?;
    let parts = kept.parts.get_or_insert_with(|| PartReader::new(alloc));
    let Some(done) = edited_text(parts, text, &document, edit)? else {
        let _ = eprintln!(rt;
            "jpath: {path}: not renamed: a member of the new name is there already"
        );
        return Ok((Vec::from_slice(alloc, bytes)?, 0, true));
    };
    if done.selects_root {
        let _ = eprintln!(rt;
            "jpath: {path}: the document itself is selected, which no edit changes"
        );
    }
    Ok((done.text, done.targets, done.selects_root))
}

// The text of the document as one edit leaves it; `None` where a new name is taken.
fn edited_text(
    parts: &mut PartReader,
    text: &str,
    document: &Document<'_>,
    edit: &Edit<'_>,
) -> Result<Option<Edited>, DocumentRefusal> {
    let Ok(value) = str::from_utf8(edit.value.as_slice()) else {
        return Err(DocumentRefusal::NotADocument);
    };
    let query = &edit.query;
    let alloc = parts.alloc();
    match (edit.words, &edit.member) {
        (EditWords::Rename(_, new), Some(member)) => {
            rename_text(alloc, text, document, query, member.name.as_str(), new)
        }
        (EditWords::Append(_, _), _) => Ok(Some(append_text(alloc, text, document, query, value)?)),
        (EditWords::Remove(_), _) => Ok(Some(edit_text(
            parts,
            text,
            document,
            query,
            Change::Take,
        )?)),
        (_, Some(member)) => {
            let member = NewMember {
                above: &member.above,
                name: member.name.as_str(),
                value,
            };
            Ok(Some(add_member_text(parts, text, document, query, &member)?))
        }
        (_, None) => Ok(Some(edit_text(parts, text, document, query, Change::Put(value))?)),
    }
}
