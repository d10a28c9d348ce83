//! The visitor of the files' documents: what is done with each of them.

ghost use Rattle.std.specs.Prelude.{◌≡◌, ◌≢◌, ◌++◌, false, true, IfOk, IfErr, OnOk, OnErr};
ghost use Rattle.jpath.specs.Gives.{Gives, IsWhyStopped};

use crate::run::edited_document::Kept;
use crate::run::one_document::add_output_for_document;
use crate::run::terminal::escape_for_terminal;
use jpath_core::{DocumentRefusal, Kind, MARK, Piece, Taken, Visitor};
use jpath_files::{HeldOutput, RefusedDocument};
use jpath_words::{Task, Wanted};
use jsonpath_streams::{IoFailed, Output};
use std::alloc::{AllocError, Global};

/// Why a run of the program `jpath` ends before its last document.
#[derive(Clone, Copy, Debug, Drop, PartialEq, Eq)]
pub enum Stop {
    /// A reason why `jpath` ends before its last document: a write to standard output failed, or the reader of standard
    /// output has closed the pipe.
    Output,
    /// A reason why the program `jpath` ends before the last document: a match was found, and the option `--quiet`
    /// needs only one.
    Found,
    /// A reason for which a run of `jpath` ends: a document has an error, which is already printed, and the option
    /// `--keep-going` is not set.
    Document,
    /// A reason why `jpath` ends before its last document: memory ran out.
    OutOfMemory,
}

impl From<AllocError> for Stop {
    ghost use Rattle.jpath.specs.declared.run.document_visitor.Stop.TheVariants.{OutOfMemory};
    ghost use Rattle.std.specs.Prelude.{◌≡◌};

    ghost from_gives = { λ _ stop. stop ≡ OutOfMemory };

    fn from(_: AllocError) -> Stop {
        Stop::OutOfMemory
    }
}

impl From<IoFailed> for Stop {
    ghost use Rattle.jpath.specs.declared.run.document_visitor.Stop.TheVariants.{Output};
    ghost use Rattle.std.specs.Prelude.{◌≡◌};

    ghost from_gives = { λ _ stop. stop ≡ Output };

    fn from(_: IoFailed) -> Stop {
        Stop::Output
    }
}

/// A visitor of the documents of a file, which writes the output for each of them. It has what the command line asks
/// for, the file's name, the output so far, and whether a document had an error.
#[derive(Drop)]
pub struct DocumentVisitor<'r, 'w, T, W> {
    pub rt: &'r T,
    pub wanted: &'r Wanted<'w>,
    pub name: &'r str,
    pub output: HeldOutput<W>,
    pub has_refused: bool,
    pub kept: Kept,
    // Whether a terminal gets the output.
    is_terminal: bool,
    // What is written for the document at hand.
    text: Vec<u8>,
}

impl<'r, 'w, T: Eprint + Alloc<A = Global>, W: Output> DocumentVisitor<'r, 'w, T, W> {
    /// Makes a visitor that has visited no document yet: no output is buffered, and no document had an error.
    /// `is_terminal` says whether `writer` is a terminal, for which control characters in the output are escaped.
    pub fn new(
        rt: &'r T,
        wanted: &'r Wanted<'w>,
        is_terminal: bool,
        writer: W,
    ) -> DocumentVisitor<'r, 'w, T, W> {
        DocumentVisitor {
            rt,
            wanted,
            name: "-",
            output: HeldOutput::new(rt.alloc(), writer),
            has_refused: false,
            kept: Kept::new(rt.alloc()),
            is_terminal: is_terminal && !wanted.is_in_place,
            text: Vec::new(rt.alloc()),
        }
    }

    // Writes the held output once it has 64 KB or more; but not with `-i`, where it is the edited text of a file.
    fn flush_output_if_full(&mut self) -> Result<(), IoFailed>
        ensures failed { OnErr result (W.has_failed self.new.output.writer ≡ true) }
        ensures same { W.written self.new.output.writer ++ self.new.output.bytes.items ≡ W.written self.old.output.writer ++ self.old.output.bytes.items }
        ensures refused { self.new.has_refused ≡ self.old.has_refused }
    {
        if self.wanted.is_in_place {
            return Ok(());
        }
        self.output.flush_if_full()
    }
}

impl<'r, 'w, T: Eprint + Alloc<A = Global>, W: Output> Visitor for DocumentVisitor<'r, 'w, T, W> {
    type Stop = Stop;

    ghost written = { λ v. W.written v.output.writer ++ v.output.bytes.items };

    ghost gives = { λ v kind piece taken text. Gives v.has_refused kind taken text };

    ghost stops = { λ v stop. IsWhyStopped (W.has_failed v.output.writer) v.has_refused stop };

    // Writes the held output before a read that may wait; but not with `-i`, where it is the edited text of a file.
    fn before_read(&mut self) -> Result<(), Stop> {
        if self.wanted.is_in_place {
            return Ok(());
        }
        Ok(self.output.flush()?)
    }

    // Writes what is wanted of a piece, its document or its blanks, all or nothing. What is refused is told; then the run
    // stops, but for `-k`.
    #[inline(never)]
    fn visit_piece(&mut self, piece: &Piece<'_>) -> Result<Taken, Stop> {
        self.flush_output_if_full()?;
        self.text.clear();
        let (wanted, name) = (self.wanted, self.name);
        match add_output_for_piece(self.rt, wanted, name, piece, &mut self.kept, &mut self.text) {
            Ok(count) => {
                if self.is_terminal {
                    escape_for_terminal(self.rt.alloc(), &mut self.text)?;
                }
                self.output.hold_text(&mut self.text)?;
                Ok(Taken {
                    count,
                    is_enough: count > 0 && matches!(wanted.task, Task::Quiet(_)),
                })
            }
            Err(DocumentRefusal::OutOfMemory) => Err(Stop::OutOfMemory),
            Err(refusal) => {
                self.has_refused = true;
                stop_or_pass_refused_piece(self.rt, wanted, name, piece, refusal)
            }
        }
    }
}

// Tells why a piece is refused. With `-k` the run goes on behind it; else, and for blanks, it stops.
#[inline(never)]
fn stop_or_pass_refused_piece(
    rt: &(impl Eprint + Alloc<A = Global>),
    wanted: &Wanted<'_>,
    name: &str,
    piece: &Piece<'_>,
    refusal: DocumentRefusal,
) -> Result<Taken, Stop>
    ensures count { IfOk result (λ taken. taken.count ≡ 0) }
    ensures more { IfOk result (λ taken. taken.is_enough ≡ false) }
    ensures refused { IfErr result (λ stop. stop ≡ Stop.Document) }
{
    let refused = RefusedDocument::of_piece(name, piece.bytes, piece.place, refusal);
    let _ = eprintln!(rt; "{refused}");
    if !wanted.keeps_going || piece.kind == Kind::Blanks {
        return Err(Stop::Document);
    }
    Ok(Taken {
        count: 0,
        is_enough: false,
    })
}

// Writes what is wanted of a piece of a stream, and answers how many matches it has, or how many places edits select:
// for a document what the task asks; blanks, and a byte order mark before a document, only where an edit keeps them.
// A refusal may leave a part of it.
fn add_output_for_piece(
    rt: &(impl Eprint + Alloc<A = Global>),
    wanted: &Wanted<'_>,
    name: &str,
    piece: &Piece<'_>,
    kept: &mut Kept,
    out: &mut Vec<u8>,
) -> Result<usize, DocumentRefusal>
    ensures document { OnOk result (piece.now.kind ≢ Kind.Refused) }
{
    let keeps_blanks = wanted.keeps_blanks_between_documents();
    match piece.kind {
        Kind::Refused => Err(DocumentRefusal::NotADocument),
        Kind::Blanks => {
            if keeps_blanks {
                out.extend_from_slice(piece.bytes)?;
            }
            Ok(0)
        }
        Kind::Document => {
            if piece.is_marked && keeps_blanks {
                out.extend_from_slice(&MARK)?;
            }
            add_output_for_document(rt, wanted, name, piece.bytes, kept, out)
        }
    }
}
