//! The run: the task is done file by file, a table's header and the numbers of matches are written, and the exit
//! status is returned.

mod document_visitor;
mod edited_document;
mod one_document;
mod terminal;

use document_visitor::{DocumentVisitor, Stop};
use jpath_core::{Ended, How, ReadFailure, add_header, add_line_end, visit_documents};
use jpath_files::{
    FaultTellingReader, FaultTellingWriter, FileToEdit, Way, open_to_edit, put_in_place,
};
use jpath_words::{Task, Wanted};
use jsonpath_streams::{Checked, IoFailed, Output};
use std::alloc::Global;
use std::cell::Cell;
use std::fs::File;
use std::io::{IsTerminal, Read};

// How far a run is: the visitor, with the output held back, whether a match was found, and whether a file or an edit
// failed.
#[derive(Drop)]
struct Progress<'r, 'w, W> {
    visit: DocumentVisitor<'r, 'w, HostRuntime, W>,
    has_found: bool,
    has_failed: bool,
}

/// Writes the output that the command line asks for, of one file after another, and flushes it. Returns the exit status
/// of the program, the first of these that applies: 4 if memory ran out; 0 if the reader of the output closed the pipe;
/// 4 if a write failed, or a file could not be opened, read or edited; 3 if a document had an error; 0 if there was a
/// match; else 1.
pub fn run_over_files<'r>(rt: &'r HostRuntime, wanted: &'r Wanted<'_>) -> u8 {
    let is_pipe_closed = Cell::new(false);
    let writer = Checked::new(FaultTellingWriter {
        rt,
        is_pipe_closed: &is_pipe_closed,
        writer: rt.stdout(),
    });
    let is_terminal = rt.stdout().is_terminal();
    let mut run = Progress {
        visit: DocumentVisitor::new(rt, wanted, is_terminal, writer),
        has_found: false,
        has_failed: false,
    };
    let ended = process_all_files(rt, wanted, &mut run);
    let flushed = match ended {
        Err(Stop::Output) => Err(IoFailed),
        _ => run.visit.output.flush(),
    };
    if let Err(Stop::OutOfMemory) = ended {
        let _ = eprintln!(rt; "jpath: out of memory");
        return 4;
    }
    if flushed.is_err() {
        return if is_pipe_closed.get() { 0 } else { 4 };
    }
    tell_edits_made_nowhere(rt, wanted, &run);
    exit_status(&run)
}

// Tells each edit that was made in no document. Nothing is told where a file failed or a document was refused.
fn tell_edits_made_nowhere<W: Output>(
    rt: &HostRuntime,
    wanted: &Wanted<'_>,
    run: &Progress<'_, '_, W>,
) {
    let Task::Edits(edits) = &wanted.task else {
        return;
    };
    if run.has_failed || run.visit.has_refused {
        return;
    }
    for (at, edit) in edits.iter().enumerate() {
        if run.visit.kept.has_made_nothing(at) {
            let _ = eprintln!(rt;
                "jpath: {}: nothing is edited: no value is there, or for --append no list, for --add no object",
                edit.words.path()
            );
        }
    }
}

// The exit status of a run whose output was written: 4 where a file failed, else 3 where a document was refused, else 0
// where a match was found, else 1.
fn exit_status<W: Output>(run: &Progress<'_, '_, W>) -> u8 {
    if run.has_failed {
        4
    } else if run.visit.has_refused {
        3
    } else if run.has_found {
        0
    } else {
        1
    }
}

// Does what is wanted with each file, or with standard input where no file is named; a table's header comes first.
fn process_all_files<'r, W: Output>(
    rt: &'r HostRuntime,
    wanted: &'r Wanted<'_>,
    run: &mut Progress<'r, '_, W>,
) -> Result<(), Stop> {
    if let Task::Table(table) = &wanted.task {
        if table.has_header {
            let out = &mut run.visit.output.bytes;
            add_header(rt.alloc(), table.names.as_slice(), table.separated, out)?;
        }
    }
    if wanted.files.is_empty() {
        return process_one_file(rt, wanted, "-", run);
    }
    for name in wanted.files.as_slice() {
        process_one_file(rt, wanted, *name, run)?;
    }
    Ok(())
}

// Does what is wanted with the documents of one file, or of standard input for `-`. A file that can't be opened is told
// and passed over.
fn process_one_file<'r, W: Output>(
    rt: &'r HostRuntime,
    wanted: &Wanted<'_>,
    name: &'r str,
    run: &mut Progress<'r, '_, W>,
) -> Result<(), Stop> {
    if wanted.is_in_place {
        return edit_one_file(rt, wanted, name, run);
    }
    if name == "-" {
        return process_one_stream(rt, wanted, name, rt.stdin(), run);
    }
    match File::open(rt, name) {
        Ok(file) => process_one_stream(rt, wanted, name, file, run),
        Err(error) => {
            let _ = eprintln!(rt; "jpath: {name}: {error}");
            run.has_failed = true;
            Ok(())
        }
    }
}

// Does what is wanted with the documents of one open file or of standard input: writes its matches, or their number.
// Answers a `Stop` where the run is not to go on with the next file.
fn process_one_stream<'r, R: Read + Drop, W: Output>(
    rt: &'r HostRuntime,
    wanted: &Wanted<'_>,
    name: &'r str,
    reader: R,
    run: &mut Progress<'r, '_, W>,
) -> Result<(), Stop> {
    let Ended { count, how } = visit_one_stream(rt, name, reader, run);
    if let Task::Count(_) = wanted.task {
        add_count_line(rt.alloc(), wanted, name, count, &mut run.visit.output.bytes)?;
    }
    stop_or_go_on(how)
}

// Edits one file in place: its edited text is put into the place of its content, where all its documents were read and
// an edit selects something. A fault is told, and the file passed over. Answers a `Stop` where the run is not to go on
// with the next file.
fn edit_one_file<'r, W: Output>(
    rt: &'r HostRuntime,
    wanted: &Wanted<'_>,
    name: &'r str,
    run: &mut Progress<'r, '_, W>,
) -> Result<(), Stop> {
    let held = run.visit.output.bytes.len();
    let way = match wanted.is_copied {
        true => Way::IntoFile,
        false => Way::NewFile,
    };
    match open_to_edit(rt, name, way) {
        Ok(mut edited) => {
            let Ended { count, how } = visit_one_stream(rt, name, &edited.disk.file, run);
            let is_edited = how == How::Whole && count > 0;
            if is_edited && !put_text(rt, name, &mut edited, &run.visit.output.bytes, held) {
                run.has_failed = true;
            }
            run.visit.output.bytes.truncate(held);
            stop_or_go_on(how)
        }
        Err(fault) => {
            let _ = eprintln!(rt; "jpath: {name}: {fault}");
            run.has_failed = true;
            Ok(())
        }
    }
}

// Visits the documents of one open file or of standard input, and answers how many matches they have and how the stream
// ended; a fault is told.
fn visit_one_stream<'r, R: Read + Drop, W: Output>(
    rt: &'r HostRuntime,
    name: &'r str,
    reader: R,
    run: &mut Progress<'r, '_, W>,
) -> Ended<Stop> {
    run.visit.name = name;
    let mut reader = Checked::new(FaultTellingReader { rt, name, reader });
    let ended = visit_documents(rt.alloc(), &mut reader, &mut run.visit);
    drop(reader);
    if ended.count > 0 {
        run.has_found = true;
    }
    if let How::ReadFailed(failure) = ended.how {
        run.has_failed = true;
        tell_if_out_of_memory(rt, name, failure);
    }
    ended
}

// Tells that there is no memory to read a file. Where a read failed instead, that is told already.
fn tell_if_out_of_memory(rt: &HostRuntime, name: &str, failure: ReadFailure) {
    if failure == ReadFailure::OutOfMemory {
        let _ = eprintln!(rt; "jpath: {name}: out of memory");
    }
}

// Ok where the run goes on with the next file, once a stream ended like this; the `Stop` that ends the run, where a
// match was enough or the visitor stopped.
fn stop_or_go_on(how: How<Stop>) -> Result<(), Stop> {
    match how {
        How::Enough => Err(Stop::Found),
        How::Stopped(stop) => Err(stop),
        _ => Ok(()),
    }
}

// Puts the bytes behind the first `held`, the file's edited text, in the place of its content. Answers whether that is
// done; a fault is told.
fn put_text(
    rt: &HostRuntime,
    name: &str,
    edited: &mut FileToEdit<'_>,
    bytes: &Vec<u8>,
    held: usize,
) -> bool {
    let text = bytes.as_slice().get(held..).unwrap_or(b"");
    let FileToEdit { disk, found, way } = edited;
    match put_in_place(rt.alloc(), disk, found, *way, text) {
        Ok(()) => true,
        Err(fault) => {
            let _ = eprintln!(rt; "jpath: {name}: {fault}");
            false
        }
    }
}

// Writes a line with the number of matches of a file, behind its name where names are asked for.
fn add_count_line(
    alloc: Global,
    wanted: &Wanted<'_>,
    name: &str,
    count: usize,
    out: &mut Vec<u8>,
) -> Result<(), Stop> {
    let line = if wanted.has_names {
        format!(in alloc; "{name}:{count}")?
    } else {
        format!(in alloc; "{count}")?
    };
    out.extend_from_slice(line.as_bytes())?;
    Ok(add_line_end(out, wanted.line_end)?)
}
