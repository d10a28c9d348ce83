//! What is written for one document: its matches, a table, or its edited text.

ghost use Rattle.json.specs.Tree.{HasNumbers};
ghost use Rattle.json.specs.Value.{value_view};

use crate::run::edited_document::{Kept, add_edited_document};
use jpath_core::{
    Document, DocumentRefusal, Line, Query, Shown, add_array, add_lines_by_exact_tree,
    add_lines_for_path, add_rows, count_matches, may_answer_by_exact_tree, read_exact_tree,
};
use jpath_words::{Task, Wanted};
use json::Value as Exact;
use std::alloc::Global;
use std::str;

/// Appends to `out` what `jpath` writes for one document, as the command line asks for it: lines, an array, a table,
/// the edited text, or nothing for `--count` and `--quiet`. `name` is the file's name, `bytes` the document's text.
/// Returns how many matches (selected values) the document has. For edits, returns a sum over all edits: how many
/// locations below the root each selected for replacing or removing, or how many members or items it added or renamed.
///
/// Errors: `NotADocument` if `bytes` is no JSON document; `HugeExponent` if a number can't be compared; `EditNests` if
/// an edited text nests too deep; `EditDiffers` if an edited text, read again, is not the edited document, which would
/// be a fault of the program; or `OutOfMemory`. After an error, `out` may end with a part of the output, or have lost
/// all its content.
pub fn add_output_for_document(
    rt: &(impl Eprint + Alloc<A = Global>),
    wanted: &Wanted<'_>,
    name: &str,
    bytes: &[u8],
    kept: &mut Kept,
    out: &mut Vec<u8>,
) -> Result<usize, DocumentRefusal> {
    let alloc = rt.alloc();
    let Ok(text) = str::from_utf8(bytes) else {
        return Err(DocumentRefusal::NotADocument);
    };
    if let Task::Edits(edits) = &wanted.task {
        return add_edited_document(rt, edits.as_slice(), wanted.look, text, kept, out);
    }
    let exact = read_exact_tree(alloc, text, &mut kept.scratch)?;
    let line = line_form_for_wanted(wanted, name);
    if let Some(found) = add_output_by_exact_tree(alloc, &exact, &wanted.task, &line, out)? {
        return Ok(found);
    }
    let document = Document::of_exact_tree(alloc, exact)?;
    add_output_for_task(alloc, &document, &wanted.task, &line, out)
}

// How the line of a match is written: its look, what it shows, and the file's name where names are asked for.
fn line_form_for_wanted<'n>(wanted: &Wanted<'_>, name: &'n str) -> Line<'n> {
    Line {
        look: wanted.look,
        shown: match wanted.task {
            Task::Lines(_, shown) => shown,
            _ => Shown::Values,
        },
        name: if wanted.has_names { Some(name) } else { None },
        is_record: wanted.is_sequence,
        end: wanted.line_end,
    }
}

// Writes what the task asks of a document, and answers how many matches it has. Edits are not made here: 0.
fn add_output_for_task(
    alloc: Global,
    document: &Document<'_>,
    task: &Task<'_>,
    line: &Line<'_>,
    out: &mut Vec<u8>,
) -> Result<usize, DocumentRefusal>
    requires { HasNumbers (value_view document.now.exact) }
{
    match task {
        Task::Lines(queries, _) => add_matches(alloc, document, queries.as_slice(), line, out),
        Task::Array(queries) => add_array(alloc, document, queries.as_slice(), line, out),
        Task::Count(queries) | Task::Quiet(queries) => {
            count_matches(alloc, document, queries.as_slice())
        }
        Task::Table(table) => add_rows(
            alloc,
            document,
            &table.rows,
            table.columns.as_slice(),
            table.separated,
            out,
        ),
        Task::Edits(_) => Ok(0),
    }
}

// Writes a line for each value that the paths select in a document, path after path, and answers how many there are. A
// refusal may leave a part of them.
fn add_matches(
    alloc: Global,
    document: &Document<'_>,
    queries: &[Query<'_>],
    line: &Line<'_>,
    out: &mut Vec<u8>,
) -> Result<usize, DocumentRefusal>
    requires { HasNumbers (value_view document.now.exact) }
{
    let mut count = 0usize;
    for query in queries {
        count = count.saturating_add(add_lines_for_path(alloc, document, query, line, out)?);
    }
    Ok(count)
}

// Writes what the task asks of a document by its exact tree alone, and answers how many matches it has. `None`, and
// nothing is written, where the task or a path is none that can be done so.
fn add_output_by_exact_tree(
    alloc: Global,
    exact: &Exact<'_>,
    task: &Task<'_>,
    line: &Line<'_>,
    out: &mut Vec<u8>,
) -> Result<Option<usize>, DocumentRefusal>
    requires { HasNumbers (value_view exact.now) }
{
    match task {
        Task::Lines(queries, Shown::Values) => {
            add_matches_by_exact_tree(alloc, exact, queries.as_slice(), Some(line), out)
        }
        Task::Count(queries) | Task::Quiet(queries) => {
            add_matches_by_exact_tree(alloc, exact, queries.as_slice(), None, out)
        }
        _ => Ok(None),
    }
}

// Writes a line for each value that the paths select along the exact tree, path after path, and answers how many there
// are; without a line form they are only counted. `None`, and nothing is written, where a path or the document is none
// for that. A refusal may leave a part of the lines.
fn add_matches_by_exact_tree(
    alloc: Global,
    exact: &Exact<'_>,
    queries: &[Query<'_>],
    line: Option<&Line<'_>>,
    out: &mut Vec<u8>,
) -> Result<Option<usize>, DocumentRefusal>
    requires { HasNumbers (value_view exact.now) }
{
    let before = out.len();
    if !queries.iter().all(|query| may_answer_by_exact_tree(query)) {
        return Ok(None);
    }
    let mut count = 0usize;
    for query in queries {
        match add_lines_by_exact_tree(alloc, exact, query, line, out)? {
            Some(found) => count = count.saturating_add(found.count),
            None => {
                out.truncate(before);
                return Ok(None);
            }
        }
    }
    Ok(Some(count))
}
