//! The words of the command line with arguments put into their paths.

ghost use Rattle.std.specs.Prelude.{◌≡◌, ◌++◌, map, List, IfOk, string_bytes};
ghost use Rattle.jpath_words.specs.Arguments.{IsArgumentOf, IsFilledText, IsFilledEdit, Pairwise, AreFilled, AreAllFilled, rows_of};
ghost use Rattle.jpath_words.specs.Asked.{files_of};
ghost use Rattle.jpath_words.specs.Words.{path_of};
ghost use Rattle.jpath_words.specs.declared.arguments.argument.Argument.{Argument};

use crate::arguments::argument::{Argument, read_arguments};
use crate::arguments::filled_path::{filled_path, may_use_argument, split_text};
use crate::command_line::{EditWords, Words};
use crate::task::{Refused, paths_and_files};
use std::alloc::{AllocError, Global};

/// The path texts of a command line, in which each placeholder `{NAME}` is replaced by the text or number that `--arg`
/// or `--argjson` sets for NAME.
#[derive(Drop)]
pub struct FilledPaths<'a> {
    /// A field: the texts of the options `-e`, in the order of the command line. They are paths, or with `--rows` also
    /// `NAME=PATH`. Without `-e`, this list is empty if the command line has an edit option, such as `--set`; else it
    /// has one text, the first word that belongs to no option. In each text, the placeholders of `--arg` and
    /// `--argjson` are already replaced.
    pub paths: Vec<String>,
    /// A field: if the option `--rows` is on the command line, a list with its path text, in which the placeholders of
    /// `--arg` and `--argjson` are already replaced; else an empty list.
    pub rows: Vec<String>,
    /// A field: the edit options in the order of the command line, each with its path text, in which the placeholders
    /// of `--arg` and `--argjson` are already replaced.
    pub edits: Vec<FilledEdit<'a>>,
}

/// An edit option of the command line, and its path text, in which each placeholder `{NAME}` is replaced by the text or
/// number that `--arg` or `--argjson` sets for NAME.
#[derive(Drop)]
pub struct FilledEdit<'a> {
    pub words: EditWords<'a>,
    pub path: String,
}

/// Returns the path texts of the command line `words`, in which each placeholder `{NAME}` is replaced by the text or
/// number that `--arg` or `--argjson` sets for NAME. The call prints these errors: an `--arg` or `--argjson` has an
/// empty name, the name of another one, or a name that no path uses; or what `--argjson` sets is no number. It does not
/// print the other errors: there is no path, or memory ran out.
pub fn fill_paths<'a>(
    rt: &(impl Eprint + Alloc<A = Global>),
    words: &Words<'a>,
) -> Result<FilledPaths<'a>, Refused>
    ensures { IfOk result (λ filled. (arguments : List Argument) × Pairwise IsArgumentOf words.now.arguments.items arguments × AreAllFilled arguments words.now filled) }
{
    let alloc = rt.alloc();
    let arguments = read_arguments(rt, words.arguments.as_slice())?;
    let arguments = arguments.as_slice();
    let (paths, _) = paths_and_files(words)?;
    let rows = rows_path(alloc, words)?;
    refuse_unused_argument(rt, words, paths, arguments)?;
    Ok(FilledPaths {
        paths: filled_texts(alloc, paths, arguments)?,
        rows: filled_texts(alloc, rows.as_slice(), arguments)?,
        edits: filled_edits(alloc, words.edits.as_slice(), arguments)?,
    })
}

/// Returns a copy of the parsed command line `words` with the paths, the path of `--rows` and the edits of `filled`, in
/// which the placeholders `{NAME}` are already replaced. `filled` should have been made from `words`; the call does not
/// test that. The copy has no `--arg` and no `--argjson`, and its field `rest` has only the files. Errors: `Words` if
/// there is no path, or `OutOfMemory`.
pub fn words_with_paths<'a>(
    alloc: Global,
    words: &Words<'a>,
    filled: &'a FilledPaths<'_>,
) -> Result<Words<'a>, Refused>
    ensures flags { IfOk result (λ made. made.flags ≡ words.now.flags) }
    ensures paths { IfOk result (λ made. map (λ t. t.now) made.paths.items ≡ map string_bytes filled.now.paths.items) }
    ensures edits { IfOk result (λ made. map path_of made.edits.items ≡ map (λ f. string_bytes f.path) filled.now.edits.items) }
    ensures files { IfOk result (λ made. made.rest.items ≡ files_of words.now) }
{
    let (_, files) = paths_and_files(words)?;
    Ok(Words {
        flags: words.flags,
        paths: texts_of_strings(alloc, filled.paths.as_slice())?,
        rows: filled.rows.as_slice().first().map(|path| path.as_str()),
        arguments: Vec::new(alloc),
        edits: edits_with_paths(alloc, filled.edits.as_slice())?,
        rest: Vec::from_slice(alloc, files)?,
    })
}

// The path text of `--rows`, if there is one.
fn rows_path<'a>(alloc: Global, words: &Words<'a>) -> Result<Vec<&'a str>, AllocError>
    ensures { IfOk result (λ rows. rows.items ≡ rows_of words.now) }
{
    match words.rows {
        Some(path) => Ok(Vec::from_array(alloc, [path])?),
        None => Ok(Vec::new(alloc)),
    }
}

// Refuses an argument that no path uses, which is told.
fn refuse_unused_argument(
    rt: &(impl Eprint + Alloc<A = Global>),
    words: &Words<'_>,
    paths: &[&str],
    arguments: &[Argument],
) -> Result<(), Refused> {
    for (argument, words_of_one) in arguments.iter().zip(words.arguments.as_slice()) {
        if !is_used(words, paths, argument) {
            let name = words_of_one.name();
            let _ = eprintln!(rt;
                "jpath: no path uses the argument {name}: {{{name}}} stands for it in a filter or in brackets, as $[{{{name}}}]"
            );
            return Err(Refused::Told);
        }
    }
    Ok(())
}

// Whether one of the paths has the argument's placeholder, or it can't be said of one.
fn is_used(words: &Words<'_>, paths: &[&str], argument: &Argument) -> bool {
    paths
        .iter()
        .any(|text| may_use_argument(split_column(*text).1, argument))
        || words
            .rows
            .is_some_and(|path| may_use_argument(path, argument))
        || words
            .edits
            .iter()
            .any(|edit| may_use_argument(edit.path(), argument))
}

// These strings as texts.
fn texts_of_strings<'a>(alloc: Global, strings: &'a [String]) -> Result<Vec<&'a str>, AllocError>
    ensures { IfOk result (λ texts. map (λ t. t.now) texts.items ≡ map string_bytes strings.now) }
{
    let mut texts = Vec::new(alloc);
    for string in strings {
        texts.push(string.as_str())?;
    }
    Ok(texts)
}

// These edits, each by its path text with the arguments put into it.
fn edits_with_paths<'a>(
    alloc: Global,
    edits: &'a [FilledEdit<'_>],
) -> Result<Vec<EditWords<'a>>, AllocError>
    ensures { IfOk result (λ made. map path_of made.items ≡ map (λ f. string_bytes f.path) edits.now) }
{
    let mut made = Vec::new(alloc);
    for edit in edits {
        made.push(edit.words.with_path(edit.path.as_str()))?;
    }
    Ok(made)
}

// These texts with the arguments put into their paths.
fn filled_texts(
    alloc: Global,
    texts: &[&str],
    arguments: &[Argument],
) -> Result<Vec<String>, AllocError>
    ensures { IfOk result (λ filled. AreFilled arguments.now texts.now filled.items) }
{
    let mut filled = Vec::new(alloc);
    for text in texts {
        filled.push(filled_text(alloc, *text, arguments)?)?;
    }
    Ok(filled)
}

// These edits with the arguments put into their paths.
fn filled_edits<'a>(
    alloc: Global,
    edits: &[EditWords<'a>],
    arguments: &[Argument],
) -> Result<Vec<FilledEdit<'a>>, AllocError>
    ensures { IfOk result (λ filled. Pairwise (IsFilledEdit arguments.now) edits.now filled.items) }
{
    let mut filled = Vec::new(alloc);
    for edit in edits {
        filled.push(filled_edit(alloc, *edit, arguments)?)?;
    }
    Ok(filled)
}

// This edit with the arguments put into its path.
fn filled_edit<'a>(
    alloc: Global,
    words: EditWords<'a>,
    arguments: &[Argument],
) -> Result<FilledEdit<'a>, AllocError>
    ensures { IfOk result (IsFilledEdit arguments.now words.entry) }
{
    let path = filled_text(alloc, words.path(), arguments)?;
    Ok(FilledEdit { words, path })
}

// This text with the arguments put into its path, which may be a column's, as `NAME=PATH`.
fn filled_text(alloc: Global, text: &str, arguments: &[Argument]) -> Result<String, AllocError>
    ensures { IfOk result (λ made. IsFilledText arguments.now text.now (string_bytes made)) }
{
    let (front, path) = split_column(text);
    let made = filled_path(alloc, path, arguments)?;
    let made = made.as_str();
    format!(in alloc; "{front}{made}")
}

// What is before the path in a column's text, as `NAME=`, and the path; nothing is before a path that begins with `$`.
fn split_column(text: &str) -> (&str, &str)
    ensures { text.now ≡ result.0.now ++ result.1.now }
{
    match text.find('=') {
        Some(at) if !text.starts_with('$') => split_text(text, at.saturating_add(1)),
        _ => ("", text),
    }
}
