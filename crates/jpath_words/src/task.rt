//! The task that the command line asks for: paths compiled, edits and tables read, contradictory options rejected,
//! and the layout of lines.

ghost use Rattle.std.specs.Prelude.{◌≡◌, ◌<◌, ◌&&◌, not, false, true, length, None, Some, IfOk, OnOk};
ghost use Rattle.json.specs.Json.{Json};
ghost use Rattle.json.specs.Tree.{HasNumbers};
ghost use Rattle.json.specs.Value.{value_view};
ghost use Rattle.jpath_texts.specs.AtDepth.{is_over_lines};
ghost use Rattle.json_trees.specs.Exact.{exact_of};
ghost use Rattle.jpath_texts.specs.Lines.{compact};
ghost use Rattle.jpath_words.specs.Asked.{is_edit, colored_by, end_by, layout_by, look_by, paths_of, files_of, shown_by, AreOf, AreEditsOf, IsAsked, IsEditOf, IsOfMatches, IsValueText};

use crate::command_line::{Color, EditWords, Flags, Words};
use crate::hints::warn_of_mixed_connectives;
use crate::plain_path::{NamedMember, last_name_of_path, member_of_plain_path};
use crate::refused_path::tell_refused_path;
use crate::word_faults::words_fault;
use jpath_texts::{
    DocumentRefusal, Layout, LineEnd, Look, Query, Separated, Shown, add_compact_value,
    read_exact_tree,
};
use json::{Scratch, Value as Exact};
use std::alloc::{AllocError, AllocFailed, Global};

/// A task of `jpath`, that is, what it writes: lines, an array or the edited text for each document, a count for each
/// file, a table, or nothing.
#[derive(Drop)]
pub enum Task<'a> {
    /// A task of `jpath`: it writes, for each document, lines for each value that the paths select, path by path, with
    /// duplicates. The field of type `Shown` says what the lines show: the value, its location, both, its members or
    /// items, or its length.
    Lines(Vec<Query<'a>>, Shown),
    /// A task of `jpath`: it writes, for each document, one JSON array with all values that the paths select, path by
    /// path, with duplicates.
    Array(Vec<Query<'a>>),
    /// A task of `jpath`: it writes, for each file, the number of values that the paths select in all the documents of
    /// the file.
    Count(Vec<Query<'a>>),
    /// A task of `jpath`: it writes nothing; only its exit status says whether the paths select any value.
    Quiet(Vec<Query<'a>>),
    /// A task of `jpath`: it writes a table, with a row for each value that the path of the rows selects. For each
    /// column, the row has a field with the first value that the column's path selects in the row's value; the field is
    /// empty if the path selects nothing.
    Table(Table<'a>),
    /// A task of `jpath`: it writes each document after the edits in the field, which are made one after another, in
    /// the order of the command line.
    Edits(Vec<Edit<'a>>),
}

/// A table that `jpath` writes: a row for each value that the path `rows` selects, and in it a field for each column.
/// Each column has a path in the list `columns`, which is run on the row's value, and the name at the same index in the
/// list `names`. Both lists are in the order of the options `-e` on the command line.
#[derive(Drop)]
pub struct Table<'a> {
    pub rows: Query<'a>,
    pub columns: Vec<Query<'a>>,
    pub names: Vec<&'a str>,
    pub separated: Separated,
    pub has_header: bool,
}

/// An edit by `jpath`: its compiled path, and the edit option, which says what is done with the values that the path
/// selects.
#[derive(Drop)]
pub struct Edit<'a> {
    pub query: Query<'a>,
    pub words: EditWords<'a>,
    /// A field of an edit: the JSON text of the new value. This value replaces each selected value, or is the added
    /// item or the value of the added member. For a renaming the text is the new name, in quotes; for a removal it is
    /// `null` and not used.
    pub value: Vec<u8>,
    /// A field of an edit. For `--add` and `--add-text`, it is the member that the path names. For `--rename`, it has
    /// the old name, with which the path ends, in its field `name`, and nothing else of it is used. `None` for other
    /// edits.
    pub member: Option<NamedMember>,
}

/// Everything that the command line of `jpath` asks for: the task, how lines look, and the files; if there is no file,
/// standard input is read.
#[derive(Drop)]
pub struct Wanted<'a> {
    pub task: Task<'a>,
    pub look: Look,
    pub files: Vec<&'a str>,
    pub has_names: bool,
    /// A field of what the command line of `jpath` asks for: whether the byte 30 (RS) is written before each JSON text
    /// in the output, as in a JSON text sequence.
    pub is_sequence: bool,
    pub line_end: LineEnd,
    pub keeps_going: bool,
    pub is_in_place: bool,
    /// A field of what the command line of `jpath` asks for: whether the edited text is written into the file itself
    /// (`--copy`). If not, and the file is edited in place, a new file replaces it.
    pub is_copied: bool,
}

impl<'a> Wanted<'a> {
    /// Whether `jpath` copies to the output the blanks between documents, and a BOM (U+FEFF) before the first. True
    /// exactly if it makes edits and no option (`--pretty`, `--indent` or `--tab`) lays the edited documents out anew,
    /// over several lines.
    pub fn keeps_blanks_between_documents(&self) -> bool
        ensures { result ≡ is_edit self.now.task && not (is_over_lines self.now.look.layout) }
    {
        matches!(self.task, Task::Edits(_)) && !self.look.layout.is_over_lines()
    }
}

/// The reasons why `jpath`, after its command line was parsed, reads no document: the command line has an error, memory
/// ran out, or the option `--check` asks for no more than a check of the paths.
#[derive(Drop)]
pub enum Refused {
    /// An error after the command line is parsed: options contradict each other, or an option or the path is missing.
    /// The field is the sentence that is printed, which says what to write.
    Words(&'static str),
    /// An error in the command line of `jpath`: a path, the value of an edit, or an option `--arg` or `--argjson` is
    /// wrong. The message about it is already printed.
    Told,
    /// A reason why `jpath` reads no document after its command line was parsed: memory ran out.
    OutOfMemory,
    /// A reason why `jpath` reads no document: the option `--check` asked only for a check of the paths, and they are
    /// well formed.
    Checked,
}

impl From<AllocError> for Refused {
    ghost use Rattle.jpath_words.specs.declared.task.Refused.TheVariants.{OutOfMemory};
    ghost use Rattle.std.specs.Prelude.{◌≡◌};

    ghost from_gives = { λ _ refused. refused ≡ OutOfMemory };

    fn from(_: AllocError) -> Refused {
        Refused::OutOfMemory
    }
}

impl<T: Drop> From<AllocFailed<T>> for Refused {
    ghost use Rattle.jpath_words.specs.declared.task.Refused.TheVariants.{OutOfMemory};
    ghost use Rattle.std.specs.Prelude.{◌≡◌};

    ghost from_gives = { λ _ refused. refused ≡ OutOfMemory };

    fn from(_: AllocFailed<T>) -> Refused {
        Refused::OutOfMemory
    }
}

/// Works out from the parsed command line `words` all that `jpath` has to do: compiled paths, the task, the layout of
/// lines and the files. Errors: `Words` if options contradict each other, or if an option or the path is missing;
/// `Told` if a path or an edit's value is wrong, after this call has printed the message about it; `Checked` if all is
/// right and the option `--check` is set; or `OutOfMemory`.
pub fn wanted_of_words<'a>(
    rt: &(impl Eprint + Alloc<A = Global>),
    words: &Words<'a>,
    is_colored: bool,
) -> Result<Wanted<'a>, Refused>
    ensures look { IfOk result (λ wanted. wanted.look ≡ look_by words.now.flags is_colored) }
    ensures names { IfOk result (λ wanted. wanted.has_names ≡ words.now.flags.with_filename) }
    ensures sequence { IfOk result (λ wanted. wanted.is_sequence ≡ words.now.flags.seq) }
    ensures ends { IfOk result (λ wanted. wanted.line_end ≡ end_by words.now.flags) }
    ensures goes_on { IfOk result (λ wanted. wanted.keeps_going ≡ words.now.flags.keep_going) }
    ensures in_place { IfOk result (λ wanted. wanted.is_in_place ≡ words.now.flags.in_place) }
    ensures copied { IfOk result (λ wanted. wanted.is_copied ≡ words.now.flags.copy) }
    ensures unchecked { OnOk result (words.now.flags.check ≡ false) }
    ensures files { IfOk result (λ wanted. wanted.files.items ≡ files_of words.now) }
    ensures task { IfOk result (λ wanted. IsAsked words.now wanted.task) }
{
    let alloc = rt.alloc();
    if let Some(sentence) = words_fault(words) {
        return Err(Refused::Words(sentence));
    }
    let flags = words.flags;
    let (paths, files) = paths_and_files(words)?;
    let task = read_task(rt, words, paths)?;
    if flags.check {
        return Err(Refused::Checked);
    }
    wanted_with_task(alloc, &flags, task, files, is_colored)
}

// Puts together all that the words ask for: the task, the look of lines, the files and the flags about them.
fn wanted_with_task<'a>(
    alloc: Global,
    flags: &Flags,
    task: Task<'a>,
    files: &[&'a str],
    is_colored: bool,
) -> Result<Wanted<'a>, Refused>
    ensures look { IfOk result (λ wanted. wanted.look ≡ look_by flags.now is_colored) }
    ensures names { IfOk result (λ wanted. wanted.has_names ≡ flags.now.with_filename) }
    ensures sequence { IfOk result (λ wanted. wanted.is_sequence ≡ flags.now.seq) }
    ensures ends { IfOk result (λ wanted. wanted.line_end ≡ end_by flags.now) }
    ensures goes_on { IfOk result (λ wanted. wanted.keeps_going ≡ flags.now.keep_going) }
    ensures in_place { IfOk result (λ wanted. wanted.is_in_place ≡ flags.now.in_place) }
    ensures files { IfOk result (λ wanted. wanted.files.items ≡ files.now) }
    ensures task { IfOk result (λ wanted. wanted.task ≡ task.entry) }
    ensures copied { IfOk result (λ wanted. wanted.is_copied ≡ flags.now.copy) }
{
    let files = Vec::from_slice(alloc, files)?;
    Ok(Wanted {
        task,
        look: look_by_flags(flags, is_colored),
        files,
        has_names: flags.with_filename,
        is_sequence: flags.seq,
        line_end: line_end(flags),
        keeps_going: flags.keep_going,
        is_in_place: flags.in_place,
        is_copied: flags.copy,
    })
}

// How values look, by the flags.
fn look_by_flags(flags: &Flags, is_colored: bool) -> Look
    ensures { result ≡ look_by flags.now is_colored }
{
    Look {
        is_raw: flags.raw,
        is_sorted: flags.sort_keys,
        layout: layout_by_flags(flags),
        is_colored,
    }
}

// On how many lines values are written, and how these are indented, by the flags.
fn layout_by_flags(flags: &Flags) -> Layout
    ensures { result ≡ layout_by flags.now }
{
    if flags.tab {
        Layout::Tabs
    } else if let Some(count) = flags.indent {
        Layout::Blanks(count)
    } else if flags.pretty {
        Layout::Blanks(2)
    } else {
        Layout::OneLine
    }
}

// What follows a value, by the flags.
fn line_end(flags: &Flags) -> LineEnd
    ensures { result ≡ end_by flags.now }
{
    if flags.join {
        LineEnd::Nothing
    } else if flags.nul {
        LineEnd::Nul
    } else {
        LineEnd::LineFeed
    }
}

/// Whether `jpath` writes its output in colours: as the option `--color` says; if the option says `auto`, true exactly
/// if the output is a terminal and the environment variable NO_COLOR is missing or empty.
pub fn wants_color(flags: &Flags, is_terminal: bool, has_no_color: bool) -> bool
    ensures { result ≡ colored_by flags.now.color is_terminal has_no_color }
{
    match flags.color {
        Color::Always => true,
        Color::Never => false,
        Color::Auto => is_terminal && !has_no_color,
    }
}

// The path texts and the files among the words. Without -e and edits the first word that belongs to no option is the
// path; refused where there is none.
pub(crate) fn paths_and_files<'w, 'a>(
    words: &'w Words<'a>,
) -> Result<(&'w [&'a str], &'w [&'a str]), Refused>
    ensures paths { IfOk result (λ found. found.0.now ≡ paths_of words.now) }
    ensures files { IfOk result (λ found. found.1.now ≡ files_of words.now) }
{
    let rest = words.rest.as_slice();
    if !words.paths.is_empty() || !words.edits.is_empty() {
        return Ok((words.paths.as_slice(), rest));
    }
    if rest.is_empty() {
        return Err(Refused::Words(
            "there is no path: write jpath PATH [FILE..], as in jpath '$.name' file.json",
        ));
    }
    Ok(rest.split_at(1))
}

// What the words ask to be written for each document: its edited text, a table, or something of its matches. A path
// that is refused is told.
fn read_task<'a>(
    rt: &(impl Eprint + Alloc<A = Global>),
    words: &Words<'a>,
    paths: &[&'a str],
) -> Result<Task<'a>, Refused>
    requires { paths.now ≡ paths_of words.now }
    ensures { IfOk result (IsAsked words.now) }
{
    let flags = words.flags;
    if !words.edits.is_empty() {
        return Ok(Task::Edits(read_edits(rt, words.edits.as_slice())?));
    }
    if let Some(rows) = words.rows {
        return Ok(Task::Table(read_table(rt, rows, paths, &flags)?));
    }
    Ok(task_of_matches(&flags, compile_all_or_tell(rt, paths)?))
}

// What the flags ask to be written of these paths' matches: their number, nothing, an array, or lines.
fn task_of_matches<'a>(flags: &Flags, queries: Vec<Query<'a>>) -> Task<'a>
    ensures { IsOfMatches flags.now queries.entry.items result }
{
    if flags.count {
        Task::Count(queries)
    } else if flags.quiet {
        Task::Quiet(queries)
    } else if flags.array {
        Task::Array(queries)
    } else {
        Task::Lines(queries, what_is_shown(flags))
    }
}

// What is shown of a match, by the flags: its place, place and value, names, length, or its value.
fn what_is_shown(flags: &Flags) -> Shown
    ensures { result ≡ shown_by flags.now }
{
    if flags.locations {
        Shown::Places
    } else if flags.with_locations {
        Shown::PlacesAndValues
    } else if flags.keys {
        Shown::Keys
    } else if flags.entries {
        Shown::Entries
    } else if flags.lengths {
        Shown::Lengths
    } else {
        Shown::Values
    }
}

// The edits, each with its path compiled and the text that it puts. A path or a value that is refused is told.
fn read_edits<'a>(
    rt: &(impl Eprint + Alloc<A = Global>),
    words: &[EditWords<'a>],
) -> Result<Vec<Edit<'a>>, Refused>
    ensures { IfOk result (λ edits. AreEditsOf words.now edits.items) }
{
    let mut edits = Vec::new(rt.alloc());
    for edit in words {
        edits.push(read_edit(rt, *edit)?)?;
    }
    Ok(edits)
}

// The edit of these words, with its path compiled, and the text that it puts.
fn read_edit<'a>(
    rt: &(impl Eprint + Alloc<A = Global>),
    words: EditWords<'a>,
) -> Result<Edit<'a>, Refused>
    ensures { IfOk result (IsEditOf words.entry) }
{
    let query = compile_or_tell(rt, words.path())?;
    let value = text_of_edit_value(rt, words)?;
    let member = member_of_edit(rt, words, &query)?;
    Ok(Edit {
        query,
        words,
        value,
        member,
    })
}

// The member that an edit makes, or the name that it changes; `None` for other edits. Where its path can't say it, that
// is told.
fn member_of_edit(
    rt: &(impl Eprint + Alloc<A = Global>),
    edit: EditWords<'_>,
    query: &Query<'_>,
) -> Result<Option<NamedMember>, Refused> {
    let alloc = rt.alloc();
    let (found, sentence) = match edit {
        EditWords::Add(_, _) | EditWords::AddText(_, _) => (
            member_of_plain_path(alloc, query)?,
            "--add makes a member by names and indexes from 0 alone, a name last",
        ),
        EditWords::Rename(_, _) => (
            last_name_of_path(alloc, query)?,
            "--rename wants a path that ends with one name",
        ),
        _ => return Ok(None),
    };
    if found.is_none() {
        let _ = eprintln!(rt; "jpath: {}: {sentence}", edit.path());
        return Err(Refused::Told);
    }
    Ok(found)
}

// The compact text of the JSON value that an edit puts at each place; that of null where it removes, which puts none.
fn text_of_edit_value(
    rt: &(impl Eprint + Alloc<A = Global>),
    edit: EditWords<'_>,
) -> Result<Vec<u8>, Refused>
    ensures { IfOk result (λ text. IsValueText edit.entry text.items) }
{
    let alloc = rt.alloc();
    match edit {
        EditWords::Set(_, json) => text_of_json_value(rt, "--set", json),
        EditWords::Add(_, json) => text_of_json_value(rt, "--add", json),
        EditWords::Append(_, json) => text_of_json_value(rt, "--append", json),
        EditWords::SetText(_, text) | EditWords::AddText(_, text) | EditWords::Rename(_, text) => {
            compact_value_text(alloc, &Exact::String(text))
        }
        EditWords::Null(_) | EditWords::Remove(_) => compact_value_text(alloc, &Exact::Null),
    }
}

// The compact text of the value of an option, whose JSON text this is. Where it is no JSON, that is told and refused.
fn text_of_json_value(
    rt: &(impl Eprint + Alloc<A = Global>),
    option: &str,
    json: &str,
) -> Result<Vec<u8>, Refused>
    ensures { IfOk result (λ text. (tree : Json) × (exact_of json.now ≡ Some tree) × (text.items ≡ compact tree)) }
{
    let alloc = rt.alloc();
    let mut scratch = Scratch::new(alloc);
    match read_exact_tree(alloc, json, &mut scratch) {
        Ok(exact) => compact_value_text(alloc, &exact),
        Err(DocumentRefusal::OutOfMemory) => Err(Refused::OutOfMemory),
        Err(_) => {
            let _ = eprintln!(rt; "jpath: {option} wants JSON, and this is none: {json}");
            let without = match option {
                "--set" => "; --set-text takes it without",
                "--add" => "; --add-text takes it without",
                _ => "",
            };
            let _ = eprintln!(rt; "hint: a text has quotes here, as '\"Ada\"'{without}");
            Err(Refused::Told)
        }
    }
}

// The compact text of a JSON value: without blanks, numbers in their own digits.
fn compact_value_text(alloc: Global, value: &Exact<'_>) -> Result<Vec<u8>, Refused>
    requires { HasNumbers (value_view value.now) }
    ensures { IfOk result (λ text. text.items ≡ compact (value_view value.now)) }
{
    let mut text = Vec::new(alloc);
    add_compact_value(alloc, &mut text, value)?;
    Ok(text)
}

// The table of `--rows`: the path of its rows, its columns, and what sets its fields apart. A path that is refused is
// told.
fn read_table<'a>(
    rt: &(impl Eprint + Alloc<A = Global>),
    rows: &'a str,
    paths: &[&'a str],
    flags: &Flags,
) -> Result<Table<'a>, Refused>
    ensures rows { IfOk result (λ table. table.rows.path ≡ rows.now) }
    ensures columns { IfOk result (λ table. length table.columns.items ≡ length paths.now) }
    ensures names { IfOk result (λ table. length table.names.items ≡ length paths.now) }
    ensures header { IfOk result (λ table. table.has_header ≡ flags.now.header) }
{
    let (names, columns) = read_columns(rt, paths)?;
    let rows = compile_or_tell(rt, rows)?;
    Ok(Table {
        rows,
        columns,
        names,
        separated: if flags.csv {
            Separated::ByCommas
        } else {
            Separated::ByTabs
        },
        has_header: flags.header,
    })
}

// The names of a table's columns, and their compiled paths, from the texts of `-e`.
fn read_columns<'a>(
    rt: &(impl Eprint + Alloc<A = Global>),
    texts: &[&'a str],
) -> Result<(Vec<&'a str>, Vec<Query<'a>>), Refused>
    ensures names { IfOk result (λ found. length found.0.items ≡ length texts.now) }
    ensures columns { IfOk result (λ found. length found.1.items ≡ length texts.now) }
{
    let alloc = rt.alloc();
    let mut names = Vec::new(alloc);
    let mut columns = Vec::new(alloc);
    for text in texts {
        let (name, path) = split_column_name(*text);
        names.push(name)?;
        columns.push(compile_or_tell(rt, path)?)?;
    }
    Ok((names, columns))
}

// The name and the path text of a column: `NAME=PATH`, or the path text for both.
fn split_column_name(text: &str) -> (&str, &str) {
    if text.starts_with('$') {
        return (text, text);
    }
    match text.split_once("=") {
        Some((name, path)) => (name, path),
        None => (text, text),
    }
}

// Compiles these path texts. The first that is refused is told.
fn compile_all_or_tell<'a>(
    rt: &(impl Eprint + Alloc<A = Global>),
    paths: &[&'a str],
) -> Result<Vec<Query<'a>>, Refused>
    ensures { IfOk result (λ queries. AreOf queries.items paths.now) }
{
    let mut queries = Vec::new(rt.alloc());
    for path in paths {
        queries.push(compile_or_tell(rt, *path)?)?;
    }
    Ok(queries)
}

// Compiles a path text, with a warning where `&&` and `||` are mixed. Where it is refused, that is told.
fn compile_or_tell<'a>(
    rt: &(impl Eprint + Alloc<A = Global>),
    path: &'a str,
) -> Result<Query<'a>, Refused>
    ensures { IfOk result (λ query. query.path ≡ path.now) }
{
    match Query::compile(rt.alloc(), path) {
        Ok(query) => {
            warn_of_mixed_connectives(rt, path);
            Ok(query)
        }
        Err(error) => {
            tell_refused_path(rt, path, &error);
            Err(Refused::Told)
        }
    }
}
