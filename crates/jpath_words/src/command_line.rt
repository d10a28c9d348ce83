//! The command line of `jpath`: its options, declared for `clap`, and how it is parsed.

ghost use Rattle.std.specs.Prelude.{◌≡◌, ◌<◌, map, IfOk};
ghost use Rattle.clap.specs.Words.{found_of};
ghost use Rattle.jpath_words.specs.Words.{path_of, argument_name, texts_of, AreFlags, AreFound, IsOutcome};

use crate::completions::{Described, completions};
use clap::{Arg, ArgAction, ArgMatches, Command};
use std::alloc::{AllocError, Global};

// What may stand behind `--color`, `--indent` and `--completions`.
const COLORS: [&str; 3] = ["auto", "always", "never"];

const WIDTHS: [&str; 8] = ["1", "2", "3", "4", "5", "6", "7", "8"];

const SHELLS: [&str; 3] = ["bash", "zsh", "fish"];

// What help has behind the options.
const EXAMPLES: &str = "Examples:
  jpath '$.store.book[*].title' books.json         each title, a line each
  jpath -r '$[?(@.level == \"error\")].msg' log.json     messages without quotes
  jpath --arg x \"$NAME\" '$.users[?(@.name == {x})]' users.json
  jpath --rows '$.store.book[*]' -e '$.title' -e '$.price' --csv books.json
  jpath -i --set '$.rate' 0.5 config.json          changes one value of a file

Status: 0 something was selected or changed; 1 nothing was; 2 wrong words or path;
3 a document has an error; 4 a file can't be read or written, or memory ran out.";

// What help shows behind an option that takes a path alone; the next three have a second value.
const PATH: [&str; 1] = ["PATH"];

const PATH_AND_JSON: [&str; 2] = ["PATH", "JSON"];

const PATH_AND_TEXT: [&str; 2] = ["PATH", "TEXT"];

const PATH_AND_NAME: [&str; 2] = ["PATH", "NAME"];

const NAME_AND_TEXT: [&str; 2] = ["NAME", "TEXT"];

const NAME_AND_NUMBER: [&str; 2] = ["NAME", "NUMBER"];

// A flag: its letter, its name, and what help says of it.
type Flag = (Option<char>, &'static str, &'static str);

// What follows a value, and what begins it.
const ENDS: [Flag; 3] = [
    (Some('j'), "join", "Nothing between values: no line ends"),
    (Some('0'), "nul", "The byte 0 in place of line ends"),
    (
        None,
        "seq",
        "A JSON text sequence: the byte 30 (RS) before each value",
    ),
];

// What is written of a match, and of a document.
const FORMS: [Flag; 14] = [
    (Some('r'), "raw", "Texts without quotes and escapes"),
    (Some('p'), "pretty", "Indented by two blanks"),
    (None, "tab", "Indented by a tab"),
    (
        Some('S'),
        "sort-keys",
        "Members in the order of their names, at every level",
    ),
    (Some('a'), "array", "One array a document"),
    (
        Some('l'),
        "locations",
        "The location of each match, as a path, in place of its value",
    ),
    (
        Some('L'),
        "with-locations",
        "The location, a tab, the value",
    ),
    (
        None,
        "keys",
        "The names of each match's members, or its items' indexes, a line each",
    ),
    (None, "entries", "The same, each with a tab and the value"),
    (
        None,
        "lengths",
        "How many members, items or characters each match has; else null",
    ),
    (Some('c'), "count", "The number of matches in each FILE"),
    (
        Some('q'),
        "quiet",
        "Nothing: the exit status says whether there is a match",
    ),
    (
        Some('H'),
        "with-filename",
        "The FILE's name and a colon before each line",
    ),
    (
        Some('k'),
        "keep-going",
        "Reports documents that cannot be read and skips them",
    ),
];

// About tables, and the paths alone.
const OTHERS: [Flag; 4] = [
    (None, "csv", "Fields of rows separated by commas"),
    (None, "tsv", "Fields of rows separated by tabs"),
    (
        None,
        "header",
        "The columns' names first; -e NAME=PATH gives one",
    ),
    (
        None,
        "check",
        "Checks the paths alone: nothing is read or written",
    ),
];

// Where an edited document goes.
const IN_PLACE: [Flag; 2] = [
    (
        Some('i'),
        "in-place",
        "Writes the edited document back into FILE",
    ),
    (
        None,
        "copy",
        "With -i: writes it into FILE itself, which keeps ACLs",
    ),
];

// An option with values behind it: its name, the values, and what help says of it.
type ValueOption = (&'static str, &'static [&'static str], &'static str);

// An option with one value: its letter, its name, the value, what the value may be if it is one of a few, and what help
// says of it.
type OneValue = (
    Option<char>,
    &'static str,
    &'static str,
    &'static [&'static str],
    &'static str,
);

const ANY: [&str; 0] = [];

const ONE_VALUE: [&str; 1] = ["VALUE"];

const INDENT: OneValue = (None, "indent", "N", &WIDTHS, "Indented by N blanks, 1 to 8");

const COLOR: OneValue = (
    Some('C'),
    "color",
    "WHEN",
    &COLORS,
    "Colours: auto is on a terminal alone",
);

const PATHS: OneValue = (
    Some('e'),
    "path",
    "PATH",
    &ANY,
    "A path, or with --rows a column; may be given several times",
);

const ROWS: OneValue = (
    None,
    "rows",
    "PATH",
    &ANY,
    "A row for each value that PATH selects, a field for each -e",
);

const COMPLETIONS: OneValue = (
    None,
    "completions",
    "SHELL",
    &SHELLS,
    "Writes the completions of jpath for this shell",
);

// The two options that clap adds.
const OF_CLAP: [Flag; 2] = [
    (Some('h'), "help", "Print help"),
    (Some('V'), "version", "Print version"),
];

// The two options that give arguments to paths.
const ARGUMENTS: [ValueOption; 2] = [
    (
        "arg",
        &NAME_AND_TEXT,
        "TEXT, quoted, for each {NAME} of a path",
    ),
    (
        "argjson",
        &NAME_AND_NUMBER,
        "NUMBER for each {NAME} of a path",
    ),
];

// The options that edit.
const EDITS: [ValueOption; 8] = [
    (
        "set",
        &PATH_AND_JSON,
        "The value of JSON in place of each value that PATH selects",
    ),
    (
        "set-text",
        &PATH_AND_TEXT,
        "TEXT in place of each value that PATH selects",
    ),
    (
        "add",
        &PATH_AND_JSON,
        "The same, or a new member with it, as PATH's last name says",
    ),
    ("add-text", &PATH_AND_TEXT, "The same with TEXT"),
    (
        "append",
        &PATH_AND_JSON,
        "The value of JSON at the end of each list that PATH selects",
    ),
    (
        "rename",
        &PATH_AND_NAME,
        "NAME in place of PATH's last name",
    ),
    (
        "null",
        &PATH,
        "Null in place of each value that PATH selects",
    ),
    ("remove", &PATH, "Removes each value that PATH selects"),
];

/// An edit option of the command line, with the words after it: its path and, for most options, a second word.
#[derive(Clone, Copy, Debug, Drop)]
pub enum EditWords<'a> {
    /// `--set PATH JSON`: puts the value of a JSON text in place of each value that the path selects.
    Set(&'a str, &'a str),
    /// `--set-text PATH TEXT`: puts a text in place of each value that the path selects.
    SetText(&'a str, &'a str),
    /// `--add PATH JSON`: sets the member that PATH names to the value of a JSON text. If the object has no member of
    /// that name, adds it; if the document has no object where the member belongs, nothing changes. PATH must consist
    /// of names and indexes that are not negative, and end with a name; otherwise `jpath` prints an error and reads no
    /// document.
    Add(&'a str, &'a str),
    /// `--add-text PATH TEXT`: sets the member that PATH names to a text. If the object has no member of that name,
    /// adds it; if the document has no object where the member belongs, nothing changes. PATH must consist of names and
    /// indexes that are not negative, and end with a name; otherwise `jpath` prints an error and reads no document.
    AddText(&'a str, &'a str),
    /// An edit option of the command line, `--append PATH JSON`: it adds the value of the text JSON at the end of each
    /// array that PATH selects.
    Append(&'a str, &'a str),
    /// `--rename PATH NAME`: renames each member that the path selects to NAME.
    Rename(&'a str, &'a str),
    /// An edit option of the command line, `--null PATH`: it puts null in place of each value that PATH selects.
    Null(&'a str),
    /// An edit option of `jpath`, `--remove PATH`: it removes each value that the path selects.
    Remove(&'a str),
}

impl<'a> EditWords<'a> {
    /// The path text of this edit option, which selects what is edited.
    pub fn path(&self) -> &'a str
        ensures { result.now ≡ path_of self.now }
    {
        match self {
            EditWords::Set(path, _) | EditWords::SetText(path, _) => *path,
            EditWords::Add(path, _) | EditWords::AddText(path, _) => *path,
            EditWords::Append(path, _) | EditWords::Rename(path, _) => *path,
            EditWords::Null(path) | EditWords::Remove(path) => *path,
        }
    }

    // The same edit by another path text.
    pub(crate) fn with_path<'b>(&self, path: &'b str) -> EditWords<'b>
    where
        'a: 'b,
        ensures path { path_of result ≡ path.now }
    {
        match self {
            EditWords::Set(_, json) => EditWords::Set(path, *json),
            EditWords::SetText(_, text) => EditWords::SetText(path, *text),
            EditWords::Add(_, json) => EditWords::Add(path, *json),
            EditWords::AddText(_, text) => EditWords::AddText(path, *text),
            EditWords::Append(_, json) => EditWords::Append(path, *json),
            EditWords::Rename(_, name) => EditWords::Rename(path, *name),
            EditWords::Null(_) => EditWords::Null(path),
            EditWords::Remove(_) => EditWords::Remove(path),
        }
    }
}

/// An option `--arg` or `--argjson`: a name, and the text or number by which `{NAME}` is replaced in paths.
#[derive(Clone, Copy, Debug, Drop)]
pub enum ArgumentWords<'a> {
    /// `--arg NAME TEXT`: in paths, `{NAME}` is replaced by this text, written in quotes.
    Text(&'a str, &'a str),
    /// `--argjson NAME NUMBER`: in paths, `{NAME}` is replaced by this number.
    Number(&'a str, &'a str),
}

impl<'a> ArgumentWords<'a> {
    /// The name that an option `--arg` or `--argjson` sets, without the braces that are around it in a path.
    pub fn name(&self) -> &'a str
        ensures { result.now ≡ argument_name self.now }
    {
        match self {
            ArgumentWords::Text(name, _) | ArgumentWords::Number(name, _) => *name,
        }
    }
}

/// The argument of the option `--color`, which says when the output is coloured.
#[derive(Clone, Copy, Debug, Drop, PartialEq, Eq)]
pub enum Color {
    Auto,
    Always,
    Never,
}

/// Which of the options about the output are on the command line.
#[derive(Clone, Copy, Debug, Drop)]
pub struct Flags {
    pub raw: bool,
    pub pretty: bool,
    pub tab: bool,
    pub sort_keys: bool,
    pub array: bool,
    pub locations: bool,
    pub with_locations: bool,
    pub keys: bool,
    pub entries: bool,
    pub lengths: bool,
    pub count: bool,
    pub quiet: bool,
    pub with_filename: bool,
    pub keep_going: bool,
    pub in_place: bool,
    pub copy: bool,
    pub csv: bool,
    pub tsv: bool,
    pub header: bool,
    pub check: bool,
    pub join: bool,
    pub nul: bool,
    pub seq: bool,
    /// The number of blanks for each level of indentation that `--indent` sets; `None` without that option.
    pub indent: Option<usize>,
    pub color: Color,
}

/// The parsed command line: options, paths, edits and the remaining words.
#[derive(Drop)]
pub struct Words<'a> {
    pub flags: Flags,
    /// A field of the parsed command line: the text that follows each option `-e`, in the order of the command line.
    /// Each text is a path; with the option `--rows` it may also be `NAME=PATH`.
    pub paths: Vec<&'a str>,
    pub rows: Option<&'a str>,
    /// The options that say by what a placeholder `{NAME}` in paths is replaced: first each `--arg`, then each
    /// `--argjson`.
    pub arguments: Vec<ArgumentWords<'a>>,
    /// The edit options of the command line, in its order. Each is stored with the words that follow it: its path and,
    /// for most options, a second word.
    pub edits: Vec<EditWords<'a>>,
    /// The words that belong to no option, in the order of the command line: the path first, unless paths are set by
    /// `-e` or edits, then the files.
    pub rest: Vec<&'a str>,
}

/// The result of parsing the command line: its options and words, or the status with which to exit.
#[derive(Drop)]
pub enum ParseOutcome<'a> {
    /// A result of parsing the command line: its options and words. The other possible result is that the program has
    /// to exit.
    Words(Words<'a>),
    /// A result of parsing the command line: the program has to exit with this status. It is 0 if help, the version or
    /// completions were asked for and are printed, and 2 if an option was wrong and the error is printed.
    Ended(u8),
}

/// Parses the command line, whose first word is the program's name, into options and other words. If the command line
/// asks for help, the version or completions, or has a wrong option, the call prints what is asked for or what is
/// wrong, and returns the status with which the program has to exit. The only error that it returns is that memory ran
/// out.
pub fn parse_words<'a>(
    rt: &(impl Print + Eprint + Alloc<A = Global>),
    words: &'a [String],
) -> Result<ParseOutcome<'a>, AllocError>
    ensures { IfOk result IsOutcome }
{
    let command = clap_command(rt.alloc())?;
    match command.try_get_matches_from(&*words) {
        Ok(matches) => match matches.get_str("completions") {
            Some(shell) => {
                print_completions(rt, shell)?;
                Ok(ParseOutcome::Ended(0))
            }
            None => Ok(ParseOutcome::Words(words_of_clap_matches(rt.alloc(), &matches)?)),
        },
        Err(error) => {
            let _ = error.print(rt);
            Ok(ParseOutcome::Ended(if error.use_stderr() { 2 } else { 0 }))
        }
    }
}

// Prints the completions of the options for this shell.
fn print_completions(rt: &(impl Print + Alloc<A = Global>), shell: &str) -> Result<(), AllocError> {
    let text = completions(rt.alloc(), described_options(rt.alloc())?.as_slice(), shell)?;
    let text = text.as_str();
    let _ = print!(rt; "{text}");
    Ok(())
}

// All options, as completions need them.
fn described_options(alloc: Global) -> Result<Vec<Described>, AllocError> {
    let mut options = Vec::new(alloc);
    for flags in [
        FORMS.as_slice(),
        ENDS.as_slice(),
        OTHERS.as_slice(),
        IN_PLACE.as_slice(),
        OF_CLAP.as_slice(),
    ] {
        add_described_flags(flags, &mut options)?;
    }
    for (letter, name, _, choices, help) in [INDENT, COLOR, PATHS, ROWS, COMPLETIONS] {
        options.push(Described {
            letter,
            name,
            values: &ONE_VALUE,
            choices,
            help,
        })?;
    }
    for many in [ARGUMENTS.as_slice(), EDITS.as_slice()] {
        add_described_value_options(many, &mut options)?;
    }
    Ok(options)
}

// Adds these flags, as completions need them.
fn add_described_flags(flags: &[Flag], options: &mut Vec<Described>) -> Result<(), AllocError> {
    for (letter, name, help) in flags {
        options.push(Described {
            letter: *letter,
            name: *name,
            values: &[],
            choices: &[],
            help: *help,
        })?;
    }
    Ok(())
}

// Adds these options with values, as completions need them.
fn add_described_value_options(
    many: &[ValueOption],
    options: &mut Vec<Described>,
) -> Result<(), AllocError> {
    for (name, values, help) in many {
        options.push(Described {
            letter: None,
            name: *name,
            values: *values,
            choices: &[],
            help: *help,
        })?;
    }
    Ok(())
}

// `jpath` as `clap` is told of it: its name, version, purpose and options.
fn clap_command<'a>(alloc: Global) -> Result<Command<'a>, AllocError> {
    let arguments = clap_arguments(alloc)?;
    Command::new(alloc, "jpath")
        .version("0.1.0")
        .about("Selects values of JSON documents by JSONPath: jpath [OPTIONS] PATH [FILE..]")
        .after_help(EXAMPLES)
        .args(arguments)?
        .bin_name("jpath")
}

// All options and the words behind them, as `clap` takes them, in the order in which help has them.
fn clap_arguments<'a>(alloc: Global) -> Result<Vec<Arg<'a>>, AllocError> {
    let mut arguments = Vec::new(alloc);
    add_flags(alloc, FORMS.as_slice(), &mut arguments)?;
    add_flags(alloc, ENDS.as_slice(), &mut arguments)?;
    add_argument(one_value_option(alloc, INDENT), &mut arguments)?;
    add_argument(color_option(alloc), &mut arguments)?;
    add_argument(path_option(alloc), &mut arguments)?;
    add_argument(one_value_option(alloc, ROWS), &mut arguments)?;
    add_flags(alloc, OTHERS.as_slice(), &mut arguments)?;
    add_value_options(alloc, ARGUMENTS.as_slice(), &mut arguments)?;
    add_value_options(alloc, EDITS.as_slice(), &mut arguments)?;
    add_flags(alloc, IN_PLACE.as_slice(), &mut arguments)?;
    add_argument(one_value_option(alloc, COMPLETIONS), &mut arguments)?;
    add_argument(path_and_files_argument(alloc), &mut arguments)?;
    Ok(arguments)
}

// Adds an argument to those that `clap` is told of: an option, or the words that belong to none.
fn add_argument<'a>(argument: Arg<'a>, arguments: &mut Vec<Arg<'a>>) -> Result<(), AllocError> {
    arguments.push(argument)?;
    Ok(())
}

// Adds an option that takes no value for each of these flags. One that isn't given has no entry in what `clap` finds, as
// it would have by `ArgAction::SetTrue`: each entry makes each look-up there longer.
fn add_flags<'a>(
    alloc: Global,
    flags: &[Flag],
    arguments: &mut Vec<Arg<'a>>,
) -> Result<(), AllocError> {
    for (letter, name, help) in flags {
        let flag = named_option(alloc, *name, *help)
            .action(ArgAction::Set)
            .num_args(0)
            .default_missing_value("true");
        add_argument(with_letter(flag, *letter), arguments)?;
    }
    Ok(())
}

// Adds each of these options with values, as `--set PATH JSON`.
fn add_value_options<'a>(
    alloc: Global,
    options: &[ValueOption],
    arguments: &mut Vec<Arg<'a>>,
) -> Result<(), AllocError> {
    for (name, values, help) in options {
        add_argument(
            as_value_option(named_option(alloc, *name, *help), *values),
            arguments,
        )?;
    }
    Ok(())
}

// An option with this long name, as `--name`, and what help says of it.
fn named_option<'a>(alloc: Global, name: &'a str, help: &'a str) -> Arg<'a> {
    Arg::new(alloc, name).long(name).help(help)
}

// Gives an option its letter, where it has one.
fn with_letter<'a>(argument: Arg<'a>, letter: Option<char>) -> Arg<'a> {
    match letter {
        Some(letter) => argument.short(letter),
        None => argument,
    }
}

// Puts these values behind an option, which may stand several times. A value may begin with `-`.
fn as_value_option<'a>(argument: Arg<'a>, values: &'a [&'a str]) -> Arg<'a> {
    argument
        .action(ArgAction::Append)
        .allow_hyphen_values(true)
        .num_args(values.len())
        .value_names(&*values)
}

// The option `--color`, which says when lines are coloured.
fn color_option<'a>(alloc: Global) -> Arg<'a> {
    one_value_option(alloc, COLOR).default_value("auto")
}

// The option `-e`, which gives a path, or with `--rows` a column.
fn path_option<'a>(alloc: Global) -> Arg<'a> {
    one_value_option(alloc, PATHS).action(ArgAction::Append)
}

// The option with one value that is described so; another value is refused where it may be one of a few.
fn one_value_option<'a>(alloc: Global, described: OneValue) -> Arg<'a> {
    let (letter, name, value, choices, help) = described;
    let argument = with_letter(named_option(alloc, name, help).value_name(value), letter);
    match choices {
        [] => argument,
        _ => argument.value_parser(choices),
    }
}

// The words that belong to no option: the path, where no option gives one, and the files.
fn path_and_files_argument<'a>(alloc: Global) -> Arg<'a> {
    Arg::new(alloc, "words")
        .value_name("PATH] [FILE")
        .num_args(0..)
        .action(ArgAction::Append)
}

// The words, taken apart, of what `clap` found in them.
fn words_of_clap_matches<'a>(
    alloc: Global,
    matches: &ArgMatches<'a>,
) -> Result<Words<'a>, AllocError>
    ensures { IfOk result (λ words. AreFound (found_of matches.now) words) }
{
    Ok(Words {
        flags: read_flags(matches),
        paths: option_values(alloc, matches, "path")?,
        rows: matches.get_str("rows"),
        arguments: read_argument_words(alloc, matches)?,
        edits: read_edit_words(alloc, matches)?,
        rest: option_values(alloc, matches, "words")?,
    })
}

// Which flags `clap` found, how lines are indented, and when they are coloured.
fn read_flags(matches: &ArgMatches<'_>) -> Flags
    ensures { AreFlags (found_of matches.now) result }
{
    let color = match matches.get_str("color") {
        Some("always") => Color::Always,
        Some("never") => Color::Never,
        _ => Color::Auto,
    };
    let indent = match matches.get_str("indent") {
        Some(width) => width.parse::<usize>().ok(),
        None => None,
    };
    Flags {
        raw: matches.get_flag("raw"),
        pretty: matches.get_flag("pretty"),
        tab: matches.get_flag("tab"),
        sort_keys: matches.get_flag("sort-keys"),
        array: matches.get_flag("array"),
        locations: matches.get_flag("locations"),
        with_locations: matches.get_flag("with-locations"),
        keys: matches.get_flag("keys"),
        entries: matches.get_flag("entries"),
        lengths: matches.get_flag("lengths"),
        count: matches.get_flag("count"),
        quiet: matches.get_flag("quiet"),
        with_filename: matches.get_flag("with-filename"),
        keep_going: matches.get_flag("keep-going"),
        in_place: matches.get_flag("in-place"),
        copy: matches.get_flag("copy"),
        csv: matches.get_flag("csv"),
        tsv: matches.get_flag("tsv"),
        header: matches.get_flag("header"),
        check: matches.get_flag("check"),
        join: matches.get_flag("join"),
        nul: matches.get_flag("nul"),
        seq: matches.get_flag("seq"),
        indent,
        color,
    }
}

// The values of an option, in their order, as `clap` found them; none where the option isn't there.
fn option_values<'a>(
    alloc: Global,
    matches: &ArgMatches<'a>,
    name: &str,
) -> Result<Vec<&'a str>, AllocError>
    ensures { IfOk result (λ values. map (λ t. t.now) values.items ≡ texts_of (found_of matches.now) name.now) }
{
    let mut found = Vec::new(alloc);
    if let Some(values) = matches.get_strs(name) {
        for value in values {
            found.push(*value)?;
        }
    }
    Ok(found)
}

// The arguments that `clap` found, those of `--arg` first.
fn read_argument_words<'a>(
    alloc: Global,
    matches: &ArgMatches<'a>,
) -> Result<Vec<ArgumentWords<'a>>, AllocError> {
    let mut arguments = Vec::new(alloc);
    for pair in option_values(alloc, matches, "arg")?.chunks(2) {
        if let [name, text] = pair {
            arguments.push(ArgumentWords::Text(*name, *text))?;
        }
    }
    for pair in option_values(alloc, matches, "argjson")?.chunks(2) {
        if let [name, number] = pair {
            arguments.push(ArgumentWords::Number(*name, *number))?;
        }
    }
    Ok(arguments)
}

// The edits that `clap` found, of all options, in the order in which they are written.
fn read_edit_words<'a>(
    alloc: Global,
    matches: &ArgMatches<'a>,
) -> Result<Vec<EditWords<'a>>, AllocError> {
    let mut placed = edits_with_positions(alloc, matches)?;
    placed.sort_unstable_by_key(|edit| edit.0);
    let mut edits = Vec::new(alloc);
    for (_, edit) in placed.iter() {
        edits.push(*edit)?;
    }
    Ok(edits)
}

// The edits that `clap` found, of one option after another, each with the place of its first value among the words.
fn edits_with_positions<'a>(
    alloc: Global,
    matches: &ArgMatches<'a>,
) -> Result<Vec<(usize, EditWords<'a>)>, AllocError> {
    let mut placed = Vec::new(alloc);
    for (name, values, _) in EDITS.as_slice() {
        add_edits_of_option(matches, *name, values.len().max(1), &mut placed)?;
    }
    Ok(placed)
}

// Adds the edits of one option that takes `each` values, each edit with the place of its first value among the words.
fn add_edits_of_option<'a>(
    matches: &ArgMatches<'a>,
    name: &str,
    each: usize,
    edits: &mut Vec<(usize, EditWords<'a>)>,
) -> Result<(), AllocError>
    requires { 0 < each }
{
    let (Some(places), Some(values)) = (matches.indices_of(name), matches.get_strs(name)) else {
        return Ok(());
    };
    for (place, value) in places.chunks(each).zip(values.chunks(each)) {
        if let Some(placed) = edit_with_position(name, place, value) {
            edits.push(placed)?;
        }
    }
    Ok(())
}

// The edit that an option of this name (`set` and so on) asks for by these values, and the
// position of the first value among the words. `None` where there are no values.
fn edit_with_position<'a>(
    name: &str,
    places: &[usize],
    values: &[&'a str],
) -> Option<(usize, EditWords<'a>)> {
    let (place, path) = (places.first()?, values.first()?);
    let second = values.get(1).map_or("", |text| *text);
    let edit = match name {
        "set" => EditWords::Set(*path, second),
        "set-text" => EditWords::SetText(*path, second),
        "add" => EditWords::Add(*path, second),
        "add-text" => EditWords::AddText(*path, second),
        "append" => EditWords::Append(*path, second),
        "rename" => EditWords::Rename(*path, second),
        "null" => EditWords::Null(*path),
        _ => EditWords::Remove(*path),
    };
    Some((*place, edit))
}
