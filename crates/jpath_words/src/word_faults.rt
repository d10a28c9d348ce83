//! Options that contradict each other, or that need another one that is missing: a sentence that says what to write. A
//! missing path is reported in `task.rt`.

use crate::command_line::{Flags, Words};

// A sentence for the first fault among the words, a contradiction or something missing, which says what to write, or
// `None` where there is none.
pub(crate) fn words_fault(words: &Words<'_>) -> Option<&'static str> {
    let flags = words.flags;
    let has_edits = !words.edits.is_empty();
    let has_lines = flags.pretty || flags.tab || flags.indent.is_some();
    let has_form = flags.raw
        || has_lines
        || flags.sort_keys
        || flags.array
        || flags.locations
        || flags.with_locations
        || has_parts(&flags)
        || flags.count
        || flags.with_filename;
    if has_edits && (words.rows.is_some() || !words.paths.is_empty()) {
        return Some("an edit takes no other path: leave -e and --rows out");
    }
    if has_edits
        && (flags.count
            || flags.array
            || flags.locations
            || flags.with_locations
            || has_parts(&flags)
            || flags.quiet
            || flags.with_filename
            || flags.raw)
    {
        return Some(
            "with edits the document is written: leave -r -a -l -L -c -q -H --keys --entries --lengths out",
        );
    }
    if has_edits && flags.sort_keys && !has_lines {
        return Some(
            "an edit keeps the order of members: -S goes with it beside -p, --indent or --tab",
        );
    }
    if flags.quiet && has_form {
        return Some("-q writes nothing: leave it or the other form of output out");
    }
    if flags.locations && (flags.with_locations || flags.array || flags.count) {
        return Some("-l writes locations alone: leave it, or -L, -a and -c, out");
    }
    if flags.with_locations && (flags.array || flags.count) {
        return Some("-L writes a line for each match: leave it, or -a and -c, out");
    }
    if flags.array && flags.count {
        return Some("-a writes arrays and -c numbers: leave one of them out");
    }
    parts_fault(&flags)
        .or(layout_fault(words))
        .or(ends_fault(words))
        .or(table_fault(words, has_form))
        .or(in_place_fault(words))
}

// Whether lines are about what is in a value.
fn has_parts(flags: &Flags) -> bool {
    flags.keys || flags.entries || flags.lengths
}

// The sentence for `--keys`, `--entries` and `--lengths` where they do not go with the other flags, or `None`.
fn parts_fault(flags: &Flags) -> Option<&'static str> {
    if !has_parts(flags) {
        return None;
    }
    if flags.keys && (flags.entries || flags.lengths) || flags.entries && flags.lengths {
        return Some("--keys, --entries and --lengths differ in what they write: leave one of them");
    }
    if flags.locations || flags.with_locations || flags.array || flags.count {
        return Some(
            "--keys, --entries and --lengths write lines of their own: leave them, or -l -L -a -c, out",
        );
    }
    None
}

// The sentence for `-p`, `--indent`, `--tab` and `-S` where they do not go with the other words, or `None`.
fn layout_fault(words: &Words<'_>) -> Option<&'static str> {
    let flags = words.flags;
    let has_indent = flags.indent.is_some();
    if has_indent && flags.tab {
        return Some("--indent and --tab say how lines are indented: leave one of them out");
    }
    let has_lines = has_indent || flags.tab;
    if (has_lines || flags.sort_keys) && (flags.count || flags.locations || flags.lengths) {
        return Some(
            "--indent, --tab and -S are about values: leave them, or -c, -l and --lengths, out",
        );
    }
    if (has_lines || flags.pretty) && flags.keys {
        return Some(
            "--keys writes names alone: leave -p, --indent and --tab out, or add values by --entries",
        );
    }
    if flags.pretty && flags.lengths {
        return Some("--lengths writes numbers alone: leave -p out");
    }
    None
}

// The sentence for `-j`, `-0` and `--seq` where they do not go with the other words, or `None`.
fn ends_fault(words: &Words<'_>) -> Option<&'static str> {
    let flags = words.flags;
    if !flags.join && !flags.nul && !flags.seq {
        return None;
    }
    if (flags.join && flags.nul) || (flags.seq && (flags.join || flags.nul)) {
        return Some("-j, -0 and --seq say what is between values: leave one of them");
    }
    if words.rows.is_some() || !words.edits.is_empty() || flags.quiet {
        return Some("-j, -0 and --seq go with values: leave them, or --rows, -q and edits, out");
    }
    if flags.join && flags.count {
        return Some("-j has nothing between the numbers of -c: leave one of them out");
    }
    let has_other = flags.raw
        || flags.count
        || flags.with_filename
        || flags.locations
        || flags.with_locations
        || flags.entries;
    if flags.seq && has_other {
        return Some("--seq writes JSON texts: leave -r -l -L -c -H --entries out");
    }
    None
}

// The sentence for words about a table (`--rows`, `--csv`, `--tsv`, `--header`) that do not go together, or `None`.
// `has_form` says whether a flag asks for another form of output.
fn table_fault(words: &Words<'_>, has_form: bool) -> Option<&'static str> {
    let flags = words.flags;
    if words.rows.is_none() {
        if flags.csv || flags.tsv || flags.header {
            return Some("--csv, --tsv and --header go with --rows PATH and -e COLUMN");
        }
        return None;
    }
    if words.paths.is_empty() {
        return Some("--rows wants a column: add -e PATH, from each row's value as its $");
    }
    if flags.csv == flags.tsv {
        return Some("--rows wants --csv or --tsv, one of them");
    }
    if has_form || flags.quiet {
        return Some(
            "--rows writes a table: leave -r -p --indent --tab -S -a -l -L --keys --entries --lengths -c -q -H out",
        );
    }
    None
}

// The sentence for `-i` where it does not go with the other words, or `None`.
fn in_place_fault(words: &Words<'_>) -> Option<&'static str> {
    let flags = words.flags;
    if !flags.in_place {
        return match flags.copy {
            true => Some("--copy goes with -i"),
            false => None,
        };
    }
    if words.edits.is_empty() {
        return Some("-i goes with an edit, as --set, --add or --remove");
    }
    if words.rest.is_empty() {
        return Some("-i wants a FILE: name the files to be edited");
    }
    if words.rest.iter().any(|file| *file == "-") {
        return Some("-i edits files: standard input is none");
    }
    if flags.keep_going {
        return Some(
            "-i leaves a file as it is where a document in it cannot be read: leave -k out",
        );
    }
    None
}
