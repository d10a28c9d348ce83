//! The layout of a match's line, and the file's name before it. The line itself is written in `output/matches.rt` of
//! `jpath_core`.

ghost use Rattle.std.specs.Prelude.{◌≡◌, ◌++◌, OnOk};
ghost use Rattle.jpath_texts.specs.Lines.{named, record_start, line_end};

use crate::output::look::Look;
use std::alloc::AllocError;

/// What `jpath` prints for a value that a path selects: the value, its location, or both; the names of its members or
/// the indexes of its items, alone or with their values; or its length.
#[derive(Clone, Copy, Debug, Drop, PartialEq, Eq)]
pub enum Shown {
    /// A choice of what the printed lines show: the selected value itself.
    Values,
    /// A choice of what the printed lines show: the location of the selected value, as a normalized path such as
    /// `$['a'][0]`.
    Places,
    /// A choice of what the printed lines show: the location of the selected value, a tab, and the value.
    PlacesAndValues,
    /// A choice of what `jpath` prints for each selected value: if it is an object, a line with the name of each
    /// member; if it is an array, a line with the index (from 0) of each item; nothing for any other value.
    Keys,
    /// What is printed for a selected value: a line for each of its members, with the name, a tab and the value, or for
    /// each of its items, with the index (from 0), a tab and the value. Nothing is printed for a value that is neither
    /// an object nor an array.
    Entries,
    /// A choice of what `jpath` prints for each selected value: its length. This is the number of items of an array, of
    /// members of an object, or of characters of a text; for any other value, null is printed.
    Lengths,
}

/// What follows a selected value that is printed: a line feed, the byte 0, or nothing.
#[derive(Clone, Copy, Debug, Drop, PartialEq, Eq)]
pub enum LineEnd {
    /// What is printed after each value: the byte 10, a line feed.
    LineFeed,
    /// What is printed after each value: the byte 0.
    Nul,
    /// What is printed after each value: nothing, so that the next value follows at once.
    Nothing,
}

/// How the lines for a selected value are printed: what the lines show, in which layout and colours, whether the byte
/// 30 (RS) and a file name come before each line, and what comes after it.
#[derive(Clone, Copy, Debug, Drop)]
pub struct Line<'n> {
    /// A field of an output line for a selected value: how the value is written. It says whether a string is written
    /// with its quotes and escapes, whether members are in the order of their names, whether the value is indented over
    /// several lines, and whether it is in colours.
    pub look: Look,
    /// A field of an output line for a selected value: what the line shows of this value, such as the value itself or
    /// its location.
    pub shown: Shown,
    /// A field of an output line for a selected value: a file's name, which is printed at the front of the line, with a
    /// colon after it; `None` if no file name is printed.
    pub name: Option<&'n str>,
    /// Whether the byte 30 (RS) is printed before the line, as before each text of a JSON text sequence.
    pub is_record: bool,
    /// A field of an output line for a selected value: what is printed after the line, namely a line feed, the byte 0,
    /// or nothing.
    pub end: LineEnd,
}

/// Appends to `out` what is printed before a line: first the byte 30 (RS) if `line.is_record` is true; then, unless
/// `line.name` is `None`, the file name in it and a colon. The only error is that memory ran out; `out` may then end
/// with a part of what is printed before the line.
#[inline(always)]
pub fn add_line_start(out: &mut Vec<u8>, line: &Line<'_>) -> Result<(), AllocError>
    ensures { OnOk result (out.new.items ≡ out.old.items ++ (record_start line.now.is_record ++ named line.now.name)) }
{
    add_record_start(out, line.is_record)?;
    add_file_name(out, line.name)
}

/// Appends the byte 30 (RS) to `out` if `is_record` is set. The only error is that memory ran out.
pub fn add_record_start(out: &mut Vec<u8>, is_record: bool) -> Result<(), AllocError>
    ensures { OnOk result (out.new.items ≡ out.old.items ++ record_start is_record) }
{
    if is_record {
        out.push(30)?;
    }
    Ok(())
}

/// Appends to `out` what `end` says, which is printed after a line: a line feed, the byte 0, or nothing. The only error
/// is that memory ran out.
#[inline(always)]
pub fn add_line_end(out: &mut Vec<u8>, end: LineEnd) -> Result<(), AllocError>
    ensures { OnOk result (out.new.items ≡ out.old.items ++ line_end end) }
{
    match end {
        LineEnd::LineFeed => out.push(b'\n')?,
        LineEnd::Nul => out.push(0)?,
        LineEnd::Nothing => (),
    }
    Ok(())
}

/// Appends a file's name and a colon to `out`, or nothing if `name` is `None`. The only error is that memory ran out;
/// `out` may then end with the name, without its colon.
pub fn add_file_name(out: &mut Vec<u8>, name: Option<&str>) -> Result<(), AllocError>
    ensures { OnOk result (out.new.items ≡ out.old.items ++ named name.entry) }
{
    if let Some(name) = name {
        out.extend_from_slice(name.as_bytes())?;
        out.push(b':')?;
    }
    Ok(())
}
