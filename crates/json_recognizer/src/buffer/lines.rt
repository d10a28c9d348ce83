//! Blanks and line ends.

ghost use Rattle.std.specs.Prelude.{◌≡◌, ◌≤◌, ◌<◌, ◌==◌, ℕ, List, ◌++◌, length, not, position, reverse, IfSome};
ghost use Rattle.json_recognizer.specs.Blanks.{is_json_whitespace, is_blank_text, blanks_len};
ghost use Rattle.json_recognizer.specs.Lines.{line_ends, place_behind};

use crate::buffer::piece::LineColumn;

/// How many bytes at the front of the given bytes are blanks (spaces, tabs, line feeds, carriage returns).
pub fn count_blanks(bytes: &[u8]) -> usize
    ensures blanks { result ≡ blanks_len bytes.now }
    ensures within { result ≤ length bytes.now }
{
    match first_nonblank(bytes) {
        Some(at) => at,
        None => bytes.len(),
    }
}

// Where the first byte is that is no blank.
fn first_nonblank(bytes: &[u8]) -> Option<usize>
    ensures at { result ≡ position (λ byte. not (is_json_whitespace byte)) bytes.now }
    ensures within { IfSome result (λ at. at < length bytes.now) }
{
    bytes.iter().position(|byte| !is_blank(*byte))
}

// Whether there are blanks alone.
pub(crate) fn is_blank_text(bytes: &[u8]) -> bool
    ensures { result ≡ is_blank_text bytes.now }
{
    bytes.iter().all(|byte| is_blank(*byte))
}

// Where the first line ends.
pub(crate) fn first_line_end(bytes: &[u8]) -> Option<usize>
    ensures at { result ≡ position (λ byte. byte == 10) bytes.now }
    ensures within { IfSome result (λ at. at < length bytes.now) }
{
    bytes.iter().position(|byte| *byte == b'\n')
}

// How many lines end in the bytes.
fn count_line_ends(bytes: &[u8]) -> usize
    ensures { result ≡ line_ends bytes.now }
{
    bytes.iter().filter(|byte| **byte == b'\n').count()
}

// How many bytes stand behind the last line end; None where no line ends.
fn count_behind_line_end(bytes: &[u8]) -> Option<usize>
    ensures behind { result ≡ position (λ byte. byte == 10) (reverse bytes.now) }
    ensures within { IfSome result (λ behind. behind < length bytes.now) }
{
    bytes.iter().rev().position(|byte| *byte == b'\n')
}

/// Returns the line and column (both from 1, the column in bytes) just after the given bytes; `place` is the line and
/// column of the first of these bytes.
#[inline(always)]
pub fn place_after(place: LineColumn, bytes: &[u8]) -> LineColumn
    ensures { (passed : List ℕ) → place ≡ place_behind passed → result ≡ place_behind (passed ++ bytes.now) }
{
    match bytes.split_first() {
        Some((b'\n', rest)) => {
            let line = place.line.saturating_add(1);
            place_after_text(LineColumn { line, column: 1 }, rest)
        }
        _ => place_after_text(place, bytes),
    }
}

// The position behind these bytes, which begin at this one.
fn place_after_text(place: LineColumn, bytes: &[u8]) -> LineColumn
    ensures { (passed : List ℕ) → place ≡ place_behind passed → result ≡ place_behind (passed ++ bytes.now) }
{
    if !bytes.contains(&b'\n') {
        let column = place.column.saturating_add(bytes.len());
        return LineColumn {
            line: place.line,
            column,
        };
    }
    LineColumn {
        line: place.line.saturating_add(count_line_ends(bytes)),
        column: match count_behind_line_end(bytes) {
            Some(behind) => behind.saturating_add(1),
            None => place.column.saturating_add(bytes.len()),
        },
    }
}

// Whether the byte is one of the four blanks that JSON has between its parts.
fn is_blank(byte: u8) -> bool
    ensures { result ≡ is_json_whitespace byte }
{
    (byte == b' ') | (byte == b'\t') | (byte == b'\n') | (byte == b'\r')
}
