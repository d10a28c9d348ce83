//! Positions in a JSON text: where blanks, values and members begin and end.

use json_recognizer::first_document_len;

// The bytes of a document, in which positions are looked for.
#[derive(Clone, Copy)]
pub(crate) struct Positions<'c> {
    pub(crate) text: &'c [u8],
}

impl<'c> Positions<'c> {
    // Where the member begins that stands behind the blanks from a position on, and where its value does.
    pub(crate) fn member_start(&self, from: usize) -> ChildStart {
        let label = self.blanks_end(from);
        let colon = self.blanks_end(self.value_end(label));
        ChildStart {
            label,
            value: self.blanks_end(colon.saturating_add(1)),
        }
    }

    // The position behind the comma that follows a value, or that of the value's end where none follows.
    pub(crate) fn position_behind_comma(&self, end: usize) -> usize {
        let stop = self.blanks_end(end);
        if self.text.get(stop) == Some(&b',') {
            stop.saturating_add(1)
        } else {
            end
        }
    }

    // The position where the blanks that begin at `from` end.
    pub(crate) fn blanks_end(&self, from: usize) -> usize {
        let mut end = from;
        if let Some(rest) = self.text.get(from..) {
            for byte in rest {
                if !matches!(*byte, b' ' | b'\t' | b'\n' | b'\r') {
                    break;
                }
                end = end.saturating_add(1);
            }
        }
        end
    }

    // The position where the value that begins at `start` ends.
    pub(crate) fn value_end(&self, start: usize) -> usize {
        let rest = self.text.get(start..).unwrap_or(b"");
        let len = match rest.first() {
            Some(b'{' | b'[' | b'"') => first_document_len(rest),
            _ => number_or_word_len(rest),
        };
        start.saturating_add(len)
    }
}

// Where the name of a member begins, and where its value does. An item has no name.
#[derive(Clone, Copy)]
pub(crate) struct ChildStart {
    pub(crate) label: usize,
    pub(crate) value: usize,
}

impl ChildStart {
    // The start of an item, which has no name: it begins with its value.
    pub(crate) fn of_item(value: usize) -> ChildStart {
        ChildStart {
            label: value,
            value,
        }
    }
}

// How many bytes the number, the truth or the null takes with which the bytes begin.
fn number_or_word_len(bytes: &[u8]) -> usize {
    for (at, byte) in bytes.iter().enumerate() {
        if matches!(*byte, b',' | b'}' | b']' | b' ' | b'\t' | b'\n' | b'\r') {
            return at;
        }
    }
    bytes.len()
}
