//! A piece of a stream, as a visitor gets it.

use json_recognizer::{Kind, LineColumn};

/// The next piece of a stream of documents: a document, wrong bytes in place of one, or blanks at the stream's end.
#[derive(Clone, Copy, Debug, Drop)]
pub struct Piece<'p> {
    /// All bytes of this piece of a stream: a document, or wrong bytes in place of one, with the blanks before it, or
    /// the blanks at the stream's end. Wrong bytes end with the first byte with which no document can continue, or at
    /// the stream's end.
    pub bytes: &'p [u8],
    /// The line and column at which this piece of a stream begins, both counted from 1, the column in bytes. A piece is
    /// a document, wrong bytes in place of one, or the blanks at the stream's end. Blanks before a document or wrong
    /// bytes belong to the piece, so it begins with them.
    pub place: LineColumn,
    /// The kind of this piece of a stream: a document, wrong bytes in place of one, or blanks.
    pub kind: Kind,
    /// Whether a byte order mark comes before this piece of a stream, which is then the first one. The byte order mark
    /// is not in `bytes`.
    pub is_marked: bool,
}
