//! The pieces of a stream, and positions in it.

/// What a piece of a stream of JSON documents is: a document, wrong bytes in place of one, or blanks.
#[derive(Clone, Copy, Debug, Drop, PartialEq, Eq)]
pub enum Kind {
    /// A kind of piece of a stream: a JSON document, with the blanks before it if there are any.
    Document,
    /// A kind of piece of a stream of documents: wrong bytes in place of a document. They end with the first byte with
    /// which no document can continue, or at the stream's end if that cuts a document short.
    Refused,
    /// A kind of piece of a stream of documents: blanks alone, possibly none, up to the end of the stream. The stream
    /// then has no further document.
    Blanks,
}

/// A position in a stream: line and column, both counted from 1, the column in bytes. Only the position of an error,
/// which the method `place_of_refusal` returns, can have column 0: the stream then ends inside a document, just after a
/// line end.
#[derive(Clone, Copy, Debug, Drop, PartialEq, Eq)]
pub struct LineColumn {
    pub line: usize,
    pub column: usize,
}
