//! Visitors of documents, and the loop that visits each document of a stream.

ghost use Rattle.std.specs.Prelude.{◌≡◌, ℕ, List, [], ◌++◌, true, false, Bool, Err, IfOk, IfErr, OnOk, OnErr};
ghost use Rattle.json_recognizer.specs.Buffer.{left, piece_of, mark_if, IsSound, IsReady, MayCome};
ghost use Rattle.jpath_texts.specs.Stream.{behind_piece, is_enough, IfStopped, IsCutShort, Gives, StayGiven, GoesAlong};

use crate::stream::piece::Piece;
use json_recognizer::{Kind, ReadFailure, StreamBuffer};
use jsonpath_streams::Input;
use std::alloc::Global;

/// What a visitor of documents reports after each document: how many matches the document has, and whether to stop.
#[derive(Clone, Copy, Debug, Drop)]
pub struct Taken {
    /// A field of what a visitor of documents reports after each document: how many matches the document has, as the
    /// visitor counts them, such as selected values.
    pub count: usize,
    /// A field of what a visitor reports after it has visited a document of a stream: true if no more documents have to
    /// be visited, since the visitor needs none.
    pub is_enough: bool,
}

/// A trait of visitors. A visitor is called for each document of a stream, one after another, and writes the output for
/// it.
pub trait Visitor {
    /// An associated type, chosen by the implementor: the type of the error that the visitor returns to end the visits
    /// of a stream.
    type Stop: Drop;

    // What was written so far, handed on or not.
    ghost written: { Self → List ℕ };

    // What may become of a piece, and what is then written for it.
    ghost gives: { Self → Gives };

    // Why it may go no further.
    ghost stops: { Self → Self.Stop → Type 0 };

    /// A method of a visitor of a stream's documents: it is called before each read of the stream. Since the read may
    /// block, the visitor can write buffered output first. If the method returns an error, the stream is not read
    /// further, and no more documents are visited.
    fn before_read(&mut self) -> Result<(), Self::Stop>
        ensures written { written self.new ≡ written self.old }
        ensures stops { IfErr result (stops self.new) }
        ensures stay { StayGiven (gives self.old) (gives self.new) };

    /// A method of a visitor of a stream: it writes the output for the next piece of the stream, which is a document,
    /// wrong bytes in place of one, or the blanks at the end. It returns how many matches the visitor counts in this
    /// piece, and whether no more pieces are needed. If it returns an error, it has written nothing for this piece.
    fn visit_piece(&mut self, piece: &Piece<'_>) -> Result<Taken, Self::Stop>
        ensures gives { IfOk result (λ taken. (text : List ℕ) × (written self.new ≡ written self.old ++ text)
            × gives self.new piece.now.kind piece.now.bytes.now taken text) }
        ensures nothing { OnErr result (written self.new ≡ written self.old) }
        ensures stops { IfErr result (stops self.new) }
        ensures stay { StayGiven (gives self.old) (gives self.new) };
}

/// Why `visit_documents`, which calls a visitor for each document of a stream, has ended.
#[derive(Clone, Copy, Debug, Drop, PartialEq, Eq)]
pub enum How<S> {
    /// Why `visit_documents`, which calls a visitor for each document of a stream, has ended: the stream was read to
    /// its end, and each of its documents was visited.
    Whole,
    /// Why the loop that calls a visitor for each document of a stream ended: the visitor needed no more documents.
    Enough,
    /// The function `visit_documents`, which calls a visitor for each document of a stream, ended because the stream
    /// could not be read further. The field says why.
    ReadFailed(ReadFailure),
    /// Why the loop that calls a visitor for each document of a stream ended: the visitor returned this error.
    Stopped(S),
    /// A reason why `visit_documents`, which calls a visitor for each document of a stream, has ended: its loop over
    /// the stream has reached the limit of 2^64 - 1 rounds.
    Endless,
}

/// The result of `visit_documents`, a function that reads a stream and calls a visitor for each document. It has the
/// number of matches, as the visitor counts them, and the reason why the visits ended. `S` is the type of the visitor's
/// error.
#[derive(Drop)]
pub struct Ended<S> {
    /// How many matches the visited documents have together, or the greatest `usize` if there are more.
    pub count: usize,
    /// Why the function `visit_documents` ended, which calls a visitor for each document of a stream.
    pub how: How<S>,
}

/// Reads a stream of documents, skipping a byte order mark at its beginning, and calls the visitor for each document,
/// in order, as soon as its bytes are read. At the end of the stream the visitor is also called for the blanks there,
/// even if there are none. Returns the sum of the numbers of matches that the visitor reported, and why the visits
/// ended. A malformed document is visited, too, as soon as its first wrong byte is read; the next document is then
/// searched for after the line on which the malformed one begins.
pub fn visit_documents<R: Input, V: Visitor>(
    alloc: Global,
    reader: &mut R,
    visitor: &mut V,
) -> Ended<V::Stop>
    ensures along { (is_marked : Bool) × (stream : List ℕ) × (rest : List ℕ)
        × (R.given reader.new ≡ R.given reader.old ++ (mark_if is_marked ++ stream))
        × GoesAlong (V.gives visitor.new) stream rest (V.written visitor.old) (V.written visitor.new) result.count (is_enough result.how)
        × (result.how ≡ How.Whole → (rest ≡ []) × (R.has_ended reader.new ≡ true)) }
    ensures unread { result.how ≡ How.ReadFailed ReadFailure.Failed → R.has_failed reader.new ≡ true }
    ensures read { (result.how ≡ How.ReadFailed ReadFailure.Failed → ⊥) → R.has_failed reader.new ≡ R.has_failed reader.old }
    ensures stopped { IfStopped (V.stops visitor.new) result.how }
{
    let mut feed = StreamBuffer::new(alloc);
    match read_past_byte_order_mark(&mut feed, reader, visitor) {
        Ok(is_marked) => visit_each_piece(&mut feed, reader, visitor, is_marked),
        Err(how) => Ended { count: 0, how },
    }
}

// Reads until it is known whether the stream begins with a byte order mark, passes over it, and answers whether there
// was one. Refused with how the stream ended, where it can't be read on or the visitor goes no further.
fn read_past_byte_order_mark<R: Input, V: Visitor>(
    feed: &mut StreamBuffer,
    reader: &mut R,
    visitor: &mut V,
) -> Result<bool, How<V::Stop>>
    requires ready { IsReady feed.old }
    requires empty { left feed.old ≡ [] }
    requires open { feed.old.is_whole ≡ false }
    ensures ready { OnOk result (IsReady feed.new) }
    ensures mark { IfOk result (λ is_marked. R.given reader.new ≡ R.given reader.old ++ (mark_if is_marked ++ left feed.new)) }
    ensures whole { OnOk result (feed.new.is_whole ≡ true → R.has_ended reader.new ≡ true) }
    ensures early { OnErr result ((stream : List ℕ) × (R.given reader.new ≡ R.given reader.old ++ stream)) }
    ensures how { IfErr result IsCutShort }
    ensures unread { IfErr result (λ how. how ≡ How.ReadFailed ReadFailure.Failed → R.has_failed reader.new ≡ true) }
    ensures read { (result ≡ Err (How.ReadFailed ReadFailure.Failed) → ⊥) → R.has_failed reader.new ≡ R.has_failed reader.old }
    ensures stopped { IfErr result (IfStopped (V.stops visitor.new)) }
    ensures written { V.written visitor.new ≡ V.written visitor.old }
{
    for _ in 0..u64::MAX {
        if let Some(is_marked) = feed.pass_byte_order_mark() {
            return Ok(is_marked);
        }
        notify_visitor_then_read(feed, reader, visitor)?;
    }
    Err(How::Endless)
}

// Tells the visitor that a read comes, and reads more of the stream. Refused with how the stream ended, where it can't
// be read on or the visitor goes no further.
fn notify_visitor_then_read<R: Input, V: Visitor>(
    feed: &mut StreamBuffer,
    reader: &mut R,
    visitor: &mut V,
) -> Result<(), How<V::Stop>>
    requires ready { IsReady feed.old }
    requires open { feed.old.is_whole ≡ false }
    ensures ready { IsReady feed.new }
    ensures ok { OnOk result ((more : List ℕ) × (R.given reader.new ≡ R.given reader.old ++ more) × (left feed.new ≡ left feed.old ++ more)) }
    ensures whole { OnOk result (feed.new.is_whole ≡ true → (left feed.new ≡ left feed.old) × (R.has_ended reader.new ≡ true)) }
    ensures err { OnErr result ((more : List ℕ) × (R.given reader.new ≡ R.given reader.old ++ more) × (left feed.new ≡ left feed.old) × (feed.new.is_whole ≡ false)) }
    ensures how { IfErr result IsCutShort }
    ensures unread { IfErr result (λ how. how ≡ How.ReadFailed ReadFailure.Failed → R.has_failed reader.new ≡ true) }
    ensures read { (result ≡ Err (How.ReadFailed ReadFailure.Failed) → ⊥) → R.has_failed reader.new ≡ R.has_failed reader.old }
    ensures stopped { IfErr result (IfStopped (V.stops visitor.new)) }
    ensures written { V.written visitor.new ≡ V.written visitor.old }
    ensures stay { StayGiven (V.gives visitor.old) (V.gives visitor.new) }
{
    match visitor.before_read() {
        Ok(()) => (),
        Err(stop) => return Err(How::Stopped(stop)),
    }
    match feed.read_more(reader) {
        Ok(()) => Ok(()),
        Err(failure) => Err(How::ReadFailed(failure)),
    }
}

// Hands the piece at hand to the visitor.
fn visit_current_piece<V: Visitor>(
    feed: &StreamBuffer,
    visitor: &mut V,
    kind: Kind,
    is_marked: bool,
) -> Result<Taken, V::Stop>
    requires { IsSound feed.now }
    ensures gives { IfOk result (λ taken. (text : List ℕ) × (V.written visitor.new ≡ V.written visitor.old ++ text)
        × V.gives visitor.new kind (piece_of feed.now) taken text) }
    ensures stops { IfErr result (V.stops visitor.new) }
    ensures nothing { OnErr result (V.written visitor.new ≡ V.written visitor.old) }
    ensures stay { StayGiven (V.gives visitor.old) (V.gives visitor.new) }
{
    let piece = Piece {
        bytes: feed.current_piece(),
        place: feed.line_and_column(),
        kind,
        is_marked,
    };
    visitor.visit_piece(&piece)
}

// Passes over the rest of the line on which the refused piece at hand begins, behind the blanks before it. Refused with
// how the stream ended, where it can't be read on or the visitor goes no further.
fn pass_refused_line<R: Input, V: Visitor>(
    feed: &mut StreamBuffer,
    reader: &mut R,
    visitor: &mut V,
) -> Result<(), How<V::Stop>>
    requires sound { IsSound feed.old }
    requires whole { feed.old.is_whole ≡ true → R.has_ended reader.old ≡ true }
    ensures ready { OnOk result (IsReady feed.new) }
    ensures whole { OnOk result (feed.new.is_whole ≡ true → R.has_ended reader.new ≡ true) }
    ensures ok { OnOk result ((more : List ℕ) × (R.given reader.new ≡ R.given reader.old ++ more)
        × ((later : List ℕ) → MayCome feed.new later → MayCome feed.old (more ++ later)
        × (behind_piece Kind.Refused (piece_of feed.old) (left feed.old ++ (more ++ later)) ≡ left feed.new ++ later))) }
    ensures err { OnErr result ((more : List ℕ) × (R.given reader.new ≡ R.given reader.old ++ more) × MayCome feed.old more) }
    ensures how { IfErr result IsCutShort }
    ensures unread { IfErr result (λ how. how ≡ How.ReadFailed ReadFailure.Failed → R.has_failed reader.new ≡ true) }
    ensures read { (result ≡ Err (How.ReadFailed ReadFailure.Failed) → ⊥) → R.has_failed reader.new ≡ R.has_failed reader.old }
    ensures stopped { IfErr result (IfStopped (V.stops visitor.new)) }
    ensures written { V.written visitor.new ≡ V.written visitor.old }
    ensures stay { StayGiven (V.gives visitor.old) (V.gives visitor.new) }
{
    feed.pass_blanks();
    for _ in 0..u64::MAX {
        if feed.pass_line() {
            return Ok(());
        }
        notify_visitor_then_read(feed, reader, visitor)?;
    }
    Err(How::Endless)
}

// Visits the documents of a stream, one after another, from where it stands, and answers how many matches they have and
// how it ended. `is_marked` is whether a byte order mark stood before the first.
fn visit_each_piece<R: Input, V: Visitor>(
    feed: &mut StreamBuffer,
    reader: &mut R,
    visitor: &mut V,
    is_marked: bool,
) -> Ended<V::Stop>
    requires ready { IsReady feed.old }
    requires whole { feed.old.is_whole ≡ true → R.has_ended reader.old ≡ true }
    ensures along { (read : List ℕ) × (rest : List ℕ)
        × (R.given reader.new ≡ R.given reader.old ++ read)
        × GoesAlong (V.gives visitor.new) (left feed.old ++ read) rest (V.written visitor.old) (V.written visitor.new) result.count (is_enough result.how)
        × (result.how ≡ How.Whole → (rest ≡ []) × (R.has_ended reader.new ≡ true)) }
    ensures unread { result.how ≡ How.ReadFailed ReadFailure.Failed → R.has_failed reader.new ≡ true }
    ensures read { (result.how ≡ How.ReadFailed ReadFailure.Failed → ⊥) → R.has_failed reader.new ≡ R.has_failed reader.old }
    ensures stopped { IfStopped (V.stops visitor.new) result.how }
{
    let mut count = 0usize;
    let mut is_marked = is_marked;
    for _ in 0..u64::MAX {
        let Some(kind) = feed.find_next_piece() else {
            if let Err(how) = notify_visitor_then_read(feed, reader, visitor) {
                return Ended { count, how };
            }
            continue;
        };
        let taken = match visit_current_piece(feed, visitor, kind, is_marked) {
            Ok(taken) => taken,
            Err(stop) => {
                return Ended {
                    count,
                    how: How::Stopped(stop),
                };
            }
        };
        count = count.saturating_add(taken.count);
        is_marked = false;
        if taken.is_enough {
            return Ended {
                count,
                how: How::Enough,
            };
        }
        match kind {
            Kind::Document => feed.pass_piece(),
            Kind::Refused => {
                if let Err(how) = pass_refused_line(feed, reader, visitor) {
                    return Ended { count, how };
                }
            }
            Kind::Blanks => {
                return Ended {
                    count,
                    how: How::Whole,
                };
            }
        }
    }
    Ended {
        count,
        how: How::Endless,
    }
}
