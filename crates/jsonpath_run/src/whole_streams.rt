//! A whole input read, and a whole text written.
ghost use Rattle.std.specs.Prelude.{◌≡◌, ◌≢◌, ℕ, List, ◌++◌, true, false, Err, IfOk, OnOk, OnErr};

use jsonpath_streams::{Input, IoFailed, Output};
use std::alloc::Global;

// Why the input is not read: a read failed, or a growth of memory was refused.
#[derive(Clone, Copy)]
pub enum ReadFault {
    Io,
    OutOfMemory,
}

// How many bytes are read at a time, at most.
const CHUNK: usize = 4096;

// All bytes that the reader has left, up to its end.
pub(crate) fn read_to_end<R: Input>(alloc: Global, reader: &mut R) -> Result<Vec<u8>, ReadFault>
    requires { R.has_failed reader.old ≡ false }
    ensures given { IfOk result (λ input. R.given reader.new ≡ R.given reader.old ++ input.items) }
    ensures whole { OnOk result (R.has_ended reader.new ≡ true) }
    ensures memory { result ≡ Err ReadFault.OutOfMemory
        → (input : List ℕ) × (R.given reader.new ≡ R.given reader.old ++ input) }
    ensures failed { result ≡ Err ReadFault.Io → R.has_failed reader.new ≡ true }
    ensures works { result ≢ Err ReadFault.Io → R.has_failed reader.new ≡ false }
{
    let mut input = Vec::new(alloc);
    let mut chunk = [0u8; CHUNK];
    'chunks: loop {
        let n = match reader.read(&mut chunk) {
            Ok(n) => n,
            Err(IoFailed) => return Err(ReadFault::Io),
        };
        if n == 0 {
            return Ok(input);
        }
        if input.extend_from_slice(&chunk[..n]).is_err() {
            return Err(ReadFault::OutOfMemory);
        }
    }
}

// Writes the whole piece, by as many writes as it takes. Where one fails, a front of the piece is written.
pub(crate) fn write_all<W: Output>(writer: &mut W, piece: &[u8]) -> Result<(), IoFailed>
    requires { W.has_failed writer.old ≡ false }
    ensures ok { OnOk result (W.written writer.new ≡ W.written writer.old ++ piece.now) }
    ensures works { OnOk result (W.has_failed writer.new ≡ false) }
    ensures failed { OnErr result (W.has_failed writer.new ≡ true) }
    ensures front { OnErr result ((front : List ℕ) × (rest : List ℕ)
        × (W.written writer.new ≡ W.written writer.old ++ front) × (piece.now ≡ front ++ rest)) }
{
    let mut rest = piece;
    while !rest.is_empty() {
        let n = writer.write(rest)?;
        rest = &rest[n..];
    }
    Ok(())
}
