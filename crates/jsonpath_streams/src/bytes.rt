//! A slice of bytes as an input.
ghost use Rattle.std.specs.Prelude.{◌≡◌, ◌≤◌, take, length, false, nat_le};

use crate::streams::{Input, IoFailed};

/// A slice of bytes as an input, which is read from its front. No read fails.
///
/// ```text
/// let mut bytes = Bytes::new(b"[1]");
/// let mut buffer = [0; 2];
/// assert!(rt; Input::read(&mut bytes, &mut buffer) == Ok(2));
/// assert!(rt; Input::read(&mut bytes, &mut buffer) == Ok(1));
/// ```
#[derive(Drop)]
pub struct Bytes<'a> {
    text: &'a [u8],
    at: usize,
    ghost within: { at ≤ length text.now },
}

impl<'a> Bytes<'a> {
    /// Makes a `Bytes`, an input that reads this slice of bytes from its front.
    ///
    /// ```text
    /// assert!(rt; !Input::failed(&Bytes::new(b"[1]")));
    /// ```
    pub fn new(text: &'a [u8]) -> Bytes<'a>
        ensures text { result.text.now ≡ text.now }
        ensures front { result.at ≡ 0 }
    {
        Bytes { text, at: 0 }
    }
}

impl Input for Bytes<'_> {
    ghost given = { λ bytes. take bytes.at bytes.text.now };

    ghost has_ended = { λ bytes. nat_le (length bytes.text.now) bytes.at };

    ghost has_failed = { λ _. false };

    // Reads as many bytes as there is room for.
    fn read(&mut self, buffer: &mut [u8]) -> Result<usize, IoFailed> {
        let rest = &self.text[self.at..];
        let count = rest.len().min(buffer.len());
        buffer[..count].copy_from_slice(&rest[..count]);
        self.at += count;
        Ok(count)
    }

    fn failed(&self) -> bool {
        false
    }
}
