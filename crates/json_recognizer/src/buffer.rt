//! The buffer of a stream: the current document and the bytes read beyond it.

pub(crate) mod lines;
pub(crate) mod piece;
pub(crate) mod reading;
pub(crate) mod stream_buffer;
