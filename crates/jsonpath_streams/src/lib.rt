//! Readers and writers that say which bytes went through them.
#![tactic(auto)]

mod bytes;
mod called;
mod checked;
mod streams;

pub use bytes::Bytes;
pub use checked::Checked;
pub use streams::{Input, IoFailed, Output};
