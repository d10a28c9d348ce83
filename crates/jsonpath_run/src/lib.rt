//! The program as a function: from its arguments and the bytes that it reads to the bytes that it writes.
#![tactic(auto)]

pub mod faults;
mod laws;
pub mod program;
mod whole_streams;
pub mod words;

pub use faults::Fault;
pub use laws::one_output_per_input;
pub use program::run;
pub use words::{Call, Command, parse_call};

// Of the crate below.
pub use jsonpath_streams::{Checked, Input, IoFailed, Output};
