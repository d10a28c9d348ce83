//! Files and standard output of `jpath`: how their errors and documents with errors are reported, the output buffer,
//! and files that are edited in place.
#![tactic(auto)]

mod disk;
mod edit_fault;
mod fault_telling_streams;
mod file_facts;
mod file_to_edit;
mod held_output;
mod host_disk;
mod in_place;
mod model;
mod refused_document;

pub use disk::{Call, Disk, Place};
pub use edit_fault::EditFault;
pub use fault_telling_streams::{FaultTellingReader, FaultTellingWriter};
pub use file_facts::FileFacts;
pub use file_to_edit::{FileToEdit, Way, open_to_edit};
pub use held_output::HeldOutput;
pub use host_disk::HostDisk;
pub use in_place::put_in_place;
pub use refused_document::RefusedDocument;
