//! A stream of many documents, one document at a time.

pub(crate) mod document_fault;
pub(crate) mod documents;
