//! Locations, and nodes: values of a document with their locations.

pub(crate) mod carried;
pub(crate) mod document_order;
pub(crate) mod location;
pub(crate) mod mark;
pub(crate) mod reversed_steps;
pub(crate) mod spot;
pub(crate) mod spot_nodes;
pub(crate) mod steps_from_root;
pub(crate) mod trail;
