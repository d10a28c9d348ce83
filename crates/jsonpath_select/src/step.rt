//! What the machine and the walks share of steps: the node references between steps, and plain steps.

pub(crate) mod distinct_selections;
pub(crate) mod index;
pub(crate) mod names;
pub(crate) mod plain;
