//! Numbers as they are written, ordered exactly however many digits they have.

pub(crate) mod exact_number;
pub(crate) mod number_key;
pub(crate) mod whole_number;
pub(crate) mod written_number;
