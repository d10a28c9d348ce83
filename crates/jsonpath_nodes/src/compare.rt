//! `Atom`, what a comparison uses of a value, and which pairs of values satisfy a comparison.

pub(crate) mod atom;
pub(crate) mod cmp;
pub(crate) mod fraction;
