//! Simple paths and their filters evaluated on the exact tree itself, whatever the order of its members.

pub(crate) mod exact_conditions;
pub(crate) mod exact_evaluator;
pub(crate) mod exact_numbers;
