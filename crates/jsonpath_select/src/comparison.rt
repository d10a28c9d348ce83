//! Comparisons: the candidates at which one holds, found without comparing every left with every right value.

pub(crate) mod atoms;
pub(crate) mod comparer;
pub(crate) mod decider;
pub(crate) mod extremes;
pub(crate) mod pairs;
pub(crate) mod side;
pub(crate) mod unequal_atoms;
pub(crate) mod value_set;
