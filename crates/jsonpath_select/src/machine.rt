//! The machine that runs token lists, and how the locations of its plain steps are related; `filters` runs whole paths.

pub(crate) mod by_sets;
pub(crate) mod execute_instruction;
pub(crate) mod instruction;
pub(crate) mod machine;
pub(crate) mod manner;
pub(crate) mod plain_steps;
pub(crate) mod stacks;
pub(crate) mod standing;
