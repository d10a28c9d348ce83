//! Node references tagged with the numbers of their candidates, which the machine and the walk share: how a path
//! begins with them, how steps are applied and results kept, and at which candidates a condition holds.

pub(crate) mod conditions;
pub(crate) mod kept_marks;
pub(crate) mod marks;
pub(crate) mod moves;
pub(crate) mod operand;
pub(crate) mod shared_lists;
pub(crate) mod start_of_paths;
pub(crate) mod tag_lists;
