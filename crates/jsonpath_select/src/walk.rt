//! The walk over a path's syntax tree.

pub(crate) mod follower;
pub(crate) mod leading_on;
pub(crate) mod own_step;
