//! The filters of a path, one after the other: what the path selects (`select_list`), or its first (`first_place`).

pub(crate) mod first_place;
pub(crate) mod leading_on;
pub(crate) mod next_filter;
pub(crate) mod select_list;
