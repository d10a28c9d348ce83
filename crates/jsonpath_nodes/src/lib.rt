//! Documents: locations in a JSON value, steps on lists of them, comparison and updates.
#![tactic(auto)]

mod compare;
pub mod laws;
mod memory;
mod place;
mod step;
pub mod steps_on_marks;
mod tree;
mod update;

pub use compare::atom::{Atom, to_num};
pub use compare::cmp::{
    Cmp, CmpEq, CmpGe, CmpGt, CmpLe, CmpLt, CmpNe, holds, holds_atoms, holds_by_fractions,
};
pub use compare::fraction::Fraction;
pub use memory::{Halt, NoMemory};
pub use place::carried::Carried;
pub use place::document_order::in_document_order;
pub use place::location::{LocStep, Location};
pub use place::mark::Mark;
pub use place::spot::{PathStep, Spot, Steps, TreeNode};
pub use place::steps_from_root::StepsFromRoot;
pub use step::child_lookup::abs_index;
pub use step::plain_step::PlainStep;
pub use step::stride::{Selection, Stride};
pub use step::value_walker::ValueWalker;
pub use tree::Tree;
pub use tree::name::{Handle, Name};
pub use update::at_once::set::set_at_once;
pub use update::at_once::take::take_at_once;
pub use update::each::{delete_at, replace_at};
pub use update::fallible::try_replace_at;
pub use update::locations::compute_paths;
pub use update::single::update_at;
