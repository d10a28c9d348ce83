//! What callers state and prove about `jsonpath_lib`, from its public contracts alone. Where a function
//! has no folder in `proofs/`, nothing was written: its clauses follow from those of the calls.
#![tactic(auto)]

pub mod answers;
pub mod changes;
pub mod held;
pub mod routes;
pub mod verbs;
