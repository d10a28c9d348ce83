//! An operand of a comparison or a connective: a path's nodes, the candidates at which a condition holds, or a literal.

use crate::tagged::marks::Found;
use jsonpath_paths::ParseToken;

// What a term or a condition has left.
#[derive(Drop)]
pub enum Operand<'t, M> {
    // The marks of a path.
    Marks(Found<M>),
    // The candidates at which a condition holds, ascending.
    Tags(Vec<usize>),
    // A literal.
    Literal(&'t ParseToken),
}
