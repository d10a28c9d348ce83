//! What a comparison sees of the values of nodes and of literals.

ghost use Rattle.std.specs.Prelude.{◌≡◌, map, IfOk};
ghost use Rattle.jsonpath_nodes.specs.compare.Comparisons.{seen};
ghost use Rattle.jsonpath_nodes.specs.compare.Atoms.{seen_with};
ghost use Rattle.jsonpath_select.specs.Parts.{literals, quoted_text};

use crate::machine::stacks::push_top;
use jsonpath_nodes::{Atom, Carried};
use jsonpath_paths::ParseToken;
use std::alloc::Global;

// The atoms of the values of marks (references or spots), in their order: an atom is what a comparison sees of a value.
pub(crate) fn atoms_of_marks<'b, M: Carried>(
    alloc: Global,
    marks: &'b [M],
) -> Result<Vec<Atom<'b, M::Number>>, M::Stop>
    ensures { IfOk result (λ atoms. map (seen_with M.Number.fraction) atoms.items ≡ map (λ m. seen (M.content m)) marks.now) }
{
    let mut atoms = Vec::with_capacity(alloc, marks.len())?;
    for mark in marks {
        push_top(&mut atoms, mark.atom()?)?;
    }
    Ok(atoms)
}

// The one atom of a literal: its number, as one of the root's document, its truth value, or, where it is quoted,
// `literal`, which is what its span means in the path's text; none for any other token. `text`, the path's text, is
// there for the clause alone.
pub(crate) fn literal_atoms<'b, M: Carried>(
    alloc: Global,
    root: &M,
    token: &ParseToken,
    literal: &'b str,
    text: &str,
) -> Result<Vec<Atom<'b, M::Number>>, M::Stop>
    ensures { IfOk result (λ atoms. literal.now ≡ quoted_text text.now token.now → map (seen_with M.Number.fraction) atoms.items ≡ literals text.now token.now) }
{
    let mut atoms = Vec::with_capacity(alloc, 1)?;
    match token {
        ParseToken::Number(decimal) => {
            let number = root.number_of_literal(alloc, *decimal)?;
            push_top(&mut atoms, Atom::Number(number))?;
        }
        ParseToken::Bool(truth) => push_top(&mut atoms, Atom::Bool(*truth))?,
        ParseToken::Key(_) => push_top(&mut atoms, Atom::Text(literal))?,
        _ => {}
    }
    Ok(atoms)
}
