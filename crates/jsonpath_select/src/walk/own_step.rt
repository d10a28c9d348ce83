//! Whether a path from a condition's own `@` has a step, which decides how its filter's candidates are found.

ghost use Rattle.std.specs.Prelude.{◌≡◌};
ghost use Rattle.jsonpath_paths.specs.tree.View.{path_of, condition_of, term_of};
ghost use Rattle.jsonpath_select.specs.Meaning.{has_own_step as has_step, has_own_step_path as path_has_step, has_own_step_term as term_has_step};

use jsonpath_paths::{Condition, ParserNode, Term};

// Whether a path of the condition begins at its own `@` and has a step, as `@.a`; filters inside don't count.
pub(crate) fn condition_has_own_step(condition: &Condition) -> bool
    ensures { result ≡ has_step (condition_of condition.now) }
{
    match condition {
        Condition::Lone(path) => path_has_own_step(path),
        Condition::Compare(left, _, right) => term_has_own_step(left) || term_has_own_step(right),
        Condition::Join(_, left, right) => condition_has_own_step(left)
            || condition_has_own_step(right),
    }
}

// Whether a path begins at the candidate and has a step.
fn path_has_own_step(path: &ParserNode) -> bool
    ensures { result ≡ path_has_step (path_of path.now) }
{
    !path.absolute && !path.steps.as_slice().is_empty()
}

// Whether a term is a path that begins at the candidate and has a step.
fn term_has_own_step(term: &Term) -> bool
    ensures { result ≡ term_has_step (term_of term.now) }
{
    match term {
        Term::Path(path) => path_has_own_step(path),
        Term::Literal(_) => false,
    }
}
