//! The lemma that words and an input have at most one output. It is the contract of a function that does nothing.
ghost use Rattle.std.specs.Prelude.{◌≡◌, ℕ, List};
ghost use Rattle.jsonpath_run.specs.Output.{IsOutput};

use jsonpath_nodes::laws::documents_keep_data_apart;
use jsonpath_paths::laws::one_tree_per_text;

/// Lemma: the program `jsonpath_run` has at most one output for given arguments and a given input.
///
/// ```text
/// one_output_per_input();
/// ```
pub fn one_output_per_input()
    ensures { (words : List (List ℕ)) (input : List ℕ) (a : List ℕ) (b : List ℕ)
        → IsOutput words input a → IsOutput words input b → a ≡ b }
{
    one_tree_per_text();
    documents_keep_data_apart();
}
