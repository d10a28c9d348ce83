//! All the tokens of a text, taken as one path.

ghost use Rattle.std.specs.Prelude.{◌≡◌, Some, IfOk, IfErr};
ghost use Rattle.jsonpath_paths.specs.tree.View.{path_of};
ghost use Rattle.jsonpath_paths.specs.tree.Tree.{Path};
ghost use Rattle.jsonpath_paths.specs.plan.ParsedParts.{path_at};
ghost use Rattle.jsonpath_paths.specs.Grammar.{SpellsPath};
ghost use Rattle.jsonpath_paths.specs.plan.Wants.{stop, whole_wants};
ghost use Rattle.jsonpath_paths.specs.plan.PathAnswer.{IsPathAnswer};
ghost use Rattle.jsonpath_paths.specs.declared.parser.tree_parser.Refusal.TheVariants.{Refused};

use crate::parser::tree_parser::{Refusal, TreeParser};
use crate::token::tokens::Kind;
use crate::tree::parser_node::{ParserNode, node_of_steps};

// How many conditions of a path may be opened, one in the other: the `levels` of `steps.rt` and `conditions.rt`.
const LEVELS: usize = 1000;

impl TreeParser<'_> {
    // What `parse_whole_path` does: takes all the tokens as one path from `$`, and answers its tree. Refused where they
    // are none. The clause says so in the words of the parser's plan.
    #[tactic(auto, unfolding(crate::specs::plan::ParsedParts::path_at))]
    fn parse_whole_path_by_plan(&mut self) -> Result<ParserNode, Refusal>
        ensures answer { IsPathAnswer path_of (path_at self.old.text self.old.lexemes) result }
        ensures stops { IfErr result (λ e. e ≡ Refused → stop self.old.text whole_wants self.old.lexemes ≡ Some self.new.lexemes) }
        ensures text { self.new.text ≡ self.old.text }
    {
        if self.take_token(Kind::Absolute).is_none() {
            return Err(Refusal::Refused);
        }
        let found = match self.parse_steps(LEVELS) {
            Ok(found) => found,
            Err(fault) => return Err(fault),
        };
        self.skip_blanks();
        if !self.is_at_end() {
            return Err(Refusal::Refused);
        }
        Ok(node_of_steps(true, found))
    }

    // Takes all the tokens as one path from `$`, and answers its tree. Refused where they are none.
    pub(crate) fn parse_whole_path(&mut self) -> Result<ParserNode, Refusal>
        ensures found { IfOk result (λ p. SpellsPath self.old.text (path_of p) self.old.lexemes) }
        ensures only { IfErr result (λ e. e ≡ Refused → (p : Path) → SpellsPath self.old.text p self.old.lexemes → ⊥) }
        ensures stops { IfErr result (λ e. e ≡ Refused → stop self.old.text whole_wants self.old.lexemes ≡ Some self.new.lexemes) }
        ensures text { self.new.text ≡ self.old.text }
    {
        self.parse_whole_path_by_plan()
    }
}
