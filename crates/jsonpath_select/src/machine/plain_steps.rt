//! Plain steps, one after the other: what they select, and how the selected locations are related.

ghost use Rattle.std.specs.Prelude.{List, [], ◌∷◌, IfOk, IsTrue};
ghost use Rattle.std.specs.List.{list_all};
ghost use Rattle.jsonpath_nodes.specs.place.Location.{Location};
ghost use Rattle.jsonpath_nodes.specs.place.Mark.{MarksStandAt};
ghost use Rattle.jsonpath_nodes.specs.step.Steps.{flattened};
ghost use Rattle.jsonpath_select.specs.plan.Machine.{stepped};
ghost use Rattle.jsonpath_select.specs.plan.Standing.{along, AreStanding, IsStanding};
ghost use Rattle.jsonpath_select.specs.plan.Unfiltered.{is_plain_step};

use crate::machine::instruction::Instruction;
use crate::machine::machine::Machine;
use crate::machine::standing::{Standing, StandingMarks};
use crate::step::plain::marks_after_plain_step;
use jsonpath_nodes::laws::apart_locations_meet_candidates_once;
use jsonpath_nodes::steps_on_marks::flattened_from_each;
use jsonpath_nodes::{Carried, NoMemory};
use jsonpath_paths::ParseToken;

impl<'r, 't, M: Carried> Machine<'r, 't, M> {
    // Where plain steps in turn lead from these marks; if `asks_standing`, also how places stand to each other.
    pub(crate) fn follow_steps(
        &self,
        steps: &[Instruction<'_>],
        asks_standing: bool,
        from: StandingMarks<M>,
    ) -> Result<StandingMarks<M>, NoMemory>
        requires { IsTrue (list_all is_plain_step steps.now) }
        ensures { IfOk result (λ led. (ls : List Location) → AreStanding M.located M.stand M.content (M.content self.now.root.now) ls from → AreStanding M.located M.stand M.content (M.content self.now.root.now) (along self.now.text.now (M.content self.now.root.now) steps.now ls) led) }
    {
        let mut led = from;
        for step in steps {
            let Instruction::Step { leaves, token } = step else {
                unreachable!()
            };
            led = self.follow_step(*leaves, token, asks_standing, led)?;
        }
        Ok(led)
    }

    // The list with which a path from the root begins: the root alone.
    pub(crate) fn root_marks(&self) -> Result<StandingMarks<M>, NoMemory>
        ensures { IfOk result (AreStanding M.located M.stand M.content (M.content self.now.root.now) ([] ∷ [])) }
    {
        let mut marks = Vec::with_capacity(self.alloc, 1)?;
        marks.push(self.root.as_root(self.alloc))?;
        Ok(StandingMarks {
            standing: Standing::Disjoint,
            marks,
        })
    }

    // Where one plain step leads from these marks, and from all below them where `leaves` is set; and, where
    // `asks_standing` is set, how the places stand there to each other.
    pub(crate) fn follow_step(
        &self,
        leaves: bool,
        token: &ParseToken,
        asks_standing: bool,
        from: StandingMarks<M>,
    ) -> Result<StandingMarks<M>, NoMemory>
        ensures { IfOk result (λ led. (ls : List Location) → AreStanding M.located M.stand M.content (M.content self.now.root.now) ls from → AreStanding M.located M.stand M.content (M.content self.now.root.now) (stepped self.now.text.now (M.content self.now.root.now) leaves token.now ls) led) }
    {
        let before = from.marks.as_slice();
        let marks = marks_after_plain_step(self.alloc, self.text, leaves, token, before)?;
        if !asks_standing {
            return Ok(StandingMarks {
                standing: Standing::Unknown,
                marks,
            });
        }
        let count = marks.as_slice().len();
        let standing = self.standing_after_step_from_marks(
            from.standing,
            leaves,
            token,
            before,
            count,
        )?;
        Ok(StandingMarks { standing, marks })
    }

    // The candidates of a filter whose own `@` has a step, each place once, from marks that stand to each other as
    // `standing` says. From marks that stand apart none is reached twice, and repeats are not looked for; else
    // references end with `NeedsLocations` where there are two marks or more.
    pub(crate) fn candidates_once_at(
        &self,
        standing: Standing,
        marks: &[M],
    ) -> Result<Vec<M>, M::Stop>
        ensures { IfOk result (λ found. (ls : List Location) → IsStanding standing ls → MarksStandAt M.located M.stand M.content (M.content self.now.root.now) ls marks.now → MarksStandAt M.located M.stand M.content (M.content self.now.root.now) (flattened (M.content self.now.root.now) ls) found.items) }
    {
        if standing.are_apart() {
            apart_locations_meet_candidates_once();
            Ok(flattened_from_each(self.alloc, marks)?)
        } else {
            M::flattened_once(self.alloc, marks)
        }
    }
}
