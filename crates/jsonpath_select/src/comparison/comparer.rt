//! Comparisons, decided for all candidates at once.

ghost use Rattle.std.specs.Prelude.{◌≡◌, ◌≤◌, ◌+◌, ◌==◌, length, drop, true, false, if◌then◌else◌, IfOk};
ghost use Rattle.std.specs.Cow.{cow_str_bytes};
ghost use Rattle.std.specs.List.{prefix_len};
ghost use Rattle.jsonpath_nodes.specs.document.Document.{Document};
ghost use Rattle.jsonpath_select.specs.plan.Machine as machine;
ghost use Rattle.jsonpath_select.specs.plan.Machine.{compared};
ghost use Rattle.jsonpath_select.specs.plan.Stack.{IsOfTerm, ShowsOperand, quoted_text_of_operand};
ghost use Rattle.jsonpath_select.specs.plan.Sides.{ShowsSide};
ghost use Rattle.jsonpath_select.specs.plan.Deciders.{with_sides_swapped};

use crate::comparison::atoms::{atoms_of_marks, literal_atoms};
use crate::comparison::decider::Decider;
use crate::comparison::pairs::has_pair;
use crate::comparison::side::Side;
use crate::step::names::name_at;
use crate::tagged::conditions::all_tags_or_none;
use crate::tagged::operand::Operand;
use crate::tagged::tag_lists::{candidate_end_in_tags, push_tag_if};
use jsonpath_nodes::{Carried, Fraction, NoMemory};
use jsonpath_paths::{FilterToken, ParseToken};
use std::alloc::Global;
use std::borrow::CowStr;

// A comparison of two terms of a path's text, at so many candidates.
#[derive(Clone, Copy)]
pub struct Comparer<'t> {
    pub(crate) alloc: Global,
    pub(crate) op: FilterToken,
    pub(crate) text: &'t str,
    pub(crate) count: usize,
}

impl<'t> Comparer<'t> {
    // The numbers of the candidates, ascending, at which some left and some right value satisfy the comparison. `root` is
    // the root of the document that they are of.
    pub(crate) fn tags_where_comparison_holds<M: Carried>(
        &self,
        root: &M,
        left: Operand<'_, M>,
        right: Operand<'_, M>,
    ) -> Result<Vec<usize>, M::Stop>
        requires left { IsOfTerm left }
        requires right { IsOfTerm right }
        ensures { IfOk result (λ ts. (doc : Document) (a b : machine.Operand) → ShowsOperand M.located M.stand M.content self.now.text.now doc a left.entry → ShowsOperand M.located M.stand M.content self.now.text.now doc b right.entry
            → ts.items ≡ compared doc self.now.op 0 self.now.count a b) }
    {
        let left_text = quoted_text_of_operand(self.alloc, &left, self.text)?;
        let right_text = quoted_text_of_operand(self.alloc, &right, self.text)?;
        let texts = (left_text.as_str(), right_text.as_str());
        let tags = self.compare_operands(root, &left, &right, texts)?;
        Ok(tags)
    }

    // The numbers of the candidates at which two operands satisfy the comparison. `texts` has what quoted literals mean.
    fn compare_operands<M: Carried>(
        &self,
        root: &M,
        left: &Operand<'_, M>,
        right: &Operand<'_, M>,
        texts: (&str, &str),
    ) -> Result<Vec<usize>, M::Stop>
        requires left { IsOfTerm left.now }
        requires right { IsOfTerm right.now }
        ensures { IfOk result (λ ts. texts.entry.0.now ≡ quoted_text_of_operand self.now.text.now left.now → texts.entry.1.now ≡ quoted_text_of_operand self.now.text.now right.now
            → (doc : Document) (a b : machine.Operand) → ShowsOperand M.located M.stand M.content self.now.text.now doc a left.now → ShowsOperand M.located M.stand M.content self.now.text.now doc b right.now → ts.items ≡ compared doc self.now.op 0 self.now.count a b) }
    {
        let left_side = side_of_operand(self.alloc, root, left, texts.0, self.text)?;
        let right_side = side_of_operand(self.alloc, root, right, texts.1, self.text)?;
        let tags = self.compare_sides(&left_side, &right_side)?;
        Ok(tags)
    }

    // The numbers of the candidates at which some left and some right atom satisfy the comparison.
    fn compare_sides<N: Fraction>(
        &self,
        left: &Side<'_, N>,
        right: &Side<'_, N>,
    ) -> Result<Vec<usize>, NoMemory>
        ensures { IfOk result (λ ts. (doc : Document) (a b : machine.Operand) → ShowsSide N.fraction doc a left.now → ShowsSide N.fraction doc b right.now → ts.items ≡ compared doc self.now.op 0 self.now.count a b) }
    {
        match (left.is_constant, right.is_constant) {
            (true, true) => self.compare_constants(left, right),
            (false, true) => self.compare_to_constant(left, right),
            (true, false) => {
                let turned = Comparer {
                    op: with_sides_swapped(self.op),
                    ..*self
                };
                let tags = turned.compare_to_constant(right, left)?;
                Ok(tags)
            }
            (false, false) => self.compare_each_candidate(left, right),
        }
    }

    // The numbers of all candidates, if the two sides, which all share, satisfy the comparison; else none.
    fn compare_constants<N: Fraction>(
        &self,
        left: &Side<'_, N>,
        right: &Side<'_, N>,
    ) -> Result<Vec<usize>, NoMemory>
        requires left { left.now.is_constant ≡ true }
        requires right { right.now.is_constant ≡ true }
        ensures { IfOk result (λ ts. (doc : Document) (a b : machine.Operand) → ShowsSide N.fraction doc a left.now → ShowsSide N.fraction doc b right.now → ts.items ≡ compared doc self.now.op 0 self.now.count a b) }
    {
        let holds = has_pair(
            self.alloc,
            self.op,
            left.atoms.as_slice(),
            right.atoms.as_slice(),
        )?;
        let tags = all_tags_or_none(self.alloc, holds, self.count)?;
        Ok(tags)
    }

    // The numbers of the candidates whose left side satisfies the comparison with one right side, made ready once.
    fn compare_to_constant<N: Fraction>(
        &self,
        left: &Side<'_, N>,
        right: &Side<'_, N>,
    ) -> Result<Vec<usize>, NoMemory>
        requires left { left.now.is_constant ≡ false }
        requires right { right.now.is_constant ≡ true }
        ensures { IfOk result (λ ts. (doc : Document) (a b : machine.Operand) → ShowsSide N.fraction doc a left.now → ShowsSide N.fraction doc b right.now → ts.items ≡ compared doc self.now.op 0 self.now.count a b) }
    {
        let decider = Decider::for_right_values(self.alloc, self.op, right.atoms.as_slice())?;
        let atoms = left.atoms.as_slice();
        let mut tags = Vec::with_capacity(self.alloc, self.count)?;
        let mut from = 0;
        for tag in 0..self.count {
            let end = candidate_end_in_tags(left.tags, from, tag);
            let holds = decider.has_pair(self.op, &atoms[from..end]);
            push_tag_if(&mut tags, holds, tag)?;
            from = end;
        }
        Ok(tags)
    }

    // The numbers of the candidates at which both sides satisfy the comparison, each candidate decided by itself.
    fn compare_each_candidate<N: Fraction>(
        &self,
        left: &Side<'_, N>,
        right: &Side<'_, N>,
    ) -> Result<Vec<usize>, NoMemory>
        ensures { IfOk result (λ ts. (doc : Document) (a b : machine.Operand) → ShowsSide N.fraction doc a left.now → ShowsSide N.fraction doc b right.now → ts.items ≡ compared doc self.now.op 0 self.now.count a b) }
    {
        let left_atoms = left.atoms.as_slice();
        let right_atoms = right.atoms.as_slice();
        let mut tags = Vec::with_capacity(self.alloc, self.count)?;
        let mut left_from = 0;
        let mut right_from = 0;
        for tag in 0..self.count {
            let left_end = candidate_end_in_side(left, left_from, tag);
            let right_end = candidate_end_in_side(right, right_from, tag);
            let holds = has_pair(
                self.alloc,
                self.op,
                &left_atoms[left_from..left_end],
                &right_atoms[right_from..right_end],
            )?;
            push_tag_if(&mut tags, holds, tag)?;
            left_from = next_candidate_start_in_side(left, left_end);
            right_from = next_candidate_start_in_side(right, right_end);
        }
        Ok(tags)
    }
}

// The comparison that holds of two values exactly where this one holds of them swapped: `>` for `<`, `==` for itself.
fn with_sides_swapped(op: FilterToken) -> FilterToken
    ensures { result ≡ with_sides_swapped op }
{
    match op {
        FilterToken::Little => FilterToken::Greater,
        FilterToken::LittleOrEqual => FilterToken::GreaterOrEqual,
        FilterToken::Greater => FilterToken::Little,
        FilterToken::GreaterOrEqual => FilterToken::LittleOrEqual,
        _ => op,
    }
}

// What a quoted literal means, where the operand is one; else the empty text.
fn quoted_text_of_operand<'t, M>(
    alloc: Global,
    operand: &Operand<'_, M>,
    text: &'t str,
) -> Result<CowStr<'t, Global>, NoMemory>
    ensures { IfOk result (λ found. cow_str_bytes found ≡ quoted_text_of_operand text.now operand.now) }
{
    match operand {
        Operand::Literal(ParseToken::Key(span)) => name_at(alloc, text, *span),
        _ => Ok(CowStr::Borrowed("")),
    }
}

// An operand as a side of the comparison: the atoms of a path's marks with their tags, or of a literal one atom for
// all. What a quoted one means is handed in as `literal`; `text`, the path's text, is there for the clause alone.
fn side_of_operand<'b, M: Carried>(
    alloc: Global,
    root: &M,
    operand: &'b Operand<'_, M>,
    literal: &'b str,
    text: &str,
) -> Result<Side<'b, M::Number>, M::Stop>
    requires { IsOfTerm operand.now }
    ensures { IfOk result (λ side. literal.now ≡ quoted_text_of_operand text.now operand.now → (doc : Document) (o : machine.Operand) → ShowsOperand M.located M.stand M.content text.now doc o operand.now → ShowsSide M.Number.fraction doc o side) }
{
    match operand {
        Operand::Marks(found) => {
            let atoms = atoms_of_marks(alloc, found.pairs.marks.as_slice())?;
            Ok(Side {
                is_constant: found.is_shared,
                tags: found.pairs.tags.as_slice(),
                atoms,
            })
        }
        Operand::Literal(token) => {
            let atoms = literal_atoms(alloc, root, token, literal, text)?;
            Ok(Side {
                is_constant: true,
                tags: &[],
                atoms,
            })
        }
        Operand::Tags(_) => unreachable!(),
    }
}

// The index at which a side's atoms for this candidate end, where they begin at `from`.
#[inline]
fn candidate_end_in_side<N>(side: &Side<'_, N>, from: usize, tag: usize) -> usize
    requires { from ≤ length side.now.atoms.items }
    ensures after { from ≤ result }
    ensures within { result ≤ length side.now.atoms.items }
    ensures run { result ≡ (if side.now.is_constant then length side.now.atoms.items else from + prefix_len (λ u. u == tag) (drop from side.now.tags.now)) }
{
    if side.is_constant {
        side.atoms.as_slice().len()
    } else {
        candidate_end_in_tags(side.tags, from, tag)
    }
}

// The index at which a side's atoms for the next candidate begin; 0 where all candidates share them.
#[inline]
fn next_candidate_start_in_side<N>(side: &Side<'_, N>, end: usize) -> usize
    ensures goes { result ≡ (if side.now.is_constant then 0 else end) }
    ensures less { result ≤ end }
    ensures constant { side.now.is_constant ≡ true → result ≡ 0 }
{
    if side.is_constant { 0 } else { end }
}
