//! What a descent adds at a value and in all its descendants: what a step selects there, or what is flat in objects.

ghost use Rattle.std.specs.Prelude.{◌≡◌, [], ◌∷◌, ◌++◌, false, IfOk, OnOk};
ghost use Rattle.jsonpath_nodes.specs.document.Document.{array, object};
ghost use Rattle.jsonpath_nodes.specs.place.Mark.{MarksGain};
ghost use Rattle.jsonpath_nodes.specs.place.Order.{IsOrderedDocument};
ghost use Rattle.jsonpath_nodes.specs.plan.Containers.{some_container};
ghost use Rattle.jsonpath_nodes.specs.plan.Gathered.{Gathered, selected, flattened, gathered_at, all_gathered};
ghost use Rattle.jsonpath_nodes.specs.plan.Way.{down_step, way_stand, Stays};
ghost use Rattle.jsonpath_nodes.specs.step.PlainSteps.{plain_step_of};
ghost use Rattle.jsonpath_nodes.specs.step.Steps.{deep, named, single_steps};

use crate::memory::NoMemory;
use crate::step::candidates::add_flattened_members;
use crate::step::child_lookup::is_container;
use crate::step::children::{add_selected_items, add_selected_members};
use crate::step::descends::{Descends, DownStep};
use crate::step::plain_step::PlainStep;
use crate::tree::Tree;
use crate::tree::name::Handle;
use std::alloc::Global;

// What a descent adds at each array and object. A type for each kind has the descent compiled for that kind alone.
pub trait Gathers {
    ghost what: { Self → Gathered };

    // Adds what is gathered at the array where the descent is, itself alone.
    fn add_in_array<M: Descends>(
        &self,
        items: <M::Tree as Tree>::Array,
        way: &mut M::Way,
        out: &mut Vec<M>,
    ) -> Result<(), NoMemory>
        ensures gains { OnOk result (MarksGain M.located M.stand M.content (gathered_at (what self.now)) (way_stand M.located (M.start way.old) (M.steps way.old)) (array (M.Tree.items items)) out.old.items out.new.items) }
        ensures stays { OnOk result (Stays M.located (M.start way.old) (M.steps way.old) (M.start way.new) (M.steps way.new)) };

    // Adds what is gathered at the object where the descent is, itself alone. It answers whether some member may be an
    // array or an object: it says no only where none is.
    fn add_in_object<M: Descends>(
        &self,
        members: <M::Tree as Tree>::Object,
        way: &mut M::Way,
        out: &mut Vec<M>,
    ) -> Result<bool, NoMemory>
        ensures gains { OnOk result (MarksGain M.located M.stand M.content (gathered_at (what self.now)) (way_stand M.located (M.start way.old) (M.steps way.old)) (object (M.Tree.members members)) out.old.items out.new.items) }
        ensures below { IfOk result (λ b. b ≡ false → some_container (M.Tree.members members) ≡ false) }
        ensures stays { OnOk result (Stays M.located (M.start way.old) (M.steps way.old) (M.start way.new) (M.steps way.new)) };
}

// What a step selects. The way to an array or object is shared only where the step may select a child there.
#[derive(Clone, Copy)]
pub struct Selected<'p> {
    step: PlainStep<'p>,
}

impl<'p> Gathers for Selected<'p> {
    ghost what = { λ it. selected (plain_step_of it.step) };

    #[inline(always)]
    fn add_in_array<M: Descends>(
        &self,
        items: <M::Tree as Tree>::Array,
        way: &mut M::Way,
        out: &mut Vec<M>,
    ) -> Result<(), NoMemory> {
        match &self.step {
            PlainStep::Named(_) => Ok(()),
            PlainStep::Listed(_) => Ok(()),
            step => {
                let here = M::items_here(way)?;
                add_selected_items(items, &here, step, out)
            }
        }
    }

    #[inline(always)]
    fn add_in_object<M: Descends>(
        &self,
        members: <M::Tree as Tree>::Object,
        way: &mut M::Way,
        out: &mut Vec<M>,
    ) -> Result<bool, NoMemory> {
        match &self.step {
            PlainStep::Named(name) => {
                add_named_member_at_way::<M>(members, way, name, out)?;
                Ok(true)
            }
            PlainStep::Nth(_) => Ok(true),
            PlainStep::Union(_) => Ok(true),
            PlainStep::Range(_, _, _) => Ok(true),
            _ => {
                let here = M::members_here(way)?;
                add_selected_members(members, &here, &self.step, out)
            }
        }
    }
}

// In objects alone, what is no array and is reached through arrays alone from a member.
#[derive(Clone, Copy)]
pub struct Flattened;

impl Gathers for Flattened {
    ghost what = { λ _. flattened };

    #[inline(always)]
    fn add_in_array<M: Descends>(
        &self,
        _items: <M::Tree as Tree>::Array,
        _way: &mut M::Way,
        _out: &mut Vec<M>,
    ) -> Result<(), NoMemory> {
        Ok(())
    }

    #[inline(always)]
    fn add_in_object<M: Descends>(
        &self,
        members: <M::Tree as Tree>::Object,
        way: &mut M::Way,
        out: &mut Vec<M>,
    ) -> Result<bool, NoMemory> {
        add_flattened_members::<M>(members, way, out)
    }
}

// Adds what a step selects in the value of a node and in all below it, each value before its children.
#[inline]
pub(crate) fn add_selected_at_or_below<M: Descends>(
    alloc: Global,
    node: &M,
    plain: &PlainStep<'_>,
    out: &mut Vec<M>,
) -> Result<(), NoMemory>
    ensures { OnOk result (MarksGain M.located M.stand M.content (deep (plain_step_of plain.now)) (M.stand node.now) (M.content node.now) out.old.items out.new.items) }
{
    let mut way = node.way_from(alloc)?;
    let what = Selected { step: *plain };
    add_at_or_below::<M, Selected<'_>>(node.tree(), &mut way, &what, out)
}

// Adds what is gathered at the value where the descent is and at all below it, each value before its children. It also
// tells that the names ascend in each object there.
#[cycle(deep)]
#[inline(always)]
pub(crate) fn add_at_or_below<M: Descends, G: Gathers>(
    value: M::Tree,
    way: &mut M::Way,
    what: &G,
    out: &mut Vec<M>,
) -> Result<(), NoMemory>
    ensures gains { OnOk result (MarksGain M.located M.stand M.content (all_gathered (gathered_at (G.what what.now))) (way_stand M.located (M.start way.old) (M.steps way.old)) (M.Tree.content value) out.old.items out.new.items) }
    ensures stays { OnOk result (Stays M.located (M.start way.old) (M.steps way.old) (M.start way.new) (M.steps way.new)) }
    ensures document { OnOk result (IsOrderedDocument (M.Tree.content value)) }
{
    if let Some(members) = value.as_object() {
        add_at_or_below_object::<M, G>(members, way, what, out)
    } else if let Some(items) = value.as_array() {
        add_at_or_below_array::<M, G>(items, way, what, out)
    } else {
        Ok(())
    }
}

// Adds what is gathered at a child of the container where the descent is, and at all below that child.
#[cycle(deep)]
#[inline(always)]
fn add_at_or_below_child<M: Descends, G: Gathers>(
    value: M::Tree,
    step: DownStep<<M::Tree as Handle>::Name>,
    way: &mut M::Way,
    what: &G,
    out: &mut Vec<M>,
) -> Result<(), NoMemory>
    ensures gains { OnOk result (MarksGain M.located M.stand M.content (all_gathered (gathered_at (G.what what.now))) (way_stand M.located (M.start way.old) (M.steps way.old ++ down_step M.Tree.Name.bytes step ∷ [])) (M.Tree.content value) out.old.items out.new.items) }
    ensures stays { OnOk result (Stays M.located (M.start way.old) (M.steps way.old) (M.start way.new) (M.steps way.new)) }
    ensures document { OnOk result (IsOrderedDocument (M.Tree.content value)) }
{
    if is_container(value) {
        M::go_down(way, step)?;
        add_at_or_below::<M, G>(value, way, what, out)?;
        M::go_back(way);
    }
    Ok(())
}

// Adds what is gathered at the array where the descent is, and at all below it.
#[cycle(deep)]
fn add_at_or_below_array<M: Descends, G: Gathers>(
    items: <M::Tree as Tree>::Array,
    way: &mut M::Way,
    what: &G,
    out: &mut Vec<M>,
) -> Result<(), NoMemory>
    ensures gains { OnOk result (MarksGain M.located M.stand M.content (all_gathered (gathered_at (G.what what.now))) (way_stand M.located (M.start way.old) (M.steps way.old)) (array (M.Tree.items items)) out.old.items out.new.items) }
    ensures stays { OnOk result (Stays M.located (M.start way.old) (M.steps way.old) (M.start way.new) (M.steps way.new)) }
    ensures document { OnOk result (IsOrderedDocument (array (M.Tree.items items))) }
{
    what.add_in_array::<M>(items, way, out)?;
    // Also says that the indexes fit.
    let _len = <M::Tree as Tree>::len(items);
    let mut left = <M::Tree as Tree>::each_item(items);
    let mut i = 0;
    while let Some(item) = <M::Tree as Tree>::next_item(&mut left) {
        add_at_or_below_child::<M, G>(item, DownStep::Item(i), way, what, out)?;
        i += 1;
    }
    Ok(())
}

// Adds what is gathered at the object where the descent is, and at all below it.
#[cycle(deep)]
fn add_at_or_below_object<M: Descends, G: Gathers>(
    members: <M::Tree as Tree>::Object,
    way: &mut M::Way,
    what: &G,
    out: &mut Vec<M>,
) -> Result<(), NoMemory>
    ensures gains { OnOk result (MarksGain M.located M.stand M.content (all_gathered (gathered_at (G.what what.now))) (way_stand M.located (M.start way.old) (M.steps way.old)) (object (M.Tree.members members)) out.old.items out.new.items) }
    ensures stays { OnOk result (Stays M.located (M.start way.old) (M.steps way.old) (M.start way.new) (M.steps way.new)) }
    ensures document { OnOk result (IsOrderedDocument (object (M.Tree.members members))) }
{
    let holds = what.add_in_object::<M>(members, way, out)?;
    // Made in both cases, since it tells that the names ascend.
    let mut left = <M::Tree as Tree>::each_member(members);
    if holds {
        while let Some((name, member)) = <M::Tree as Tree>::next_member(&mut left) {
            add_at_or_below_child::<M, G>(member, DownStep::Member(name), way, what, out)?;
        }
    }
    Ok(())
}

// Adds the member of this name of the object where the descent is. The way there is shared only where it has one.
#[inline(always)]
fn add_named_member_at_way<M: Descends>(
    members: <M::Tree as Tree>::Object,
    way: &mut M::Way,
    name: &str,
    out: &mut Vec<M>,
) -> Result<(), NoMemory>
    ensures gains { OnOk result (MarksGain M.located M.stand M.content (single_steps (named name.now)) (way_stand M.located (M.start way.old) (M.steps way.old)) (object (M.Tree.members members)) out.old.items out.new.items) }
    ensures stays { OnOk result (Stays M.located (M.start way.old) (M.steps way.old) (M.start way.new) (M.steps way.new)) }
{
    if let Some((key, member)) = <M::Tree as Tree>::member_named(members, name) {
        let here = M::members_here(way)?;
        M::push_member(&here, key, member, out)?;
    }
    Ok(())
}
