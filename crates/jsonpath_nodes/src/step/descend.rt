//! A value with all its descendants, in one descent.

ghost use Rattle.std.specs.Prelude.{[], ◌∷◌, ◌++◌, OnOk};
ghost use Rattle.jsonpath_nodes.specs.document.Document.{array, object};
ghost use Rattle.jsonpath_nodes.specs.place.Location.{below, below_items, below_members};
ghost use Rattle.jsonpath_nodes.specs.place.Mark.{MarksGain};
ghost use Rattle.jsonpath_nodes.specs.plan.Containers.{descendants};
ghost use Rattle.jsonpath_nodes.specs.plan.Way.{down_step, way_stand, Stays};

pub(crate) mod descent_path;

use crate::memory::NoMemory;
use crate::step::child_lookup::is_container;
use crate::step::descends::{Descends, DownStep};
use crate::tree::Tree;
use crate::tree::name::Handle;
use std::alloc::Global;

// Adds a node and all below it, each value before its children.
pub(crate) fn add_node_and_all_below<M: Descends>(
    alloc: Global,
    node: &M,
    out: &mut Vec<M>,
) -> Result<(), NoMemory>
    ensures { OnOk result (MarksGain M.located M.stand M.content below (M.stand node.now) (M.content node.now) out.old.items out.new.items) }
{
    out.push(node.copy()?)?;
    let mut way = node.way_from(alloc)?;
    add_all_under::<M>(node.tree(), &mut way, out)
}

// Adds all that is below the value where the descent is, each value before its children.
#[cycle(below)]
#[inline(always)]
fn add_all_under<M: Descends>(
    value: M::Tree,
    way: &mut M::Way,
    out: &mut Vec<M>,
) -> Result<(), NoMemory>
    ensures gains { OnOk result (MarksGain M.located M.stand M.content descendants (way_stand M.located (M.start way.old) (M.steps way.old)) (M.Tree.content value) out.old.items out.new.items) }
    ensures stays { OnOk result (Stays M.located (M.start way.old) (M.steps way.old) (M.start way.new) (M.steps way.new)) }
{
    if let Some(members) = value.as_object() {
        add_members_and_all_below::<M>(members, way, out)
    } else if let Some(items) = value.as_array() {
        add_items_and_all_below::<M>(items, way, out)
    } else {
        Ok(())
    }
}

// Adds all that is below a child of the container where the descent is.
#[cycle(below)]
#[inline(always)]
fn add_all_under_child<M: Descends>(
    value: M::Tree,
    step: DownStep<<M::Tree as Handle>::Name>,
    way: &mut M::Way,
    out: &mut Vec<M>,
) -> Result<(), NoMemory>
    ensures gains { OnOk result (MarksGain M.located M.stand M.content descendants (way_stand M.located (M.start way.old) (M.steps way.old ++ down_step M.Tree.Name.bytes step ∷ [])) (M.Tree.content value) out.old.items out.new.items) }
    ensures stays { OnOk result (Stays M.located (M.start way.old) (M.steps way.old) (M.start way.new) (M.steps way.new)) }
{
    if is_container(value) {
        M::go_down(way, step)?;
        add_all_under::<M>(value, way, out)?;
        M::go_back(way);
    }
    Ok(())
}

// Adds the items of the array where the descent is and all below them, each value before its children.
#[cycle(below)]
fn add_items_and_all_below<M: Descends>(
    items: <M::Tree as Tree>::Array,
    way: &mut M::Way,
    out: &mut Vec<M>,
) -> Result<(), NoMemory>
    ensures gains { OnOk result (MarksGain M.located M.stand M.content (λ d. below_items 0 (M.Tree.items items)) (way_stand M.located (M.start way.old) (M.steps way.old)) (array (M.Tree.items items)) out.old.items out.new.items) }
    ensures stays { OnOk result (Stays M.located (M.start way.old) (M.steps way.old) (M.start way.new) (M.steps way.new)) }
{
    let here = M::items_here(way)?;
    // Also says that the indexes fit.
    let _len = <M::Tree as Tree>::len(items);
    let mut left = <M::Tree as Tree>::each_item(items);
    let mut i = 0;
    while let Some(item) = <M::Tree as Tree>::next_item(&mut left) {
        M::push_item(&here, i, item, out)?;
        add_all_under_child::<M>(item, DownStep::Item(i), way, out)?;
        i += 1;
    }
    Ok(())
}

// Adds the members of the object where the descent is and all below them, each value before its children.
#[cycle(below)]
fn add_members_and_all_below<M: Descends>(
    members: <M::Tree as Tree>::Object,
    way: &mut M::Way,
    out: &mut Vec<M>,
) -> Result<(), NoMemory>
    ensures gains { OnOk result (MarksGain M.located M.stand M.content (λ d. below_members (M.Tree.members members)) (way_stand M.located (M.start way.old) (M.steps way.old)) (object (M.Tree.members members)) out.old.items out.new.items) }
    ensures stays { OnOk result (Stays M.located (M.start way.old) (M.steps way.old) (M.start way.new) (M.steps way.new)) }
{
    let here = M::members_here(way)?;
    let mut left = <M::Tree as Tree>::each_member(members);
    while let Some((name, member)) = <M::Tree as Tree>::next_member(&mut left) {
        M::push_member(&here, name, member, out)?;
        add_all_under_child::<M>(member, DownStep::Member(name), way, out)?;
    }
    Ok(())
}
