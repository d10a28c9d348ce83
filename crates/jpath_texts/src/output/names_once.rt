//! Values with each name once in their objects.

ghost use Rattle.std.specs.Prelude.{◌≡◌, [], nat_eq, false, IfOk};
ghost use Rattle.std.specs.Cmp.Lexicographic.{pointwise};
ghost use Rattle.std.specs.List.{list_any};
ghost use Rattle.std.specs.Str.{bytes_eq};
ghost use Rattle.indexmap.specs.IndexMap.{insert_all};
ghost use Rattle.json.specs.Value.{value_view, items_view, members_view};
ghost use Rattle.jpath_texts.specs.NamesOnce.{names_once, items_once, members_once, each_name_once};

use indexmap::IndexMap;
use json::Value as Exact;
use std::alloc::{AllocError, Global};

// So many names of an object are compared with each other; an object that has more is made anew.
const FEW: usize = 16;

// A copy of the value with each name once in its objects: at its first place, with its last value.
#[cycle(once)]
pub(crate) fn with_names_once<'t>(alloc: Global, value: &Exact<'t>) -> Result<Exact<'t>, AllocError>
    ensures { IfOk result (λ made. value_view made ≡ names_once (value_view value.now)) }
{
    match value {
        Exact::Null => Ok(Exact::Null),
        Exact::Bool(truth) => Ok(Exact::Bool(*truth)),
        Exact::Number(digits) => Ok(Exact::Number(*digits)),
        Exact::String(text) => Ok(Exact::String(*text)),
        Exact::Array(items) => Ok(Exact::Array(items_with_names_once(alloc, items)?)),
        Exact::Object(members) => {
            let made = members_with_names_once_in_values(alloc, members)?;
            Ok(Exact::Object(merge_repeated_names(alloc, made)?))
        }
    }
}

// Copies of the items of an array, with each name once in their objects.
#[cycle(once)]
fn items_with_names_once<'t>(
    alloc: Global,
    items: &Vec<Exact<'t>>,
) -> Result<Vec<Exact<'t>>, AllocError>
    ensures { IfOk result (λ made. items_view made.items ≡ items_once (items_view items.now.items)) }
{
    let mut made = Vec::with_capacity(alloc, items.len())?;
    for item in items {
        made.push(with_names_once(alloc, item)?)?;
    }
    Ok(made)
}

// Copies of the members of an object, each name once in the objects of their values. Names that the members themselves
// repeat are kept.
#[cycle(once)]
fn members_with_names_once_in_values<'t>(
    alloc: Global,
    members: &Vec<(&'t str, Exact<'t>)>,
) -> Result<Vec<(&'t str, Exact<'t>)>, AllocError>
    ensures { IfOk result (λ made. members_view made.items ≡ members_once (members_view members.now.items)) }
{
    let mut made = Vec::with_capacity(alloc, members.len())?;
    for member in members {
        made.push((member.0, with_names_once(alloc, &member.1)?))?;
    }
    Ok(made)
}

// The members with each name once: where a name comes again, its value goes to the name's first place.
fn merge_repeated_names<'t>(
    alloc: Global,
    members: Vec<(&'t str, Exact<'t>)>,
) -> Result<Vec<(&'t str, Exact<'t>)>, AllocError>
    ensures { IfOk result (λ made. members_view made.items ≡ each_name_once (members_view members.entry.items)) }
{
    let named = map_members_by_name(alloc, members)?;
    members_of_map(alloc, named)
}

// The members by their names, in the order of the names' first places; of a name that comes again the last value stays.
fn map_members_by_name<'t>(
    alloc: Global,
    members: Vec<(&'t str, Exact<'t>)>,
) -> Result<IndexMap<&'t str, Exact<'t>>, AllocError>
    ensures { IfOk result (λ named. named.entries ≡ insert_all (λ x y. pointwise nat_eq x.now y.now) [] members.entry.items) }
{
    members.into_iter().collect(alloc)
}

// The members of a map by names as a list, in the map's order.
fn members_of_map<'t>(
    alloc: Global,
    named: IndexMap<&'t str, Exact<'t>>,
) -> Result<Vec<(&'t str, Exact<'t>)>, AllocError>
    ensures { IfOk result (λ made. made.items ≡ named.entry.entries) }
{
    named.into_iter().collect(alloc)
}

// Whether a name may come again in an object of the value. Where it says no, none does.
#[cycle(repeats)]
#[inline(always)]
pub(crate) fn may_repeat_names(value: &Exact<'_>) -> bool
    ensures { result ≡ false → names_once (value_view value.now) ≡ value_view value.now }
{
    match value {
        Exact::Array(items) => may_repeat_in_items(items),
        Exact::Object(members) => may_repeat_in_members(members),
        _ => false,
    }
}

// Whether a name may come again in an object of these items. Where it says no, none does.
#[cycle(repeats)]
fn may_repeat_in_items(items: &Vec<Exact<'_>>) -> bool
    ensures { result ≡ false → items_once (items_view items.now.items) ≡ items_view items.now.items }
{
    for item in items {
        if may_repeat_names(item) {
            return true;
        }
    }
    false
}

// Whether a name may come again among these members or in an object of their values. Where it says no, none does. It
// says yes of more than 16 members, which are not compared with each other.
#[cycle(repeats)]
fn may_repeat_in_members(members: &Vec<(&str, Exact<'_>)>) -> bool
    ensures { result ≡ false → each_name_once (members_once (members_view members.now.items)) ≡ members_view members.now.items }
{
    for member in members {
        if may_repeat_names(&member.1) {
            return true;
        }
    }
    members.len() > FEW || has_name_twice(members.as_slice())
}

// Whether a name comes again among these members themselves.
fn has_name_twice(members: &[(&str, Exact<'_>)]) -> bool
    ensures { result ≡ false → each_name_once (members_view members.now) ≡ members_view members.now }
{
    if members.len() < 2 {
        return false;
    }
    for (at, member) in members.iter().enumerate() {
        if is_name_among(&members[..at], member.0) {
            return true;
        }
    }
    false
}

// Whether one of these members has this name.
fn is_name_among(members: &[(&str, Exact<'_>)], name: &str) -> bool
    ensures { result ≡ list_any (λ m. bytes_eq name.now m.0.now) members.now }
{
    members.iter().any(|member| name == member.0)
}
