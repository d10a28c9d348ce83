//! Compact JSON text of a value, as `serde_json` prints it, with null or nothing in place of some values below it.

ghost use Rattle.std.specs.Prelude.{◌≡◌, [], true, None, Err, IfOk, OnOk, map, string_bytes};
ghost use Rattle.std.specs.List.Sorted.{IsStrictlySortedBy};
ghost use Rattle.json.specs.Print.{print};
ghost use Rattle.json.specs.Value.{value_view, items_view, members_view};
ghost use Rattle.jsonpath_nodes.specs.document.Document.{number, written};
ghost use Rattle.jsonpath_nodes.specs.place.Location.{location_cmp};
ghost use Rattle.jsonpath_nodes.specs.place.SpotPlace.{step_of};
ghost use Rattle.jsonpath_nodes.specs.update.Topmost.{with_answer_at_topmost, items_with_answer, members_with_answer};
ghost use Rattle.json_trees.specs.AsRead.{as_read, tree_as_read, tree_items_as_read, tree_members_as_read, text_document};
ghost use Rattle.json_trees.specs.Changed.{answer_of, changed_child};
ghost use Rattle.json_trees.specs.Prints.{is_unread, holds_unread, are_items_unread, are_members_unread, Prints, PrintsItem, PrintsMember, PrintsItems, PrintsMembers, IsUnread, IsCompactText, IsUnreadList, IsCompactListText};
ghost use Rattle.json_trees.specs.Targets.{targets_view};
ghost use Rattle.json_trees.specs.TextHandles.{text_items, text_members};

use crate::numbers::whole_number::{WholeNumber, is_short_whole, whole_number};
use crate::ordered_tree::handle::{OrderedItems, OrderedMembers};
use crate::targets::{StepList, Targets};
use crate::text_value::TextValue;
use json::{Value as Exact, Writer};
use jsonpath_nodes::{PathStep, Tree};
use std::alloc::{AllocError, Global};

/// Why no text is made of a document.
#[derive(Clone, Copy, Debug, Drop, PartialEq, Eq)]
pub enum Unprinted {
    /// A number to be printed is no whole number of 64 bits, such as 1.5.
    UnreadNumber,
    /// There is not enough memory.
    OutOfMemory,
}

impl From<AllocError> for Unprinted {
    ghost use Rattle.json_trees.specs.declared.printing.Unprinted.TheVariants.{OutOfMemory};
    ghost use Rattle.std.specs.Prelude.{◌≡◌};

    ghost from_gives = { λ _ e. e ≡ OutOfMemory };

    fn from(_: AllocError) -> Unprinted {
        Unprinted::OutOfMemory
    }
}

/// What is printed in place of a value.
#[derive(Clone, Copy, Debug, Drop, PartialEq, Eq)]
pub enum Replacement {
    /// `null`
    Null,
    /// Nothing: the item or the member is left out.
    Nothing,
}

/// The compact texts of values in brackets, with commas between them. The only errors are that a number in a value is no
/// whole number of 64 bits, and that memory ran out.
pub fn compact_list_text(alloc: Global, values: &[TextValue<'_, '_>]) -> Result<String, Unprinted>
    ensures ok { IfOk result (λ text. IsCompactListText (map text_document values.now) (string_bytes text)) }
    ensures unread { result ≡ Err Unprinted.UnreadNumber → IsUnreadList (map text_document values.now) }
{
    let mut writer = Writer::new(Vec::with_capacity(alloc, 128)?);
    writer.begin_array()?;
    for value in values {
        add_value(&mut writer, *value, Targets::none(), Replacement::Null)?;
    }
    writer.end_array()?;
    Ok(text_of_writer(writer))
}

/// The compact text of a value. The only errors are that a number in it is no whole number of 64 bits, and that memory ran
/// out.
pub fn compact_text(alloc: Global, value: TextValue<'_, '_>) -> Result<String, Unprinted>
    ensures ok { IfOk result (λ text. IsCompactText (text_document value.entry) (string_bytes text)) }
    ensures unread { result ≡ Err Unprinted.UnreadNumber → IsUnread (text_document value.entry) }
{
    changed_text(alloc, value, &[], Replacement::Null)
}

/// The compact text of a document with the replacement at each of the targets, which are locations below its root in
/// document order; of those inside one another the outermost counts. The only errors are that a number elsewhere is no
/// whole number of 64 bits, and that memory ran out.
pub fn changed_text(
    alloc: Global,
    root: TextValue<'_, '_>,
    targets: &[StepList<'_, '_>],
    replacement: Replacement,
) -> Result<String, Unprinted>
    requires { IsStrictlySortedBy location_cmp (map (λ p. map step_of p.steps.now) targets.now) }
    ensures ok { IfOk result (λ text.
        let locations = map (λ p. map step_of p.steps.now) targets.now in
        IsCompactText (with_answer_at_topmost (answer_of replacement) locations (text_document root.entry)) (string_bytes text)) }
    ensures unread { result ≡ Err Unprinted.UnreadNumber →
        let locations = map (λ p. map step_of p.steps.now) targets.now in
        IsUnread (with_answer_at_topmost (answer_of replacement) locations (text_document root.entry)) }
{
    let mut writer = Writer::new(Vec::with_capacity(alloc, 128)?);
    add_value(&mut writer, root, Targets::of(targets), replacement)?;
    Ok(text_of_writer(writer))
}

// The text of what was written.
fn text_of_writer(writer: Writer) -> String
    requires { writer.before ≡ [] }
    ensures { string_bytes result ≡ print writer.tokens }
{
    match String::from_utf8(writer.into_inner()) {
        Ok(text) => text,
        Err(_) => unreachable!(),
    }
}

// Writes a value with the replacement at the targets below it.
#[cycle(print)]
fn add_value(
    writer: &mut Writer,
    value: TextValue<'_, '_>,
    targets: Targets<'_, '_, '_>,
    replacement: Replacement,
) -> Result<(), Unprinted>
    ensures ok { OnOk result (Prints (with_answer_at_topmost (answer_of replacement) (targets_view targets.entry) (text_document value.entry)) writer.old.tokens writer.new.tokens) }
    ensures before { writer.new.before ≡ writer.old.before }
    ensures unread { result ≡ Err Unprinted.UnreadNumber → is_unread (with_answer_at_topmost (answer_of replacement) (targets_view targets.entry) (text_document value.entry)) ≡ true }
{
    if targets.is_empty() && value.is_in_order() {
        return add_tree(writer, value.value());
    }
    if let Some(array) = value.as_array() {
        writer.begin_array()?;
        add_items(writer, array, targets, replacement)
    } else if let Some(object) = value.as_object() {
        writer.begin_object()?;
        add_members(writer, object, targets, replacement)
    } else {
        add_tree(writer, value.value())
    }
}

// Writes an item, or what replaces it.
#[cycle(print)]
fn add_item(
    writer: &mut Writer,
    value: TextValue<'_, '_>,
    targets: Targets<'_, '_, '_>,
    replacement: Replacement,
) -> Result<(), Unprinted>
    ensures ok { OnOk result (PrintsItem (changed_child (answer_of replacement) (targets_view targets.entry) (text_document value.entry)) writer.old.tokens writer.new.tokens) }
    ensures before { writer.new.before ≡ writer.old.before }
    ensures unread { result ≡ Err Unprinted.UnreadNumber → holds_unread (changed_child (answer_of replacement) (targets_view targets.entry) (text_document value.entry)) ≡ true }
{
    if !targets.reach_here() {
        return add_value(writer, value, targets, replacement);
    }
    match replacement {
        Replacement::Null => writer.null()?,
        Replacement::Nothing => {}
    }
    Ok(())
}

// Writes a member, or what replaces it.
#[cycle(print)]
fn add_member(
    writer: &mut Writer,
    name: &str,
    value: TextValue<'_, '_>,
    targets: Targets<'_, '_, '_>,
    replacement: Replacement,
) -> Result<(), Unprinted>
    ensures ok { OnOk result (PrintsMember name.now (changed_child (answer_of replacement) (targets_view targets.entry) (text_document value.entry)) writer.old.tokens writer.new.tokens) }
    ensures before { writer.new.before ≡ writer.old.before }
    ensures unread { result ≡ Err Unprinted.UnreadNumber → holds_unread (changed_child (answer_of replacement) (targets_view targets.entry) (text_document value.entry)) ≡ true }
{
    if !targets.reach_here() {
        writer.key(name)?;
        return add_value(writer, value, targets, replacement);
    }
    match replacement {
        Replacement::Null => {
            writer.key(name)?;
            writer.null()?;
        }
        Replacement::Nothing => {}
    }
    Ok(())
}

// Writes the items and the bracket that closes.
#[cycle(print)]
fn add_items(
    writer: &mut Writer,
    items: OrderedItems<'_, '_>,
    mut targets: Targets<'_, '_, '_>,
    replacement: Replacement,
) -> Result<(), Unprinted>
    ensures ok { OnOk result (PrintsItems (items_with_answer (answer_of replacement) (targets_view targets.entry) 0 (text_items items.entry)) writer.old.tokens writer.new.tokens) }
    ensures before { writer.new.before ≡ writer.old.before }
    ensures unread { result ≡ Err Unprinted.UnreadNumber → are_items_unread (items_with_answer (answer_of replacement) (targets_view targets.entry) 0 (text_items items.entry)) ≡ true }
{
    // Also says that the indexes fit.
    let _len = TextValue::len(items);
    let mut left = TextValue::each_item(items);
    let mut index = 0;
    while let Some(item) = TextValue::next_item(&mut left) {
        let below = targets.through(PathStep::Index(index));
        add_item(writer, item, below, replacement)?;
        index += 1;
    }
    writer.end_array()?;
    Ok(())
}

// Writes the members and the brace that closes.
#[cycle(print)]
fn add_members(
    writer: &mut Writer,
    members: OrderedMembers<'_, '_>,
    mut targets: Targets<'_, '_, '_>,
    replacement: Replacement,
) -> Result<(), Unprinted>
    ensures ok { OnOk result (PrintsMembers (members_with_answer (answer_of replacement) (targets_view targets.entry) (text_members members.entry)) writer.old.tokens writer.new.tokens) }
    ensures before { writer.new.before ≡ writer.old.before }
    ensures unread { result ≡ Err Unprinted.UnreadNumber → are_members_unread (members_with_answer (answer_of replacement) (targets_view targets.entry) (text_members members.entry)) ≡ true }
{
    let mut left = TextValue::each_member(members);
    while let Some((name, member)) = TextValue::next_member(&mut left) {
        let below = targets.through(PathStep::Name(name));
        add_member(writer, name, member, below, replacement)?;
    }
    writer.end_object()?;
    Ok(())
}

// Writes a tree as it stands.
#[cycle(tree)]
fn add_tree(writer: &mut Writer, tree: &Exact<'_>) -> Result<(), Unprinted>
    ensures ok { OnOk result (Prints (tree_as_read (value_view tree.now)) writer.old.tokens writer.new.tokens) }
    ensures before { writer.new.before ≡ writer.old.before }
    ensures unread { result ≡ Err Unprinted.UnreadNumber → is_unread (tree_as_read (value_view tree.now)) ≡ true }
{
    match tree {
        Exact::Null => writer.null()?,
        Exact::Bool(truth) => writer.boolean(*truth)?,
        Exact::Number(text) => add_number(writer, text)?,
        Exact::String(text) => writer.string(text)?,
        Exact::Array(items) => {
            writer.begin_array()?;
            add_trees(writer, items)?;
        }
        Exact::Object(members) => {
            writer.begin_object()?;
            add_named_trees(writer, members)?;
        }
    }
    Ok(())
}

// Writes the trees of an array's items and the bracket that closes.
#[cycle(tree)]
fn add_trees(writer: &mut Writer, items: &Vec<Exact<'_>>) -> Result<(), Unprinted>
    ensures ok { OnOk result (PrintsItems (tree_items_as_read (items_view items.now.items)) writer.old.tokens writer.new.tokens) }
    ensures before { writer.new.before ≡ writer.old.before }
    ensures unread { result ≡ Err Unprinted.UnreadNumber → are_items_unread (tree_items_as_read (items_view items.now.items)) ≡ true }
{
    for item in items {
        add_tree(writer, item)?;
    }
    writer.end_array()?;
    Ok(())
}

// Writes the trees of an object's members and the brace that closes.
#[cycle(tree)]
fn add_named_trees(writer: &mut Writer, members: &Vec<(&str, Exact<'_>)>) -> Result<(), Unprinted>
    ensures ok { OnOk result (PrintsMembers (tree_members_as_read (members_view members.now.items)) writer.old.tokens writer.new.tokens) }
    ensures before { writer.new.before ≡ writer.old.before }
    ensures unread { result ≡ Err Unprinted.UnreadNumber → are_members_unread (tree_members_as_read (members_view members.now.items)) ≡ true }
{
    for member in members {
        writer.key(member.0)?;
        add_tree(writer, &member.1)?;
    }
    writer.end_object()?;
    Ok(())
}

// Writes the number that a text writes. The digits of a short whole number stand as they are.
fn add_number(writer: &mut Writer, text: &str) -> Result<(), Unprinted>
    ensures ok { OnOk result (Prints (as_read (number (written text.now))) writer.old.tokens writer.new.tokens) }
    ensures before { writer.new.before ≡ writer.old.before }
    ensures unread { result ≡ Err Unprinted.UnreadNumber → is_unread (as_read (number (written text.now))) ≡ true }
{
    if is_short_whole(text) {
        writer.number(text)?;
        return Ok(());
    }
    match whole_number(text) {
        Some(WholeNumber::Unsigned(n)) => writer.u64(n)?,
        Some(WholeNumber::Negative(n)) => writer.i64(n)?,
        None => return Err(Unprinted::UnreadNumber),
    }
    Ok(())
}
