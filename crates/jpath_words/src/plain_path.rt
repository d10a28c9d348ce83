//! Paths that say where a member is to be made: names and indexes alone, a name last.

use jpath_texts::Query;
use jsonpath_nodes::{LocStep, Location};
use jsonpath_paths::{Decimal, Inner, ParseToken, ParserStep, StrRange};
use std::alloc::{AllocError, Global};

// How much a whole number is in units of a decimal.
const ONE: i128 = 1_000_000_000_000_000_000;

/// Says which member of an object is meant: `above` is the location of the object in a document, `name` is the name of
/// the member. A document need not have this object or member.
#[derive(Drop)]
pub struct NamedMember {
    pub above: Location,
    pub name: String,
}

// The member that a path of plain steps names: names, and indexes that are counted from the beginning. `None` if it has
// another step, or ends with no name.
pub(crate) fn member_of_plain_path(
    alloc: Global,
    query: &Query<'_>,
) -> Result<Option<NamedMember>, AllocError> {
    let Some((last, before)) = query.path().tree().steps.as_slice().split_last() else {
        return Ok(None);
    };
    let mut above = Vec::new(alloc);
    for step in before {
        match plain_step(alloc, query.text(), step)? {
            Some(step) => above.push(step)?,
            None => return Ok(None),
        }
    }
    match plain_step(alloc, query.text(), last)? {
        Some(LocStep::Name(name)) => Ok(Some(NamedMember {
            above: Location::from_steps(above),
            name,
        })),
        _ => Ok(None),
    }
}

// The name with which a path ends, wherever its other steps lead. `None` if its last step is none.
pub(crate) fn last_name_of_path(
    alloc: Global,
    query: &Query<'_>,
) -> Result<Option<NamedMember>, AllocError> {
    let Some(last) = query.path().tree().steps.as_slice().last() else {
        return Ok(None);
    };
    match &last.inner {
        Inner::Token(ParseToken::Key(span)) => Ok(Some(NamedMember {
            above: Location::from_steps(Vec::new(alloc)),
            name: name_at(alloc, query.text(), *span)?,
        })),
        _ => Ok(None),
    }
}

// A step of a path as a step of a location; `None` if it may lead to several values, or counts from the end.
fn plain_step(alloc: Global, path: &str, step: &ParserStep) -> Result<Option<LocStep>, AllocError> {
    if step.leaves {
        return Ok(None);
    }
    match &step.inner {
        Inner::Token(ParseToken::Key(span)) => {
            Ok(Some(LocStep::Name(name_at(alloc, path, *span)?)))
        }
        Inner::Token(ParseToken::Number(number)) => Ok(index_of_number(*number).map(
            LocStep::Index,
        )),
        _ => Ok(None),
    }
}

// The number as an index from the beginning; `None` if it is below zero.
fn index_of_number(number: Decimal) -> Option<usize> {
    let whole = number.units() / ONE;
    match usize::try_from(whole) {
        Ok(index) => Some(index),
        Err(_) => None,
    }
}

// The name that stands at this span of a path: a word, or a text in quotes without them and without the backslashes that
// escape the character behind them.
fn name_at(alloc: Global, path: &str, span: StrRange) -> Result<String, AllocError> {
    let written = path
        .get(span.pos..span.pos.saturating_add(span.offset))
        .unwrap_or("");
    let mut name = String::new(alloc);
    let mut rest = written.chars();
    if written.starts_with('"') || written.starts_with('\'') {
        rest.next();
        rest.next_back();
        let mut is_escaped = false;
        for character in rest {
            if character == '\\' && !is_escaped {
                is_escaped = true;
            } else {
                name.push(character)?;
                is_escaped = false;
            }
        }
        return Ok(name);
    }
    name.push_str(written)?;
    Ok(name)
}
