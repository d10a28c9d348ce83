//! The argument of an `--arg` or `--argjson`: the placeholder in paths, and the text or number that replaces it.

ghost use Rattle.std.specs.Prelude.{◌≡◌, All, Contains, IfOk, IfSome, None, string_bytes};
ghost use Rattle.jpath_words.specs.Arguments.{IsArgumentOf, Pairwise};

use crate::arguments::filled_path::is_number_alone;
use crate::arguments::quoted::quoted_text;
use crate::command_line::ArgumentWords;
use crate::task::Refused;
use jsonpath_paths::PathParser;
use std::alloc::{AllocError, Global};

// An argument that is put into paths.
#[derive(Drop)]
pub struct Argument {
    // The word of a path that it takes the place of: its name in braces.
    pub placeholder: String,
    // What is put there: a quoted text, or a number.
    pub put: String,
}

// The arguments of these words. One without a name, one whose name was given before, and one that is no number are told
// and refused.
pub(crate) fn read_arguments(
    rt: &(impl Eprint + Alloc<A = Global>),
    words: &[ArgumentWords<'_>],
) -> Result<Vec<Argument>, Refused>
    ensures { IfOk result (λ arguments. Pairwise IsArgumentOf words.now arguments.items) }
{
    let mut arguments = Vec::new(rt.alloc());
    for words in words {
        let argument = read_argument(rt, *words)?;
        let name = words.name();
        if name.is_empty() {
            let _ = eprintln!(rt;
                "jpath: --arg and --argjson want a name, as in --arg n Ada '$.users[?(@.name == {{n}})]'"
            );
            return Err(Refused::Told);
        }
        if find_argument(arguments.as_slice(), argument.placeholder.as_str()).is_some() {
            let _ = eprintln!(rt;
                "jpath: the argument {name} is given twice: leave one of them out"
            );
            return Err(Refused::Told);
        }
        arguments.push(argument)?;
    }
    Ok(arguments)
}

// The argument of these words. A number that no path may have is told and refused.
fn read_argument(
    rt: &(impl Eprint + Alloc<A = Global>),
    words: ArgumentWords<'_>,
) -> Result<Argument, Refused>
    ensures { IfOk result (IsArgumentOf words.entry) }
{
    let alloc = rt.alloc();
    let name = words.name();
    let placeholder = format!(in alloc; "{{{name}}}")?;
    let put = match words {
        ArgumentWords::Text(_, text) => quoted_text(alloc, text)?,
        ArgumentWords::Number(_, number) => number_text(rt, number)?,
    };
    Ok(Argument { placeholder, put })
}

// The number of `--argjson`, as it is. Where no path may compare with it, that is told and refused.
fn number_text(rt: &(impl Eprint + Alloc<A = Global>), number: &str) -> Result<String, Refused>
    ensures { IfOk result (λ text. string_bytes text ≡ number.now) }
{
    let alloc = rt.alloc();
    let path = format!(in alloc; "$[?(@ == {number})]")?;
    let is_number = number.starts_with(|c: char| c.is_ascii_digit() || c == '-')
        && is_number_alone(number)
        && PathParser::compile(alloc, path.as_str()).is_ok();
    if !is_number {
        let _ = eprintln!(rt;
            "jpath: --argjson wants a number as a path has it, and this is none: {number}"
        );
        let _ = eprintln!(rt;
            "hint: a number has digits on both sides of its point, and no exponent; --arg takes a text as it is"
        );
        return Err(Refused::Told);
    }
    Ok(String::from_str(alloc, number)?)
}

// The argument for which this word stands, whatever is before the word.
pub(crate) fn find_argument<'s>(arguments: &'s [Argument], word: &str) -> Option<&'s Argument>
    ensures some { IfSome result (λ found. Contains arguments.now found.now × (string_bytes found.now.placeholder ≡ word.now)) }
    ensures none { result ≡ None → All (λ a. string_bytes a.placeholder ≡ word.now → ⊥) arguments.now }
{
    for argument in arguments {
        if argument.placeholder.as_str() == word {
            return Some(argument);
        }
    }
    None
}
