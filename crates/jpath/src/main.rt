//! The program `jpath`: parses its command line and does the task.
#![tactic(auto)]

mod run;

use jpath_words::{
    FilledPaths, ParseOutcome, Refused, Words, fill_paths, parse_words, wanted_of_words,
    wants_color, words_with_paths,
};
use run::run_over_files;
use std::alloc::AllocError;
use std::env;
use std::io::{ErrorKind, IsTerminal};
use std::process::ExitCode;

// Runs the program and ends with its status: 4, with a message, where memory is refused.
fn main(rt: HostRuntime) -> ExitCode {
    match run_from_arguments(&rt) {
        Ok(status) => ExitCode::from(status),
        Err(AllocError) => {
            let _ = eprintln!(rt; "jpath: out of memory");
            ExitCode::from(4)
        }
    }
}

// Takes the program's words apart, does what they ask for, and answers the exit status. A word that is no UTF-8 is
// told: status 2.
fn run_from_arguments(rt: &HostRuntime) -> Result<u8, AllocError> {
    match env::args(rt) {
        Ok(arguments) => {
            let words = arguments.collect::<Vec<String>>(rt.alloc())?;
            match parse_words(rt, words.as_slice())? {
                ParseOutcome::Words(words) => carry_out_words(rt, &words),
                ParseOutcome::Ended(status) => Ok(status),
            }
        }
        Err(error) => {
            if error.kind() == ErrorKind::OutOfMemory {
                return Err(AllocError);
            }
            let _ = eprintln!(rt; "jpath: a word is no UTF-8: give such a FILE by `< FILE`");
            Ok(2)
        }
    }
}

// Does what the words ask for, once their arguments are put into their paths, and answers the exit status: that of the
// run over the files, 0 where paths were only to be checked, 2 where words or a path are refused.
fn carry_out_words(rt: &HostRuntime, words: &Words<'_>) -> Result<u8, AllocError> {
    status_or_refusal(rt, run_with_arguments(rt, words))
}

// Puts the arguments into the paths, where there are any, and does what the words ask for.
fn run_with_arguments(rt: &HostRuntime, words: &Words<'_>) -> Result<u8, Refused> {
    if words.arguments.is_empty() {
        return run_filled_words(rt, words);
    }
    let filled = fill_paths(rt, words)?;
    run_with_paths(rt, words, &filled)
}

// Does what the words ask for, with these path texts in place of their own.
fn run_with_paths<'a, 'w: 'a>(
    rt: &HostRuntime,
    words: &Words<'w>,
    filled: &'a FilledPaths<'w>,
) -> Result<u8, Refused> {
    let words = words_with_paths(rt.alloc(), words, filled)?;
    run_filled_words(rt, &words)
}

// Does what the words ask for, and answers the status of the run over the files.
fn run_filled_words(rt: &HostRuntime, words: &Words<'_>) -> Result<u8, Refused> {
    let is_terminal = rt.stdout().is_terminal();
    let is_colored = wants_color(&words.flags, is_terminal, is_no_color_variable_set(rt));
    let wanted = wanted_of_words(rt, words, is_colored)?;
    Ok(run_over_files(rt, &wanted))
}

// The exit status of a run, or of what was refused before it, which is told.
fn status_or_refusal(rt: &HostRuntime, ran: Result<u8, Refused>) -> Result<u8, AllocError> {
    match ran {
        Ok(status) => Ok(status),
        Err(Refused::Checked) => Ok(0),
        Err(Refused::Told) => Ok(2),
        Err(Refused::OutOfMemory) => Err(AllocError),
        Err(Refused::Words(sentence)) => {
            let _ = eprintln!(rt; "jpath: {sentence}");
            let _ = eprintln!(rt; "`jpath --help` has all options");
            Ok(2)
        }
    }
}

// Whether the environment has NO_COLOR with some text, so that `auto` colours nothing.
fn is_no_color_variable_set(rt: &HostRuntime) -> bool {
    match env::var(rt, "NO_COLOR") {
        Ok(value) => !value.is_empty(),
        Err(_) => false,
    }
}
