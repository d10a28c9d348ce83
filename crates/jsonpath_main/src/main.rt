//! The program: calls `run` with its words, standard input and standard output.
#![tactic(auto)]

use jsonpath_run::{Checked, Fault, run};
use jsonpath_select::JsonPathError;
use std::env;
use std::io::ErrorKind;
use std::process::ExitCode;

// Runs the program and ends with its status; a fault is told on standard error.
fn main(rt: HostRuntime) -> ExitCode {
    match run_from_arguments(&rt) {
        Ok(status) => ExitCode::from(status),
        Err(fault) => {
            let _ = eprintln!(rt; "{fault}");
            ExitCode::from(fault.status())
        }
    }
}

// Runs the arguments on standard input and output; returns the exit status. A non-UTF-8 argument is a `Usage` error.
fn run_from_arguments(rt: &HostRuntime) -> Result<u8, Fault> {
    let alloc = rt.alloc();
    let arguments = match env::args(rt) {
        Ok(arguments) => arguments,
        Err(error) => {
            return match error.kind() {
                ErrorKind::OutOfMemory => Err(Fault::Refused(JsonPathError::OutOfMemory)),
                _ => Err(Fault::Usage),
            };
        }
    };
    let Ok(owned) = arguments.collect::<Vec<String>>(alloc) else {
        return Err(Fault::Refused(JsonPathError::OutOfMemory));
    };
    let Ok(words) = owned
        .iter()
        .skip(1)
        .map(|word| word.as_str())
        .collect::<Vec<&str>>(alloc)
    else {
        return Err(Fault::Refused(JsonPathError::OutOfMemory));
    };
    let mut reader = Checked::new(rt.stdin());
    let mut writer = Checked::new(rt.stdout());
    run(alloc, words.as_slice(), &mut reader, &mut writer)
}
