//! Measures the library: `jsonpath_bench PATH FILE COUNT [select|spots|first|exists|delete|remove|compile]`
//! prints the nanoseconds per call and the number of results.
#![tactic(auto)]

mod action;

use action::{Action, measure};
use anyhow::{Context, Result};
use jsonpath_lib::read_document;
use std::process::ExitCode;
use std::{env, fs};

const USAGE: &str =
    "usage: jsonpath_bench PATH FILE COUNT [select|spots|first|exists|delete|remove|compile]";

fn main(rt: HostRuntime) -> Result<ExitCode> {
    let alloc = rt.alloc();
    let owned = env::args(&rt)?.collect::<Vec<String>>(alloc)?;
    let words = owned
        .iter()
        .skip(1)
        .map(|word| word.as_str())
        .collect::<Vec<&str>>(alloc)?;
    let is_done = match *words.as_slice() {
        [path, file, count] => bench(&rt, path, file, count, "select")?,
        [path, file, count, action] => bench(&rt, path, file, count, action)?,
        _ => false,
    };
    if is_done {
        Ok(ExitCode::SUCCESS)
    } else {
        eprintln!(rt; "{USAGE}")?;
        Ok(ExitCode::from(2))
    }
}

// Measures an action on a file's document and prints what it took. False, with nothing printed, if a word is wrong.
fn bench(rt: &HostRuntime, path: &str, file: &str, count: &str, action: &str) -> Result<bool> {
    let alloc = rt.alloc();
    let (Ok(count), Some(action)) = (count.parse::<u64>(), Action::of(action)) else {
        return Ok(false);
    };
    if count == 0 {
        return Ok(false);
    }
    let bytes = fs::read(rt, file).context("reading the file")?;
    let document = read_document(alloc, bytes.as_slice())?;
    let (spent, results) = measure(rt, action, path, &document, count)?;
    let nanos = spent.as_nanos() / u128::from(count);
    println!(rt; "ns={nanos} results={results}")?;
    Ok(true)
}
