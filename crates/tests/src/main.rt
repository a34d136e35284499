//! Prints the results of cases. Standard input has a part for each folder of cases, under a heading: from the line `== basics`
//! on calls of the lower crates; from `== graphs` on graphs of partitions and runs of inference; from `== arguments` on command
//! lines; from `== formats` on keys, events, rules, logs and models; and from `== runs` on runs of the program over inputs and
//! sinks in memory. `make` makes standard input and the expected output from files of cases, and never runs the program.
#![tactic(auto)]

mod arguments;
mod basics;
mod formats;
mod graphs;
mod runs;
mod tools;

use std::alloc::{AllocError, Global};
use std::io;
use tools::halves;

/// Appends the results of a part without real inputs and sinks to the text.
fn tell_other(
    alloc: Global,
    heading: &str,
    cases: &str,
    out: &mut String,
) -> Result<(), AllocError> {
    match heading {
        "graphs" => graphs::tell(alloc, cases, out),
        "arguments" => arguments::tell(alloc, cases, out),
        "formats" => formats::tell(alloc, cases, out),
        "runs" => runs::tell(alloc, cases, out),
        _ => Ok(()),
    }
}

/// Appends the results of a part to the text. What stands before the first heading has none.
fn tell(rt: &HostRuntime, part: &str, out: &mut String) -> Result<(), AllocError> {
    let (heading, cases) = halves(part, '\n');
    match heading {
        "basics" => basics::tell(rt, cases, out),
        _ => tell_other(rt.alloc(), heading, cases, out),
    }
}

/// The results of all parts.
fn told(rt: &HostRuntime, parts: &str) -> Result<String, AllocError> {
    let mut out = String::new(rt.alloc());
    for part in parts.split("\n== ") {
        tell(rt, part, &mut out)?;
    }
    Ok(out)
}

fn main(rt: HostRuntime) -> io::Result<()> {
    let parts = io::read_to_string(rt.alloc(), rt.reader())?;
    let told = told(&rt, &parts);
    drop(parts);
    print!(rt; "{}", told?)
}
