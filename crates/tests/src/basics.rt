//! The answers of calls of the lower crates. Each line is a case: the name of the call, and its arguments.
//! `cases/basics/README.md` explains the lines, and `make` makes them.

mod candidates;
mod cuts;
mod made;
mod mining;
mod pools;
mod rows;
mod sinks;
mod streams;
mod texts;
mod words;

use crate::tools::halves;
use std::alloc::{AllocError, Global};

/// Appends the result of a case on miners and reports to the text.
fn tell_reports(alloc: Global, name: &str, rest: &str, out: &mut String) -> Result<(), AllocError> {
    match name {
        "mine" => mining::mined(alloc, rest, out),
        "paths" => texts::paths(alloc, rest, out),
        "invariants" => texts::invariants(alloc, rest, out),
        "graph" => texts::graph(alloc, rest, out),
        _ => out.push_str("no such case"),
    }
}

/// Appends the result of a case on lines, invariants, miners and reports to the text.
fn tell_logs(alloc: Global, name: &str, rest: &str, out: &mut String) -> Result<(), AllocError> {
    match name {
        "piece" => cuts::piece(alloc, rest, out),
        "fields" => cuts::fields(alloc, rest, out),
        "made" => made::made(alloc, rest, out),
        "candidate" => candidates::at_index(rest, out),
        "index" => candidates::index(rest, out),
        "monitor" => candidates::monitor(rest, out),
        "seq" => candidates::seq(alloc, rest, out),
        "text" => candidates::text(alloc, rest, out),
        _ => tell_reports(alloc, name, rest, out),
    }
}

/// Appends the result of a case on stores, sinks or logs to the text.
fn tell_stores(alloc: Global, name: &str, rest: &str, out: &mut String) -> Result<(), AllocError> {
    match name {
        "rows" => rows::told(alloc, rest, out),
        "cells" => pools::cells(alloc, out),
        "spans" => pools::spans(alloc, out),
        "entries" => pools::entries(alloc, out),
        "history" => pools::history(alloc, out),
        "steps" => pools::steps(out),
        "sink" => sinks::memory(alloc, rest, out),
        _ => tell_logs(alloc, name, rest, out),
    }
}

/// Appends the result of a case to the text.
fn tell_case(rt: &HostRuntime, case: &str, out: &mut String) -> Result<(), AllocError> {
    let (name, rest) = halves(case, ' ');
    match name {
        "memory" => streams::memory(rt, rest, out),
        "real" => streams::real(rt, rest, out),
        "failing" => streams::failing(rt, rest, out),
        "streams" => sinks::streams(rt, out),
        _ => tell_stores(rt.alloc(), name, rest, out),
    }
}

/// Appends the results of the cases to the text, one per line.
pub fn tell(rt: &HostRuntime, cases: &str, out: &mut String) -> Result<(), AllocError> {
    for case in cases.lines() {
        tell_case(rt, case, out).and(out.push('\n'))?;
    }
    Ok(())
}
