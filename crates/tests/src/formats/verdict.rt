//! Models that are read from a file and checked against a log.

use crate::formats::changes::changed;
use crate::formats::events::add;
use crate::formats::notation::bytes_of;
use crate::tools::halves;
use model_check::{Verdict, check};
use model_reader::read_model;
use std::alloc::{AllocError, Global};
use std::fmt::Write;
use trace_builder::{AddError, Builder};
use traces::TraceSet;

/// Adds the events of a trace. Their types are separated by spaces.
fn add_trace(builder: &mut Builder, file: u32, trace: &str) -> Result<(), AddError> {
    for typ in trace.split_whitespace() {
        add(builder, (file, 0, ""), typ, 0)?;
    }
    Ok(())
}

/// Adds the events of traces, which are separated by semicolons, and reports why one is refused.
fn add_traces(builder: &mut Builder, traces: &str, out: &mut String) -> Result<(), AllocError> {
    let mut file = 0u32;
    for trace in traces.split(';') {
        if let Err(fault) = add_trace(builder, file, trace) {
            writeln!(out, "{fault:?}")?;
        }
        file = file.saturating_add(1);
    }
    Ok(())
}

/// The log of traces.
fn log_of(alloc: Global, traces: &str, out: &mut String) -> Result<TraceSet, AllocError> {
    let mut builder = Builder::new(alloc);
    add_traces(&mut builder, traces, out).and(builder.finish())
}

/// Reports a verdict.
fn write_checked(verdict: Result<Verdict, AllocError>, out: &mut String) -> Result<(), AllocError> {
    let verdict = verdict?;
    writeln!(out, "{verdict:?}")
}

/// Reports whether a change of the model of a file is valid for the log.
fn write_verdict(
    alloc: Global,
    log: &TraceSet,
    base: &[u8],
    change: &str,
    out: &mut String,
) -> Result<(), AllocError> {
    let read = read_model(alloc, changed(alloc, base, change)?);
    let end = match &read {
        Ok(model) => write_checked(check(alloc, model, log), out),
        Err(fault) => writeln!(out, "{fault:?}"),
    };
    drop(read);
    end
}

/// Reports the verdict on each change of the model of the first step.
fn write_verdicts(
    alloc: Global,
    log: &TraceSet,
    steps: &str,
    out: &mut String,
) -> Result<(), AllocError> {
    let (base, changes) = halves(steps, '\n');
    let base = bytes_of(alloc, base)?;
    for change in changes.split('\n') {
        write_verdict(alloc, log, &base, change, out)?;
    }
    Ok(())
}

/// Reports the verdicts on changes of a model for the log of these traces.
pub fn run(alloc: Global, traces: &str, steps: &str, out: &mut String) -> Result<(), AllocError> {
    let log = log_of(alloc, traces, out)?;
    write_verdicts(alloc, &log, steps, out)
}
