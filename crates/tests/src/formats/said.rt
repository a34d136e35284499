//! What a log and a model say, part by part.

use crate::formats::notation::{bytes_of, write_bytes};
use invariants::{Block, Labels, Listed, Model, Split, Text};
use model_reader::read_model;
use std::alloc::{AllocError, Global};
use std::fmt::Write;
use traces::TraceSet;

/// Reports which types there are.
pub fn write_types(out: &mut String, types: &[Text]) -> Result<(), AllocError> {
    out.push_str("types")?;
    for text in types {
        out.push('|')
            .and(write_bytes(out, text.as_str().as_bytes()))?;
    }
    out.push('\n')
}

/// Reports the keys of the traces, the numbers of their types, and their times.
fn write_traces(out: &mut String, log: &TraceSet) -> Result<(), AllocError> {
    for t in 0..log.trace_count() {
        let (key, events, times) = (log.key(t), log.events(t), log.times(t));
        write!(out, "{} {} ", key.file, key.section)
            .and(write_bytes(out, key.text))
            .and(writeln!(out, "|{events:?} {times:?}"))?;
    }
    Ok(())
}

/// Reports what a log has: of more than 1,000 events only how many there are.
pub fn write_log(out: &mut String, log: &TraceSet) -> Result<(), AllocError> {
    let (traces, events) = (log.trace_count(), log.event_count());
    write_types(out, log.types().as_slice()).and(writeln!(
        out,
        "{traces} traces, {events} events"
    ))?;
    if events > 1_000 {
        return Ok(());
    }
    write_traces(out, log)
}

/// Reports labels as a list of numbers.
fn write_labels(out: &mut String, labels: &Labels) -> Result<(), AllocError> {
    out.push('[')?;
    let mut before = "";
    for digit in labels.as_digits() {
        out.push_str(before).and(out.push(char::from(*digit)))?;
        before = ", ";
    }
    out.push_str("]\n")
}

fn write_invariants(out: &mut String, invariants: &[Listed]) -> Result<(), AllocError> {
    for listed in invariants {
        write!(out, "{:?} ", listed.inv).and(write_labels(out, &listed.labels))?;
    }
    Ok(())
}

fn write_splits(out: &mut String, splits: &[Split]) -> Result<(), AllocError> {
    for split in splits {
        let (inv, place, path) = (split.inv, split.place, split.path.as_slice());
        writeln!(out, "split at {place} for {inv} in {path:?}")?;
    }
    Ok(())
}

fn write_blocks(out: &mut String, blocks: &[Block]) -> Result<(), AllocError> {
    for block in blocks {
        let (p, q, inv, path) = (block.p, block.q, block.inv, block.path.as_slice());
        writeln!(out, "{p} apart from {q} for {inv} by {path:?}")?;
    }
    Ok(())
}

/// Reports what a model contains.
fn write_model(out: &mut String, model: &Model) -> Result<(), AllocError> {
    let partitions = model.partitions.as_slice();
    let (edges, merges) = (model.edges.as_slice(), model.merges.as_slice());
    write_types(out, model.types.as_slice())
        .and(writeln!(
            out,
            "{:?}\n{partitions:?}\n{edges:?}\n{merges:?}",
            model.kinds
        ))
        .and(write_invariants(out, model.invariants.as_slice()))
        .and(write_splits(out, model.splits.as_slice()))
        .and(write_blocks(out, model.blocks.as_slice()))
}

/// Reports what the model in a file contains.
pub fn run(alloc: Global, file: &str, out: &mut String) -> Result<(), AllocError> {
    let read = read_model(alloc, bytes_of(alloc, file)?);
    let end = match &read {
        Ok(model) => write_model(out, model),
        Err(fault) => writeln!(out, "{fault:?}"),
    };
    drop(read);
    end
}
