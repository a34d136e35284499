//! Texts of models that are read, and written again.

use crate::formats::changes::changed;
use crate::formats::notation::{bytes_of, write_bytes};
use crate::formats::said::write_types;
use crate::tools::{both, halves};
use invariants::Model;
use model_file::{FileError, is_well_shaped, read_version_1, write_model};
use model_reader::read_model;
use std::alloc::{AllocError, Global};
use std::fmt::Write;

/// Reports what the text of a model is: the same as another, or not.
fn write_same(written: &[u8], base: &[u8], out: &mut String) -> Result<(), AllocError> {
    if written == base {
        return out.push_str("the same, ");
    }
    write_bytes(out, written)
}

/// Reports whether the model is well shaped, which types it has, and what its text is.
fn write_text(
    alloc: Global,
    model: &Model,
    base: &[u8],
    out: &mut String,
) -> Result<(), AllocError> {
    if !is_well_shaped(alloc, model)? {
        return out.push_str("not well shaped\n");
    }
    let written = write_model(alloc, model)?;
    write_same(written.as_slice(), base, out).and(write_types(out, model.types.as_slice()))
}

/// Reports the result of reading a changed file: the text of its model, or why it is refused.
fn write_answer(
    alloc: Global,
    base: &[u8],
    change: &str,
    out: &mut String,
) -> Result<(), AllocError> {
    let read = read_model(alloc, changed(alloc, base, change)?);
    let end = match &read {
        Ok(model) => write_text(alloc, model, base, out),
        Err(fault) => writeln!(out, "{fault:?}"),
    };
    drop(read);
    end
}

/// Reports the result of each change of the text of the first step.
pub fn run(alloc: Global, steps: &str, out: &mut String) -> Result<(), AllocError> {
    let (base, changes) = halves(steps, '\n');
    let base = bytes_of(alloc, base)?;
    for change in changes.split('\n') {
        write_answer(alloc, &base, change, out)?;
    }
    Ok(())
}

/// Reports the result of reading a changed file of version 1: the text of its model in version 2, or why it is refused.
fn write_old_answer(
    alloc: Global,
    base: &[u8],
    change: &str,
    new: &[u8],
    out: &mut String,
) -> Result<(), AllocError> {
    let file = changed(alloc, base, change)?;
    let read = read_version_1(alloc, &file);
    drop(file);
    let end = match &read {
        Ok(model) => write_text(alloc, model, new, out),
        Err(fault) => writeln!(out, "{fault:?}"),
    };
    drop(read);
    end
}

/// Reports the result of each change of the text of the second step, which is of version 1. That of the first step is the same
/// model in version 2.
pub fn old(alloc: Global, steps: &str, out: &mut String) -> Result<(), AllocError> {
    let (new, rest) = halves(steps, '\n');
    let (base, changes) = halves(rest, '\n');
    let (new, base) = both(bytes_of(alloc, new), bytes_of(alloc, base))?;
    for change in changes.split('\n') {
        write_old_answer(alloc, &base, change, &new, out)?;
    }
    Ok(())
}

/// Whether the bytes are a JSON text.
fn is_json(alloc: Global, bytes: Vec<u8>) -> bool {
    let read = read_model(alloc, bytes);
    let is_refused = matches!(&read, Err(FileError::NotJson));
    drop(read);
    !is_refused
}

/// Reports how many prefixes a file has, and how many of them are not JSON.
pub fn fronts(alloc: Global, file: &str, out: &mut String) -> Result<(), AllocError> {
    let file = bytes_of(alloc, file)?;
    let mut refused = 0usize;
    for length in 0..file.len() {
        if !is_json(alloc, file[..length].to_vec(alloc)?) {
            refused = refused.saturating_add(1);
        }
    }
    writeln!(out, "{} fronts, {refused} are no JSON", file.len())
}
