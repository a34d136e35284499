//! Events that are gathered in traces.

use crate::formats::notation::{number_of, u32_of};
use crate::formats::said::write_log;
use crate::tools::parted;
use limits::{MAX_TRACE_BYTES, MAX_TYPE_BYTES};
use std::alloc::{AllocError, Global};
use std::fmt::Write;
use trace_builder::{AddError, Builder, PackedText};
use traces::TraceSet;

/// Adds an event, if its texts are within the limits. One with an even time is added by the words of its texts.
pub fn add(
    builder: &mut Builder,
    key: (u32, u32, &str),
    typ: &str,
    time: u128,
) -> Result<(), AddError> {
    if key.2.len() > MAX_TRACE_BYTES || typ.is_empty() || typ.len() > MAX_TYPE_BYTES {
        return Ok(());
    }
    let added = if time % 2 == 0 {
        let (text, type_text) = (PackedText::of(key.2), PackedText::of(typ));
        builder.add_packed(key.0, key.1, &text, &type_text, time)
    } else {
        builder.add(key.0, key.1, key.2, typ, time)
    };
    match added {
        Ok(_) => Ok(()),
        Err(fault) => Err(fault),
    }
}

/// Takes a step `COUNT FILE SECTION TIME TRACE|TYPE`: adds that event `COUNT` times, and reports why one is refused.
fn take_step(builder: &mut Builder, step: &str, out: &mut String) -> Result<(), AllocError> {
    let (count, rest) = u32_of(step);
    let (file, rest) = u32_of(rest);
    let (section, rest) = u32_of(rest);
    let (time, rest) = number_of(rest);
    let (text, typ) = parted(rest, '|');
    for _ in 0..count {
        if let Err(fault) = add(builder, (file, section, text), typ, time) {
            writeln!(out, "{fault:?}")?;
        }
    }
    Ok(())
}

/// Takes these steps.
fn take_steps(builder: &mut Builder, steps: &str, out: &mut String) -> Result<(), AllocError> {
    for step in steps.split('\n') {
        take_step(builder, step, out)?;
    }
    Ok(())
}

/// The log of the events of these steps.
fn log_of(alloc: Global, steps: &str, out: &mut String) -> Result<TraceSet, AllocError> {
    let mut builder = Builder::new(alloc);
    take_steps(&mut builder, steps, out).and(builder.finish())
}

/// Takes the steps of a case, and reports what is gathered.
pub fn run(alloc: Global, steps: &str, out: &mut String) -> Result<(), AllocError> {
    let log = log_of(alloc, steps, out)?;
    write_log(out, &log)
}
