//! Logs of types, and the invariants that are mined from them.

use crate::tools::{both, halves, kinds, number};
use closure_miner::mine_again;
use count_miner::mine;
use invariants::Invariant;
use limits::MAX_TYPE_BYTES;
use std::alloc::{AllocError, Global};
use trace_builder::Builder;
use traces::TraceSet;

/// The maximum number of invariants that are shown.
const SHOWN: usize = 100;

/// Adds an event of a trace, given as `TYPE` or `TYPE@NUMBER`.
fn add(builder: &mut Builder, trace: u32, word: &str) -> Result<(), AllocError> {
    let typ = halves(word, '@').0;
    if typ.is_empty() || typ.len() > MAX_TYPE_BYTES {
        return Ok(());
    }
    match builder.add(0, trace, "", typ, 0) {
        Ok(_) => Ok(()),
        Err(_) => Err(AllocError),
    }
}

/// Adds the events of traces between bars.
fn add_all(builder: &mut Builder, log: &str) -> Result<(), AllocError> {
    let mut trace: u32 = 0;
    for events in log.split('|') {
        trace = trace.wrapping_add(1);
        for word in events.split(' ') {
            add(builder, trace, word)?;
        }
    }
    Ok(())
}

/// The traces of a log, between bars.
pub fn traces_of(alloc: Global, log: &str) -> Result<TraceSet, AllocError> {
    let mut builder = Builder::new(alloc);
    add_all(&mut builder, log).and(builder.finish())
}

/// The number after each event of a log.
pub fn numbers_of(alloc: Global, log: &str) -> Result<Vec<u32>, AllocError> {
    log.split(['|', ' '])
        .filter(|word| !word.is_empty())
        .map(|word| number(halves(word, '@').1))
        .collect(alloc)
}

/// Appends an invariant to the text.
fn put_invariant(out: &mut String, inv: &Invariant) -> Result<(), AllocError> {
    write!(out, " {:?}({},{})", inv.kind, inv.a, inv.b)
}

/// Appends how many invariants there are, and the first of them, to the text.
fn put(out: &mut String, mined: &[Invariant]) -> Result<(), AllocError> {
    write!(out, "{}:", mined.len())?;
    for inv in mined.iter().take(SHOWN) {
        put_invariant(out, inv)?;
    }
    Ok(())
}

/// Appends two lists to the text. The second is not shown if it equals the first.
fn put_two(out: &mut String, first: &[Invariant], second: &[Invariant]) -> Result<(), AllocError> {
    put(out, first).and(out.push('\n'))?;
    if first == second {
        return out.push_str("the same");
    }
    put(out, second)
}

/// `mine KINDS|TRACE|TRACE..`: what each of the two miners finds.
pub fn mined(alloc: Global, words: &str, out: &mut String) -> Result<(), AllocError> {
    let (number_of_kinds, log) = halves(words, '|');
    let kinds = kinds(number_of_kinds);
    let traces = traces_of(alloc, log)?;
    let mined = both(
        mine(alloc, kinds, &traces),
        mine_again(alloc, kinds, &traces),
    );
    drop(traces);
    let (counted, struck) = mined?;
    put_two(out, counted.as_slice(), struck.as_slice())
}
