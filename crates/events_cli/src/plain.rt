//! The plain form of a log, and which logs have one.
ghost use Rattle.std.specs.Prelude.{◌≡◌, ◌==◌, ◌++◌, ℕ, IfOk, OnOk, get_or, if◌then◌else◌};
ghost use Rattle.events_cli.specs.Plain.{first_fault, is_plain_type};
ghost use Rattle.events_cli.specs.Texts.{plain_line, plain_log, type_text};

use crate::ending::PlainFault;
use events::Located;
use invariants::Seq;
use limits::FIRST_TYPE;
use reports::push_number;
use std::alloc::{AllocError, Global};
use traces::TraceSet;

/// The text of the type with this number.
fn type_text(traces: &TraceSet, number: u16) -> &str
    ensures { result.now ≡ type_text (traces.now).types number }
{
    let place = u32::from(number).saturating_sub(FIRST_TYPE);
    match traces.types().as_slice().get(place as usize) {
        Some(text) => text.as_str(),
        None => "",
    }
}

/// Whether a line in the plain form can have this type.
fn is_plain_type(text: &[u8]) -> bool
    ensures { result ≡ is_plain_type text.now }
{
    !text.contains(&b'\n') && text.last() != Some(&b'\r')
}

/// The time that is noted for the trace with this number; 0 if none is.
fn latest_of(latest: &[u128], trace: u32) -> u128
    ensures { result ≡ get_or latest.now trace 0 }
{
    match latest.get(trace as usize) {
        Some(time) => *time,
        None => 0,
    }
}

/// Notes a time for the trace with this number.
fn put_latest(latest: &mut Vec<u128>, trace: u32, time: u128) -> Result<(), AllocError>
    ensures { OnOk result ((k : ℕ) → get_or latest.new.items k 0
        ≡ (if k == trace then time else get_or latest.old.items k 0)) }
{
    let place = trace as usize;
    'room: while latest.len() <= place {
        latest.push(0)?;
    }
    latest[place] = time;
    Ok(())
}

/// The first of these events that the plain form cannot have: its type cannot be that of a line, or its time is before that of
/// an earlier event of its trace.
pub fn first_fault(
    alloc: Global,
    traces: &TraceSet,
    events: &[Located],
) -> Result<Option<PlainFault>, AllocError>
    ensures { IfOk result (λ fault. fault ≡ first_fault (traces.now).types events.now) }
{
    let mut latest = Vec::new(alloc);
    for event in events {
        if !is_plain_type(type_text(traces, event.number).as_bytes()) {
            return Ok(Some(PlainFault::Kind(event.at)));
        }
        if event.time < latest_of(&latest, event.trace) {
            return Ok(Some(PlainFault::Time(event.at)));
        }
        put_latest(&mut latest, event.trace, event.time)?;
    }
    Ok(None)
}

/// Appends the line of an event in the plain form.
fn push_plain(all: &mut Vec<u8>, traces: &TraceSet, event: &Located) -> Result<(), AllocError>
    ensures { OnOk result (all.new.items ≡ all.old.items ++ plain_line (traces.now).types event.now) }
{
    push_number(all, event.trace)?;
    all.extend_from_slice(b" ")?;
    all.extend_from_slice(type_text(traces, event.number).as_bytes())?;
    all.extend_from_slice(b"\n")
}

/// A line in the plain form for each of the events, in this order.
pub fn plain_log(
    alloc: Global,
    traces: &TraceSet,
    events: &[Located],
) -> Result<Seq<u8>, AllocError>
    ensures { IfOk result (λ text. text ≡ plain_log (traces.now).types events.now) }
{
    let mut all = Vec::new(alloc);
    for event in events {
        push_plain(&mut all, traces, event)?;
    }
    Ok(Seq::from_vec(all))
}
