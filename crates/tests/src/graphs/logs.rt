//! Logs: traces separated by bars, each of types separated by spaces. `k:a` is an event of the trace with the key `k`, and
//! `3*a` are three events.
use limits::{MAX_TRACE_BYTES, MAX_TYPE_BYTES};
use std::alloc::{AllocError, Global};
use trace_builder::Builder;
use traces::TraceSet;

/// Adds an event. An impossible one is left out.
fn add_event(builder: &mut Builder, number: u32, event: &str) {
    let (key, type_text) = event.split_once(':').unwrap_or(("", event));
    if key.len() <= MAX_TRACE_BYTES && !type_text.is_empty() && type_text.len() <= MAX_TYPE_BYTES {
        let _ = builder.add(number, 0, key, type_text, 0);
    }
}

/// Adds an event a number of times.
fn add_events(builder: &mut Builder, number: u32, events: &str) {
    let (count, event) = events.split_once('*').unwrap_or(("1", events));
    for _ in 0..count.parse().unwrap_or(0u32) {
        add_event(builder, number, event);
    }
}

/// Adds the events of a trace.
fn add_trace(builder: &mut Builder, number: u32, trace: &str) {
    for events in trace.split_whitespace() {
        add_events(builder, number, events);
    }
}

/// Adds all traces.
fn add_traces(builder: &mut Builder, traces: &str) {
    let mut number = 0u32;
    for trace in traces.split('|') {
        add_trace(builder, number, trace);
        number = number.wrapping_add(1);
    }
}

/// The log of these traces.
pub fn log_of(alloc: Global, traces: &str) -> Result<TraceSet, AllocError> {
    let mut builder = Builder::new(alloc);
    add_traces(&mut builder, traces);
    builder.finish()
}
