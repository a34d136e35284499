//! The lines of events.
ghost use Rattle.std.specs.Prelude.{◌≡◌, ◌++◌, OnOk, IfOk, drop};
ghost use Rattle.command_line.specs.Task.{task_held};
ghost use Rattle.events_cli.specs.Texts.{event_line, event_report, have_times, place_text, quoted, time_column, time_text, trace_name, what_part, where_part};

use command_line::Task;
use events::Located;
use invariants::Seq;
use itoa::Buffer;
use log_reader::At;
use reports::{Names, push_number};
use serde_json::Value;
use std::alloc::{AllocError, Global};
use std::str;
use synoptic_cli::{Source, shown_source};
use traces::TraceSet;

/// The number of parts of a time in one unit of the log.
const PARTS: u128 = 1_000_000_000;

/// A log whose events are reported: what all lines need.
#[derive(Clone, Copy)]
struct ReportedLog<'a, 't> {
    task: &'a Task<'t>,
    traces: &'a TraceSet,
    /// The names of the types of the log.
    names: &'a Names<'a>,
    /// Whether the lines have a column of times.
    timed: bool,
}

/// Appends the text as a JSON string.
pub fn push_quoted(alloc: Global, all: &mut Vec<u8>, text: &str) -> Result<(), AllocError>
    ensures { OnOk result (all.new.items ≡ all.old.items ++ quoted text.now) }
{
    let value = Value::try_from_str(alloc, text)?;
    let written = value.to_string(alloc)?;
    all.extend_from_slice(written.as_bytes())
}

/// Appends the place of a line: the name of its file and its number.
pub fn push_place(all: &mut Vec<u8>, task: &Task<'_>, at: At) -> Result<(), AllocError>
    ensures { OnOk result (all.new.items ≡ all.old.items ++ place_text (task_held task.now) at) }
{
    all.extend_from_slice(shown_source(Some(task), Source::Log(at.file)).as_bytes())?;
    all.extend_from_slice(b":")?;
    push_number(all, at.line)
}

/// Appends the name of the trace with this number as a JSON string, if there is one.
fn push_trace(alloc: Global, all: &mut Vec<u8>, traces: &TraceSet, k: u32) -> Result<(), AllocError>
    ensures { OnOk result (all.new.items ≡ all.old.items ++ trace_name (traces.now).traces k) }
{
    if k >= traces.trace_count() {
        return Ok(());
    }
    match str::from_utf8(traces.key(k).text) {
        Ok(text) => push_quoted(alloc, all, text),
        Err(_) => unreachable!(),
    }
}

/// The bytes without the first.
fn without_first(digits: &[u8]) -> &[u8]
    ensures { result.now ≡ drop 1 digits.now }
{
    if digits.is_empty() {
        return digits;
    }
    &digits[1..]
}

/// Appends a time, with nine decimal places.
fn push_time(all: &mut Vec<u8>, time: u128) -> Result<(), AllocError>
    ensures { OnOk result (all.new.items ≡ all.old.items ++ time_text time) }
{
    let mut digits = Buffer::new();
    all.extend_from_slice(digits.format(time / PARTS).as_bytes())?;
    all.extend_from_slice(b".")?;
    all.extend_from_slice(without_first(digits.format(PARTS + time % PARTS).as_bytes()))
}

/// Appends the column of the time, if the log has times.
fn push_time_column(all: &mut Vec<u8>, timed: bool, time: u128) -> Result<(), AllocError>
    ensures { OnOk result (all.new.items ≡ all.old.items ++ time_column timed time) }
{
    if !timed {
        return Ok(());
    }
    all.extend_from_slice(b"\t")?;
    push_time(all, time)
}

/// Appends the first columns of an event: the number of its trace and the place of its line.
fn push_where(all: &mut Vec<u8>, task: &Task<'_>, event: &Located) -> Result<(), AllocError>
    ensures { OnOk result (all.new.items
        ≡ all.old.items ++ where_part (task_held task.now) event.now) }
{
    push_number(all, event.trace)?;
    all.extend_from_slice(b"\t")?;
    push_place(all, task, event.at)?;
    all.extend_from_slice(b"\t")
}

/// Appends the other columns of an event: the names of its trace and its type, and its time.
fn push_what(
    alloc: Global,
    all: &mut Vec<u8>,
    log: &ReportedLog<'_, '_>,
    event: &Located,
) -> Result<(), AllocError>
    ensures { OnOk result (all.new.items ≡ all.old.items
        ++ what_part (log.now.traces.now).traces log.now.names.now log.now.timed event.now) }
{
    push_trace(alloc, all, log.traces, event.trace)?;
    all.extend_from_slice(b"\t")?;
    log.names.push_name(all, event.number)?;
    push_time_column(all, log.timed, event.time)?;
    all.extend_from_slice(b"\n")
}

/// Appends the line of an event.
fn push_event(
    alloc: Global,
    all: &mut Vec<u8>,
    log: &ReportedLog<'_, '_>,
    event: &Located,
) -> Result<(), AllocError>
    requires { log.now.names.now ≡ (log.now.traces.now).types }
    ensures { OnOk result (all.new.items ≡ all.old.items
        ++ event_line (task_held log.now.task.now) log.now.traces.now log.now.timed event.now) }
{
    push_where(all, log.task, event)?;
    push_what(alloc, all, log, event)?;
    Ok(())
}

/// Whether an event has a time other than 0.
fn have_times(events: &[Located]) -> bool
    ensures { result ≡ have_times events.now }
{
    events.iter().any(|event| event.time != 0)
}

/// A line for each of the events, in this order.
pub fn event_report(
    alloc: Global,
    task: &Task<'_>,
    traces: &TraceSet,
    events: &[Located],
) -> Result<Seq<u8>, AllocError>
    ensures { IfOk result (λ text. text ≡ event_report (task_held task.now) traces.now events.now) }
{
    let names = Names::make(alloc, traces.types())?;
    let log = ReportedLog {
        task,
        traces,
        names: &names,
        timed: have_times(events),
    };
    let mut all = Vec::new(alloc);
    for event in events {
        push_event(alloc, &mut all, &log, event)?;
    }
    Ok(Seq::from_vec(all))
}
