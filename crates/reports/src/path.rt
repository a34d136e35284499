//! The text of the paths that traces take.
ghost use Rattle.std.specs.Prelude.{◌≡◌, ◌++◌, OnOk, IfOk, flat_map, length};
ghost use Rattle.std.specs.List.{zip};
ghost use Rattle.traces.specs.Words.{event_count_of};
ghost use Rattle.reports.specs.Paths.{path_line, path_report, shown, step_text};

use crate::name::Names;
use crate::number::push_number;
use crate::steps::Steps;
use crate::taken::{TakenPath, taken_paths};
use invariants::Seq;
use std::alloc::{AllocError, Global};
use traces::TraceSet;

/// The room for the text of an event: a name of ten bytes and an id of three digits with what stands around them.
const EVENT_ROOM: usize = 17;

/// The room for the rest of a line.
const LINE_ROOM: usize = 32;

/// Appends the events with these type numbers and ids to the text.
fn push_steps(
    text: &mut Vec<u8>,
    steps: &mut Steps<'_>,
    numbers: &[u16],
    ids: &[u32],
) -> Result<(), AllocError>
    ensures same { steps.new ≡ steps.old }
    ensures text { OnOk result (text.new.items
        ≡ text.old.items ++ flat_map (step_text steps.old) (zip numbers.now ids.now)) }
{
    let count = numbers.len().min(ids.len());
    let mut i = 0;
    while i < count {
        steps.push_step(text, numbers[i], ids[i])?;
        i += 1;
    }
    Ok(())
}

/// Appends the line of a path to the text.
fn push_line(
    text: &mut Vec<u8>,
    steps: &mut Steps<'_>,
    taken: &TakenPath<'_>,
) -> Result<(), AllocError>
    ensures same { steps.new ≡ steps.old }
    ensures text { OnOk result (text.new.items
        ≡ text.old.items ++ path_line steps.old (shown taken.now)) }
{
    push_number(text, taken.count)?;
    text.extend_from_slice(b": INITIAL")?;
    push_steps(text, steps, taken.types, taken.ids)?;
    text.extend_from_slice(b" TERMINAL\n")?;
    Ok(())
}

/// How many bytes of room the lines of the paths get at once: more than most need. Room that is never written takes no memory,
/// and a text that outgrows its room is copied.
fn room_for(paths: &[TakenPath<'_>]) -> usize {
    let mut events = 0usize;
    for path in paths {
        events = events.saturating_add(path.ids.len());
    }
    events
        .saturating_mul(EVENT_ROOM)
        .saturating_add(paths.len().saturating_mul(LINE_ROOM))
}

/// The text of the paths that the traces take through partitions, one per line in the order first met, for example `3: INITIAL
/// "a"@2 "b"@3 TERMINAL`. A line has the number of traces that take the path, and for each of its events the text of the type
/// as a JSON string and the id of the partition.
///
/// `parts` has the id of each event, trace after trace. Two traces take the same path if they have the same list of ids. The
/// types shown are those of the first trace that takes the path. In a graph the events of one partition have one type, so these
/// are the types of the partitions. Each line ends with byte 10, and if there are no traces the text is empty.
///
/// The only error is out of memory.
pub fn path_report(alloc: Global, traces: &TraceSet, parts: &[u32]) -> Result<Seq<u8>, AllocError>
    requires { length parts.now ≡ event_count_of (traces.now).traces }
    ensures { IfOk result (λ text. text ≡ path_report traces.now parts.now) }
{
    let paths = taken_paths(alloc, traces, parts)?;
    let names = Names::make(alloc, traces.types())?;
    let mut steps = Steps::make(alloc, names)?;
    let mut text = Vec::with_capacity(alloc, room_for(paths.as_slice()))?;
    for path in &paths {
        push_line(&mut text, &mut steps, path)?;
    }
    Ok(Seq::from_vec(text))
}
