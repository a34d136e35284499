//! The lines that no rule decides.
ghost use Rattle.std.specs.Prelude.{◌≡◌, ◌++◌, OnOk, IfOk};
ghost use Rattle.command_line.specs.Task.{task_held};
ghost use Rattle.events.specs.Undecided.{shown_lines};
ghost use Rattle.events_cli.specs.Texts.{undecided_line, undecided_report};

use crate::event_text::{push_place, push_quoted};
use command_line::Task;
use events::UndecidedLine;
use invariants::Seq;
use std::alloc::{AllocError, Global};

/// Appends the report of a line that no rule decides.
fn push_line(
    alloc: Global,
    all: &mut Vec<u8>,
    task: &Task<'_>,
    line: &UndecidedLine,
) -> Result<(), AllocError>
    ensures { OnOk result (all.new.items ≡ all.old.items
        ++ undecided_line (task_held task.now) (line.now.at, line.now.bytes.items)) }
{
    push_place(all, task, line.at)?;
    all.extend_from_slice(b"\t")?;
    let text = String::from_utf8_lossy(alloc, line.bytes.as_slice())?;
    push_quoted(alloc, all, text.as_str())?;
    all.extend_from_slice(b"\n")
}

/// The report of the lines that no rule decides, one line for each.
pub fn undecided_report(
    alloc: Global,
    task: &Task<'_>,
    lines: &[UndecidedLine],
) -> Result<Seq<u8>, AllocError>
    ensures { IfOk result (λ text. text
        ≡ undecided_report (task_held task.now) (shown_lines lines.now)) }
{
    let mut all = Vec::new(alloc);
    for line in lines {
        push_line(alloc, &mut all, task, line)?;
    }
    Ok(Seq::from_vec(all))
}
