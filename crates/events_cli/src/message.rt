//! The messages for standard error.
ghost use Rattle.std.specs.Prelude.{option_map};
ghost use Rattle.command_line.specs.Task.{task_held};
ghost use Rattle.synoptic_cli.specs.Messages.{Tells, line_message};
ghost use Rattle.events_cli.specs.Messages.{count_message, plain_message, refusal_message, task_message_of};

use crate::ending::{Ending, PlainFault};
use command_line::Task;
use itoa::Buffer;
use log_reader::At;
use synoptic_cli::{ErrorStream, Source, Status, shown_source};

const USAGE: &str =
    "usage: synoptic-events [--in-order|--plain|--undecided] [-e FILE] [-p] [-i] [-j] [--] [FILE]...\n";

/// Writes one text.
fn tell_text<E: ErrorStream>(text: &str, err: &mut E)
    ensures { Tells text.now (E.heard err.old) (E.heard err.new) }
{
    err.put(&[text]);
}

/// Writes how many lines no rule decides.
fn tell_count<E: ErrorStream>(count: u64, err: &mut E)
    ensures { Tells (count_message count) (E.heard err.old) (E.heard err.new) }
{
    let mut digits = Buffer::new();
    err.put(&["synoptic: ", digits.format(count), " undecided\n"]);
}

/// Writes what is wrong with the event of a line.
fn tell_line<E: ErrorStream>(task: Option<&Task<'_>>, at: At, what: &str, err: &mut E)
    ensures { Tells (line_message (option_map (λ t. task_held t.now) task.entry) at what.now)
        (E.heard err.old) (E.heard err.new) }
{
    let name = shown_source(task, Source::Log(at.file));
    let mut digits = Buffer::new();
    let line = digits.format(at.line);
    err.put(&["synoptic: ", name, ":", line, ": ", what, "\n"]);
}

/// Writes why the log cannot be written in the plain form.
fn tell_plain_fault<E: ErrorStream>(task: Option<&Task<'_>>, fault: PlainFault, err: &mut E)
    ensures { Tells (plain_message (option_map (λ t. task_held t.now) task.entry) fault)
        (E.heard err.old) (E.heard err.new) }
{
    match fault {
        PlainFault::Kind(at) => tell_line(task, at, "no type of the plain form", err),
        PlainFault::Time(at) => tell_line(
            task,
            at,
            "time before that of an earlier line of its trace",
            err,
        ),
    }
}

/// Writes the message for a status of `synoptic`, with a usage line of its own.
fn tell_refusal<E: ErrorStream>(task: Option<&Task<'_>>, status: Status, err: &mut E)
    ensures { Tells (refusal_message (option_map (λ t. task_held t.now) task.entry) status)
        (E.heard err.old) (E.heard err.new) }
{
    match status {
        Status::Usage => tell_text(USAGE, err),
        other => synoptic_cli::tell(task, other, err),
    }
}

/// Writes the message of an ending to `err`, without allocating memory. `task` is the task of the run, if the arguments gave
/// one.
///
/// Either the whole message was appended and no fault counted, or a prefix of it was appended and a fault counted.
pub fn tell<E: ErrorStream>(task: Option<&Task<'_>>, ending: Ending, err: &mut E)
    ensures { Tells (task_message_of (option_map (λ t. task_held t.now) task.entry) ending)
        (E.heard err.old) (E.heard err.new) }
{
    match ending {
        Ending::Done => {}
        Ending::Undecided(count) => tell_count(count, err),
        Ending::NoPlain(fault) => tell_plain_fault(task, fault, err),
        Ending::WriteFault => tell_text("synoptic: cannot write\n", err),
        Ending::Refused(status) => tell_refusal(task, status, err),
    }
}
