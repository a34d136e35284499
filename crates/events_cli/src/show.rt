//! Reads a log, and returns what is to be written for it.
ghost use Rattle.std.specs.Prelude.{◌≡◌, ◌<◌, ◌≤◌, ◌+◌, ◌^◌, true, false, Err, IfOk, IfErr, length, map, option_map};
ghost use Rattle.std.specs.String.{string_bytes};
ghost use Rattle.outside.specs.Inputs.{Stays};
ghost use Rattle.outside.specs.Turns.{OpensFirst};
ghost use Rattle.line_rules.specs.Views.{rules_in};
ghost use Rattle.log_reader.specs.Inputs.{inputs_of};
ghost use Rattle.command_line.specs.Task.{task_held};
ghost use Rattle.events.specs.Undecided.{shown_lines};
ghost use Rattle.synoptic_cli.specs.Halts.{form_with};
ghost use Rattle.events_cli.specs.Answers.{answer, events_answer, plain_answer, undecided_answer};
ghost use Rattle.events_cli.specs.Plain.{first_fault};
ghost use Rattle.events_cli.specs.Texts.{event_report, plain_log};
ghost use Rattle.events_cli.specs.Steps.{HasHaltCause, ReadsAnswer};
ghost use Rattle.events_cli.specs.Words.{fits, lists_undecided};

use crate::answer::{Answer, Halt};
use crate::ending::Ending;
use crate::event_text::event_report;
use crate::mode::{Mode, lists_undecided};
use crate::plain::{first_fault, plain_log};
use crate::rules::form_of;
use crate::undecided_text::undecided_report;
use command_line::Task;
use events::{Events, UndecidedLine, read_events, read_undecided};
use invariants::Seq;
use line_rules::LineRules;
use log_reader::ReadError;
use outside::Inputs;
use std::alloc::{AllocError, Global};
use synoptic_cli::names_of;

/// The answer with these events, in this order.
fn report(alloc: Global, task: &Task<'_>, events: &Events) -> Result<Answer, AllocError>
    ensures { IfOk result (λ a. a ≡ answer Ending.Done
        (event_report (task_held task.now) events.now.traces events.now.located.items)) }
{
    let text = event_report(alloc, task, &events.traces, &events.located)?;
    Ok(Answer {
        ending: Ending::Done,
        text,
    })
}

/// The answer with the log in the plain form, or the first event that the plain form cannot have.
fn plain(alloc: Global, events: &Events) -> Result<Answer, AllocError>
    ensures { IfOk result (λ a. a ≡ plain_answer
        (first_fault events.now.traces.types events.now.located.items)
        (plain_log events.now.traces.types events.now.located.items)) }
{
    if let Some(fault) = first_fault(alloc, &events.traces, &events.located)? {
        return Ok(Answer {
            ending: Ending::NoPlain(fault),
            text: Seq::from_vec(Vec::new(alloc)),
        });
    }
    let text = plain_log(alloc, &events.traces, &events.located)?;
    Ok(Answer {
        ending: Ending::Done,
        text,
    })
}

/// What is written for the events of a log.
fn events_answer(
    alloc: Global,
    mode: Mode,
    task: &Task<'_>,
    events: &mut Events,
) -> Result<Answer, AllocError>
    ensures { IfOk result (λ a. a ≡ events_answer mode (task_held task.now)
        events.old.traces events.old.located.items) }
{
    match mode {
        Mode::InOrder => report(alloc, task, events),
        Mode::Plain => plain(alloc, events),
        _ => {
            events.order_by_traces()?;
            report(alloc, task, events)
        }
    }
}

/// What is written for the lines that no rule decides.
fn undecided_answer(
    alloc: Global,
    task: &Task<'_>,
    lines: &[UndecidedLine],
) -> Result<Answer, AllocError>
    ensures { IfOk result (λ a. a ≡ undecided_answer (task_held task.now) (shown_lines lines.now)) }
{
    let text = undecided_report(alloc, task, lines)?;
    Ok(Answer {
        ending: Ending::Undecided(lines.len() as u64),
        text,
    })
}

/// Reads the log, and returns what is to be written for its events.
fn show_events<I: Inputs>(
    alloc: Global,
    mode: Mode,
    task: &Task<'_>,
    rules: &Option<LineRules>,
    names: &[String],
    inputs: &mut I,
) -> Result<Answer, Halt>
    requires events { lists_undecided mode ≡ false }
    requires names { map string_bytes names.now ≡ (task_held task.now).files }
    requires few { length names.now < 2 ^ 32 }
    ensures stays { Stays (I.state inputs.old) (I.state inputs.new) }

    // What is to be written, or why there is nothing.
    ensures ok { IfOk result (ReadsAnswer mode (task_held task.now)
        (form_with (option_map rules_in rules.now)) (I.state inputs.old) (I.state inputs.new)) }
    ensures err { IfErr result (HasHaltCause (task_held task.now)
        (form_with (option_map rules_in rules.now)) (I.state inputs.old) (I.state inputs.new)) }

    // Running out of memory hides no fault, and which inputs are opened.
    ensures memory { result ≡ Err (Halt.Read ReadError.Memory)
        → (I.state inputs.new).faults ≡ (I.state inputs.old).faults }
    ensures opens { (I.state inputs.new).opens
        ≤ (I.state inputs.old).opens + length (inputs_of (task_held task.now).files) }
    ensures turn { OpensFirst (inputs_of (task_held task.now).files)
        (I.state inputs.old) (I.state inputs.new) }
{
    let form = form_of(rules);
    let mut events = match read_events(alloc, inputs, names, form, task.ignore, task.join) {
        Ok(events) => events,
        Err(error) => return Err(Halt::Read(error)),
    };
    match events_answer(alloc, mode, task, &mut events) {
        Ok(answer) => Ok(answer),
        Err(_) => Err(Halt::Memory),
    }
}

/// Reads the log, and returns what is to be written for the lines that no rule decides.
fn show_undecided<I: Inputs>(
    alloc: Global,
    mode: Mode,
    task: &Task<'_>,
    rules: &Option<LineRules>,
    names: &[String],
    inputs: &mut I,
) -> Result<Answer, Halt>
    requires lists { lists_undecided mode ≡ true }
    requires skips { (task_held task.now).ignore ≡ true }
    requires names { map string_bytes names.now ≡ (task_held task.now).files }
    requires few { length names.now < 2 ^ 32 }
    ensures stays { Stays (I.state inputs.old) (I.state inputs.new) }

    // What is to be written, or why there is nothing.
    ensures ok { IfOk result (ReadsAnswer mode (task_held task.now)
        (form_with (option_map rules_in rules.now)) (I.state inputs.old) (I.state inputs.new)) }
    ensures err { IfErr result (HasHaltCause (task_held task.now)
        (form_with (option_map rules_in rules.now)) (I.state inputs.old) (I.state inputs.new)) }

    // Running out of memory hides no fault, and which inputs are opened.
    ensures memory { result ≡ Err (Halt.Read ReadError.Memory)
        → (I.state inputs.new).faults ≡ (I.state inputs.old).faults }
    ensures opens { (I.state inputs.new).opens
        ≤ (I.state inputs.old).opens + length (inputs_of (task_held task.now).files) }
    ensures turn { OpensFirst (inputs_of (task_held task.now).files)
        (I.state inputs.old) (I.state inputs.new) }
{
    let form = form_of(rules);
    let lines = match read_undecided(alloc, inputs, names, form, task.join) {
        Ok(lines) => lines,
        Err(error) => return Err(Halt::Read(error)),
    };
    match undecided_answer(alloc, task, &lines) {
        Ok(answer) => Ok(answer),
        Err(_) => Err(Halt::Memory),
    }
}

/// Reads the log of a task that fits the mode, whose lines these rules decide, and returns what is to be written.
pub fn show<I: Inputs>(
    alloc: Global,
    mode: Mode,
    task: &Task<'_>,
    rules: &Option<LineRules>,
    inputs: &mut I,
) -> Result<Answer, Halt>
    requires fits { fits mode (task_held task.now) ≡ true }
    requires few { length (task_held task.now).files < 2 ^ 32 }
    ensures stays { Stays (I.state inputs.old) (I.state inputs.new) }

    // What is to be written, or why there is nothing.
    ensures ok { IfOk result (ReadsAnswer mode (task_held task.now)
        (form_with (option_map rules_in rules.now)) (I.state inputs.old) (I.state inputs.new)) }
    ensures err { IfErr result (HasHaltCause (task_held task.now)
        (form_with (option_map rules_in rules.now)) (I.state inputs.old) (I.state inputs.new)) }

    // Running out of memory hides no fault, and which inputs are opened.
    ensures memory { result ≡ Err (Halt.Read ReadError.Memory)
        → (I.state inputs.new).faults ≡ (I.state inputs.old).faults }
    ensures opens { (I.state inputs.new).opens
        ≤ (I.state inputs.old).opens + length (inputs_of (task_held task.now).files) }
    ensures turn { OpensFirst (inputs_of (task_held task.now).files)
        (I.state inputs.old) (I.state inputs.new) }
{
    let Ok(names) = names_of(alloc, task) else {
        return Err(Halt::Read(ReadError::Memory));
    };
    if lists_undecided(mode) {
        return show_undecided(alloc, mode, task, rules, &names, inputs);
    }
    show_events(alloc, mode, task, rules, &names, inputs)
}
