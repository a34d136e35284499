//! The stage of the log.
ghost use Rattle.std.specs.Prelude.{◌≡◌, ◌<◌, ◌≤◌, ◌+◌, ◌^◌, Err, IfOk, IfErr, OnOk, length, option_map};
ghost use Rattle.outside.specs.Inputs.{Stays};
ghost use Rattle.outside.specs.Turns.{OpensFirst};
ghost use Rattle.line_rules.specs.Views.{rules_in};
ghost use Rattle.log_reader.specs.Inputs.{HasReadCause, ReadsLog, inputs_of};
ghost use Rattle.log_reader.specs.Views.{form_view};
ghost use Rattle.command_line.specs.Task.{task_held};
ghost use Rattle.synoptic_cli.specs.Task.{input_names, log_stages, version_of};
ghost use Rattle.synoptic_cli.specs.Halts.{LogHalts, Reads, form_with, held_form, setting_of};

use crate::stages::SoFar;
use crate::task::names_of;
use command_line::Task;
use line_rules::LineRules;
use log_reader::{ReadError, alike_rules_read_alike, read_log};
use outside::Inputs;
use std::alloc::Global;
use traces::TraceSet;

/// What decides the lines: the rules that were read, if there are any, otherwise the plain form.
fn form_of(rules: &Option<LineRules>) -> log_reader::Form<'_>
    ensures { form_view result ≡ form_with (option_map rules_in rules.now) }
{
    match rules {
        Some(rules) => log_reader::Form::Rules(rules),
        None => log_reader::Form::Plain,
    }
}

/// Reads the log in the task's files, whose lines these rules decide.
fn read_files<I: Inputs>(
    alloc: Global,
    task: &Task<'_>,
    rules: &Option<LineRules>,
    inputs: &mut I,
) -> Result<TraceSet, ReadError>
    requires few { length (task_held task.now).files < 2 ^ 32 }
    ensures stays { Stays (I.state inputs.old) (I.state inputs.new) }

    // The log that is read, and the cause of each error.
    ensures ok { IfOk result
        (ReadsLog (setting_of (task_held task.now) (form_with (option_map rules_in rules.now)))
        (inputs_of (task_held task.now).files) (I.state inputs.old) (I.state inputs.new)) }
    ensures err { IfErr result
        (HasReadCause (setting_of (task_held task.now) (form_with (option_map rules_in rules.now)))
        (inputs_of (task_held task.now).files) (I.state inputs.old) (I.state inputs.new)) }

    // Running out of memory hides no fault, and no more inputs are opened than there are files.
    ensures memory { result ≡ Err ReadError.Memory
        → (I.state inputs.new).faults ≡ (I.state inputs.old).faults }
    ensures opens { (I.state inputs.new).opens
        ≤ (I.state inputs.old).opens + length (inputs_of (task_held task.now).files) }
    ensures turn { OpensFirst (inputs_of (task_held task.now).files)
        (I.state inputs.old) (I.state inputs.new) }
{
    let Ok(names) = names_of(alloc, task) else {
        return Err(ReadError::Memory);
    };
    read_log(
        alloc,
        inputs,
        &names,
        form_of(rules),
        task.ignore,
        task.join,
    )
}

/// The stage of the log: reads its files, if the task reads a log.
pub fn read_log_stage<I: Inputs>(
    alloc: Global,
    task: &Task<'_>,
    so_far: &mut SoFar,
    inputs: &mut I,
) -> Result<(), ReadError>
    requires few { length (task_held task.now).files < 2 ^ 32 }
    ensures stays { Stays (I.state inputs.old) (I.state inputs.new) }

    // What is read if the run goes on, and why it ends otherwise.
    ensures ok { OnOk result
        (Reads (version_of (task_held task.now).command)
        (log_stages (task_held task.now)) so_far.old
        (I.state inputs.old) (I.state inputs.new) so_far.new) }
    ensures err { IfErr result
        (LogHalts (task_held task.now) (held_form so_far.old)
        (I.state inputs.old) (I.state inputs.new)) }

    // Running out of memory hides no fault.
    ensures memory { result ≡ Err ReadError.Memory
        → (I.state inputs.new).faults ≡ (I.state inputs.old).faults }
    ensures turn { OpensFirst (input_names (log_stages (task_held task.now)))
        (I.state inputs.old) (I.state inputs.new) }
{
    alike_rules_read_alike();
    let Some(_) = task.form else {
        return Ok(());
    };
    match read_files(alloc, task, &so_far.rules, inputs) {
        Ok(log) => {
            so_far.material.log = log;
            Ok(())
        }
        Err(error) => Err(error),
    }
}
