//! Reads what a task works on, stage by stage.
ghost use Rattle.std.specs.Prelude.{◌≡◌, ◌<◌, ◌^◌, Err, IfOk, IfErr, OnOk, length};
ghost use Rattle.std.specs.Option.{IsSomeAnd};
ghost use Rattle.outside.specs.Inputs.{Stays};
ghost use Rattle.outside.specs.Turns.{OpensFirst};
ghost use Rattle.line_rules.specs.Patterns.{Stays as PatternsStay};
ghost use Rattle.command_line.specs.Task.{task_held};
ghost use Rattle.synoptic_cli.specs.Causes.{KeepsCounts};
ghost use Rattle.synoptic_cli.specs.Task.{input_names, model_stages, rules_stages, stages_of, version_of};
ghost use Rattle.synoptic_cli.specs.Stages.{at_start};
ghost use Rattle.synoptic_cli.specs.Halts.{Ends, IsHeld, ModelHalts, Reads, ReadsTask};

mod beginning;
mod log_stage;

use crate::material::Material;
use crate::model_stage::{ModelHalt, halt_status, read_model_file};
use crate::reading::{read_rules, status_of};
use crate::stages::beginning::start;
use crate::stages::log_stage::read_log_stage;
use crate::status::Status;
use crate::task::{rules_name, version_of};
use command_line::Task;
use line_rules::{LineRules, Patterns};
use log_reader::alike_rules_read_alike;
use outside::Inputs;
use std::alloc::Global;

/// What the stages have read so far.
#[derive(Drop)]
pub struct SoFar {
    /// The rules that decide the lines of the log; `None` if lines are in the plain form.
    pub rules: Option<LineRules>,
    /// What the command works on.
    pub material: Material,
}

/// The stage of the rules: reads the rules file, if the task has one.
fn read_rules_stage<I: Inputs, P: Patterns>(
    alloc: Global,
    task: &Task<'_>,
    so_far: &mut SoFar,
    inputs: &mut I,
    patterns: &mut P,
) -> Result<(), Status>
    ensures stays { Stays (I.state inputs.old) (I.state inputs.new) }
    ensures kept { PatternsStay (P.state patterns.old) (P.state patterns.new) }

    // Which counts of faults and refused patterns stay.
    ensures memory { result ≡ Err Status.Memory
        → (I.state inputs.new).faults ≡ (I.state inputs.old).faults }
    ensures count { KeepsCounts result (P.state patterns.old) (P.state patterns.new) }

    // What is read if the run goes on, and why it ends otherwise.
    ensures ok { OnOk result
        (Reads (version_of (task_held task.now).command)
        (rules_stages (task_held task.now)) so_far.old
        (I.state inputs.old) (I.state inputs.new) so_far.new) }
    ensures err { IfErr result (λ status.
        Ends status (task_held task.now) (I.state inputs.old) (I.state inputs.new)
        (P.state patterns.old) (P.state patterns.new)) }
    ensures turn { OpensFirst (input_names (rules_stages (task_held task.now)))
        (I.state inputs.old) (I.state inputs.new) }
{
    let Some(name) = rules_name(task.form) else {
        return Ok(());
    };
    match read_rules(alloc, name, inputs, patterns) {
        Ok(rules) => {
            so_far.rules = Some(rules);
            Ok(())
        }
        Err(status) => Err(status),
    }
}

/// The stage of the model: reads the model file, if the task has one, in the version that the command reads.
fn read_model_stage<I: Inputs>(
    alloc: Global,
    task: &Task<'_>,
    so_far: &mut SoFar,
    inputs: &mut I,
) -> Result<(), ModelHalt>
    ensures stays { Stays (I.state inputs.old) (I.state inputs.new) }

    // What is read if the run goes on, and why it ends otherwise.
    ensures ok { OnOk result
        (Reads (version_of (task_held task.now).command)
        (model_stages (task_held task.now)) so_far.old
        (I.state inputs.old) (I.state inputs.new) so_far.new) }
    ensures err { IfErr result (λ halt. IsSomeAnd (task_held task.now).model
        (λ name. ModelHalts (version_of (task_held task.now).command)
        (I.state inputs.old) (I.state inputs.new) name halt)) }

    // Running out of memory hides no fault.
    ensures memory { result ≡ Err ModelHalt.Memory
        → (I.state inputs.new).faults ≡ (I.state inputs.old).faults }
    ensures turn { OpensFirst (input_names (model_stages (task_held task.now)))
        (I.state inputs.old) (I.state inputs.new) }
{
    let Some(name) = task.model else {
        return Ok(());
    };
    match read_model_file(alloc, version_of(task.command), name, inputs) {
        Ok(model) => {
            so_far.material.model = model;
            Ok(())
        }
        Err(halt) => Err(halt),
    }
}

/// Reads the inputs of the task, stage by stage, starting from `start`.
fn read_stages<I: Inputs, P: Patterns>(
    alloc: Global,
    task: &Task<'_>,
    so_far: &mut SoFar,
    inputs: &mut I,
    patterns: &mut P,
) -> Result<(), Status>
    requires start { IsHeld (version_of (task_held task.now).command) so_far.old at_start }
    requires few { length (task_held task.now).files < 2 ^ 32 }
    ensures stays { Stays (I.state inputs.old) (I.state inputs.new) }
    ensures kept { PatternsStay (P.state patterns.old) (P.state patterns.new) }

    // Which counts of faults and refused patterns stay.
    ensures memory { result ≡ Err Status.Memory
        → (I.state inputs.new).faults ≡ (I.state inputs.old).faults }
    ensures count { KeepsCounts result (P.state patterns.old) (P.state patterns.new) }

    // What is read for the command, and why the run ends before it.
    ensures ok { OnOk result (ReadsTask (task_held task.now)
        (I.state inputs.old) (I.state inputs.new) (so_far.new).material) }
    ensures err { IfErr result (λ status.
        Ends status (task_held task.now) (I.state inputs.old) (I.state inputs.new)
        (P.state patterns.old) (P.state patterns.new)) }
    ensures turn { OpensFirst (input_names (stages_of (task_held task.now)))
        (I.state inputs.old) (I.state inputs.new) }
{
    alike_rules_read_alike();
    match read_rules_stage(alloc, task, so_far, inputs, patterns) {
        Ok(()) => (),
        Err(status) => return Err(status),
    }
    match read_model_stage(alloc, task, so_far, inputs) {
        Ok(()) => (),
        Err(halt) => return Err(halt_status(halt)),
    }
    match read_log_stage(alloc, task, so_far, inputs) {
        Ok(()) => Ok(()),
        Err(error) => Err(status_of(error)),
    }
}

/// Reads from the inputs what the task's command works on.
pub fn read_material<I: Inputs, P: Patterns>(
    alloc: Global,
    task: &Task<'_>,
    inputs: &mut I,
    patterns: &mut P,
) -> Result<Material, Status>
    requires few { length (task_held task.now).files < 2 ^ 32 }
    ensures stays { Stays (I.state inputs.old) (I.state inputs.new) }
    ensures kept { PatternsStay (P.state patterns.old) (P.state patterns.new) }

    // Which counts of faults and refused patterns stay.
    ensures memory { result ≡ Err Status.Memory
        → (I.state inputs.new).faults ≡ (I.state inputs.old).faults }
    ensures count { KeepsCounts result (P.state patterns.old) (P.state patterns.new) }

    // What is read for the command, and why the run ends before it.
    ensures ok { IfOk result
        (ReadsTask (task_held task.now) (I.state inputs.old) (I.state inputs.new)) }
    ensures err { IfErr result (λ status.
        Ends status (task_held task.now) (I.state inputs.old) (I.state inputs.new)
        (P.state patterns.old) (P.state patterns.new)) }
    ensures turn { OpensFirst (input_names (stages_of (task_held task.now)))
        (I.state inputs.old) (I.state inputs.new) }
{
    let Ok(mut so_far) = start(alloc) else {
        return Err(Status::Memory);
    };
    match read_stages(alloc, task, &mut so_far, inputs, patterns) {
        Ok(()) => Ok(so_far.material),
        Err(status) => {
            drop(so_far);
            Err(status)
        }
    }
}
