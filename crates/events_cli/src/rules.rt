//! What decides the lines of a task's log.
ghost use Rattle.std.specs.Prelude.{◌≡◌, Err, IfOk, IfErr, option_map};
ghost use Rattle.outside.specs.Inputs.{Stays};
ghost use Rattle.outside.specs.Turns.{OpensFirst};
ghost use Rattle.line_rules.specs.Patterns.{Stays as PatternsStay};
ghost use Rattle.line_rules.specs.Views.{rules_in};
ghost use Rattle.log_reader.specs.Views.{form_view};
ghost use Rattle.command_line.specs.Task.{task_held};
ghost use Rattle.synoptic_cli.specs.Causes.{KeepsCounts};
ghost use Rattle.synoptic_cli.specs.Halts.{Ends, IsOfRules, form_with};
ghost use Rattle.synoptic_cli.specs.Task.{input_names, rules_stages};
ghost use Rattle.events_cli.specs.Steps.{ReadsForm};

use command_line::Task;
use line_rules::{LineRules, Patterns};
use log_reader::Form;
use outside::Inputs;
use std::alloc::Global;
use synoptic_cli::{Status, read_rules, rules_name};

/// Reads the task's rules file, if it has one. `None` stands for the plain form.
pub fn read_form<I: Inputs, P: Patterns>(
    alloc: Global,
    task: &Task<'_>,
    inputs: &mut I,
    patterns: &mut P,
) -> Result<Option<LineRules>, Status>
    ensures stays { Stays (I.state inputs.old) (I.state inputs.new) }
    ensures kept { PatternsStay (P.state patterns.old) (P.state patterns.new) }

    // Which counts of faults and refused patterns stay.
    ensures memory { result ≡ Err Status.Memory
        → (I.state inputs.new).faults ≡ (I.state inputs.old).faults }
    ensures count { KeepsCounts result (P.state patterns.old) (P.state patterns.new) }

    // The rules that are read, and why the run ends here.
    ensures ok { IfOk result (λ rules. ReadsForm (task_held task.now)
        (I.state inputs.old) (I.state inputs.new) (form_with (option_map rules_in rules))) }
    ensures err { IfErr result (λ status.
        Ends status (task_held task.now) (I.state inputs.old) (I.state inputs.new)
        (P.state patterns.old) (P.state patterns.new)) }
    ensures refused { IfErr result IsOfRules }
    ensures turn { OpensFirst (input_names (rules_stages (task_held task.now)))
        (I.state inputs.old) (I.state inputs.new) }
{
    let Some(name) = rules_name(task.form) else {
        return Ok(None);
    };
    match read_rules(alloc, name, inputs, patterns) {
        Ok(rules) => Ok(Some(rules)),
        Err(status) => Err(status),
    }
}

/// What decides the lines: the rules that were read, if there are any, otherwise the plain form.
pub fn form_of(rules: &Option<LineRules>) -> Form<'_>
    ensures { form_view result ≡ form_with (option_map rules_in rules.now) }
{
    match rules {
        Some(rules) => Form::Rules(rules),
        None => Form::Plain,
    }
}
