//! The inputs of the task that the arguments ask for.
ghost use Rattle.std.specs.Prelude.{◌≡◌, ◌<◌, ◌^◌, IfOk, length, map, option_map, slice_get};
ghost use Rattle.std.specs.String.{string_bytes};
ghost use Rattle.log_reader.specs.Inputs.{inputs_of};
ghost use Rattle.command_line.specs.Task.{form_held, task_held};
ghost use Rattle.synoptic_cli.specs.Task.{kinds_of, rules_name, source_name, version_of};

use crate::status::Source;
use command_line::{Command, LineForm, Task};
use invariants::Kinds;
use model_file::Version;
use std::alloc::{AllocError, Global};

/// The name of the rules file, if lines are read by rules.
pub fn rules_name<'a>(form: Option<LineForm<'a>>) -> Option<&'a str>
    ensures { option_map (λ s. s.now) result ≡ rules_name (option_map form_held form.entry) }
{
    match form {
        None => None,
        Some(LineForm::Plain) => None,
        Some(LineForm::Rules(name)) => Some(name),
    }
}

/// The name of the log's input with this number. If there are no files, input 0 is standard input, with the empty name.
fn input_name<'a>(files: &[&'a str], number: u32) -> Option<&'a str>
    ensures { option_map (λ s. s.now) result
        ≡ slice_get (inputs_of (map (λ s. s.now) files.now)) number }
{
    if files.is_empty() && number == 0 {
        return Some("");
    }
    files.get(number as usize).copied()
}

/// The name of an input of a task. The empty name is standard input. `None` if the task has no such input.
pub fn source_name<'a>(task: &Task<'a>, source: Source) -> Option<&'a str>
    ensures { option_map (λ s. s.now) result ≡ source_name (task_held task.now) source }
{
    match source {
        Source::Expressions => rules_name(task.form),
        Source::ModelFile => task.model,
        Source::Log(number) => input_name(&task.files, number),
    }
}

/// The kinds of invariants that a task asks for.
pub fn kinds_of(task: &Task<'_>) -> Kinds
    ensures { result ≡ kinds_of (task_held task.now) }
{
    if task.interrupted {
        Kinds::Four
    } else {
        Kinds::Three
    }
}

/// The version of the model files that a command reads.
pub fn version_of(command: Command) -> Version
    ensures { result ≡ version_of command }
{
    match command {
        Command::Migrate => Version::One,
        _ => Version::Two,
    }
}

/// Copies of the names.
fn owned(alloc: Global, files: &[&str]) -> Result<Vec<String>, AllocError>
    ensures { IfOk result (λ names. map string_bytes names.items ≡ map (λ s. s.now) files.now) }
{
    let mut names = Vec::new(alloc);
    for file in files {
        names.push(String::from_str(alloc, file)?)?;
    }
    Ok(names)
}

/// The names of the log's files, fewer than 2^32, as its reader takes them.
pub fn names_of(alloc: Global, task: &Task<'_>) -> Result<Vec<String>, AllocError>
    requires { length (task_held task.now).files < 2 ^ 32 }
    ensures names { IfOk result (λ names.
        map string_bytes names.items ≡ (task_held task.now).files) }
    ensures few { IfOk result (λ names. length names.items < 2 ^ 32) }
{
    owned(alloc, &task.files)
}
