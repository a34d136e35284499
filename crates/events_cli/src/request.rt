//! The task that the arguments ask for.
ghost use Rattle.std.specs.Prelude.{◌≡◌, ◌<◌, ◌^◌, [], ◌∷◌, ◌++◌, true, IfOk, OnOk, Err, Some, None, codes, length, map, not, if◌then◌else◌};
ghost use Rattle.std.specs.String.{string_bytes};
ghost use Rattle.command_line.specs.Task.{task_held, task_of};
ghost use Rattle.events_cli.specs.Words.{fits, fitting, given_words, graph_words, skips};

use crate::mode::{Mode, lists_undecided, mode_of, others};
use command_line::{ParseError, Task, parse};
use std::alloc::{AllocError, Global};

/// What the arguments ask for.
#[derive(Clone, Copy)]
pub struct Asked<'a> {
    /// What is to be written for the log.
    pub mode: Mode,
    /// The arguments that `synoptic` would be given.
    pub given: &'a [String],
}

/// Appends copies of the arguments.
fn push_words(alloc: Global, all: &mut Vec<String>, words: &[String]) -> Result<(), AllocError>
    ensures { OnOk result (map string_bytes all.new.items
        ≡ map string_bytes all.old.items ++ map string_bytes words.now) }
{
    for word in words {
        all.push(String::from_str(alloc, word.as_str())?)?;
    }
    Ok(())
}

/// Appends `-i`, if `skip` is true.
fn push_skip(alloc: Global, all: &mut Vec<String>, skip: bool) -> Result<(), AllocError>
    ensures { OnOk result (map string_bytes all.new.items
        ≡ map string_bytes all.old.items ++ (if skip then codes "-i" ∷ [] else [])) }
{
    if !skip {
        return Ok(());
    }
    all.push(String::from_str(alloc, "-i")?)?;
    Ok(())
}

/// The arguments that ask for a graph: `graph`, `-i` if `skip` is true, and the others.
fn graph_words(alloc: Global, skip: bool, words: &[String]) -> Result<Vec<String>, AllocError>
    ensures { IfOk result (λ all. map string_bytes all.items ≡ graph_words
        (if skip then codes "-i" ∷ map string_bytes words.now else map string_bytes words.now)) }
{
    let mut all = Vec::new(alloc);
    all.push(String::from_str(alloc, "graph")?)?;
    push_skip(alloc, &mut all, skip)?;
    push_words(alloc, &mut all, words)?;
    Ok(all)
}

/// Whether these arguments give no task that skips lines.
fn lack_skip(alloc: Global, words: &[String]) -> Result<bool, AllocError>
    ensures { IfOk result (λ lack. lack ≡ not (skips (task_of (map string_bytes words.now)))) }
{
    match parse(alloc, words) {
        Ok(task) => Ok(!task.ignore),
        Err(ParseError::Usage) => Ok(true),
        Err(ParseError::Memory) => Err(AllocError),
    }
}

/// The arguments that `synoptic` would be given.
pub fn given_words(alloc: Global, words: &[String]) -> Result<Vec<String>, AllocError>
    ensures { IfOk result (λ all. map string_bytes all.items ≡ given_words (map string_bytes words.now)) }
{
    let rest = others(words);
    let plain = graph_words(alloc, false, rest)?;
    if !lists_undecided(mode_of(words)) {
        return Ok(plain);
    }
    if lack_skip(alloc, &plain)? {
        let with_skip = graph_words(alloc, true, rest)?;
        return Ok(with_skip);
    }
    Ok(plain)
}

/// Whether the task reads a log and no model, and skips lines that no rule decides if they are to be listed.
fn fits(mode: Mode, task: &Task<'_>) -> bool
    ensures { result ≡ fits mode (task_held task.now) }
{
    task.form.is_some() && task.model.is_none() && (mode != Mode::Undecided || task.ignore)
}

/// The task that these arguments ask for, which fits the mode.
///
/// - `Usage`: they ask for no task that fits the mode.
/// - `Memory`: memory ran out. No clause says when.
pub fn task_for<'a>(alloc: Global, mode: Mode, words: &'a [String]) -> Result<Task<'a>, ParseError>
    ensures task { IfOk result (λ t. task_of (map string_bytes words.entry.now) ≡ Some (task_held t)) }
    ensures fits { IfOk result (λ t. fits mode (task_held t) ≡ true) }
    ensures few { IfOk result (λ t. length (task_held t).files < 2 ^ 32) }
    ensures usage { result ≡ Err ParseError.Usage
        → fitting mode (task_of (map string_bytes words.entry.now)) ≡ None }
{
    match parse(alloc, words) {
        Ok(task) => {
            if fits(mode, &task) {
                return Ok(task);
            }
            drop(task);
            Err(ParseError::Usage)
        }
        Err(error) => Err(error),
    }
}
