//! What the arguments ask for.
ghost use Rattle.std.specs.Prelude.{◌≡◌, ◌<◌, ◌^◌, IfOk, Err, Some, None, length, map, option_and_then, option_map, string_bytes};
ghost use Rattle.command_line.specs.Given.{given_held};
ghost use Rattle.command_line.specs.Numbers.{number_of};
ghost use Rattle.command_line.specs.Task.{HasSessions, allowed, form_by, form_held, task_held, task_of, task_of_use};

use crate::given::{Given, ParseError, read};
use crate::number::number_of;
use crate::table::{Command, Row, has_model, is_sound, passes, row_of};
use std::alloc::Global;

/// How the lines of a log are read.
#[derive(Clone, Copy, Debug, PartialEq, Eq)]
pub enum LineForm<'a> {
    /// As a trace's name, a space and a type (`-p`).
    Plain,
    /// By the rules of the file with this name, which is not empty (`-e`).
    Rules(&'a str),
}

/// What the arguments ask for.
#[derive(Debug, Drop)]
pub struct Task<'a> {
    /// What to do.
    pub command: Command,
    /// How the lines of the log are read; `None` if no log is read.
    pub form: Option<LineForm<'a>>,
    /// The name of the model file (`-m`), which is not empty; `None` if none is read.
    pub model: Option<&'a str>,
    /// Whether lines that no rule decides are skipped (`-i`).
    pub ignore: bool,
    /// Whether a trace may continue in the next file (`-j`).
    pub join: bool,
    /// The number (`-n`), from 1 to `MAX_SESSIONS`; `None` if the command takes none.
    pub number: Option<u32>,
    /// Whether InterruptedBy is asked for (`-r`), in addition to the three kinds that are always mined.
    pub interrupted: bool,
    /// The names of the log's files in order, none of them empty. If there are none, standard input is read.
    pub files: Vec<&'a str>,
}

/// How lines are read: in the plain form with `-p`, otherwise by the rules file, if one is given.
fn form_by<'a>(rules: Option<&'a str>, plain: bool) -> Option<LineForm<'a>>
    ensures { option_map form_held result ≡ form_by (option_map (λ s. s.now) rules.entry) plain }
{
    match (rules, plain) {
        (_, true) => Some(LineForm::Plain),
        (Some(name), false) => Some(LineForm::Rules(name)),
        (None, false) => None,
    }
}

/// The number in the value, if there is one.
fn number_by(value: Option<&str>) -> Option<u32>
    ensures { result ≡ option_and_then number_of (option_map (λ s. s.now) value.entry) }
{
    match value {
        Some(text) => number_of(text),
        None => None,
    }
}

/// The task that the row allows.
fn allowed<'a>(row: Row, given: Given<'a>) -> Option<Task<'a>>
    ensures { option_map task_held result ≡ allowed row (given_held given.entry) }
{
    if !(passes(row, &given) && is_sound(&given)) {
        return None;
    }
    Some(Task {
        command: row.command,
        form: form_by(given.rules, given.plain),
        model: given.model,
        ignore: given.ignore,
        join: given.join,
        number: number_by(given.number),
        interrupted: given.interrupted,
        files: given.files,
    })
}

/// The task that the table allows.
fn by_table<'a>(given: Given<'a>) -> Option<Task<'a>>
    ensures { option_map task_held result ≡ task_of_use (given_held given.entry) }
{
    let word = given.command?;
    let row = row_of(word, has_model(&given))?;
    allowed(row, given)
}

/// The task that the arguments ask for. `words` are the arguments without the program's name.
///
/// If a task is returned, the arguments ask for it. If its command is `bench`, it has a number of sessions from 1 to
/// `MAX_SESSIONS`. It names fewer than 2^32 files.
///
/// - `Usage`: the arguments ask for no task.
/// - `Memory`: memory ran out. No clause says when.
pub fn parse<'a>(alloc: Global, words: &'a [String]) -> Result<Task<'a>, ParseError>
    ensures ok { IfOk result (λ t. task_of (map string_bytes words.entry.now)
        ≡ Some (task_held t)) }
    ensures sessions { IfOk result (λ t. HasSessions (task_held t)) }
    ensures few { IfOk result (λ t. length (task_held t).files < 2 ^ 32) }
    ensures usage { result ≡ Err ParseError.Usage
        → task_of (map string_bytes words.entry.now) ≡ None }
{
    match by_table(read(alloc, words)?) {
        Some(task) => Ok(task),
        None => Err(ParseError::Usage),
    }
}
