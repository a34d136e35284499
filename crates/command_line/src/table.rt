//! The table of the commands. Each row defines which uses of a command are allowed.
ghost use Rattle.std.specs.Prelude.{◌≡◌, map, option_map};
ghost use Rattle.std.specs.List.{list_all};
ghost use Rattle.command_line.specs.Given.{given_held};
ghost use Rattle.command_line.specs.Table.{are_few, are_words, fits, fits_form, graph_row, has_model, is_sound, is_word, kinds_row, log_and_model_row, log_row, model_row, number_row, option_is_number, option_is_word, passes, row_of};

use crate::given::Given;
use crate::number::number_of;

/// A command of the program.
#[derive(Clone, Copy, Debug, PartialEq, Eq)]
pub enum Command {
    /// Print the invariants of a log.
    Invariants,
    /// Print the graph of a log that has one partition for each type.
    Graph,
    /// Print the graph of the model in a file.
    GraphOfModel,
    /// Infer a model of a log, and print its file.
    Infer,
    /// Check the model in a file against a log.
    Check,
    /// Follow the history of the model in a file over a log, step by step.
    Replay,
    /// Print the paths that the traces of a log take through its model.
    Paths,
    /// Make a log of a given number of sessions, infer its model, write it, read it back and check it, and print the sizes.
    Bench,
    /// Write the model in a file of version 1 as a file of version 2.
    Migrate,
}

/// Whether a command requires, allows or forbids something.
#[derive(Clone, Copy)]
pub enum Want {
    /// It must be given.
    Needs,
    /// It may be given.
    May,
    /// It must not be given.
    Never,
}

/// What a command requires of the form of a log's lines.
#[derive(Clone, Copy)]
pub enum FormWant {
    /// One of `-p` and `-e` must be given, and not both.
    One,
    /// `-e` must be given, and `-p` must not.
    Rules,
    /// Neither must be given: no log is read.
    Never,
}

/// A row of the table: a command, and what it requires, allows or forbids.
#[derive(Clone, Copy)]
pub struct Row {
    /// The command.
    pub command: Command,
    /// The form of a log's lines (`-p`, or `-e` with a rules file).
    pub form: FormWant,
    /// How a log is read (`-i`, `-j`).
    pub flags: Want,
    /// The files of a log.
    pub files: Want,
    /// The model file (`-m`).
    pub model: Want,
    /// A number (`-n`).
    pub number: Want,
    /// The fourth kind of invariants, InterruptedBy (`-r`).
    pub interrupted: Want,
}

/// The row of a command that reads a log and takes nothing else.
fn log_row(command: Command) -> Row
    ensures { result ≡ log_row command }
{
    Row {
        command,
        form: FormWant::One,
        flags: Want::May,
        files: Want::May,
        model: Want::Never,
        number: Want::Never,
        interrupted: Want::Never,
    }
}

/// The row of a command that reads a log and also takes `-r`.
fn kinds_row(command: Command) -> Row
    ensures { result ≡ kinds_row command }
{
    Row {
        interrupted: Want::May,
        ..log_row(command)
    }
}

/// The row of a command that reads a log and a model file, and takes nothing else.
fn log_and_model_row(command: Command) -> Row
    ensures { result ≡ log_and_model_row command }
{
    Row {
        command,
        form: FormWant::One,
        flags: Want::May,
        files: Want::May,
        model: Want::Needs,
        number: Want::Never,
        interrupted: Want::Never,
    }
}

/// The row of a command that reads a model file and takes nothing else.
fn model_row(command: Command) -> Row
    ensures { result ≡ model_row command }
{
    Row {
        command,
        form: FormWant::Never,
        flags: Want::Never,
        files: Want::Never,
        model: Want::Needs,
        number: Want::Never,
        interrupted: Want::Never,
    }
}

/// The row of `graph`. With a model file it is a command of its own.
fn graph_row(has_model: bool) -> Row
    ensures { result ≡ graph_row has_model }
{
    match has_model {
        true => model_row(Command::GraphOfModel),
        false => log_row(Command::Graph),
    }
}

/// The row of a command that takes a number and nothing else.
fn number_row(command: Command) -> Row
    ensures { result ≡ number_row command }
{
    Row {
        form: FormWant::Never,
        flags: Want::Never,
        files: Want::Never,
        number: Want::Needs,
        ..log_row(command)
    }
}

/// The row of the command with this name, with or without a model file; `None` if no command has this name.
pub fn row_of(text: &str, has_model: bool) -> Option<Row>
    ensures { result ≡ row_of text.now has_model }
{
    match text {
        "invariants" => Some(kinds_row(Command::Invariants)),
        "graph" => Some(graph_row(has_model)),
        "infer" => Some(kinds_row(Command::Infer)),
        "check" => Some(log_and_model_row(Command::Check)),
        "replay" => Some(log_and_model_row(Command::Replay)),
        "paths" => Some(kinds_row(Command::Paths)),
        "bench" => Some(number_row(Command::Bench)),
        "migrate" => Some(model_row(Command::Migrate)),
        _ => None,
    }
}

/// Whether the row accepts that something is given, or is not.
fn fits(want: Want, is_given: bool) -> bool
    ensures { result ≡ fits want is_given }
{
    match want {
        Want::Needs => is_given,
        Want::May => true,
        Want::Never => !is_given,
    }
}

/// Whether the row accepts `-p` and `-e` as given.
fn fits_form(want: FormWant, given: &Given<'_>) -> bool
    ensures { result ≡ fits_form want (given_held given.now) }
{
    match want {
        FormWant::One => given.rules.is_some() != given.plain,
        FormWant::Rules => given.rules.is_some() && !given.plain,
        FormWant::Never => given.rules.is_none() && !given.plain,
    }
}

/// Whether a model file is given.
pub fn has_model(given: &Given<'_>) -> bool
    ensures { result ≡ has_model (given_held given.now) }
{
    given.model.is_some()
}

/// Whether the row accepts all that is given.
pub fn passes(row: Row, given: &Given<'_>) -> bool
    ensures { result ≡ passes row (given_held given.now) }
{
    fits_form(row.form, given)
        && fits(row.flags, given.ignore || given.join)
        && fits(row.files, given.files.len() > 0)
        && fits(row.model, has_model(given))
        && fits(row.interrupted, given.interrupted)
        && fits(row.number, given.number.is_some())
}

/// Whether no text is empty, for texts as the program holds them.
fn are_words_each(texts: &[&str]) -> bool
    ensures { result ≡ list_all (λ s. is_word s.now) texts.now }
{
    texts.iter().all(|text| !text.is_empty())
}

/// Whether no text is empty.
fn are_words(texts: &[&str]) -> bool
    ensures { result ≡ are_words (map (λ s. s.now) texts.now) }
{
    are_words_each(texts)
}

/// Whether the text is not empty, if there is one.
fn option_is_word(text: Option<&str>) -> bool
    ensures { result ≡ option_is_word (option_map (λ s. s.now) text.entry) }
{
    match text {
        Some(text) => !text.is_empty(),
        None => true,
    }
}

/// Whether the text is a number that `number_of` accepts, if there is one.
fn option_is_number(text: Option<&str>) -> bool
    ensures { result ≡ option_is_number (option_map (λ s. s.now) text.entry) }
{
    match text {
        Some(text) => number_of(text).is_some(),
        None => true,
    }
}

/// One more than the maximum number of files.
const TOO_MANY_FILES: usize = 4_294_967_296;

/// Whether there are not too many files.
fn are_few(files: &[&str]) -> bool
    ensures { result ≡ are_few (map (λ s. s.now) files.now) }
{
    files.len() < TOO_MANY_FILES
}

/// Whether no name is empty, there are not too many files, and the number, if given, is one that `number_of` accepts.
pub fn is_sound(given: &Given<'_>) -> bool
    ensures { result ≡ is_sound (given_held given.now) }
{
    option_is_word(given.rules)
        && option_is_word(given.model)
        && are_words(&given.files)
        && are_few(&given.files)
        && option_is_number(given.number)
}
