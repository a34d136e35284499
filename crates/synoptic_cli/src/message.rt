//! The messages for standard error.
ghost use Rattle.std.specs.Prelude.{◌≡◌, ◌++◌, Some, codes, decimal, option_map};
ghost use Rattle.std.specs.List.{flat_map};
ghost use Rattle.outside.specs.Sinks.{SinkState, WholeGives};
ghost use Rattle.command_line.specs.Task.{task_held};
ghost use Rattle.synoptic_cli.specs.Messages.{shown, shown_source, rule_message, line_message, log_message, limit_message, field_name, file_fault, task_message, Tells};

use crate::status::{LimitKind, LogFault, Source, Status};
use crate::task::source_name;
use command_line::Task;
use itoa::Buffer;
use line_rules::RuleError;
use log_reader::At;
use model_file::{Field, FileError};
use outside::{Failed, Sink, write_whole};

const USAGE: &str =
    "usage: synoptic infer|check|replay|invariants|graph|paths|bench|migrate [-e FILE] [-p] [-m FILE] [-i] [-j] [-n N] [-r] [--] [FILE]...\n";

/// A stream for messages, for example standard error. Each `Sink` is one.
///
/// It takes texts and returns nothing. So a function that is handed an `ErrorStream`, and no `Sink`, cannot learn whether a
/// text was written, and does the same in both cases.
pub trait ErrorStream {
    ghost heard: { Self → SinkState };

    /// Appends the texts in order, without allocating memory.
    ///
    /// Either all were appended and no fault counted, or a prefix of all was appended and a fault counted.
    fn put(&mut self, texts: &[&str])
        ensures { Tells (flat_map (λ text. text.now) texts.now) (heard self.old) (heard self.new) };
}

/// Writes the texts in order, without allocating memory.
fn write_texts<S: Sink>(texts: &[&str], sink: &mut S) -> Result<(), Failed>
    ensures { WholeGives (S.state sink.old)
        (flat_map (λ text. text.now) texts.now) result (S.state sink.new) }
{
    for text in texts {
        write_whole(sink, text.as_bytes())?;
    }
    Ok(())
}

impl<S: Sink> ErrorStream for S {
    ghost heard = { S.state };

    fn put(&mut self, texts: &[&str]) {
        let _ = write_texts(texts, self);
    }
}

/// Writes one text.
fn tell_text<E: ErrorStream>(text: &str, err: &mut E)
    ensures { Tells text.now (E.heard err.old) (E.heard err.new) }
{
    err.put(&[text]);
}

/// The name as it is shown in a message: the name that was given, or `standard input`.
fn shown(name: &str) -> &str
    ensures { result.now ≡ shown (Some name.now) }
{
    if name.is_empty() {
        return "standard input";
    }
    name
}

/// The name of an input of the task as it is shown in a message; the empty text if there is no such input.
pub fn shown_source<'a>(task: Option<&Task<'a>>, source: Source) -> &'a str
    ensures { result.now ≡ shown_source (option_map (λ t. task_held t.now) task.entry) source }
{
    let Some(task) = task else {
        return "";
    };
    match source_name(task, source) {
        Some(name) => shown(name),
        None => "",
    }
}

/// Writes what is wrong with a line of the rules file.
fn tell_rule_line<E: ErrorStream>(line: u32, what: &str, err: &mut E)
    ensures { Tells (codes "synoptic: expressions line " ++ decimal line ++ what.now)
        (E.heard err.old) (E.heard err.new) }
{
    let mut digits = Buffer::new();
    err.put(&["synoptic: expressions line ", digits.format(line), what]);
}

/// Writes what is wrong with the rules file.
fn tell_rule_error<E: ErrorStream>(error: RuleError, err: &mut E)
    ensures { Tells (codes "synoptic: expressions" ++ rule_message error)
        (E.heard err.old) (E.heard err.new) }
{
    match error {
        RuleError::TooLong => tell_text("synoptic: expressions: too long\n", err),
        RuleError::BadLine(line) => tell_rule_line(line, ": bad line\n", err),
        RuleError::TooMany(line) => tell_rule_line(line, ": too many rules\n", err),
        RuleError::Syntax(line) => tell_rule_line(line, ": bad pattern\n", err),
        RuleError::TooLarge(line) => tell_rule_line(line, ": pattern too large\n", err),
        RuleError::NoType(line) => tell_rule_line(line, ": no TYPE group\n", err),
        RuleError::MixedTime(line) => tell_rule_line(line, ": mixed TIME\n", err),
        RuleError::NoEvent => tell_text("synoptic: expressions: no event rule\n", err),
        RuleError::Memory => tell_text("synoptic: expressions: out of memory\n", err),
    }
}

/// Writes what is wrong with a line of a log.
fn tell_log_line<E: ErrorStream>(task: Option<&Task<'_>>, at: At, what: &str, err: &mut E)
    ensures { Tells (line_message (option_map (λ t. task_held t.now) task.entry) at what.now)
        (E.heard err.old) (E.heard err.new) }
{
    let name = shown_source(task, Source::Log(at.file));
    let mut digits = Buffer::new();
    let line = digits.format(at.line);
    err.put(&["synoptic: ", name, ":", line, ": ", what, "\n"]);
}

/// Writes why a line of a log is refused.
fn tell_log_fault<E: ErrorStream>(task: Option<&Task<'_>>, fault: LogFault, err: &mut E)
    ensures { Tells (log_message (option_map (λ t. task_held t.now) task.entry) fault)
        (E.heard err.old) (E.heard err.new) }
{
    match fault {
        LogFault::LineTooLong(at) => tell_log_line(task, at, "line too long", err),
        LogFault::Undecided(at) => tell_log_line(task, at, "no rule decides", err),
        LogFault::BadTime(at) => tell_log_line(task, at, "bad time", err),
        LogFault::TypeTooLong(at) => tell_log_line(task, at, "type too long", err),
        LogFault::TraceTooLong(at) => tell_log_line(task, at, "trace too long", err),
    }
}

/// The line that names the quantity that exceeds its limit.
fn limit_line(kind: LimitKind) -> &'static str
    ensures { result.now ≡ limit_message kind }
{
    match kind {
        LimitKind::Types => "synoptic: limit: types 256\n",
        LimitKind::Events => "synoptic: limit: events 1000000\n",
        LimitKind::Input => "synoptic: limit: input 268435456\n",
        LimitKind::Partitions => "synoptic: limit: partitions 1024\n",
        LimitKind::Paths => "synoptic: limit: paths 4000000\n",
    }
}

/// The name of a part of the model file.
fn field_name(field: Field) -> &'static str
    ensures { result.now ≡ field_name field }
{
    match field {
        Field::Root => "root",
        Field::Version => "version",
        Field::Extra => "extra",
        Field::Types => "types",
        Field::Kinds => "kinds",
        Field::Partitions => "partitions",
        Field::Edges => "edges",
        Field::Invariants => "invariants",
        Field::Merges => "merges",
        Field::Splits => "splits",
        Field::Blocks => "blocks",
    }
}

/// Writes what is wrong with the model file, as two texts.
fn tell_file_fault<E: ErrorStream>(what: &str, which: &str, err: &mut E)
    ensures { Tells (codes "synoptic: model file: " ++ what.now ++ which.now ++ codes "\n")
        (E.heard err.old) (E.heard err.new) }
{
    err.put(&["synoptic: model file: ", what, which, "\n"]);
}

/// Writes what is wrong with the model file.
fn tell_file_error<E: ErrorStream>(error: FileError, err: &mut E)
    ensures { Tells (codes "synoptic: model file: " ++ file_fault error ++ codes "\n")
        (E.heard err.old) (E.heard err.new) }
{
    let mut digits = Buffer::new();
    match error {
        FileError::TooLong => tell_file_fault("too long", "", err),
        FileError::NotJson => tell_file_fault("not JSON", "", err),
        FileError::Shape(field) => tell_file_fault("bad ", field_name(field), err),
        FileError::Version(number) => tell_file_fault("version ", digits.format(number), err),
        FileError::Memory => tell_file_fault("out of memory", "", err),
    }
}

/// Writes which input could not be read.
fn tell_read_fault<E: ErrorStream>(task: Option<&Task<'_>>, source: Source, err: &mut E)
    ensures { Tells (codes "synoptic: cannot read "
        ++ shown_source (option_map (λ t. task_held t.now) task.entry) source ++ codes "\n")
        (E.heard err.old) (E.heard err.new) }
{
    err.put(&["synoptic: cannot read ", shown_source(task, source), "\n"]);
}

/// Writes the message of a status to `err`, without allocating memory. `task` is the task of the run, if the arguments gave
/// one.
///
/// Either the whole message was appended and no fault counted, or a prefix of it was appended and a fault counted.
pub fn tell<E: ErrorStream>(task: Option<&Task<'_>>, status: Status, err: &mut E)
    ensures { Tells (task_message (option_map (λ t. task_held t.now) task.entry) status)
        (E.heard err.old) (E.heard err.new) }
{
    match status {
        Status::Done => {}
        Status::NoCheck(_) => {}
        Status::NoReplay(_) => {}
        Status::Usage => tell_text(USAGE, err),
        Status::Expressions(error) => tell_rule_error(error, err),
        Status::Log(fault) => tell_log_fault(task, fault, err),
        Status::Limit(kind) => tell_text(limit_line(kind), err),
        Status::ReadFault(source) => tell_read_fault(task, source, err),
        Status::WriteFault => tell_text("synoptic: cannot write\n", err),
        Status::Memory => tell_text("synoptic: out of memory\n", err),
        Status::ModelFile(error) => tell_file_error(error, err),
    }
}
