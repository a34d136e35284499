//! The top call.
ghost use Rattle.std.specs.Prelude.{◌≡◌, ◌<◌, ◌^◌, true, List, ℕ, Some, Err, IfOk, IfErr, length, map};
ghost use Rattle.std.specs.String.{string_bytes};
ghost use Rattle.outside.specs.Inputs.{Stays as InputsStay};
ghost use Rattle.outside.specs.Turns.{OpensFirst};
ghost use Rattle.line_rules.specs.Patterns.{Stays as PatternsStay};
ghost use Rattle.command_line.specs.Task.{task_held, task_of};
ghost use Rattle.synoptic_cli.specs.Causes.{KeepsCounts, Stays, names_of, world};
ghost use Rattle.synoptic_cli.specs.Halts.{Ends, status_without_task};
ghost use Rattle.synoptic_cli.specs.Messages.{Tells};
ghost use Rattle.synoptic_cli.specs.Task.{input_names, stages_of};
ghost use Rattle.events_cli.specs.Causes.{HasAnswer, HasCause, KeepsCount};
ghost use Rattle.events_cli.specs.Messages.{message_of};
ghost use Rattle.events_cli.specs.Steps.{IsGiven, IsOfReading, halt_status};
ghost use Rattle.events_cli.specs.Words.{fits, given_words, mode_of};

use crate::answer::{Answer, Halt};
use crate::ending::Ending;
use crate::message::tell;
use crate::mode::{Mode, mode_of};
use crate::request::{Asked, given_words, task_for};
use crate::rules::read_form;
use crate::show::show;
use command_line::{ParseError, Task};
use line_rules::Patterns;
use log_reader::alike_rules_read_alike;
use outside::{Inputs, Sink, write_whole};
use std::alloc::Global;
use synoptic_cli::{ErrorStream, Status, status_of};

/// The status if there is no answer.
fn halt_status(halt: Halt) -> Status
    ensures { result ≡ halt_status halt }
{
    match halt {
        Halt::Read(error) => status_of(error),
        Halt::Memory => Status::Memory,
    }
}

/// Reads the inputs of a task that fits the mode, and returns what is to be written.
fn read_answer<I: Inputs, P: Patterns>(
    alloc: Global,
    mode: Mode,
    task: &Task<'_>,
    inputs: &mut I,
    patterns: &mut P,
) -> Result<Answer, Status>
    requires fits { fits mode (task_held task.now) ≡ true }
    requires few { length (task_held task.now).files < 2 ^ 32 }
    ensures stays { InputsStay (I.state inputs.old) (I.state inputs.new) }
    ensures kept { PatternsStay (P.state patterns.old) (P.state patterns.new) }

    // Which counts of faults and refused patterns stay.
    ensures memory { result ≡ Err Status.Memory
        → (I.state inputs.new).faults ≡ (I.state inputs.old).faults }
    ensures count { KeepsCounts result (P.state patterns.old) (P.state patterns.new) }

    // What is to be written, and why the run ends before it.
    ensures ok { IfOk result (λ a. HasAnswer mode (task_held task.now) a
        (I.state inputs.old) (I.state inputs.new)) }
    ensures given { IfOk result (λ a. IsGiven a.ending) }
    ensures err { IfErr result (λ status.
        Ends status (task_held task.now) (I.state inputs.old) (I.state inputs.new)
        (P.state patterns.old) (P.state patterns.new)) }
    ensures refused { IfErr result IsOfReading }
    ensures turn { OpensFirst (input_names (stages_of (task_held task.now)))
        (I.state inputs.old) (I.state inputs.new) }
{
    alike_rules_read_alike();
    let rules = match read_form(alloc, task, inputs, patterns) {
        Ok(rules) => rules,
        Err(status) => return Err(status),
    };
    match show(alloc, mode, task, &rules, inputs) {
        Ok(answer) => Ok(answer),
        Err(halt) => Err(halt_status(halt)),
    }
}

/// Runs the task, which fits the mode, and writes no message.
fn answer<I: Inputs, P: Patterns, O: Sink>(
    alloc: Global,
    mode: Mode,
    task: &Task<'_>,
    inputs: &mut I,
    patterns: &mut P,
    out: &mut O,
) -> Ending
    requires fits { fits mode (task_held task.now) ≡ true }
    requires few { length (task_held task.now).files < 2 ^ 32 }

    // What the ending says, for all arguments that ask for the task in this mode.
    ensures cause { (words : List (List ℕ)) → mode_of words ≡ mode
        → task_of (given_words words) ≡ Some (task_held task.now)
        → HasCause result words
        (world (I.state inputs.old) (P.state patterns.old) (O.state out.old))
        (world (I.state inputs.new) (P.state patterns.new) (O.state out.new)) }

    // Which counts of faults and refused patterns stay, and what else does.
    ensures memory { result ≡ Ending.Refused Status.Memory
        → (I.state inputs.new).faults ≡ (I.state inputs.old).faults }
    ensures count { KeepsCount result (P.state patterns.old) (P.state patterns.new) }
    ensures stays { Stays
        (world (I.state inputs.old) (P.state patterns.old) (O.state out.old))
        (world (I.state inputs.new) (P.state patterns.new) (O.state out.new)) }

    // Which inputs were opened.
    ensures turn { OpensFirst (input_names (stages_of (task_held task.now)))
        (I.state inputs.old) (I.state inputs.new) }
{
    let answer = match read_answer(alloc, mode, task, inputs, patterns) {
        Ok(answer) => answer,
        Err(status) => return Ending::Refused(status),
    };
    match write_whole(out, answer.text.as_slice()) {
        Ok(()) => answer.ending,
        Err(_) => Ending::WriteFault,
    }
}

/// The ending if the arguments give no task.
fn ending_without_task(error: ParseError) -> Ending
    ensures { result ≡ Ending.Refused (status_without_task error) }
{
    match error {
        ParseError::Usage => Ending::Refused(Status::Usage),
        ParseError::Memory => Ending::Refused(Status::Memory),
    }
}

/// Runs what is asked, and writes a message if it refuses.
fn run_given<I: Inputs, P: Patterns, O: Sink, E: ErrorStream>(
    alloc: Global,
    asked: Asked<'_>,
    inputs: &mut I,
    patterns: &mut P,
    out: &mut O,
    err: &mut E,
) -> Ending
    // What the ending says, for all arguments that ask for this.
    ensures cause { (words : List (List ℕ)) → mode_of words ≡ asked.entry.mode
        → given_words words ≡ map string_bytes asked.entry.given.now
        → HasCause result words
        (world (I.state inputs.old) (P.state patterns.old) (O.state out.old))
        (world (I.state inputs.new) (P.state patterns.new) (O.state out.new)) }

    // Which counts of faults and refused patterns stay, and what else does.
    ensures memory { result ≡ Ending.Refused Status.Memory
        → (I.state inputs.new).faults ≡ (I.state inputs.old).faults }
    ensures count { KeepsCount result (P.state patterns.old) (P.state patterns.new) }
    ensures stays { Stays
        (world (I.state inputs.old) (P.state patterns.old) (O.state out.old))
        (world (I.state inputs.new) (P.state patterns.new) (O.state out.new)) }

    // Which inputs were opened, and the message of the ending.
    ensures turn { OpensFirst (names_of (map string_bytes asked.entry.given.now))
        (I.state inputs.old) (I.state inputs.new) }
    ensures told { (words : List (List ℕ)) → mode_of words ≡ asked.entry.mode
        → given_words words ≡ map string_bytes asked.entry.given.now
        → Tells (message_of words result) (E.heard err.old) (E.heard err.new) }
{
    let task = match task_for(alloc, asked.mode, asked.given) {
        Ok(task) => task,
        Err(error) => {
            let ending = ending_without_task(error);
            tell(None, ending, err);
            return ending;
        }
    };
    let ending = answer(alloc, asked.mode, &task, inputs, patterns, out);
    tell(Some(&task), ending, err);
    ending
}

/// Runs the program `synoptic-events`: reads a log, writes its events to `out`, and the message of the ending to `err`.
///
/// `words` are the arguments without the program's name. The first may give a mode (`--in-order`, `--plain`, `--undecided`).
/// The others are those of `synoptic graph` on a log. If these arguments, the rules file or the log are refused, the run ends
/// as `synoptic graph` would, with the same status and, except for the usage line, the same message. `--undecided` reads as
/// with `-i`.
///
/// Files are *known* if contracts can name their bytes, as for files in memory. If they are known, the clauses state everything
/// below. If not, what they state about the contents of an input holds for some bytes, and they do not state how far an input
/// was read. A sink is treated alike: what was appended is stated only if its bytes are known. Counts are stated always.
///
/// - `cause`: why the run ended so.
///   - `Done`: the whole text was appended to `out`, and no fault counted. All inputs of the task were opened without a fault,
///     nothing in them is refused, and the last was read to its end. The text is that of `log_answer`. It has a line for each
///     event: trace after trace and by time within a trace, or in the order of the lines with `--in-order`. With `--plain` it
///     is the log in the plain form.
///   - `Undecided`: as `Done`, only for `--undecided`. The text has a line for each line that no rule decides, in order. The
///     number is how many there are.
///   - `NoPlain`: as `Done`, only for `--plain`, and the text is empty. The named fault is the first, in the order of the
///     lines, that the plain form cannot have: a type that no line can have, or a time before that of an earlier line of the
///     trace.
///   - `WriteFault`: there is an answer, as for these three. A prefix of its text was appended to `out`, and a fault counted.
///   - `Refused(Usage)`: the arguments ask for no task that fits the mode. Inputs, patterns and `out` are untouched.
///   - `Refused` with another status: `synoptic graph` with the other arguments ends so, for the cause that its `run` states.
///     `out` is untouched. The status is `Expressions`, `Log`, `Limit`, `ReadFault` or `Memory`.
/// - `memory`: with `Refused(Memory)` the count of faults of the inputs is as before. So running out of memory hides no fault.
/// - `count`: the count of refused patterns is as before, unless a pattern that is too large is the answer.
/// - `stays`: the files of the inputs, the names that they may fail and the patterns that may be refused stay as they were.
/// - `turn`: the inputs are as before; or those that were opened are the first of the task, in its order, and no others, and
///   each but the last was read to its end. Which ones they were is stated only if files are known and stand in this order.
/// - `told`: the message of the ending was appended to `err` and no fault counted, or a prefix of it was appended and a fault
///   counted.
pub fn run<I: Inputs, P: Patterns, O: Sink, E: ErrorStream>(
    alloc: Global,
    words: &[String],
    inputs: &mut I,
    patterns: &mut P,
    out: &mut O,
    err: &mut E,
) -> Ending
    ensures cause { HasCause result (map string_bytes words.now)
        (world (I.state inputs.old) (P.state patterns.old) (O.state out.old))
        (world (I.state inputs.new) (P.state patterns.new) (O.state out.new)) }

    // Which counts of faults and refused patterns stay, and what else does.
    ensures memory { result ≡ Ending.Refused Status.Memory
        → (I.state inputs.new).faults ≡ (I.state inputs.old).faults }
    ensures count { KeepsCount result (P.state patterns.old) (P.state patterns.new) }
    ensures stays { Stays
        (world (I.state inputs.old) (P.state patterns.old) (O.state out.old))
        (world (I.state inputs.new) (P.state patterns.new) (O.state out.new)) }

    // Which inputs were opened.
    ensures turn { OpensFirst (names_of (given_words (map string_bytes words.now)))
        (I.state inputs.old) (I.state inputs.new) }

    // The message of the ending.
    ensures told { Tells (message_of (map string_bytes words.now) result)
        (E.heard err.old) (E.heard err.new) }
{
    let given = match given_words(alloc, words) {
        Ok(given) => given,
        Err(_) => {
            let ending = Ending::Refused(Status::Memory);
            tell(None, ending, err);
            return ending;
        }
    };
    let asked = Asked {
        mode: mode_of(words),
        given: &given,
    };
    run_given(alloc, asked, inputs, patterns, out, err)
}
