//! The top call.
ghost use Rattle.std.specs.Prelude.{◌≡◌, ◌<◌, ◌^◌, List, ℕ, Some, length, map};
ghost use Rattle.std.specs.String.{string_bytes};
ghost use Rattle.outside.specs.Turns.{OpensFirst};
ghost use Rattle.command_line.specs.Task.{HasSessions, task_held, task_of};
ghost use Rattle.synoptic_cli.specs.Causes.{HasCause, IsExpected, KeepsCount, Stays, names_of, world};
ghost use Rattle.synoptic_cli.specs.Messages.{Tells, message_of};
ghost use Rattle.synoptic_cli.specs.Halts.{status_without_task};
ghost use Rattle.synoptic_cli.specs.Task.{input_names, stages_of};

use crate::answer::NoAnswer;
use crate::commands;
use crate::message::{ErrorStream, tell};
use crate::stages::read_material;
use crate::status::Status;
use command_line::{ParseError, Task, parse};
use line_rules::Patterns;
use outside::{Inputs, Sink, write_whole};
use std::alloc::Global;

/// Runs the task, and writes no message.
fn answer<I: Inputs, P: Patterns, O: Sink>(
    alloc: Global,
    task: &Task<'_>,
    inputs: &mut I,
    patterns: &mut P,
    out: &mut O,
) -> Status
    requires sessions { HasSessions (task_held task.now) }
    requires few { length (task_held task.now).files < 2 ^ 32 }

    // What the status says, for all arguments that ask for the task.
    ensures cause { (words : List (List ℕ)) → task_of words ≡ Some (task_held task.now)
        → HasCause result words
        (world (I.state inputs.old) (P.state patterns.old) (O.state out.old))
        (world (I.state inputs.new) (P.state patterns.new) (O.state out.new)) }

    // Which counts of faults and refused patterns stay, and what else does.
    ensures memory { result ≡ Status.Memory
        → (I.state inputs.new).faults ≡ (I.state inputs.old).faults }
    ensures count { KeepsCount result (P.state patterns.old) (P.state patterns.new) }
    ensures stays { Stays
        (world (I.state inputs.old) (P.state patterns.old) (O.state out.old))
        (world (I.state inputs.new) (P.state patterns.new) (O.state out.new)) }

    // Which inputs were opened.
    ensures turn { OpensFirst (input_names (stages_of (task_held task.now)))
        (I.state inputs.old) (I.state inputs.new) }
{
    let material = match read_material(alloc, task, inputs, patterns) {
        Ok(material) => material,
        Err(status) => return status,
    };
    let answer = match commands::answer(alloc, task, material) {
        Ok(answer) => answer,
        Err(NoAnswer::Limit(kind)) => return Status::Limit(kind),
        Err(NoAnswer::Memory) => return Status::Memory,
    };
    match write_whole(out, answer.text.as_slice()) {
        Ok(()) => answer.status,
        Err(_) => Status::WriteFault,
    }
}

/// The status if the arguments give no task.
fn status_without_task(error: ParseError) -> Status
    ensures { result ≡ status_without_task error }
{
    match error {
        ParseError::Usage => Status::Usage,
        ParseError::Memory => Status::Memory,
    }
}

/// Runs the task, and writes the message of its status.
fn run_task<I: Inputs, P: Patterns, O: Sink, E: ErrorStream>(
    alloc: Global,
    task: &Task<'_>,
    inputs: &mut I,
    patterns: &mut P,
    out: &mut O,
    err: &mut E,
) -> Status
    requires sessions { HasSessions (task_held task.now) }
    requires few { length (task_held task.now).files < 2 ^ 32 }

    // What the status says, for all arguments that ask for the task.
    ensures cause { (words : List (List ℕ)) → task_of words ≡ Some (task_held task.now)
        → HasCause result words
        (world (I.state inputs.old) (P.state patterns.old) (O.state out.old))
        (world (I.state inputs.new) (P.state patterns.new) (O.state out.new)) }
    ensures expected { (words : List (List ℕ)) → task_of words ≡ Some (task_held task.now)
        → IsExpected result words
        (world (I.state inputs.old) (P.state patterns.old) (O.state out.old))
        (world (I.state inputs.new) (P.state patterns.new) (O.state out.new)) }

    // Which counts of faults and refused patterns stay, and what else does.
    ensures memory { result ≡ Status.Memory
        → (I.state inputs.new).faults ≡ (I.state inputs.old).faults }
    ensures count { KeepsCount result (P.state patterns.old) (P.state patterns.new) }
    ensures stays { Stays
        (world (I.state inputs.old) (P.state patterns.old) (O.state out.old))
        (world (I.state inputs.new) (P.state patterns.new) (O.state out.new)) }

    // Which inputs were opened, and the message of the status.
    ensures turn { OpensFirst (input_names (stages_of (task_held task.now)))
        (I.state inputs.old) (I.state inputs.new) }
    ensures told { (words : List (List ℕ)) → task_of words ≡ Some (task_held task.now)
        → Tells (message_of words result) (E.heard err.old) (E.heard err.new) }
{
    let status = answer(alloc, task, inputs, patterns, out);
    tell(Some(task), status, err);
    status
}

/// Runs the program: reads the inputs, writes the answer to `out`, and the message of the status to `err`.
///
/// `words` are the arguments without the program's name. `command_line::parse` returns the task that they ask for. A run reads
/// the inputs of its task in this order, as far as the task has them: the rules file, the model file, and the files of the log
/// or standard input. Then the task's command computes the answer from what was read, and then the answer is written.
/// docs/PROVED.md, section "The promise of `run`", has a table of all statuses.
///
/// Files are *known* if contracts can name their bytes, as for files in memory. If they are known, the clauses state everything
/// below. If not, what they state about the contents of an input holds for some bytes, and they do not state how far an input
/// was read. A sink is treated alike: what was appended is stated only if its bytes are known. Counts are stated always.
///
/// The *room* for the rules file or the model file is its limit. The room for an input of the log is what the ones before it
/// leave of the limit on all input. If an input is still open, at most one byte beyond its room was read.
///
/// - `cause`: why the run ended with its status. For all but the first three and `WriteFault`, `out` is untouched.
///   - `Done`: the whole answer was appended to `out`, and no fault counted. All inputs of the task were opened without a
///     fault, nothing in them is refused, and the last was read to its end. For each command a file of `specs/Commands/`
///     defines the answer and what it promises. The kinds of invariants are those that the arguments ask for (`invariants`,
///     `infer`, `paths`), those that the model file names (`check`, `replay`), or three (`bench`).
///   - `NoCheck`: as `Done`, only for `check`. The model in the file is not valid for the log. The named part is the first that
///     fails, in the order of `Part`, first at the number or the pair that it names. The answer names it too.
///   - `NoReplay`: as `Done`, only for `replay`. The history of the model in the file is not justified by the log. The named
///     step is the first that fails, in the order of `ReplayPart`. The answer names it too.
///   - `Usage`: the arguments ask for no task. Inputs and patterns are untouched.
///   - `Expressions`: the rules file has this refusal, never out of memory. Only this file was opened, without a fault, and it
///     was read to its end or to one byte beyond its limit. A pattern that nests too deep or is too large is refused at the
///     named line only if no line before it is refused. Too large requires that the patterns counted a refusal and may refuse
///     this pattern.
///   - `Log`, and `Limit` of types, events or input: this is the first refusal of the log, in byte order. The inputs up to the
///     one with that line, or with the byte beyond the limit, were opened without a fault. The last of them is still open.
///   - `Limit` of partitions or paths: nothing in the inputs is refused. All were opened without a fault, and the last was read
///     to its end. Refinement of the log needs one partition more than 1,024, or the paths of its splits and blocks have more
///     than 4,000,000 ids.
///   - `ModelFile`: the model file has this refusal, never out of memory. It is read by version 1 for `migrate`, and by version
///     2 for all other commands. The inputs up to it were opened without a fault, and it was read to its end or to one byte
///     beyond its limit.
///   - `ReadFault`: the inputs counted a fault and may fail the named input. Then those before it were opened, and either
///     nothing is open, or the named one was opened too and is still open. Or files are known, the named input is the first
///     that does not exist, nothing before it is refused, and no fault was counted. Then those before it were opened, and
///     nothing is open.
///   - `WriteFault`: the task has an answer, as for `Done`, `NoCheck` or `NoReplay`. A prefix of it was appended to `out`, and
///     a fault counted.
///   - `Memory`: memory ran out. No clause says when. At most as many inputs were opened as the task has. Without a task, the
///     inputs are as before. The last that was opened was read to its end, or is still open.
/// - `expected`: if files are known, and no fault of the inputs or of `out` and no refusal of a pattern was counted, the status
///   is the one that the arguments and the files have. There is only one (`runs_end_alike`), and `outcomes_are_known` gives it
///   by command if no input is refused. The exceptions are `Memory`, and a pattern that nests too deep, at the named line.
/// - `memory`: with `Memory` the count of faults of the inputs is as before. So running out of memory hides no fault.
/// - `count`: the count of refused patterns is as before, unless a pattern that is too large is the answer.
/// - `stays`: the files of the inputs, the names that they may fail and the patterns that may be refused stay as they were.
/// - `turn`: the inputs are as before; or those that were opened are the first of the task, in the order above, and no others,
///   and each but the last was read to its end. `cause` states how many. Which ones they were is stated only if files are known
///   and stand in this order.
/// - `told`: the message of the status was appended to `err` and no fault counted, or a prefix of it was appended and a fault
///   counted. Calls of `err` return nothing, so no fault there changes the status or anything else.
pub fn run<I: Inputs, P: Patterns, O: Sink, E: ErrorStream>(
    alloc: Global,
    words: &[String],
    inputs: &mut I,
    patterns: &mut P,
    out: &mut O,
    err: &mut E,
) -> Status
    ensures cause { HasCause result (map string_bytes words.now)
        (world (I.state inputs.old) (P.state patterns.old) (O.state out.old))
        (world (I.state inputs.new) (P.state patterns.new) (O.state out.new)) }
    ensures expected { IsExpected result (map string_bytes words.now)
        (world (I.state inputs.old) (P.state patterns.old) (O.state out.old))
        (world (I.state inputs.new) (P.state patterns.new) (O.state out.new)) }

    // Which counts of faults and refused patterns stay, and what else does.
    ensures memory { result ≡ Status.Memory
        → (I.state inputs.new).faults ≡ (I.state inputs.old).faults }
    ensures count { KeepsCount result (P.state patterns.old) (P.state patterns.new) }
    ensures stays { Stays
        (world (I.state inputs.old) (P.state patterns.old) (O.state out.old))
        (world (I.state inputs.new) (P.state patterns.new) (O.state out.new)) }

    // Which inputs were opened.
    ensures turn { OpensFirst (names_of (map string_bytes words.now))
        (I.state inputs.old) (I.state inputs.new) }

    // The message of the status.
    ensures told { Tells (message_of (map string_bytes words.now) result)
        (E.heard err.old) (E.heard err.new) }
{
    let task = match parse(alloc, words) {
        Ok(task) => task,
        Err(error) => {
            let status = status_without_task(error);
            tell(None, status, err);
            return status;
        }
    };
    run_task(alloc, &task, inputs, patterns, out, err)
}
