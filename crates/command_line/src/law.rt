//! Laws about the table, and about what arguments ask for.
ghost use Rattle.command_line.specs.Laws.{AnswersAreOne, FilesAreFew};
ghost use Rattle.command_line.specs.Lines.{InterruptedIsOfThreeCommands, RefusesLines, TakesLines};

/// Which command lines are accepted, and what these ask for; and which lines ask for nothing.
pub fn lines_tell()
    ensures taken { TakesLines }
    ensures refused { RefusesLines }
{}

/// A task asks for InterruptedBy only if its command is `invariants`, `infer` or `paths`: no other command takes `-r`.
pub fn interrupted_is_of_three_commands()
    ensures { InterruptedIsOfThreeCommands }
{}

/// No command line asks for a task of 2^32 files or more.
pub fn files_are_few()
    ensures { FilesAreFew }
{}

/// The clauses of `parse` leave one answer to any arguments, except that memory may run out: the task that they ask for, or
/// `Usage` if they ask for none. So no command line that asks for a task is ever refused with `Usage`.
pub fn answers_are_one()
    ensures { AnswersAreOne }
{}
