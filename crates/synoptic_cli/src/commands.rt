//! The table of the commands. Each command has a file of its own, with the answer that it computes from what was read.
ghost use Rattle.command_line.specs.Task.{HasSessions, task_held};
ghost use Rattle.synoptic_cli.specs.Commands.{Answers};
ghost use Rattle.synoptic_cli.specs.Halts.{Gives, FitsVersion};
ghost use Rattle.synoptic_cli.specs.Task.{version_of};

mod check_model;
mod infer_model;
mod inference;
mod migrate_model;
mod numbered;
mod print_graph;
mod print_graph_of_model;
mod print_invariants;
mod print_paths;
mod replay_model;
mod run_bench;

use crate::answer::{Answer, NoAnswer};
use crate::material::Material;
use crate::task::kinds_of;
use command_line::{Command, Task};
use std::alloc::Global;

/// The answer of the task's command for what was read, or why there is none.
pub fn answer(alloc: Global, task: &Task<'_>, material: Material) -> Result<Answer, NoAnswer>
    requires shaped { FitsVersion (version_of (task_held task.now).command) material.model }
    requires sessions { HasSessions (task_held task.now) }
    ensures { Gives (Answers (task_held task.now) material) result }
{
    match task.command {
        Command::Invariants => print_invariants::answer(alloc, kinds_of(task), material),
        Command::Graph => print_graph::answer(alloc, material),
        Command::GraphOfModel => print_graph_of_model::answer(alloc, material),
        Command::Infer => infer_model::answer(alloc, kinds_of(task), material),
        Command::Check => check_model::answer(alloc, material),
        Command::Replay => replay_model::answer(alloc, material),
        Command::Paths => print_paths::answer(alloc, kinds_of(task), material),
        Command::Bench => {
            drop(material);
            run_bench::answer(alloc, task.number)
        }
        Command::Migrate => migrate_model::answer(alloc, material),
    }
}
