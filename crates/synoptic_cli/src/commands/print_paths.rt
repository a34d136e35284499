//! `paths`: prints the paths that the traces of a log take through its model.
ghost use Rattle.std.specs.Prelude.{◌≡◌, IfOk};
ghost use Rattle.synoptic_cli.specs.Commands.PrintPaths.{Answers, TellsPaths};
ghost use Rattle.synoptic_cli.specs.Halts.{Gives};

use crate::answer::{Answer, NoAnswer};
use crate::commands::inference::placed;
use crate::material::Material;
use crate::status::Status;
use infer_core::{Stage, Workbench, log_is_typed};
use invariants::Kinds;
use partition_model::{accepts_traces, coarsening_keeps, refinement_keeps};
use reports::{path_report, paths_tell};
use std::alloc::{AllocError, Global};

/// The paths through the model, by the final ids of the events. The only error is out of memory.
fn print(alloc: Global, workbench: &Workbench) -> Result<Answer, AllocError>
    requires { (workbench.now).stage ≡ Stage.Placed }
    ensures { IfOk result (TellsPaths (workbench.now).kinds (workbench.now).log) }
{
    refinement_keeps();
    coarsening_keeps();
    accepts_traces();
    paths_tell();
    let traces = workbench.traces();
    log_is_typed(traces);
    let ids = workbench.parts(alloc)?;
    let report = path_report(alloc, traces, ids.as_slice());
    drop(ids);
    let text = report?;
    Ok(Answer {
        status: Status::Done,
        text,
    })
}

/// The paths of the traces through the model that `infer` writes for these kinds of invariants, one per line, each with the
/// number of traces that take it.
pub fn answer(alloc: Global, kinds: Kinds, material: Material) -> Result<Answer, NoAnswer>
    ensures { Gives (Answers kinds material) result }
{
    let Material { log, model } = material;
    drop(model);
    let workbench = placed(alloc, kinds, log)?;
    let printed = print(alloc, &workbench);
    drop(workbench);
    Ok(printed?)
}
