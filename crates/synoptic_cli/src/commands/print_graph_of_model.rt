//! `graph` with a model file: prints the graph of that model.
ghost use Rattle.std.specs.Prelude.{IfOk, Ok};
ghost use Rattle.synoptic_cli.specs.Commands.PrintGraphOfModel.{Answers};
ghost use Rattle.synoptic_cli.specs.Halts.{Gives};

use crate::answer::{Answer, NoAnswer};
use crate::material::Material;
use crate::status::Status;
use reports::graph_report;
use std::alloc::{AllocError, Global};

/// The answer. The only error is out of memory.
fn print(alloc: Global, material: &Material) -> Result<Answer, AllocError>
    ensures { IfOk result (λ a. Answers material.now (Ok a)) }
{
    let model = &material.model;
    let text = graph_report(
        alloc,
        &model.types,
        model.partitions.as_slice(),
        model.edges.as_slice(),
    )?;
    Ok(Answer {
        status: Status::Done,
        text,
    })
}

/// The edges of the graph of the model in the file, one per line.
pub fn answer(alloc: Global, material: Material) -> Result<Answer, NoAnswer>
    ensures { Gives (Answers material) result }
{
    let printed = print(alloc, &material);
    drop(material);
    Ok(printed?)
}
