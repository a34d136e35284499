//! `graph`: prints the graph of a log that has one partition for each type.
ghost use Rattle.std.specs.Prelude.{IfOk, Ok};
ghost use Rattle.synoptic_cli.specs.Commands.PrintGraph.{Answers};
ghost use Rattle.synoptic_cli.specs.Halts.{Gives};

use crate::answer::{Answer, NoAnswer};
use crate::material::Material;
use crate::status::Status;
use partition_graph::start_lists;
use partition_model::{accepts_traces, graphs_are_formed, listings_tell};
use reports::graph_report;
use std::alloc::{AllocError, Global};

/// The answer. The only error is out of memory.
fn print(alloc: Global, material: &Material) -> Result<Answer, AllocError>
    ensures { IfOk result (λ a. Answers material.now (Ok a)) }
{
    accepts_traces();
    listings_tell();
    graphs_are_formed();
    let (partitions, edges) = start_lists(alloc, &material.log)?;
    let types = material.log.types();
    let report = graph_report(alloc, types, partitions.as_slice(), edges.as_slice());
    drop(edges);
    drop(partitions);
    let text = report?;
    Ok(Answer {
        status: Status::Done,
        text,
    })
}

/// The edges of the graph, one per line. They are exactly those of the log, and each trace is the word of a path of the graph.
pub fn answer(alloc: Global, material: Material) -> Result<Answer, NoAnswer>
    ensures { Gives (Answers material) result }
{
    let printed = print(alloc, &material);
    drop(material);
    Ok(printed?)
}
