//! `replay`: reports whether the history of the model in a file is justified by a log.
ghost use Rattle.std.specs.Prelude.{◌≡◌, IfOk, Ok};
ghost use Rattle.model_shape.specs.Shapes.{IsWellShaped};
ghost use Rattle.synoptic_cli.specs.Commands.ReplayModel.{Answers, answer_of, no_text};
ghost use Rattle.synoptic_cli.specs.Halts.{Gives, IsVerdict};

use crate::answer::{Answer, NoAnswer};
use crate::commands::numbered::{line, numbered_line};
use crate::material::Material;
use crate::status::Status;
use invariants::Seq;
use models::first_step_fails;
use replay_check::{Replay, ReplayPart, replay};
use std::alloc::{AllocError, Global};

/// The line that names the step that fails.
fn no_line(alloc: Global, part: ReplayPart) -> Result<Seq<u8>, AllocError>
    ensures { IfOk result (λ text. text ≡ no_text part) }
{
    match part {
        ReplayPart::Types => line(alloc, "no: types\n"),
        ReplayPart::Split(number) => numbered_line(alloc, "no: split ", number),
        ReplayPart::Merge(number) => numbered_line(alloc, "no: merge ", number),
        ReplayPart::Graph => line(alloc, "no: graph\n"),
    }
}

/// The answer for the outcome of a replay.
fn answer_of(alloc: Global, outcome: Replay) -> Result<Answer, AllocError>
    ensures value { IfOk result (λ a. a ≡ answer_of outcome) }
    ensures verdict { IfOk result (λ a. IsVerdict a.status) }
{
    match outcome {
        Replay::Yes => Ok(Answer {
            status: Status::Done,
            text: line(alloc, "yes\n")?,
        }),
        Replay::No(part) => Ok(Answer {
            status: Status::NoReplay(part),
            text: no_line(alloc, part)?,
        }),
    }
}

/// The answer. The only error is out of memory.
fn print(alloc: Global, material: &Material) -> Result<Answer, AllocError>
    requires { IsWellShaped material.now.model }
    ensures value { IfOk result (λ a. Answers material.now (Ok a)) }
    ensures verdict { IfOk result (λ a. IsVerdict a.status) }
{
    first_step_fails();
    let outcome = replay(alloc, &material.model, &material.log)?;
    answer_of(alloc, outcome)
}

/// Whether the history of the model in the file is justified by the log: `yes`, or `no` with the first step that fails.
pub fn answer(alloc: Global, material: Material) -> Result<Answer, NoAnswer>
    requires { IsWellShaped material.model }
    ensures { Gives (Answers material) result }
{
    let printed = print(alloc, &material);
    drop(material);
    Ok(printed?)
}
