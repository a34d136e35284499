//! `migrate`: writes the model of a file of version 1 as a file of version 2.
ghost use Rattle.std.specs.Prelude.{IfOk, Ok};
ghost use Rattle.model_shape.specs.Shapes.{IsOfVersion1, IsWellShaped};
ghost use Rattle.synoptic_cli.specs.Commands.MigrateModel.{Answers};
ghost use Rattle.synoptic_cli.specs.Halts.{Gives};

use crate::answer::{Answer, NoAnswer};
use crate::material::Material;
use crate::status::Status;
use model_file::write_model;
use std::alloc::{AllocError, Global};

/// The answer. The only error is out of memory.
fn print(alloc: Global, material: &Material) -> Result<Answer, AllocError>
    requires shaped { IsWellShaped material.now.model }
    requires former { IsOfVersion1 material.now.model }
    ensures { IfOk result (λ a. Answers material.now (Ok a)) }
{
    let text = write_model(alloc, &material.model)?;
    Ok(Answer {
        status: Status::Done,
        text,
    })
}

/// The text of version 2 of the model in the file. It is read back as that very model.
pub fn answer(alloc: Global, material: Material) -> Result<Answer, NoAnswer>
    requires shaped { IsWellShaped material.model }
    requires former { IsOfVersion1 material.model }
    ensures { Gives (Answers material) result }
{
    let printed = print(alloc, &material);
    drop(material);
    Ok(printed?)
}
