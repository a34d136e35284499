//! `infer`: infers the model of a log, and writes its file.
ghost use Rattle.std.specs.Prelude.{◌≡◌, IfOk};
ghost use Rattle.model_shape.specs.Shapes.{IsWellShaped};
ghost use Rattle.models.specs.Models.{typed_words, TypedWords};
ghost use Rattle.synoptic_cli.specs.Commands.InferModel.{Answers, IsInferredFrom, WritesModel};
ghost use Rattle.synoptic_cli.specs.Halts.{Gives};

use crate::answer::{Answer, NoAnswer};
use crate::commands::inference::inferred;
use crate::material::Material;
use crate::status::Status;
use infer_core::{Stage, Workbench, log_is_typed};
use invariants::{Kinds, Model};
use model_file::write_model;
use models::{models_are_shaped, models_pass, models_tell};
use std::alloc::{AllocError, Global};

/// The inferred model. The only error is out of memory.
fn model_of(alloc: Global, workbench: &Workbench) -> Result<Model, AllocError>
    requires { (workbench.now).stage ≡ Stage.Inferred }
    ensures { IfOk result (IsInferredFrom (typed_words (workbench.now).kinds (workbench.now).log)) }
{
    models_are_shaped();
    models_pass();
    models_tell();
    log_is_typed(workbench.traces());
    workbench.model(alloc)
}

/// The text of an inferred model. The only error is out of memory.
fn text_of(alloc: Global, model: &Model) -> Result<Answer, AllocError>
    requires { IsWellShaped model.now }
    ensures { IfOk result (λ answer. (log : TypedWords) → IsInferredFrom log model.now → WritesModel log answer) }
{
    let text = write_model(alloc, model)?;
    Ok(Answer {
        status: Status::Done,
        text,
    })
}

/// The text of the inferred model. The only error is out of memory.
pub fn write(alloc: Global, workbench: &Workbench) -> Result<Answer, AllocError>
    requires { (workbench.now).stage ≡ Stage.Inferred }
    ensures { IfOk result (WritesModel (typed_words (workbench.now).kinds (workbench.now).log)) }
{
    let model = model_of(alloc, workbench)?;
    let written = text_of(alloc, &model);
    drop(model);
    written
}

/// The same for a workbench that is not needed any more. Its memory is given back before the text takes its own.
fn write_last(alloc: Global, workbench: Workbench) -> Result<Answer, AllocError>
    requires { workbench.stage ≡ Stage.Inferred }
    ensures { IfOk result (WritesModel (typed_words workbench.kinds workbench.log)) }
{
    let made = model_of(alloc, &workbench);
    drop(workbench);
    let model = made?;
    let written = text_of(alloc, &model);
    drop(model);
    written
}

/// The text of the log's model for these kinds of invariants. The model is valid for the log, so it keeps what `Promises`
/// states, and its history is justified by the log.
pub fn answer(alloc: Global, kinds: Kinds, material: Material) -> Result<Answer, NoAnswer>
    ensures { Gives (Answers kinds material) result }
{
    let Material { log, model } = material;
    drop(model);
    let workbench = inferred(alloc, kinds, log)?;
    Ok(write_last(alloc, workbench)?)
}
