//! `bench`: makes a log, infers its model for three kinds of invariants, writes it, reads it back and checks it, and prints the
//! sizes.
ghost use Rattle.std.specs.Prelude.{◌≡◌, ◌++◌, IfOk, OnOk};
ghost use Rattle.std.specs.Option.{IsSomeAnd};
ghost use Rattle.command_line.specs.Task.{IsSessions};
ghost use Rattle.models.specs.Models.{typed_words};
ghost use Rattle.synoptic_cli.specs.Commands.RunBench.{Answers, AnswersOf, IsChecked, SaysModel, TellsRun, log_lines, model_lines, summary};
ghost use Rattle.synoptic_cli.specs.Halts.{Gives};

use crate::answer::{Answer, NoAnswer};
use crate::commands::infer_model::write;
use crate::commands::inference::inferred;
use crate::commands::numbered::push_count;
use crate::status::Status;
use infer_core::{Stage, Workbench};
use invariants::{Kinds, Model, Seq};
use made_logs::read_made_log;
use model_check::{Verdict, check};
use model_file::FileError;
use model_reader::read_model;
use models::first_part_fails;
use std::alloc::{AllocError, Global};
use traces::TraceSet;

/// A model that was read, and whether it is valid.
#[derive(Drop)]
struct Checked {
    model: Model,
    verdict: Verdict,
}

/// Appends the lines with the sizes of the log to the text.
fn push_log(text: &mut Vec<u8>, traces: &TraceSet) -> Result<(), AllocError>
    ensures { OnOk result (text.new.items ≡ text.old.items ++ log_lines traces.now) }
{
    push_count(text, "traces ", traces.trace_count() as usize)?;
    push_count(text, "events ", traces.event_count() as usize)?;
    push_count(text, "types ", traces.types().len())?;
    Ok(())
}

/// Appends the lines with the sizes of the model to the text.
fn push_model(text: &mut Vec<u8>, model: &Model) -> Result<(), AllocError>
    ensures { OnOk result (text.new.items ≡ text.old.items ++ model_lines model.now) }
{
    push_count(text, "invariants ", model.invariants.len())?;
    push_count(text, "splits ", model.splits.len())?;
    push_count(text, "merges ", model.merges.len())?;
    push_count(text, "partitions ", model.partitions.len())?;
    Ok(())
}

/// The eight lines of a log and its model, for a model that the check accepts.
fn summary(alloc: Global, traces: &TraceSet, model: &Model) -> Result<Seq<u8>, AllocError>
    ensures { IfOk result (λ text. text ≡ summary traces.now model.now) }
{
    let mut text = Vec::new(alloc);
    push_log(&mut text, traces)?;
    push_model(&mut text, model)?;
    text.extend_from_slice(b"check yes\n")?;
    Ok(Seq::from_vec(text))
}

/// Reads the model in the text of a file, and checks it against the log.
fn read_and_check(alloc: Global, text: Vec<u8>, traces: &TraceSet) -> Result<Checked, AllocError>
    requires { SaysModel text.items }
    ensures { IfOk result (λ c. IsChecked text.items (typed_words c.model.kinds traces.now) c.model c.verdict) }
{
    let model = match read_model(alloc, text) {
        Ok(model) => model,
        Err(FileError::Memory) => return Err(AllocError),
        Err(_) => unreachable!(),
    };
    let checked = check(alloc, &model, traces);
    match checked {
        Ok(verdict) => Ok(Checked { model, verdict }),
        Err(error) => {
            drop(model);
            Err(error)
        }
    }
}

/// The sizes of the log and its model, after the model was written, read back and checked. The only error is out of memory.
fn tell(alloc: Global, workbench: &Workbench) -> Result<Answer, AllocError>
    requires kinds { (workbench.now).kinds ≡ Kinds.Three }
    requires stage { (workbench.now).stage ≡ Stage.Inferred }
    ensures { IfOk result (TellsRun (workbench.now).log) }
{
    first_part_fails();
    let traces = workbench.traces();
    let file = write(alloc, workbench)?;
    let checked = read_and_check(alloc, file.text.into_vec(), traces)?;
    let Checked { model, verdict } = checked;
    match verdict {
        Verdict::Yes => {
            let summed = summary(alloc, traces, &model);
            drop(model);
            Ok(Answer {
                status: Status::Done,
                text: summed?,
            })
        }
        Verdict::No(_) => unreachable!(),
    }
}

/// The sizes of the log of these traces and its model, which the check accepts.
fn tell_of(alloc: Global, traces: TraceSet) -> Result<Answer, NoAnswer>
    ensures { Gives (AnswersOf traces) result }
{
    let workbench = inferred(alloc, Kinds::Three, traces)?;
    let told = tell(alloc, &workbench);
    drop(workbench);
    Ok(told?)
}

/// The sizes of the made log of this number of sessions and its model, which the check accepts.
pub fn answer(alloc: Global, number: Option<u32>) -> Result<Answer, NoAnswer>
    requires { IsSomeAnd number IsSessions }
    ensures { Gives (Answers number) result }
{
    let Some(sessions) = number else {
        unreachable!()
    };
    let traces = read_made_log(alloc, sessions)?;
    tell_of(alloc, traces)
}
