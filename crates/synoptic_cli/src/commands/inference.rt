//! The inference that commands share.
ghost use Rattle.std.specs.Prelude.{◌≡◌, ◌<◌, IfOk, IfErr, OnOk};
ghost use Rattle.models.specs.Models.{typed_words};
ghost use Rattle.synoptic_cli.specs.Commands.Inference.{kind_of, NotInferred, PassesLimit, PassesNone};

use crate::answer::NoAnswer;
use crate::status::LimitKind;
use infer_core::{InferLimit, Stage, Workbench};
use invariants::Kinds;
use std::alloc::Global;
use std::marker::Brand;
use std::sync::ledger::{Blank, Ledger};
use steps::Steps;
use traces::TraceSet;

/// The limit of a run for a limit of inference.
fn kind_of(limit: InferLimit) -> LimitKind
    ensures { result ≡ kind_of limit }
{
    match limit {
        InferLimit::Partitions => LimitKind::Partitions,
        InferLimit::Evidence => LimitKind::Paths,
    }
}

/// Infers the model of the log of a workbench, or returns the limit that its inference exceeds. Nobody reads how many steps it
/// takes.
fn infer<L: Ledger>(workbench: &mut Workbench, blank: Blank) -> Result<(), LimitKind>
    requires name { blank.name ≡ L.name }
    requires parts { blank.parts ≡ L.parts }
    requires stands { 0 < blank.parts }
    requires opened { (workbench.old).stage ≡ Stage.Opened }

    // The kinds that are asked for and the log stay. The model is inferred, or the limit that its inference exceeds is
    // returned.
    ensures kinds { (workbench.new).kinds ≡ (workbench.old).kinds }
    ensures log { (workbench.new).log ≡ (workbench.old).log }
    ensures stage { OnOk result ((workbench.new).stage ≡ Stage.Inferred) }
    ensures none { OnOk result (PassesNone (typed_words (workbench.old).kinds (workbench.old).log)) }
    ensures limit { IfErr result (λ kind. PassesLimit kind (typed_words (workbench.old).kinds (workbench.old).log)) }
{
    let mut steps = Steps::<L>::open(blank);
    match workbench.infer(&mut steps) {
        Ok(()) => Ok(()),
        Err(limit) => Err(kind_of(limit)),
    }
}

/// A workbench on which the model of the traces is inferred, for these kinds of invariants.
///
/// `Limit(Partitions)` and `Limit(Paths)` are returned exactly if inference exceeds them, unless memory runs out.
pub fn inferred(alloc: Global, kinds: Kinds, traces: TraceSet) -> Result<Workbench, NoAnswer>
    ensures workbench { IfOk result (λ workbench. workbench ≡ record {
      kinds = kinds;
      log = traces;
      stage = Stage.Inferred;
    }) }
    ensures none { OnOk result (PassesNone (typed_words kinds traces)) }
    ensures err { IfErr result (NotInferred (typed_words kinds traces)) }
{
    let Ok(mut workbench) = Workbench::open(alloc, kinds, traces) else {
        return Err(NoAnswer::Memory);
    };
    match infer::<Brand>(&mut workbench, Blank::new(1)) {
        Ok(()) => Ok(workbench),
        Err(kind) => {
            drop(workbench);
            Err(NoAnswer::Limit(kind))
        }
    }
}

/// Finds the final ids of the events of the log of a workbench, or returns the limit that its inference exceeds. Nobody reads how
/// many steps it takes.
fn place<L: Ledger>(workbench: &mut Workbench, blank: Blank) -> Result<(), LimitKind>
    requires name { blank.name ≡ L.name }
    requires parts { blank.parts ≡ L.parts }
    requires stands { 0 < blank.parts }
    requires opened { (workbench.old).stage ≡ Stage.Opened }

    // The kinds that are asked for and the log stay. The ids are known, or the limit that inference of the log exceeds is
    // returned.
    ensures kinds { (workbench.new).kinds ≡ (workbench.old).kinds }
    ensures log { (workbench.new).log ≡ (workbench.old).log }
    ensures stage { OnOk result ((workbench.new).stage ≡ Stage.Placed) }
    ensures none { OnOk result (PassesNone (typed_words (workbench.old).kinds (workbench.old).log)) }
    ensures limit { IfErr result (λ kind. PassesLimit kind (typed_words (workbench.old).kinds (workbench.old).log)) }
{
    let mut steps = Steps::<L>::open(blank);
    match workbench.place(&mut steps) {
        Ok(()) => Ok(()),
        Err(limit) => Err(kind_of(limit)),
    }
}

/// A workbench that knows the final ids of the events of these traces, for these kinds of invariants, and no model. That
/// takes less time than the model.
///
/// `Limit(Partitions)` and `Limit(Paths)` are returned exactly if inference exceeds them, unless memory runs out.
pub fn placed(alloc: Global, kinds: Kinds, traces: TraceSet) -> Result<Workbench, NoAnswer>
    ensures workbench { IfOk result (λ workbench. workbench ≡ record {
      kinds = kinds;
      log = traces;
      stage = Stage.Placed;
    }) }
    ensures none { OnOk result (PassesNone (typed_words kinds traces)) }
    ensures err { IfErr result (NotInferred (typed_words kinds traces)) }
{
    let Ok(mut workbench) = Workbench::open(alloc, kinds, traces) else {
        return Err(NoAnswer::Memory);
    };
    match place::<Brand>(&mut workbench, Blank::new(1)) {
        Ok(()) => Ok(workbench),
        Err(kind) => {
            drop(workbench);
            Err(NoAnswer::Limit(kind))
        }
    }
}
