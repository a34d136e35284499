//! `invariants`: prints the invariants that hold in every trace of a log.
ghost use Rattle.std.specs.Prelude.{IfOk, Ok};
ghost use Rattle.synoptic_cli.specs.Commands.PrintInvariants.{Answers};
ghost use Rattle.synoptic_cli.specs.Halts.{Gives};

use crate::answer::{Answer, NoAnswer};
use crate::material::Material;
use crate::status::Status;
use closure_miner::mine_again;
use invariants::{Kinds, candidates_tell, mined_keeps_order, mined_tells};
use reports::invariant_report;
use std::alloc::{AllocError, Global};

/// The answer. The only error is out of memory.
fn print(alloc: Global, kinds: Kinds, material: &Material) -> Result<Answer, AllocError>
    ensures { IfOk result (λ a. Answers kinds material.now (Ok a)) }
{
    mined_tells();
    mined_keeps_order();
    candidates_tell();
    let types = material.log.types();
    let mined = mine_again(alloc, kinds, &material.log)?;
    let report = invariant_report(alloc, types, mined.as_slice());
    drop(mined);
    let text = report?;
    Ok(Answer {
        status: Status::Done,
        text,
    })
}

/// The invariants of these kinds that hold in every trace, one per line: exactly the candidates that do.
pub fn answer(alloc: Global, kinds: Kinds, material: Material) -> Result<Answer, NoAnswer>
    ensures { Gives (Answers kinds material) result }
{
    let printed = print(alloc, kinds, &material);
    drop(material);
    Ok(printed?)
}
