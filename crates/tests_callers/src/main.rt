//! The example of docs/CALLERS.md: a program that uses the crates of Synoptic as libraries. It gathers a small log, infers its
//! model, writes the model's file, reads it back, and prints whether the model is valid for the log.
#![tactic(auto)]

ghost use Rattle.std.specs.Prelude.{◌≡◌, ◌<◌};

use infer_core::{Stage, Workbench, log_is_typed};
use invariants::Kinds;
use model_check::{Verdict, check};
use model_file::write_model;
use model_reader::read_model;
use models::models_are_shaped;
use std::alloc::{AllocError, Global};
use std::io;
use std::marker::Brand;
use std::sync::ledger::{Blank, Ledger};
use steps::Steps;
use trace_builder::{AddError, Builder};
use traces::TraceSet;

/// A log of two traces: an open and a close, and an open alone.
fn small_log(alloc: Global) -> Result<TraceSet, AddError> {
    let mut builder = Builder::new(alloc);
    builder.add(0, 0, "1", "open", 0)?;
    builder.add(0, 0, "2", "open", 0)?;
    builder.add(0, 0, "1", "close", 0)?;
    Ok(builder.finish()?)
}

/// Writes the inferred model, reads it back and checks it.
fn recheck(alloc: Global, workbench: &Workbench) -> Result<Verdict, AllocError>
    requires { (workbench.now).stage ≡ Stage.Inferred }
{
    models_are_shaped();
    log_is_typed(workbench.traces());
    let model = workbench.model(alloc)?;
    let written = write_model(alloc, &model);
    drop(model);
    let text = written?;
    // What was written reads back, so only memory can be missing.
    match read_model(alloc, text.into_vec()) {
        Ok(read) => check(alloc, &read, workbench.traces()),
        Err(_) => Err(AllocError),
    }
}

/// Infers the model of the log and checks it. `None` means that a limit was exceeded or memory ran out.
fn verdict<L: Ledger>(alloc: Global, blank: Blank) -> Option<Verdict>
    requires name { blank.name ≡ L.name }
    requires parts { blank.parts ≡ L.parts }
    requires stands { 0 < blank.parts }
{
    let traces = small_log(alloc).ok()?;
    let Ok(mut workbench) = Workbench::open(alloc, Kinds::Three, traces) else {
        return None;
    };
    let mut steps = Steps::<L>::open(blank);
    let verdict = match workbench.infer(&mut steps) {
        Ok(()) => recheck(alloc, &workbench).ok(),
        Err(_) => None,
    };
    drop(workbench);
    verdict
}

fn main(rt: HostRuntime) -> io::Result<()> {
    match verdict::<Brand>(rt.alloc(), Blank::new(1)) {
        Some(Verdict::Yes) => println!(rt; "yes"),
        Some(Verdict::No(_)) | None => println!(rt; "no"),
    }
}
