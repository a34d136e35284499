//! Runs of the program over inputs and sinks in memory. Each line is a step of a case.

mod case;
mod inputs;

use case::Case;
use std::alloc::{AllocError, Global};

/// Takes the steps of all runs, and appends what they report to the text.
fn take_steps(
    alloc: Global,
    case: &mut Case,
    steps: &str,
    out: &mut String,
) -> Result<(), AllocError> {
    for step in steps.lines() {
        case.step(alloc, step, out)?;
    }
    Ok(())
}

/// The same from the first case on.
pub fn tell(alloc: Global, steps: &str, out: &mut String) -> Result<(), AllocError> {
    let mut case = Case::new(alloc);
    let end = take_steps(alloc, &mut case, steps, out);
    drop(case);
    end
}
