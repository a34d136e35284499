//! Cases of keys, events, rules, logs and models.
//!
//! A case ends at an empty line. Its first line is its kind, perhaps with arguments, and the lines after it are its steps. The
//! first line is printed again, followed by the result of the steps.

mod changes;
mod events;
mod input_lines;
mod keys;
mod logs;
mod made;
mod notation;
mod rules;
mod said;
mod text;
mod verdict;

use crate::tools::halves;
use std::alloc::{AllocError, Global};
use std::fmt::Write;

/// Takes the steps of a case on model files, and reports the result.
fn take_model_steps(
    alloc: Global,
    kind: &str,
    words: &str,
    steps: &str,
    out: &mut String,
) -> Result<(), AllocError> {
    match kind {
        "text" => text::run(alloc, steps, out),
        "old" => text::old(alloc, steps, out),
        "fronts" => text::fronts(alloc, steps, out),
        "said" => said::run(alloc, steps, out),
        "verdict" => verdict::run(alloc, words, steps, out),
        _ => out.push_str("no such kind\n"),
    }
}

/// Takes the steps of a case of this kind, and reports the result.
fn take_steps(
    alloc: Global,
    heading: &str,
    steps: &str,
    out: &mut String,
) -> Result<(), AllocError> {
    let (kind, words) = halves(heading, ' ');
    match kind {
        "keys" => keys::run(alloc, steps, out),
        "events" => events::run(alloc, steps, out),
        "rules" => rules::run(alloc, words, steps, out),
        "lines" => input_lines::run(alloc, words, steps, out),
        "logs" => logs::run(alloc, words, steps, out),
        "made" => made::run(alloc, words, out),
        _ => take_model_steps(alloc, kind, words, steps, out),
    }
}

/// Appends the results of the cases to the text.
pub fn tell(alloc: Global, cases: &str, out: &mut String) -> Result<(), AllocError> {
    for case in cases.split("\n\n") {
        if !case.is_empty() {
            let (heading, steps) = halves(case, '\n');
            writeln!(out, "{heading}").and(take_steps(alloc, heading, steps, out))?;
        }
    }
    Ok(())
}
