//! What graphs of partitions answer: their splits, merges and views, shortest counterexample paths, labels, marks, and whole
//! runs of refinement and coarsening. Each line is a step. For each step one line is printed: the name of the step and its
//! result.
//!
//! - `log a b|a c` makes the log of these traces, and its first graph; `shared` the graph of its distinct words. Printed are
//!   the number of traces and events of the graph, and the number of each trace's word.
//! - `take 3/6 2+4` makes the splits and merges. Printed is each new id, or whether two ids are a pair. `chain 3/6 9` splits by
//!   6, then by the new id, and so on, nine times.
//! - `graph` prints all of the graph, `spread` all of the graph that is spread over the traces, `sizes 3 4` how many events
//!   these ids have, `view` and `view 2+4` what the graph and the merged one show, `edges 2>3` whether there is this edge,
//!   `places 0231` where this path leaves the traces.
//! - `invs AF 2 4,NF 3 3` sets these invariants; `paths` and `paths 2+4` print the shortest counterexample path of each of
//!   them, in the graph and in the merged one, `label` and `label 2+4` label them, `labels` prints the labels again,
//!   `satisfied` which of them hold.
//! - `marks` finds the marks of the graph, and `clashes 3-7 3+8` queries them for two ids, or merges these.
//! - `refine` runs refinement on the first graph of the log by what is mined from it, `infer` coarsening too. With a 4 after
//!   it, four kinds are mined.
//!
//! The cases are in the folder `cases/graphs`.

mod desk;
mod known;
mod labels_and_marks;
mod logs;
mod moves;
mod paths;
mod runs;
mod texts;
mod views;

use desk::Desk;
use std::alloc::{AllocError, Global};

/// Takes the steps of all lines, and appends what they report to the text.
fn take_all(
    alloc: Global,
    desk: &mut Desk,
    steps: &str,
    out: &mut String,
) -> Result<(), AllocError> {
    for step in steps.lines() {
        desk.step(alloc, step, out)?;
    }
    Ok(())
}

/// The same from an empty desk on.
pub fn tell(alloc: Global, steps: &str, out: &mut String) -> Result<(), AllocError> {
    let mut desk = Desk::new();
    let end = take_all(alloc, &mut desk, steps, out);
    drop(desk);
    end
}
