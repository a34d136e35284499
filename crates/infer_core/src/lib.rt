//! Inference of a model: one run from the traces of a log to its model, in memory that is allocated before the run
//! begins.
#![tactic(auto)]

mod alike;
mod flags;
mod labels;
mod law;
mod model;
mod portions;
mod run;
mod tools;
mod whole;
mod workbench;

pub use law::{ends_exclude, log_is_typed, one_final};
pub use workbench::{InferLimit, Stage, Workbench};
