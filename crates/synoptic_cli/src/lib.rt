//! The program `synoptic` as a library: from its arguments and the bytes of the inputs to the bytes of the output.
//!
//! `run` is the top call. It reads the inputs that the task needs, stage by stage, has the task's command compute the answer,
//! writes the answer, and returns a `Status`. `tell` writes the message of a status to an `ErrorStream`.
#![tactic(auto)]

mod answer;
mod commands;
mod law;
mod material;
mod message;
mod model_stage;
mod reading;
mod stages;
mod status;
mod task;
mod top;

pub use law::{
    histories_are_accepted, migrations_keep_models, models_are_accepted, outcomes_are_known,
    runs_end_alike,
};
pub use message::{ErrorStream, shown_source, tell};
pub use reading::{read_rules, status_of};
pub use status::{LimitKind, LogFault, Source, Status};
pub use task::{names_of, rules_name};
pub use top::run;
