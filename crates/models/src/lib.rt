//! What a model of a log is, when a model is valid for a log, and when its history is justified: each by a definition in
//! `specs/`, with the laws of these. `model_shape` defines when a model is well shaped; the laws of that are here.
//!
//! Each function here is a law: its body is empty, and its contract is what is proved. No call takes memory or does anything when
//! it runs.
#![tactic(auto)]

mod checking;
mod inferred;
mod parts;
mod replaying;

pub use checking::{
    first_part_exists, first_part_fails, one_first_part, valid_satisfies, valid_tells,
};
pub use inferred::{
    graph_is_listed, models_are_shaped, models_pass, models_tell, numbers_give_labels, one_model,
    shaped_are_formed,
};
pub use parts::{Part, ReplayPart};
pub use replaying::{first_step_exists, first_step_fails, one_first_step};
