//! Reads a model file. The spelling that `model_file::write_model` writes is read without a tokenizer.
//!
//! Almost every model file was written by `infer` or `migrate`: one line without blanks, with its keys in a fixed order. Such
//! bytes are read in one pass, and the labels are parts of them. `model_file::read_model` reads all others, and gives every
//! refusal.
#![tactic(auto)]

mod decimals;
mod entries;
mod labels;
mod law;
mod lists;
mod members;
mod reading;
mod rest;
mod texts;

pub use law::{answers_are_one, unshaped_models_are_not_read};
pub use reading::read_model;
