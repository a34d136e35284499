//! The program `synoptic-events` as a library: the events of a log, each with the place of its line.
//!
//! `run` is the top call. It reads a log as `synoptic` does, and writes its events, the log in the plain form, or the lines
//! that no rule decides. `tell` writes the message of an ending to an `ErrorStream`.
#![tactic(auto)]

mod answer;
mod ending;
mod event_text;
mod law;
mod message;
mod mode;
mod plain;
mod request;
mod rules;
mod show;
mod top;
mod undecided_text;

pub use ending::{Ending, PlainFault};
pub use law::{arguments_tell, plain_keeps_the_words, runs_are_alike, small_logs_tell};
pub use message::tell;
pub use mode::Mode;
pub use top::run;
