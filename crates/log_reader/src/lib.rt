//! Reads the traces of a log from its inputs.
#![tactic(auto)]

mod cut;
mod decider;
mod form;
mod law;
mod line_error;
mod line_reader;
mod reader;
mod reading;
mod refusal;
mod so_far;
mod take_lines;
mod taken;

pub use form::Form;
pub use law::{
    a_refusal_is_of_the_first_line, alike_rules_read_alike, events_are_those_of_lines,
    lines_come_in_order, one_file_passes_the_limit,
};
pub use line_error::LineError;
pub use line_reader::Lines;
pub use reader::LogReader;
pub use reading::{read_inputs, read_log};
pub use refusal::{At, ReadError};
pub use take_lines::TakeLines;
pub use taken::Taken;
