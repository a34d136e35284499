//! What the arguments of the program ask for.
//!
//! `clap` reads the arguments, and the table of the commands defines which uses of a command are allowed: [`parse`].
#![tactic(auto)]

mod command;
mod given;
mod law;
mod number;
mod table;
mod task;

pub use crate::given::ParseError;
pub use crate::law::{
    answers_are_one, files_are_few, interrupted_is_of_three_commands, lines_tell,
};
pub use crate::table::Command;
pub use crate::task::{LineForm, Task, parse};
