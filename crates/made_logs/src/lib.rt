//! Made logs as they are read: the log that the text of a number of sessions is, and its traces.
#![tactic(auto)]

mod law;
mod reading;
mod text_input;

pub use law::made_logs_are_decided;
pub use reading::read_made_log;
