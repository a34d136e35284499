//! A made log of a given size: sessions of calls on a file, drawn by a fixed generator of numbers.
#![tactic(auto)]

mod call;
mod generator;
mod law;
mod log;

pub use law::sessions_stand_in_order;
pub use log::make_log;
