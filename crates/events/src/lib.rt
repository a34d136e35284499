//! Reads the events of a log, each with the line it stands on, and the lines that nothing decides.
#![tactic(auto)]

mod event_reader;
mod events;
mod law;
mod located;
mod reading;
mod undecided;
mod undecided_reader;

pub use events::Events;
pub use law::{
    a_small_log_tells, events_stand_on_their_lines, located_events_are_the_log,
    undecided_lines_are_listed,
};
pub use located::Located;
pub use reading::{read_events, read_undecided};
pub use undecided::UndecidedLine;
