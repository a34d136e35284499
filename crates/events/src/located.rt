//! An event of a log with its line.
ghost use Rattle.std.specs.Prelude.{◌≡◌, ◌++◌, OnOk};
ghost use Rattle.events.specs.Located.{located_of};

use log_reader::{At, Taken};
use std::alloc::AllocError;

/// An event of a log, and the line it stands on.
#[derive(Clone, Copy)]
pub struct Located {
    /// Its line.
    pub at: At,
    /// The place of its trace, counted from 0 in the order first met.
    pub trace: u32,
    /// The number of its type.
    pub number: u16,
    /// Its time in billionths of the log's unit of time, and 0 if it has none.
    pub time: u128,
}

/// Puts the event of the line at this place at the end, if the line was taken for one.
pub fn put_event(events: &mut Vec<Located>, at: At, taken: Taken) -> Result<(), AllocError>
    ensures { OnOk result (events.new.items ≡ events.old.items ++ located_of at taken) }
{
    match taken {
        Taken::Event { placed, time } => {
            events.push(Located {
                at,
                trace: placed.trace,
                number: placed.number,
                time,
            })?;
            Ok(())
        }
        Taken::Undecided => Ok(()),
        Taken::Nothing => Ok(()),
    }
}
