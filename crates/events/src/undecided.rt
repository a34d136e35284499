//! Lines that nothing decides.
ghost use Rattle.std.specs.Prelude.{◌≡◌, ◌++◌, OnOk};
ghost use Rattle.events.specs.Undecided.{shown_lines, undecided_of};

use log_reader::{At, Taken};
use std::alloc::{AllocError, Global};

/// A line that nothing decides.
#[derive(Drop)]
pub struct UndecidedLine {
    /// Where it is.
    pub at: At,
    /// Its bytes, without the line feed and without a carriage return before it.
    pub bytes: Vec<u8>,
}

/// Puts the line at this place at the end, if nothing decided it.
pub fn put_undecided(
    alloc: Global,
    lines: &mut Vec<UndecidedLine>,
    at: At,
    line: &[u8],
    taken: Taken,
) -> Result<(), AllocError>
    ensures { OnOk result (shown_lines lines.new.items
        ≡ shown_lines lines.old.items ++ undecided_of at line.now taken) }
{
    match taken {
        Taken::Undecided => {
            let bytes = line.to_vec(alloc)?;
            lines.push(UndecidedLine { at, bytes })?;
            Ok(())
        }
        Taken::Event { placed: _, time: _ } => Ok(()),
        Taken::Nothing => Ok(()),
    }
}
