//! Reads the events of a log, and the lines that nothing decides.
ghost use Rattle.std.specs.Prelude.{◌≡◌, ◌<◌, ◌≤◌, ◌+◌, ◌^◌, length, true, Err, IfOk, IfErr};
ghost use Rattle.outside.specs.Inputs.{Stays};
ghost use Rattle.outside.specs.Turns.{OpensFirst};
ghost use Rattle.log_reader.specs.Inputs.{HasReadCause};
ghost use Rattle.log_reader.specs.Reading.{setting};
ghost use Rattle.log_reader.specs.Views.{form_view, names_in};
ghost use Rattle.events.specs.Reading.{ReadsEvents, ReadsUndecided};
ghost use Rattle.events.specs.Undecided.{shown_lines};

use crate::event_reader::EventReader;
use crate::events::Events;
use crate::undecided::UndecidedLine;
use crate::undecided_reader::UndecidedReader;
use log_reader::{Form, Lines, ReadError, read_inputs};
use outside::Inputs;
use std::alloc::Global;
use traces::gathering_in_order_is_the_log;

/// The traces of the log in the named inputs, and its events in the order of their lines, each with the line it stands on. The
/// inputs are read as [`read_log`](log_reader::read_log) reads them. The documentation of that function states when each error is
/// returned and what it leaves. The same is true of this one.
pub fn read_events<I: Inputs>(
    alloc: Global,
    inputs: &mut I,
    names: &[String],
    form: Form<'_>,
    ignore: bool,
    join: bool,
) -> Result<Events, ReadError>
    requires { length names.now < 2 ^ 32 }
    ensures stays { Stays (I.state inputs.old) (I.state inputs.new) }

    // The events that are read, and the cause of each error.
    ensures ok { IfOk result (λ events. ReadsEvents (setting (form_view form.entry) ignore join)
        (names_in names.now) (I.state inputs.old) (I.state inputs.new)
        events.traces events.located.items) }
    ensures err { IfErr result (HasReadCause (setting (form_view form.entry) ignore join)
        (names_in names.now) (I.state inputs.old) (I.state inputs.new)) }

    // Out of memory hides no fault, and no more inputs are opened than there are names.
    ensures memory { result ≡ Err ReadError.Memory
        → (I.state inputs.new).faults ≡ (I.state inputs.old).faults }
    ensures opens { (I.state inputs.new).opens
        ≤ (I.state inputs.old).opens + length (names_in names.now) }

    // If files are known, a prefix of the inputs was opened, each but the last was read to its end, and no others were opened.
    ensures turn { OpensFirst (names_in names.now) (I.state inputs.old) (I.state inputs.new) }
{
    let mut lines = Lines::make(alloc)?;
    let mut reader = EventReader::make(alloc, form, ignore, join)?;
    match read_inputs(alloc, inputs, names, &mut lines, &mut reader) {
        Ok(()) => drop(lines),
        Err(error) => {
            drop(lines);
            drop(reader);
            return Err(error);
        }
    }
    gathering_in_order_is_the_log();
    Ok(reader.finish()?)
}

/// The lines of the named inputs that nothing decides, in their order. The inputs are read as [`read_log`](log_reader::read_log)
/// reads them with `ignore`. The documentation of that function states when each error is returned and what it leaves. The same
/// is true of this one.
pub fn read_undecided<I: Inputs>(
    alloc: Global,
    inputs: &mut I,
    names: &[String],
    form: Form<'_>,
    join: bool,
) -> Result<Vec<UndecidedLine>, ReadError>
    requires { length names.now < 2 ^ 32 }
    ensures stays { Stays (I.state inputs.old) (I.state inputs.new) }

    // The lines that are read, and the cause of each error.
    ensures ok { IfOk result (λ lines. ReadsUndecided (setting (form_view form.entry) true join)
        (names_in names.now) (I.state inputs.old) (I.state inputs.new) (shown_lines lines.items)) }
    ensures err { IfErr result (HasReadCause (setting (form_view form.entry) true join)
        (names_in names.now) (I.state inputs.old) (I.state inputs.new)) }

    // Out of memory hides no fault, and no more inputs are opened than there are names.
    ensures memory { result ≡ Err ReadError.Memory
        → (I.state inputs.new).faults ≡ (I.state inputs.old).faults }
    ensures opens { (I.state inputs.new).opens
        ≤ (I.state inputs.old).opens + length (names_in names.now) }

    // If files are known, a prefix of the inputs was opened, each but the last was read to its end, and no others were opened.
    ensures turn { OpensFirst (names_in names.now) (I.state inputs.old) (I.state inputs.new) }
{
    let mut lines = Lines::make(alloc)?;
    let mut reader = UndecidedReader::make(alloc, form, join)?;
    match read_inputs(alloc, inputs, names, &mut lines, &mut reader) {
        Ok(()) => drop(lines),
        Err(error) => {
            drop(lines);
            drop(reader);
            return Err(error);
        }
    }
    Ok(reader.finish())
}
