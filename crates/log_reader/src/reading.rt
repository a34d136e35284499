//! Reads the traces of a log.
ghost use Rattle.std.specs.Prelude.{◌≡◌, ◌<◌, ◌≤◌, ◌+◌, ◌-◌, ◌^◌, [], length, slice_get, Some, Err, IfOk, IfErr, OnOk};
ghost use Rattle.limits.specs.declared.TheConstants.{MAX_INPUT_BYTES};
ghost use Rattle.outside.specs.Inputs.{Stays};
ghost use Rattle.outside.specs.Reading.{LosesFront};
ghost use Rattle.outside.specs.Turns.{OpensFirst};
ghost use Rattle.log_reader.specs.Files.{ReadsFile, ReadsInputs, ReadsLines, HasFileCause, HasLinesCause, IsBetween, IsNotOpened, IsOpened, OpensFile, OpensOne};
ghost use Rattle.log_reader.specs.LineReader.{unused_lines};
ghost use Rattle.log_reader.specs.Inputs.{ReadsLog, HasReadCause};
ghost use Rattle.log_reader.specs.Reading.{setting};
ghost use Rattle.log_reader.specs.Views.{form_view, names_in};

use crate::form::Form;
use crate::line_error::LineError;
use crate::line_reader::Lines;
use crate::reader::LogReader;
use crate::refusal::{At, ReadError};
use crate::take_lines::TakeLines;
use limits::MAX_INPUT_BYTES;
use outside::{Inputs, OpenError};
use std::alloc::Global;
use traces::{TraceSet, gathering_in_order_is_the_log};

/// The name of the input with this number. If no name is given, it is the empty name.
fn name_at(names: &[String], number: usize) -> &str
    requires { number < length (names_in names.now) }
    ensures { slice_get (names_in names.now) number ≡ Some result.now }
{
    match names.get(number) {
        Some(name) => name.as_str(),
        None => "",
    }
}

/// How many inputs are read: one if no name is given.
fn count_of(names: &[String]) -> usize
    ensures value { result ≡ length (names_in names.now) }
    ensures few { result ≤ length names.now + 1 }
{
    names.len().max(1)
}

/// Takes in the lines of the open input, which has this number.
fn read_lines<I: Inputs, T: TakeLines>(
    alloc: Global,
    inputs: &mut I,
    lines: &mut Lines,
    reader: &mut T,
    number: u32,
) -> Result<(), ReadError>
    requires ready { (T.seen reader.old).ready }
    requires between { IsBetween lines.old }
    requires first { (lines.old).number ≡ 0 }
    requires few { (T.seen reader.old).section ≤ (lines.old).taken }

    // What stays of the inputs.
    ensures stays { Stays (I.state inputs.old) (I.state inputs.new) }
    ensures mark { (I.state inputs.new).mark ≡ (I.state inputs.old).mark }
    ensures opens { (I.state inputs.new).opens ≡ (I.state inputs.old).opens }
    ensures turn { (I.state inputs.new).followed ≡ (I.state inputs.old).followed }
    ensures left { LosesFront (I.state inputs.old).rest (I.state inputs.new).rest
        (MAX_INPUT_BYTES - (lines.old).taken) }

    // The lines that are taken in, and each error with its cause.
    ensures ok { OnOk result (ReadsLines (I.state inputs.old) (I.state inputs.new) number
        lines.old lines.new (T.seen reader.old) (T.seen reader.new)) }
    ensures err { IfErr result
        (HasLinesCause (I.state inputs.old) (I.state inputs.new) number lines.old (T.seen reader.old)) }
    ensures memory { result ≡ Err ReadError.Memory
        → (I.state inputs.new).faults ≡ (I.state inputs.old).faults }
{
    'lines: loop {
        match lines.next(inputs) {
            Ok(true) => {}
            Ok(false) => return Ok(()),
            Err(LineError::ReadFault) => return Err(ReadError::ReadFault(number)),
            Err(LineError::TooLong) => {
                let line = lines.number() + 1;
                return Err(ReadError::LineTooLong(At { file: number, line }));
            }
            Err(LineError::InputLimit) => return Err(ReadError::InputLimit),
        }
        let at = At {
            file: number,
            line: lines.number(),
        };
        reader.take_line(
            alloc,
            at,
            lines.line(),
            lines.line_and_more(),
            lines.is_known_ascii(),
        )?;
        if !lines.ends_with_feed() {
            return Ok(());
        }
    }
}

/// Opens the input with this number. If that fails, or there is none of this name, the error is that the input could not be read.
fn open_input<I: Inputs>(inputs: &mut I, name: &str, number: u32) -> Result<(), ReadError>
    ensures stays { Stays (I.state inputs.old) (I.state inputs.new) }
    ensures ok { OnOk result (IsOpened (I.state inputs.old) (I.state inputs.new) name.now) }
    ensures err { IfErr result
        (IsNotOpened (I.state inputs.old) (I.state inputs.new) name.now number) }
{
    match inputs.open(name) {
        Ok(()) => Ok(()),
        Err(OpenError::Missing) => Err(ReadError::ReadFault(number)),
        Err(OpenError::Failed) => Err(ReadError::ReadFault(number)),
    }
}

/// Takes in the lines of the input with this number, line by line. The bytes of all inputs so far
/// count against the limit.
fn read_file<I: Inputs, T: TakeLines>(
    alloc: Global,
    inputs: &mut I,
    lines: &mut Lines,
    reader: &mut T,
    name: &str,
    number: u32,
) -> Result<(), ReadError>
    requires ready { (T.seen reader.old).ready }
    requires between { IsBetween lines.old }
    requires few { (T.seen reader.old).section ≤ (lines.old).taken }

    // What stays of the inputs, and the lines that are taken in.
    ensures stays { Stays (I.state inputs.old) (I.state inputs.new) }
    ensures ok { OnOk result (ReadsFile (I.state inputs.old) (I.state inputs.new) name.now number
        (MAX_INPUT_BYTES - (lines.old).taken) (MAX_INPUT_BYTES - (lines.new).taken)
        (T.seen reader.old) (T.seen reader.new)) }
    ensures between { OnOk result (IsBetween lines.new) }

    // Each error has its cause, and one input is opened at most.
    ensures err { IfErr result (HasFileCause (I.state inputs.old) (I.state inputs.new) name.now
        number (MAX_INPUT_BYTES - (lines.old).taken) (T.seen reader.old)) }
    ensures memory { result ≡ Err ReadError.Memory
        → (I.state inputs.new).faults ≡ (I.state inputs.old).faults }
    ensures opens { (I.state inputs.new).opens ≤ (I.state inputs.old).opens + 1 }
    ensures one { OnOk result (OpensOne name.now (MAX_INPUT_BYTES - (lines.old).taken)
        (I.state inputs.old) (I.state inputs.new)) }
    ensures turn { OpensFile name.now (MAX_INPUT_BYTES - (lines.old).taken)
        (I.state inputs.old) (I.state inputs.new) }
{
    match open_input(inputs, name, number) {
        Ok(()) => {}
        Err(error) => return Err(error),
    }
    lines.start();
    match read_lines(alloc, inputs, lines, reader, number) {
        Ok(()) => {}
        Err(error) => return Err(error),
    }
    reader.end_file();
    Ok(())
}

/// Takes in the lines of all named inputs, in this order, as [`read_log`] does. The documentation of `read_log` states when each
/// error is returned and what it leaves. `lines` and `reader` have taken in no lines before. There are fewer than 2^32 names.
pub fn read_inputs<I: Inputs, T: TakeLines>(
    alloc: Global,
    inputs: &mut I,
    names: &[String],
    lines: &mut Lines,
    reader: &mut T,
) -> Result<(), ReadError>
    requires names { length names.now < 2 ^ 32 }
    requires unused { lines.old ≡ unused_lines }
    requires ready { (T.seen reader.old).ready }
    requires section { (T.seen reader.old).section ≡ 0 }
    requires nothing { (T.seen reader.old).has [] }
    ensures stays { Stays (I.state inputs.old) (I.state inputs.new) }

    // The lines that are taken in, and the cause of each error.
    ensures ok { OnOk result (ReadsInputs (T.seen reader.old).setting (names_in names.now)
        (I.state inputs.old) (I.state inputs.new) (T.seen reader.new).has) }
    ensures setting { OnOk result ((T.seen reader.new).setting ≡ (T.seen reader.old).setting) }
    ensures err { IfErr result (HasReadCause (T.seen reader.old).setting (names_in names.now)
        (I.state inputs.old) (I.state inputs.new)) }

    // Out of memory hides no fault. Which inputs are opened.
    ensures memory { result ≡ Err ReadError.Memory
        → (I.state inputs.new).faults ≡ (I.state inputs.old).faults }
    ensures opens { (I.state inputs.new).opens
        ≤ (I.state inputs.old).opens + length (names_in names.now) }
    ensures turn { OpensFirst (names_in names.now) (I.state inputs.old) (I.state inputs.new) }
{
    let count = count_of(names);
    for number in 0..count {
        let name = name_at(names, number);
        match read_file(alloc, inputs, lines, reader, name, number as u32) {
            Ok(()) => {}
            Err(error) => return Err(error),
        }
    }
    Ok(())
}

/// The types and the traces of the log in the named inputs, in this order. If there is no name, it is read from standard input,
/// as input 0. There are fewer than 2^32 names. Lines are taken in as they are read, and a buffer of a fixed size holds the part
/// of an input that is being read.
///
/// Lines are decided by the form. A line that nothing decides is refused, or skipped if `ignore` is set. A line whose time is bad
/// is refused in both cases. If `join` is set, the inputs are one log: traces go on from one to the next, and separators count
/// over all. The events of a trace are ordered by their times.
///
/// Whatever is returned, no more inputs were opened than are named. If files are known, these are the first ones in this order,
/// each but the last was read to its end before the next was opened, and no other input was opened. Then an input that stays open
/// has left the bytes after a prefix that was read, and at most one byte past the limit on all input was read of all inputs
/// together.
///
/// - `Ok`: each input was opened and read to its end, nothing in them is refused, and no fault was
///   counted.
/// - `ReadFault`: the inputs before the one with this number were opened, and no others but that one. There are two causes.
///   Either the inputs counted a fault and may fail it: if its opening failed, nothing is open, and if a read failed, it stays
///   open. Or files are known, it is the first that is missing, and nothing before it is refused: then nothing is open, and no
///   fault was counted.
/// - Each other refusal except `Memory` is the first in the order of the bytes. The inputs up to the one with the refused line,
///   or with the byte past the limit on all input, were opened, and no others. No fault was counted. That input stays open.
/// - `Memory`: memory ran out. The inputs' count of faults is as before. Either all that contracts see of the inputs is as
///   before, or the inputs up to some one were opened, and no others, and that one stays open.
pub fn read_log<I: Inputs>(
    alloc: Global,
    inputs: &mut I,
    names: &[String],
    form: Form<'_>,
    ignore: bool,
    join: bool,
) -> Result<TraceSet, ReadError>
    requires { length names.now < 2 ^ 32 }
    ensures stays { Stays (I.state inputs.old) (I.state inputs.new) }

    // The log that is read, and the cause of each error.
    ensures ok { IfOk result (ReadsLog (setting (form_view form.entry) ignore join)
        (names_in names.now) (I.state inputs.old) (I.state inputs.new)) }
    ensures err { IfErr result (HasReadCause (setting (form_view form.entry) ignore join)
        (names_in names.now) (I.state inputs.old) (I.state inputs.new)) }

    // Out of memory hides no fault, and no more inputs are opened than there are names.
    ensures memory { result ≡ Err ReadError.Memory
        → (I.state inputs.new).faults ≡ (I.state inputs.old).faults }
    ensures opens { (I.state inputs.new).opens
        ≤ (I.state inputs.old).opens + length (names_in names.now) }

    // If files are known, a prefix of the inputs was opened, each but the last was read to its end, and no others were opened.
    ensures turn { OpensFirst (names_in names.now) (I.state inputs.old) (I.state inputs.new) }
{
    let mut lines = Lines::make(alloc)?;
    let mut reader = LogReader::make(alloc, form, ignore, join)?;
    match read_inputs(alloc, inputs, names, &mut lines, &mut reader) {
        Ok(()) => drop(lines),
        Err(error) => {
            drop(lines);
            drop(reader);
            return Err(error);
        }
    }
    gathering_in_order_is_the_log();
    Ok(reader.finish()?)
}
