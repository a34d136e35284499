//! Reads a whole input, up to a limit.

ghost use Rattle.std.specs.Prelude.{◌≡◌, ◌≢◌, ◌≤◌, ◌<◌, ◌+◌, ◌^◌, ◌∷◌, [], IfOk, OnOk, Err, IsTrue, length};
ghost use Rattle.std.specs.Io.KnownBytes.{Consumes, IsAtEnd};
ghost use Rattle.outside.specs.Counts.{Rose};
ghost use Rattle.outside.specs.Inputs.{Stays, ReadGives};
ghost use Rattle.outside.specs.Reading.{InputGives, LosesFront};
ghost use Rattle.outside.specs.Turns.{OpensFirst};

use crate::{Inputs, OpenError};
use std::alloc::Global;

/// Why an input was not read.
#[derive(Clone, Copy, Debug, PartialEq, Eq)]
pub enum InputError {
    /// The inputs' files are known, and this name is not among them.
    Missing,
    /// It could not be opened or read.
    Fault,
    /// Memory ran out.
    Memory,
}

/// Reads a piece of the open input. A read that failed is not tried again.
fn read_piece<I: Inputs>(inputs: &mut I, buf: &mut [u8]) -> Result<usize, InputError>
    ensures stays { Stays (I.state inputs.old) (I.state inputs.new) }
    ensures opens { (I.state inputs.new).opens ≡ (I.state inputs.old).opens }
    ensures mark { (I.state inputs.new).mark ≡ (I.state inputs.old).mark }
    ensures turn { (I.state inputs.new).followed ≡ (I.state inputs.old).followed }
    ensures gives { ReadGives (I.state inputs.old) result buf.new (I.state inputs.new) }
    ensures missing { result ≢ Err InputError.Missing }
    ensures memory { result ≢ Err InputError.Memory }
{
    match inputs.read(buf) {
        Ok(count) => Ok(count),
        Err(_) => Err(InputError::Fault),
    }
}

/// Reads the open input to its end, or to one byte past the limit.
fn read_rest<I: Inputs>(alloc: Global, inputs: &mut I, limit: usize) -> Result<Vec<u8>, InputError>
    requires { limit < 2 ^ 32 }

    // What stays of the inputs, and how much of the unread bytes is gone.
    ensures stays { Stays (I.state inputs.old) (I.state inputs.new) }
    ensures opens { (I.state inputs.new).opens ≡ (I.state inputs.old).opens }
    ensures mark { (I.state inputs.new).mark ≡ (I.state inputs.old).mark }
    ensures turn { (I.state inputs.new).followed ≡ (I.state inputs.old).followed }
    ensures left { LosesFront (I.state inputs.old).rest (I.state inputs.new).rest limit }

    // At Ok the bytes are those that are gone from the unread ones, and no fault was counted.
    ensures no_fault { OnOk result ((I.state inputs.new).faults ≡ (I.state inputs.old).faults) }
    ensures read { IfOk result (λ bytes.
        Consumes (I.state inputs.old).rest (I.state inputs.new).rest bytes.items) }
    ensures short { IfOk result (λ bytes. length bytes.items ≤ limit + 1) }
    ensures at_end { IfOk result (λ bytes.
        length bytes.items ≤ limit → IsAtEnd (I.state inputs.new).rest) }

    // Each error has its cause.
    ensures fault { result ≡ Err InputError.Fault
        → Rose (I.state inputs.old).faults (I.state inputs.new).faults
        × IsTrue (I.state inputs.old).mark }
    ensures missing { result ≢ Err InputError.Missing }
    ensures memory { result ≡ Err InputError.Memory
        → (I.state inputs.new).faults ≡ (I.state inputs.old).faults }
{
    let mut bytes = Vec::new(alloc);
    let mut buf = [0u8; 65_536];
    while bytes.len() <= limit {
        let room = buf.len().min(limit + 1 - bytes.len());
        let count = match read_piece(inputs, &mut buf[..room]) {
            Ok(count) => count,
            Err(error) => return Err(error),
        };
        if count == 0 {
            return Ok(bytes);
        }
        if bytes.extend_from_slice(&buf[..count]).is_err() {
            return Err(InputError::Memory);
        }
    }
    Ok(bytes)
}

/// Reads the named input to its end, or to one byte past the limit, which is below 2^32 bytes.
///
/// No other input is opened, and none is opened twice. A call that failed is not tried again.
///
/// - `Ok`: the input was opened, no fault was counted, and there are at most `limit + 1` bytes. If
///   files are known, they are the first `limit + 1` bytes of the input, or all if it has fewer.
///   The input stays open, with the bytes after these unread. With at most `limit` bytes, it is at
///   its end.
/// - `Missing`: the inputs' files are known, and this name is not among them. Nothing was opened,
///   nothing is open, and no fault was counted.
/// - `Fault`: the inputs counted a fault, and may fail this name. If its opening failed, nothing
///   was opened and nothing is open. If a read failed, the input was opened and stays open. If
///   files are known, it has left the bytes after a prefix that was read. This prefix has at most
///   `limit + 1` bytes.
/// - `Memory`: memory ran out. The input was opened and stays open, as after a read that failed,
///   and no fault was counted.
pub fn read_input<I: Inputs>(
    alloc: Global,
    inputs: &mut I,
    name: &str,
    limit: usize,
) -> Result<Vec<u8>, InputError>
    requires { limit < 2 ^ 32 }
    ensures stays { Stays (I.state inputs.old) (I.state inputs.new) }
    ensures gives { InputGives (I.state inputs.old) name.now limit result (I.state inputs.new) }

    // Which inputs were opened.
    ensures turn { OpensFirst (name.now ∷ []) (I.state inputs.old) (I.state inputs.new) }
{
    match inputs.open(name) {
        Ok(()) => Ok(read_rest(alloc, inputs, limit)?),
        Err(OpenError::Missing) => Err(InputError::Missing),
        Err(OpenError::Failed) => Err(InputError::Fault),
    }
}
