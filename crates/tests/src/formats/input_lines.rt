//! The lines of an input.
ghost use Rattle.std.specs.Prelude.{◌≡◌, IsSome, false};

use crate::formats::notation::{bytes_of, usize_of, write_bytes};
use crate::tools::{both, listed, push};
use log_reader::Lines;
use outside::{Inputs, MemInputs};
use std::alloc::{AllocError, Global};
use std::fmt::Write;

/// Standard input with these bytes. A read gives at most a piece of them. The call with this number fails.
fn input_of(
    alloc: Global,
    bytes: Vec<u8>,
    piece: usize,
    failing: u64,
) -> Result<MemInputs, AllocError> {
    let mut files = Vec::new(alloc);
    let files = push(&mut files, Ok((String::new(alloc), bytes))).and(Ok(files));
    let (files, calls) = both(files, listed(alloc, failing))?;
    Ok(MemInputs::new(files, piece.max(1), calls))
}

/// Reports the line that was read.
fn write_line(lines: &Lines, out: &mut String) -> Result<(), AllocError>
    requires { IsSome (lines.now).line }
{
    write!(out, "{} {} ", lines.number(), lines.ends_with_feed())
        .and(write_bytes(out, lines.line()))
        .and(out.push('\n'))
}

/// Reports what the lines are, and how they end.
fn write_lines(
    lines: &mut Lines,
    inputs: &mut MemInputs,
    out: &mut String,
) -> Result<(), AllocError>
    requires { (lines.old).refused ≡ false }
{
    'lines: for _ in 0..100 {
        match lines.next(inputs) {
            Ok(true) => {
                write_line(lines, out)?;
            }
            Ok(false) => return writeln!(out, "end after {}", lines.number()),
            Err(fault) => return writeln!(out, "{fault:?}"),
        }
    }
    Ok(())
}

/// Opens standard input, and reports what its lines are.
fn write_input(alloc: Global, inputs: &mut MemInputs, out: &mut String) -> Result<(), AllocError> {
    writeln!(out, "{:?}", inputs.open(""))?;
    let mut lines = Lines::make(alloc)?;
    lines.start();
    write_lines(&mut lines, inputs, out)
}

/// Reports the lines of the input. The arguments are the maximum number of bytes of a read, and the call that fails.
pub fn run(alloc: Global, words: &str, input: &str, out: &mut String) -> Result<(), AllocError> {
    let (piece, failing) = usize_of(words);
    let bytes = bytes_of(alloc, input)?;
    let mut inputs = input_of(alloc, bytes, piece, failing.parse().unwrap_or(0))?;
    write_input(alloc, &mut inputs, out)
}
