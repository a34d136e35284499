//! Sinks in memory and of streams.
ghost use Rattle.std.specs.Prelude.{◌≤◌};

use crate::basics::words::{plain, text};
use crate::tools::{halves, listed, number};
use outside::{Failed, MemSink, RealSink, Sink, write_whole};
use std::alloc::{AllocError, Global};

/// The answer of a call.
fn answer(sink: &mut MemSink, verb: &str, piece: &[u8]) -> Result<usize, Failed> {
    match verb {
        "write" => sink.write(piece),
        _ => write_whole(sink, piece).map(|_| 0),
    }
}

/// Appends the answer of a call to the text, and what the sink contains after it.
fn step(alloc: Global, sink: &mut MemSink, step: &str, out: &mut String) -> Result<(), AllocError> {
    let (verb, word) = halves(step, ',');
    let piece = plain(alloc, word)?;
    let answer = answer(sink, verb, piece.as_bytes());
    drop(piece);
    write!(out, "{answer:?} {:?}\n", text(sink.bytes()))
}

/// The same for calls between spaces.
fn take_steps(
    alloc: Global,
    sink: &mut MemSink,
    steps: &str,
    out: &mut String,
) -> Result<(), AllocError> {
    for one in steps.split(' ') {
        step(alloc, sink, one, out)?;
    }
    Ok(())
}

/// `sink ROOM PIECE FAILING|STEP STEP ..`
pub fn memory(alloc: Global, words: &str, out: &mut String) -> Result<(), AllocError> {
    let (setting, steps) = halves(words, '|');
    let (room, rest) = halves(setting, ' ');
    let (piece, failing) = halves(rest, ' ');
    let failing = listed(alloc, u64::from(number(failing)))?;
    let piece = (number(piece) as usize).max(1);
    let mut sink = MemSink::make(alloc, number(room) as usize, piece, failing)?;
    take_steps(alloc, &mut sink, steps, out)
}

/// What a stream with room for two bytes answers.
fn full() -> (Result<usize, Failed>, Result<usize, Failed>) {
    let mut room = [0u8; 2];
    let mut sink = RealSink::over(&mut room[..]);
    let first = sink.write(b"abc");
    let second = sink.write(b"c");
    (first, second)
}

/// `streams`
pub fn streams(rt: &HostRuntime, out: &mut String) -> Result<(), AllocError> {
    let mut err = RealSink::standard_error(rt.stderr());
    let whole = write_whole(&mut err, b"one line to standard error\n");
    drop(err);
    let mut real = RealSink::standard_output(rt.stdout());
    let none = real.write(b"");
    drop(real);
    let (first, second) = full();
    write!(out, "{whole:?} {none:?} {first:?} {second:?}")
}
