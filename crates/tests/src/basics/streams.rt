//! Inputs in memory, of files and of streams.
ghost use Rattle.std.specs.Prelude.{◌≤◌};

use crate::basics::words::{checksum, plain, put_shown};
use crate::tools::{both, halves, listed, number, push};
use outside::{Inputs, MemInputs, RealInputs, read_input};
use std::alloc::{AllocError, Global};
use std::io::{ErrorKind, Read};
use std::rt::Files;
use std::{fs, io};

/// The most bytes that are read at once.
const ROOM: usize = 7_000;

/// `read ROOM`
fn read<I: Inputs>(inputs: &mut I, room: &str, out: &mut String) -> Result<(), AllocError> {
    let mut buf = [0u8; ROOM];
    let room = (number(room) as usize).min(ROOM);
    match inputs.read(&mut buf[..room]) {
        Ok(count) => put_shown(out, &buf[..count]),
        Err(error) => write!(out, "{error:?}"),
    }
}

/// `whole NAME LIMIT`
fn whole<I: Inputs>(
    alloc: Global,
    inputs: &mut I,
    name: &str,
    limit: &str,
    out: &mut String,
) -> Result<(), AllocError> {
    match read_input(alloc, inputs, name, number(limit) as usize) {
        Ok(bytes) => put_shown(out, &bytes),
        Err(error) => write!(out, "{error:?}"),
    }
}

/// This many bytes.
fn bytes_of(alloc: Global, count: u32) -> Result<Vec<u8>, AllocError> {
    (0..count).map(|i| (i % 251) as u8).collect(alloc)
}

/// Makes a file with this many bytes.
fn make<R: Files>(
    rt: &R,
    alloc: Global,
    name: &str,
    count: u32,
    out: &mut String,
) -> Result<(), AllocError> {
    let bytes = bytes_of(alloc, count)?;
    let made = fs::write(rt, name, bytes.as_slice()).is_ok();
    write!(out, "{made} {}", checksum(&bytes))
}

/// Removes a file.
fn remove<R: Files>(rt: &R, name: &str, out: &mut String) -> Result<(), AllocError> {
    write!(out, "{}", fs::remove_file(rt, name).is_ok())
}

/// Opens an input.
fn open<I: Inputs>(inputs: &mut I, name: &str, out: &mut String) -> Result<(), AllocError> {
    write!(out, "{:?}", inputs.open(name))
}

/// The result of a call on a file of this name.
fn answer<R: Files, I: Inputs>(
    rt: &R,
    alloc: Global,
    inputs: &mut I,
    call: (&str, &str, &str),
    out: &mut String,
) -> Result<(), AllocError> {
    let (verb, name, text) = call;
    match verb {
        "open" => open(inputs, name, out),
        "read" => read(inputs, name, out),
        "whole" => whole(alloc, inputs, name, text, out),
        "make" => make(rt, alloc, name, number(text), out),
        _ => remove(rt, name, out),
    }
}

/// The result of one call.
fn step<R: Files, I: Inputs>(
    rt: &R,
    alloc: Global,
    inputs: &mut I,
    step: &str,
    out: &mut String,
) -> Result<(), AllocError> {
    let (verb, rest) = halves(step, ',');
    let (name, text) = halves(rest, ',');
    let name = plain(alloc, name)?;
    answer(rt, alloc, inputs, (verb, &name, text), out)
}

/// The results of calls, one line for each.
fn tell<R: Files, I: Inputs>(
    rt: &R,
    alloc: Global,
    inputs: &mut I,
    steps: &str,
    out: &mut String,
) -> Result<(), AllocError> {
    for one in steps.split(' ') {
        step(rt, alloc, inputs, one, out).and(out.push('\n'))?;
    }
    Ok(())
}

/// A file, given as `NAME=BYTES`.
fn file_of(alloc: Global, word: &str) -> Result<(String, Vec<u8>), AllocError> {
    let (name, bytes) = halves(word, '=');
    both(
        plain(alloc, name),
        plain(alloc, bytes).map(String::into_bytes),
    )
}

/// Files between spaces.
fn files_of(alloc: Global, words: &str) -> Result<Vec<(String, Vec<u8>)>, AllocError> {
    let mut files = Vec::new(alloc);
    for word in words.split(' ') {
        push(&mut files, file_of(alloc, word))?;
    }
    Ok(files)
}

/// `memory PIECE FAILING FILE FILE ..|STEP STEP ..`
pub fn memory(rt: &HostRuntime, words: &str, out: &mut String) -> Result<(), AllocError> {
    let alloc = rt.alloc();
    let (setting, steps) = halves(words, '|');
    let (piece, rest) = halves(setting, ' ');
    let (failing, files) = halves(rest, ' ');
    let calls = listed(alloc, u64::from(number(failing)));
    let (files, calls) = both(files_of(alloc, files), calls)?;
    let mut inputs = MemInputs::new(files, (number(piece) as usize).max(1), calls);
    tell(rt, alloc, &mut inputs, steps, out)
}

/// `real STDIN|STEP STEP ..`
pub fn real(rt: &HostRuntime, words: &str, out: &mut String) -> Result<(), AllocError> {
    let (stdin, steps) = halves(words, '|');
    let stdin = plain(rt.alloc(), stdin)?;
    let mut inputs = RealInputs::new(rt, stdin.as_bytes());
    tell(rt, rt.alloc(), &mut inputs, steps, out)
}

/// A stream that fails at each read.
#[derive(Drop)]
struct Broken;

impl Read for Broken {
    fn read(&mut self, _buf: &mut [u8]) -> io::Result<usize> {
        Err(io::Error::from(ErrorKind::BrokenPipe))
    }
}

/// `failing STEP STEP ..`
pub fn failing(rt: &HostRuntime, steps: &str, out: &mut String) -> Result<(), AllocError> {
    let mut inputs = RealInputs::new(rt, Broken);
    tell(rt, rt.alloc(), &mut inputs, steps, out)
}
