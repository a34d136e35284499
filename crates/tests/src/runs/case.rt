//! The steps of a case. What they write is kept until the step `run`, which runs the program over it.

use crate::runs::inputs::Given;
use crate::tools::{both, halves, listed, number, parted, push};
use line_rules::{ListedPatterns, RegexPatterns};
use outside::{MemInputs, MemSink};
use std::alloc::{AllocError, Global};
use std::fmt::Write;
use std::{mem, str};
use synoptic_cli::{Status, run};

/// The calls that fail, each by its number from 1, and 0 for none.
#[derive(Clone, Copy)]
struct Failing {
    /// The call of the inputs.
    input: u64,
    /// The build of a pattern, which is refused as too large.
    build: u64,
    /// The write to the output.
    out: u64,
    /// The write of the message.
    err: u64,
}

/// No call fails.
const NONE: Failing = Failing {
    input: 0,
    build: 0,
    out: 0,
    err: 0,
};

/// What the steps so far have given.
#[derive(Drop)]
pub struct Case {
    /// The text that is being written.
    text: Vec<u8>,
    /// The arguments after the program's name.
    words: Vec<String>,
    /// The names of the files with their bytes. That of standard input is empty.
    files: Vec<(String, Vec<u8>)>,
    /// What each read of any input gives without an end, if this is not empty.
    endless: Vec<u8>,
    /// Counted in the output, which is not printed then, if this is not empty.
    sought: Vec<u8>,
    /// What the run before wrote to its output.
    last: Vec<u8>,
    /// How many bytes a read gives and a write takes at most.
    piece: usize,
    /// How many bytes the output has room for.
    room: usize,
    /// Which calls fail.
    failing: Failing,
}

/// How many bytes the message has room for.
const MESSAGE_ROOM: usize = 1000;

/// Appends a text to another. A tilde in it stands for a line feed.
fn put(to: &mut Vec<u8>, text: &str) -> Result<(), AllocError> {
    for &byte in text.as_bytes() {
        to.push(if byte == b'~' { b'\n' } else { byte })?;
    }
    Ok(())
}

/// Appends a text to another a number of times.
fn put_times(to: &mut Vec<u8>, count_and_text: &str) -> Result<(), AllocError> {
    let (count, text) = parted(count_and_text, ' ');
    for _ in 0..number(count) {
        put(to, text)?;
    }
    Ok(())
}

/// Appends the byte with this number to a text.
fn put_byte(to: &mut Vec<u8>, number: &str) -> Result<(), AllocError> {
    Ok(to.push(number.parse().unwrap_or(0))?)
}

/// A sink with this much room. The write with this number fails.
fn sink(alloc: Global, room: usize, piece: usize, failing: u64) -> Result<MemSink, AllocError> {
    MemSink::make(alloc, room, piece.max(1), listed(alloc, failing)?)
}

/// Reports how many bytes were written, and the bytes from the next line on.
fn tell_bytes(told: &mut String, alloc: Global, bytes: &[u8]) -> Result<(), AllocError> {
    let text = String::from_utf8_lossy(alloc, bytes)?;
    write!(told, "{}\n{text}\n", bytes.len())
}

/// Reports how often a text occurs in what was written, and this text from the next line on.
fn tell_count(
    told: &mut String,
    alloc: Global,
    bytes: &[u8],
    sought: &[u8],
) -> Result<(), AllocError> {
    let sought = str::from_utf8(sought).unwrap_or("");
    let text = String::from_utf8_lossy(alloc, bytes)?;
    let count = text.matches(sought).count();
    write!(told, "has {count} times\n{sought}\n")
}

/// Reports the status of a run, and what was opened.
fn tell_status(told: &mut String, status: &Status, opened: &str) -> Result<(), AllocError> {
    write!(told, "{} {status:?}\nopened {opened}\n", status.code())
}

impl Case {
    pub fn new(alloc: Global) -> Case {
        Case {
            text: Vec::new(alloc),
            words: Vec::new(alloc),
            files: Vec::new(alloc),
            endless: Vec::new(alloc),
            sought: Vec::new(alloc),
            last: Vec::new(alloc),
            piece: 0,
            room: 0,
            failing: NONE,
        }
    }

    /// The inputs. The case no longer has them afterwards.
    fn inputs(&mut self, alloc: Global, failing: Vec<u64>) -> Given {
        let files = mem::replace(&mut self.files, Vec::new(alloc));
        let line = mem::replace(&mut self.endless, Vec::new(alloc));
        Given {
            files: MemInputs::new(files, self.piece.max(1), failing),
            is_endless: !line.is_empty(),
            line,
            opens: 0,
            opened: String::new(alloc),
        }
    }

    /// Runs the program, and reports the status and what was opened.
    fn run(
        &mut self,
        told: &mut String,
        alloc: Global,
        out: &mut MemSink,
        err: &mut MemSink,
    ) -> Result<(), AllocError> {
        let failing = listed(alloc, self.failing.input);
        let refused = listed(alloc, self.failing.build);
        let (failing, refused) = both(failing, refused)?;
        let mut patterns = ListedPatterns::new(RegexPatterns::new(alloc), refused);
        let mut inputs = self.inputs(alloc, failing);
        let status = run(alloc, &self.words, &mut inputs, &mut patterns, out, err);
        drop(patterns);
        tell_status(told, &status, &inputs.opened)
    }

    /// Reports the output of the last run, or how often the sought text occurs in it.
    fn tell_last(&self, told: &mut String, alloc: Global) -> Result<(), AllocError> {
        told.push_str("out ")?;
        if self.sought.is_empty() {
            return tell_bytes(told, alloc, &self.last);
        }
        tell_count(told, alloc, &self.last, &self.sought)
    }

    /// Reports the output, which is kept, and the message.
    fn tell_written(
        &mut self,
        told: &mut String,
        alloc: Global,
        out: &MemSink,
        err: &MemSink,
    ) -> Result<(), AllocError> {
        self.last.clear();
        self.last
            .extend_from_slice(out.bytes())
            .and(self.tell_last(told, alloc))
            .and(told.push_str("err "))
            .and(tell_bytes(told, alloc, err.bytes()))
    }

    /// Runs the program over these sinks, and reports how it ended and what it wrote.
    fn tell_run(
        &mut self,
        told: &mut String,
        alloc: Global,
        out: &mut MemSink,
        err: &mut MemSink,
    ) -> Result<(), AllocError> {
        self.run(told, alloc, out, err)
            .and(self.tell_written(told, alloc, out, err))
            .and(told.push('\n'))
    }

    /// Runs the program, and reports how it ended and what it wrote.
    fn end(&mut self, told: &mut String, alloc: Global) -> Result<(), AllocError> {
        let out = sink(alloc, self.room, self.piece, self.failing.out);
        let err = sink(alloc, MESSAGE_ROOM, self.piece, self.failing.err);
        let (mut out, mut err) = both(out, err)?;
        self.tell_run(told, alloc, &mut out, &mut err)
    }

    /// Forgets what the steps have given, except what the last run wrote.
    fn reset(&mut self) {
        self.words.clear();
        self.sought.clear();
        self.piece = 0;
        self.room = 0;
        self.failing = NONE;
    }

    /// Takes an argument of the command line.
    fn add_word(&mut self, alloc: Global, word: &str) -> Result<(), AllocError> {
        push(&mut self.words, String::from_str(alloc, word))
    }

    /// Takes the text for the bytes of a file of this name.
    fn add_file(&mut self, alloc: Global, name: &str) -> Result<(), AllocError> {
        let bytes = mem::replace(&mut self.text, Vec::new(alloc));
        push(
            &mut self.files,
            both(String::from_str(alloc, name), Ok(bytes)),
        )
    }

    /// Takes a number by its name.
    fn set(&mut self, word: &str, number: u64) {
        match word {
            "piece" => self.piece = number as usize,
            "room" => self.room = number as usize,
            "fail-input" => self.failing.input = number,
            "fail-build" => self.failing.build = number,
            "fail-out" => self.failing.out = number,
            "fail-err" => self.failing.err = number,
            _ => {}
        }
    }

    /// Takes a keyword that continues with the text, or takes the text, or a number.
    fn take(&mut self, alloc: Global, word: &str, text: &str) -> Result<(), AllocError> {
        match word {
            "put" => put(&mut self.text, text),
            "times" => put_times(&mut self.text, text),
            "byte" => put_byte(&mut self.text, text),
            "last" => self.text.extend_from_slice(&self.last),
            "word" => self.add_word(alloc, text),
            "file" => self.add_file(alloc, text),
            _ => {
                self.set(word, text.parse().unwrap_or(0));
                Ok(())
            }
        }
    }

    /// Takes a step, and appends what it reports, if anything, to the text.
    pub fn step(&mut self, alloc: Global, step: &str, told: &mut String) -> Result<(), AllocError> {
        let (word, text) = halves(step, ' ');
        match word {
            "name" => writeln!(told, "{text}"),
            "endless" => {
                mem::swap(&mut self.endless, &mut self.text);
                Ok(())
            }
            "seek" => {
                mem::swap(&mut self.sought, &mut self.text);
                Ok(())
            }
            "run" => {
                let ended = self.end(told, alloc);
                self.reset();
                ended
            }
            _ => self.take(alloc, word, text),
        }
    }
}
