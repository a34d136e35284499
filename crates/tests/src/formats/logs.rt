//! Logs of several inputs.

use crate::formats::notation::{bytes_of, usize_of, write_bytes};
use crate::formats::said::write_log;
use crate::tools::{both, halves, listed, parted, push};
use line_rules::{LineRules, RegexPatterns};
use log_reader::{Form, read_log};
use outside::{Inputs, MemInputs};
use std::alloc::{AllocError, Global};
use std::fmt::Write;

/// The file of a step `NAME|TEXT`.
fn file_of(alloc: Global, step: &str) -> Result<(String, Vec<u8>), AllocError> {
    let (name, text) = parted(step, '|');
    both(name.to_string(alloc), bytes_of(alloc, text))
}

/// The files of these steps.
fn files_of(alloc: Global, steps: &str) -> Result<Vec<(String, Vec<u8>)>, AllocError> {
    let mut files = Vec::new(alloc);
    for step in steps.split('\n') {
        push(&mut files, file_of(alloc, step))?;
    }
    Ok(files)
}

/// The inputs that are named.
fn names_of(alloc: Global, words: &str) -> Result<Vec<String>, AllocError> {
    let mut names = Vec::new(alloc);
    for name in words.split_whitespace() {
        push(&mut names, name.to_string(alloc))?;
    }
    Ok(names)
}

/// Reads the log of the inputs with these names, and reports what it has, or why it is refused.
fn read_named(
    alloc: Global,
    inputs: &mut MemInputs,
    names: &[String],
    options: &str,
    form: Form<'_>,
    out: &mut String,
) -> Result<(), AllocError> {
    if names.len() > 1_000 {
        return out.push_str("too many names\n");
    }
    let (ignore, join) = (options.contains('i'), options.contains('j'));
    let read = read_log(alloc, inputs, names, form, ignore, join);
    let end = match &read {
        Ok(log) => write_log(out, log),
        Err(fault) => writeln!(out, "{fault:?}"),
    };
    drop(read);
    end
}

/// The same. The arguments are the options and the names.
fn read(
    alloc: Global,
    inputs: &mut MemInputs,
    words: &str,
    form: Form<'_>,
    out: &mut String,
) -> Result<(), AllocError> {
    let (options, names) = parted(words, '|');
    let names = names_of(alloc, names)?;
    read_named(alloc, inputs, &names, options, form, out)
}

/// Reads the log of the inputs in the plain form, or by the rules of a file, if there is one.
fn read_by(
    alloc: Global,
    inputs: &mut MemInputs,
    words: &str,
    file: &str,
    out: &mut String,
) -> Result<(), AllocError> {
    if file == "plain" {
        return read(alloc, inputs, words, Form::Plain, out);
    }
    let rules = LineRules::read(alloc, file.as_bytes(), &mut RegexPatterns::new(alloc));
    let end = match &rules {
        Ok(rules) => read(alloc, inputs, words, Form::Rules(rules), out),
        Err(fault) => writeln!(out, "{fault:?}"),
    };
    drop(rules);
    end
}

/// Reports what a further read gives.
fn write_left(inputs: &mut MemInputs, out: &mut String) -> Result<(), AllocError> {
    let mut buf = [0u8; 7];
    let count = inputs.read(&mut buf);
    let read = buf.get(..count.unwrap_or(0)).unwrap_or(&[]);
    write!(out, "then {count:?} ")
        .and(write_bytes(out, read))
        .and(out.push('\n'))
}

/// Reports what the log of the inputs has. If a call fails, a further read reports what is left.
fn read_all(
    alloc: Global,
    inputs: &mut MemInputs,
    words: &str,
    file: &str,
    fails: bool,
    out: &mut String,
) -> Result<(), AllocError> {
    read_by(alloc, inputs, words, file, out)?;
    if fails {
        return write_left(inputs, out);
    }
    Ok(())
}

/// The same. The arguments are the maximum number of bytes of a read, the call that fails, the
/// options and the names. The first step is the rules file, and the others are the inputs.
pub fn run(alloc: Global, words: &str, steps: &str, out: &mut String) -> Result<(), AllocError> {
    let (piece, rest) = usize_of(words);
    let (failing, words) = usize_of(rest);
    let (file, inputs) = halves(steps, '\n');
    let (files, calls) = both(files_of(alloc, inputs), listed(alloc, failing as u64))?;
    let mut inputs = MemInputs::new(files, piece.max(1), calls);
    read_all(alloc, &mut inputs, words, file, failing > 0, out)
}
