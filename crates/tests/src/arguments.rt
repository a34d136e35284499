//! Command lines: each line has the arguments of one, as in `cases/basics/arguments.txt`.

use crate::tools::push;
use command_line::parse;
use std::alloc::{AllocError, Global};
use std::fmt::Write;

/// The arguments of a line, separated by one space; `%` stands for an empty argument.
fn words_of(alloc: Global, line: &str) -> Result<Vec<String>, AllocError> {
    let mut words = Vec::new(alloc);
    for word in line.split(' ') {
        if !word.is_empty() {
            push(
                &mut words,
                String::from_str(alloc, if word == "%" { "" } else { word }),
            )?;
        }
    }
    Ok(words)
}

/// Appends the task that the arguments ask for to the text, or why there is none.
fn tell_words(alloc: Global, words: &[String], out: &mut String) -> Result<(), AllocError> {
    match parse(alloc, words) {
        Ok(task) => writeln!(out, "{task:?}"),
        Err(error) => writeln!(out, "{error:?}"),
    }
}

/// The same for the arguments of each line.
pub fn tell(alloc: Global, lines: &str, out: &mut String) -> Result<(), AllocError> {
    for line in lines.lines() {
        let words = words_of(alloc, line)?;
        tell_words(alloc, &words, out)?;
    }
    Ok(())
}
