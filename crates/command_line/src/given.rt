//! What `clap` reads from the arguments.
ghost use Rattle.std.specs.Prelude.{◌≡◌, ◌≢◌, IfOk, Err, true, false, map, option_map, string_bytes};
ghost use Rattle.clap.specs.Words.{all_of, first_of, found_of, kind_of, rows_of};
ghost use Rattle.clap.specs.declared.error.kind.ErrorKind.TheVariants.{OutOfMemory};
ghost use Rattle.command_line.specs.App.{is_taken, rows_for};
ghost use Rattle.command_line.specs.Given.{given_held, is_on, use_of};

use crate::command::command;
use clap::error::ErrorKind;
use clap::{ArgMatches, Error};
use std::alloc::{AllocError, Global};

/// Why there is no task.
#[derive(Clone, Copy, Debug, PartialEq, Eq)]
pub enum ParseError {
    /// The arguments ask for no task.
    Usage,
    /// Out of memory.
    Memory,
}

/// What is given for each argument, before the table is consulted.
#[derive(Drop)]
pub struct Given<'a> {
    /// The name of the command.
    pub command: Option<&'a str>,
    /// The value of `-e`.
    pub rules: Option<&'a str>,
    /// `-p` was given.
    pub plain: bool,
    /// The value of `-m`.
    pub model: Option<&'a str>,
    /// `-i` was given.
    pub ignore: bool,
    /// `-j` was given.
    pub join: bool,
    /// The value of `-n`.
    pub number: Option<&'a str>,
    /// `-r` was given.
    pub interrupted: bool,
    /// The files, in their order.
    pub files: Vec<&'a str>,
}

/// The first value of an argument.
fn text_of<'a>(matches: &ArgMatches<'a>, id: &str) -> Option<&'a str>
    ensures { option_map (λ s. s.now) result ≡ first_of id.now (rows_of (found_of matches.now)) }
{
    matches.get_str(id)
}

/// Whether an option without a value was given.
fn flag_of(matches: &ArgMatches<'_>, id: &str) -> bool
    ensures { result ≡ is_on id.now (rows_of (found_of matches.now)) }
{
    match text_of(matches, id) {
        Some(text) => text == "true",
        None => false,
    }
}

/// All values of an argument; `None` if it has none.
fn texts_of<'m, 'a>(matches: &'m ArgMatches<'a>, id: &str) -> Option<&'m [&'a str]>
    ensures { option_map (λ s. map (λ v. v.now) s.now) result
        ≡ all_of id.now (rows_of (found_of matches.now)) }
{
    matches.get_strs(id)
}

/// The files, in their order.
fn files_of<'a>(alloc: Global, matches: &ArgMatches<'a>) -> Result<Vec<&'a str>, AllocError>
    ensures { IfOk result (λ files.
        map (λ s. s.now) files.items ≡ (use_of (rows_of (found_of matches.now))).files) }
{
    match texts_of(matches, "FILE") {
        Some(files) => files.to_vec(alloc),
        None => Ok(Vec::new(alloc)),
    }
}

/// What was given of each argument.
fn given_of<'a>(alloc: Global, matches: &ArgMatches<'a>) -> Result<Given<'a>, AllocError>
    ensures { IfOk result (λ g. given_held g ≡ use_of (rows_of (found_of matches.now))) }
{
    let files = files_of(alloc, matches)?;
    Ok(Given {
        command: text_of(matches, "COMMAND"),
        rules: text_of(matches, "e"),
        plain: flag_of(matches, "p"),
        model: text_of(matches, "m"),
        ignore: flag_of(matches, "i"),
        join: flag_of(matches, "j"),
        number: text_of(matches, "n"),
        interrupted: flag_of(matches, "r"),
        files,
    })
}

/// Whether `clap` ran out of memory.
fn is_for_memory(error: &Error) -> bool
    ensures wanted { result ≡ true → kind_of error.now ≡ OutOfMemory }
    ensures other { result ≡ false → kind_of error.now ≢ OutOfMemory }
{
    error.kind() == ErrorKind::OutOfMemory
}

/// What `clap` makes of the arguments. Each of its errors other than out of memory becomes `Usage`.
fn matches_of<'a>(alloc: Global, words: &'a [String]) -> Result<ArgMatches<'a>, ParseError>
    ensures taken { IfOk result (λ m. is_taken (map string_bytes words.entry.now) ≡ true) }
    ensures rows { IfOk result (λ m. rows_of (found_of m)
        ≡ rows_for (map string_bytes words.entry.now)) }
    ensures usage { result ≡ Err ParseError.Usage
        → is_taken (map string_bytes words.entry.now) ≡ false }
{
    let Ok(command) = command(alloc) else {
        return Err(ParseError::Memory);
    };
    match command.try_get_matches_from(words) {
        Ok(matches) => Ok(matches),
        Err(error) => {
            if is_for_memory(&error) {
                Err(ParseError::Memory)
            } else {
                Err(ParseError::Usage)
            }
        }
    }
}

/// What the arguments give, if `clap` accepts them. `Usage` is returned only if it does not.
pub fn read<'a>(alloc: Global, words: &'a [String]) -> Result<Given<'a>, ParseError>
    ensures taken { IfOk result (λ g. is_taken (map string_bytes words.entry.now) ≡ true) }
    ensures given { IfOk result (λ g. given_held g
        ≡ use_of (rows_for (map string_bytes words.entry.now))) }
    ensures usage { result ≡ Err ParseError.Usage
        → is_taken (map string_bytes words.entry.now) ≡ false }
{
    let matches = matches_of(alloc, words)?;
    let given = given_of(alloc, &matches);
    drop(matches);
    match given {
        Ok(given) => Ok(given),
        Err(_) => Err(ParseError::Memory),
    }
}
