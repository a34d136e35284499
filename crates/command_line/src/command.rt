//! The command line, as `clap` reads it.
ghost use Rattle.std.specs.Prelude.{◌≡◌, IfOk, false};
ghost use Rattle.clap.specs.Words.{App, app_of, rule_of, with_rule};
ghost use Rattle.command_line.specs.App.{app, bare, command_rule, file_rule, flag_rule, value_rule};

use clap::{Arg, ArgAction, Command};
use std::alloc::{AllocError, Global};

/// An option with a value, for example `-e FILE`.
fn value<'a>(alloc: Global, id: &'a str, letter: char) -> Arg<'a>
    ensures rule { rule_of result ≡ value_rule id.entry.now letter }
    ensures local { result.global ≡ false }
{
    Arg::new(alloc, id).short(letter).action(ArgAction::Set)
}

/// An option without a value, for example `-p`.
fn flag<'a>(alloc: Global, id: &'a str, letter: char) -> Arg<'a>
    ensures rule { rule_of result ≡ flag_rule id.entry.now letter }
    ensures local { result.global ≡ false }
{
    Arg::new(alloc, id).short(letter).action(ArgAction::SetTrue)
}

/// The argument that names the command.
fn command_word<'a>(alloc: Global) -> Arg<'a>
    ensures rule { rule_of result ≡ command_rule }
    ensures local { result.global ≡ false }
{
    Arg::new(alloc, "COMMAND")
        .required(true)
        .action(ArgAction::Set)
}

/// The files, any number of them.
fn files<'a>(alloc: Global) -> Arg<'a>
    ensures rule { rule_of result ≡ file_rule }
    ensures local { result.global ≡ false }
{
    Arg::new(alloc, "FILE").action(ArgAction::Append)
}

/// A command line that defines no arguments. It has no program name, and offers neither help nor a version.
fn bare_command<'a>(alloc: Global) -> Command<'a>
    ensures { app_of result ≡ bare }
{
    Command::new(alloc, "synoptic")
        .no_binary_name(true)
        .disable_help_flag(true)
        .disable_version_flag(true)
}

/// The command line with one more argument, if there is a command line.
fn add<'a>(
    command: Result<Command<'a>, AllocError>,
    arg: Arg<'a>,
) -> Result<Command<'a>, AllocError>
    requires { arg.global ≡ false }
    ensures { (before : App) → IfOk command.entry (λ c. app_of c ≡ before)
        → IfOk result (λ c. app_of c ≡ with_rule before (rule_of arg.entry)) }
{
    match command {
        Ok(command) => command.arg(arg),
        Err(e) => Err(e),
    }
}

/// The command line of the program: `COMMAND [-e FILE] [-p] [-m FILE] [-i] [-j] [-n N] [-r] [--] [FILE]...`.
pub fn command<'a>(alloc: Global) -> Result<Command<'a>, AllocError>
    ensures { IfOk result (λ c. app_of c ≡ app) }
{
    let word = add(Ok(bare_command(alloc)), command_word(alloc));
    let rules = add(word, value(alloc, "e", 'e'));
    let plain = add(rules, flag(alloc, "p", 'p'));
    let model = add(plain, value(alloc, "m", 'm'));
    let ignore = add(model, flag(alloc, "i", 'i'));
    let join = add(ignore, flag(alloc, "j", 'j'));
    let number = add(join, value(alloc, "n", 'n'));
    let interrupted = add(number, flag(alloc, "r", 'r'));
    add(interrupted, files(alloc))
}
