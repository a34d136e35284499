//! The program: it makes the real inputs and sinks, runs with the arguments, and exits with the status.
#![tactic(auto)]

use line_rules::{Patterns, RegexPatterns};
use outside::{Inputs, RealInputs, RealSink, Sink};
use std::alloc::Global;
use std::env;
use std::io::ErrorKind;
use std::process::ExitCode;
use std::rt::Env;
use synoptic_cli::{ErrorStream, Status, run, tell};

/// The arguments after the program's name. An argument that is not UTF-8 is a usage error.
fn words<R: Env + AllocGlobal>(rt: &R) -> Result<Vec<String>, Status> {
    let args = match env::args(rt) {
        Ok(args) => args,
        Err(error) if error.kind() == ErrorKind::OutOfMemory => return Err(Status::Memory),
        Err(_) => return Err(Status::Usage),
    };
    args.skip(1).collect(rt.alloc()).map_err(|_| Status::Memory)
}

/// Runs with the arguments, if they could be read, and returns the status.
fn ended<I: Inputs, P: Patterns, O: Sink, E: ErrorStream>(
    alloc: Global,
    words: Result<Vec<String>, Status>,
    inputs: &mut I,
    patterns: &mut P,
    out: &mut O,
    err: &mut E,
) -> Status {
    match words {
        Ok(words) => run(alloc, &words, inputs, patterns, out, err),
        Err(status) => {
            tell(None, status, err);
            status
        }
    }
}

fn main(rt: HostRuntime) -> ExitCode {
    let mut inputs = RealInputs::new(&rt, rt.reader());
    let mut patterns = RegexPatterns::new(rt.alloc());
    let mut out = RealSink::standard_output(rt.stdout());
    let mut err = RealSink::standard_error(rt.stderr());
    let status = ended(
        rt.alloc(),
        words(&rt),
        &mut inputs,
        &mut patterns,
        &mut out,
        &mut err,
    );
    ExitCode::from(status.code())
}
