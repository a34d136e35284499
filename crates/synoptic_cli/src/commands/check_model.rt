//! `check`: reports whether the model in a file is valid for a log, for the kinds of invariants that it names.
ghost use Rattle.std.specs.Prelude.{◌≡◌, ◌++◌, IfOk, Ok, OnOk, codes, decimal};
ghost use Rattle.model_shape.specs.Shapes.{IsWellShaped};
ghost use Rattle.synoptic_cli.specs.Commands.CheckModel.{Answers, answer_of, no_text};
ghost use Rattle.synoptic_cli.specs.Halts.{Gives, IsVerdict};

use crate::answer::{Answer, NoAnswer};
use crate::commands::numbered::{line, numbered_line};
use crate::material::Material;
use crate::status::Status;
use invariants::Seq;
use model_check::{Part, Verdict, check};
use models::{first_part_fails, valid_tells};
use reports::push_number;
use std::alloc::{AllocError, Global};

/// Appends the line of a pair of partitions without a block to the text.
fn push_pair(text: &mut Vec<u8>, p: u32, q: u32) -> Result<(), AllocError>
    ensures { OnOk result (text.new.items ≡ text.old.items
        ++ codes "no: block " ++ decimal p ++ codes " " ++ decimal q ++ codes "\n") }
{
    text.extend_from_slice(b"no: block ")?;
    push_number(text, p)?;
    text.push(32)?;
    push_number(text, q)?;
    text.push(10)?;
    Ok(())
}

/// The line of a pair of partitions without a block.
fn pair_line(alloc: Global, p: u32, q: u32) -> Result<Seq<u8>, AllocError>
    ensures { IfOk result (λ text. text ≡ no_text (Part.Block p q)) }
{
    let mut text = Vec::new(alloc);
    push_pair(&mut text, p, q)?;
    Ok(Seq::from_vec(text))
}

/// The line that names the part that fails.
fn no_line(alloc: Global, part: Part) -> Result<Seq<u8>, AllocError>
    ensures { IfOk result (λ text. text ≡ no_text part) }
{
    match part {
        Part::Types => line(alloc, "no: types\n"),
        Part::Listing(place) => numbered_line(alloc, "no: listing ", place),
        Part::Trace(place) => numbered_line(alloc, "no: trace ", place),
        Part::Label(place) => numbered_line(alloc, "no: label ", place),
        Part::Block(p, q) => pair_line(alloc, p, q),
    }
}

/// The answer for a verdict.
fn answer_of(alloc: Global, verdict: Verdict) -> Result<Answer, AllocError>
    ensures value { IfOk result (λ a. a ≡ answer_of verdict) }
    ensures verdict { IfOk result (λ a. IsVerdict a.status) }
{
    match verdict {
        Verdict::Yes => Ok(Answer {
            status: Status::Done,
            text: line(alloc, "yes\n")?,
        }),
        Verdict::No(part) => Ok(Answer {
            status: Status::NoCheck(part),
            text: no_line(alloc, part)?,
        }),
    }
}

/// The answer. The only error is out of memory.
fn print(alloc: Global, material: &Material) -> Result<Answer, AllocError>
    requires { IsWellShaped material.now.model }
    ensures value { IfOk result (λ a. Answers material.now (Ok a)) }
    ensures verdict { IfOk result (λ a. IsVerdict a.status) }
{
    valid_tells();
    first_part_fails();
    let verdict = check(alloc, &material.model, &material.log)?;
    answer_of(alloc, verdict)
}

/// Whether the model in the file is valid for the log, for the kinds of invariants that it names: `yes`, or `no` with the first
/// part that fails.
pub fn answer(alloc: Global, material: Material) -> Result<Answer, NoAnswer>
    requires { IsWellShaped material.model }
    ensures { Gives (Answers material) result }
{
    let printed = print(alloc, &material);
    drop(material);
    Ok(printed?)
}
