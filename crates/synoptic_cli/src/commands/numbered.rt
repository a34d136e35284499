//! Lines of text, and lines that end with numbers.
ghost use Rattle.std.specs.Prelude.{◌≡◌, ◌++◌, IfOk, OnOk, codes, decimal};
ghost use Rattle.synoptic_cli.specs.Commands.RunBench.{count_line};

use invariants::Seq;
use itoa::Buffer;
use std::alloc::{AllocError, Global};

/// The text.
pub fn line(alloc: Global, what: &str) -> Result<Seq<u8>, AllocError>
    ensures { IfOk result (λ text. text ≡ what.now) }
{
    Ok(Seq::from_vec(what.as_bytes().to_vec(alloc)?))
}

/// Appends the line with the number of something to the text.
pub fn push_count(text: &mut Vec<u8>, what: &str, number: usize) -> Result<(), AllocError>
    ensures { OnOk result (text.new.items ≡ text.old.items ++ count_line what.now number) }
{
    let mut digits = Buffer::new();
    text.extend_from_slice(what.as_bytes())?;
    text.extend_from_slice(digits.format(number).as_bytes())?;
    text.push(10)?;
    Ok(())
}

/// The line of this text and a number.
pub fn numbered_line(alloc: Global, what: &str, number: u32) -> Result<Seq<u8>, AllocError>
    ensures { IfOk result (λ text. text ≡ what.now ++ decimal number ++ codes "\n") }
{
    let mut text = Vec::new(alloc);
    push_count(&mut text, what, number as usize)?;
    Ok(Seq::from_vec(text))
}
