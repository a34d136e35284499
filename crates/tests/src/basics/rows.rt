//! Four rows of bits: a step on the first row, and the rows afterwards.
ghost use Rattle.std.specs.Prelude.{◌≤◌, ◌<◌, IfOk, length};
ghost use Rattle.bit_rows.specs.Tables.{HasShape};

use crate::tools::halves;
use bit_rows::Rows;
use std::alloc::{AllocError, Global};

/// The most bits of a row.
const MAX_BITS: usize = 1000;

/// A step on the first row.
#[derive(Clone, Copy)]
enum Step {
    Nothing,
    Clear,
    Copy,
    Or,
    And,
    AndNot,
    OrAnd,
    OrAndNot,
}

/// The step of this name.
fn step_of(word: &str) -> Step {
    match word {
        "clear" => Step::Clear,
        "copy" => Step::Copy,
        "or" => Step::Or,
        "and" => Step::And,
        "and_not" => Step::AndNot,
        "or_and" => Step::OrAnd,
        "or_and_not" => Step::OrAndNot,
        _ => Step::Nothing,
    }
}

/// Turns on the bits of a row at which the text has a 1.
fn put_row(rows: &mut Rows, r: usize, bits: usize, word: &str)
    requires shape { HasShape rows.old 4 bits }
    requires row { r < 4 }
    ensures { HasShape rows.new 4 bits }
{
    for i in 0..bits {
        rows.put(r, i, word.as_bytes().get(i) == Some(&b'1'));
    }
}

/// Four rows, each with the bits of a text.
fn filled(alloc: Global, bits: usize, words: &str) -> Result<Rows, AllocError>
    requires { bits ≤ 1000 }
    ensures { IfOk result (λ made. HasShape made 4 bits) }
{
    let mut rows = Rows::make(alloc, 4, bits)?;
    for r in 0..4 {
        put_row(&mut rows, r, bits, words.split(' ').nth(r).unwrap_or(""));
    }
    Ok(rows)
}

/// Takes the step. Returns whether the row changed, if the step reports this.
fn take_step(rows: &mut Rows, step: Step, bits: usize) -> bool
    requires { HasShape rows.old 4 bits }
    ensures { HasShape rows.new 4 bits }
{
    match step {
        Step::Nothing => return false,
        Step::Clear => rows.clear(0),
        Step::Copy => rows.copy_into(0, 1),
        Step::Or => return rows.or_into(0, 1),
        Step::And => rows.and_into(0, 1),
        Step::AndNot => rows.and_not_into(0, 1),
        Step::OrAnd => return rows.or_and_into(0, 1, 2),
        Step::OrAndNot => return rows.or_and_not_into(0, 1, 2),
    }
    false
}

/// Appends the bits of a row to the text.
fn put_bits(told: &mut String, rows: &Rows, r: usize, bits: usize) -> Result<(), AllocError>
    requires shape { HasShape rows.now 4 bits }
    requires row { r < 4 }
{
    for i in 0..bits {
        told.push(if rows.get(r, i) { '1' } else { '0' })?;
    }
    Ok(())
}

/// Appends the next bit of a row that is on, from this place on, to the text.
fn put_next(told: &mut String, rows: &Rows, r: usize, place: &str) -> Result<(), AllocError>
    requires { r < length rows.now }
{
    match place.parse() {
        Ok(from) => write!(told, " {:?}", rows.next_set(r, from)),
        Err(_) => Ok(()),
    }
}

/// Appends what is found in a row to the text: whether all bits are off, the first bit that is on, and the next from each
/// place.
fn put_found(
    told: &mut String,
    rows: &Rows,
    r: usize,
    bits: usize,
    places: &str,
) -> Result<(), AllocError>
    requires shape { HasShape rows.now 4 bits }
    requires row { r < 4 }
{
    write!(told, " {} {:?}", rows.is_zero(r), rows.first_set(r))?;
    for place in places.split(' ') {
        put_next(told, rows, r, place)?;
    }
    told.push('\n')
}

/// Appends to the text whether the step changes the first row, whether it changes it again, and the rows afterwards.
fn put_all(
    told: &mut String,
    rows: &mut Rows,
    step: Step,
    bits: usize,
    places: &str,
) -> Result<(), AllocError>
    requires { HasShape rows.old 4 bits }
{
    let first = take_step(rows, step, bits);
    let second = take_step(rows, step, bits);
    write!(told, "{first} {second}\n")?;
    for r in 0..4 {
        put_bits(told, rows, r, bits).and(put_found(told, rows, r, bits, places))?;
    }
    Ok(())
}

/// `rows STEP ROW ROW ROW ROW|PLACE PLACE ..`: all rows are as long as the first. The bits of a shorter one are off after its
/// end.
pub fn told(alloc: Global, words: &str, out: &mut String) -> Result<(), AllocError> {
    let (head, places) = halves(words, '|');
    let (step, words) = halves(head, ' ');
    let bits = halves(words, ' ').0.len().min(MAX_BITS);
    let mut rows = filled(alloc, bits, words)?;
    put_all(out, &mut rows, step_of(step), bits, places)
}
