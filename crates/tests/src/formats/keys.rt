//! Keys in a table: where each is put or found, and then all keys.

use crate::formats::notation::{u32_of, usize_of, write_bytes};
use key_table::KeyTable;
use std::alloc::{AllocError, Global};
use std::fmt::Write;
use trace_keys::{KeyParts, PackedText};

/// The place where the key of file 0 is found or put. If the near place is odd, the words of its text are used.
fn place(
    alloc: Global,
    table: &mut KeyTable,
    near: usize,
    section: u32,
    text: &str,
) -> Result<Option<usize>, AllocError> {
    if table.len() >= 100_000 || text.len() >= 1_000 {
        return Ok(None);
    }
    if near % 2 == 1 {
        let packed = PackedText::of(text);
        let found = table.place_or_put_packed(alloc, near, 0, section, &packed)?;
        return Ok(Some(found));
    }
    let parts = KeyParts {
        file: 0,
        section,
        text,
    };
    let found = table.place_or_put(alloc, near, &parts)?;
    Ok(Some(found))
}

/// Reports where a key is found by its words alone, if that differs from its place.
fn write_other(
    found: Option<usize>,
    short: Option<usize>,
    out: &mut String,
) -> Result<(), AllocError> {
    if short.is_some() && short != found {
        return writeln!(out, "but {short:?} by its words");
    }
    Ok(())
}

/// Takes a step `NEAR SECTION TEXT`, and reports the place of the key, and where it is found by its words alone if that
/// differs.
fn take_step(
    alloc: Global,
    table: &mut KeyTable,
    step: &str,
    out: &mut String,
) -> Result<(), AllocError> {
    let (near, section_and_text) = usize_of(step);
    let (section, text) = u32_of(section_and_text);
    let found = place(alloc, table, near, section, text)?;
    let short = table.short_place_of(0, section, &PackedText::of(text));
    write_other(found, short, out).and(writeln!(out, "{found:?}"))
}

/// Reports which keys there are: their files, sections and texts.
fn write_keys(table: &KeyTable, out: &mut String) -> Result<(), AllocError> {
    for place in 0..table.len() {
        let key = table.key(place);
        write!(out, "{} {} ", key.file, key.section)
            .and(write_bytes(out, key.text))
            .and(out.push('\n'))?;
    }
    Ok(())
}

/// Takes the steps of a case, and reports which keys there are after them.
fn take_steps(
    alloc: Global,
    table: &mut KeyTable,
    steps: &str,
    out: &mut String,
) -> Result<(), AllocError> {
    for step in steps.split('\n') {
        take_step(alloc, table, step, out)?;
    }
    write_keys(table, out)
}

/// Takes the steps of a case.
pub fn run(alloc: Global, steps: &str, out: &mut String) -> Result<(), AllocError> {
    let mut table = KeyTable::new(alloc);
    take_steps(alloc, &mut table, steps, out)
}
