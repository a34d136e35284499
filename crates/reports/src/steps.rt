//! The texts of the events of paths.
ghost use Rattle.std.specs.Prelude.{◌≡◌, ◌≤◌, ◌+◌, ◌++◌, OnOk, IfOk, MatchOption, length, slice_range, take};
ghost use Rattle.reports.specs.Paths.{step_text};

use crate::name::Names;
use crate::number::push_number;
use limits::MAX_PARTITIONS;
use std::alloc::{AllocError, Global};
use std::marker::Model;

/// Appends an event to the text: a space, the name of its type, `@`, and the id of its partition.
fn push_text(text: &mut Vec<u8>, names: &Names<'_>, number: u16, id: u32) -> Result<(), AllocError>
    ensures { OnOk result (text.new.items ≡ text.old.items ++ step_text names.now (number, id)) }
{
    text.push(b' ')?;
    names.push_name(text, number)?;
    text.push(b'@')?;
    push_number(text, id)?;
    Ok(())
}

/// A text of at most this many bytes is kept beside its place too.
const IN_PLACE: usize = 16;

/// Where the text of an event is kept.
#[derive(Clone, Copy)]
pub struct Kept {
    /// The number of its type.
    pub number: u16,
    /// Its bytes with zeros behind them, if there are at most `IN_PLACE`.
    pub short: [u8; 16],
    /// Where its bytes begin.
    pub start: usize,
    /// How many bytes it has.
    pub count: usize,
}

/// The text with zeros behind it, if it has at most `IN_PLACE` bytes.
fn in_place(text: &[u8]) -> [u8; 16]
    ensures { length text.now ≤ 16 → take (length text.now) result ≡ text.now }
{
    let mut bytes = [0; 16];
    if text.len() <= IN_PLACE {
        bytes[..text.len()].copy_from_slice(text);
    }
    bytes
}

/// Appends the first `count` of these bytes to the text. All of them are copied, as one value, and those behind are cut
/// off again. To copy a number of bytes that is not constant costs more.
#[inline(always)]
fn push_short(text: &mut Vec<u8>, bytes: [u8; 16], count: usize) -> Result<(), AllocError>
    requires { count ≤ 16 }
    ensures { OnOk result (text.new.items ≡ text.old.items ++ take count bytes) }
{
    text.extend_from_slice(&bytes)?;
    text.truncate(text.len() - (IN_PLACE - count));
    Ok(())
}

/// Appends a text that is kept in these bytes.
#[inline(always)]
fn push_kept(text: &mut Vec<u8>, kept: &Kept, bytes: &[u8]) -> Result<(), AllocError>
    requires inside { (kept.now).start + (kept.now).count ≤ length bytes.now }
    requires short { (kept.now).count ≤ 16 → take (kept.now).count (kept.now).short
        ≡ slice_range bytes.now (kept.now).start ((kept.now).start + (kept.now).count) }
    ensures { OnOk result (text.new.items
        ≡ text.old.items ++ slice_range bytes.now (kept.now).start ((kept.now).start + (kept.now).count)) }
{
    if kept.count <= IN_PLACE {
        return push_short(text, kept.short, kept.count);
    }
    text.extend_from_slice(&bytes[kept.start..kept.start + kept.count])
}

/// Writes the events of paths. The text of an event depends on the number of its type and on the id of its partition alone, so
/// it is made when it is first written, and copied from then on. One text is kept for each id below `MAX_PARTITIONS`. An event
/// of another type or of another id has its text made each time.
///
/// Contracts see the texts of the types.
#[derive(Drop)]
pub struct Steps<'a> {
    names: Names<'a>,
    /// Where the texts are kept, by id.
    kept: Vec<Option<Kept>>,
    /// The texts that are kept, one after the other.
    bytes: Vec<u8>,
}

impl<'a> Model for Steps<'a> {
    ghost use Rattle.std.specs.Prelude.{List, ℕ};
    ghost use Rattle.reports.specs.Steps.{AreKept};

    ghost Value = { List (List ℕ) };

    ghost view = { λ s. s.names };

    ghost invariant = { λ s. AreKept s.names s.kept.items s.bytes.items };
}

impl<'a> Steps<'a> {
    /// A writer of events whose types have these names. No text is kept yet. The only error is out of memory.
    pub fn make(alloc: Global, names: Names<'a>) -> Result<Steps<'a>, AllocError>
        ensures { IfOk result (λ steps. steps ≡ names.entry) }
    {
        let kept = vec![in alloc; None; MAX_PARTITIONS as usize]?;
        Ok(Steps {
            names,
            kept,
            bytes: Vec::new(alloc),
        })
    }

    /// Appends an event whose text is kept. If it is not kept, the text stays and `None` is returned.
    #[inline(always)]
    fn push_known(&self, text: &mut Vec<u8>, number: u16, id: u32) -> Option<Result<(), AllocError>>
        ensures { MatchOption result (text.new ≡ text.old)
            (λ done. OnOk done (text.new.items ≡ text.old.items ++ step_text self.now (number, id))) }
    {
        let Some(Some(kept)) = self.kept.get(id as usize) else {
            return None;
        };
        if kept.number != number {
            return None;
        }
        Some(push_kept(text, kept, &self.bytes))
    }

    /// Keeps the text of an event, unless one is kept for its id. If memory runs out, what is kept stays.
    fn keep(&mut self, number: u16, id: u32, text: &[u8]) -> Result<(), AllocError>
        requires { text.now ≡ step_text self.old (number, id) }
        ensures { self.new ≡ self.old }
    {
        let at = id as usize;
        let Some(None) = self.kept.get(at) else {
            return Ok(());
        };
        let start = self.bytes.len();
        self.bytes.extend_from_slice(text)?;
        self.kept[at] = Some(Kept {
            number,
            short: in_place(text),
            start,
            count: text.len(),
        });
        Ok(())
    }

    /// Appends an event whose text is not kept, and keeps its text if none is kept for its id.
    #[inline(never)]
    fn push_new(&mut self, text: &mut Vec<u8>, number: u16, id: u32) -> Result<(), AllocError>
        ensures same { self.new ≡ self.old }
        ensures text { OnOk result (text.new.items ≡ text.old.items ++ step_text self.old (number, id)) }
    {
        let start = text.len();
        push_text(text, &self.names, number, id)?;
        self.keep(number, id, &text[start..])
    }

    /// Appends an event to the text: a space, the name of its type, `@`, and the id of its partition.
    #[inline(always)]
    pub fn push_step(&mut self, text: &mut Vec<u8>, number: u16, id: u32) -> Result<(), AllocError>
        ensures same { self.new ≡ self.old }
        ensures text { OnOk result (text.new.items ≡ text.old.items ++ step_text self.old (number, id)) }
    {
        match self.push_known(text, number, id) {
            Some(done) => done?,
            None => self.push_new(text, number, id)?,
        }
        Ok(())
    }
}
