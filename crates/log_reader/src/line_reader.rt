//! Reads the lines of inputs, one by one, through a buffer of a fixed size.
ghost use Rattle.std.specs.Prelude.{◌≡◌, ◌<◌, ◌≤◌, ◌+◌, ◌-◌, [], length, min, take, drop, Some, IfOk, IfErr, IfNone, IfSome, IsSome, false, true};
ghost use Rattle.std.specs.List.{position_or_len};
ghost use Rattle.std.specs.Str.{IsAscii};
ghost use Rattle.limits.specs.declared.TheConstants.{MAX_INPUT_BYTES, MAX_LINE_BYTES};
ghost use Rattle.lines.specs.Lines.{is_feed, line_of};
ghost use Rattle.outside.specs.Inputs.{Stays};
ghost use Rattle.log_reader.specs.LineReader.{NextGives, at_start, feed_bytes, unused_lines, without_line};
ghost use Rattle.log_reader.specs.Buffers.{FillGives, FindsEnd, IsWithinLimits, MissesEnd};

mod buffer;
mod feed_search;

use crate::cut::{Cut, Extent, within_limits};
use crate::line_error::LineError;
use crate::line_reader::buffer::{BUFFER_BYTES, clean_after, read_behind, to_front};
use crate::line_reader::feed_search::{LANES, NEAR_BYTES, first_feed, near_feed};
use limits::MAX_INPUT_BYTES;
use lines::without_return;
use outside::{Failed, Inputs};
use std::alloc::{AllocError, Global};
use std::marker::Model;

/// A reader of the lines of inputs, one input after the other. It has a buffer of 131,072 bytes, which is made once. A line is a
/// part of the buffer and is not copied.
///
/// Contracts see the bytes that are buffered, the current line if there is one, whether a line feed ends it, the number of the
/// line in its input, how many bytes all lines have taken since the reader was made, and whether a call of `next` returned an
/// error. The bytes still to come are those that are buffered, and then the unread bytes of the open input.
#[derive(Drop)]
pub struct Lines {
    buf: Vec<u8>,
    /// Where the buffered bytes begin.
    from: usize,
    /// Where they end.
    to: usize,
    /// From where on all bytes before that are known to be ASCII.
    clean_from: usize,
    line: Option<Extent>,
    fed: bool,
    number: u32,
    taken: usize,
    refused: bool,
}

impl Model for Lines {
    ghost use Rattle.log_reader.specs.LineReader.{SeenLines};

    ghost Value = { SeenLines };

    ghost use Rattle.log_reader.specs.Buffers.{IsClean, IsSound, line_in, part_of};

    ghost view = { λ l. record {
      buffered = part_of l.buf.items l.from l.to;
      line = line_in l.buf.items l.line;
      fed = l.fed;
      number = l.number;
      taken = l.taken;
      refused = l.refused;
    } };

    ghost invariant = { λ l.
        IsSound l.buf.items l.from l.to l.line l.number l.taken
        × IsClean l.clean_from l.to l.buf.items };
}

impl Lines {
    /// A reader with nothing buffered. Only this call takes memory. Its only error is that memory runs out.
    pub fn make(alloc: Global) -> Result<Lines, AllocError>
        ensures { IfOk result (λ lines. lines ≡ unused_lines) }
    {
        let buf = vec![in alloc; 0u8; BUFFER_BYTES]?;
        Ok(Lines {
            buf,
            from: 0,
            to: 0,
            clean_from: 0,
            line: None,
            fed: false,
            number: 0,
            taken: 0,
            refused: false,
        })
    }

    /// Begins an input that was opened, after the end of the one before: nothing is buffered. Its lines are numbered from 1. The
    /// bytes that lines have taken are counted over all inputs.
    pub fn start(&mut self)
        requires { (self.old).buffered ≡ [] }
        ensures { self.new ≡ at_start self.old }
    {
        self.line = None;
        self.fed = false;
        self.number = 0;
    }

    /// The current line, without the line feed that ends it and without one carriage return at its end. There must be a current
    /// line.
    pub fn line(&self) -> &[u8]
        requires { IsSome (self.now).line }
        ensures { (self.now).line ≡ Some result.now }
    {
        match self.line {
            Some(part) => &self.buf[part.from..part.to],
            None => &[],
        }
    }

    /// The bytes from the start of the current line to the end of the buffer. The line is a prefix of them.
    pub(crate) fn line_and_more(&self) -> &[u8]
        requires { IsSome (self.now).line }
        ensures { IfSome (self.now).line (λ line. take (length line) result.now ≡ line) }
    {
        match self.line {
            Some(part) => &self.buf[part.from..],
            None => &[],
        }
    }

    /// Whether the current line is known to be ASCII.
    pub(crate) fn is_known_ascii(&self) -> bool
        ensures { result ≡ true → IfSome (self.now).line (λ line. IsAscii line) }
    {
        match self.line {
            Some(part) => part.from >= self.clean_from,
            None => false,
        }
    }

    /// The number of the current line in its input, counted from 1. It is also how many of the input's lines were given.
    pub fn number(&self) -> u32
        ensures { result ≡ (self.now).number }
    {
        self.number
    }

    /// Whether a line feed ends the current line. If none does, it is the last of its input.
    pub fn ends_with_feed(&self) -> bool
        ensures { result ≡ (self.now).fed }
    {
        self.fed
    }

    /// The buffered bytes.
    fn buffered(&self) -> &[u8]
        ensures value { result.now ≡ (self.now).buffered }
        ensures taken { (self.now).taken ≤ MAX_INPUT_BYTES }
        ensures within { (self.now).taken + length result.now ≤ MAX_INPUT_BYTES + 1 }
    {
        &self.buf[self.from..self.to]
    }

    /// Reads more of the open input, and returns whether there was more. Of the buffered bytes, only the new ones are looked at.
    fn fill<I: Inputs>(&mut self, inputs: &mut I) -> Result<bool, Failed>
        requires line { self.old ≡ without_line self.old }
        requires short { length (self.old).buffered ≤ MAX_LINE_BYTES }
        requires within { (self.old).taken + length (self.old).buffered ≤ MAX_INPUT_BYTES }

        // What stays of the inputs, and what is read.
        ensures stays { Stays (I.state inputs.old) (I.state inputs.new) }
        ensures mark { (I.state inputs.new).mark ≡ (I.state inputs.old).mark }
        ensures opens { (I.state inputs.new).opens ≡ (I.state inputs.old).opens }
        ensures turn { (I.state inputs.new).followed ≡ (I.state inputs.old).followed }
        ensures gives { FillGives self.old (I.state inputs.old) result
            self.new (I.state inputs.new) }
    {
        let held = self.to - self.from;
        to_front(&mut self.buf, self.from, self.to);
        self.clean_from = self.clean_from.saturating_sub(self.from);
        self.from = 0;
        self.to = held;
        let room = (BUFFER_BYTES - held).min(MAX_INPUT_BYTES + 1 - self.taken - held);
        let count = read_behind(inputs, &mut self.buf, held, room)?;
        self.to = held + count;
        self.clean_from = clean_after(&self.buf, self.clean_from, held, self.to);
        Ok(count > 0)
    }

    /// Reads until the end of the first piece to come is buffered, and returns where it is. It stays a call, so that the path of
    /// a short line is short.
    #[inline(never)]
    fn find_end<I: Inputs>(&mut self, inputs: &mut I) -> Result<Cut, LineError>
        requires line { self.old ≡ without_line self.old }
        ensures stays { Stays (I.state inputs.old) (I.state inputs.new) }
        ensures mark { (I.state inputs.new).mark ≡ (I.state inputs.old).mark }
        ensures opens { (I.state inputs.new).opens ≡ (I.state inputs.old).opens }
        ensures turn { (I.state inputs.new).followed ≡ (I.state inputs.old).followed }

        // Where the end is found, and why it is not found.
        ensures ok { IfOk result
            (FindsEnd self.old self.new (I.state inputs.old) (I.state inputs.new)) }
        ensures err { IfErr result
            (λ e. MissesEnd self.old (I.state inputs.old) e self.new (I.state inputs.new)) }
    {
        let mut searched = 0;
        loop {
            let held = self.buffered();
            let length = held.len();
            if let Some(length) = first_feed(held, searched) {
                return Ok(within_limits(self.taken, Cut { length, fed: true })?);
            }
            let whole = within_limits(self.taken, Cut { length, fed: false })?;
            match self.fill(inputs) {
                Ok(true) => searched = length,
                Ok(false) => return Ok(whole),
                Err(_) => return Err(LineError::ReadFault),
            }
        }
    }

    /// Does what `find_end` does. It is a part of its caller, so that room for the answer is cleared only when it is called.
    #[inline(always)]
    fn far_end<I: Inputs>(&mut self, inputs: &mut I) -> Result<Cut, LineError>
        requires line { self.old ≡ without_line self.old }
        ensures stays { Stays (I.state inputs.old) (I.state inputs.new) }
        ensures mark { (I.state inputs.new).mark ≡ (I.state inputs.old).mark }
        ensures opens { (I.state inputs.new).opens ≡ (I.state inputs.old).opens }
        ensures turn { (I.state inputs.new).followed ≡ (I.state inputs.old).followed }

        // Where the end is found, and why it is not found.
        ensures ok { IfOk result
            (FindsEnd self.old self.new (I.state inputs.old) (I.state inputs.new)) }
        ensures err { IfErr result
            (λ e. MissesEnd self.old (I.state inputs.old) e self.new (I.state inputs.new)) }
    {
        self.find_end(inputs)
    }

    /// How long the first piece to come is, if it is short, so that a line feed among the first `NEAR_BYTES` buffered bytes ends it,
    /// and more bytes are buffered. Then it is within the limits, since at most one byte past the limit on all input is ever
    /// buffered.
    #[inline(always)]
    fn near_end(&self) -> Option<usize>
        ensures first { IfSome result (λ n. n ≡ position_or_len is_feed (self.now).buffered) }
        ensures inside { IfSome result (λ n. n < length (self.now).buffered) }
        ensures limits { IfSome result (λ n. IsWithinLimits (self.now).taken (record { length = n; fed = true })) }
        ensures none { IfNone result (LANES < length (self.now).buffered
            → LANES ≤ position_or_len is_feed (self.now).buffered) }
        ensures far { IfNone result (min NEAR_BYTES (length (self.now).buffered - LANES)
            ≤ position_or_len is_feed (self.now).buffered) }
    {
        near_feed(self.buffered())
    }

    /// Takes the piece with this cut from the start of the buffered bytes. Its line becomes the current one.
    fn take(&mut self, cut: Cut)
        requires some { 0 < cut.length + feed_bytes cut.fed }
        requires inside { cut.length + feed_bytes cut.fed ≤ length (self.old).buffered }
        requires within { (self.old).taken + cut.length + feed_bytes cut.fed ≤ MAX_INPUT_BYTES }

        // Afterwards the piece is no longer buffered, and its line is the current one.
        ensures { self.new ≡ record {
          buffered = drop (cut.length + feed_bytes cut.fed) (self.old).buffered;
          line = Some (line_of (take cut.length (self.old).buffered));
          fed = cut.fed;
          number = (self.old).number + 1;
          taken = (self.old).taken + (cut.length + feed_bytes cut.fed);
          refused = (self.old).refused;
        } }
    {
        let line = without_return(&self.buf[self.from..self.from + cut.length]).len();
        self.line = Some(Extent {
            from: self.from,
            to: self.from + line,
        });
        self.fed = cut.fed;
        let size = cut.used();
        self.from += size;
        self.taken += size;
        self.number += 1;
    }

    /// Goes on to the next line of the open input, and returns whether there is one. It takes no memory. An input is begun by
    /// `start`. After an error `next` must not be called again.
    ///
    /// - `Ok(true)`: the current line is the first in the bytes still to come. Its piece and the line feed that ends it are gone
    ///   from them, and are counted as taken. No fault was counted.
    /// - `Ok(false)`: no byte is to come. There is no current line, and nothing is buffered. The number of the line and the count
    ///   of bytes stay. No fault was counted.
    /// - `ReadFault`: the inputs counted a fault in this call, and may fail the open input.
    /// - `TooLong`: the first piece to come has a 65,537th byte. `InputLimit`: it, or the line feed that ends it, has the first
    ///   byte past the limit on all input. If both are the case, the one whose byte comes first is returned, or `TooLong` if it
    ///   is the same byte. The bytes of all inputs count. No fault was counted.
    ///
    /// At each error, a prefix of the unread bytes of the input was read and is buffered. With the bytes that lines have taken,
    /// this is at most one byte past the limit on all input.
    pub fn next<I: Inputs>(&mut self, inputs: &mut I) -> Result<bool, LineError>
        requires { (self.old).refused ≡ false }
        ensures stays { Stays (I.state inputs.old) (I.state inputs.new) }
        ensures mark { (I.state inputs.new).mark ≡ (I.state inputs.old).mark }
        ensures opens { (I.state inputs.new).opens ≡ (I.state inputs.old).opens }
        ensures turn { (I.state inputs.new).followed ≡ (I.state inputs.old).followed }

        // The line that is given, and what is counted.
        ensures gives { NextGives self.old (I.state inputs.old) result
            self.new (I.state inputs.new) }
        ensures number { (self.new).number ≤ (self.new).taken }
        ensures taken { (self.new).taken ≤ MAX_INPUT_BYTES }
        ensures within { (self.new).taken + length (self.new).buffered ≤ MAX_INPUT_BYTES + 1 }
    {
        if let Some(length) = self.near_end() {
            self.take(Cut { length, fed: true });
            return Ok(true);
        }
        self.line = None;
        self.fed = false;
        let cut = match self.far_end(inputs) {
            Ok(cut) => cut,
            Err(error) => {
                self.refused = true;
                return Err(error);
            }
        };
        if cut.used() == 0 {
            return Ok(false);
        }
        self.take(cut);
        Ok(true)
    }
}
