//! Takes in the lines of a log, and keeps those that nothing decides.
ghost use Rattle.std.specs.Prelude.{◌≡◌, [], IfOk, true};
ghost use Rattle.traces.specs.Words.{gathered_of};
ghost use Rattle.log_reader.specs.Reading.{setting};
ghost use Rattle.log_reader.specs.SoFar.{IsReady, setting_of};
ghost use Rattle.log_reader.specs.Views.{form_view};
ghost use Rattle.events.specs.Takers.{collecting};

use crate::undecided::{UndecidedLine, put_undecided};
use log_reader::{At, Form, LogReader, ReadError, TakeLines};
use std::alloc::{AllocError, Global};

/// A log that is being read, and the lines so far that nothing decides.
#[derive(Drop)]
pub struct UndecidedReader<'r> {
    /// What gathers the traces, since their limits refuse lines too.
    pub reader: LogReader<'r>,
    /// The lines that nothing decides.
    pub lines: Vec<UndecidedLine>,
}

impl<'r> UndecidedReader<'r> {
    /// A reader before the first line, which skips lines that nothing decides. It takes memory if the form does.
    pub fn make(
        alloc: Global,
        form: Form<'r>,
        join: bool,
    ) -> Result<UndecidedReader<'r>, AllocError>
        ensures ready { IfOk result (λ new. IsReady new.reader) }
        ensures setting { IfOk result (λ new.
            setting_of new.reader ≡ setting (form_view form.entry) true join) }
        ensures section { IfOk result (λ new. new.reader.log.section ≡ 0) }
        ensures log { IfOk result (λ new. new.reader.log.builder ≡ gathered_of []) }
        ensures none { IfOk result (λ new. new.lines.items ≡ []) }
    {
        let reader = LogReader::make(alloc, form, true, join)?;
        Ok(UndecidedReader {
            reader,
            lines: Vec::new(alloc),
        })
    }

    /// The lines that nothing decides.
    pub fn finish(self) -> Vec<UndecidedLine>
        ensures { result.items ≡ self.entry.lines.items }
    {
        let UndecidedReader { reader, lines } = self;
        drop(reader);
        lines
    }
}

impl<'r> TakeLines for UndecidedReader<'r> {
    ghost seen = { collecting };

    fn take_line(
        &mut self,
        alloc: Global,
        at: At,
        line: &[u8],
        bytes: &[u8],
        ascii: bool,
    ) -> Result<(), ReadError> {
        let taken = match self.reader.read_line(alloc, at, line, bytes, ascii) {
            Ok(taken) => taken,
            Err(error) => return Err(error),
        };
        match put_undecided(alloc, &mut self.lines, at, line, taken) {
            Ok(()) => Ok(()),
            Err(_) => Err(ReadError::Memory),
        }
    }

    fn end_file(&mut self) {
        self.reader.start_file();
    }
}
