//! Takes in the lines of a log, and keeps which line each event stands on.
ghost use Rattle.std.specs.Prelude.{◌≡◌, [], IfOk};
ghost use Rattle.traces.specs.Words.{gathered_of, in_order};
ghost use Rattle.log_reader.specs.Reading.{setting};
ghost use Rattle.log_reader.specs.SoFar.{IsReady, setting_of};
ghost use Rattle.log_reader.specs.Views.{form_view};
ghost use Rattle.events.specs.Takers.{locating};

use crate::events::Events;
use crate::located::{Located, put_event};
use log_reader::{At, Form, LogReader, ReadError, TakeLines};
use std::alloc::{AllocError, Global};

/// A log that is being read, and the events so far in the order of their lines.
#[derive(Drop)]
pub struct EventReader<'r> {
    /// What gathers the traces.
    pub reader: LogReader<'r>,
    /// The events so far.
    pub located: Vec<Located>,
}

impl<'r> EventReader<'r> {
    /// A reader before the first line. It takes memory if the form does.
    pub fn make(
        alloc: Global,
        form: Form<'r>,
        ignore: bool,
        join: bool,
    ) -> Result<EventReader<'r>, AllocError>
        ensures ready { IfOk result (λ new. IsReady new.reader) }
        ensures setting { IfOk result (λ new.
            setting_of new.reader ≡ setting (form_view form.entry) ignore join) }
        ensures section { IfOk result (λ new. new.reader.log.section ≡ 0) }
        ensures log { IfOk result (λ new. new.reader.log.builder ≡ gathered_of []) }
        ensures none { IfOk result (λ new. new.located.items ≡ []) }
    {
        let reader = LogReader::make(alloc, form, ignore, join)?;
        Ok(EventReader {
            reader,
            located: Vec::new(alloc),
        })
    }

    /// The traces and the events of the lines that were read.
    pub fn finish(self) -> Result<Events, AllocError>
        ensures traces { IfOk result (λ events.
            events.traces ≡ in_order self.entry.reader.log.builder) }
        ensures located { IfOk result (λ events.
            events.located.items ≡ self.entry.located.items) }
    {
        let EventReader { reader, located } = self;
        let traces = reader.finish()?;
        Ok(Events { traces, located })
    }
}

impl<'r> TakeLines for EventReader<'r> {
    ghost seen = { locating };

    fn take_line(
        &mut self,
        alloc: Global,
        at: At,
        line: &[u8],
        bytes: &[u8],
        ascii: bool,
    ) -> Result<(), ReadError> {
        let taken = match self.reader.read_line(alloc, at, line, bytes, ascii) {
            Ok(taken) => taken,
            Err(error) => return Err(error),
        };
        match put_event(&mut self.located, at, taken) {
            Ok(()) => Ok(()),
            Err(_) => Err(ReadError::Memory),
        }
    }

    fn end_file(&mut self) {
        self.reader.start_file();
    }
}
