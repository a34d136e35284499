//! Takes in the lines of the files of a log.
ghost use Rattle.std.specs.Prelude.{◌≡◌, ◌<◌, ◌≤◌, ◌-◌, ◌^◌, OnOk, IfOk, IfErr, IfSome, [], true, length, take, None, Err};
ghost use Rattle.std.specs.Str.{IsAscii, IsUtf8};
ghost use Rattle.traces.specs.Words.{gathered_of, in_order};
ghost use Rattle.log_reader.specs.Views.{form_view};
ghost use Rattle.log_reader.specs.Reading.{decided, next_section, setting};
ghost use Rattle.log_reader.specs.SoFar.{IsReady, IsRefusal, ReadsText, decided_line, refusal_in, setting_of, taken_for};

use crate::decider::Decider;
use crate::form::Form;
use crate::refusal::{At, ReadError};
use crate::so_far::LogSoFar;
use crate::taken::Taken;
use bstr::ByteSlice;
use std::alloc::{AllocError, Global};
use std::str;
use trace_builder::Builder;
use traces::TraceSet;

/// A log that is being read.
#[derive(Drop)]
pub struct LogReader<'r> {
    /// The decider of the next line.
    pub decider: Decider<'r>,
    /// The lines that were read.
    pub log: LogSoFar,
}

impl<'r> LogReader<'r> {
    /// A reader before the first line. It takes memory if the form does.
    pub fn make(
        alloc: Global,
        form: Form<'r>,
        ignore: bool,
        join: bool,
    ) -> Result<LogReader<'r>, AllocError>
        ensures ready { IfOk result IsReady }
        ensures setting { IfOk result (λ reader.
            setting_of reader ≡ setting (form_view form.entry) ignore join) }
        ensures section { IfOk result (λ reader. reader.log.section ≡ 0) }
        ensures log { IfOk result (λ reader. reader.log.builder ≡ gathered_of []) }
    {
        let decider = Decider::make(form)?;
        Ok(LogReader {
            decider,
            log: LogSoFar {
                builder: Builder::new(alloc),
                section: 0,
                ignore,
                join,
            },
        })
    }

    /// Takes in the line with this text, with which these bytes begin.
    #[inline(always)]
    fn read_text(&mut self, at: At, text: &str, bytes: &[u8]) -> Result<Taken, ReadError>
        requires begins { take (length text.now) bytes.now ≡ text.now }
        requires ready { IsReady self.old }
        requires room { self.old.log.section < 2 ^ 32 - 1 }

        // The line is taken in, or the error gives the cause.
        ensures taken { IfOk result (λ taken. taken
            ≡ taken_for at (decided (setting_of self.old).form text.now) self.old.log) }
        ensures ok { OnOk result
            (ReadsText at (decided (setting_of self.old).form text.now) self.old self.new) }
        ensures err { IfErr result (IsRefusal
            (refusal_in (setting_of self.old).ignore at self.old.log.builder
            (decided (setting_of self.old).form text.now))) }
        ensures memory { result ≡ Err ReadError.Memory
            → refusal_in (setting_of self.old).ignore at self.old.log.builder
            (decided (setting_of self.old).form text.now) ≡ None }
    {
        match &mut self.decider {
            Decider::Plain => self.log.take_plain(at, text, bytes),
            Decider::Rules(kept) => self.log.take_ruled(kept, at, text, bytes),
        }
    }

    /// Takes in a line that is not UTF-8.
    fn read_lossy(&mut self, alloc: Global, at: At, line: &[u8]) -> Result<Taken, ReadError>
        requires ready { IsReady self.old }
        requires room { self.old.log.section < 2 ^ 32 - 1 }
        requires some { 0 < length line.now }

        // The line is taken in, or the error gives the cause.
        ensures taken { IfOk result (λ taken. taken
            ≡ taken_for at (decided_line (setting_of self.old).form line.now) self.old.log) }
        ensures ok { OnOk result
            (ReadsText at (decided_line (setting_of self.old).form line.now) self.old self.new) }
        ensures err { IfErr result (IsRefusal
            (refusal_in (setting_of self.old).ignore at self.old.log.builder
            (decided_line (setting_of self.old).form line.now))) }
    {
        match line.to_str_lossy(alloc) {
            Ok(text) => self.read_text(at, &text, text.as_bytes()),
            Err(_) => Err(ReadError::Memory),
        }
    }

    /// Takes in a line that may not be UTF-8, and with which these bytes begin. It stays a call, so that the path of a line that
    /// is known to be ASCII is short.
    #[inline(never)]
    fn read_unknown(
        &mut self,
        alloc: Global,
        at: At,
        line: &[u8],
        bytes: &[u8],
    ) -> Result<Taken, ReadError>
        requires begins { take (length line.now) bytes.now ≡ line.now }
        requires ready { IsReady self.old }
        requires room { self.old.log.section < 2 ^ 32 - 1 }
        requires some { 0 < length line.now }

        // The line is taken in, or the error gives the cause.
        ensures taken { IfOk result (λ taken. taken
            ≡ taken_for at (decided_line (setting_of self.old).form line.now) self.old.log) }
        ensures ok { OnOk result
            (ReadsText at (decided_line (setting_of self.old).form line.now) self.old self.new) }
        ensures err { IfErr result (IsRefusal
            (refusal_in (setting_of self.old).ignore at self.old.log.builder
            (decided_line (setting_of self.old).form line.now))) }
        ensures memory { result ≡ Err ReadError.Memory → IsUtf8 line.now
            → refusal_in (setting_of self.old).ignore at self.old.log.builder
            (decided_line (setting_of self.old).form line.now) ≡ None }
    {
        match str::from_utf8(line) {
            Ok(text) => self.read_text(at, text, bytes),
            Err(_) => self.read_lossy(alloc, at, line),
        }
    }

    /// Does what `read_unknown` does. It is a part of its caller, so that room for the answer is cleared only when it is called.
    #[inline(always)]
    fn read_any(
        &mut self,
        alloc: Global,
        at: At,
        line: &[u8],
        bytes: &[u8],
    ) -> Result<Taken, ReadError>
        requires begins { take (length line.now) bytes.now ≡ line.now }
        requires ready { IsReady self.old }
        requires room { self.old.log.section < 2 ^ 32 - 1 }
        requires some { 0 < length line.now }

        // The line is taken in, or the error gives the cause.
        ensures taken { IfOk result (λ taken. taken
            ≡ taken_for at (decided_line (setting_of self.old).form line.now) self.old.log) }
        ensures ok { OnOk result
            (ReadsText at (decided_line (setting_of self.old).form line.now) self.old self.new) }
        ensures err { IfErr result (IsRefusal
            (refusal_in (setting_of self.old).ignore at self.old.log.builder
            (decided_line (setting_of self.old).form line.now))) }
        ensures memory { result ≡ Err ReadError.Memory → IsUtf8 line.now
            → refusal_in (setting_of self.old).ignore at self.old.log.builder
            (decided_line (setting_of self.old).form line.now) ≡ None }
    {
        self.read_unknown(alloc, at, line, bytes)
    }

    /// Takes in a line, which may be known to be ASCII and with which these bytes begin, and returns what it was taken for. If
    /// the line is UTF-8, `Memory` is returned only if the line has no refusal.
    #[inline(always)]
    pub fn read_line(
        &mut self,
        alloc: Global,
        at: At,
        line: &[u8],
        bytes: &[u8],
        ascii: bool,
    ) -> Result<Taken, ReadError>
        requires ascii { ascii ≡ true → IsAscii line.now }
        requires begins { take (length line.now) bytes.now ≡ line.now }
        requires ready { IsReady self.old }
        requires room { self.old.log.section < 2 ^ 32 - 1 }

        // The line is taken in, or the error gives the cause.
        ensures taken { IfOk result (λ taken. taken
            ≡ taken_for at (decided_line (setting_of self.old).form line.now) self.old.log) }
        ensures ok { OnOk result
            (ReadsText at (decided_line (setting_of self.old).form line.now) self.old self.new) }
        ensures err { IfErr result (IsRefusal
            (refusal_in (setting_of self.old).ignore at self.old.log.builder
            (decided_line (setting_of self.old).form line.now))) }
        ensures memory { result ≡ Err ReadError.Memory → IsUtf8 line.now
            → refusal_in (setting_of self.old).ignore at self.old.log.builder
            (decided_line (setting_of self.old).form line.now) ≡ None }
    {
        if line.is_empty() {
            return Ok(Taken::Nothing);
        }
        if ascii {
            let text = unsafe { str::from_utf8_unchecked(line) };
            return self.read_text(at, text, bytes);
        }
        self.read_any(alloc, at, line, bytes)
    }

    /// Ends a file: the sections of the next one are counted from 0 again, unless files are joined.
    pub fn start_file(&mut self)
        ensures section { self.new.log.section
            ≡ next_section (setting_of self.old) self.old.log.section }
        ensures few { self.new.log.section ≤ self.old.log.section }
        ensures setting { setting_of self.new ≡ setting_of self.old }
        ensures ready { IsReady self.old → IsReady self.new }
        ensures log { self.new.log.builder ≡ self.old.log.builder }
    {
        if !self.log.join {
            self.log.section = 0;
        }
    }

    /// The types and the traces of the lines that were read, each trace ordered by the times of its events.
    pub fn finish(self) -> Result<TraceSet, AllocError>
        ensures { IfOk result (λ set. set ≡ in_order self.entry.log.builder) }
    {
        let LogReader { decider: _, log } = self;
        let LogSoFar {
            builder,
            section: _,
            ignore: _,
            join: _,
        } = log;
        builder.finish()
    }
}
