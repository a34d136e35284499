//! The log of the lines so far.
ghost use Rattle.std.specs.Prelude.{◌≡◌, ◌≢◌, ◌<◌, ◌-◌, ◌^◌, nat_lt, length, take, OnOk, IfOk, IfErr, Some, None, Err, if◌then◌else◌};
ghost use Rattle.limits.specs.declared.TheConstants.{MAX_TRACE_BYTES, MAX_TYPE_BYTES};
ghost use Rattle.lines.specs.Lines.{plain_fields_of};
ghost use Rattle.line_rules.specs.Views.{rules_in, matched_rules};
ghost use Rattle.log_reader.specs.Reading as spec;
ghost use Rattle.log_reader.specs.Reading.{by_fields, decided};
ghost use Rattle.log_reader.specs.SoFar.{refusal_in, taken_for, IsRefusal, IsWithin, TakesLine};

use crate::decider::{KeptRules, part_of, type_text_of};
use crate::refusal::{At, ReadError};
use crate::taken::Taken;
use limits::{MAX_TRACE_BYTES, MAX_TYPE_BYTES};
use line_rules::{DecideError, Decision};
use lines::plain_fields_ahead;
use trace_builder::{AddError, Builder, PackedText};

/// The log of the lines so far.
#[derive(Drop)]
pub struct LogSoFar {
    /// Their events.
    pub builder: Builder,
    /// How many separators stand before the next line: in its file, or in all files if `join` is
    /// set.
    pub section: u32,
    /// Whether lines that nothing decides are skipped.
    pub ignore: bool,
    /// Whether all files are one in the keys of events.
    pub join: bool,
}

/// The refusal of an event if one of its texts is too long.
#[inline(always)]
fn too_long(at: At, trace_text: &str, type_text: &str) -> Option<ReadError>
    ensures { result ≡ (if nat_lt MAX_TYPE_BYTES (length type_text.now)
        then Some (ReadError.TypeTooLong at)
        else if nat_lt MAX_TRACE_BYTES (length trace_text.now) then Some (ReadError.TraceTooLong at)
        else None) }
{
    if type_text.len() > MAX_TYPE_BYTES {
        return Some(ReadError::TypeTooLong(at));
    }
    if trace_text.len() > MAX_TRACE_BYTES {
        return Some(ReadError::TraceTooLong(at));
    }
    None
}

/// The refusal of an event that was not added.
fn not_added(at: At, error: AddError) -> ReadError
    ensures type_limit { error ≡ AddError.TypeLimit → result ≡ ReadError.TypeLimit at }
    ensures event_limit { error ≡ AddError.EventLimit → result ≡ ReadError.EventLimit at }
    ensures memory { error ≡ AddError.Memory → result ≡ ReadError.Memory }
{
    match error {
        AddError::TypeLimit => ReadError::TypeLimit(at),
        AddError::EventLimit => ReadError::EventLimit(at),
        AddError::Memory => ReadError::Memory,
    }
}

impl LogSoFar {
    /// The file that the keys of a line's events have.
    #[inline(always)]
    fn key_file(&self, at: At) -> u32
        ensures { result ≡ (if (self.now).join then 0 else at.file) }
    {
        if self.join { 0 } else { at.file }
    }

    /// Begins a section at the line of a separator.
    fn begin_section(&mut self, at: At)
        requires within { IsWithin self.old.builder }
        requires room { self.old.section < 2 ^ 32 - 1 }
        ensures { TakesLine at spec.Separator self.old self.new }
    {
        self.section += 1;
    }

    /// Skips a line that nothing decides, if such lines are skipped. Otherwise it is refused.
    fn pass(&self, at: At) -> Result<Taken, ReadError>
        requires within { IsWithin self.now.builder }
        ensures taken { IfOk result (λ taken. taken ≡ taken_for at spec.Undecided self.now) }
        ensures ok { OnOk result (TakesLine at spec.Undecided self.now self.now) }
        ensures err { IfErr result
            (IsRefusal (refusal_in self.now.ignore at self.now.builder spec.Undecided)) }
        ensures no_memory { result ≢ Err ReadError.Memory }
    {
        if self.ignore {
            Ok(Taken::Undecided)
        } else {
            Err(ReadError::Undecided(at))
        }
    }

    /// Adds the event of a line, with its time in billionths of the log's unit of time, from texts with the words of their
    /// fingerprints.
    #[inline(always)]
    fn add_packed(
        &mut self,
        at: At,
        trace_text: &PackedText<'_>,
        type_text: &PackedText<'_>,
        time: u128,
    ) -> Result<Taken, ReadError>
        requires within { IsWithin self.old.builder }
        requires stands { 0 < length type_text.now }
        ensures taken { IfOk result (λ taken. taken
            ≡ taken_for at (spec.Event type_text.now trace_text.now time) self.old) }
        ensures ok { OnOk result
            (TakesLine at (spec.Event type_text.now trace_text.now time) self.old self.new) }
        ensures err { IfErr result (IsRefusal (refusal_in self.old.ignore at self.old.builder
            (spec.Event type_text.now trace_text.now time))) }
        ensures memory { result ≡ Err ReadError.Memory → refusal_in self.old.ignore at self.old.builder
            (spec.Event type_text.now trace_text.now time) ≡ None }
    {
        if let Some(refusal) = too_long(at, trace_text.text(), type_text.text()) {
            return Err(refusal);
        }
        let file = self.key_file(at);
        match self
            .builder
            .add_packed(file, self.section, trace_text, type_text, time)
        {
            Ok(placed) => Ok(Taken::Event { placed, time }),
            Err(error) => Err(not_added(at, error)),
        }
    }

    /// Adds the event of a line with these texts, which has no time. Each text is the start of the bytes after it.
    #[inline(always)]
    fn add_fields(
        &mut self,
        at: At,
        trace_text: &str,
        from_trace: &[u8],
        type_text: &str,
        from_type: &[u8],
    ) -> Result<Taken, ReadError>
        requires trace_begins { take (length trace_text.now) from_trace.now ≡ trace_text.now }
        requires type_begins { take (length type_text.now) from_type.now ≡ type_text.now }
        requires within { IsWithin self.old.builder }
        requires stands { 0 < length type_text.now }
        ensures taken { IfOk result (λ taken. taken
            ≡ taken_for at (spec.Event type_text.now trace_text.now 0) self.old) }
        ensures ok { OnOk result
            (TakesLine at (spec.Event type_text.now trace_text.now 0) self.old self.new) }
        ensures err { IfErr result (IsRefusal (refusal_in self.old.ignore at self.old.builder
            (spec.Event type_text.now trace_text.now 0))) }
        ensures memory { result ≡ Err ReadError.Memory → refusal_in self.old.ignore at self.old.builder
            (spec.Event type_text.now trace_text.now 0) ≡ None }
    {
        self.add_packed(
            at,
            &PackedText::at_start(trace_text, from_trace),
            &PackedText::at_start(type_text, from_type),
            0,
        )
    }

    /// Takes in a line in the plain form, with which these bytes begin.
    #[inline(always)]
    pub fn take_plain(&mut self, at: At, text: &str, bytes: &[u8]) -> Result<Taken, ReadError>
        requires begins { take (length text.now) bytes.now ≡ text.now }
        requires within { IsWithin self.old.builder }
        ensures taken { IfOk result (λ taken. taken
            ≡ taken_for at (by_fields (plain_fields_of text.now)) self.old) }
        ensures ok { OnOk result
            (TakesLine at (by_fields (plain_fields_of text.now)) self.old self.new) }
        ensures err { IfErr result (IsRefusal (refusal_in self.old.ignore at self.old.builder
            (by_fields (plain_fields_of text.now)))) }
        ensures memory { result ≡ Err ReadError.Memory → refusal_in self.old.ignore at self.old.builder
            (by_fields (plain_fields_of text.now)) ≡ None }
    {
        match plain_fields_ahead(text, bytes) {
            Some((trace_text, type_text, from_type)) => {
                self.add_fields(at, trace_text, bytes, type_text, from_type)
            }
            None => self.pass(at),
        }
    }

    /// Takes in by rules a line with which these bytes begin. A bad time is refused whether or not undecided lines are skipped.
    /// It stays a call, so that the path of a plain line is short.
    #[inline(never)]
    fn take_by_rules(
        &mut self,
        kept: &mut KeptRules<'_>,
        at: At,
        text: &str,
        bytes: &[u8],
    ) -> Result<Taken, ReadError>
        requires begins { take (length text.now) bytes.now ≡ text.now }
        requires within { IsWithin self.old.builder }
        requires matchers { matched_rules kept.old.matchers ≡ rules_in kept.old.rules.now }
        requires room { self.old.section < 2 ^ 32 - 1 }

        // The line is taken in or refused, and the rules stay.
        ensures taken { IfOk result (λ taken. taken
            ≡ taken_for at (decided (spec.Rules (rules_in kept.old.rules.now)) text.now) self.old) }
        ensures ok { OnOk result
            (TakesLine at (decided (spec.Rules (rules_in kept.old.rules.now)) text.now)
            self.old self.new) }
        ensures err { IfErr result (IsRefusal (refusal_in self.old.ignore at self.old.builder
            (decided (spec.Rules (rules_in kept.old.rules.now)) text.now))) }
        ensures memory { result ≡ Err ReadError.Memory → refusal_in self.old.ignore at self.old.builder
            (decided (spec.Rules (rules_in kept.old.rules.now)) text.now) ≡ None }
        ensures matchers { matched_rules kept.new.matchers ≡ matched_rules kept.old.matchers }
        ensures rules { rules_in kept.new.rules.now ≡ rules_in kept.old.rules.now }
    {
        match kept.matchers.decide(text) {
            Ok(
                Decision::Event {
                    name,
                    trace_from,
                    trace_to,
                    time,
                },
            ) => {
                let type_text = type_text_of(kept.rules, text, bytes, name);
                let trace_text = part_of(text, bytes, trace_from, trace_to);
                self.add_packed(at, &trace_text, &type_text, time)
            }
            Ok(Decision::Skip) => Ok(Taken::Nothing),
            Ok(Decision::Separator) => {
                self.begin_section(at);
                Ok(Taken::Nothing)
            }
            Ok(Decision::Undecided) => self.pass(at),
            Err(DecideError::BadTime) => Err(ReadError::BadTime(at)),
            Err(DecideError::Memory) => Err(ReadError::Memory),
        }
    }

    /// Does what `take_by_rules` does. It is a part of its caller, so that room for the answer is cleared only when it is called.
    #[inline(always)]
    pub fn take_ruled(
        &mut self,
        kept: &mut KeptRules<'_>,
        at: At,
        text: &str,
        bytes: &[u8],
    ) -> Result<Taken, ReadError>
        requires begins { take (length text.now) bytes.now ≡ text.now }
        requires within { IsWithin self.old.builder }
        requires matchers { matched_rules kept.old.matchers ≡ rules_in kept.old.rules.now }
        requires room { self.old.section < 2 ^ 32 - 1 }

        // The line is taken in or refused, and the rules stay.
        ensures taken { IfOk result (λ taken. taken
            ≡ taken_for at (decided (spec.Rules (rules_in kept.old.rules.now)) text.now) self.old) }
        ensures ok { OnOk result
            (TakesLine at (decided (spec.Rules (rules_in kept.old.rules.now)) text.now)
            self.old self.new) }
        ensures err { IfErr result (IsRefusal (refusal_in self.old.ignore at self.old.builder
            (decided (spec.Rules (rules_in kept.old.rules.now)) text.now))) }
        ensures memory { result ≡ Err ReadError.Memory → refusal_in self.old.ignore at self.old.builder
            (decided (spec.Rules (rules_in kept.old.rules.now)) text.now) ≡ None }
        ensures matchers { matched_rules kept.new.matchers ≡ matched_rules kept.old.matchers }
        ensures rules { rules_in kept.new.rules.now ≡ rules_in kept.old.rules.now }
    {
        self.take_by_rules(kept, at, text, bytes)
    }
}
