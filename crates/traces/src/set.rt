//! A log as types and traces, and how its events are laid out.
ghost use Rattle.std.specs.Prelude.{◌≡◌, ◌<◌, ◌≤◌, ◌-◌, suc, length, take, drop, slice_index, slice_get, IfSome};
ghost use Rattle.std.specs.Str.{IsUtf8, bytes_eq};
ghost use Rattle.trace_keys.specs.Keys.{key_shown};
ghost use Rattle.limits.specs.declared.TheConstants.{MAX_EVENTS, MAX_TYPE_BYTES, MAX_TYPES};

use invariants::{Seq, Text};
use std::marker::Model;
use trace_keys::{KeyList, ShownKey};

/// The events of traces, trace after trace: trace k has those from where it starts to where the next one does.
#[derive(Drop)]
pub struct Laid {
    /// Where each trace starts, and then where the last one ends.
    pub starts: Vec<u32>,
    pub numbers: Vec<u16>,
    /// One for each event, or none at all, which stands for a time of 0 for each event.
    pub times: Vec<u128>,
}

/// The items from one place up to another.
fn part<T>(items: &[T], from: usize, to: usize) -> &[T]
    requires rise { from ≤ to }
    requires within { to ≤ length items.now }
    ensures { result.now ≡ take (to - from) (drop from items.now) }
{
    &items[from..to]
}

impl Laid {
    /// The place of the first event of trace k, and the place after its last one.
    pub fn bounds(&self, k: usize) -> (usize, usize)
        requires { suc k < length self.now.starts.items }
        ensures { result
            ≡ (slice_index self.now.starts.items k, slice_index self.now.starts.items (suc k)) }
    {
        (self.starts[k] as usize, self.starts[k + 1] as usize)
    }
}

/// The types and the traces of a log: at most 256 types and 1,000,000 events.
///
/// Contracts see the log. A trace has the numbers of its events' types, counted from 2 in the order in which the types were first
/// met. 0 and 1 are the numbers of its two ends, INITIAL and TERMINAL. The events of a trace are ordered by their times, and
/// those of the same time by when they were added.
#[derive(Drop)]
pub struct TraceSet {
    types: Seq<Text>,
    keys: KeyList,
    events: Laid,
    /// The times of each trace if none are kept.
    zeros: Vec<u128>,
    event_count: u32,
}

impl Model for TraceSet {
    ghost use Rattle.std.specs.Prelude.{length};
    ghost use Rattle.std.specs.Str.{bytes_eq};
    ghost use Rattle.traces.specs.Words.{Log, AreApart, IsLog};
    ghost use Rattle.traces.specs.Kept.{AreShort, HaveBytes, IsKept};
    ghost use Rattle.traces.specs.Columns.{laid, AreBeside, AreStarts, Suffice};

    ghost Value = { Log };

    ghost view = { λ s. record {
      types = s.types;
      traces = laid s.keys s.events.starts.items s.events.numbers.items s.events.times.items;
    } };

    ghost invariant = { λ s.
        IsKept (length s.types)
        (laid s.keys s.events.starts.items s.events.numbers.items s.events.times.items)
        s.event_count
        × AreStarts (length s.keys) (length s.events.numbers.items) s.events.starts.items
        × AreBeside s.events.numbers.items s.events.times.items
        × Suffice s.zeros.items (length s.keys) s.events.starts.items s.events.times.items
        × HaveBytes s.types
        × AreShort s.types
        × AreApart bytes_eq s.types
        × IsLog (record {
          types = s.types;
          traces = laid s.keys s.events.starts.items s.events.numbers.items s.events.times.items;
        }) };
}

impl TraceSet {
    ghost use Rattle.std.specs.Prelude.{All};
    ghost use Rattle.traces.specs.Kept.{AreShort, HaveBytes, IsKept, IsTypeNumber};
    ghost use Rattle.traces.specs.Columns.{laid, AreBeside, AreStarts, Suffice};
    ghost use Rattle.traces.specs.Words.{event_count_of, AreApart, IsLog};

    /// The set of a log whose events are laid out trace after trace: the texts of its types, the key of each trace, the events,
    /// zeros that serve as times if none are kept, and how many events there are. A builder makes these parts.
    pub fn of_parts(
        types: Seq<Text>,
        keys: KeyList,
        events: Laid,
        zeros: Vec<u128>,
        event_count: u32,
    ) -> TraceSet
        requires kept { IsKept (length types)
            (laid keys events.starts.items events.numbers.items events.times.items) event_count }
        requires starts { AreStarts (length keys) (length events.numbers.items) events.starts.items }
        requires beside { AreBeside events.numbers.items events.times.items }
        requires zeros { Suffice zeros.items (length keys) events.starts.items events.times.items }
        requires bytes { HaveBytes types }
        requires short { AreShort types }
        requires apart { AreApart bytes_eq types }
        requires log { IsLog (record {
          types = types;
          traces = laid keys events.starts.items events.numbers.items events.times.items;
        }) }
        ensures { result ≡ record {
          types = types;
          traces = laid keys events.starts.items events.numbers.items events.times.items;
        } }
    {
        TraceSet {
            types,
            keys,
            events,
            zeros,
            event_count,
        }
    }

    /// The texts of the types, in the order first met: the type with number n is at place n - 2. Each has 1 to 256 bytes, and no
    /// two are equal. Each is the type of an event, since the set is the log of some events.
    pub fn types(&self) -> &Seq<Text>
        ensures value { result.now ≡ (self.now).types }
        ensures few { length result.now ≤ MAX_TYPES }
        ensures some { All (λ text. 0 < length text) result.now }
        ensures short { All (λ text. length text ≤ MAX_TYPE_BYTES) result.now }
        ensures distinct { AreApart bytes_eq result.now }
        ensures events { IsLog self.now }
    {
        &self.types
    }

    /// How many traces there are: at most `MAX_EVENTS`, since each has an event.
    pub fn trace_count(&self) -> u32
        ensures value { result ≡ length (self.now).traces }
        ensures few { result ≤ MAX_EVENTS }
    {
        self.keys.len() as u32
    }

    /// How many events all traces have together: at most `MAX_EVENTS`.
    pub fn event_count(&self) -> u32
        ensures value { result ≡ event_count_of (self.now).traces }
        ensures few { result ≤ MAX_EVENTS }
    {
        self.event_count
    }

    /// The key that the events of trace t have in common. Its text is UTF-8. Traces are counted from 0 in the order first met.
    pub fn key(&self, t: u32) -> ShownKey<'_>
        requires { t < length (self.now).traces }
        ensures value { IfSome (slice_get (self.now).traces t) (λ trace. key_shown result ≡ trace.key) }
        ensures utf8 { IsUtf8 result.text.now }
    {
        self.keys.key(t as usize)
    }

    /// The type numbers of the events of trace t, in the order of their times and without the two ends. There is at least one.
    pub fn events(&self, t: u32) -> &[u16]
        requires { t < length (self.now).traces }
        ensures events { IfSome (slice_get (self.now).traces t) (λ trace. result.now ≡ trace.events) }
        ensures numbers { All (IsTypeNumber (length (self.now).types)) result.now }
        ensures some { 0 < length result.now }
    {
        let (from, to) = self.events.bounds(t as usize);
        part(&self.events.numbers, from, to)
    }

    /// The times of the events of trace t, one for each event of `events`, in the same order. They are in billionths of the log's
    /// unit of time.
    pub fn times(&self, t: u32) -> &[u128]
        requires { t < length (self.now).traces }
        ensures times { IfSome (slice_get (self.now).traces t) (λ trace. result.now ≡ trace.times) }
        ensures each { IfSome (slice_get (self.now).traces t)
            (λ trace. length result.now ≡ length trace.events) }
    {
        let (from, to) = self.events.bounds(t as usize);
        if self.events.times.is_empty() {
            part(&self.zeros, 0, to - from)
        } else {
            part(&self.events.times, from, to)
        }
    }
}
