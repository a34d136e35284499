//! Events gathered into traces.
ghost use Rattle.std.specs.Prelude.{◌≡◌, ◌≤◌, ◌<◌, ◌+◌, ◌-◌, ◌^◌, ◌++◌, ◌∷◌, [], List, map, length, OnOk, OnErr, IfOk, Err, ◌≢◌, ◌↔◌, true, false, slice_index_or, slice_get, IfSome, None, ℕ, ◌*◌};
ghost use Rattle.std.specs.List.{list_any, position_or_len};
ghost use Rattle.std.specs.Str.{bytes_eq};
ghost use Rattle.trace_keys.specs.Keys.{key_in, key_shown};
ghost use Rattle.limits.specs.declared.TheConstants.{FIRST_TYPE, MAX_EVENTS, MAX_TRACE_BYTES, MAX_TYPE_BYTES, MAX_TYPES};
ghost use Rattle.trace_builder.specs.declared.builder.AddError.TheVariants.{Memory};
ghost use Rattle.trace_builder.specs.Limits.{IsNewType, PassesTypeLimit, PassesEventLimit};
ghost use Rattle.trace_builder.specs.Placed.{placed_in, trace_place};
ghost use Rattle.traces.specs.Words.{with_event, with_new};

use crate::layout::{lay_in_order, zeros_of};
use crate::placing::{NewEvent, Placed, put_packed, put_typed_event};
use crate::trace_table::{PackedKey, TraceTable};
use crate::type_table::TypeTable;
use invariants::Seq;
use limits::{MAX_EVENTS, MAX_TYPES};
use std::alloc::{AllocError, AllocFailed, Global};
use std::marker::Model;
use trace_keys::{KeyParts, PackedText};
use traces::TraceSet;

/// Why an event was not added.
#[derive(Clone, Copy, Debug, PartialEq, Eq)]
pub enum AddError {
    /// Its type text would be the 257th type.
    TypeLimit,
    /// It would be the 1,000,001st event, and does not pass the limit on types.
    EventLimit,
    /// Memory ran out.
    Memory,
}

impl From<AllocError> for AddError {
    ghost from_gives = { λ _ e. e ≡ Memory };

    fn from(_: AllocError) -> AddError {
        AddError::Memory
    }
}

impl<T: Drop> From<AllocFailed<T>> for AddError {
    ghost from_gives = { λ _ e. e ≡ Memory };

    fn from(_: AllocFailed<T>) -> AddError {
        AddError::Memory
    }
}

/// Gathers events into types and traces, each in the order first met.
///
/// Contracts see what it has gathered: the types, and for each trace its key and its events in the order added, each as the
/// number of its type and its time.
#[derive(Drop)]
pub struct Builder {
    alloc: Global,
    types: TypeTable,
    traces: TraceTable,
    event_count: u32,
}

/// The place of a type's text, if the limits leave room for one more event of it.
fn room_for(types: &TypeTable, event_count: u32, type_text: &str) -> Result<usize, AddError>
    requires few { length types.now ≤ MAX_TYPES }
    requires events { event_count ≤ MAX_EVENTS }
    requires short { length type_text.now ≤ MAX_TYPE_BYTES }
    ensures place { IfOk result (λ place. place ≡ position_or_len (bytes_eq type_text.now) types.now) }
    ensures new { IfOk result (λ place. IsNewType types.now type_text.now
        ↔ (place ≡ length types.now)) }
    ensures room { IfOk result (λ place. (place < MAX_TYPES) × (event_count < MAX_EVENTS)) }

    // Each refusal comes exactly at its limit.
    ensures type_limit { (result ≡ Err AddError.TypeLimit) ↔ PassesTypeLimit types.now type_text.now }
    ensures event_limit { (result ≡ Err AddError.EventLimit)
        ↔ PassesEventLimit types.now event_count type_text.now }
    ensures no_memory { result ≢ Err AddError.Memory }
{
    let place = types.place_of(type_text);
    if place >= MAX_TYPES as usize {
        return Err(AddError::TypeLimit);
    }
    if event_count >= MAX_EVENTS {
        return Err(AddError::EventLimit);
    }
    Ok(place)
}

impl Model for Builder {
    ghost use Rattle.std.specs.Prelude.{length};
    ghost use Rattle.traces.specs.Words.{Gathering, IsGathered};
    ghost use Rattle.traces.specs.Kept.{AreShort, HaveBytes, IsKept};

    ghost Value = { Gathering };

    ghost view = { λ b. record { types = b.types; traces = b.traces } };

    ghost invariant = { λ b.
        IsKept (length b.types) b.traces b.event_count
        × HaveBytes b.types
        × AreShort b.types
        × IsGathered (record { types = b.types; traces = b.traces }) };
}

impl Builder {
    ghost use Rattle.traces.specs.Words.{gathered_of, gathered_with, in_order, event_of, event_count_of, AddsEvent};

    /// A builder with no events. It takes no memory.
    pub fn new(alloc: Global) -> Builder
        ensures { result ≡ gathered_of [] }
    {
        Builder {
            alloc,
            types: TypeTable::new(alloc),
            traces: TraceTable::new(alloc),
            event_count: 0,
        }
    }

    /// Adds an event of the trace with this key and of the type with this text. The key's text has at most 1,024 bytes, and the
    /// type's text has 1 to 256 bytes. The time is in billionths of the log's unit of time, counted from any origin. An event
    /// without a time has 0. Returns the place of its trace and the number of its type.
    ///
    /// `TypeLimit` is returned exactly if the type's text is new and there are 256 types. `EventLimit` is returned exactly if
    /// that is not so and there are 1,000,000 events. Each error leaves the builder as it was.
    #[inline(never)]
    pub fn add(
        &mut self,
        file: u32,
        section: u32,
        text: &str,
        type_text: &str,
        time: u128,
    ) -> Result<Placed, AddError>
        requires text { length text.now ≤ MAX_TRACE_BYTES }
        requires type_text { length type_text.now ≤ MAX_TYPE_BYTES }
        requires type_text_stands { 0 < length type_text.now }
        ensures placed { IfOk result (λ placed. placed ≡ placed_in self.old
            (record { file = file; section = section; text = text.now }) type_text.now) }
        ensures exact { OnOk result (self.new
            ≡ gathered_with self.old (event_of file section text.now type_text.now time)) }
        ensures ok { OnOk result
            (AddsEvent self.old self.new (event_of file section text.now type_text.now time)) }

        // Each refusal comes exactly at its limit, and leaves all as it was.
        ensures type_limit { (result ≡ Err AddError.TypeLimit)
            ↔ PassesTypeLimit (self.old).types type_text.now }
        ensures event_limit { (result ≡ Err AddError.EventLimit)
            ↔ PassesEventLimit (self.old).types (event_count_of (self.old).traces) type_text.now }
        ensures err { OnErr result (self.new ≡ self.old) }

        // What stands is within the limits.
        ensures limits { OnOk result ((length (self.new).types ≤ MAX_TYPES)
            × (event_count_of (self.new).traces ≤ MAX_EVENTS)) }
    {
        let place = room_for(&self.types, self.event_count, type_text)?;
        let event = NewEvent {
            key: KeyParts {
                file,
                section,
                text,
            },
            type_text,
            time,
        };
        match put_typed_event(self.alloc, &mut self.types, &mut self.traces, &event, place) {
            Ok(placed) => {
                self.event_count += 1;
                Ok(placed)
            }
            Err(_) => Err(AddError::Memory),
        }
    }

    /// Adds an event by its texts, as `add` does. It is a part of its caller, so that room for the answer of `add` is cleared only
    /// when `add` is called.
    #[inline(always)]
    fn add_unpacked(
        &mut self,
        file: u32,
        section: u32,
        text: &PackedText<'_>,
        type_text: &PackedText<'_>,
        time: u128,
    ) -> Result<Placed, AddError>
        requires text { length text.now ≤ MAX_TRACE_BYTES }
        requires type_text { length type_text.now ≤ MAX_TYPE_BYTES }
        requires type_text_stands { 0 < length type_text.now }
        ensures placed { IfOk result (λ placed. placed ≡ placed_in self.old
            (record { file = file; section = section; text = text.now }) type_text.now) }
        ensures exact { OnOk result (self.new
            ≡ gathered_with self.old (event_of file section text.now type_text.now time)) }
        ensures ok { OnOk result
            (AddsEvent self.old self.new (event_of file section text.now type_text.now time)) }

        // Each refusal comes exactly at its limit, and leaves all as it was.
        ensures type_limit { (result ≡ Err AddError.TypeLimit)
            ↔ PassesTypeLimit (self.old).types type_text.now }
        ensures event_limit { (result ≡ Err AddError.EventLimit)
            ↔ PassesEventLimit (self.old).types (event_count_of (self.old).traces) type_text.now }
        ensures err { OnErr result (self.new ≡ self.old) }

        // What stands is within the limits.
        ensures limits { OnOk result ((length (self.new).types ≤ MAX_TYPES)
            × (event_count_of (self.new).traces ≤ MAX_EVENTS)) }
    {
        self.add(file, section, text.text(), type_text.text(), time)
    }

    /// Adds an event, as `add` does, from texts with the words of their fingerprints.
    #[inline(always)]
    pub fn add_packed(
        &mut self,
        file: u32,
        section: u32,
        text: &PackedText<'_>,
        type_text: &PackedText<'_>,
        time: u128,
    ) -> Result<Placed, AddError>
        requires text { length text.now ≤ MAX_TRACE_BYTES }
        requires type_text { length type_text.now ≤ MAX_TYPE_BYTES }
        requires type_text_stands { 0 < length type_text.now }
        ensures placed { IfOk result (λ placed. placed ≡ placed_in self.old
            (record { file = file; section = section; text = text.now }) type_text.now) }
        ensures exact { OnOk result (self.new
            ≡ gathered_with self.old (event_of file section text.now type_text.now time)) }
        ensures ok { OnOk result
            (AddsEvent self.old self.new (event_of file section text.now type_text.now time)) }

        // Each refusal comes exactly at its limit, and leaves all as it was.
        ensures type_limit { (result ≡ Err AddError.TypeLimit)
            ↔ PassesTypeLimit (self.old).types type_text.now }
        ensures event_limit { (result ≡ Err AddError.EventLimit)
            ↔ PassesEventLimit (self.old).types (event_count_of (self.old).traces) type_text.now }
        ensures err { OnErr result (self.new ≡ self.old) }

        // What stands is within the limits.
        ensures limits { OnOk result ((length (self.new).types ≤ MAX_TYPES)
            × (event_count_of (self.new).traces ≤ MAX_EVENTS)) }
    {
        if self.event_count < MAX_EVENTS {
            let key = PackedKey {
                file,
                section,
                text,
            };
            let put = put_packed(
                self.alloc,
                &self.types,
                &mut self.traces,
                key,
                type_text,
                time,
            )?;
            match put {
                Some(placed) => {
                    self.event_count += 1;
                    return Ok(placed);
                }
                None => {}
            }
        }
        self.add_unpacked(file, section, text, type_text, time)
    }

    /// The types and traces of the events that were added, each trace ordered by the times of its events. Events of the same time
    /// keep their order. If memory runs out, all are dropped.
    pub fn finish(self) -> Result<TraceSet, AllocError>
        ensures { IfOk result (λ set. set ≡ in_order self) }
    {
        let Builder {
            alloc,
            types,
            traces,
            event_count,
        } = self;
        let (keys, events) = traces.into_columns();
        let events = lay_in_order(alloc, events, keys.len())?;
        let zeros = vec![in alloc; 0; zeros_of(&events)]?;
        let types = Seq::from_vec(types.into_texts());
        Ok(TraceSet::of_parts(types, keys, events, zeros, event_count))
    }
}
