//! Puts an event at the end of its trace.
ghost use Rattle.std.specs.Prelude.{◌≡◌, ◌<◌, ◌≤◌, ◌+◌, ◌-◌, ◌^◌, ◌++◌, ◌∷◌, [], length, IfOk, IfSome, None, OnErr, OnOk, true, false, ◌↔◌};
ghost use Rattle.std.specs.List.{list_any, position_or_len};
ghost use Rattle.std.specs.Str.{bytes_eq};
ghost use Rattle.trace_keys.specs.Keys.{key_in};
ghost use Rattle.limits.specs.declared.TheConstants.{FIRST_TYPE, MAX_TYPE_BYTES, MAX_TYPES};
ghost use Rattle.trace_builder.specs.Limits.{IsNewType};
ghost use Rattle.trace_builder.specs.Placed.{key_packed, placed_in, trace_place};
ghost use Rattle.traces.specs.Words.{with_event, with_new};

use crate::trace_table::{PackedKey, TraceTable};
use crate::type_table::TypeTable;
use limits::FIRST_TYPE;
use std::alloc::{AllocError, Global};
use trace_keys::{KeyParts, PackedText};

/// Where an event was put.
#[derive(Clone, Copy)]
pub struct Placed {
    /// The place of its trace, counted from 0 in the order first met.
    pub trace: u32,
    /// The number of its type.
    pub number: u16,
}

/// An event that is to be added.
#[derive(Drop)]
pub struct NewEvent<'a> {
    pub key: KeyParts<'a>,
    pub type_text: &'a str,
    pub time: u128,
}

/// Puts an event of a new type at the end of its trace, and the type at the end of the types. Returns the place of the trace.
/// It stays a call, so that the path of an event of a known type is short.
#[inline(never)]
fn put_with_type(
    alloc: Global,
    types: &mut TypeTable,
    traces: &mut TraceTable,
    event: &NewEvent<'_>,
    number: u16,
) -> Result<u32, AllocError>
    requires new { IsNewType types.old event.now.type_text.now }
    requires few_traces { length traces.old < 2 ^ 32 - 1 }
    requires short { length event.now.key.text.now < 2 ^ 32 }
    requires short_type { length event.now.type_text.now ≤ MAX_TYPE_BYTES }
    ensures place { IfOk result (λ place. place ≡ trace_place traces.old (key_in event.now.key)) }
    ensures types { OnOk result (types.new ≡ types.old ++ event.now.type_text.now ∷ []) }
    ensures traces { OnOk result (traces.new
        ≡ with_event traces.old (key_in event.now.key) number event.now.time) }

    // If memory runs out, nothing has changed.
    ensures err { OnErr result (types.new ≡ types.old) }
    ensures err_traces { OnErr result (traces.new ≡ traces.old) }
{
    types.add(alloc, event.type_text)?;
    let put = traces.put(alloc, &event.key, number, event.time);
    if put.is_err() {
        types.forget_last(event.type_text);
    }
    put
}

/// Puts an event at the end of its trace. If its type is new, it is put at the end of the types. `place` is that of the type's
/// text.
pub fn put_typed_event(
    alloc: Global,
    types: &mut TypeTable,
    traces: &mut TraceTable,
    event: &NewEvent<'_>,
    place: usize,
) -> Result<Placed, AllocError>
    requires place { place ≡ position_or_len (bytes_eq event.now.type_text.now) types.old }
    requires new { IsNewType types.old event.now.type_text.now ↔ (place ≡ length types.old) }
    requires few { place < MAX_TYPES }
    requires few_traces { length traces.old < 2 ^ 32 - 1 }
    requires short { length event.now.key.text.now < 2 ^ 32 }
    requires short_type { length event.now.type_text.now ≤ MAX_TYPE_BYTES }
    ensures placed { IfOk result (λ placed. placed
        ≡ placed_in (record { types = types.old; traces = traces.old })
        (key_in event.now.key) event.now.type_text.now) }
    ensures types { OnOk result (types.new ≡ with_new bytes_eq types.old event.now.type_text.now) }
    ensures traces { OnOk result (traces.new
        ≡ with_event traces.old (key_in event.now.key) (place + FIRST_TYPE) event.now.time) }

    // If memory runs out, nothing has changed.
    ensures err { OnErr result (types.new ≡ types.old) }
    ensures err_traces { OnErr result (traces.new ≡ traces.old) }
{
    let number = (place + FIRST_TYPE as usize) as u16;
    if place < types.len() {
        let trace = traces.put(alloc, &event.key, number, event.time)?;
        return Ok(Placed { trace, number });
    }
    // An event that is passed to a call has to be in memory. A copy leaves the event itself where it is.
    let copy = NewEvent {
        key: KeyParts {
            file: event.key.file,
            section: event.key.section,
            text: event.key.text,
        },
        type_text: event.type_text,
        time: event.time,
    };
    let trace = put_with_type(alloc, types, traces, &copy, number)?;
    Ok(Placed { trace, number })
}

/// Puts an event at the end of its trace, if a slot leads to its type's text. Returns where it was put, or None if
/// nothing was done.
#[inline(always)]
pub fn put_packed(
    alloc: Global,
    types: &TypeTable,
    traces: &mut TraceTable,
    key: PackedKey<'_, '_>,
    type_text: &PackedText<'_>,
    time: u128,
) -> Result<Option<Placed>, AllocError>
    requires few { length types.now ≤ MAX_TYPES }
    requires few_traces { length traces.old < 2 ^ 32 - 1 }
    requires short { length key.text.now < 2 ^ 32 }
    requires short_type { length type_text.now ≤ MAX_TYPE_BYTES }
    ensures placed { IfOk result (λ put. IfSome put (λ placed. placed
        ≡ placed_in (record { types = types.now; traces = traces.old })
        (key_packed key.entry) type_text.now)) }
    ensures known { IfOk result (λ put. IfSome put (λ _. types.now
        ≡ with_new bytes_eq types.now type_text.now)) }
    ensures put { IfOk result (λ put. IfSome put (λ _. traces.new
        ≡ with_event traces.old (key_packed key.entry)
        (position_or_len (bytes_eq type_text.now) types.now + FIRST_TYPE) time)) }
    ensures same { IfOk result (λ put. put ≡ None → traces.new ≡ traces.old) }

    // If memory runs out, nothing has changed, and the type is known.
    ensures err { OnErr result (traces.new ≡ traces.old) }
    ensures err_type { OnErr result (list_any (bytes_eq type_text.now) types.now ≡ true) }
{
    match types.slotted_place_of(type_text) {
        Some(place) => {
            let number = (place + FIRST_TYPE as usize) as u16;
            let trace = traces.put_packed(alloc, key, number, time)?;
            Ok(Some(Placed { trace, number }))
        }
        None => Ok(None),
    }
}
