//! Events in columns, in the order added.
ghost use Rattle.std.specs.Prelude.{◌≡◌, ◌<◌, ◌≤◌, ◌++◌, ◌∷◌, ◌↔◌, [], ℕ, List, length, OnOk, vec_len, vec_capacity, true};
ghost use Rattle.traces.specs.Columns.{times_beside, AreBeside};
ghost use Rattle.trace_builder.specs.Room.{times_in, HasRoom, HasRoomForTime, IsTimedAsOthers};

use std::alloc::{AllocError, Global};

/// Events in the order added. Each has the place of its trace, the number of its type, and its time.
#[derive(Drop)]
pub struct Columns {
    pub places: Vec<u32>,
    pub numbers: Vec<u16>,
    /// One for each event, or none at all while each time is 0.
    pub times: Vec<u128>,
}

/// Makes room for the time of one event more. If no time was kept, zeros are put before it. It stays a call, so that the path of
/// an event without a time is short.
#[inline(never)]
fn reserve_time(times: &mut Vec<u128>, events: usize) -> Result<(), AllocError>
    requires few { length times.old.items ≤ events }
    ensures long { OnOk result (length times.new.items ≡ events) }
    ensures room { OnOk result (vec_len times.new < vec_capacity times.new) }
    ensures same { (numbers : List ℕ) → length numbers ≡ events → AreBeside numbers times.old.items
        → times_beside numbers times.new.items ≡ times_beside numbers times.old.items }
{
    if times.len() < events {
        times.resize(events, 0)?;
    }
    times.reserve(1)
}

impl Columns {
    /// No events. It takes no memory.
    pub fn new(alloc: Global) -> Columns
        ensures places { result.places.items ≡ [] }
        ensures numbers { result.numbers.items ≡ [] }
        ensures times { result.times.items ≡ [] }
    {
        Columns {
            places: Vec::new(alloc),
            numbers: Vec::new(alloc),
            times: Vec::new(alloc),
        }
    }

    /// The place of the trace of the event that was added last, or 0 if there is none.
    #[inline(always)]
    pub fn last_place(&self) -> usize {
        match self.places.last() {
            Some(place) => *place as usize,
            None => 0,
        }
    }

    /// Makes room for one event more, with this time. What the columns hold stays.
    pub fn reserve(&mut self, time: u128) -> Result<(), AllocError>
        requires beside { AreBeside self.old.numbers.items self.old.times.items }
        ensures places { self.new.places.items ≡ self.old.places.items }
        ensures numbers { self.new.numbers.items ≡ self.old.numbers.items }
        ensures times { times_in self.new ≡ times_in self.old }
        ensures room { OnOk result (HasRoom self.new time) }
    {
        self.places.reserve(1)?;
        self.numbers.reserve(1)?;
        if time == 0 && self.times.is_empty() {
            return Ok(());
        }
        reserve_time(&mut self.times, self.numbers.len())
    }

    /// Whether there is room for this time. If it is 0, no times may be kept.
    #[inline(always)]
    fn has_room_for_time(&self, time: u128) -> bool
        ensures { (result ≡ true) ↔ HasRoomForTime self.now time × IsTimedAsOthers self.now time }
    {
        if time == 0 {
            return self.times.is_empty();
        }
        self.times.len() == self.numbers.len() && self.times.len() < self.times.capacity()
    }

    /// Whether there is room for one event more, with this time. If times are kept, the answer for the time 0 is false. So an event
    /// without a time is put without another look at the times.
    #[inline(always)]
    pub fn has_room(&self, time: u128) -> bool
        ensures { (result ≡ true) ↔ HasRoom self.now time × IsTimedAsOthers self.now time }
    {
        self.has_room_for_time(time)
            && self.places.len() < self.places.capacity()
            && self.numbers.len() < self.numbers.capacity()
    }

    /// Puts an event at the end, for which there is room. Times are kept from the first on that is not 0.
    #[inline(always)]
    pub fn put(&mut self, place: u32, number: u16, time: u128)
        requires room { HasRoom self.old time }
        ensures places { self.new.places.items ≡ self.old.places.items ++ place ∷ [] }
        ensures numbers { self.new.numbers.items ≡ self.old.numbers.items ++ number ∷ [] }
        ensures times { times_in self.new ≡ times_in self.old ++ time ∷ [] }
    {
        if time != 0 || !self.times.is_empty() {
            self.times.push_reserved(time);
        }
        self.numbers.push_reserved(number);
        self.places.push_reserved(place);
    }
}
