//! The events of a log.
ghost use Rattle.std.specs.Prelude.{◌≡◌, OnOk};
ghost use Rattle.events.specs.Located.{by_traces};

use crate::located::Located;
use std::alloc::AllocError;
use traces::TraceSet;

/// The traces of a log, and its events with the lines they stand on.
#[derive(Drop)]
pub struct Events {
    /// The types and the traces.
    pub traces: TraceSet,
    /// The events, at first in the order of their lines.
    pub located: Vec<Located>,
}

impl Events {
    /// Puts the events in the order of the traces. The events of a trace are ordered by their times, and events of one time keep
    /// their order.
    pub fn order_by_traces(&mut self) -> Result<(), AllocError>
        ensures events { OnOk result (self.new.located.items ≡ by_traces self.old.located.items) }
        ensures traces { self.new.traces ≡ self.old.traces }
    {
        self.located.sort_by_key(|event| event.time)?;
        self.located.sort_by_key(|event| event.trace)?;
        Ok(())
    }
}
