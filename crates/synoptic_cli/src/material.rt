//! What a command works on.

use invariants::Model;
use traces::TraceSet;

/// What a command works on: what was read from the inputs. If the task reads no log, or no model, that field is empty.
#[derive(Drop)]
pub struct Material {
    /// The log.
    pub log: TraceSet,
    /// The model in a file. It is well shaped, and of version 1 if the command reads files of that version.
    pub model: Model,
}
