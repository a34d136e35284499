//! The answer of a replay.
use models::ReplayPart;

/// Whether the steps that a model names lead from a log to its graph.
#[derive(Clone, Copy, Debug, PartialEq, Eq)]
pub enum Replay {
    /// They do, and each step is permitted in its turn.
    Yes,
    /// They do not, and this is the first step that fails.
    No(ReplayPart),
}
