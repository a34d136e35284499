//! The verdict of a check.
use models::Part;

/// Whether a model is valid for a log.
#[derive(Clone, Copy, Debug, PartialEq, Eq)]
pub enum Verdict {
    /// It is valid.
    Yes,
    /// It is not valid, and this is the first part that fails.
    No(Part),
}
