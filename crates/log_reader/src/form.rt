//! What decides the lines of a log.

use line_rules::LineRules;

/// What decides the lines of a log.
#[derive(Clone, Copy)]
pub enum Form<'a> {
    /// A line is `trace type`. What stands before its first space names the trace, and all that
    /// stands after it is the type.
    Plain,
    /// The first rule that decides a line gives its decision.
    Rules(&'a LineRules),
}
