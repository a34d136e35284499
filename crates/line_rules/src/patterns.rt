//! Builders of the patterns of rules.

ghost use Rattle.std.specs.Prelude.{◌<◌, ◌^◌};
ghost use Rattle.line_rules.specs.Patterns.{PatternsState, Stays, BuildGives, KeepsCount};

use regex::Regex;

/// Why a pattern was not built.
#[derive(Clone, Copy)]
pub enum BuildFault {
    /// The grammar reads no pattern from the text, or reads one that nests too deep.
    Syntax,
    /// The pattern is too large to be built.
    TooLarge,
    /// Memory ran out.
    Memory,
}

/// Builds patterns, and counts those that it refused as too large.
///
/// Contracts see the count, which is below 2^64 and never falls, and the texts that may be refused
/// as too large, which no call changes. The count rises at `TooLarge`, and stays at 2^64 - 1 once
/// it is reached. For every other result it is as before. No text is guaranteed to be built.
pub trait Patterns {
    ghost state: { Self → PatternsState };

    /// The pattern that the grammar of `regex` reads from the text.
    ///
    /// `Syntax` is returned only if the grammar reads no pattern or the pattern nests too deep.
    /// `TooLarge` is returned only if the count of refusals rose and this text may be refused.
    fn build(&mut self, text: &str) -> Result<Regex, BuildFault>
        ensures stays { Stays (state self.old) (state self.new) }
        ensures bounded { (state self.new).refusals < 2 ^ 64 }
        ensures gives { BuildGives (state self.old) text.now result (state self.new) }
        ensures count { KeepsCount (state self.old) result (state self.new) };
}
