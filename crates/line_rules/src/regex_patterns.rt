//! Patterns as `regex` builds them.
ghost use Rattle.std.specs.Prelude.{◌≡◌, ◌<◌, ◌≤◌, ◌^◌};
ghost use Rattle.line_rules.specs.Patterns.{Stays, BuildGives, KeepsCount};
ghost use Rattle.line_rules.specs.Listed.{regex_state, RegexGives, Tells, raised};

use crate::patterns::{BuildFault, Patterns};
use regex::{Error, Regex};
use std::alloc::Global;
use std::marker::Model;

/// Patterns as `regex` builds them. They may refuse any text as too large.
///
/// Contracts see the count of texts that were refused as too large.
#[derive(Drop)]
pub struct RegexPatterns {
    alloc: Global,
    refusals: u64,
}

impl Model for RegexPatterns {
    ghost use Rattle.std.specs.Prelude.{ℕ, ◌<◌, ◌^◌};

    ghost Value = { ℕ };

    ghost view = { λ p. p.refusals };

    ghost invariant = { λ p. p.refusals < 2 ^ 64 };
}

impl RegexPatterns {
    /// Patterns with none refused yet.
    pub fn new(alloc: Global) -> RegexPatterns
        ensures { result ≡ 0 }
    {
        RegexPatterns { alloc, refusals: 0 }
    }

    /// Counts a text that is refused as too large. The count stays at `u64::MAX` once it is
    /// reached.
    pub(crate) fn refuse(&mut self) -> BuildFault
        ensures fault { result ≡ BuildFault.TooLarge }
        ensures count { self.new ≡ raised self.old }
        ensures grows { self.old ≤ self.new }
        ensures bounded { self.new < 2 ^ 64 }
    {
        self.refusals = self.refusals.saturating_add(1);
        BuildFault::TooLarge
    }

    /// The result of `regex` as a result of [`Patterns`]. A pattern that is too large, or on which
    /// `regex` failed internally, is `TooLarge` and is counted.
    fn tell(&mut self, answer: Result<Regex, Error>) -> Result<Regex, BuildFault>
        ensures tells { Tells self.old answer result self.new }
        ensures grows { self.old ≤ self.new }
    {
        match answer {
            Ok(regex) => Ok(regex),
            Err(Error::Syntax(_)) => Err(BuildFault::Syntax),
            Err(Error::OutOfMemory) => Err(BuildFault::Memory),
            Err(Error::CompiledTooBig) => Err(self.refuse()),
            Err(Error::Internal) => Err(self.refuse()),
        }
    }
}

impl Patterns for RegexPatterns {
    ghost state = { regex_state };

    fn build(&mut self, text: &str) -> Result<Regex, BuildFault>
        ensures stays { Stays (regex_state self.old) (regex_state self.new) }
        ensures bounded { (regex_state self.new).refusals < 2 ^ 64 }
        ensures gives { BuildGives (regex_state self.old) text.now result (regex_state self.new) }
        ensures count { KeepsCount (regex_state self.old) result (regex_state self.new) }

        // The count rises exactly at a pattern that is refused as too large.
        ensures exact { RegexGives self.old text.now result self.new }
    {
        let answer = Regex::new(self.alloc, text);
        self.tell(answer)
    }
}
