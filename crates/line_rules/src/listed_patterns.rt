//! Patterns with a list of builds that are refused.
ghost use Rattle.std.specs.Prelude.{◌≡◌, ◌<◌, ◌^◌};
ghost use Rattle.line_rules.specs.Patterns.{Stays, BuildGives, KeepsCount};
ghost use Rattle.line_rules.specs.Listed.{listed_state, ListedGives};

use crate::patterns::{BuildFault, Patterns};
use crate::regex_patterns::RegexPatterns;
use regex::Regex;
use std::marker::Model;

/// Patterns as `regex` builds them, except that the builds whose numbers are listed are refused as
/// too large.
///
/// Contracts see the count of texts that were refused as too large, the numbers of the builds that
/// are refused, and how many builds were requested.
#[derive(Drop)]
pub struct ListedPatterns {
    inner: RegexPatterns,
    failing: Vec<u64>,
    builds: u64,
}

impl Model for ListedPatterns {
    ghost use Rattle.line_rules.specs.Listed.{ListedState};

    ghost Value = { ListedState };

    ghost view = { λ p.
        record { refusals = p.inner; failing = p.failing.items; builds = p.builds } };
}

impl ListedPatterns {
    /// Patterns with no build requested yet.
    ///
    /// Builds are counted from 1, and the number stays at `u64::MAX` once it is reached. A build
    /// whose number is in `failing` is refused. For every other build, the result is that of
    /// `inner`.
    pub fn new(inner: RegexPatterns, failing: Vec<u64>) -> ListedPatterns
        ensures { result ≡ record { refusals = inner; failing = failing.items; builds = 0 } }
    {
        ListedPatterns {
            inner,
            failing,
            builds: 0,
        }
    }
}

impl Patterns for ListedPatterns {
    ghost state = { listed_state };

    fn build(&mut self, text: &str) -> Result<Regex, BuildFault>
        ensures stays { Stays (listed_state self.old) (listed_state self.new) }
        ensures bounded { (listed_state self.new).refusals < 2 ^ 64 }
        ensures gives { BuildGives (listed_state self.old) text.now result (listed_state self.new) }
        ensures count { KeepsCount (listed_state self.old) result (listed_state self.new) }

        // The result and the whole state afterwards, by the number of the build and the text.
        ensures exact { ListedGives self.old text.now result self.new }
    {
        self.builds = self.builds.saturating_add(1);
        if self.failing.contains(&self.builds) {
            return Err(self.inner.refuse());
        }
        self.inner.build(text)
    }
}
