//! How often lines have no match of a pattern.
ghost use Rattle.std.specs.Prelude.{◌≡◌, ◌+◌, ◌-◌, ◌&&◌, ◌==◌, min, nat_lt, if◌then◌else◌};
ghost use Rattle.line_rules.specs.declared.misses.TheConstants.{MISS, MATCH, MOST, FREQUENT, WARY};

use regex::Regex;

/// What a search that finds no match adds to the weight.
const MISS: u32 = 2;

/// What a search that finds a match takes from the weight.
const MATCH: u32 = 1;

/// The largest weight.
const MOST: u32 = 32;

/// Misses are frequent if the weight is above this.
const FREQUENT: u32 = 8;

/// Misses are rare after this many matches in a row.
const WARY: u32 = 16;

/// How often recent lines had no match of a pattern. Only speed depends on it, never a decision.
#[derive(Clone, Copy)]
pub struct Misses {
    /// Whether a test for a match costs much less than a search for its groups.
    pub(crate) pays: bool,
    /// Rises with each search that finds no match, and falls with each that finds one.
    pub(crate) weight: u32,
    /// How many more matches in a row are needed until misses are rare.
    pub(crate) wary: u32,
}

impl Misses {
    /// The counts of a pattern before the first line.
    ///
    /// If a match has to begin the line, a search for its groups keeps track of them up to the byte that excludes a
    /// match. Other searches for groups test for a match first.
    pub(crate) fn of(regex: &Regex) -> Misses
        ensures weight { result.weight ≡ 0 }
        ensures wary { result.wary ≡ WARY }
    {
        let pays = regex.captures_len() > 1 && regex.as_str().starts_with('^');
        Misses {
            pays,
            weight: 0,
            wary: WARY,
        }
    }

    /// Whether so many recent searches found no match that it is cheaper to test for one before the search.
    pub(crate) fn are_frequent(&self) -> bool
        ensures { result ≡ (self.now.pays && nat_lt FREQUENT self.now.weight) }
    {
        self.pays && self.weight > FREQUENT
    }

    /// Whether so many lines in a row matched that it is cheaper to search the next line than to look for a reason not
    /// to.
    pub(crate) fn are_rare(&self) -> bool
        ensures { result ≡ (self.now.pays && self.now.wary == 0) }
    {
        self.pays && self.wary == 0
    }

    /// Counts a line that was searched.
    pub(crate) fn note(&mut self, is_match: bool)
        ensures weight { self.new.weight
            ≡ (if is_match then self.old.weight - MATCH else min (self.old.weight + MISS) MOST) }
        ensures wary { self.new.wary ≡ (if is_match then self.old.wary - 1 else WARY) }
    {
        if is_match {
            self.weight = self.weight.saturating_sub(MATCH);
            self.wary = self.wary.saturating_sub(1);
        } else {
            self.weight = self.weight.saturating_add(MISS).min(MOST);
            self.wary = WARY;
        }
    }

    /// Counts a line that was turned away without a search.
    pub(crate) fn note_turned_away(&mut self)
        ensures weight { self.new.weight ≡ self.old.weight }
        ensures wary { self.new.wary ≡ WARY }
    {
        self.wary = WARY;
    }
}
