//! Matchers that search lines for the rules.
ghost use Rattle.std.specs.Prelude.{◌≡◌, ◌≤◌, ◌+◌, ◌++◌, ◌∷◌, [], List, Some, None, Ok, true, false, IfOk, IfSome, OnOk, option_map, vec_len, slice_get};
ghost use Rattle.limits.specs.declared.TheConstants.{MAX_RULES};
ghost use Rattle.regex.specs.Patterns.{find_str};
ghost use Rattle.regex.specs.Strings.{regex_pattern, matcher_pattern};
ghost use Rattle.line_rules.specs.Rules as spec;
ghost use Rattle.line_rules.specs.Rules.{decision_of, decided_by, HasParts, IsSpanOf};

use crate::decision::{DecideError, Decision};
use crate::misses::Misses;
use crate::needle::stands_in;
use crate::rule::Rule;
use crate::spans::{Spans, spans_in};
use memchr::memmem::Finder;
use regex::Matcher;
use std::alloc::{AllocError, Global};

/// Adds the value to the list, if it was made.
fn push_made<T: Drop>(made: Result<T, AllocError>, list: &mut Vec<T>) -> Result<(), AllocError>
    ensures len { OnOk result (vec_len list.new ≡ vec_len list.old + 1) }
    ensures added { OnOk result ((value : T)
        × (list.new.items ≡ list.old.items ++ value ∷ []) × (made ≡ Ok value)) }
{
    list.push(made?)?;
    Ok(())
}

/// A rule and the matcher of its pattern.
#[derive(Drop)]
pub struct RuleMatcher<'r> {
    pub(crate) rule: &'r Rule,
    /// Finds the bytes without which a line has no match.
    pub(crate) finder: Finder<'r>,
    pub(crate) matcher: Matcher<'r>,
    pub(crate) misses: Misses,
    ghost sought: { finder ≡ rule.now.needle.items },
    ghost same: { ∥ matcher_pattern matcher ≡ regex_pattern rule.now.regex ∥₁ },
}

impl<'r> RuleMatcher<'r> {
    ghost use Rattle.line_rules.specs.Views.{rule_view, spans_of, UsesNoGroup};
    ghost use Rattle.line_rules.specs.declared.matchers.RuleMatcher.{RuleMatcher};

    /// The rule with the matcher of its pattern.
    pub(crate) fn make(alloc: Global, rule: &'r Rule) -> Result<RuleMatcher<'r>, AllocError>
        ensures { IfOk result (λ m. m.rule.now ≡ rule.now) }
    {
        match rule.regex.matcher(alloc) {
            Ok(matcher) => Ok(RuleMatcher {
                rule,
                finder: Finder::new(&rule.needle),
                matcher,
                misses: Misses::of(&rule.regex),
            }),
            Err(error) => Err(error),
        }
    }

    /// Adds the rule with the matcher of its pattern.
    pub(crate) fn add(
        alloc: Global,
        rule: &'r Rule,
        matchers: &mut Vec<RuleMatcher<'r>>,
    ) -> Result<(), AllocError>
        ensures len { OnOk result (vec_len matchers.new ≡ vec_len matchers.old + 1) }
        ensures added { OnOk result ((m : RuleMatcher)
            × (matchers.new.items ≡ matchers.old.items ++ m ∷ [])
            × (m.rule.now ≡ rule.now)) }
    {
        push_made(RuleMatcher::make(alloc, rule), matchers)
    }

    /// Whether the line may have a match of the pattern: it contains the bytes that each match contains.
    fn may_match(&self, line: &str) -> bool
        ensures { result ≡ false → find_str (regex_pattern self.now.rule.now.regex) line.now 0 ≡ None }
    {
        stands_in(&self.finder, line.as_bytes())
    }

    /// Whether the line has no match. If the test is not worth its cost, the answer is false.
    fn is_miss(&mut self, line: &str) -> bool
        ensures miss { result ≡ true → find_str (matcher_pattern self.old.matcher) line.now 0 ≡ None }
        ensures pattern { matcher_pattern self.new.matcher ≡ matcher_pattern self.old.matcher }
        ensures same { self.new.rule ≡ self.old.rule }
    {
        if !self.misses.are_frequent() {
            return false;
        }
        !self.matcher.is_match(line)
    }

    /// The spans of a rule that uses no group, if there is a match.
    fn no_spans(&mut self, line: &str) -> Option<Spans>
        requires { UsesNoGroup self.old.rule.now }
        ensures found { result ≡ option_map (spans_of self.old.rule.now)
            (find_str (matcher_pattern self.old.matcher) line.now 0) }
        ensures within { IfSome result (λ s. IfSome s.typ (IsSpanOf line.now)
            × IfSome s.trace (IsSpanOf line.now)
            × IfSome s.time (IsSpanOf line.now)) }
        ensures same { self.new.rule ≡ self.old.rule }
    {
        if !self.matcher.is_match(line) {
            return None;
        }
        Some(Spans {
            typ: None,
            trace: None,
            time: None,
        })
    }

    /// The spans of the groups that the rule uses in the first match, if there is a match.
    fn spans(&mut self, line: &str) -> Option<Spans>
        ensures found { result ≡ option_map (spans_of self.old.rule.now)
            (find_str (matcher_pattern self.old.matcher) line.now 0) }
        ensures within { IfSome result (λ s. IfSome s.typ (IsSpanOf line.now)
            × IfSome s.trace (IsSpanOf line.now)
            × IfSome s.time (IsSpanOf line.now)) }
        ensures same { self.new.rule ≡ self.old.rule }
    {
        if self.rule.uses_no_group() {
            return self.no_spans(line);
        }
        if self.is_miss(line) {
            self.misses.note(false);
            return None;
        }
        let spans = spans_in(self.rule, &mut self.matcher, line);
        self.misses.note(spans.is_some());
        spans
    }

    /// What the rule, which has this number, decides about the line, if it does.
    pub(crate) fn decide(
        &mut self,
        number: u32,
        line: &str,
    ) -> Option<Result<Decision, DecideError>>
        ensures value { result ≡ decided_by number (rule_view self.old.rule.now) line.now }
        ensures parts { (rules : List spec.Rule)
            → slice_get rules number ≡ Some (rule_view self.old.rule.now)
            → IfSome result (λ answer. IfOk answer (HasParts rules line.now)) }
        ensures same { self.new.rule ≡ self.old.rule }
    {
        if !self.misses.are_rare() && !self.may_match(line) {
            self.misses.note_turned_away();
            return None;
        }
        let rule = self.rule;
        let spans = self.spans(line)?;
        rule.decided_at(number, line, spans)
    }
}

/// The rules of a file with their matchers, for many lines.
#[derive(Drop)]
pub struct Matchers<'r> {
    pub(crate) rules: Vec<RuleMatcher<'r>>,
    ghost few: { vec_len rules ≤ MAX_RULES },
}

impl<'r> Matchers<'r> {
    ghost use Rattle.line_rules.specs.Views.{matched_rules};

    /// What the line is, by the first rule that decides it. It is `Undecided` if no rule does. It
    /// takes no memory, so it does not return `Memory`.
    ///
    /// `BadTime` is returned exactly if that rule is an event rule with a group TIME, and the group
    /// took no part in the match or its text is no time.
    pub fn decide(&mut self, line: &str) -> Result<Decision, DecideError>
        ensures value { result ≡ decision_of (matched_rules self.old) line.now }
        ensures parts { IfOk result (HasParts (matched_rules self.old) line.now) }
        ensures same { matched_rules self.new ≡ matched_rules self.old }
    {
        for place in 0..self.rules.len() {
            if let Some(answer) = self.rules[place].decide(place as u32, line) {
                return answer;
            }
        }
        Ok(Decision::Undecided)
    }
}
