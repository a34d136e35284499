//! The rules of an expressions file.
ghost use Rattle.std.specs.Prelude.{◌≡◌, ◌≢◌, ◌<◌, ◌≤◌, length, Some, IsSome, IfOk, IfErr, Err, vec_len};
ghost use Rattle.limits.specs.declared.TheConstants.{MAX_RULES, MAX_TYPE_BYTES};
ghost use Rattle.line_rules.specs.Patterns.{Stays};
ghost use Rattle.line_rules.specs.Rules.{decision_of, fixed_name, HasParts};
ghost use Rattle.line_rules.specs.Files.{AreRead, IsRefused, KeepsRefusals};

use crate::decision::{DecideError, Decision};
use crate::file::{has_event, read_rules};
use crate::matchers::{Matchers, RuleMatcher};
use crate::patterns::Patterns;
use crate::rule::Rule;
use limits::MAX_RULES_BYTES;
use std::alloc::{AllocError, AllocFailed, Global};

/// Why an expressions file is refused. The numbers are line numbers, counted from 1.
#[derive(Clone, Copy, Debug, PartialEq, Eq)]
pub enum RuleError {
    /// The file has more than 65,536 bytes.
    TooLong,
    /// The line is not UTF-8, or has none of the four forms.
    BadLine(u32),
    /// The line is the 33rd rule.
    TooMany(u32),
    /// The line's pattern is not valid, or nests too deep.
    Syntax(u32),
    /// The line's pattern was refused as too large.
    TooLarge(u32),
    /// The line is `event PATTERN`, and its pattern has no group named TYPE.
    NoType(u32),
    /// The line is an event rule. Its pattern has a group named TIME and that of the first event
    /// rule has none, or the other way round.
    MixedTime(u32),
    /// No rule is an event rule.
    NoEvent,
    /// Memory ran out.
    Memory,
}

impl From<AllocError> for RuleError {
    ghost use Rattle.line_rules.specs.declared.line_rules.RuleError.TheVariants.{Memory};

    ghost from_gives = { λ _ e. e ≡ Memory };

    fn from(_: AllocError) -> RuleError {
        RuleError::Memory
    }
}

impl<T: Drop> From<AllocFailed<T>> for RuleError {
    ghost use Rattle.line_rules.specs.declared.line_rules.RuleError.TheVariants.{Memory};

    ghost from_gives = { λ _ e. e ≡ Memory };

    fn from(_: AllocFailed<T>) -> RuleError {
        RuleError::Memory
    }
}

/// At most 32 rules, in the order of their file.
#[derive(Drop)]
pub struct LineRules {
    alloc: Global,
    pub(crate) rules: Vec<Rule>,
    ghost few: { vec_len rules ≤ MAX_RULES },
}

impl LineRules {
    ghost use Rattle.line_rules.specs.Views.{rules_in, matched_rules};

    /// The rules of an expressions file.
    ///
    /// A file of more than 65,536 bytes is `TooLong`. Then each line that is not skipped is tested
    /// in turn for `BadLine`, `TooMany`, the errors of building its pattern, `NoType` and
    /// `MixedTime`. Last, a file without an event rule is `NoEvent`. `TooLarge` is returned only if
    /// the count of `patterns` rose. `Memory` may be returned at any time.
    pub fn read<P: Patterns>(
        alloc: Global,
        bytes: &[u8],
        patterns: &mut P,
    ) -> Result<LineRules, RuleError>
        ensures stays { Stays (P.state patterns.old) (P.state patterns.new) }
        ensures count { KeepsRefusals (P.state patterns.old) result (P.state patterns.new) }
        ensures ok { IfOk result (λ rules. AreRead bytes.now (rules_in rules)) }
        ensures err { IfErr result
            (IsRefused bytes.now (P.state patterns.old) (P.state patterns.new)) }
    {
        if bytes.len() > MAX_RULES_BYTES {
            return Err(RuleError::TooLong);
        }
        let rules = read_rules(alloc, bytes, patterns)?;
        if !has_event(&rules) {
            return Err(RuleError::NoEvent);
        }
        Ok(LineRules { alloc, rules })
    }

    /// What the line is, by the first rule that decides it. It is `Undecided` if no rule does.
    ///
    /// Places in the decision are byte places in the line, on character bounds. If the rule has no
    /// group TRACE, or the group took no part in the match, the trace text is empty, from 0 up to
    /// 0. `BadTime` is returned if the first rule that decides the line is an event rule with a
    /// group TIME, and the group took no part or its text is no time. `Memory` may be returned in
    /// place of each answer, since the matchers are made in the call. For many lines, make them
    /// once with [`LineRules::matchers`].
    pub fn decide(&self, line: &str) -> Result<Decision, DecideError>
        ensures value { result ≢ Err DecideError.Memory
            → result ≡ decision_of (rules_in self.now) line.now }
        ensures parts { IfOk result (HasParts (rules_in self.now) line.now) }
    {
        match self.matchers() {
            Ok(mut matchers) => matchers.decide(line),
            Err(_) => Err(DecideError::Memory),
        }
    }

    /// Matchers that search lines for the rules. They can be used for many lines. The only error is
    /// that memory runs out.
    pub fn matchers(&self) -> Result<Matchers<'_>, AllocError>
        ensures { IfOk result (λ m. matched_rules m ≡ rules_in self.now) }
    {
        let mut matchers = Vec::new(self.alloc);
        for rule in &self.rules {
            RuleMatcher::add(self.alloc, rule, &mut matchers)?;
        }
        Ok(Matchers { rules: matchers })
    }

    /// The type name, of 1 to 256 bytes, that the rule with this number gives its events. Rules are
    /// numbered from 0. The rule must have a type name of its own.
    pub fn fixed(&self, rule: u32) -> &str
        requires { IsSome (fixed_name (rules_in self.now) rule) }
        ensures name { fixed_name (rules_in self.now) rule ≡ Some result.now }
        ensures stands { 0 < length result.now }
        ensures short { length result.now ≤ MAX_TYPE_BYTES }
    {
        match self.rules[rule as usize].type_name() {
            Some(name) => name,
            None => unreachable!(),
        }
    }
}
