//! The rule of one line.
ghost use Rattle.std.specs.Prelude.{◌≡◌, ◌⊎◌, ◌<◌, Ok, Err, Some, IfOk, IfErr, OnOk, IsTrue, IsSomeAnd, length, map};
ghost use Rattle.limits.specs.declared.TheConstants.{MAX_RULES};
ghost use Rattle.line_rules.specs.Patterns.{IsNoPattern, NestsTooDeep, Stays, Rose, KeepsCount};
ghost use Rattle.line_rules.specs.Rules.{rule_of, Alike};
ghost use Rattle.line_rules.specs.Files.{spelled_by, rule_at, rule_read, first_time, mixes_time, KeepsRefusals};
ghost use Rattle.line_rules.specs.Building.{IsRuleOf, IsLineRefused, not_built};
ghost use Rattle.line_rules.specs.Views.{HasShortName, form_view, word_view, rule_view};

use crate::line_rules::RuleError;
use crate::needle::needle_of;
use crate::patterns::{BuildFault, Patterns};
use crate::rule::{Rule, RuleForm};
use crate::spelling::{Word, spelled};
use limits::MAX_RULES;
use std::alloc::Global;

/// Builds a rule from the text of its pattern.
fn build_rule<P: Patterns>(
    alloc: Global,
    patterns: &mut P,
    form: RuleForm,
    text: &str,
) -> Result<Rule, BuildFault>
    // The rule that the grammar reads, or one with the same form and names that searches the same.
    ensures rule { IfOk result
        (λ r. IsSomeAnd (rule_of (form_view form) text.now) (Alike (rule_view r))) }

    // What stays of the patterns, whatever is returned.
    ensures stays { Stays (P.state patterns.old) (P.state patterns.new) }
    ensures count { KeepsCount (P.state patterns.old) result (P.state patterns.new) }

    // Each error except `Memory` has its cause.
    ensures syntax { result ≡ Err BuildFault.Syntax
        → IsNoPattern text.now ⊎ NestsTooDeep text.now }
    ensures large { result ≡ Err BuildFault.TooLarge
        → Rose (P.state patterns.old).refusals (P.state patterns.new).refusals
        × IsTrue ((P.state patterns.old).may_refuse text.now) }
{
    let regex = patterns.build(text)?;
    let Ok(needle) = needle_of(alloc, text) else {
        return Err(BuildFault::Memory);
    };
    Ok(Rule::new(form, regex, needle))
}

/// Whether the first event rule has a group TIME. None if there is no event rule.
fn first_time(rules: &[Rule]) -> Option<bool>
    ensures { result ≡ first_time (map rule_view rules.now) }
{
    for rule in rules {
        if rule.form.is_event() {
            return Some(rule.has_time());
        }
    }
    None
}

/// Whether this is an event rule that has a group TIME while the first event rule has none, or the
/// other way round.
fn mixes_time(rules: &[Rule], rule: &Rule) -> bool
    ensures { result ≡ mixes_time (map rule_view rules.now) (rule_view rule.now) }
{
    if !rule.form.is_event() {
        return false;
    }
    match first_time(rules) {
        Some(timed) => timed != rule.has_time(),
        None => false,
    }
}

/// The form and the pattern that the line spells, if there is room for one more rule.
fn spelled_rule<'l>(
    rules: &[Rule],
    number: u32,
    line: &'l [u8],
) -> Result<(Word<'l>, &'l str), RuleError>
    ensures few { IfOk result (λ _. length rules.now < MAX_RULES) }
    ensures parts { IfOk result (λ s. Some (word_view s.0, s.1.now) ≡ spelled_by line.now) }
    ensures short { IfOk result (λ s. HasShortName s.0) }
    ensures err { IfErr result
        (λ e. rule_at (map rule_view rules.now) (number, line.now) ≡ Err e) }
{
    let Some(parts) = spelled(line) else {
        return Err(RuleError::BadLine(number));
    };
    if rules.len() >= MAX_RULES {
        return Err(RuleError::TooMany(number));
    }
    Ok(parts)
}

/// The refusal of a line with this number whose pattern is not built.
fn not_built(number: u32, fault: BuildFault) -> RuleError
    ensures { result ≡ not_built number fault }
{
    match fault {
        BuildFault::Syntax => RuleError::Syntax(number),
        BuildFault::TooLarge => RuleError::TooLarge(number),
        BuildFault::Memory => RuleError::Memory,
    }
}

/// Tests the rule of the line with this number, after these rules. The errors are `NoType` and
/// `MixedTime`.
fn test_groups(rules: &[Rule], number: u32, rule: &Rule) -> Result<(), RuleError>
    ensures ok { OnOk result (rule_read (map rule_view rules.now) number (Some (rule_view rule.now))
        ≡ Ok (rule_view rule.now)) }
    ensures err { IfErr result (λ e. rule_read (map rule_view rules.now) number
        (Some (rule_view rule.now)) ≡ Err e) }
{
    if rule.lacks_type() {
        return Err(RuleError::NoType(number));
    }
    if mixes_time(rules, rule) {
        return Err(RuleError::MixedTime(number));
    }
    Ok(())
}

/// The rule of the line with this number, after these rules.
///
/// It is refused by the first of these that applies: `BadLine`, `TooMany`, the refusal of its
/// build, `NoType`, `MixedTime`. `Memory` may be returned in place of each.
pub(crate) fn rule_of_line<P: Patterns>(
    alloc: Global,
    rules: &[Rule],
    number: u32,
    line: &[u8],
    patterns: &mut P,
) -> Result<Rule, RuleError>
    // What stays of the patterns, whatever is returned.
    ensures stays { Stays (P.state patterns.old) (P.state patterns.new) }
    ensures count { KeepsRefusals (P.state patterns.old) result (P.state patterns.new) }

    // A rule is returned only if there is room for one more, and it is that of the line.
    ensures few { IfOk result (λ _. length rules.now < MAX_RULES) }
    ensures ok { IfOk result
        (λ rule. IsRuleOf (map rule_view rules.now) number line.now (rule_view rule)) }

    // Each refusal has its cause in the line.
    ensures err { IfErr result (IsLineRefused (P.state patterns.old) (P.state patterns.new)
        (map rule_view rules.now) number line.now) }
{
    let (word, pattern) = match spelled_rule(rules, number, line) {
        Ok(parts) => parts,
        Err(error) => return Err(error),
    };
    let form = word.to_form(alloc)?;
    let rule = match build_rule(alloc, patterns, form, pattern) {
        Ok(rule) => rule,
        Err(fault) => return Err(not_built(number, fault)),
    };
    test_groups(rules, number, &rule).and(Ok(rule))
}
