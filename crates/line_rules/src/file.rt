//! The rules of all lines.
ghost use Rattle.std.specs.Prelude.{◌≡◌, ◌≤◌, IfOk, IfErr, IsFalse, OnErr, OnOk, length, map, vec_len};
ghost use Rattle.std.specs.List.{list_any};
ghost use Rattle.limits.specs.declared.TheConstants.{MAX_RULES, MAX_RULES_BYTES};
ghost use Rattle.line_rules.specs.Patterns.{Stays};
ghost use Rattle.line_rules.specs.Files.{is_event, is_skipped, KeepsRefusals};
ghost use Rattle.line_rules.specs.Building.{AddsLine, IsLineRefused, AreRulesOf, AreLinesRefused};
ghost use Rattle.line_rules.specs.Views.{rule_view};

use crate::build::rule_of_line;
use crate::line_rules::RuleError;
use crate::patterns::Patterns;
use crate::rule::Rule;
use crate::spelling::is_comment;
use lines::{next_piece, without_return};
use std::alloc::Global;

/// Adds the rule of the line with this number, if the line is not skipped.
fn add_line<P: Patterns>(
    alloc: Global,
    number: u32,
    line: &[u8],
    rules: &mut Vec<Rule>,
    patterns: &mut P,
) -> Result<(), RuleError>
    requires { vec_len rules.old ≤ MAX_RULES }

    // What stays, whatever is returned: of the patterns, and that the rules are few.
    ensures stays { Stays (P.state patterns.old) (P.state patterns.new) }
    ensures count { KeepsRefusals (P.state patterns.old) result (P.state patterns.new) }
    ensures few { vec_len rules.new ≤ MAX_RULES }

    // What the line adds, and why it is refused.
    ensures ok { OnOk result (AddsLine number line.now
        (map rule_view rules.old.items) (map rule_view rules.new.items)) }
    ensures not_skipped { OnErr result (IsFalse (is_skipped line.now)) }
    ensures err { IfErr result (IsLineRefused (P.state patterns.old) (P.state patterns.new)
        (map rule_view rules.old.items) number line.now) }
{
    if is_comment(line) {
        return Ok(());
    }
    let rule = rule_of_line(alloc, rules, number, line, patterns)?;
    rules.push(rule)?;
    Ok(())
}

/// The rules of all lines, in their order.
pub(crate) fn read_rules<P: Patterns>(
    alloc: Global,
    bytes: &[u8],
    patterns: &mut P,
) -> Result<Vec<Rule>, RuleError>
    requires { length bytes.now ≤ MAX_RULES_BYTES }

    // What stays of the patterns, whatever is returned.
    ensures stays { Stays (P.state patterns.old) (P.state patterns.new) }
    ensures count { KeepsRefusals (P.state patterns.old) result (P.state patterns.new) }

    // The rules are few, and those of all lines.
    ensures few { IfOk result (λ rules. vec_len rules ≤ MAX_RULES) }
    ensures ok { IfOk result (λ rules. AreRulesOf bytes.now (map rule_view rules.items)) }

    // Each refusal has its cause in one of the lines.
    ensures err { IfErr result
        (AreLinesRefused bytes.now (P.state patterns.old) (P.state patterns.new)) }
{
    let mut rules = Vec::new(alloc);
    let mut rest = bytes;
    let mut number = 0;
    while !rest.is_empty() {
        let (piece, after) = next_piece(rest);
        number += 1;
        add_line(alloc, number, without_return(piece), &mut rules, patterns)?;
        rest = after;
    }
    Ok(rules)
}

/// Whether one of the rules is an event rule.
pub(crate) fn has_event(rules: &[Rule]) -> bool
    ensures { result ≡ list_any (λ rule. is_event rule.form) (map rule_view rules.now) }
{
    for rule in rules {
        if rule.form.is_event() {
            return true;
        }
    }
    false
}
