//! The spans of a rule's groups in a line.
ghost use Rattle.std.specs.Prelude.{◌≡◌, IfSome, option_map, option_and_then};
ghost use Rattle.regex.specs.Patterns.{find_str};
ghost use Rattle.regex.specs.Strings.{matcher_pattern, captures_span, captures_haystack};
ghost use Rattle.line_rules.specs.Rules.{IsSpanOf};
ghost use Rattle.line_rules.specs.Views.{spans_of};

use crate::rule::Rule;
use regex::{Captures, Matcher};

/// The spans of the groups that a rule uses in a match. A group that took no part has none.
#[derive(Clone, Copy)]
pub struct Spans {
    pub(crate) typ: Option<(usize, usize)>,
    pub(crate) trace: Option<(usize, usize)>,
    pub(crate) time: Option<(usize, usize)>,
}

/// The span of the group, if it took part.
fn span_of_group(captures: &Captures<'_, '_>, group: Option<usize>) -> Option<(usize, usize)>
    ensures value { result ≡ option_and_then (captures_span captures.now) group }
    ensures within { IfSome result (IsSpanOf (captures_haystack captures.now)) }
{
    let found = captures.get(group?)?;
    Some((found.start(), found.end()))
}

/// The spans of the groups that the rule uses in the first match, if there is a match.
pub(crate) fn spans_in(rule: &Rule, matcher: &mut Matcher<'_>, line: &str) -> Option<Spans>
    ensures found { result ≡ option_map (spans_of rule.now)
        (find_str (matcher_pattern matcher.old) line.now 0) }
    ensures within { IfSome result (λ s. IfSome s.typ (IsSpanOf line.now)
        × IfSome s.trace (IsSpanOf line.now)
        × IfSome s.time (IsSpanOf line.now)) }
    ensures same { matcher_pattern matcher.new ≡ matcher_pattern matcher.old }
{
    let captures = matcher.captures(line)?;
    let typ = span_of_group(&captures, rule.type_group);
    let trace = span_of_group(&captures, rule.trace_group);
    let time = span_of_group(&captures, rule.time_group);
    Some(Spans { typ, trace, time })
}
