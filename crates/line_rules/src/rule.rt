//! One rule.
ghost use Rattle.std.specs.Prelude.{◌≡◌, ◌<◌, ◌≤◌, true, codes, IfSome, length, option_map, string_bytes};
ghost use Rattle.limits.specs.declared.TheConstants.{MAX_TYPE_BYTES};
ghost use Rattle.regex.specs.Strings.{regex_names, regex_pattern};
ghost use Rattle.line_rules.specs.Needles.{IsNeedleFor};
ghost use Rattle.line_rules.specs.Rules.{group_named, name_of};
ghost use Rattle.line_rules.specs.Rules as spec;

use crate::decision::{DecideError, Decision, Named};
use crate::spans::Spans;
use crate::time::time_of;
use regex::Regex;

/// The type that a rule gives its events: 1 to 256 bytes.
#[derive(Drop)]
pub struct TypeName {
    pub(crate) text: String,
    ghost stands: { 0 < length (string_bytes text) },
    ghost short: { length (string_bytes text) ≤ MAX_TYPE_BYTES },
}

/// What a rule decides about a line in which its pattern is found.
#[derive(Drop)]
pub enum RuleForm {
    /// Nothing.
    Skip,
    /// The end of a section.
    Separator,
    /// An event whose type is the text of the group TYPE.
    Event,
    /// An event of this type.
    EventOf(TypeName),
}

/// A rule with the numbers of the groups that it uses.
#[derive(Drop)]
pub struct Rule {
    pub(crate) form: RuleForm,
    pub(crate) regex: Regex,
    /// Bytes without which a line has no match.
    pub(crate) needle: Vec<u8>,
    pub(crate) type_group: Option<usize>,
    pub(crate) trace_group: Option<usize>,
    pub(crate) time_group: Option<usize>,
    ghost type_is: { type_group ≡ group_named (regex_names regex) (codes "TYPE") },
    ghost trace_is: { trace_group ≡ group_named (regex_names regex) (codes "TRACE") },
    ghost in_each: { IsNeedleFor (regex_pattern regex) needle.items },
    ghost time_is: { time_group ≡ group_named (regex_names regex) (codes "TIME") },
}

/// The number of the first group with the name.
pub(crate) fn group_number(regex: &Regex, name: &str) -> Option<usize>
    ensures { result ≡ group_named (regex_names regex.now) name.now }
{
    regex.capture_index(name)
}

/// An event with the trace of this span and its time. If the group TRACE took no part, the trace text is empty. If there is no
/// time, `BadTime` is returned.
#[inline(always)]
fn event(
    trace: Option<(usize, usize)>,
    name: Named,
    time: Option<u128>,
) -> Result<Decision, DecideError>
    ensures { result ≡ spec.event trace name time }
{
    let Some(time) = time else {
        return Err(DecideError::BadTime);
    };
    let (trace_from, trace_to) = trace.unwrap_or((0, 0));
    Ok(Decision::Event {
        name,
        trace_from,
        trace_to,
        time,
    })
}

impl Rule {
    ghost use Rattle.line_rules.specs.Views.{form_view, rule_view, UsesNoGroup};
    ghost use Rattle.line_rules.specs.Files.{lacks_type, has_time};

    /// A rule of this form for the pattern. Without the bytes of `needle` a line has no match.
    pub(crate) fn new(form: RuleForm, regex: Regex, needle: Vec<u8>) -> Rule
        requires { IsNeedleFor (regex_pattern regex) needle.items }
        ensures form { result.form ≡ form }
        ensures regex { result.regex ≡ regex }
    {
        let type_group = group_number(&regex, "TYPE");
        let trace_group = group_number(&regex, "TRACE");
        let time_group = group_number(&regex, "TIME");
        Rule {
            form,
            regex,
            needle,
            type_group,
            trace_group,
            time_group,
        }
    }

    /// Whether this is a rule `event PATTERN` whose pattern has no group TYPE.
    pub(crate) fn lacks_type(&self) -> bool
        ensures { result ≡ lacks_type (rule_view self.now) }
    {
        matches!(self.form, RuleForm::Event) && self.type_group.is_none()
    }

    /// Whether the pattern has a group TIME.
    pub(crate) fn has_time(&self) -> bool
        ensures { result ≡ has_time (rule_view self.now) }
    {
        self.time_group.is_some()
    }

    /// Whether the rule uses none of the groups of its pattern.
    pub(crate) fn uses_no_group(&self) -> bool
        ensures { result ≡ true → UsesNoGroup self.now }
    {
        matches!(
            (self.type_group, self.trace_group, self.time_group),
            (None, None, None)
        )
    }

    /// The time of an event in the line, if the group TIME has this span. It is 0 if the rule has
    /// no such group. None is returned if the group took no part or its text is no time.
    #[inline(always)]
    fn time_in(&self, line: &str, span: Option<(usize, usize)>) -> Option<u128>
        requires { IfSome span (spec.IsSpanOf line.now) }
        ensures { result ≡ spec.time_by self.now.time_group line.now span }
    {
        if self.time_group.is_none() {
            return Some(0);
        }
        match span {
            Some((from, to)) => time_of(&line[from..to]),
            None => None,
        }
    }

    /// What the rule, which has this number, decides if its groups have these spans.
    #[inline(always)]
    pub(crate) fn decided_at(
        &self,
        number: u32,
        line: &str,
        spans: Spans,
    ) -> Option<Result<Decision, DecideError>>
        requires { IfSome spans.time (spec.IsSpanOf line.now) }
        ensures { result ≡ spec.decided_at number (form_view self.now.form) spans.typ spans.trace
            (spec.time_by self.now.time_group line.now spans.time) }
    {
        let time = self.time_in(line, spans.time);
        match &self.form {
            RuleForm::Skip => Some(Ok(Decision::Skip)),
            RuleForm::Separator => Some(Ok(Decision::Separator)),
            RuleForm::Event => match spans.typ {
                Some((from, to)) if from < to => {
                    Some(event(spans.trace, Named::Part(from, to), time))
                }
                _ => None,
            },
            RuleForm::EventOf(_) => Some(event(spans.trace, Named::Fixed(number), time)),
        }
    }

    /// The type that the rule gives its events, if it gives one.
    pub(crate) fn type_name(&self) -> Option<&str>
        ensures name { option_map (λ name. name.now) result ≡ name_of (form_view self.now.form) }
        ensures stands { IfSome result (λ name. 0 < length name.now) }
        ensures short { IfSome result (λ name. length name.now ≤ MAX_TYPE_BYTES) }
    {
        match &self.form {
            RuleForm::EventOf(name) => Some(name.text.as_str()),
            _ => None,
        }
    }
}

impl RuleForm {
    ghost use Rattle.line_rules.specs.Views.{form_view};
    ghost use Rattle.line_rules.specs.Files.{is_event};

    /// Whether a rule of this form is an event rule.
    pub(crate) fn is_event(&self) -> bool
        ensures { result ≡ is_event (form_view self.now) }
    {
        matches!(self, RuleForm::Event | RuleForm::EventOf(_))
    }
}
