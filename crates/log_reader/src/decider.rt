//! The deciders of the lines of a whole log.
ghost use Rattle.std.specs.Prelude.{◌≡◌, ◌<◌, length, take, IfOk};
ghost use Rattle.line_rules.specs.Rules.{IsNamePart, IsSpanOf, part, type_text};
ghost use Rattle.line_rules.specs.Views.{rules_in};
ghost use Rattle.log_reader.specs.SoFar.{decider_view, HasMatchers};
ghost use Rattle.log_reader.specs.Views.{form_view};

use crate::form::Form;
use line_rules::{LineRules, Matchers, Named};
use std::alloc::AllocError;
use trace_builder::PackedText;

/// Rules with the matchers that search for them, which are made once for a log.
#[derive(Drop)]
pub struct KeptRules<'r> {
    /// The rules.
    pub rules: &'r LineRules,
    /// The matchers that search for them.
    pub matchers: Matchers<'r>,
}

/// A form with the data that it keeps from line to line.
#[derive(Drop)]
pub enum Decider<'r> {
    /// `trace type`.
    Plain,
    /// By rules.
    Rules(KeptRules<'r>),
}

impl<'r> Decider<'r> {
    /// A decider for this form. It takes memory for the matchers of rules.
    pub fn make(form: Form<'r>) -> Result<Decider<'r>, AllocError>
        ensures form { IfOk result (λ decider. decider_view decider ≡ form_view form.entry) }
        ensures matchers { IfOk result HasMatchers }
    {
        match form {
            Form::Plain => Ok(Decider::Plain),
            Form::Rules(rules) => {
                let matchers = rules.matchers()?;
                Ok(Decider::Rules(KeptRules { rules, matchers }))
            }
        }
    }
}

/// The part of a line from one place to another, with the words of its fingerprint. These bytes begin with the line.
#[inline(always)]
pub fn part_of<'t>(text: &'t str, bytes: &[u8], from: usize, to: usize) -> PackedText<'t>
    requires begins { take (length text.now) bytes.now ≡ text.now }
    requires span { IsSpanOf text.now (from, to) }
    ensures { result ≡ part text.now from to }
{
    PackedText::at_start(&text[from..to], &bytes[from..])
}

/// The type text that a decision names, with the words of its fingerprint. It has at least one byte. These bytes begin with the
/// line.
#[inline(always)]
pub fn type_text_of<'t>(
    rules: &'t LineRules,
    text: &'t str,
    bytes: &[u8],
    name: Named,
) -> PackedText<'t>
    requires begins { take (length text.now) bytes.now ≡ text.now }
    requires named { IsNamePart (rules_in rules.now) text.now name }
    ensures value { result ≡ type_text (rules_in rules.now) text.now name }
    ensures stands { 0 < length result }
{
    match name {
        Named::Fixed(rule) => PackedText::of(rules.fixed(rule)),
        Named::Part(from, to) => part_of(text, bytes, from, to),
    }
}
