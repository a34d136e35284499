//! The spelling of a rule: a word, one space, and a pattern.
ghost use Rattle.std.specs.Prelude.{◌≡◌, ◌<◌, length, IfOk, IfNone, IfSome, option_map};
ghost use Rattle.std.specs.List.{before_first, after_first};
ghost use Rattle.line_rules.specs.Files.{is_space, named_form, form_of_word, spelled_by, is_skipped};
ghost use Rattle.line_rules.specs.Views.{word_view, form_view, HasShortName};

use crate::rule::{RuleForm, TypeName};
use limits::MAX_TYPE_BYTES;
use std::alloc::{AllocError, Global};

/// The form of a rule as its line spells it.
#[derive(Clone, Copy)]
pub enum Word<'a> {
    /// `skip`
    Skip,
    /// `separator`
    Separator,
    /// `event`
    Event,
    /// `event=NAME`
    EventOf(&'a str),
}

/// Whether the line is no rule: it has no bytes, or begins with `#`.
pub(crate) fn is_comment(line: &[u8]) -> bool
    ensures { result ≡ is_skipped line.now }
{
    line.is_empty() || line[0] == b'#'
}

/// The form that `event=NAME` spells. NAME has 1 to 256 bytes.
fn named(word: &str) -> Option<Word<'_>>
    ensures form { option_map word_view result ≡ named_form word.now }
    ensures short { IfSome result HasShortName }
{
    let name = word.strip_prefix("event=")?;
    if name.is_empty() || name.len() > MAX_TYPE_BYTES {
        return None;
    }
    Some(Word::EventOf(name))
}

/// The form that the word of a rule spells, if it spells one.
fn form_word(word: &str) -> Option<Word<'_>>
    ensures form { option_map word_view result ≡ form_of_word word.now }
    ensures short { IfSome result HasShortName }
{
    match word {
        "skip" => Some(Word::Skip),
        "separator" => Some(Word::Separator),
        "event" => Some(Word::Event),
        _ => named(word),
    }
}

/// The text before the first space and the text after it, if that is not empty.
fn word_and_rest(text: &str) -> Option<(&str, &str)>
    ensures none { IfNone result (length (after_first is_space text.now) ≡ 0) }
    ensures some { IfSome result (λ parts. (parts.0.now ≡ before_first is_space text.now)
        × (parts.1.now ≡ after_first is_space text.now)
        × (0 < length parts.1.now)) }
{
    match text.split_once(' ') {
        Some((word, rest)) if !rest.is_empty() => Some((word, rest)),
        _ => None,
    }
}

/// The form and the pattern that a line of text spells. None if it has none of the four forms.
fn spelled_text(text: &str) -> Option<(Word<'_>, &str)>
    ensures parts { option_map (λ s. (word_view s.0, s.1.now)) result ≡ spelled_by text.now }
    ensures short { IfSome result (λ s. HasShortName s.0) }
{
    let Some((word, pattern)) = word_and_rest(text) else {
        return None;
    };
    match form_word(word) {
        Some(form) => Some((form, pattern)),
        None => None,
    }
}

/// The form and the pattern that the line spells. None if it is not UTF-8 or has none of the four
/// forms.
pub(crate) fn spelled(line: &[u8]) -> Option<(Word<'_>, &str)>
    ensures parts { option_map (λ s. (word_view s.0, s.1.now)) result ≡ spelled_by line.now }
    ensures short { IfSome result (λ s. HasShortName s.0) }
{
    match str::from_utf8(line) {
        Ok(text) => spelled_text(text),
        Err(_) => None,
    }
}

impl Word<'_> {
    /// The form, with a name of its own.
    pub(crate) fn to_form(&self, alloc: Global) -> Result<RuleForm, AllocError>
        requires { HasShortName self.now }
        ensures { IfOk result (λ form. form_view form ≡ word_view self.now) }
    {
        match self {
            Word::Skip => Ok(RuleForm::Skip),
            Word::Separator => Ok(RuleForm::Separator),
            Word::Event => Ok(RuleForm::Event),
            Word::EventOf(name) => {
                let text = name.to_string(alloc)?;
                Ok(RuleForm::EventOf(TypeName { text }))
            }
        }
    }
}
