//! The strings of a model: kinds, labels and the texts of types.
ghost use Rattle.std.specs.Prelude.{◌≡◌, ◌≤◌, ◌++◌, map, IfSome};
ghost use Rattle.std.specs.Bool.{OnTrue};
ghost use Rattle.json.specs.Print.{escape};
ghost use Rattle.serde_json.specs.Data.{string};
ghost use Rattle.serde_json.specs.Written.{compact_text};
ghost use Rattle.invariants.specs.Labels.{digit_of};
ghost use Rattle.model_file.specs.Tree.{kind_data, kinds_data};

use crate::rest::Rest;
use invariants::{Kind, Kinds, Labels, Text};
use limits::MAX_TYPE_BYTES;
use std::alloc::Global;
use std::str;

/// The place of a kind in the order of the kinds.
#[inline(always)]
pub(crate) fn kind_number(kind: Kind) -> u32
    ensures { result ≤ 3 }
{
    match kind {
        Kind::AF => 0,
        Kind::NF => 1,
        Kind::AP => 2,
        Kind::IB => 3,
    }
}

/// Takes the name of a kind.
#[inline(always)]
pub(crate) fn take_kind(rest: &mut Rest<'_>) -> Option<Kind>
    ensures { IfSome result (λ kind. rest.old ≡ compact_text (kind_data kind) ++ rest.new) }
{
    if rest.takes_text(b"\"AF\"") {
        return Some(Kind::AF);
    }
    if rest.takes_text(b"\"NF\"") {
        return Some(Kind::NF);
    }
    if rest.takes_text(b"\"AP\"") {
        return Some(Kind::AP);
    }
    rest.text(b"\"IB\"")?;
    Some(Kind::IB)
}

/// Takes the list of the three kinds or of all four.
pub(crate) fn take_kinds(rest: &mut Rest<'_>) -> Option<Kinds>
    ensures { IfSome result (λ kinds. rest.old ≡ compact_text (kinds_data kinds) ++ rest.new) }
{
    rest.text(b"[\"AF\",\"NF\",\"AP\"")?;
    if rest.takes(b']') {
        return Some(Kinds::Three);
    }
    rest.text(b",\"IB\"]")?;
    Some(Kinds::Four)
}

/// Takes the labels of an invariant: a string with a digit for each partition.
pub(crate) fn take_labels(rest: &mut Rest<'_>) -> Option<Labels>
    ensures { IfSome result (λ labels. rest.old ≡ compact_text (string (map digit_of labels)) ++ rest.new) }
{
    rest.labels()
}

/// Whether a string of these bytes has no escapes: no control byte, no quotation mark and no backslash.
fn are_plain(bytes: &[u8]) -> bool
    ensures { OnTrue result (escape bytes.now ≡ bytes.now) }
{
    for byte in bytes {
        if *byte < 32 || *byte == b'"' || *byte == b'\\' {
            return false;
        }
    }
    true
}

/// Takes the text of a type, which has no escapes.
pub(crate) fn take_type_text(alloc: Global, rest: &mut Rest<'_>) -> Option<Text>
    ensures { IfSome result (λ text. rest.old ≡ compact_text (string text) ++ rest.new) }
{
    let bytes = rest.string()?;
    if bytes.len() > MAX_TYPE_BYTES || !are_plain(bytes) {
        return None;
    }
    let Ok(text) = str::from_utf8(bytes) else {
        return None;
    };
    match String::from_str(alloc, text) {
        Ok(text) => Some(Text::from_string(text)),
        Err(_) => None,
    }
}
