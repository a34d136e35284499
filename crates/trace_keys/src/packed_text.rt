//! Texts with the words of their fingerprints.
ghost use Rattle.std.specs.Prelude.{◌≡◌, length, take, IfSome};
ghost use Rattle.trace_keys.specs.Fingerprints.{IsTold, fingerprint_of};

use crate::fingerprint::{Fingerprint, MAX_TOLD, WORD, are_bytes, front_word, high_word, low_word};
use std::marker::Model;

/// A text with the words of its fingerprint. If the text is short, they are computed once for all lookups.
///
/// Contracts see the bytes of the text.
#[derive(Drop)]
pub struct PackedText<'a> {
    low: u64,
    high: u64,
    text: &'a str,
}

impl<'a> Model for PackedText<'a> {
    ghost use Rattle.std.specs.Prelude.{ℕ, List};
    ghost use Rattle.trace_keys.specs.Fingerprints.{HasWords};

    ghost Value = { List ℕ };

    ghost view = { λ w. w.text.now };

    ghost invariant = { λ w. HasWords w.text.now w.low w.high };
}

impl<'a> PackedText<'a> {
    /// A text. One of more than 16 bytes has no words.
    #[inline(always)]
    pub fn of(text: &'a str) -> PackedText<'a>
        ensures { result ≡ text.now }
    {
        let bytes = text.as_bytes();
        if bytes.len() > MAX_TOLD {
            return PackedText {
                low: 0,
                high: 0,
                text,
            };
        }
        PackedText {
            low: low_word(bytes),
            high: high_word(bytes),
            text,
        }
    }

    /// A text with which these bytes begin. If there are enough of them, a short text is taken together with those after it.
    #[inline(always)]
    pub fn at_start(text: &'a str, bytes: &[u8]) -> PackedText<'a>
        requires begins { take (length text.now) bytes.now ≡ text.now }
        ensures { result ≡ text.now }
    {
        if text.len() >= WORD || bytes.len() < WORD {
            return PackedText::of(text);
        }
        PackedText {
            low: front_word(bytes, text.len()),
            high: 0,
            text,
        }
    }

    /// The text.
    #[inline(always)]
    pub fn text(&self) -> &'a str
        ensures { result.now ≡ self.now }
    {
        self.text
    }

    /// The fingerprint of the key with these numbers and this text. It is returned only if the text has at most 16 bytes.
    #[inline(always)]
    pub fn fingerprint(&self, file: u32, section: u32) -> Option<Fingerprint>
        ensures { IfSome result (λ fingerprint.
            (fingerprint ≡ fingerprint_of (record { file = file; section = section; text = self.now }))
            × IsTold self.now) }
    {
        let length = self.text.len();
        if length > MAX_TOLD {
            return None;
        }
        are_bytes(self.text.as_bytes());
        Some(Fingerprint {
            low: self.low,
            high: self.high,
            file,
            section,
            length: length as u32,
        })
    }
}
