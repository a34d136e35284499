//! Keys with their fingerprints.
ghost use Rattle.std.specs.Prelude.{◌≡◌, ◌<◌, ◌^◌, length, IfSome};
ghost use Rattle.trace_keys.specs.Keys.{key_in};
ghost use Rattle.trace_keys.specs.Fingerprints.{fingerprint_of};

use crate::fingerprint::Fingerprint;
use crate::key::KeyParts;
use crate::packed_text::PackedText;
use std::marker::Model;

/// A key with its fingerprint, which is computed once for all lookups.
///
/// Contracts see the key.
#[derive(Drop)]
pub struct HashedKey<'a> {
    fingerprint: Fingerprint,
    text: &'a str,
}

impl<'a> Model for HashedKey<'a> {
    ghost use Rattle.std.specs.Prelude.{◌≡◌};
    ghost use Rattle.trace_keys.specs.Keys.{Key};
    ghost use Rattle.trace_keys.specs.Fingerprints.{fingerprint_of};

    ghost Value = { Key };

    ghost view = { λ k. record { file = k.fingerprint.file; section = k.fingerprint.section; text = k.text.now } };

    ghost invariant = { λ k. k.fingerprint
        ≡ fingerprint_of (record { file = k.fingerprint.file; section = k.fingerprint.section; text = k.text.now }) };
}

impl<'a> HashedKey<'a> {
    /// The key with these parts. Its text has fewer than 2^32 bytes.
    #[inline(always)]
    pub fn of(parts: &KeyParts<'a>) -> HashedKey<'a>
        requires short { length parts.now.text.now < 2 ^ 32 }
        ensures { result ≡ key_in parts.now }
    {
        HashedKey {
            fingerprint: Fingerprint::of(parts),
            text: parts.text,
        }
    }

    /// The key with these numbers and this text, made from the words of the text, if it is short.
    #[inline(always)]
    pub fn of_packed(file: u32, section: u32, text: &PackedText<'a>) -> Option<HashedKey<'a>>
        ensures some { IfSome result (λ key. key
            ≡ (record { file = file; section = section; text = text.now })) }
    {
        match text.fingerprint(file, section) {
            Some(fingerprint) => Some(HashedKey {
                fingerprint,
                text: text.text(),
            }),
            None => None,
        }
    }

    /// Its fingerprint.
    #[inline(always)]
    pub fn fingerprint(&self) -> Fingerprint
        ensures { result ≡ fingerprint_of self.now }
    {
        self.fingerprint
    }

    /// Its text.
    #[inline(always)]
    pub fn text(&self) -> &'a str
        ensures { result.now ≡ (self.now).text }
    {
        self.text
    }
}
