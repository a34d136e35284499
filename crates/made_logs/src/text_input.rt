//! A text in memory as the only input of a log's reader.
ghost use Rattle.std.specs.Prelude.{◌≡◌, ◌++◌, drop, length, min, take};
ghost use Rattle.made_logs.specs.TextInputs.{text_state, unread};

use invariants::Seq;
use outside::{Failed, Inputs, OpenError};
use std::marker::Model;

/// A text under the empty name. Its calls never fail. Contracts see the text, its unread bytes, and
/// how often it was opened.
#[derive(Drop)]
pub struct TextInput {
    text: Seq<u8>,
    /// Where the next read begins. If the text is not open, it is the end.
    at: usize,
    opens: u64,
}

impl Model for TextInput {
    ghost use Rattle.std.specs.Prelude.{◌≤◌, drop, length};
    ghost use Rattle.made_logs.specs.TextInputs.{StoredText};

    ghost Value = { StoredText };

    ghost view = { λ i. record { text = i.text; rest = drop i.at i.text; opens = i.opens } };

    ghost invariant = { λ i. i.at ≤ length i.text };
}

impl TextInput {
    /// The text as an input, with nothing open and no call made.
    pub fn new(text: Seq<u8>) -> TextInput
        ensures { result ≡ unread text }
    {
        let at = text.len();
        TextInput { text, at, opens: 0 }
    }
}

/// Copies the first bytes, as many as the buffer has room for, and returns how many.
fn fill(bytes: &[u8], buf: &mut [u8]) -> usize
    ensures count { result ≡ min (length buf.old) (length bytes.now) }
    ensures front { buf.new ≡ take result bytes.now ++ drop result buf.old }
{
    let count = buf.len().min(bytes.len());
    buf[..count].copy_from_slice(&bytes[..count]);
    count
}

impl Inputs for TextInput {
    ghost state = { text_state };

    fn open(&mut self, name: &str) -> Result<(), OpenError> {
        if !name.is_empty() {
            self.at = self.text.len();
            return Err(OpenError::Missing);
        }
        self.at = 0;
        self.opens = self.opens.saturating_add(1);
        Ok(())
    }

    fn read(&mut self, buf: &mut [u8]) -> Result<usize, Failed> {
        let count = fill(&self.text.as_slice()[self.at..], buf);
        self.at += count;
        Ok(count)
    }
}
