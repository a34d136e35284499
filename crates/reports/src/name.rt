//! The names of types.
ghost use Rattle.std.specs.Prelude.{◌≡◌, ◌++◌, OnOk, IfOk};
ghost use Rattle.reports.specs.Reports.{name_of, json_texts};
ghost use Rattle.serde_json.specs.Data.{string};
ghost use Rattle.serde_json.specs.Written.{compact_text};

use invariants::{Seq, Text};
use limits::{FIRST_TYPE, INITIAL, TERMINAL};
use serde_json::Value;
use std::alloc::{AllocError, Global};
use std::marker::Model;

/// The names of the types of a report: the text of each as a JSON string, made once for all lines. Contracts see the texts of
/// the types themselves.
#[derive(Drop)]
pub struct Names<'a> {
    /// The types. Only contracts read them.
    types: &'a Seq<Text>,
    /// Their texts as JSON strings, in the same order.
    quoted: Vec<Text>,
}

impl<'a> Model for Names<'a> {
    ghost use Rattle.std.specs.Prelude.{◌≡◌, List, ℕ};

    ghost Value = { List (List ℕ) };

    ghost use Rattle.reports.specs.Reports.{json_texts};

    ghost view = { λ n. n.types.now };

    ghost invariant = { λ n. n.quoted.items ≡ json_texts n.types.now };
}

/// The text as a JSON string.
fn quote(alloc: Global, text: &Text) -> Result<Text, AllocError>
    ensures { IfOk result (λ t. t ≡ compact_text (string text.now)) }
{
    let value = Value::try_from_str(alloc, text.as_str())?;
    Ok(Text::from_string(value.to_string(alloc)?))
}

/// Each of the texts as a JSON string, in their order.
fn quote_all(alloc: Global, types: &Seq<Text>) -> Result<Vec<Text>, AllocError>
    ensures { IfOk result (λ texts. texts.items ≡ json_texts types.now) }
{
    let mut texts = Vec::new(alloc);
    for text in types.as_slice() {
        texts.push(quote(alloc, text)?)?;
    }
    Ok(texts)
}

impl<'a> Names<'a> {
    /// The names of these types. The only error is out of memory.
    pub fn make(alloc: Global, types: &'a Seq<Text>) -> Result<Names<'a>, AllocError>
        ensures { IfOk result (λ names. names ≡ types.now) }
    {
        let quoted = quote_all(alloc, types)?;
        Ok(Names { types, quoted })
    }

    /// Appends the name of the type with this number to the text: its text as a JSON string, or the name of an end. If no type
    /// has this number, nothing is appended.
    pub fn push_name(&self, text: &mut Vec<u8>, number: u16) -> Result<(), AllocError>
        ensures { OnOk result (text.new.items ≡ text.old.items ++ name_of self.now number) }
    {
        match u32::from(number) {
            INITIAL => text.extend_from_slice(b"INITIAL"),
            TERMINAL => text.extend_from_slice(b"TERMINAL"),
            number => {
                let Some(name) = self.quoted.get((number - FIRST_TYPE) as usize) else {
                    return Ok(());
                };
                text.extend_from_slice(name.as_str().as_bytes())
            }
        }
    }
}
