//! The bytes that are still to be read. Tokens in their shortest spelling are taken from the start.
ghost use Rattle.std.specs.Prelude.{◌≡◌, ◌≤◌, ◌∷◌, ◌++◌, [], IfSome, OnSome, MatchOption, decimal, length, map, take};
ghost use Rattle.std.specs.Bool.{OnTrue, OnFalse};
ghost use Rattle.json.specs.Print.{escape};
ghost use Rattle.invariants.specs.Labels.{digit_of};
ghost use Rattle.serde_json.specs.Written.{compact_text};
ghost use Rattle.model_file.specs.Tree.{path_data};

use crate::decimals::{number_before, numbers_in_list};
use crate::labels::labels_at;
use invariants::{Ids, Labels};
use limits::MAX_PARTITIONS;
use memchr::memchr;
use std::alloc::Global;
use std::marker::Model;
use std::rc::Rc;

/// How many ids a path that is written has at most: a shortest path to a bad state meets each partition in each of the three
/// states of a monitor at most once.
const LONGEST_PATH: usize = 3 * MAX_PARTITIONS as usize;

/// The bytes that are still to be read, which are the end of a text, how long the last labels were, and room for the ids of a
/// path, which is used again for each path. Contracts see the bytes.
#[derive(Drop)]
pub(crate) struct Rest<'a> {
    text: &'a Rc<Vec<u8>>,
    bytes: &'a [u8],
    labels: usize,
    ids: Vec<u32>,
}

impl<'a> Model for Rest<'a> {
    ghost use Rattle.std.specs.Prelude.{List, ℕ};
    ghost use Rattle.model_reader.specs.Tails.{IsTail};

    ghost Value = { List ℕ };

    ghost view = { λ r. r.bytes.now };

    ghost invariant = { λ r. IsTail (r.text.now).value.items r.bytes.now };
}

impl<'a> Rest<'a> {
    /// All bytes of the text. It is `None` if memory runs out.
    pub(crate) fn new(alloc: Global, text: &'a Rc<Vec<u8>>) -> Option<Rest<'a>>
        ensures { IfSome result (λ rest. rest ≡ (text.now).value.items) }
    {
        match vec![in alloc; 0; LONGEST_PATH] {
            Ok(ids) => Some(Rest {
                text,
                bytes: text.as_slice(),
                labels: 0,
                ids,
            }),
            Err(_) => None,
        }
    }

    /// Whether all bytes were taken.
    pub(crate) fn is_empty(&self) -> bool
        ensures { OnTrue result (self.now ≡ []) }
    {
        self.bytes.is_empty()
    }

    /// Takes this byte, if it comes next.
    #[inline(always)]
    pub(crate) fn takes(&mut self, byte: u8) -> bool
        ensures yes { OnTrue result (self.old ≡ byte ∷ self.new) }
        ensures no { OnFalse result (self.new ≡ self.old) }
    {
        let [first, others @ ..] = self.bytes else {
            return false;
        };
        if *first != byte {
            return false;
        }
        self.bytes = others;
        true
    }

    /// Takes this byte, which must come next.
    #[inline(always)]
    pub(crate) fn byte(&mut self, byte: u8) -> Option<()>
        ensures { OnSome result (self.old ≡ byte ∷ self.new) }
    {
        if self.takes(byte) { Some(()) } else { None }
    }

    /// Takes this text, if it comes next.
    #[inline(always)]
    pub(crate) fn text(&mut self, text: &[u8]) -> Option<()>
        ensures { MatchOption result (self.new ≡ self.old) (λ _. self.old ≡ text.now ++ self.new) }
    {
        self.bytes = self.bytes.strip_prefix(text)?;
        Some(())
    }

    /// Takes this text, if it comes next, and returns whether it did.
    #[inline(always)]
    pub(crate) fn takes_text(&mut self, text: &[u8]) -> bool
        ensures yes { OnTrue result (self.old ≡ text.now ++ self.new) }
        ensures no { OnFalse result (self.new ≡ self.old) }
    {
        match self.text(text) {
            Some(()) => true,
            None => false,
        }
    }

    /// Takes a number of at most nine digits without leading zeros, and this byte after it.
    #[inline(always)]
    pub(crate) fn number_before(&mut self, end: u8) -> Option<u32>
        ensures { IfSome result (λ number. self.old ≡ decimal number ++ end ∷ self.new) }
    {
        let (number, others) = number_before(self.bytes, end)?;
        self.bytes = others;
        Some(number)
    }

    /// Takes a path of at most `LONGEST_PATH` ids.
    pub(crate) fn path(&mut self, alloc: Global) -> Option<Ids>
        ensures { IfSome result (λ path. self.old ≡ compact_text (path_data path) ++ self.new) }
    {
        let [b'[', entries @ ..] = self.bytes else {
            return None;
        };
        let (count, others) = numbers_in_list(self.ids.as_mut_slice(), entries)?;
        self.bytes = others;
        match Vec::from_slice(alloc, &self.ids.as_slice()[..count]) {
            Ok(ids) => Some(Ids::from_vec(ids)),
            Err(_) => None,
        }
    }

    /// Takes the bytes before a place, and the quotation mark that must stand there.
    #[inline(always)]
    fn up_to_quote(&mut self, end: usize) -> Option<&'a [u8]>
        requires { end ≤ length self.old }
        ensures text { IfSome result (λ inside. self.old ≡ inside.now ++ 34 ∷ self.new) }
        ensures inside { IfSome result (λ inside. inside.now ≡ take end self.old) }
    {
        let (inside, others) = self.bytes.split_at(end);
        self.bytes = others;
        self.byte(b'"')?;
        Some(inside)
    }

    /// Takes a string, and returns the bytes between its quotation marks.
    #[inline(always)]
    pub(crate) fn string(&mut self) -> Option<&'a [u8]>
        ensures { IfSome result (λ inside. self.old ≡ 34 ∷ (inside.now ++ 34 ∷ self.new)) }
    {
        self.byte(b'"')?;
        let end = memchr(b'"', self.bytes)?;
        self.up_to_quote(end)
    }

    /// Where labels end: where the last ones did, if a quotation mark stands there, or else at the first quotation mark.
    #[inline(always)]
    fn end_of_labels(&self) -> Option<usize>
        ensures { IfSome result (λ end. end ≤ length self.now) }
    {
        if let Some(b'"') = self.bytes.get(self.labels) {
            return Some(self.labels);
        }
        memchr(b'"', self.bytes)
    }

    /// The labels whose digits are the next bytes, before a place.
    #[inline(always)]
    fn labels_before(&self, end: usize) -> Option<Labels>
        requires { end ≤ length self.now }
        ensures text { IfSome result (λ labels. take end self.now ≡ map digit_of labels) }
        ensures plain { IfSome result (λ labels. escape (map digit_of labels) ≡ map digit_of labels) }
    {
        labels_at(self.text, self.text.len() - self.bytes.len(), end)
    }

    /// Takes a string of labels. All labels of a model are of one length, so their end is seldom searched.
    #[inline(always)]
    pub(crate) fn labels(&mut self) -> Option<Labels>
        ensures text { IfSome result (λ labels. self.old ≡ 34 ∷ (map digit_of labels ++ 34 ∷ self.new)) }
        ensures plain { IfSome result (λ labels. escape (map digit_of labels) ≡ map digit_of labels) }
    {
        self.byte(b'"')?;
        let end = self.end_of_labels()?;
        self.labels = end;
        let labels = self.labels_before(end)?;
        self.up_to_quote(end)?;
        Some(labels)
    }
}
