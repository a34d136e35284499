//! Labels: numbers from 0 to 7, kept as their digits. Many lists of labels may share the bytes of a file.
ghost use Rattle.std.specs.Prelude.{◌≡◌, ◌↔◌, ◌≤◌, ◌+◌, [], All, IfOk, IsTrue, drop, length, map, take};
ghost use Rattle.invariants.specs.Labels.{IsDigit, IsLabel, digit_of, number_of};

use std::alloc::{AllocError, Global};
use std::marker::Model;
use std::rc::Rc;

/// At most this many digits are kept in the value itself.
const IN_PLACE: usize = 16;

/// Where the digits are.
#[derive(Drop)]
enum Digits {
    /// The first `count` of these bytes.
    Few {
        count: usize,
        bytes: [u8; 16],
    },
    /// `count` bytes of a text, from the place `from` on.
    Part {
        text: Rc<Vec<u8>>,
        from: usize,
        count: usize,
    },
}

/// A list of labels that never changes. A label is a set of states, as a number from 0 to 7. Contracts see the list of the
/// numbers.
#[derive(Drop)]
pub struct Labels {
    digits: Digits,
}

impl Model for Labels {
    ghost use Rattle.std.specs.Prelude.{List, ℕ};
    ghost use Rattle.invariants.specs.LabelDigits.{AreDigits, numbers_in};

    ghost Value = { List ℕ };

    ghost view = { λ l. numbers_in l.digits };

    ghost invariant = { λ l. AreDigits l.digits };
}

/// Replaces each number by its digit.
fn to_digits(numbers: &mut [u8])
    requires { All IsLabel numbers.old }
    ensures { numbers.new ≡ map digit_of numbers.old }
{
    for k in 0..numbers.len() {
        numbers[k] = numbers[k] + b'0';
    }
}

/// The labels with these digits.
fn few(digits: &[u8]) -> Labels
    requires digits { All IsDigit digits.now }
    requires few { length digits.now ≤ 16 }
    ensures { result ≡ map number_of digits.now }
{
    let mut bytes = [0; 16];
    let count = digits.len();
    bytes[..count].copy_from_slice(digits);
    Labels {
        digits: Digits::Few { count, bytes },
    }
}

impl Labels {
    /// The labels whose digits are the `count` bytes of the text from the place `from` on. These must be digits from `0` to `7`.
    /// If there are many, the labels share the text.
    pub fn part_of(text: &Rc<Vec<u8>>, from: usize, count: usize) -> Result<Labels, AllocError>
        requires within { from + count ≤ length (text.now).value.items }
        requires digits { All IsDigit (take count (drop from (text.now).value.items)) }
        ensures { IfOk result (λ labels. labels ≡ map number_of (take count (drop from (text.now).value.items))) }
    {
        if count <= IN_PLACE {
            return Ok(few(&text.as_slice()[from..from + count]));
        }
        Ok(Labels {
            digits: Digits::Part {
                text: text.clone()?,
                from,
                count,
            },
        })
    }

    /// The labels with these digits, each from `0` to `7`.
    fn held(alloc: Global, digits: Vec<u8>) -> Result<Labels, AllocError>
        requires { All IsDigit digits.items }
        ensures { IfOk result (λ labels. labels ≡ map number_of digits.items) }
    {
        let count = digits.len();
        if count <= IN_PLACE {
            return Ok(few(digits.as_slice()));
        }
        let text = Rc::new(alloc, digits)?;
        Ok(Labels {
            digits: Digits::Part {
                text,
                from: 0,
                count,
            },
        })
    }

    /// The labels with these digits, each from `0` to `7`. Many digits are copied.
    pub fn from_digits(alloc: Global, digits: &[u8]) -> Result<Labels, AllocError>
        requires { All IsDigit digits.now }
        ensures { IfOk result (λ labels. labels ≡ map number_of digits.now) }
    {
        if digits.len() <= IN_PLACE {
            Ok(few(digits))
        } else {
            Labels::held(alloc, digits.to_vec(alloc)?)
        }
    }

    /// These labels, each at most 7.
    pub fn from_numbers(alloc: Global, numbers: Vec<u8>) -> Result<Labels, AllocError>
        requires { All IsLabel numbers.items }
        ensures { IfOk result (λ labels. labels ≡ numbers.items) }
    {
        let mut digits = numbers;
        to_digits(digits.as_mut_slice());
        Labels::held(alloc, digits)
    }

    /// How many labels there are. Each is at most 7.
    pub fn len(&self) -> usize
        ensures count { result ≡ length self.now }
        ensures labels { All IsLabel self.now }
    {
        match &self.digits {
            Digits::Few { count, .. } => *count,
            Digits::Part { count, .. } => *count,
        }
    }

    /// Whether there is no label.
    pub fn is_empty(&self) -> bool
        ensures { IsTrue result ↔ (self.now ≡ []) }
    {
        self.len() == 0
    }

    /// The digits of the labels, in their order.
    pub fn as_digits(&self) -> &[u8]
        ensures digits { result.now ≡ map digit_of self.now }
        ensures labels { All IsLabel self.now }
    {
        match &self.digits {
            Digits::Few { count, bytes } => &bytes[..*count],
            Digits::Part { text, from, count } => &text.as_slice()[*from..*from + *count],
        }
    }
}
