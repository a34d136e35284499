//! When a list is over: no model has a list that begins so, and no more of it is kept.
ghost use Rattle.std.specs.Prelude.{◌≡◌, ◌-◌, ◌≤◌, length, not, slice_get, Some};
ghost use Rattle.model_file.specs.Lists.{kind_number, invariant_key};

use crate::lists::Bound;
use crate::shape::is_less;
use invariants::{Block, Invariant, Kind, Listed, Split, Text};
use limits::{FIRST_TYPE, MAX_PARTITIONS, MAX_TYPES};

/// The list of types is over if it has more types than a file of any version may have.
pub(crate) struct Types;

impl Bound<Text> for Types {
    ghost use Rattle.model_file.specs.Lists.{types_over};

    ghost over = { types_over };

    #[inline(always)]
    fn is_over(entries: &[Text]) -> bool {
        entries.len() > MAX_TYPES as usize
    }
}

/// The list of splits is over if it has more splits than there are ids besides the two ends.
pub(crate) struct Splits;

impl Bound<Split> for Splits {
    ghost use Rattle.model_file.specs.Lists.{splits_over};

    ghost over = { splits_over };

    #[inline(always)]
    fn is_over(entries: &[Split]) -> bool {
        entries.len() + FIRST_TYPE as usize > MAX_PARTITIONS as usize
    }
}

/// The list of blocks is over if its last two blocks do not ascend.
pub(crate) struct Blocks;

impl Bound<Block> for Blocks {
    ghost use Rattle.model_file.specs.Lists.{blocks_over};

    ghost over = { blocks_over };

    #[inline(always)]
    fn is_over(entries: &[Block]) -> bool {
        let [.., before, last] = entries else {
            return false;
        };
        !is_less((before.p, before.q), (last.p, last.q))
    }
}

/// The place of a kind in the order of the kinds.
#[inline(always)]
fn kind_number(kind: Kind) -> u32
    ensures value { result ≡ kind_number kind }
    ensures few { result ≤ 3 }
{
    match kind {
        Kind::AF => 0,
        Kind::NF => 1,
        Kind::AP => 2,
        Kind::IB => 3,
    }
}

/// The two numbers by which candidates ascend.
#[inline(always)]
fn invariant_key(inv: Invariant) -> (u32, u32)
    ensures { result ≡ invariant_key inv }
{
    (
        u32::from(inv.a),
        4 * u32::from(inv.b) + kind_number(inv.kind),
    )
}

/// The list of invariants is over if its last two are not in the order of the candidates, whatever the kinds and the types.
pub(crate) struct Invariants;

impl Bound<Listed> for Invariants {
    ghost use Rattle.model_file.specs.Lists.{invariants_over};

    ghost over = { invariants_over };

    #[inline(always)]
    fn is_over(entries: &[Listed]) -> bool {
        let [.., before, last] = entries else {
            return false;
        };
        !is_less(invariant_key(before.inv), invariant_key(last.inv))
    }
}
