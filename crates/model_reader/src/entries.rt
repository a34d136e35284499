//! The entries of a model in their shortest spelling.
ghost use Rattle.std.specs.Prelude.{◌≡◌, ◌∷◌, ◌++◌, decimal, IfSome};

use crate::lists::Spelled;
use crate::rest::Rest;
use crate::texts::{kind_number, take_kind, take_labels, take_type_text};
use invariants::{Block, Edge, Invariant, Listed, Merge, Partition, Split, Text};
use std::alloc::Global;

/// Room for the blocks and for the invariants, more than a model may have of either. It is so large that the system gives it
/// apart from all other memory and takes it back whole: if the file has to be read a second time, nothing is left of it.
const ROOM: usize = 1 << 20;

/// Whether the second pair comes after the first.
#[inline(always)]
fn are_rising(first: (u32, u32), second: (u32, u32)) -> bool {
    first.0 < second.0 || first.0 == second.0 && first.1 < second.1
}

/// The two numbers by which listed invariants ascend.
#[inline(always)]
fn invariant_key(inv: Invariant) -> (u32, u32) {
    (
        u32::from(inv.a),
        4 * u32::from(inv.b) + kind_number(inv.kind),
    )
}

/// Takes the number of a type and the comma after it.
#[inline(always)]
fn take_type(rest: &mut Rest<'_>) -> Option<u16>
    ensures { IfSome result (λ number. rest.old ≡ decimal number ++ 44 ∷ rest.new) }
{
    let number = rest.number_before(b',')?;
    if number > 65_535 {
        return None;
    }
    Some(number as u16)
}

impl Spelled for Partition {
    ghost use Rattle.model_file.specs.Tree.{partition_data};

    ghost data_of = { partition_data };

    #[inline(always)]
    fn take(_alloc: Global, rest: &mut Rest<'_>) -> Option<Partition> {
        rest.byte(b'[')?;
        let id = rest.number_before(b',')?;
        let typ = take_type(rest)?;
        let count = rest.number_before(b']')?;
        Some(Partition { id, typ, count })
    }

    #[inline(always)]
    fn may_follow(&self, before: &Partition) -> bool {
        before.id < self.id
    }
}

impl Spelled for Edge {
    ghost use Rattle.model_file.specs.Tree.{edge_data};

    ghost data_of = { edge_data };

    #[inline(always)]
    fn take(_alloc: Global, rest: &mut Rest<'_>) -> Option<Edge> {
        rest.byte(b'[')?;
        let from = rest.number_before(b',')?;
        let to = rest.number_before(b',')?;
        let count = rest.number_before(b']')?;
        Some(Edge { from, to, count })
    }

    #[inline(always)]
    fn may_follow(&self, before: &Edge) -> bool {
        are_rising((before.from, before.to), (self.from, self.to))
    }
}

impl Spelled for Merge {
    ghost use Rattle.model_file.specs.Tree.{merge_data};

    ghost data_of = { merge_data };

    #[inline(always)]
    fn take(_alloc: Global, rest: &mut Rest<'_>) -> Option<Merge> {
        rest.byte(b'[')?;
        let p = rest.number_before(b',')?;
        let q = rest.number_before(b']')?;
        Some(Merge { p, q })
    }

    #[inline(always)]
    fn may_follow(&self, _before: &Merge) -> bool {
        true
    }
}

impl Spelled for Split {
    ghost use Rattle.model_file.specs.Tree.{split_data};

    ghost data_of = { split_data };

    #[inline(always)]
    fn take(alloc: Global, rest: &mut Rest<'_>) -> Option<Split> {
        rest.byte(b'[')?;
        let inv = rest.number_before(b',')?;
        let place = rest.number_before(b',')?;
        let path = rest.path(alloc)?;
        rest.byte(b']')?;
        Some(Split { inv, place, path })
    }

    #[inline(always)]
    fn may_follow(&self, _before: &Split) -> bool {
        true
    }
}

impl Spelled for Block {
    ghost use Rattle.model_file.specs.Tree.{block_data};

    ghost data_of = { block_data };

    #[inline(always)]
    fn take(alloc: Global, rest: &mut Rest<'_>) -> Option<Block> {
        rest.byte(b'[')?;
        let p = rest.number_before(b',')?;
        let q = rest.number_before(b',')?;
        let inv = rest.number_before(b',')?;
        let path = rest.path(alloc)?;
        rest.byte(b']')?;
        Some(Block { p, q, inv, path })
    }

    #[inline(always)]
    fn may_follow(&self, before: &Block) -> bool {
        are_rising((before.p, before.q), (self.p, self.q))
    }

    #[inline(always)]
    fn room() -> usize {
        ROOM
    }
}

impl Spelled for Listed {
    ghost use Rattle.model_file.specs.Tree.{listed_data};

    ghost data_of = { listed_data };

    #[inline(always)]
    fn take(_alloc: Global, rest: &mut Rest<'_>) -> Option<Listed> {
        rest.byte(b'[')?;
        let kind = take_kind(rest)?;
        rest.byte(b',')?;
        let a = take_type(rest)?;
        let b = take_type(rest)?;
        let labels = take_labels(rest)?;
        rest.byte(b']')?;
        Some(Listed {
            inv: Invariant { kind, a, b },
            labels,
        })
    }

    #[inline(always)]
    fn may_follow(&self, before: &Listed) -> bool {
        are_rising(invariant_key(before.inv), invariant_key(self.inv))
    }

    #[inline(always)]
    fn room() -> usize {
        ROOM
    }
}

impl Spelled for Text {
    ghost use Rattle.serde_json.specs.Data.{string};

    ghost data_of = { string };

    #[inline(always)]
    fn take(alloc: Global, rest: &mut Rest<'_>) -> Option<Text> {
        take_type_text(alloc, rest)
    }

    #[inline(always)]
    fn may_follow(&self, _before: &Text) -> bool {
        true
    }
}
