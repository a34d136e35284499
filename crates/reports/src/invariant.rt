//! The text of a list of invariants.
ghost use Rattle.std.specs.Prelude.{◌≡◌, ◌++◌, OnOk, IfOk};
ghost use Rattle.reports.specs.Reports.{verb_of, invariant_line, invariant_report};

use crate::name::Names;
use invariants::{Invariant, Kind, Seq, Text};
use std::alloc::{AllocError, Global};

fn verb(kind: Kind) -> &'static str
    ensures { result.now ≡ verb_of kind }
{
    match kind {
        Kind::AF => " AlwaysFollowedBy ",
        Kind::NF => " NeverFollowedBy ",
        Kind::AP => " AlwaysPrecedes ",
        Kind::IB => " InterruptedBy ",
    }
}

fn push_line(text: &mut Vec<u8>, names: &Names<'_>, inv: Invariant) -> Result<(), AllocError>
    ensures { OnOk result (text.new.items ≡ text.old.items ++ invariant_line names.now inv) }
{
    names.push_name(text, inv.a)?;
    text.extend_from_slice(verb(inv.kind).as_bytes())?;
    names.push_name(text, inv.b)?;
    text.push(10)?;
    Ok(())
}

/// The text of invariants, one per line in the order given, for example `"a" AlwaysFollowedBy "b"`.
///
/// A type is shown by its text as a JSON string, and the two ends as `INITIAL` and `TERMINAL`. `types` has the texts of the
/// types with the numbers from `FIRST_TYPE` on; a number beyond these is shown as the empty text. Each line ends with byte 10.
///
/// The only error is out of memory.
pub fn invariant_report(
    alloc: Global,
    types: &Seq<Text>,
    invs: &[Invariant],
) -> Result<Seq<u8>, AllocError>
    ensures { IfOk result (λ text. text ≡ invariant_report types.now invs.now) }
{
    let names = Names::make(alloc, types)?;
    let mut text = Vec::new(alloc);
    for inv in invs {
        push_line(&mut text, &names, *inv)?;
    }
    Ok(Seq::from_vec(text))
}
