//! Whether the graph satisfies each of the invariants.
//!
//! InterruptedBy says something only about a type that comes twice on a path. If none has it twice, which is what
//! NeverFollowedBy of the type by itself says, the invariant is satisfied, and needs no labels.
ghost use Rattle.std.specs.Prelude.{◌≡◌, ◌≤◌, ◌+◌, IfOk, filter, length};
ghost use Rattle.limits.specs.declared.TheConstants.{LAST_TYPE, MAX_INVARIANTS};
ghost use Rattle.partition_model.specs.Assignments.{G};
ghost use Rattle.partition_graph.specs.Links.{AreLinksOf};
ghost use Rattle.labelling.specs.Labelled.{SaysSatisfied};
ghost use Rattle.infer_core.specs.Portions.{AreNamed};
ghost use Rattle.infer_core.specs.Vacuous.{is_asked, is_vacuous, AreMetOnce, AreMetOnceOnWalks, AreOfEachType, TellsAll};

use crate::portions::{links_of, satisfied_by_portions};
use invariants::{Invariant, Kind, Kinds};
use limits::LAST_TYPE;
use partition_graph::{Links, PartGraph};
use std::alloc::{AllocError, Global};

/// NeverFollowedBy of each type below the bound by itself, at the number of the type. `AllocError` is returned if there
/// is not enough memory.
fn never_again(alloc: Global, bound: u16) -> Result<Vec<Invariant>, AllocError>
    requires { bound ≤ LAST_TYPE + 1 }
    ensures { IfOk result (λ invs. AreOfEachType bound invs.items) }
{
    let mut invs = Vec::with_capacity(alloc, bound as usize)?;
    for a in 0..bound {
        invs.push(Invariant {
            kind: Kind::NF,
            a,
            b: a,
        })?;
    }
    Ok(invs)
}

/// For each type that the graph has, whether no path has it twice. `links` are the edges of the graph. `AllocError` is
/// returned if there is not enough memory.
fn met_once(alloc: Global, graph: &PartGraph, links: &Links) -> Result<Vec<bool>, AllocError>
    requires { AreLinksOf links.now (G (graph.now).traces) }
    ensures paths { IfOk result (λ once. AreMetOnce (G (graph.now).traces) once.items) }
    ensures walks { IfOk result (λ once. AreMetOnceOnWalks (G (graph.now).traces) once.items) }
{
    let bound = graph.ids_used().min(LAST_TYPE as u32 + 1) as u16;
    let invs = never_again(alloc, bound)?;
    satisfied_by_portions(alloc, graph, links, invs.as_slice())
}

/// For each type that the graph has, whether no walk from INITIAL has it twice, if the kinds have InterruptedBy; otherwise
/// nothing. `links` are the edges of the graph. `AllocError` is returned if there is not enough memory.
pub(crate) fn met_once_for(
    alloc: Global,
    kinds: Kinds,
    graph: &PartGraph,
    links: &Links,
) -> Result<Vec<bool>, AllocError>
    requires { AreLinksOf links.now (G (graph.now).traces) }
    ensures { IfOk result (λ once. AreMetOnceOnWalks (G (graph.now).traces) once.items) }
{
    match kinds {
        Kinds::Three => Ok(Vec::new(alloc)),
        Kinds::Four => met_once(alloc, graph, links),
    }
}

/// Whether the invariant is InterruptedBy of a type that no path has twice. `once` has a flag for each type, or for those
/// before some bound.
pub(crate) fn is_vacuous(once: &[bool], inv: Invariant) -> bool
    ensures { result ≡ is_vacuous once.now inv }
{
    match inv.kind {
        Kind::AF | Kind::NF | Kind::AP => false,
        Kind::IB => (inv.a as usize) < once.len() && once[inv.a as usize],
    }
}

/// The invariants that are not vacuous, in their order. `AllocError` is returned if there is not enough memory.
fn asked_of(alloc: Global, once: &[bool], invs: &[Invariant]) -> Result<Vec<Invariant>, AllocError>
    ensures { IfOk result (λ asked. asked.items ≡ filter (is_asked once.now) invs.now) }
{
    let mut asked = Vec::with_capacity(alloc, invs.len())?;
    for k in 0..invs.len() {
        let inv = invs[k];
        if !is_vacuous(once, inv) {
            asked.push(inv)?;
        }
    }
    Ok(asked)
}

/// The flags of all invariants: true for each vacuous one, and `told` has those of the others, in their order.
/// `AllocError` is returned if there is not enough memory.
fn with_vacuous(
    alloc: Global,
    once: &[bool],
    invs: &[Invariant],
    told: &[bool],
) -> Result<Vec<bool>, AllocError>
    requires { length told.now ≡ length (filter (is_asked once.now) invs.now) }
    ensures count { IfOk result (λ flags. length flags.items ≡ length invs.now) }
    ensures told { IfOk result (λ flags. TellsAll once.now invs.now told.now flags.items) }
{
    let mut flags = Vec::with_capacity(alloc, invs.len())?;
    let mut next = 0;
    for k in 0..invs.len() {
        let inv = invs[k];
        if is_vacuous(once, inv) {
            flags.push(true)?;
        } else {
            flags.push(told[next])?;
            next += 1;
        }
    }
    Ok(flags)
}

/// For each invariant, whether the graph satisfies it. Only those that are not vacuous are labelled. `links` are the edges
/// of the graph. `AllocError` is returned if there is not enough memory.
fn satisfied_or_vacuous(
    alloc: Global,
    graph: &PartGraph,
    links: &Links,
    invs: &[Invariant],
) -> Result<Vec<bool>, AllocError>
    requires few { length invs.now ≤ MAX_INVARIANTS }
    requires named { AreNamed invs.now }
    requires links { AreLinksOf links.now (G (graph.now).traces) }
    ensures count { IfOk result (λ flags. length flags.items ≡ length invs.now) }
    ensures told { IfOk result (λ flags. SaysSatisfied (G (graph.now).traces) invs.now flags.items) }
{
    let once = met_once(alloc, graph, links)?;
    let asked = asked_of(alloc, once.as_slice(), invs)?;
    let told = satisfied_by_portions(alloc, graph, links, asked.as_slice())?;
    with_vacuous(alloc, once.as_slice(), invs, told.as_slice())
}

/// For each invariant, whether the graph satisfies it. `kinds` are those of the invariants: what is returned does not
/// depend on them. `AllocError` is returned if there is not enough memory.
pub(crate) fn satisfied(
    alloc: Global,
    kinds: Kinds,
    graph: &PartGraph,
    invs: &[Invariant],
) -> Result<Vec<bool>, AllocError>
    requires few { length invs.now ≤ MAX_INVARIANTS }
    requires named { AreNamed invs.now }
    ensures count { IfOk result (λ flags. length flags.items ≡ length invs.now) }
    ensures told { IfOk result (λ flags. SaysSatisfied (G (graph.now).traces) invs.now flags.items) }
{
    let links = links_of(alloc, graph)?;
    match kinds {
        Kinds::Three => satisfied_by_portions(alloc, graph, &links, invs),
        Kinds::Four => satisfied_or_vacuous(alloc, graph, &links, invs),
    }
}
