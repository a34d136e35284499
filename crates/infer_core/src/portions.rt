//! Labels of some invariants at a time. The rows of bits of a portion of the invariants fit into the caches, and each
//! portion uses the memory of the one before it.
ghost use Rattle.std.specs.Prelude.{◌≡◌, ◌≤◌, IfOk, length};
ghost use Rattle.limits.specs.declared.TheConstants.{MAX_INVARIANTS};
ghost use Rattle.partition_model.specs.Assignments.{G};
ghost use Rattle.partition_graph.specs.Links.{AreLinksOf};
ghost use Rattle.labelling.specs.Labelled.{AreLabelsOf, SaysSatisfied};
ghost use Rattle.infer_core.specs.Portions.{AreNamed};

use invariants::Invariant;
use labelling::GraphLabels;
use partition_graph::{Links, PartGraph, View};
use std::alloc::{AllocError, Global};

/// How many invariants a portion has, or fewer if it is the last one.
pub(crate) const PORTION: usize = 4096;

/// The edges of the graph. `AllocError` is returned if there is not enough memory.
pub(crate) fn links_of(alloc: Global, graph: &PartGraph) -> Result<Links, AllocError>
    ensures { IfOk result (λ links. AreLinksOf links (G (graph.now).traces)) }
{
    let mut links = Links::make(alloc)?;
    links.gather(&View::Plain(graph));
    Ok(links)
}

/// The labels of these invariants in the graph. `links` are its edges. `AllocError` is returned if there is not enough
/// memory.
pub(crate) fn labelled(
    alloc: Global,
    graph: &PartGraph,
    links: &Links,
    invs: &[Invariant],
) -> Result<GraphLabels, AllocError>
    requires few { length invs.now ≤ MAX_INVARIANTS }
    requires named { AreNamed invs.now }
    requires links { AreLinksOf links.now (G (graph.now).traces) }
    ensures list { IfOk result (λ labels. labels.invs ≡ invs.now) }
    ensures labels { IfOk result (λ labels. AreLabelsOf labels (G (graph.now).traces)) }
{
    GraphLabels::find(alloc, &View::Plain(graph), links, invs)
}

/// For each invariant of a portion, whether the graph satisfies it. `links` are its edges. `AllocError` is returned if there
/// is not enough memory.
fn satisfied_portion(
    alloc: Global,
    graph: &PartGraph,
    links: &Links,
    invs: &[Invariant],
) -> Result<Vec<bool>, AllocError>
    requires few { length invs.now ≤ MAX_INVARIANTS }
    requires named { AreNamed invs.now }
    requires links { AreLinksOf links.now (G (graph.now).traces) }
    ensures count { IfOk result (λ flags. length flags.items ≡ length invs.now) }
    ensures told { IfOk result (λ flags. SaysSatisfied (G (graph.now).traces) invs.now flags.items) }
{
    let mut flags = Vec::from_elem(alloc, false, invs.len())?;
    let labels = labelled(alloc, graph, links, invs)?;
    labels.tell_satisfied(flags.as_mut_slice());
    Ok(flags)
}

/// For each invariant, whether the graph satisfies it. `links` are the edges of the graph. `AllocError` is returned if there
/// is not enough memory.
pub(crate) fn satisfied_by_portions(
    alloc: Global,
    graph: &PartGraph,
    links: &Links,
    invs: &[Invariant],
) -> Result<Vec<bool>, AllocError>
    requires few { length invs.now ≤ MAX_INVARIANTS }
    requires named { AreNamed invs.now }
    requires links { AreLinksOf links.now (G (graph.now).traces) }
    ensures count { IfOk result (λ flags. length flags.items ≡ length invs.now) }
    ensures told { IfOk result (λ flags. SaysSatisfied (G (graph.now).traces) invs.now flags.items) }
{
    let mut flags = Vec::with_capacity(alloc, invs.len())?;
    for portion in 0..invs.len().div_ceil(PORTION) {
        let from = portion * PORTION;
        let to = invs.len().min(from + PORTION);
        let told = satisfied_portion(alloc, graph, links, &invs[from..to])?;
        flags.extend_from_slice(told.as_slice())?;
    }
    Ok(flags)
}
