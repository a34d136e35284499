//! What a view shows.
ghost use Rattle.partition_graph.specs.Seen.{IsSound};

use crate::graphs::known::is_pair;
use crate::graphs::moves::pair_of;
use partition_graph::{Links, PartGraph, View};
use std::alloc::{AllocError, Global};

/// The ids below this number are shown.
pub const SHOWN: u32 = 12;

/// Appends an id to the text as one character, if there is one.
fn put_id(told: &mut String, id: Option<u32>) -> Result<(), AllocError> {
    match id {
        Some(id) => write!(told, "{id:x}"),
        None => told.push_str("-"),
    }
}

/// Appends to the text for each id that is shown whether there is an edge to it.
fn put_targets(told: &mut String, view: &View<'_>, id: u32) -> Result<(), AllocError>
    requires { IsSound view.now }
{
    for other in 0..SHOWN {
        told.push_str(if view.has_edge(id, other) { "1" } else { "0" })?;
    }
    Ok(())
}

/// Appends to the text for each id that is shown the next source from it on.
fn put_next_sources(told: &mut String, view: &View<'_>, id: u32) -> Result<(), AllocError>
    requires { IsSound view.now }
{
    for from in 0..SHOWN {
        put_id(told, view.next_source(id, from))?;
    }
    Ok(())
}

/// Appends to the text for each id that is shown the next target from it on.
fn put_next_targets(told: &mut String, view: &View<'_>, id: u32) -> Result<(), AllocError>
    requires { IsSound view.now }
{
    for from in 0..SHOWN {
        put_id(told, view.next_target(id, from))?;
    }
    Ok(())
}

/// Appends what a view shows of one id to the text, for each other id: its type, whether there is an edge, and the next source
/// and the next target from that id on.
fn put_id_shown(told: &mut String, view: &View<'_>, id: u32) -> Result<(), AllocError>
    requires { IsSound view.now }
{
    write!(told, " {}=", view.type_of(id))
        .and(put_targets(told, view, id))
        .and(told.push_str("<"))
        .and(put_next_sources(told, view, id))
        .and(told.push_str(">"))
        .and(put_next_targets(told, view, id))
}

/// Appends the edges of a view to the text, as they are gathered.
fn put_links(alloc: Global, told: &mut String, view: &View<'_>) -> Result<(), AllocError>
    requires { IsSound view.now }
{
    let mut links = Links::make(alloc)?;
    links.gather(view);
    for link in links.as_slice() {
        write!(told, " {}>{}", link.from, link.to)?;
    }
    Ok(())
}

/// Appends what a view shows to the text.
fn put_shown(alloc: Global, told: &mut String, view: &View<'_>) -> Result<(), AllocError>
    requires { IsSound view.now }
{
    write!(told, " {}:", view.ids_used())?;
    put_links(alloc, told, view)?;
    for id in 0..SHOWN {
        put_id_shown(told, view, id)?;
    }
    Ok(())
}

/// What the view of a graph shows, or the view of the merge of a pair, for example `2+5`.
pub fn put_view(
    alloc: Global,
    told: &mut String,
    graph: &PartGraph,
    pair: &str,
) -> Result<(), AllocError> {
    let Some((p, q)) = pair_of(pair, '+') else {
        return put_shown(alloc, told, &View::Plain(graph));
    };
    if !is_pair(graph, p, q) {
        return told.push_str(" no");
    }
    put_shown(alloc, told, &View::Merged(graph, p, q))
}

/// Whether a graph has each of the edges, for example `2>3`, which are separated by spaces.
pub fn put_edges(told: &mut String, graph: &PartGraph, edges: &str) -> Result<(), AllocError> {
    let view = View::Plain(graph);
    for edge in edges.split_whitespace() {
        let (p, q) = pair_of(edge, '>').unwrap_or((0, 0));
        told.push_str(if view.has_edge(p, q) { " yes" } else { " no" })?;
    }
    Ok(())
}
