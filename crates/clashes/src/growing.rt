//! How marks propagate over a graph until nothing changes.
ghost use Rattle.std.specs.Prelude.{◌≡◌, ◌<◌, ℕ, true, false, length, slice_index_or, All};
ghost use Rattle.bit_rows.specs.Tables.{is_set};
ghost use Rattle.partition_model.specs.Assignments.{G, IsTyped};
ghost use Rattle.partition_graph.specs.declared.links.Link.{Link};
ghost use Rattle.partition_graph.specs.Links.{AreLinksOf, HasIds};
ghost use Rattle.clashes.specs.Changes.{TellsGrowth};
ghost use Rattle.clashes.specs.Marks.{AreMarksOf};
ghost use Rattle.clashes.specs.Growing.{as_passed, AreSound, AreEntered, HasBegun, IsClosed, IsClosedBeside};
ghost use Rattle.clashes.specs.Growing.{IsClosedBut, IsFollowedIfNew, IsGrown, IsNoted, IsStill};

use crate::mark_rows::MarkRows;
use crate::places::IDS;
use limits::MAX_PARTITIONS;
use partition_graph::{Link, PartGraph};

/// Finds all marks of the graph, if each mark so far is true of the graph.
pub(crate) fn grow(mark_rows: &mut MarkRows, links: &[Link], graph: &PartGraph)
    requires { AreLinksOf links.now (G (graph.now).traces) }
    ensures invs { (mark_rows.new).invs ≡ (mark_rows.old).invs }
    ensures marks { IsTyped (graph.now).traces → AreSound mark_rows.old (G (graph.now).traces)
        → AreMarksOf mark_rows.new (G (graph.now).traces) }
{
    mark_rows.begin();
    seed(mark_rows, links, graph);
    propagate(mark_rows, links, graph, everywhere());
}

/// Finds all marks of the graph, if each mark so far is true of the graph and only those at p have not propagated.
pub(crate) fn grow_from(mark_rows: &mut MarkRows, links: &[Link], graph: &PartGraph, p: u32)
    requires links { AreLinksOf links.now (G (graph.now).traces) }
    requires id { p < MAX_PARTITIONS }

    // The invariants stay, and all marks are found.
    ensures invs { (mark_rows.new).invs ≡ (mark_rows.old).invs }
    ensures marks { IsTyped (graph.now).traces → AreSound mark_rows.old (G (graph.now).traces)
        → HasBegun mark_rows.old (G (graph.now).traces) → AreEntered mark_rows.old (G (graph.now).traces)
        → IsClosedBeside mark_rows.old (G (graph.now).traces) p
        → AreMarksOf mark_rows.new (G (graph.now).traces) }
{
    let mut recent = nowhere();
    recent[p as usize] = true;
    propagate(mark_rows, links, graph, recent);
}

/// Propagates marks along the links of the graph, from the ids where they are new, until nothing changes.
fn propagate(mark_rows: &mut MarkRows, links: &[Link], graph: &PartGraph, mut recent: [bool; IDS])
    requires links { AreLinksOf links.now (G (graph.now).traces) }
    requires room { length recent ≡ MAX_PARTITIONS }
    ensures grown { IsGrown mark_rows.old mark_rows.new (G (graph.now).traces) }
    ensures closed { IsClosedBut mark_rows.old (G (graph.now).traces) recent
        → IsClosed mark_rows.new (G (graph.now).traces) }
{
    let mut now = nowhere();
    // Marks propagate both ways. Every other pass goes back, so that each way is soon found in its order.
    let mut from_end = false;
    'passes: while pass(mark_rows, links, graph, &recent, &mut now, from_end) {
        recent = now;
        now = nowhere();
        from_end = !from_end;
    }
}

/// Flags for marks that are new at no id.
fn nowhere() -> [bool; IDS]
    ensures room { length result ≡ MAX_PARTITIONS }
    ensures still { (p : ℕ) → IsStill result p }
{
    [false; IDS]
}

/// Flags for marks that are new at all ids.
fn everywhere() -> [bool; IDS]
    ensures room { length result ≡ MAX_PARTITIONS }
    ensures fresh { (p : ℕ) → p < MAX_PARTITIONS → is_set result p ≡ true }
{
    [true; IDS]
}

/// Gives the ends of each link the marks that the link itself brings.
fn seed(mark_rows: &mut MarkRows, links: &[Link], graph: &PartGraph)
    requires { AreLinksOf links.now (G (graph.now).traces) }
    ensures grown { IsGrown mark_rows.old mark_rows.new (G (graph.now).traces) }
    ensures entered { AreEntered mark_rows.new (G (graph.now).traces) }
{
    for link in links {
        mark_rows.enter(link.from, link.to, graph.type_of(link.to));
    }
}

/// The link that a pass takes after `done` others, which are fewer than there are links. A pass takes them in their order,
/// or from the last to the first if `from_end` is true.
pub fn link_after(links: &[Link], done: usize, from_end: bool) -> Link
    requires ids { All HasIds links.now }
    requires within { done < length links.now }
    ensures link { (d : Link) → result ≡ slice_index_or (as_passed from_end links.now) done d }
    ensures ids { HasIds result }
{
    if from_end {
        return links[links.len() - 1 - done];
    }
    links[done]
}

/// Propagates marks once along each link at one of whose ends they are new, and returns whether that changed any.
/// `recent` flags the ids at which marks were new before this pass, and `now` those at which they are new since.
/// `from_end` says which link comes first.
fn pass(
    mark_rows: &mut MarkRows,
    links: &[Link],
    graph: &PartGraph,
    recent: &[bool],
    now: &mut [bool],
    from_end: bool,
) -> bool
    requires links { AreLinksOf links.now (G (graph.now).traces) }
    requires recent_room { length recent.now ≡ MAX_PARTITIONS }
    requires now_room { length now.old ≡ MAX_PARTITIONS }
    requires none { (p : ℕ) → IsStill now.old p }

    // Marks are only added, and the result says whether any were.
    ensures grown { IsGrown mark_rows.old mark_rows.new (G (graph.now).traces) }
    ensures tells { TellsGrowth mark_rows.old mark_rows.new result }

    // Where marks may still propagate.
    ensures after { IsClosedBut mark_rows.old (G (graph.now).traces) recent.now
        → IsClosedBut mark_rows.new (G (graph.now).traces) now.new }
    ensures still { result ≡ false → (p : ℕ) → IsStill now.new p }
{
    let mut changed = false;
    for done in 0..links.len() {
        let link = link_after(links, done, from_end);
        let more = follow(mark_rows, link, graph.type_of(link.to), recent, now);
        changed = changed | more;
    }
    changed
}

/// Propagates marks along a link if they are new at one of its ends, and returns whether that changed any.
fn follow(mark_rows: &mut MarkRows, link: Link, typ: u16, recent: &[bool], now: &mut [bool]) -> bool
    requires ids { HasIds link }
    requires recent_room { length recent.now ≡ MAX_PARTITIONS }
    requires now_room { length now.old ≡ MAX_PARTITIONS }

    // What goes along the link.
    ensures followed { IsFollowedIfNew
        mark_rows.old mark_rows.new link.from link.to typ recent.now now.old }
    ensures tells { TellsGrowth mark_rows.old mark_rows.new result }

    // At which ids marks are new.
    ensures noted { result ≡ true → IsNoted now.old now.new link.from link.to }
    ensures still { result ≡ false → now.new ≡ now.old }
{
    let (from, to) = (link.from as usize, link.to as usize);
    if !(recent[from] | recent[to] | now[from] | now[to]) {
        return false;
    }
    if !mark_rows.follow(link.from, link.to, typ) {
        return false;
    }
    now[from] = true;
    now[to] = true;
    true
}
