//! Phases that are carried along edges until nothing more is found.
ghost use Rattle.std.specs.Prelude.{◌≡◌, ◌↔◌, ◌<◌, ℕ, true, false, length, IsTrue};
ghost use Rattle.limits.specs.declared.TheConstants.{INITIAL, MAX_PARTITIONS};
ghost use Rattle.partition_model.specs.Graphs.{Graph};
ghost use Rattle.partition_graph.specs.Seen.{seen};
ghost use Rattle.labelling.specs.declared.layout.TheConstants.{STATES};
ghost use Rattle.partition_graph.specs.declared.links.Link.{Link};
ghost use Rattle.labelling.specs.PhaseRows.{found};
ghost use Rattle.labelling.specs.Found.{AreNoted, FollowsAlong, Grows, GrowsIf, HasStart, IsExact, IsNothing, IsFollowed, IsReachedIn, IsSameBut, IsPropagated, IsStill};
ghost use Rattle.labelling.specs.Rounds.{ArePropagated, IsAhead, KeepsAhead, KeepsBehind};
ghost use Rattle.partition_graph.specs.Links.{AreLinksOf, HasIds};

use crate::phase_rows::PhaseRows;
use clashes::link_after;
use limits::{INITIAL, MAX_PARTITIONS};
use partition_graph::{Link, View};

/// How many marks there are: one for each id.
const IDS: usize = MAX_PARTITIONS as usize;

/// No mark at any id.
fn no_marks() -> [bool; IDS]
    ensures room { length result ≡ MAX_PARTITIONS }
    ensures none { (p : ℕ) → IsStill result p }
{
    [false; IDS]
}

/// Finds the phases of INITIAL.
fn start(phase_rows: &mut PhaseRows)
    requires nothing { IsNothing (found phase_rows.old) }
    requires marked { phase_rows.old.marked ≡ true }
    ensures marked { phase_rows.new.marked ≡ true }
    ensures same { (found phase_rows.new).invs ≡ (found phase_rows.old).invs }
    ensures sound { (g : Graph) → g.typ INITIAL ≡ INITIAL → IsReachedIn g (found phase_rows.new) }
    ensures start { (t : ℕ) → t < STATES → HasStart t (found phase_rows.new) }
    ensures others { IsSameBut INITIAL (found phase_rows.old) (found phase_rows.new) }
{
    for phase in 0..3 {
        phase_rows.start(phase);
    }
}

/// Finds, at the end of a link, what the phases at its beginning become there. `typ` is the type of the end. Returns
/// whether anything new was found.
fn propagate(phase_rows: &mut PhaseRows, link: Link, typ: u16) -> bool
    requires ids { HasIds link }
    requires marked { phase_rows.old.marked ≡ true }
    ensures marked { phase_rows.new.marked ≡ true }
    ensures grows { Grows (found phase_rows.old) (found phase_rows.new) result }
    ensures sound { FollowsAlong link.from link.to typ (found phase_rows.old) (found phase_rows.new) }
    ensures propagated { IsPropagated link.from typ link.to (found phase_rows.old) (found phase_rows.new) }
    ensures others { IsSameBut link.to (found phase_rows.old) (found phase_rows.new) }
{
    let mut changed = phase_rows.keep_last(link.from, link.to);
    for place in 0..6 {
        let more = phase_rows.carry(link.from, place / 3, typ, link.to, place % 3);
        changed = changed | more;
    }
    changed
}

/// Whether a pass comes to the links that begin at the end of this link after it has passed this link. A pass goes up the
/// ids, or down if `from_end` is true.
fn leads_ahead(link: Link, from_end: bool) -> bool
    ensures { IsTrue result ↔ IsAhead from_end link.from link.to }
{
    if from_end {
        return link.to < link.from;
    }
    link.from < link.to
}

/// Propagates along a link if something new was found at its beginning. Marks the end of the link if something new is
/// found there: in `recent` if the pass comes to the links that begin there later, and else in `now`, for the next pass.
/// Returns whether it marked the end in `now`.
fn follow(
    phase_rows: &mut PhaseRows,
    link: Link,
    typ: u16,
    from_end: bool,
    recent: &mut [bool],
    now: &mut [bool],
) -> bool
    requires ids { HasIds link }
    requires recent_room { length recent.old ≡ MAX_PARTITIONS }
    requires now_room { length now.old ≡ MAX_PARTITIONS }
    requires marked { phase_rows.old.marked ≡ true }
    ensures marked { phase_rows.new.marked ≡ true }

    // What is found at the end of the link.
    ensures grows { GrowsIf (found phase_rows.old) (found phase_rows.new) result }
    ensures sound { FollowsAlong link.from link.to typ (found phase_rows.old) (found phase_rows.new) }
    ensures followed { IsFollowed
        link.from typ link.to recent.old now.old now.new (found phase_rows.old) (found phase_rows.new) }

    // Elsewhere nothing is lost, and a mark is set only with something new.
    ensures ahead { KeepsAhead
        recent.old recent.new now.old now.new (found phase_rows.old) (found phase_rows.new) }
    ensures behind { KeepsBehind
        from_end link.from now.old now.new (found phase_rows.old) (found phase_rows.new) }
    ensures quiet { result ≡ false → now.new ≡ now.old }
{
    let (from, to) = (link.from as usize, link.to as usize);
    if !recent[from] {
        return false;
    }
    if !propagate(phase_rows, link, typ) {
        return false;
    }
    if leads_ahead(link, from_end) {
        recent[to] = true;
        return false;
    }
    now[to] = true;
    true
}

/// Propagates once along each link at whose beginning something new was found, and returns whether something new was
/// found that is left for the next pass. `recent` marks the ids at which something new is to be followed in this pass,
/// and `now` those for the next pass. The links are passed in their order, or from the last to the first if `from_end`
/// is true.
fn follow_all(
    phase_rows: &mut PhaseRows,
    view: &View<'_>,
    links: &[Link],
    from_end: bool,
    recent: &mut [bool],
    now: &mut [bool],
) -> bool
    requires links { AreLinksOf links.now (seen view.now) }
    requires recent_room { length recent.old ≡ MAX_PARTITIONS }
    requires now_room { length now.old ≡ MAX_PARTITIONS }
    requires none { (p : ℕ) → IsStill now.old p }
    requires before { ArePropagated links.now (seen view.now) recent.old (found phase_rows.old) }
    requires marked { phase_rows.old.marked ≡ true }
    ensures marked { phase_rows.new.marked ≡ true }

    // What is found grows, and is reached.
    ensures grows { GrowsIf (found phase_rows.old) (found phase_rows.new) result }
    ensures sound { IsReachedIn (seen view.now) (found phase_rows.old)
        → IsReachedIn (seen view.now) (found phase_rows.new) }

    // Where something new may still be followed.
    ensures after { ArePropagated links.now (seen view.now) now.new (found phase_rows.new) }
    ensures quiet { result ≡ false → (p : ℕ) → IsStill now.new p }
{
    let mut again = false;
    for done in 0..links.len() {
        let link = link_after(links, done, from_end);
        let more = follow(
            phase_rows,
            link,
            view.type_of(link.to),
            from_end,
            recent,
            now,
        );
        again = again | more;
    }
    again
}

/// Finds what is reached in the view. `links` are the links of the view.
pub(crate) fn label(phase_rows: &mut PhaseRows, view: &View<'_>, links: &[Link])
    requires { AreLinksOf links.now (seen view.now) }
    ensures same { (found phase_rows.new).invs ≡ (found phase_rows.old).invs }
    ensures exact { IsExact (seen view.now) (found phase_rows.new) }
    ensures noted { AreNoted (found phase_rows.new) }
{
    phase_rows.clear();
    start(phase_rows);
    let mut recent = no_marks();
    recent[INITIAL as usize] = true;
    let mut now = no_marks();
    // Every other pass goes down the ids, so that what leads back is soon found too.
    let mut from_end = false;
    'labels: while follow_all(phase_rows, view, links, from_end, &mut recent, &mut now) {
        recent = now;
        now = no_marks();
        from_end = !from_end;
    }
    phase_rows.note();
}
