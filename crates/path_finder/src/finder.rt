//! The finder.
ghost use Rattle.std.specs.Prelude.{◌≡◌, ◌≤◌, ◌<◌, ◌+◌, ◌*◌, [], IfSome, MatchOption, true, false, length, vec_capacity};
ghost use Rattle.path_finder.specs.declared.table.TheConstants.{MAX_ENTRIES};
ghost use Rattle.partition_graph.specs.Seen.{seen, IsSound};
ghost use Rattle.partition_model.specs.Assignments.{G};
ghost use Rattle.partition_model.specs.Coarsening.{IsPair};
ghost use Rattle.partition_model.specs.Graphs.{IsLeastViolation, Satisfies, Merged as merged_graph};
ghost use Rattle.path_finder.specs.Asking.{asked};
ghost use Rattle.path_finder.specs.IdSets.{has_id};
ghost use Rattle.path_finder.specs.Keeping.{KeepsViolations};
ghost use Rattle.path_finder.specs.Nearness.{key_of, AvoidsGone};
ghost use Rattle.path_finder.specs.Surveys.{IsSurveyOf};
ghost use Rattle.path_finder.specs.Walks.{IsLeastOf};

use crate::breadth::Breadth;
use crate::id_set::IdSet;
use crate::pair::Pair;
use crate::question::Question;
use crate::reach::Around;
use crate::search::measure;
use crate::sight::Sight;
use crate::survey::{Survey, near_merge};
use crate::table::{MAX_ENTRIES, Table};
use crate::trace::trace;
use invariants::{Invariant, Kind, Merge, Monitor};
use limits::{INITIAL, MAX_PARTITIONS};
use partition_graph::{PartGraph, View};
use std::alloc::{AllocError, Global};
use std::marker::Model;
use std::sync::ledger::Ledger;
use steps::Steps;

/// Finds least violations. It keeps its memory from one call to the next. Contracts see what `find_loss` keeps of a graph, and
/// the path that was written last.
#[derive(Drop)]
pub struct Finder {
    table: Table,
    around: Around,
    breadth: Breadth,
    survey: Survey,
    path: Vec<u32>,
}

impl Model for Finder {
    ghost use Rattle.std.specs.Prelude.{◌<◌, vec_capacity};
    ghost use Rattle.path_finder.specs.Surveys.{Found};
    ghost use Rattle.path_finder.specs.declared.table.TheConstants.{MAX_ENTRIES};

    ghost Value = { Found };

    ghost view = { λ f. record { survey = f.survey; path = f.path.items } };

    ghost invariant = { λ f. MAX_ENTRIES < vec_capacity f.path };
}

/// Writes the least violation to `path`, and returns whether there is one. It counts one step.
fn search<L: Ledger>(
    question: &Question<'_, '_>,
    table: &mut Table,
    path: &mut Vec<u32>,
    steps: &mut Steps<L>,
) -> bool
    requires room { MAX_ENTRIES < vec_capacity path.old }

    // What the path is, if there is one.
    ensures satisfied { result ≡ false
        → Satisfies (asked question.now).graph (asked question.now).inv }
    ensures found { result ≡ true → IsLeastOf (asked question.now) path.new.items }
    ensures short { result ≡ true → length path.new.items ≤ MAX_ENTRIES + 1 }

    // The memory for the next path stays, and one step is counted.
    ensures room { MAX_ENTRIES < vec_capacity path.new }
    ensures counted { steps.new ≡ steps.old + 1 }
{
    steps.tick();
    let start = Pair {
        id: INITIAL,
        state: question.state_at(Monitor::start(), INITIAL),
    };
    let Some(distance) = measure(question, table, start) else {
        return false;
    };
    trace(question, table, start, distance, path);
    true
}

/// The type that occurs in every word that breaks the invariant.
fn key_of(inv: Invariant) -> u16
    ensures { result ≡ key_of inv.kind inv.a inv.b }
{
    match inv.kind {
        Kind::AF | Kind::NF | Kind::IB => inv.a,
        Kind::AP => inv.b,
    }
}

/// The ids to look at for the least violation of the invariant: those around its key type, or all ids if most were around that
/// type not long ago.
fn find_near(around: &mut Around, breadth: &mut Breadth, sight: &Sight<'_>, inv: Invariant) -> IdSet
    ensures { KeepsViolations (has_id result) (seen sight.now.view) inv }
{
    let typ = key_of(inv);
    let ids = sight.view.ids_used();
    if breadth.is_wide(typ) {
        return IdSet::all();
    }
    around.find_type(sight, typ);
    breadth.note(typ, around.near.count(), ids);
    around.near
}

/// The ids to look at for what the merge loses of the invariant. `survey` has what was found of the graph before.
fn near_loss(
    survey: &mut Survey,
    around: &mut Around,
    breadth: &mut Breadth,
    graph: &PartGraph,
    merge: Merge,
    inv: Invariant,
    satisfied: bool,
) -> IdSet
    requires surveyed { IsSurveyOf survey.old (G (graph.now).traces) }
    requires pair { IsPair (G (graph.now).traces) merge.p merge.q }
    requires known { satisfied ≡ true → Satisfies (G (graph.now).traces) inv }
    ensures keeps { KeepsViolations (has_id result)
        (merged_graph (G (graph.now).traces) merge.p merge.q) inv }
    ensures surveyed { IsSurveyOf survey.new (G (graph.now).traces) }
{
    prove!(graph.ids_used() <= MAX_PARTITIONS);
    if !satisfied {
        let sight = Sight {
            view: View::Merged(graph, merge.p, merge.q),
        };
        return find_near(around, breadth, &sight, inv);
    }
    let plain = Sight {
        view: View::Plain(graph),
    };
    near_merge(survey, around, &plain, merge)
}

impl Finder {
    /// A finder with all the memory that its searches need. Only this call allocates; `AllocError` is returned if there
    /// is not enough memory.
    pub fn make(alloc: Global) -> Result<Finder, AllocError> {
        let path = Vec::with_capacity(alloc, MAX_ENTRIES + 1)?;
        let table = Table::make(alloc)?;
        let around = Around::make(alloc)?;
        let survey = Survey::make(alloc)?;
        Ok(Finder {
            table,
            around,
            breadth: Breadth::unknown(),
            survey,
            path,
        })
    }

    /// The least violation of the invariant in the graph that `view` shows: the shortest path that breaks the invariant
    /// (the first in lexicographic order among those of equal length). `None` is returned if the graph satisfies the
    /// invariant. A merged view must be of two partitions of one type.
    ///
    /// The path begins with INITIAL and ends with TERMINAL, and has at most `3 * MAX_PARTITIONS + 1` ids. In a merged
    /// view it never has the id that is merged away.
    ///
    /// It counts one step, and allocates nothing.
    pub fn least_violation<L: Ledger>(
        &mut self,
        view: &View<'_>,
        inv: Invariant,
        steps: &mut Steps<L>,
    ) -> Option<&[u32]>
        requires { IsSound view.now }

        // What the path is, if there is one.
        ensures found { MatchOption result
            (Satisfies (seen view.now) inv)
            (λ path. IsLeastViolation (seen view.now) inv path.now) }
        ensures short { IfSome result (λ path. length path.now ≤ 3 * MAX_PARTITIONS + 1) }
        ensures avoids { IfSome result (λ path. AvoidsGone view.now path.now) }

        // How many steps are counted.
        ensures counted { steps.new ≡ steps.old + 1 }
    {
        prove!(view.ids_used() <= MAX_PARTITIONS);
        let sight = Sight { view: *view };
        let near = find_near(&mut self.around, &mut self.breadth, &sight, inv);
        let question = Question::new(&sight, inv, &near);
        if !search(&question, &mut self.table, &mut self.path, steps) {
            return None;
        }
        Some(&self.path)
    }

    /// The least violation of the invariant in the graph as it would be after the merge, which is of two partitions of
    /// one type. `None` is returned if that graph satisfies the invariant. The path has at most
    /// `3 * MAX_PARTITIONS + 1` ids.
    ///
    /// `satisfied` may be true only if the graph before the merge satisfies the invariant. Then a path that breaks it
    /// goes through the merged partition, and only ids before and after that one are visited.
    ///
    /// It counts one step, and allocates nothing.
    pub fn least_loss<L: Ledger>(
        &mut self,
        graph: &PartGraph,
        merge: Merge,
        inv: Invariant,
        satisfied: bool,
        steps: &mut Steps<L>,
    ) -> Option<&[u32]>
        requires pair { IsPair (G (graph.now).traces) merge.p merge.q }
        requires known { satisfied ≡ true → Satisfies (G (graph.now).traces) inv }

        // What the path is, if there is one.
        ensures found { MatchOption result
            (Satisfies (merged_graph (G (graph.now).traces) merge.p merge.q) inv)
            (λ path. IsLeastViolation
            (merged_graph (G (graph.now).traces) merge.p merge.q) inv path.now) }
        ensures short { IfSome result (λ path. length path.now ≤ 3 * MAX_PARTITIONS + 1) }

        // How many steps are counted.
        ensures counted { steps.new ≡ steps.old + 1 }
    {
        if !satisfied {
            return self.least_violation(&View::Merged(graph, merge.p, merge.q), inv, steps);
        }
        prove!(graph.ids_used() <= MAX_PARTITIONS);
        let sight = Sight {
            view: View::Merged(graph, merge.p, merge.q),
        };
        self.around.find(&sight, merge.p);
        let question = Question::new(&sight, inv, &self.around.near);
        if !search(&question, &mut self.table, &mut self.path, steps) {
            return None;
        }
        Some(&self.path)
    }

    /// Forgets what `find_loss` kept of a graph. The path stays.
    pub fn forget(&mut self)
        ensures survey { (self.new).survey ≡ [] }
        ensures path { (self.new).path ≡ (self.old).path }
    {
        self.survey.forget();
    }

    /// Finds what `least_loss` returns, and returns whether there is a path. `path` then gives it.
    ///
    /// If `satisfied` is true, the ids around the partitions of the merge are kept for the next call. So the next call must be
    /// about the same graph, unless `forget` is called before.
    ///
    /// It counts one step, and allocates nothing.
    pub fn find_loss<L: Ledger>(
        &mut self,
        graph: &PartGraph,
        merge: Merge,
        inv: Invariant,
        satisfied: bool,
        steps: &mut Steps<L>,
    ) -> bool
        requires surveyed { IsSurveyOf (self.old).survey (G (graph.now).traces) }
        requires pair { IsPair (G (graph.now).traces) merge.p merge.q }
        requires known { satisfied ≡ true → Satisfies (G (graph.now).traces) inv }

        // What the path is, if there is one.
        ensures satisfied { result ≡ false
            → Satisfies (merged_graph (G (graph.now).traces) merge.p merge.q) inv }
        ensures found { result ≡ true → IsLeastViolation
            (merged_graph (G (graph.now).traces) merge.p merge.q) inv (self.new).path }
        ensures short { result ≡ true → length (self.new).path ≤ 3 * MAX_PARTITIONS + 1 }

        // What is kept, and how many steps are counted.
        ensures surveyed { IsSurveyOf (self.new).survey (G (graph.now).traces) }
        ensures counted { steps.new ≡ steps.old + 1 }
    {
        let near = near_loss(
            &mut self.survey,
            &mut self.around,
            &mut self.breadth,
            graph,
            merge,
            inv,
            satisfied,
        );
        let sight = Sight {
            view: View::Merged(graph, merge.p, merge.q),
        };
        let question = Question::new(&sight, inv, &near);
        search(&question, &mut self.table, &mut self.path, steps)
    }

    /// The path that was found last.
    pub fn path(&self) -> &[u32]
        ensures { result.now ≡ (self.now).path }
    {
        &self.path
    }
}
