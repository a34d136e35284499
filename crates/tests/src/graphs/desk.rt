//! The desk: a log with its graph, invariants with their labels and marks, and a path finder. Steps query it.
use crate::graphs::labels_and_marks::{LabelsAndMarks, labels_and_marks_of};
use crate::graphs::logs::log_of;
use crate::graphs::moves::{put_chain_of, put_moves};
use crate::graphs::paths::{put_paths, put_places};
use crate::graphs::runs::put_run;
use crate::graphs::texts::{put_graph, put_number, put_sizes, put_spread};
use crate::graphs::views::{put_edges, put_view};
use crate::tools::{both, halves, put};
use partition_graph::PartGraph;
use path_finder::Finder;
use std::alloc::{AllocError, Global};
use traces::TraceSet;

/// What the steps have made so far.
#[derive(Drop)]
pub struct Desk {
    log: Option<TraceSet>,
    /// The graph. If words are shared, also for each trace the number of the trace that has its word in the graph.
    graph: Option<(PartGraph, Vec<u32>)>,
    finder: Option<Finder>,
    labels_and_marks: Option<LabelsAndMarks>,
}

/// How many traces and events the graph has, and the numbers of its words.
fn put_counts(told: &mut String, graph: &PartGraph, numbers: &[u32]) -> Result<(), AllocError> {
    write!(told, " {} {};", graph.trace_count(), graph.event_count())?;
    for number in numbers {
        put_number(told, *number)?;
    }
    Ok(())
}

/// Queries parts of the graph, or splits and merges them.
fn ask_parts(
    told: &mut String,
    graph: &mut PartGraph,
    numbers: &[u32],
    word: &str,
    text: &str,
) -> Result<(), AllocError> {
    match word {
        "take" => put_moves(told, graph, text),
        "chain" => put_chain_of(told, graph, text),
        "sizes" => put_sizes(told, graph, text),
        "edges" => put_edges(told, graph, text),
        _ => put_counts(told, graph, numbers),
    }
}

impl Desk {
    /// An empty desk.
    pub fn new() -> Desk {
        Desk {
            log: None,
            graph: None,
            finder: None,
            labels_and_marks: None,
        }
    }

    /// Opens the graph of the log, or that of its distinct words if they are to be shared.
    fn open(&mut self, alloc: Global, is_shared: bool) -> Result<(), AllocError> {
        let Some(log) = &self.log else {
            return Ok(());
        };
        if is_shared {
            return put(&mut self.graph, PartGraph::open_shared(alloc, log));
        }
        put(
            &mut self.graph,
            both(PartGraph::open(alloc, log), Ok(Vec::new(alloc))),
        )
    }

    /// Makes what a step asks for.
    fn make(&mut self, alloc: Global, word: &str, text: &str) -> Result<(), AllocError> {
        match word {
            "log" => { put(&mut self.log, log_of(alloc, text)).and(self.open(alloc, false)) }
            "shared" => self.open(alloc, true),
            "invs" => put(&mut self.labels_and_marks, labels_and_marks_of(alloc, text)),
            "paths" if self.finder.is_none() => put(&mut self.finder, Finder::make(alloc)),
            _ => Ok(()),
        }
    }

    /// Queries the shortest counterexample paths of the invariants.
    fn ask_finder(&mut self, told: &mut String, text: &str) -> Result<(), AllocError> {
        let Some((graph, _)) = &self.graph else {
            return Ok(());
        };
        let Some(labels_and_marks) = &self.labels_and_marks else {
            return Ok(());
        };
        match &mut self.finder {
            Some(finder) => put_paths(told, finder, graph, &labels_and_marks.invs, text),
            None => Ok(()),
        }
    }

    /// Queries the labels and the marks.
    fn ask_labels_and_marks(
        &mut self,
        alloc: Global,
        told: &mut String,
        word: &str,
        text: &str,
    ) -> Result<(), AllocError> {
        let Some((graph, _)) = &mut self.graph else {
            return Ok(());
        };
        match &mut self.labels_and_marks {
            Some(labels_and_marks) => labels_and_marks.ask(alloc, told, graph, word, text),
            None => Ok(()),
        }
    }

    /// Queries the graph.
    fn ask_graph(
        &mut self,
        alloc: Global,
        told: &mut String,
        word: &str,
        text: &str,
    ) -> Result<(), AllocError> {
        let Some((graph, numbers)) = &mut self.graph else {
            return Ok(());
        };
        match word {
            "graph" => put_graph(alloc, told, graph),
            "spread" => put_spread(alloc, told, graph, numbers),
            "view" => put_view(alloc, told, graph, text),
            "places" => put_places(alloc, told, graph, text),
            _ => ask_parts(told, graph, numbers, word, text),
        }
    }

    /// Runs refinement on the first graph of the log, and also coarsening if the run is to be whole.
    fn run(
        &self,
        alloc: Global,
        told: &mut String,
        text: &str,
        is_whole: bool,
    ) -> Result<(), AllocError> {
        match &self.log {
            Some(log) => put_run(alloc, told, log, text, is_whole),
            None => Ok(()),
        }
    }

    /// Reports the result of a step, if everything it needs is there.
    fn ask(
        &mut self,
        alloc: Global,
        told: &mut String,
        word: &str,
        text: &str,
    ) -> Result<(), AllocError> {
        match word {
            "refine" => self.run(alloc, told, text, false),
            "infer" => self.run(alloc, told, text, true),
            "paths" => self.ask_finder(told, text),
            "invs" | "label" | "labels" | "satisfied" | "marks" | "clashes" => {
                self.ask_labels_and_marks(alloc, told, word, text)
            }
            _ => self.ask_graph(alloc, told, word, text),
        }
    }

    /// Takes a step, and appends its name and its result to the text.
    pub fn step(&mut self, alloc: Global, line: &str, told: &mut String) -> Result<(), AllocError> {
        let (word, text) = halves(line, ' ');
        self.make(alloc, word, text)
            .and(write!(told, "{word}:"))
            .and(self.ask(alloc, told, word, text))
            .and(told.push('\n'))
    }
}
