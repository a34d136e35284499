//! Laws of graphs: what the graph of an assignment is like, what its lists contain, and how labels show that an invariant is
//! satisfied.
ghost use Rattle.partition_model.specs.Laws.{AcceptsTraces, TracesBreakNone, GraphsAreFormed, MergedAreFormed, OneLeast, InductiveSatisfies, ReachedIsInductive, ReachedSatisfies};
ghost use Rattle.partition_model.specs.Listings.{CountsAddUp, ListingsTell};

/// The graph of an assignment accepts each word of the log, by the list of ids of its trace.
pub fn accepts_traces()
    ensures { AcceptsTraces }
{}

/// A path that is the whole list of ids of a trace breaks no invariant that holds of every word.
pub fn traces_break_none()
    ensures { TracesBreakNone }
{}

/// The graph of an assignment lists both ends with their own types. Its edges go between listed ids, none into INITIAL and none
/// out of TERMINAL.
pub fn graphs_are_formed()
    ensures { GraphsAreFormed }
{}

/// The merged graph of a formed graph is formed, and the id that was merged away is gone from it.
pub fn merged_are_formed()
    ensures { MergedAreFormed }
{}

/// If the ids of all events are below a bound of at least 2, the lists of the partitions and of the edges below it contain each
/// of them once, in ascending order, and nothing else.
pub fn listings_tell()
    ensures { ListingsTell }
{}

/// The counts of the edges out of a partition other than TERMINAL add up to its size. So do the counts of the edges into a
/// partition other than INITIAL.
pub fn counts_add_up()
    ensures { CountsAddUp }
{}

/// There is at most one least violation of an invariant in a graph.
pub fn one_least()
    ensures { OneLeast }
{}

/// If a labelling is inductive, the word of every path keeps the invariant.
pub fn inductive_satisfies()
    ensures { InductiveSatisfies }
{}

/// If the word of every path keeps the invariant, the reached states are an inductive labelling.
pub fn reached_is_inductive()
    ensures { ReachedIsInductive }
{}

/// And if the reached states are an inductive labelling, the word of every path keeps the invariant.
pub fn reached_satisfies()
    ensures { ReachedSatisfies }
{}
