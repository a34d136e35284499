//! What model inference means: graphs of partitions, assignments of events to them, refinement, coarsening and labels, each by a
//! definition in `specs/`, and the laws of these.
//!
//! The rules are those of Beschastnikh, Brun, Schneider, Sloan and Ernst (ESEC/FSE 2011).
//! A partition has an id and a type; the ids 0 and 1 are the ends INITIAL and TERMINAL, with the types 0 and 1, and all others
//! are at least 2.
//! Each function here is a law: its body is empty, and its contract is what is proved. No call takes memory or does anything when
//! it runs.
#![tactic(auto)]

mod coarsening;
mod graphs;
mod refinement;

pub use coarsening::{
    coarsening_keeps, lost_stays_lost, lost_through_merges, merge_grows, merge_is_merged,
    merged_keeps, merged_paths_avoid, one_coarsening, one_pass_coarsens, one_pass_merges,
};
pub use graphs::{
    accepts_traces, counts_add_up, graphs_are_formed, inductive_satisfies, listings_tell,
    merged_are_formed, one_least, reached_is_inductive, reached_satisfies, traces_break_none,
};
pub use refinement::{
    division_keeps, division_shrinks, fewer_splits, ids_within_rests, one_pass_refines,
    one_pass_splits, one_refinement, refinement_keeps, rests_stay_together, runs_keep,
    split_is_division, split_keeps, split_shrinks, stitch_divides, stitch_is_last,
};
