//! Bounds on what inference makes: pairs of partitions, blocks, ids of a path, and splits.
//!
//! `specs/` defines the list of the pairs of one type that coarsening visits. Each function here is a law: its body is empty, and
//! its contract is what is proved. No call takes memory or does anything when it runs.
#![tactic(auto)]

mod pairs;
mod paths;

pub use pairs::{
    blocks_follow_pairs, graphs_are_below, merge_satisfies, merged_are_below, merges_are_few,
    merges_stay_below, one_blocks, pairs_are_few, pairs_give_blocks, pairs_tell,
    pairs_within_limit, pass_coarsens,
};
pub use paths::{
    least_is_short, least_is_shorter, least_within_limit, split_paths_within_limit, splits_begin,
    steps_exclude,
};
