//! How the reports of the parts of a log give the report of the whole.
//!
//! A log is cut by its traces into shards. A shard's report lists the invariants between types that occur in the shard, as the
//! report of the whole does for the whole. A candidate of the whole holds there exactly if each shard lists it or lacks what it
//! speaks of. So two things are needed from each shard: its list, and which types it has.
//! The laws hold for three kinds and for four, if each shard is asked for the same kinds as the whole.
//! Each function here is a law: its body is empty, and its contract is what is proved. No call takes memory or does anything when
//! it runs.
#![tactic(auto)]

ghost use Rattle.shard_law.specs.Laws.{LackIsTold, OwnReports, ReportsJoin, ShardsJoin, ShownIsThere, TwoLogsJoin, TypesTell};

/// No words show an invariant and lack what it speaks of. So as many shards list one of the whole as have what it speaks of.
pub fn shown_is_there()
    ensures { ShownIsThere }
{}

/// A candidate is mined from the words of two logs together exactly if each of the two logs shows it or lacks what it speaks of.
/// A log shows an invariant if both its types occur there and it holds of each word.
pub fn two_logs_join()
    ensures { TwoLogsJoin }
{}

/// The same for any number of shards. Their words may stand in the whole in any order.
pub fn shards_join()
    ensures { ShardsJoin }
{}

/// A shard whose report has its own type numbers lists exactly the candidates of the whole whose types both occur in it and that
/// hold of each of its words.
pub fn own_reports()
    ensures { OwnReports }
{}

/// So the report of the whole follows from those of the shards, each with its own type numbers: a candidate of the whole is mined
/// exactly if each shard lists it or lacks what it speaks of.
pub fn reports_join()
    ensures { ReportsJoin }
{}

/// A shard lacks what `a` InterruptedBy `b` speaks of exactly if it has no `a`, or if it has no `b` and lists `a` NeverFollowedBy
/// `a`. So this too follows from its list and its types.
pub fn lack_is_told()
    ensures { LackIsTold }
{}

/// Which types occur in a shard follows from its list of types, and whether it has a trace follows from its words. With the lists
/// of invariants, that is all that a join needs.
pub fn types_tell()
    ensures { TypesTell }
{}
