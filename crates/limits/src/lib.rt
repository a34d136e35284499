//! The numbers that are fixed for every run, each named once: the limits of what is read, kept and written, and the numbers of
//! the two ends of a trace.
//!
//! Contracts, definitions and code cite them by these names. A message that reports a limit to the user spells the number out.
#![tactic(auto)]

/// The number of INITIAL, which stands before each trace: as a type, and as the id of its partition.
pub const INITIAL: u32 = 0;

/// The number of TERMINAL, which stands after each trace: as a type, and as the id of its partition.
pub const TERMINAL: u32 = 1;

/// The number of the first type of events that a log has, and the lowest id of a partition of events.
pub const FIRST_TYPE: u32 = 2;

/// How many types of events a log has at most.
pub const MAX_TYPES: u32 = 256;

/// The greatest number that a type of a log has.
pub const LAST_TYPE: u16 = 257;

/// How many invariants a log has at most: all candidates of four kinds between `MAX_TYPES` types.
pub const MAX_INVARIANTS: usize = 262_144;

/// How many events a log has at most, over all its traces.
pub const MAX_EVENTS: u32 = 1_000_000;

/// How many bytes of UTF-8 the text of a type has at most. The same limit holds for a name that a rule gives.
pub const MAX_TYPE_BYTES: usize = 256;

/// How many bytes of UTF-8 the text that names a trace has at most.
pub const MAX_TRACE_BYTES: usize = 1024;

/// How many bytes a line of a log has at most. A carriage return at its end counts, and its line feed does not.
pub const MAX_LINE_BYTES: usize = 65_536;

/// How many bytes all inputs of a log have together at most.
pub const MAX_INPUT_BYTES: usize = 268_435_456;

/// How many bytes a file of rules has at most.
pub const MAX_RULES_BYTES: usize = 65_536;

/// How many rules a file of rules has at most.
pub const MAX_RULES: usize = 32;

/// How many partitions a graph has at most, including the two ends. Each id is below this number.
pub const MAX_PARTITIONS: u32 = 1024;

/// How many ids the paths of all splits and blocks of a model contain together at most.
pub const MAX_PATH_NUMBERS: u32 = 4_000_000;

/// How many bytes a model file has at most.
pub const MAX_MODEL_BYTES: usize = 536_870_912;

/// How many bytes the text of a model has at most, as it is written to a file.
pub const MAX_WRITTEN_BYTES: usize = 330_000_000;

/// How many types a model file of version 1 has at most.
pub const VERSION_1_TYPES: u32 = 128;

/// How many bytes a model file of version 1 has at most.
pub const VERSION_1_BYTES: usize = 134_217_728;

/// How many splits the refinement of a log has at most, and how many merges its coarsening has at most. Each split adds a
/// partition of events, and each merge removes one.
pub const MAX_STEPS: u32 = 1022;

/// How many pairs of partitions of one type a graph has at most.
pub const MAX_PAIRS: u32 = 521_731;

/// The greatest count of an edge of a model.
pub const MAX_EDGE_COUNT: u32 = 2_000_000;

/// How many sessions a made log has at most.
pub const MAX_SESSIONS: u32 = 20_000;
