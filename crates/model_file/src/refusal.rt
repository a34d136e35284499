//! Why a model file is refused.
ghost use Rattle.std.specs.Prelude.{◌≡◌};
ghost use Rattle.model_file.specs.declared.refusal.FileError.TheVariants.{Memory};

use std::alloc::AllocError;
use thiserror::Error;

/// A part of a model file.
#[derive(Clone, Copy, Debug, PartialEq, Eq)]
pub enum Field {
    /// The whole file, which must be an object.
    Root,
    /// The version number of the file.
    Version,
    /// A key that no model file of the version has.
    Extra,
    /// The texts of the types.
    Types,
    /// The kinds of invariants that are asked for. A file of version 1 names none, and is never refused for them.
    Kinds,
    /// The partitions.
    Partitions,
    /// The edges.
    Edges,
    /// The invariants with their labels.
    Invariants,
    /// The steps of coarsening.
    Merges,
    /// The steps of refinement.
    Splits,
    /// The blocks: why partitions of one type are not merged.
    Blocks,
}

/// Why a model file is refused. If several refusals apply, the first in the order that `read_model` documents is returned.
#[derive(Clone, Copy, Debug, PartialEq, Eq, Error)]
pub enum FileError {
    /// The file has more bytes than the version that is read allows: 536,870,912 for version 2, and 134,217,728 for version 1.
    #[error("the model file is too long")]
    TooLong,
    /// The bytes are not a JSON text.
    #[error("the model file is not JSON")]
    NotJson,
    /// The part is missing, does not have its form or breaks its rule.
    #[error("the model file has a bad part {0:?}")]
    Shape(Field),
    /// The file has this version, not the one that is read.
    #[error("the model file is of version {0}")]
    Version(u64),
    /// Out of memory.
    #[error("out of memory")]
    Memory,
}

impl From<AllocError> for FileError {
    ghost from_gives = { λ _ e. e ≡ Memory };

    fn from(_: AllocError) -> FileError {
        FileError::Memory
    }
}
