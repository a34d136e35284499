//! The versions of the model file.
ghost use Rattle.std.specs.Prelude.{◌≡◌};
ghost use Rattle.model_file.specs.Versions.{number_of, max_bytes, max_types};

use limits::{MAX_MODEL_BYTES, MAX_TYPES, VERSION_1_BYTES, VERSION_1_TYPES};

/// A version of the model file.
#[derive(Clone, Copy, Debug, PartialEq, Eq)]
pub enum Version {
    /// Version 1, which is read and no longer written. Its models ask for three kinds of invariants.
    One,
    /// Version 2, which is read and written. A file names the kinds of invariants that its model asks for.
    Two,
}

impl Version {
    /// The version number in a file of this version.
    pub(crate) fn number(self) -> u64
        ensures { result ≡ number_of self }
    {
        match self {
            Version::One => 1,
            Version::Two => 2,
        }
    }

    /// The maximum number of bytes of a file of this version.
    pub fn max_bytes(self) -> usize
        ensures { result ≡ max_bytes self }
    {
        match self {
            Version::One => VERSION_1_BYTES,
            Version::Two => MAX_MODEL_BYTES,
        }
    }

    /// The maximum number of types of a file of this version.
    pub(crate) fn max_types(self) -> u32
        ensures { result ≡ max_types self }
    {
        match self {
            Version::One => VERSION_1_TYPES,
            Version::Two => MAX_TYPES,
        }
    }
}
