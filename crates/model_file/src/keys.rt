//! The keys of model files.
ghost use Rattle.std.specs.Prelude.{◌≡◌};
ghost use Rattle.model_file.specs.Found.{has_key, IsKey};

use crate::version::Version;

/// The keys of the lists that are kept only up to where they are over (`Bound`).
#[derive(Clone, Copy)]
pub(crate) enum BoundedKey {
    Blocks,
    Invariants,
    Splits,
    Types,
}

/// The keys of the lists that are kept whole.
#[derive(Clone, Copy)]
pub(crate) enum WholeKey {
    Edges,
    Merges,
    Partitions,
}

/// The keys of model files.
#[derive(Clone, Copy)]
pub(crate) enum Key {
    Bounded(BoundedKey),
    Whole(WholeKey),
    Kinds,
    Version,
    /// Any other key.
    Other,
}

/// The key with this text.
pub(crate) fn key_of(text: &str) -> Key
    ensures { IsKey result text.now }
{
    match text {
        "blocks" => Key::Bounded(BoundedKey::Blocks),
        "edges" => Key::Whole(WholeKey::Edges),
        "invariants" => Key::Bounded(BoundedKey::Invariants),
        "kinds" => Key::Kinds,
        "merges" => Key::Whole(WholeKey::Merges),
        "partitions" => Key::Whole(WholeKey::Partitions),
        "splits" => Key::Bounded(BoundedKey::Splits),
        "types" => Key::Bounded(BoundedKey::Types),
        "version" => Key::Version,
        _ => Key::Other,
    }
}

/// Whether files of the version have the key.
pub(crate) fn has_key(version: Version, key: Key) -> bool
    ensures { result ≡ has_key version key }
{
    match key {
        Key::Bounded(_) | Key::Whole(_) | Key::Version => true,
        Key::Kinds => match version {
            Version::One => false,
            Version::Two => true,
        },
        Key::Other => false,
    }
}
