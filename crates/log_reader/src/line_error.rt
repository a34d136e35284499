//! Why the reader of lines does not give a line.

/// Why a line is not given.
#[derive(Clone, Copy, Debug, PartialEq, Eq)]
pub enum LineError {
    /// The open input could not be read.
    ReadFault,
    /// The line has more than 65,536 bytes, including a carriage return at its end.
    TooLong,
    /// All inputs together have more than 268,435,456 bytes, and the first byte past that limit is
    /// in this line or ends it.
    InputLimit,
}
