//! Where a line is in the buffer; where a piece of the input ends, and whether it is within the limits.
ghost use Rattle.std.specs.Prelude.{◌≡◌, ◌≤◌, ◌+◌, IfOk, IfErr};
ghost use Rattle.limits.specs.declared.TheConstants.{MAX_INPUT_BYTES};
ghost use Rattle.log_reader.specs.LineReader.{feed_bytes};
ghost use Rattle.log_reader.specs.Buffers.{IsWithinLimits, PassesLimit};

use crate::line_error::LineError;
use limits::{MAX_INPUT_BYTES, MAX_LINE_BYTES};

/// Where the current line is in the buffer.
#[derive(Clone, Copy)]
pub struct Extent {
    /// The place of its first byte.
    pub from: usize,
    /// The place after its last byte.
    pub to: usize,
}

/// Where a piece ends.
#[derive(Clone, Copy)]
pub struct Cut {
    /// How many bytes the piece has.
    pub length: usize,
    /// Whether a line feed ends it.
    pub fed: bool,
}

impl Cut {
    /// How many bytes the piece takes, including the line feed that ends it.
    pub fn used(self) -> usize
        requires { self.length ≤ MAX_INPUT_BYTES + 1 }
        ensures { result ≡ self.length + feed_bytes self.fed }
    {
        if self.fed {
            self.length + 1
        } else {
            self.length
        }
    }
}

/// The cut, if its piece is within the limits after lines that have taken `taken` bytes.
pub fn within_limits(taken: usize, cut: Cut) -> Result<Cut, LineError>
    requires taken { taken ≤ MAX_INPUT_BYTES }
    requires length { cut.length ≤ MAX_INPUT_BYTES + 1 }
    ensures ok { IfOk result (λ same. (same ≡ cut) × IsWithinLimits taken cut) }
    ensures err { IfErr result (PassesLimit taken cut) }
{
    if cut.length > MAX_LINE_BYTES {
        return Err(LineError::TooLong);
    }
    if taken + cut.used() > MAX_INPUT_BYTES {
        return Err(LineError::InputLimit);
    }
    Ok(cut)
}
