//! Pieces of a log between line feeds.
ghost use Rattle.std.specs.Prelude.{◌≡◌, ◌<◌, ◌≤◌, ◌+◌, ◌∷◌, length};
ghost use Rattle.lines.specs.Lines.{pieces, line_of};

use memchr::memchr;

/// The first piece of the bytes, and the bytes after its line feed. There must be at least one byte. After the last piece nothing
/// follows, whether or not a line feed ends it.
pub fn next_piece(bytes: &[u8]) -> (&[u8], &[u8])
    requires { 0 < length bytes.now }
    ensures pieces { pieces bytes.now ≡ result.0.now ∷ pieces result.1.now }
    ensures shorter { length result.0.now + length result.1.now ≤ length bytes.now }
    ensures ends { length result.1.now < length bytes.now }
{
    match memchr(10, bytes) {
        Some(end) => (&bytes[..end], &bytes[end + 1..]),
        None => (bytes, &[]),
    }
}

/// The line of a piece: the piece without one carriage return at its end.
pub fn without_return(piece: &[u8]) -> &[u8]
    ensures { result.now ≡ line_of piece.now }
{
    match piece {
        [line @ .., 13] => line,
        _ => piece,
    }
}
