//! Laws of pieces.
ghost use Rattle.std.specs.Prelude.{◌≡◌, List, ℕ};
ghost use Rattle.lines.specs.Lines.{ended, pieces, with_feeds, HaveNoFeed};

/// No piece contains a line feed.
pub fn pieces_have_no_line_feed()
    ensures { (bytes : List ℕ) → HaveNoFeed (pieces bytes) }
{}

/// The pieces, with a line feed after each, are the bytes. If the last byte is not a line feed, they are the bytes and one line
/// feed.
pub fn pieces_give_the_bytes_back()
    ensures { (bytes : List ℕ) → with_feeds (pieces bytes) ≡ ended bytes }
{}

/// There is only one such cut: parts without a line feed that give the bytes back are the pieces.
pub fn pieces_are_unique()
    ensures { (bytes : List ℕ) (parts : List (List ℕ)) → HaveNoFeed parts
        → with_feeds parts ≡ ended bytes → parts ≡ pieces bytes }
{}
