//! Laws of the definitions.
ghost use Rattle.std.specs.Prelude.{◌≡◌, ◌++◌, List, [], ℕ, Bool, Some};
ghost use Rattle.outside.specs.Inputs.{InputState};
ghost use Rattle.log_reader.specs.Inputs.{file_past};
ghost use Rattle.line_rules.specs.Rules.{Rule, AreAlike};
ghost use Rattle.log_reader.specs.Reading.{Rules, Setting, events_of, first_refusal, setting};
ghost use Rattle.log_reader.specs.LineReader.{SeenLines, GivesLine, GivesNone, RefusesPiece, TellsLine, refusal_to_come};
ghost use Rattle.log_reader.specs.declared.line_error.LineError.{LineError};
ghost use Rattle.log_reader.specs.LogLines.{AllTaken, TellsPast, TellsRefusal, events_at, lines_of};

/// Rules that are alike read each log in the same way: they give the same first refusal and the
/// same events.
pub fn alike_rules_read_alike()
    ensures refusal { (rs ss : List Rule) (ignore join : Bool) (files : List (List ℕ))
        → AreAlike rs ss
        → first_refusal (setting (Rules rs) ignore join) files
        ≡ first_refusal (setting (Rules ss) ignore join) files }

    // The same events are read.
    ensures events { (rs ss : List Rule) (ignore join : Bool) (files : List (List ℕ))
        → AreAlike rs ss
        → events_of (setting (Rules rs) ignore join) files
        ≡ events_of (setting (Rules ss) ignore join) files }
{}

/// The events of a log are those of its lines, file by file and line by line. The key of each
/// contains the number of its file and how many separators stand before its line in that file. If
/// files are joined, it contains file 0 and how many separators stand before its line in all files.
pub fn events_are_those_of_lines()
    ensures { (s : Setting) (files : List (List ℕ)) →
        events_of s files ≡ events_at s (lines_of s files) }
{}

/// What the first refusal of a log states about its lines. No line before the refused one is
/// refused, and the refused one is refused after the events before it. If all inputs together pass
/// the limit, the lines end with the one that has the first byte past it. If none before is
/// refused, that one is refused for the limit or for its length. If there is no refusal, the limit
/// is not passed, no line is refused, and each is decided or skipped.
pub fn a_refusal_is_of_the_first_line()
    ensures refusal { (s : Setting) (files : List (List ℕ)) →
        TellsRefusal s files (first_refusal s files) }
    ensures taken { (s : Setting) (files : List (List ℕ)) → AllTaken s files }
{}

/// The file with the first byte past the room for all files. The files before it fit in the room,
/// and together with it they do not. If there is no such file, all files together fit.
pub fn one_file_passes_the_limit()
    ensures { (room : ℕ) (files : List (List ℕ)) → TellsPast room files (file_past room files) }
{}

/// What the results of [`Lines::next`](crate::Lines::next) state about an input whose unread bytes
/// are known. The bytes to come are those that are buffered and then the unread ones. A given line
/// is the first in the bytes to come, and no refusal comes first in them. The bytes after it are
/// still to come. If there is no line, no byte is to come. A refusal is the first in the bytes to
/// come.
pub fn lines_come_in_order()
    ensures line { (old new : SeenLines) (before after : InputState) (rest : List ℕ) →
        before.rest ≡ Some rest → GivesLine old new before after
        → TellsLine old new rest after.rest }

    // If there is no line, no byte was to come.
    ensures none { (old new : SeenLines) (before after : InputState) (rest : List ℕ) →
        before.rest ≡ Some rest → GivesNone old new before after → old.buffered ++ rest ≡ [] }

    // A refusal is the first that was to come.
    ensures refusal { (old new : SeenLines) (before after : InputState) (rest : List ℕ)
        (e : LineError) → before.rest ≡ Some rest → RefusesPiece old new before after e
        → refusal_to_come old.taken (old.buffered ++ rest) ≡ Some e }
{}
