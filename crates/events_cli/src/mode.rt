//! What is written for a log.
ghost use Rattle.std.specs.Prelude.{◌≡◌, map};
ghost use Rattle.std.specs.String.{string_bytes};
ghost use Rattle.events_cli.specs.Words.{lists_undecided, mode_of, mode_word, others};

/// What is written for a log.
#[derive(Clone, Copy, Debug, PartialEq, Eq)]
pub enum Mode {
    /// Its events, trace after trace.
    ByTraces,
    /// Its events in the order of their lines (`--in-order`).
    InOrder,
    /// A log in the plain form with the same words (`--plain`).
    Plain,
    /// The lines that no rule decides (`--undecided`).
    Undecided,
}

/// Whether lines that no rule decides are to be listed.
pub fn lists_undecided(mode: Mode) -> bool
    ensures { result ≡ lists_undecided mode }
{
    match mode {
        Mode::ByTraces => false,
        Mode::InOrder => false,
        Mode::Plain => false,
        Mode::Undecided => true,
    }
}

/// The mode that an argument gives, if it gives one.
fn mode_word(word: &str) -> Option<Mode>
    ensures { result ≡ mode_word word.now }
{
    match word {
        "--in-order" => Some(Mode::InOrder),
        "--plain" => Some(Mode::Plain),
        "--undecided" => Some(Mode::Undecided),
        _ => None,
    }
}

/// The mode that the first argument gives; `ByTraces` if it gives none.
pub fn mode_of(words: &[String]) -> Mode
    ensures { result ≡ mode_of (map string_bytes words.now) }
{
    let Some(word) = words.first() else {
        return Mode::ByTraces;
    };
    match mode_word(word.as_str()) {
        Some(mode) => mode,
        None => Mode::ByTraces,
    }
}

/// The arguments without the first, if that one gives a mode.
pub fn others(words: &[String]) -> &[String]
    ensures { map string_bytes result.now ≡ others (map string_bytes words.now) }
{
    let Some(word) = words.first() else {
        return words;
    };
    match mode_word(word.as_str()) {
        Some(_) => &words[1..],
        None => words,
    }
}
