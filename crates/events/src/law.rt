//! Laws of the definitions.
ghost use Rattle.std.specs.Prelude.{◌≡◌, ℕ, List, map, slice_get, Some};
ghost use Rattle.trace_keys.specs.Keys.{Key};
ghost use Rattle.traces.specs.Words.{keys_of, trace_of};
ghost use Rattle.log_reader.specs.LogLines.{Line, events_at};
ghost use Rattle.log_reader.specs.Reading.{Setting};
ghost use Rattle.events.specs.Located.{by_traces, events_located, events_with_lines, times_of_trace, numbers_of_trace};
ghost use Rattle.events.specs.Laws.{EventsStandOnTheirLines, OthersAreNotListed, SmallLogTells, UndecidedAreListed};

/// The events with their lines are the events of the log: without the lines they are the events of its lines, in that order. In
/// the order of the traces, those of one trace are the events of that trace in the log: the same types at the same times.
pub fn located_events_are_the_log()
    ensures lines { (s : Setting) (lines : List Line)
        → map (λ event. event.1) (events_with_lines s lines) ≡ events_at s lines }

    // Those of one trace are its events.
    ensures types { (s : Setting) (lines : List Line) (k : ℕ) (key : Key)
        → slice_get (keys_of (events_at s lines)) k ≡ Some key
        → numbers_of_trace k (by_traces (events_located s lines)) ≡ (trace_of (events_at s lines) key).events }
    ensures times { (s : Setting) (lines : List Line) (k : ℕ) (key : Key)
        → slice_get (keys_of (events_at s lines)) k ≡ Some key
        → times_of_trace k (by_traces (events_located s lines)) ≡ (trace_of (events_at s lines) key).times }
{}

/// The events stand on the lines that are events, in their order: each has the place of its own line.
pub fn events_stand_on_their_lines()
    ensures { EventsStandOnTheirLines }
{}

/// A line that nothing decides is listed, at its place among the others and with its bytes. No other line is listed: neither an
/// event, nor a line that is skipped, nor a separator.
pub fn undecided_lines_are_listed()
    ensures listed { UndecidedAreListed }
    ensures others { OthersAreNotListed }
{}

/// What is read of a small log of two traces: the line, the trace and the type of each event, and the one line that nothing
/// decides. An empty line is not among them.
pub fn a_small_log_tells()
    ensures { SmallLogTells }
{}
