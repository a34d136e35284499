//! Pairs of an id and a state.

/// How many states a monitor has.
pub(crate) const STATES: usize = 3;

/// An id of the graph, and a state of the monitor after the type of that id was read: 0, 1 or 2.
#[derive(Clone, Copy)]
pub(crate) struct Pair {
    pub id: u32,
    pub state: u8,
}
