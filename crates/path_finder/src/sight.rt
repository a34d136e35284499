//! Views in which neighbours can be looked up.
ghost use Rattle.partition_graph.specs.Seen.{IsSound};
ghost use Rattle.path_finder.specs.Sound.{sound-prop};

use partition_graph::View;

/// A view that is sound.
#[derive(Clone, Copy)]
pub(crate) struct Sight<'v> {
    pub(crate) view: View<'v>,
    ghost sound: { IsSound view } by { sound-prop view },
}
