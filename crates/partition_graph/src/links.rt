//! The edges of a view, gathered once.
ghost use Rattle.std.specs.Prelude.{◌≡◌, ◌≤◌, ◌<◌, ◌+◌, [], IfOk, vec_capacity};
ghost use Rattle.partition_graph.specs.Links.{AreLinksOf, AreLinksBefore};
ghost use Rattle.partition_graph.specs.Seen.{seen, IsSound};

use crate::view::View;
use limits::MAX_PARTITIONS;
use std::alloc::{AllocError, Global};
use std::marker::Model;

/// The most links: one from each id to each id.
const MAX_LINKS: usize = MAX_PARTITIONS as usize * MAX_PARTITIONS as usize;

/// An edge of a graph.
#[derive(Clone, Copy, Debug)]
pub struct Link {
    /// The id that it leaves.
    pub from: u32,
    /// The id that it enters.
    pub to: u32,
}

/// The edges of a view, gathered once and then scanned many times. Contracts see a list of links.
#[derive(Drop)]
pub struct Links {
    links: Vec<Link>,
}

impl Model for Links {
    ghost use Rattle.std.specs.Prelude.{◌≤◌, List, vec_capacity};
    ghost use Rattle.partition_graph.specs.declared.links.Link.{Link};
    ghost use Rattle.partition_graph.specs.declared.links.TheConstants.{MAX_LINKS};

    ghost Value = { List Link };

    ghost view = { λ s. s.links.items };

    ghost invariant = { λ s. MAX_LINKS ≤ vec_capacity s.links };
}

impl Links {
    /// No links, with room for one from each id to each id. Only this call allocates; `AllocError` is returned if there
    /// is not enough memory.
    pub fn make(alloc: Global) -> Result<Links, AllocError>
        ensures { IfOk result (λ made. made ≡ []) }
    {
        let links = Vec::with_capacity(alloc, MAX_LINKS)?;
        Ok(Links { links })
    }

    /// Replaces the links by those of this view, in ascending order of the ids that they leave and then of those that
    /// they enter. It allocates nothing.
    pub fn gather(&mut self, view: &View<'_>)
        requires { IsSound view.now }
        ensures { AreLinksOf self.new (seen view.now) }
    {
        self.links.clear();
        for from in 0..view.ids_used() {
            push_links(&mut self.links, view, from);
        }
    }

    /// The links that were gathered last.
    pub fn as_slice(&self) -> &[Link]
        ensures { result.now ≡ self.now }
    {
        self.links.as_slice()
    }
}

/// Appends the links that leave `from`. The links that leave the ids below it are there already.
fn push_links(links: &mut Vec<Link>, view: &View<'_>, from: u32)
    requires sound { IsSound view.now }
    requires id { from < MAX_PARTITIONS }
    requires before { AreLinksBefore links.old.items (seen view.now) from 0 }
    requires room { MAX_LINKS ≤ vec_capacity links.old }
    ensures before { AreLinksBefore links.new.items (seen view.now) (from + 1) 0 }
    ensures room { MAX_LINKS ≤ vec_capacity links.new }
{
    let mut reached = 0;
    while let Some(to) = view.next_target(from, reached) {
        links.push_reserved(Link { from, to });
        reached = to + 1;
    }
}
