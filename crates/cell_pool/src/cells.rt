//! Cells in lists, each in one list at any time.
ghost use Rattle.std.specs.Prelude.{◌≡◌, ◌≢◌, ℕ, ◌+◌, ◌-◌, ◌^◌, ◌<◌, ◌≤◌, [], ◌∷◌, ◌++◌, Some, None, length, map, replicate, slice_get, slice_set, nat_lt, if◌then◌else◌, IfOk, Contains};
ghost use Rattle.std.specs.List.{range_with_len};
ghost use Rattle.cell_pool.specs.Tables.{row_at, without, StandsIn, HasCells, KeepsCells};
ghost use Rattle.cell_pool.specs.Chains.{next_at_start, prev_at_start};
ghost use Rattle.cell_pool.specs.Rooms.{IsUnwritten};

use std::alloc::{AllocError, Global};
use std::marker::Model;

/// Cells in lists. Cells and lists count from 0. Contracts see a list of lists of cells, in which each cell stands
/// exactly once. A cell that is moved goes to the end of a list. Every call takes a few steps, however long the lists
/// are. [`CellsRoom`] makes them.
#[derive(Drop)]
pub struct Cells {
    /// The node after each node. The nodes are the cells and, after them, a head for each list, where it begins and
    /// ends.
    next: Vec<u32>,
    /// The node before each node.
    prev: Vec<u32>,
    cells: u32,
    lists: u32,
}

impl Model for Cells {
    ghost use Rattle.std.specs.Prelude.{List, ℕ};
    ghost use Rattle.cell_pool.specs.Chains.{table_of, IsTable};

    ghost Value = { List (List ℕ) };

    ghost view = { λ s. table_of s.next.items s.cells s.lists };

    ghost invariant = { λ s. IsTable s.next.items s.prev.items s.cells s.lists
        (table_of s.next.items s.cells s.lists) };
}

/// Makes node b follow node a.
fn join(next: &mut Vec<u32>, prev: &mut Vec<u32>, a: u32, b: u32)
    requires a_in { a < length next.old.items }
    requires b_in { b < length prev.old.items }
    ensures next { next.new.items ≡ slice_set next.old.items a b }
    ensures prev { prev.new.items ≡ slice_set prev.old.items b a }
{
    next[a as usize] = b;
    prev[b as usize] = a;
}

/// The node if it is a cell; `None` if it is not.
fn cell_of(node: u32, cells: u32) -> Option<u32>
    ensures { result ≡ (if nat_lt node cells then Some node else None) }
{
    if node < cells {
        return Some(node);
    }
    None
}

/// The node after a node when all cells stand in list 0.
fn next_of(cells: u32, node: u32) -> u32
    ensures { result ≡ next_at_start cells node }
{
    if node < cells {
        return node + 1;
    }
    if node == cells {
        return 0;
    }
    node
}

/// The node before a node when all cells stand in list 0.
fn prev_of(cells: u32, node: u32) -> u32
    ensures { result ≡ prev_at_start cells node }
{
    if node == 0 {
        return cells;
    }
    if node <= cells {
        return node - 1;
    }
    node
}

/// Writes the node after each node when all cells stand in list 0.
fn write_next(next: &mut Vec<u32>, cells: u32, nodes: u32)
    requires { IsUnwritten next.old nodes }
    ensures { next.new.items ≡ map (next_at_start cells) (range_with_len 0 nodes) }
{
    for node in 0..nodes {
        next.push_reserved(next_of(cells, node));
    }
}

/// Writes the node before each node when all cells stand in list 0.
fn write_prev(prev: &mut Vec<u32>, cells: u32, nodes: u32)
    requires { IsUnwritten prev.old nodes }
    ensures { prev.new.items ≡ map (prev_at_start cells) (range_with_len 0 nodes) }
{
    for node in 0..nodes {
        prev.push_reserved(prev_of(cells, node));
    }
}

/// The memory of cells in lists, before anything is written to it. Contracts see how many cells and lists there are to
/// be.
#[derive(Drop)]
pub struct CellsRoom {
    next: Vec<u32>,
    prev: Vec<u32>,
    cells: u32,
    lists: u32,
}

impl Model for CellsRoom {
    ghost use Rattle.std.specs.Prelude.{◌+◌, ◌^◌, ◌<◌, ◌≤◌};
    ghost use Rattle.cell_pool.specs.Rooms.{CellCounts, IsUnwritten};

    ghost Value = { CellCounts };

    ghost view = { λ r. record { cells = r.cells; lists = r.lists } };

    ghost invariant = { λ r. IsUnwritten r.next (r.cells + r.lists)
        × IsUnwritten r.prev (r.cells + r.lists)
        × (1 ≤ r.lists) × (r.cells + r.lists < 2 ^ 32) };
}

impl CellsRoom {
    /// Room for this many cells and lists, at least one list. Cells and lists together are fewer than 2^32. Only this
    /// call allocates; `AllocError` is returned if there is not enough memory.
    pub fn make(alloc: Global, cells: u32, lists: u32) -> Result<CellsRoom, AllocError>
        requires some { 1 ≤ lists }
        requires few { cells + lists < 2 ^ 32 }
        ensures { IfOk result (λ room. room ≡ record { cells = cells; lists = lists }) }
    {
        let nodes = (cells + lists) as usize;
        let next = Vec::with_capacity(alloc, nodes)?;
        let prev = Vec::with_capacity(alloc, nodes)?;
        Ok(CellsRoom {
            next,
            prev,
            cells,
            lists,
        })
    }

    /// The cells, all of them in list 0 and ascending. It takes a step for each cell and each list.
    pub fn fill(self) -> Cells
        ensures lists { result ≡ range_with_len 0 self.cells ∷ replicate (self.lists - 1) [] }
        ensures cells { HasCells result self.cells }
    {
        let CellsRoom {
            mut next,
            mut prev,
            cells,
            lists,
        } = self;
        write_next(&mut next, cells, cells + lists);
        write_prev(&mut prev, cells, cells + lists);
        Cells {
            next,
            prev,
            cells,
            lists,
        }
    }
}

impl Cells {
    /// Moves a cell from list `from`, in which it stands, to the end of list `to`. The two lists are different. The
    /// other cells of `from` keep their order, and all other lists stay.
    pub fn move_to(&mut self, cell: u32, from: u32, to: u32)
        requires from_list { from < length self.old }
        requires to_list { to < length self.old }
        requires apart { from ≢ to }
        requires stands { Contains (row_at self.old from) cell }

        // The lists after the call, with the same cells in all.
        ensures lists { self.new ≡ slice_set
            (slice_set self.old from (without (row_at self.old from) cell))
            to (row_at self.old to ++ cell ∷ []) }
        ensures cells { KeepsCells self.old self.new }
    {
        let before = self.prev[cell as usize];
        let behind = self.next[cell as usize];
        join(&mut self.next, &mut self.prev, before, behind);
        let head = self.cells + to;
        let last = self.prev[head as usize];
        join(&mut self.next, &mut self.prev, last, cell);
        join(&mut self.next, &mut self.prev, cell, head);
    }

    /// Appends the whole list `from` to list `to`, and leaves `from` empty. The two lists are different. All other
    /// lists stay.
    pub fn splice(&mut self, from: u32, to: u32)
        requires from_list { from < length self.old }
        requires to_list { to < length self.old }
        requires apart { from ≢ to }
        ensures lists { self.new ≡ slice_set (slice_set self.old from [])
            to (row_at self.old to ++ row_at self.old from) }
        ensures cells { KeepsCells self.old self.new }
    {
        let source = self.cells + from;
        let first = self.next[source as usize];
        if first == source {
            return;
        }
        let last = self.prev[source as usize];
        let head = self.cells + to;
        let end = self.prev[head as usize];
        join(&mut self.next, &mut self.prev, end, first);
        join(&mut self.next, &mut self.prev, last, head);
        join(&mut self.next, &mut self.prev, source, source);
    }

    /// The first cell of a list; `None` for an empty list.
    pub fn first(&self, list: u32) -> Option<u32>
        requires { list < length self.now }
        ensures { result ≡ slice_get (row_at self.now list) 0 }
    {
        cell_of(self.next[(self.cells + list) as usize], self.cells)
    }

    /// The cell that follows a cell in its list; `None` for the last cell of a list.
    pub fn next(&self, cell: u32) -> Option<u32>
        requires { StandsIn self.now cell }
        ensures { (list place : ℕ) → slice_get (row_at self.now list) place ≡ Some cell
            → result ≡ slice_get (row_at self.now list) (place + 1) }
    {
        cell_of(self.next[cell as usize], self.cells)
    }
}
