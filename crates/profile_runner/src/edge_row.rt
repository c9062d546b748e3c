use crate::counts::Edge;
use crate::edge_counts::{Counts, add_count, append_counts, counts_of};
use crate::edges::{add_edge, count_known};
use std::alloc::AllocError;

/// How many edges from a block stand in one list at most: one that is new moves all behind it.
const MOST_LISTED: usize = 32;

/// The edges from a block, by where they lead.
#[derive(Drop)]
pub(crate) enum EdgeRow {
    /// A few, ascending.
    Few(Vec<Edge>),
    /// Many, from the block of this number.
    Many(u32, Counts),
}

impl EdgeRow {
    ghost use Rattle.std.specs.Prelude.{◌≡◌, ◌<◌, ◌++◌, ℕ, true, false, OnOk};
    ghost use Rattle.std.specs.List.{All};
    ghost use Rattle.profile_runner.specs.Tallies.{with_edge, Ascend, edges_of};

    /// One more edge from block `from` to block `to`.
    #[inline(always)]
    pub(crate) fn add(&mut self, from: u32, to: u32) -> Result<(), AllocError>
        requires begun { All (λ e. e.from ≡ from) (edges_of self.old) }
        requires ascending { Ascend 0 (edges_of self.old) }
        requires room { All (λ e. e.count < 18446744073709551615) (edges_of self.old) }
        ensures { OnOk result (edges_of self.new ≡ with_edge (edges_of self.old) from to) }
    {
        if self.count_listed(to) {
            return Ok(());
        }
        match self.add_other(from, to) {
            Ok(()) => Ok(()),
            Err(error) => Err(error),
        }
    }

    /// Counts an edge to `to` that is listed, and tells whether one is.
    #[inline(always)]
    fn count_listed(&mut self, to: u32) -> bool
        requires ascending { Ascend 0 (edges_of self.old) }
        requires room { All (λ e. e.count < 18446744073709551615) (edges_of self.old) }
        ensures listed { result ≡ true → (from : ℕ) → edges_of self.new ≡ with_edge (edges_of self.old) from to }
        ensures other { result ≡ false → edges_of self.new ≡ edges_of self.old }
    {
        match self {
            EdgeRow::Few(row) => count_known(row, to),
            EdgeRow::Many(_, _) => false,
        }
    }

    /// One more edge, which may be new.
    #[cold]
    #[inline(never)]
    fn add_other(&mut self, from: u32, to: u32) -> Result<(), AllocError>
        requires begun { All (λ e. e.from ≡ from) (edges_of self.old) }
        requires ascending { Ascend 0 (edges_of self.old) }
        requires room { All (λ e. e.count < 18446744073709551615) (edges_of self.old) }
        ensures { OnOk result (edges_of self.new ≡ with_edge (edges_of self.old) from to) }
    {
        self.spread(from)?;
        match self.add_here(from, to) {
            Ok(()) => Ok(()),
            Err(error) => Err(error),
        }
    }

    /// The same, where no more edges are listed than may be.
    fn add_here(&mut self, from: u32, to: u32) -> Result<(), AllocError>
        requires begun { All (λ e. e.from ≡ from) (edges_of self.old) }
        requires ascending { Ascend 0 (edges_of self.old) }
        requires room { All (λ e. e.count < 18446744073709551615) (edges_of self.old) }
        ensures { OnOk result (edges_of self.new ≡ with_edge (edges_of self.old) from to) }
    {
        match self {
            EdgeRow::Few(row) => match add_edge(row, from, to) {
                Ok(()) => Ok(()),
                Err(error) => Err(error),
            },
            EdgeRow::Many(begun, counts) => {
                *begun = from;
                match add_count(counts, to) {
                    Ok(()) => Ok(()),
                    Err(error) => Err(error),
                }
            }
        }
    }

    /// Makes many edges of those from block `from`, where as many are listed as may be.
    fn spread(&mut self, from: u32) -> Result<(), AllocError>
        requires begun { All (λ e. e.from ≡ from) (edges_of self.old) }
        requires ascending { Ascend 0 (edges_of self.old) }
        ensures { OnOk result (edges_of self.new ≡ edges_of self.old) }
    {
        let counts = match self {
            EdgeRow::Few(row) if row.len() >= MOST_LISTED => counts_of(*row.allocator(), row)?,
            _ => return Ok(()),
        };
        *self = EdgeRow::Many(from, counts);
        Ok(())
    }

    /// Puts the edges behind others.
    pub(crate) fn append_to(&self, edges: &mut Vec<Edge>) -> Result<(), AllocError>
        ensures { OnOk result (edges.new.items ≡ edges.old.items ++ edges_of self.now) }
    {
        match self {
            EdgeRow::Few(row) => {
                edges.extend_from_slice(row)?;
                Ok(())
            }
            EdgeRow::Many(from, counts) => match append_counts(edges, *from, counts) {
                Ok(()) => Ok(()),
                Err(error) => Err(error),
            },
        }
    }
}
