ghost use Rattle.std.specs.Prelude.{◌≡◌, ◌<◌, ℕ, true, false, length, slice_index_or, slice_set, MatchResult, OnOk};
ghost use Rattle.std.specs.List.{All};
ghost use Rattle.profile_runner.specs.Tallies.{with_edge, Ascend, IsFoundAt, IsGapAt, plain_edges, edge_row};

use crate::counts::Edge;
use crate::edge_row::EdgeRow;
use std::alloc::AllocError;

/// One more edge to `to` among the edges of block `from`, which lead to ascending blocks.
pub(crate) fn add_edge(row: &mut Vec<Edge>, from: u32, to: u32) -> Result<(), AllocError>
    requires ascending { Ascend 0 row.old.items }
    requires room { All (λ e. e.count < 18446744073709551615) row.old.items }
    ensures { OnOk result (row.new.items ≡ with_edge row.old.items from to) }
{
    match search_edge(row, to) {
        Ok(place) => row[place].count += 1,
        Err(place) => row.insert(place, Edge { from, to, count: 1 })?,
    }
    Ok(())
}

/// Counts the edge to `to`, if it is one of these, and tells whether it is. The first two are looked at first: most blocks
/// have no more.
#[inline(always)]
pub(crate) fn count_known(row: &mut Vec<Edge>, to: u32) -> bool
    requires ascending { Ascend 0 row.old.items }
    requires room { All (λ e. e.count < 18446744073709551615) row.old.items }
    ensures known { result ≡ true → (from : ℕ) → row.new.items ≡ with_edge row.old.items from to }
    ensures other { result ≡ false → row.new.items ≡ row.old.items }
{
    if leads_to(row, 0, to) {
        count_at(row, 0, to);
        return true;
    }
    if leads_to(row, 1, to) {
        count_at(row, 1, to);
        return true;
    }
    match search_edge(row, to) {
        Ok(place) => {
            count_at(row, place, to);
            true
        }
        Err(_) => false,
    }
}

/// Counts edge `k`, which leads to `to`.
#[inline(always)]
fn count_at(row: &mut Vec<Edge>, k: usize, to: u32)
    requires found { IsFoundAt row.old.items to k }
    requires room { All (λ e. e.count < 18446744073709551615) row.old.items }
    ensures { (from : ℕ) → row.new.items ≡ with_edge row.old.items from to }
{
    row[k].count += 1;
}

/// Whether there is an edge `k`, which leads to `to`.
#[inline(always)]
fn leads_to(row: &[Edge], k: usize, to: u32) -> bool
    requires { Ascend 0 row.now }
    ensures { result ≡ true → IsFoundAt row.now to k }
{
    is_edge_to(row, k, to)
}

/// The same, by the list.
#[inline(always)]
fn is_edge_to(row: &[Edge], k: usize, to: u32) -> bool
    ensures { result ≡ true → (k < length row.now) × ((d : Edge) → (slice_index_or row.now k d).to ≡ to) }
{
    k < row.len() && row[k].to == to
}

/// The place of the edge to `to`, or that where it belongs, by binary search.
#[inline(never)]
fn search_edge(row: &[Edge], to: u32) -> Result<usize, usize>
    requires { Ascend 0 row.now }
    ensures { MatchResult result (IsFoundAt row.now to) (IsGapAt row.now to) }
{
    let place = row.partition_point(|edge| edge.to < to);
    if place == row.len() {
        return Err(place);
    }
    if row[place].to == to {
        Ok(place)
    } else {
        Err(place)
    }
}

/// One more edge from block `from` to block `to`.
#[inline(always)]
pub(crate) fn add_edge_in(rows: &mut Vec<EdgeRow>, from: u32, to: u32) -> Result<(), AllocError>
    requires row { from < length rows.old.items }
    requires begun { All (λ e. e.from ≡ from) (edge_row (plain_edges rows.old.items) from) }
    requires ascending { Ascend 0 (edge_row (plain_edges rows.old.items) from) }
    requires room { All (λ e. e.count < 18446744073709551615) (edge_row (plain_edges rows.old.items) from) }
    ensures { OnOk result (plain_edges rows.new.items ≡ slice_set (plain_edges rows.old.items) from (with_edge (edge_row (plain_edges rows.old.items) from) from to)) }
{
    match rows[from as usize].add(from, to) {
        Ok(()) => Ok(()),
        Err(error) => Err(error),
    }
}
