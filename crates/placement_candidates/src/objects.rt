ghost use Rattle.std.specs.Prelude.{◌≡◌, ◌+◌, ◌-◌, ◌*◌, ◌/◌, ◌%◌, ◌^◌, ◌<◌, ◌≤◌, ◌∷◌, ◌++◌, [], pos, ◌-ℤ◌, map, length, IfOk, OnOk};
ghost use Rattle.cell_values.specs.Objects.{object_of};
ghost use Rattle.placement_programme.specs.Rows.{rounded_up};
ghost use Rattle.placement_candidates.specs.{FullVars.{plain_weights, plain_full_var}, Counted.{total, reads_of, writes_of, home_price, moved_price, counted_gain, counted_var, counted_vars, CountsAccesses}};

use crate::row_ranges::RowRange;
use crate::variables::{FullVar, Weights};
use crate::weight_rows::JOB_BYTES;
use board_config::{Board, Prices};
use energy_model::{into_price, object_rounds};
use object_graph::{Graph, Object};
use placement_programme::VarName;
use profile_runner::Profile;
use std::alloc::{AllocError, Global};

/// The counts of a row, summed.
fn total(row: &[u64]) -> u128
    ensures sum { result ≡ total row.now }
    ensures small { result ≤ length row.now * 18446744073709551615 }
{
    let mut total: u128 = 0;
    for count in row {
        total += u128::from(*count);
    }
    total
}

/// What so many reads and writes cost, at these prices.
fn accesses_price(reads: u128, writes: u128, read: u32, write: u32) -> u128
    requires reads { reads ≤ 1000000000 }
    requires writes { writes ≤ 1000000000 }
    ensures sum { result ≡ reads * read + writes * write }
    ensures small { result < 2 ^ 70 }
{
    reads * u128::from(read) + writes * u128::from(write)
}

/// What an object with so many reads and writes saves in the scratchpad, less the price of its copy.
fn gain(reads: u128, writes: u128, object: &Object, prices: &Prices) -> i128
    requires reads { reads ≤ 1000000000 }
    requires writes { writes ≤ 1000000000 }
    ensures { result ≡ pos (home_price prices.now reads writes) -ℤ pos (moved_price prices.now reads writes object.now) }
{
    let home = accesses_price(reads, writes, prices.main_read, prices.main_write);
    let moved = accesses_price(reads, writes, prices.spm_read, prices.spm_write);
    home as i128 - (moved + into_price(object_rounds(object), prices)) as i128
}

/// The bytes of the scratchpad that an object takes, with those before it in its first chunk.
pub fn data_span(object: &Object, grain: u32) -> u64
    requires { 0 < grain }
    ensures { result ≡ rounded_up grain (object.now.home % grain + object.now.size) }
{
    let bytes = u64::from(object.home % grain) + u64::from(object.size);
    let chunks = (bytes + (u64::from(grain) - 1)) / u64::from(grain);
    chunks * u64::from(grain)
}

/// How often object `k` was read.
fn reads_of(profile: &Profile, k: usize) -> u128
    requires { k < length profile.now.reads.items }
    ensures { result ≡ reads_of profile.now k }
{
    total(&profile.reads[k])
}

/// How often object `k` was written.
fn writes_of(profile: &Profile, k: usize) -> u128
    requires { k < length profile.now.writes.items }
    ensures { result ≡ writes_of profile.now k }
{
    total(&profile.writes[k])
}

/// Object `k` of a graph.
pub fn object_at(graph: &Graph, k: usize) -> Object
    requires { k < length graph.now.objects.items }
    ensures { result ≡ object_of graph.now k }
{
    graph.objects[k]
}

/// What object `k` saves throughout.
pub fn data_gain(profile: &Profile, graph: &Graph, k: usize, prices: &Prices) -> i128
    requires inside { k < length graph.now.objects.items }
    requires accesses { CountsAccesses graph.now profile.now }
    ensures { result ≡ counted_gain prices.now profile.now graph.now k }
{
    let object = object_at(graph, k);
    let reads = reads_of(profile, k);
    let writes = writes_of(profile, k);
    gain(reads, writes, &object, prices)
}

/// What an object weighs: its space, and its copy job.
fn weights(object: &Object, grain: u32) -> Weights
    requires { 0 < grain }
    ensures { plain_weights result ≡ (0, rounded_up grain (object.now.home % grain + object.now.size)) ∷ (1, 44) ∷ [] }
{
    let space = RowRange {
        first: 0,
        count: 1,
        value: data_span(object, grain),
    };
    let patch = RowRange {
        first: 1,
        count: 1,
        value: JOB_BYTES,
    };
    let own = RowRange {
        first: 2,
        count: 0,
        value: 1,
    };
    Weights { space, patch, own }
}

/// The variable of object `k`.
fn var_of(profile: &Profile, graph: &Graph, k: usize, board: &Board) -> FullVar
    requires inside { k < length graph.now.objects.items }
    requires accesses { CountsAccesses graph.now profile.now }
    requires grain { 0 < board.now.grain }
    ensures { plain_full_var result ≡ counted_var board.now.prices profile.now graph.now board.now.grain k }
{
    let object = object_at(graph, k);
    let name = VarName::StaticData { object: k as u32 };
    FullVar {
        name,
        gain: data_gain(profile, graph, k, &board.prices),
        weights: weights(&object, board.grain),
    }
}

/// The variable of object `k` behind those before it.
fn push_var(
    vars: &mut Vec<FullVar>,
    profile: &Profile,
    graph: &Graph,
    k: usize,
    board: &Board,
) -> Result<(), AllocError>
    requires inside { k < length graph.now.objects.items }
    requires accesses { CountsAccesses graph.now profile.now }
    requires grain { 0 < board.now.grain }
    ensures { OnOk result (map plain_full_var vars.new.items ≡ map plain_full_var vars.old.items ++ counted_var board.now.prices profile.now graph.now board.now.grain k ∷ []) }
{
    let var = var_of(profile, graph, k, board);
    match vars.push(var) {
        Ok(()) => Ok(()),
        Err(error) => Err(error.into()),
    }
}

/// The variables of all objects, by home.
pub(crate) fn data_vars(
    alloc: Global,
    profile: &Profile,
    graph: &Graph,
    board: &Board,
) -> Result<Vec<FullVar>, AllocError>
    requires accesses { CountsAccesses graph.now profile.now }
    requires grain { 0 < board.now.grain }
    ensures { IfOk result (λ vars. map plain_full_var vars.items ≡ counted_vars board.now.prices profile.now graph.now board.now.grain (length graph.now.objects.items)) }
{
    let count = graph.objects.len();
    let mut vars = Vec::new(alloc);
    for k in 0..count {
        push_var(&mut vars, profile, graph, k, board)?;
    }
    Ok(vars)
}
