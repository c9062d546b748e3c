ghost use Rattle.std.specs.Prelude.{◌≡◌, ◌+◌, ◌-◌, ◌*◌, ◌^◌, ◌<◌, ◌≤◌, ◌∷◌, ◌++◌, [], pos, ◌-ℤ◌, map, length, IfOk, OnOk};
ghost use Rattle.std.specs.List.{All};
ghost use Rattle.placement_programme.specs.Rows.{rounded_up, in_rows};
ghost use Rattle.energy_model.specs.Counts.{most_run};
ghost use Rattle.placement_candidates.specs.{FullVars.{plain_weights, plain_full_var}, Counted.{copied_price, piece_weights, counted_code_gain, counted_code_var, CanCountPiece, AreTables}};

use crate::row_ranges::RowRange;
use crate::variables::{FullVar, Weights};
use crate::weight_rows::{JOB_BYTES, STUB_BYTES, push_rows};
use block_splitter::{BlockRange, Piece};
use board_config::{Board, Prices};
use code_blocks::Code;
use energy_model::{BlockCounts, PieceCounts, count_piece, into_price};
use object_graph::Graph;
use placement_programme::VarName;
use profile_runner::Profile;
use std::alloc::{AllocError, Global};

/// What the variables of pieces are made from.
#[derive(Drop)]
pub(crate) struct Tables<'a> {
    pub(crate) code: &'a Code,
    pub(crate) graph: &'a Graph,
    pub(crate) profile: &'a Profile,
    pub(crate) counts: &'a BlockCounts,
    pub(crate) board: &'a Board,
}

/// What a piece costs that is copied: its words, three for each time that control comes to it, and its copy job.
fn copied_price(counts: &PieceCounts, rounds: u32, prices: &Prices) -> u128
    requires copied { counts.now.copied ≤ most_run }
    requires came { counts.now.came ≤ 2 * most_run }
    ensures sum { result ≡ copied_price prices.now counts.now.copied counts.now.came rounds }
    ensures small { result < 2 ^ 100 }
{
    let fetches = counts.copied * u128::from(prices.spm_fetch);
    let pads = counts.came * (3 * u128::from(prices.main_fetch));
    fetches + pads + into_price(rounds, prices)
}

/// What a piece saves.
fn gain(counts: &PieceCounts, rounds: u32, prices: &Prices) -> i128
    requires home { counts.now.home ≤ most_run }
    requires copied { counts.now.copied ≤ most_run }
    requires came { counts.now.came ≤ 2 * most_run }
    ensures { result ≡ pos (counts.now.home * prices.now.main_fetch) -ℤ pos (copied_price prices.now counts.now.copied counts.now.came rounds) }
{
    let home = counts.home * u128::from(prices.main_fetch);
    home as i128 - copied_price(counts, rounds, prices) as i128
}

/// The bytes of the scratchpad that a copy takes.
pub fn code_span(bytes: u32, grain: u32) -> u64
    requires { 0 < grain }
    ensures { result ≡ rounded_up grain bytes }
{
    let chunks = (u64::from(bytes) + (u64::from(grain) - 1)) / u64::from(grain);
    chunks * u64::from(grain)
}

/// The patch bytes of a piece: its copy job, its image, and a stub for each entry.
fn patch_bytes(piece: &Piece) -> u64
    requires { length piece.now.entries.items ≤ 2 ^ 32 }
    ensures { result ≡ 44 + piece.now.bytes + 8 * length piece.now.entries.items }
{
    JOB_BYTES + u64::from(piece.bytes) + STUB_BYTES * piece.entries.len() as u64
}

/// What a piece weighs: its space, its patch bytes, and a row for each of its blocks.
fn weights(piece: &Piece, grain: u32) -> Weights
    requires grain { 0 < grain }
    requires ordered { piece.now.first ≤ piece.now.last }
    requires few { piece.now.last < 2 ^ 31 }
    requires entries { length piece.now.entries.items ≤ 2 ^ 32 }
    ensures { plain_weights result ≡ piece_weights grain piece.now }
{
    let space = RowRange {
        first: 0,
        count: 1,
        value: code_span(piece.bytes, grain),
    };
    let patch = RowRange {
        first: 1,
        count: 1,
        value: patch_bytes(piece),
    };
    let own = RowRange {
        first: 2 + piece.first,
        count: piece.last + 1 - piece.first,
        value: 1,
    };
    Weights { space, patch, own }
}

/// What a piece saves, by what the tables count of it.
fn gain_of(tables: &Tables<'_>, piece: &Piece) -> i128
    requires tables { AreTables tables.now.code.now tables.now.graph.now tables.now.profile.now tables.now.counts.now }
    requires piece { CanCountPiece tables.now.code.now piece.now }
    ensures { result ≡ counted_code_gain tables.now.board.now.prices tables.now.profile.now tables.now.code.now tables.now.graph.now piece.now }
{
    let range = BlockRange {
        first: piece.first,
        last: piece.last,
    };
    let counts = count_piece(
        tables.code,
        tables.graph,
        tables.profile,
        tables.counts,
        &range,
    );
    gain(&counts, piece.bytes / 4, &tables.board.prices)
}

/// The variable of a piece.
fn var_of(tables: &Tables<'_>, piece: &Piece) -> FullVar
    requires tables { AreTables tables.now.code.now tables.now.graph.now tables.now.profile.now tables.now.counts.now }
    requires piece { CanCountPiece tables.now.code.now piece.now }
    requires grain { 0 < tables.now.board.now.grain }
    ensures { plain_full_var result ≡ counted_code_var tables.now.board.now.prices tables.now.profile.now tables.now.code.now tables.now.graph.now tables.now.board.now.grain piece.now }
{
    let name = VarName::StaticCode {
        first: piece.first,
        last: piece.last,
    };
    FullVar {
        name,
        gain: gain_of(tables, piece),
        weights: weights(piece, tables.board.grain),
    }
}

/// The variable of a piece behind those before it.
fn push_var(vars: &mut Vec<FullVar>, tables: &Tables<'_>, piece: &Piece) -> Result<(), AllocError>
    requires tables { AreTables tables.now.code.now tables.now.graph.now tables.now.profile.now tables.now.counts.now }
    requires piece { CanCountPiece tables.now.code.now piece.now }
    requires grain { 0 < tables.now.board.now.grain }
    ensures { OnOk result (map plain_full_var vars.new.items ≡ map plain_full_var vars.old.items ++ counted_code_var tables.now.board.now.prices tables.now.profile.now tables.now.code.now tables.now.graph.now tables.now.board.now.grain piece.now ∷ []) }
{
    let var = var_of(tables, piece);
    match vars.push(var) {
        Ok(()) => Ok(()),
        Err(error) => Err(error.into()),
    }
}

/// Adds the variables of pieces, in their order.
pub(crate) fn push_vars(
    vars: &mut Vec<FullVar>,
    tables: &Tables<'_>,
    pieces: &[Piece],
) -> Result<(), AllocError>
    requires tables { AreTables tables.now.code.now tables.now.graph.now tables.now.profile.now tables.now.counts.now }
    requires pieces { All (CanCountPiece tables.now.code.now) pieces.now }
    requires grain { 0 < tables.now.board.now.grain }
    ensures { OnOk result (map plain_full_var vars.new.items ≡ map plain_full_var vars.old.items ++ map (counted_code_var tables.now.board.now.prices tables.now.profile.now tables.now.code.now tables.now.graph.now tables.now.board.now.grain) pieces.now) }
{
    for k in 0..pieces.len() {
        push_var(vars, tables, &pieces[k])?;
    }
    Ok(())
}
