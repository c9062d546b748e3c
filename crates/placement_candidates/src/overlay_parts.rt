ghost use Rattle.std.specs.Prelude.{◌≡◌, ℕ, ◌+◌, ◌-◌, ◌*◌, ◌/◌, ◌%◌, ◌^◌, ◌<◌, ◌≤◌, ◌++◌, ◌∷◌, [], true, false, map, length, replicate, slice_index_or, if◌then◌else◌, IfOk};
ghost use Rattle.std.specs.List.{All, filter, sum_by};
ghost use Rattle.object_graph.specs.Lookups.{IsSomeGraph};
ghost use Rattle.block_splitter.specs.Forms.{is_site, body_at, kind_of, displaced_size};
ghost use Rattle.cell_values.specs.Objects.{object_of, datum_of};
ghost use Rattle.placement_programme.specs.Rows.{checking_stub_bytes, fixed_bytes, on_capacities, on_code_bytes};
ghost use Rattle.placement_candidates.specs.{OverlayRows.{IsDatum, IsPart}, OverlayCounted.{scene_in, layout_in, rows_in, CanWeigh, CanWeighPiece}, Stated.{is_border, displaced_at, part_of}, Overlaid.{displaced_at_border, displaced_below}};

use crate::measured::Measured;
use crate::objects::{data_span, object_at};
use crate::overlay_rows::{OverlayRows, RowDatum, RowPart};
use crate::pieces::code_span;
use crate::weight_rows::{JOB_BYTES, STUB_BYTES};
use block_splitter::{Piece, UnitKind, kind_of};
use board_config::Board;
use code_blocks::Block;
use std::alloc::{AllocError, Global};

/// How many words a unit has at most where it is displaced.
fn displaced_size(kind: &UnitKind) -> u32
    ensures is { result ≡ displaced_size kind.now }
    ensures small { result ≤ 3 }
{
    match *kind {
        UnitKind::Jump { .. } | UnitKind::Tail { .. } | UnitKind::Indirect | UnitKind::Halt => 1,
        UnitKind::Plain => 2,
        UnitKind::Upper { .. }
        | UnitKind::Branch { .. }
        | UnitKind::Call { .. }
        | UnitKind::Linking { .. } => 3,
    }
}

/// The words of the displaced first unit of block `b`.
fn displaced_at(m: &Measured<'_>, b: usize) -> u32
    requires weigh { CanWeigh m.now }
    requires inside { b < length m.now.code.now.blocks.items }
    ensures is { result ≡ displaced_at (scene_in m.now) b }
    ensures small { result ≤ 3 }
{
    let block: &Block = &m.code.blocks[b];
    displaced_size(&kind_of(m.graph, block, 0))
}

/// Whether control enters the region of block `b` there.
fn is_border(m: &Measured<'_>, b: usize) -> bool
    requires weigh { CanWeigh m.now }
    requires inside { b < length m.now.code.now.blocks.items }
    ensures { result ≡ is_border (scene_in m.now) b }
{
    m.regions.border[b]
}

/// The bytes of a checking stub at block `b`, if control enters a region there.
fn stub_bytes(m: &Measured<'_>, b: usize) -> u64
    requires weigh { CanWeigh m.now }
    requires inside { b < length m.now.code.now.blocks.items }
    ensures sum { result ≡ sum_by checking_stub_bytes (displaced_at_border (scene_in m.now) b) }
    ensures small { result ≤ 100 }
{
    if is_border(m, b) {
        4 * (22 + u64::from(displaced_at(m, b)))
    } else {
        0
    }
}

/// The bytes of all checking stubs.
fn stubs_bytes(m: &Measured<'_>) -> u64
    requires { CanWeigh m.now }
    ensures sum { result ≡ sum_by checking_stub_bytes (displaced_below (scene_in m.now) (length m.now.code.now.blocks.items)) }
    ensures small { result ≤ 6553600 }
{
    let mut total = 0;
    for b in 0..m.code.blocks.len() {
        total += stub_bytes(m, b);
    }
    total
}

/// The bytes of the switch routine with so many regions, without its jobs.
fn routine_bytes(regions: u32, board: &Board) -> u64
    requires { regions ≤ 8 }
    ensures sum { result ≡ (4 * (5 + 6 * regions) + (if board.now.fence_i then 4 else 0) + 48 * (if board.now.twins then regions / 2 else 0)) }
    ensures small { result ≤ 1000 }
{
    let pairs = if board.twins { regions / 2 } else { 0 };
    let fence = if board.fence_i { 4 } else { 0 };
    u64::from(4 * (5 + 6 * regions) + fence + 48 * pairs)
}

/// The bytes of the start stub and of the control words.
fn start_bytes(board: &Board) -> u64
    ensures { result ≡ (84 + (if board.now.fence_i then 4 else 0)) }
{
    if board.fence_i { 88 } else { 84 }
}

/// The patch bytes with overlay that no variable changes.
pub(crate) fn fixed_bytes(m: &Measured<'_>) -> u64
    requires { CanWeigh m.now }
    ensures sum { result ≡ fixed_bytes (layout_in m.now) }
    ensures small { result < 2 ^ 32 }
{
    start_bytes(m.board) + stubs_bytes(m) + routine_bytes(m.regions.count, m.board)
}

/// What the rows with overlay can hold, where so many patch bytes are left.
pub(crate) fn capacities(alloc: Global, m: &Measured<'_>, left: u64) -> Result<Vec<u64>, AllocError>
    requires weigh { CanWeigh m.now }
    requires left { left ≡ m.now.board.now.patch.size - fixed_bytes (layout_in m.now) }
    ensures { IfOk result (λ rows. rows.items ≡ on_capacities (layout_in m.now)) }
{
    let regions = m.regions.count as usize;
    let blocks = vec![in alloc; 1; m.code.blocks.len()]?;
    let objects = vec![in alloc; 1; m.graph.objects.len() * regions]?;
    let mut rows = vec![in alloc; u64::from(m.board.spm.size); regions + 1]?;
    rows.push(left)?;
    rows.extend_from_slice(&blocks)?;
    rows.extend_from_slice(&objects)?;
    Ok(rows)
}

/// Object `o` as the rows see it.
pub(crate) fn datum_of(m: &Measured<'_>, o: u32) -> RowDatum
    requires weigh { CanWeigh m.now }
    requires inside { o < length m.now.graph.now.objects.items }
    ensures is { IsDatum (rows_in m.now) result (datum_of m.now.graph.now o) }
    ensures number { result.number ≡ o }
{
    let object = object_at(m.graph, o as usize);
    RowDatum {
        number: o,
        span: data_span(&object, m.board.grain),
        writable: object.writable,
    }
}

/// The bytes of the displaced words at an entry, if control enters a region there.
fn entry_bytes(m: &Measured<'_>, b: u32) -> u64
    requires weigh { CanWeigh m.now }
    requires inside { b < length m.now.code.now.blocks.items }
    ensures sum { result ≡ (if is_border (scene_in m.now) b then 4 * displaced_at (scene_in m.now) b else 0) }
    ensures small { result ≤ 12 }
{
    if is_border(m, b as usize) {
        4 * u64::from(displaced_at(m, b as usize))
    } else {
        0
    }
}

/// The bytes of the displaced words at the entries of a piece.
fn entries_bytes(m: &Measured<'_>, entries: &[u32]) -> u64
    requires weigh { CanWeigh m.now }
    requires few { length entries.now ≤ 65536 }
    requires inside { All (λ b. b < length m.now.code.now.blocks.items) entries.now }
    ensures sum { result ≡ sum_by (λ words. 4 * words) (map (displaced_at (scene_in m.now)) (filter (is_border (scene_in m.now)) entries.now)) }
{
    let mut total = 0;
    for k in 0..entries.len() {
        total += entry_bytes(m, entries[k]);
    }
    total
}

/// The patch bytes of a piece with overlay: its copy job, its image, and a stub for each entry, less the displaced
/// words of those that are checked.
fn patch_bytes(m: &Measured<'_>, piece: &Piece) -> u64
    requires weigh { CanWeigh m.now }
    requires piece { CanWeighPiece m.now piece.now }
    ensures { result ≡ 44 + piece.now.bytes + 8 * length piece.now.entries.items - sum_by (λ words. 4 * words) (map (displaced_at (scene_in m.now)) (filter (is_border (scene_in m.now)) piece.now.entries.items)) }
{
    let stubs = JOB_BYTES + u64::from(piece.bytes) + STUB_BYTES * piece.entries.len() as u64;
    stubs.saturating_sub(entries_bytes(m, &piece.entries))
}

/// A piece as the rows see it.
pub(crate) fn part_of(m: &Measured<'_>, piece: &Piece) -> RowPart
    requires weigh { CanWeigh m.now }
    requires piece { CanWeighPiece m.now piece.now }
    ensures is { IsPart (rows_in m.now) result (part_of (scene_in m.now) piece.now) }
    ensures first { result.first ≡ piece.now.first }
    ensures last { result.last ≡ piece.now.last }
{
    RowPart {
        first: piece.first,
        last: piece.last,
        span: code_span(piece.bytes, m.board.grain),
        patch: patch_bytes(m, piece),
    }
}

/// How many rows there are.
pub(crate) fn rows_of(m: &Measured<'_>) -> OverlayRows
    requires { CanWeigh m.now }
    ensures { result ≡ rows_in m.now }
{
    OverlayRows {
        regions: m.regions.count,
        blocks: m.code.blocks.len() as u32,
        grain: m.board.grain,
    }
}
