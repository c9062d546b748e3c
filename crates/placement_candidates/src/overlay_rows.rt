ghost use Rattle.std.specs.Prelude.{◌≡◌, ◌+◌, ◌-◌, ◌*◌, ◌%◌, ◌^◌, ◌<◌, ◌≤◌, ◌∷◌, ◌++◌, [], if◌then◌else◌};
ghost use Rattle.placement_programme.specs.Rows.{block_row, object_row, static_data, static_code, overlay_data, overlay_code, kept_data};
ghost use Rattle.placement_candidates.specs.{FullVars.{plain_weights}, OverlayRows.{IsSmall, IsCandidate, IsDatum, IsPart, rows_layout, weights_of}};

use crate::row_ranges::RowRange;
use crate::variables::Weights;
use crate::weight_rows::JOB_BYTES;
use placement_programme::VarName;

/// What the rows with overlay depend on.
#[derive(Clone, Copy)]
pub(crate) struct OverlayRows {
    /// How many regions there are.
    pub(crate) regions: u32,
    pub(crate) blocks: u32,
    /// Places keep their distance from a multiple of this, in bytes.
    pub(crate) grain: u32,
}

/// An object as the rows see it.
#[derive(Clone, Copy)]
pub(crate) struct RowDatum {
    pub(crate) number: u32,
    /// The bytes of the scratchpad that it takes.
    pub(crate) span: u64,
    pub(crate) writable: bool,
}

/// A piece of code as the rows see it.
#[derive(Clone, Copy)]
pub(crate) struct RowPart {
    /// The numbers of its first and of its last block.
    pub(crate) first: u32,
    pub(crate) last: u32,
    /// The bytes of the scratchpad that it takes.
    pub(crate) span: u64,
    /// The patch bytes of its job, its image, and its stubs.
    pub(crate) patch: u64,
}

/// What may be taken, and what it weighs.
#[derive(Clone, Copy)]
pub(crate) struct RowItem {
    pub(crate) name: VarName,
    /// The regions in which it takes space, and how much.
    pub(crate) region: u32,
    pub(crate) regions: u32,
    pub(crate) span: u64,
    pub(crate) patch: u64,
    /// The rows in which it weighs 1: those of its blocks, or of its object.
    pub(crate) row: u32,
    pub(crate) rows: u32,
}

/// What an item weighs.
pub(crate) fn weights_of(rows: &OverlayRows, item: &RowItem) -> Weights
    requires small { IsSmall rows.now }
    requires space { item.now.region + item.now.regions < 2 ^ 32 }
    requires own { item.now.row + item.now.rows < 2 ^ 32 }
    ensures { plain_weights result ≡ weights_of rows.now item.now }
{
    let space = RowRange {
        first: item.region,
        count: item.regions,
        value: item.span,
    };
    let patch = RowRange {
        first: rows.regions + 1,
        count: 1,
        value: item.patch,
    };
    let own = RowRange {
        first: item.row,
        count: item.rows,
        value: 1,
    };
    Weights { space, patch, own }
}

/// The row of block `b`.
fn block_row(rows: &OverlayRows, b: u32) -> u32
    requires small { IsSmall rows.now }
    requires few { b < 65536 }
    ensures is { result ≡ block_row (rows_layout rows.now) b }
    ensures small { result < 131072 }
{
    rows.regions + 2 + b
}

/// The row of object `o` in region `r`.
fn object_row(rows: &OverlayRows, o: u32, r: u32) -> u32
    requires small { IsSmall rows.now }
    requires few { o < 4096 }
    requires region { r ≤ 8 }
    requires some { 1 ≤ r }
    ensures is { result ≡ object_row (rows_layout rows.now) o r }
    ensures small { result < 131072 }
{
    rows.regions + 2 + rows.blocks + o * rows.regions + r - 1
}

/// The patch bytes of an object that is overlaid: its job, and one back where it is written.
fn overlay_bytes(datum: &RowDatum) -> u64
    ensures { result ≡ (44 + (if datum.now.writable then 44 else 0)) }
{
    if datum.writable {
        2 * JOB_BYTES
    } else {
        JOB_BYTES
    }
}

/// An object that stands in the scratchpad throughout.
pub(crate) fn static_data(rows: &OverlayRows, datum: &RowDatum) -> RowItem
    requires small { IsSmall rows.now }
    requires few { datum.now.number < 4096 }
    ensures { IsCandidate rows.now result (λ d. IsDatum rows.now datum.now d) static_data }
{
    RowItem {
        name: VarName::StaticData {
            object: datum.number,
        },
        region: 0,
        regions: rows.regions + 1,
        span: datum.span,
        patch: JOB_BYTES,
        row: object_row(rows, datum.number, 1),
        rows: rows.regions,
    }
}

/// An object that does while region `r` is current.
pub(crate) fn overlay_data(rows: &OverlayRows, r: u32, datum: &RowDatum) -> RowItem
    requires small { IsSmall rows.now }
    requires few { datum.now.number < 4096 }
    requires region { r ≤ 8 }
    requires some { 1 ≤ r }
    ensures { IsCandidate rows.now result (λ d. IsDatum rows.now datum.now d) (overlay_data r) }
{
    RowItem {
        name: VarName::OverlayData {
            region: r,
            object: datum.number,
        },
        region: r,
        regions: 1,
        span: datum.span,
        patch: overlay_bytes(datum),
        row: object_row(rows, datum.number, r),
        rows: 1,
    }
}

/// An object that does while either region of a pair is current.
pub(crate) fn kept_data(rows: &OverlayRows, pair: u32, datum: &RowDatum) -> RowItem
    requires small { IsSmall rows.now }
    requires few { datum.now.number < 4096 }
    requires pair { pair ≤ 4 }
    requires some { 1 ≤ pair }
    ensures { IsCandidate rows.now result (λ d. IsDatum rows.now datum.now d) (kept_data pair) }
{
    let twin = 2 * pair - 1;
    RowItem {
        name: VarName::KeptData {
            pair,
            object: datum.number,
        },
        region: twin,
        regions: 2,
        span: datum.span,
        patch: 2 * overlay_bytes(datum),
        row: object_row(rows, datum.number, twin),
        rows: 2,
    }
}

/// A piece of code that is copied throughout.
pub(crate) fn static_code(rows: &OverlayRows, part: &RowPart) -> RowItem
    requires small { IsSmall rows.now }
    requires ordered { part.now.first ≤ part.now.last }
    requires few { part.now.last < 65536 }
    ensures { IsCandidate rows.now result (λ c. IsPart rows.now part.now c) static_code }
{
    RowItem {
        name: VarName::StaticCode {
            first: part.first,
            last: part.last,
        },
        region: 0,
        regions: rows.regions + 1,
        span: part.span,
        patch: part.patch,
        row: block_row(rows, part.first),
        rows: part.last + 1 - part.first,
    }
}

/// A piece of code that is while region `r` is current.
pub(crate) fn overlay_code(rows: &OverlayRows, r: u32, part: &RowPart) -> RowItem
    requires small { IsSmall rows.now }
    requires ordered { part.now.first ≤ part.now.last }
    requires few { part.now.last < 65536 }
    requires region { r ≤ 8 }
    ensures { IsCandidate rows.now result (λ c. IsPart rows.now part.now c) (overlay_code r) }
{
    RowItem {
        name: VarName::OverlayCode {
            region: r,
            first: part.first,
            last: part.last,
        },
        region: r,
        regions: 1,
        span: part.span,
        patch: part.patch,
        row: block_row(rows, part.first),
        rows: part.last + 1 - part.first,
    }
}
