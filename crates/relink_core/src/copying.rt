ghost use Rattle.std.specs.Prelude.{◌≡◌, ℕ, ◌<◌, nat_lt, Bool, true, false, length, IfOk};
ghost use Rattle.std.specs.List.{AllPairs, list_any};
ghost use Rattle.std.specs.List.Sorted.{IsPartitionPoint};
ghost use Rattle.code_blocks.specs.declared.parts.Code.{Code};
ghost use Rattle.object_graph.specs.declared.parts.Graph.{Graph};
ghost use Rattle.block_splitter.specs.Pieces.{range_of, is_range_of, ComesBefore, IsPiece, ArePieces};
ghost use Rattle.relink_core.specs.Copies.{IsSource, CanPlace, CanPlaceAll, IsPlacedAt, ArePlacedCopies, comes_before};

use crate::copy_source::CopySource;
use crate::placed_copy::PlacedCopy;
use block_splitter::{BlockRange, Piece, copy_of};
use std::alloc::{AllocError, Global};

/// The copies of the pieces of some ranges of blocks, each at its place. It fails only where no memory was left.
///
/// The time grows with that of the copies, and for each piece with the logarithm of the number of all pieces.
pub fn copies(
    alloc: Global,
    source: &CopySource,
    ranges: &[BlockRange],
    places: &[u32],
) -> Result<Vec<PlacedCopy>, AllocError>
    requires source { IsSource source.now }
    requires many { length places.now ≡ length ranges.now }
    requires can { CanPlaceAll source.now.code.now source.now.graph.now ranges.now places.now }
    ensures { IfOk result (λ copies. ArePlacedCopies source.now ranges.now places.now copies.items) }
{
    let mut copies = Vec::new(alloc);
    for k in 0..ranges.len() {
        copies.push(copy_at(alloc, source, &ranges[k], places[k])?)?;
    }
    Ok(copies)
}

/// The copy of the piece of a range, at a place.
fn copy_at(
    alloc: Global,
    source: &CopySource,
    range: &BlockRange,
    at: u32,
) -> Result<PlacedCopy, AllocError>
    requires source { IsSource source.now }
    requires can { CanPlace source.now.code.now source.now.graph.now range.now at }
    ensures { IfOk result (IsPlacedAt source.now range.now at) }
{
    let piece = piece_of(source.pieces, range);
    match copy_of(
        alloc,
        piece,
        source.code,
        source.live,
        source.graph,
        at,
        source.sites,
    ) {
        Ok(code) => Ok(PlacedCopy {
            range: *range,
            at,
            code,
        }),
        Err(error) => Err(error),
    }
}

/// The piece of a range, by binary search.
pub(crate) fn piece_of<'a>(pieces: &'a [Piece], range: &BlockRange) -> &'a Piece
    requires ordered { AllPairs (λ p q. ComesBefore (range_of p) (range_of q)) pieces.now }
    requires has { list_any (is_range_of range.now) pieces.now ≡ true }
    ensures range { range_of result.now ≡ range.now }
    ensures piece { (c : Code) (g : Graph) → ArePieces c g pieces.now → IsPiece c g result.now }
{
    match pieces.get(pieces_before(pieces, range)) {
        Some(piece) => piece,
        None => unreachable!(),
    }
}

/// How many pieces come before that of a range.
fn pieces_before(pieces: &[Piece], range: &BlockRange) -> usize
    requires { AllPairs (λ p q. ComesBefore (range_of p) (range_of q)) pieces.now }
    ensures { IsPartitionPoint (λ p. comes_before (range_of p) range.now ≡ true) (λ p. comes_before (range_of p) range.now ≡ false) pieces.now result }
{
    pieces.partition_point(|piece| comes_before(piece, range))
}

/// Whether a piece comes before that of a range.
fn comes_before(piece: &Piece, range: &BlockRange) -> bool
    ensures { result ≡ comes_before (range_of piece.now) range.now }
{
    piece.first < range.first || (piece.first == range.first && piece.last < range.last)
}
