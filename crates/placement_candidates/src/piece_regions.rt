ghost use Rattle.std.specs.Prelude.{◌≡◌, ◌<◌, ◌≤◌, map, length, IfOk};
ghost use Rattle.std.specs.List.{All};
ghost use Rattle.placement_candidates.specs.{OverlayCounted.{piece_region, CanWeigh, CanWeighPiece}, Overlaid.{is_of_region}};

use crate::measured::Measured;
use block_splitter::Piece;
use region_former::RegionTable;
use std::alloc::{AllocError, Global};

/// Whether all blocks of a piece have region `r`.
fn is_of_region(regions: &RegionTable, r: u32, piece: &Piece) -> bool
    requires { piece.now.last < length regions.now.of_block.items }
    ensures { result ≡ is_of_region regions.now.of_block.items r piece.now }
{
    for b in piece.first as usize..piece.last as usize + 1 {
        if regions.of_block[b] != r {
            return false;
        }
    }
    true
}

/// The region that all blocks of a piece have, and 0 where they have not one.
fn piece_region(regions: &RegionTable, piece: &Piece) -> u32
    requires ordered { piece.now.first ≤ piece.now.last }
    requires below { piece.now.last < length regions.now.of_block.items }
    ensures { result ≡ piece_region regions.now.of_block.items piece.now }
{
    let region = regions.of_block[piece.first as usize];
    if is_of_region(regions, region, piece) {
        region
    } else {
        0
    }
}

/// The region of each piece.
pub(crate) fn piece_regions(alloc: Global, m: &Measured<'_>) -> Result<Vec<u32>, AllocError>
    requires weigh { CanWeigh m.now }
    requires pieces { All (CanWeighPiece m.now) m.now.pieces.now }
    ensures { IfOk result (λ v. v.items ≡ map (piece_region m.now.regions.now.of_block.items) m.now.pieces.now) }
{
    let mut table = Vec::new(alloc);
    for k in 0..m.pieces.len() {
        table.push(piece_region(m.regions, &m.pieces[k]))?;
    }
    Ok(table)
}
