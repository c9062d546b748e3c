// What is counted of each piece where there is overlay, once for all that may be taken of it.
ghost use Rattle.std.specs.Prelude.{◌≡◌, ◌<◌, ◌≤◌, length, IfOk};
ghost use Rattle.std.specs.List.{All};
ghost use Rattle.energy_model.specs.Counts.{AreBlockCounts};
ghost use Rattle.placement_candidates.specs.OverlayCounted.{CanGain, CanWeighPiece};
ghost use Rattle.placement_candidates.specs.Tallies.{IsTally, AreTallies};

use crate::measured::Measured;
use block_splitter::{BlockRange, Piece};
use energy_model::{
    BlockCounts, EnteringCounts, PieceCounts, RunTables, count_entering, count_piece,
};
use std::alloc::{AllocError, Global};

/// What a piece ran, and what is counted of its blocks by which control enters a region.
#[derive(Clone, Copy)]
pub(crate) struct PieceTally {
    pub run: PieceCounts,
    pub entering: EnteringCounts,
}

/// What is counted of a piece.
fn tally(m: &Measured<'_>, counts: &BlockCounts, piece: &Piece) -> PieceTally
    requires gain { CanGain m.now }
    requires counts { AreBlockCounts m.now.code.now m.now.graph.now m.now.profile.now counts.now }
    requires piece { CanWeighPiece m.now piece.now }
    ensures { IsTally m.now piece.now result }
{
    let range = BlockRange {
        first: piece.first,
        last: piece.last,
    };
    let tables = RunTables {
        code: m.code,
        graph: m.graph,
        profile: m.profile,
        counts,
        regions: m.regions,
    };
    let run = count_piece(m.code, m.graph, m.profile, counts, &range);
    let entering = count_entering(&tables, &range);
    PieceTally { run, entering }
}

/// What is counted of each piece.
pub(crate) fn tallies(
    alloc: Global,
    m: &Measured<'_>,
    counts: &BlockCounts,
) -> Result<Vec<PieceTally>, AllocError>
    requires gain { CanGain m.now }
    requires counts { AreBlockCounts m.now.code.now m.now.graph.now m.now.profile.now counts.now }
    requires pieces { All (CanWeighPiece m.now) m.now.pieces.now }
    ensures { IfOk result (λ tallies. AreTallies m.now (length m.now.pieces.now) tallies.items) }
{
    let mut made = Vec::new(alloc);
    for k in 0..m.pieces.len() {
        made.push(tally(m, counts, &m.pieces[k]))?;
    }
    Ok(made)
}
