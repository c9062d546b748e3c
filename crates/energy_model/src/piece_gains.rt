ghost use Rattle.std.specs.Prelude.{◌≡◌, ◌+◌, ◌-◌, ◌*◌, ◌^◌, ◌<◌, ◌≤◌, pos, ◌-ℤ◌, true, false, List, Bool};
ghost use Rattle.object_graph.specs.declared.parts.Graph.{Graph};
ghost use Rattle.code_blocks.specs.declared.parts.Code.{Code};
ghost use Rattle.profile_runner.specs.declared.counts.Profile.{Profile};
ghost use Rattle.block_splitter.specs.declared.block_range.BlockRange.{BlockRange};
ghost use Rattle.energy_model.specs.{Counts.{IsPieceCount, most_run}, Entering.{IsEnteringCount}, Gains.{home_cost, copied_cost, piece_saves, AreFewPieceCounts, AreFewEnteringCounts}};

use crate::block_counts::PieceCounts;
use crate::entering_counts::EnteringCounts;
use crate::overlaying::checks_price;
use board_config::Prices;

/// What a piece costs at home, with the checks that are made there and displaced first units.
fn home_cost(piece: &PieceCounts, entering: &EnteringCounts, prices: &Prices) -> u128
    requires piece { AreFewPieceCounts piece.now }
    requires entering { AreFewEnteringCounts entering.now }
    ensures sum { result ≡ home_cost prices.now piece.now entering.now }
    ensures small { result < 2 ^ 90 }
{
    let fetch = u128::from(prices.main_fetch);
    piece.home * fetch + (checks_price(entering.checks, prices) + entering.displaced * fetch)
}

/// What it costs in the scratchpad without its copies, and what its first units cost that would run at home.
fn copied_cost(piece: &PieceCounts, entering: &EnteringCounts, prices: &Prices) -> u128
    requires piece { AreFewPieceCounts piece.now }
    requires entering { AreFewEnteringCounts entering.now }
    ensures sum { result ≡ copied_cost prices.now piece.now entering.now }
    ensures small { result < 2 ^ 90 }
{
    let fetch = u128::from(prices.main_fetch);
    let words = piece.copied * u128::from(prices.spm_fetch);
    let pads = piece.came * (3 * fetch);
    let checked = entering.came * (4 * fetch + u128::from(prices.main_read));
    entering.first * fetch + (words + pads + checked)
}

/// What a piece saves that is counted so, and whose copies cost so much.
fn gain(piece: &PieceCounts, entering: &EnteringCounts, copies: u128, prices: &Prices) -> i128
    requires piece { AreFewPieceCounts piece.now }
    requires entering { AreFewEnteringCounts entering.now }
    requires copies { copies < 2 ^ 120 }
    ensures { result ≡ pos (home_cost prices.now piece.now entering.now) -ℤ pos (copied_cost prices.now piece.now entering.now + copies) }
{
    let home = home_cost(piece, entering, prices);
    home as i128 - (copied_cost(piece, entering, prices) + copies) as i128
}

/// What a piece saves where there is overlay, throughout or in a region, whose copies cost so much.
///
/// The counts must be those of `count_piece` and `count_entering`.
pub fn piece_gain(
    piece: &PieceCounts,
    entering: &EnteringCounts,
    copies: u128,
    prices: &Prices,
) -> i128
    requires piece { AreFewPieceCounts piece.now }
    requires entering { AreFewEnteringCounts entering.now }
    requires copies { copies < 2 ^ 120 }
    ensures { (c : Code) (g : Graph) (q : Profile) (borders : List Bool) (range : BlockRange) → IsPieceCount c g q range piece.now → IsEnteringCount c g q borders range entering.now → result ≡ piece_saves c g prices.now q borders range copies }
{
    gain(piece, entering, copies, prices)
}
