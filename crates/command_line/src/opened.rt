ghost use Rattle.std.specs.Prelude.{ℕ, List};
ghost use Rattle.relink_core.specs.Choices.{IsAnalysisOf};

use board_config::Board;
use relink_core::Analysis;

/// A board, and a file that is analysed for it.
#[derive(Drop)]
pub struct Opened<'a> {
    pub board: Board,
    pub analysis: Analysis<'a>,
    pub ghost analysed: { ∥ ((file : List ℕ) × IsAnalysisOf file board analysis) ∥₁ },
}
