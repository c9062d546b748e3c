ghost use Rattle.std.specs.Prelude.{◌≡◌, ◌≤ℤ◌, ℕ, pos, List, IfOk};
ghost use Rattle.elf_reader.specs.File.{plain_view};
ghost use Rattle.placement_programme.specs.{Plain.{PlainChoice}, Programme.{IsFeasible, gain}, Views.{plain_programme, plain_choice}};
ghost use Rattle.relinking.specs.{FoundChoice.{is_optimal}, Relink.{IsRelinkedFor}, Report.{IsRelinkReport}};
ghost use Rattle.relink_core.specs.Choices.{IsAnalysisOf};
ghost use Rattle.printed_lines.specs.Texts.{text_of};

use crate::making::Relinked;
use crate::taking::taken_items;
use board_config::Board;
use branch_bound::Status;
use printed_lines::{Text, choice_report, push_taken_lines};
use relink_core::Analysis;
use std::alloc::{AllocError, Global};

/// The report on a file that was relinked: how its choice was found and what the runs cost, and what is taken. No choice of
/// the programme saves more than the base.
pub fn relink_report<'a>(
    alloc: Global,
    analysis: &Analysis<'a>,
    board: &Board,
    relinked: &Relinked,
) -> Result<Text<'a>, AllocError>
    requires made { (file : List ℕ) × IsAnalysisOf file board.now analysis.now × IsRelinkedFor file board.now analysis.now.graph analysis.now.code analysis.now.regions analysis.now.pieces.items relinked.now }
    requires within { (choice : PlainChoice) → IsFeasible (plain_programme relinked.now.programme) choice → gain (plain_programme relinked.now.programme) choice ≤ℤ pos relinked.now.programme.base }
    ensures { IfOk result (λ text. IsRelinkReport (plain_view analysis.now.view) board.now analysis.now.graph analysis.now.code (plain_programme relinked.now.programme) (plain_choice relinked.now.found.choice) (is_optimal relinked.now.found.status) (text_of text)) }
{
    let programme = &relinked.programme;
    let choice = &relinked.found.choice;
    let optimal = is_optimal(relinked.found.status);
    let first = choice_report(alloc, programme, choice, optimal, board.nodes)?;
    let mut report = Text::plain(first.into_bytes());
    let items = taken_items(alloc, analysis, board, relinked)?;
    push_taken_lines(alloc, &mut report, &analysis.view, &analysis.graph, &items)?;
    Ok(report)
}

/// Whether a choice was shown to be best.
fn is_optimal(status: Status) -> bool
    ensures { result ≡ is_optimal status }
{
    match status {
        Status::Optimal => true,
        Status::BestFound { nodes: _ } => false,
    }
}
