ghost use Rattle.std.specs.Prelude.{◌≡◌, ℤ, pos, ◌≤ℤ◌, IfOk, string_bytes};
ghost use Rattle.placement_programme.specs.{Plain.{PlainChoice}, Programme.{IsFeasible, gain}, Views.{plain_programme, plain_choice}};
ghost use Rattle.printed_lines.specs.ReportText.{report_text, IsReport};

use placement_programme::{Choice, Programme, energy};
use std::alloc::{AllocError, Global};

/// The lines of a report: whether the choice was shown to be best, or is the best that was found while visiting at
/// most `nodes` nodes; and the energy of the program's run before and after, in units of the board's prices.
fn report_lines(
    alloc: Global,
    optimal: bool,
    nodes: u64,
    before: u128,
    after: u128,
) -> Result<String, AllocError>
    ensures { IfOk result (λ text. string_bytes text ≡ report_text optimal nodes before after) }
{
    if optimal {
        format!(in alloc; "optimal\nbefore {before}\nafter {after}\n")
    } else {
        format!(in alloc; "best found {nodes}\nbefore {before}\nafter {after}\n")
    }
}

/// The report on a choice of a programme.
pub fn choice_report(
    alloc: Global,
    programme: &Programme,
    choice: &Choice,
    optimal: bool,
    nodes: u64,
) -> Result<String, AllocError>
    requires within { (c : PlainChoice) → IsFeasible (plain_programme programme.now) c → gain (plain_programme programme.now) c ≤ℤ pos programme.now.base }
    requires feasible { IsFeasible (plain_programme programme.now) (plain_choice choice.now) }
    ensures { IfOk result (λ text. IsReport (plain_programme programme.now) nodes (plain_choice choice.now) optimal (string_bytes text)) }
{
    let after = energy(programme, choice);
    match report_lines(alloc, optimal, nodes, programme.base, after) {
        Ok(text) => Ok(text),
        Err(error) => Err(error),
    }
}
