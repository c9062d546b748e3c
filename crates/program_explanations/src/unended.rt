use crate::comparing::{flat_machine, run_program};
use crate::runs::explain_end;
use crate::subject::{RunEnd, Subject};
use explanation_texts::{Notes, Piece, UNENDED_INPUTS};
use flat_machine::FlatOutcome;
use object_machine::Outcome;
use std::alloc::AllocError;

/// The runs of a mix that did not come to their program's end: the first of them, and how many more there are.
pub(crate) fn explain_unended(notes: &mut Notes, subject: &Subject) -> Result<(), AllocError> {
    let mut first: Option<(u64, RunEnd)> = None;
    let mut count: u64 = 0;
    for (place, input) in subject.inputs.listed.iter().enumerate() {
        if let Some(end) = unended_run(subject, input)? {
            first = first.or(Some((place as u64 + 1, end)));
            count = count.saturating_add(1);
        }
    }
    if let Some((line, end)) = first {
        notes.say(UNENDED_INPUTS, &[Piece::Number(count), Piece::Number(line)]);
        explain_end(notes, &subject.inputs.unchecked(), &end);
    }
    Ok(())
}

/// How the run on an input ended, if the program neither exited nor met an address fault. A file that exits within the board's
/// steps needs no other run: its program takes no more.
fn unended_run(subject: &Subject, input: &[u8]) -> Result<Option<RunEnd>, AllocError> {
    let inputs = &subject.inputs;
    let board = subject.board;
    if let Some(mut machine) = flat_machine(inputs.alloc, inputs.file, board, input)? {
        if let FlatOutcome::Exited(_) = machine.run(board.steps)? {
            return Ok(None);
        }
    }
    let run = run_program(subject, input)?;
    let end = RunEnd {
        steps: run.steps,
        outcome: run.source.outcome(),
        at: run.source.at(),
    };
    match end.outcome {
        Outcome::GoesOn | Outcome::Trapped { .. } => Ok(Some(end)),
        Outcome::Exited(_) | Outcome::AddressFault { .. } => Ok(None),
    }
}
