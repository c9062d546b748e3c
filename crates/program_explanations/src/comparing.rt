use crate::pairing::{explain_pairing, unsure_units};
use crate::subject::Subject;
use board_config::Board;
use explanation_texts::{
    BOTH_DIFFER, COMPARED, EXITED_EARLY, FILE_DIFFERS, MORE_STEPS, Notes, Piece, RESULT_DIFFERS,
    TRAPPED_EARLY,
};
use flat_machine::{Flat, FlatOutcome};
use object_machine::{Outcome, Source};
use paged_store::PageStore;
use std::alloc::{AllocError, Global};

/// The status of a result that differs from its program.
const DIFFERENCE: u8 = 11;

/// What a program did on an input, on the machine whose objects have no addresses.
#[derive(Drop)]
pub(crate) struct ProgramRun {
    /// How many steps it took.
    pub(crate) steps: u64,
    /// The machine behind these.
    pub(crate) source: Source,
}

/// Whether FILE and RESULT do what the program does, and how far they were compared.
pub(crate) fn explain_comparison(notes: &mut Notes, subject: &Subject) -> Result<(), AllocError> {
    let inputs = &subject.inputs;
    let (Some(input), Some(relinked)) = (inputs.input, inputs.beside) else {
        return Ok(());
    };
    let differs = inputs.status == DIFFERENCE;
    if !differs && inputs.status != 0 {
        return Ok(());
    }
    let may_be_unpaired = unsure_units(subject)?.is_some();
    if may_be_unpaired || inputs.goes_on {
        let run = run_program(subject, input)?;
        let board = subject.board;
        if may_be_unpaired && !does_same(inputs.alloc, inputs.file, board, input, &run)? {
            notes.say_words(if differs { BOTH_DIFFER } else { FILE_DIFFERS });
            return explain_pairing(notes, subject);
        }
        if inputs.goes_on {
            return explain_running(notes, relinked, board, input, &run);
        }
    }
    if differs {
        notes.say_words(RESULT_DIFFERS);
    }
    Ok(())
}

/// Runs a program on an input for the board's steps, or until it ends.
pub(crate) fn run_program(subject: &Subject, input: &[u8]) -> Result<ProgramRun, AllocError> {
    let mut source = subject.machine(input)?;
    for steps in 0..subject.board.steps {
        if source.outcome() != Outcome::GoesOn {
            return Ok(ProgramRun { steps, source });
        }
        source.step()?;
    }
    let steps = subject.board.steps;
    Ok(ProgramRun { steps, source })
}

/// The flat machine at the entry of a file; `None` for what is no ELF file.
pub(crate) fn flat_machine(
    alloc: Global,
    bytes: &[u8],
    board: &Board,
    input: &[u8],
) -> Result<Option<Flat<PageStore>>, AllocError> {
    match elf_reader::read(alloc, bytes) {
        Ok(view) => Ok(Some(Flat::new(alloc, &view, board, input, PageStore::new(alloc))?)),
        Err(_) => Ok(None),
    }
}

/// Whether a file, as it is, does what its program did. In a paired run it takes one or two steps for each of the program's.
fn does_same(
    alloc: Global,
    bytes: &[u8],
    board: &Board,
    input: &[u8],
    run: &ProgramRun,
) -> Result<bool, AllocError> {
    let Some(mut machine) = flat_machine(alloc, bytes, board, input)? else {
        return Ok(true);
    };
    let ended = run.source.outcome();
    let early = machine.run(run.steps)?;
    if ended == Outcome::GoesOn && early != FlatOutcome::GoesOn {
        return Ok(false);
    }
    let outcome = machine.run(run.steps)?;
    let bytes = machine.output();
    let written = run.source.output();
    Ok(match (ended, outcome) {
        (Outcome::GoesOn, _) => bytes.starts_with(written),
        (Outcome::Exited(code), FlatOutcome::Exited(other)) => code == other && bytes == written,
        (Outcome::Trapped { .. }, FlatOutcome::Trapped { .. }) => bytes == written,
        _ => false,
    })
}

/// A result of a program that goes on: how far it was compared, and whether it ended within as many steps.
fn explain_running(
    notes: &mut Notes,
    relinked: &[u8],
    board: &Board,
    input: &[u8],
    run: &ProgramRun,
) -> Result<(), AllocError> {
    let Some(mut machine) = flat_machine(notes.alloc(), relinked, board, input)? else {
        return Ok(());
    };
    let each = u64::from(board.spm.size) * 12 + 256;
    let most = run.steps.saturating_add(1).saturating_mul(each);
    let compared = steps_to_write(&mut machine, run.source.output().len(), most)?;
    notes.say(
        COMPARED,
        &[Piece::Number(run.steps), Piece::Number(compared)],
    );
    match machine.run(run.steps.saturating_sub(compared))? {
        FlatOutcome::Exited(code) => { notes.say(EXITED_EARLY, &[Piece::Number(u64::from(code))]) }
        FlatOutcome::Trapped { pc } => notes.say(TRAPPED_EARLY, &[Piece::Hex(pc)]),
        FlatOutcome::GoesOn => notes.say_words(MORE_STEPS),
    }
    Ok(())
}

/// Takes steps until so many bytes are written, or `most` were taken, and tells how many it took.
fn steps_to_write(
    machine: &mut Flat<PageStore>,
    written: usize,
    most: u64,
) -> Result<u64, AllocError> {
    for k in 0..most {
        if machine.output().len() >= written {
            return Ok(k);
        }
        machine.step()?;
    }
    Ok(most)
}
