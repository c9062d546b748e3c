use crate::names::symbol_name;
use crate::runs::{BY_NUMBER, FaultyRuns, NamedFault, faulty_runs};
use crate::subject::{Inputs, Subject};
use board_config::read_board;
use explanation_texts::{
    FixEnd, FixList, MORE_FAULTS, Notes, Piece, say_fault_cure, say_fix, say_further_fault,
    say_no_list, text_with_fixed,
};
use relink_core::analyse;
use std::alloc::{AllocError, Global};

/// How many runs are tried at most, and how many steps these take at most in all.
const MOST_RUNS: u64 = 64;

const MOST_STEPS: u64 = 400_000_000;

/// How many further faults are told.
const TOLD_FAULTS: usize = 8;

/// From how many accesses by plain numbers on a whole section is kept: something walks it by its addresses.
const WALKED: usize = 3;

/// How often a list is halved at most.
const HALVINGS: u32 = 16;

/// A search for objects with which the run meets no address fault, where they are kept.
#[derive(Drop)]
struct Search<'a> {
    inputs: Inputs<'a>,
    /// What is kept.
    names: Vec<&'a [u8]>,
    /// The faults that were met with these, in turn.
    faults: Vec<NamedFault<'a>>,
    /// How many runs were tried.
    runs: u64,
    /// How many steps are left.
    left: u64,
    /// The fault that is met even with all objects kept.
    last: Option<NamedFault<'a>>,
}

/// What the faults of a run involve, one after the other, and the list of what to keep.
pub(crate) fn explain_fixes<'a>(
    notes: &mut Notes,
    subject: &Subject<'a, '_>,
    first: &NamedFault<'a>,
) -> Result<(), AllocError> {
    let inputs = &subject.inputs;
    let mut search = Search {
        inputs: *inputs,
        names: Vec::new(inputs.alloc),
        faults: Vec::new(inputs.alloc),
        runs: 0,
        left: MOST_STEPS,
        last: None,
    };
    let end = search.follow_faults(subject, first)?;
    let file = inputs.unchecked();
    for met in search.faults.iter().take(TOLD_FAULTS) {
        say_further_fault(notes, &file, &met.fault, &met.involved);
    }
    if search.faults.len() > TOLD_FAULTS {
        let more = search.faults.len().saturating_sub(TOLD_FAULTS) as u64;
        notes.say(MORE_FAULTS, &[Piece::Number(more)]);
    }
    if let Some(last) = search.last {
        say_no_list(notes, &file, &last.fault);
        say_fault_cure(notes, &file, &last.fault, &last.involved);
    } else if search.names.is_empty() {
        say_fault_cure(notes, &file, &first.fault, &first.involved);
    } else {
        let list = FixList {
            kept: &subject.board.fix,
            names: &search.names,
            runs: search.runs,
            end,
        };
        say_fix(notes, &list, &first.fault, &first.involved);
    }
    Ok(())
}

impl<'a> Search<'a> {
    /// Keeps what each fault involves, until the run meets none.
    fn follow_faults(
        &mut self,
        subject: &Subject<'a, '_>,
        first: &NamedFault<'a>,
    ) -> Result<FixEnd, AllocError> {
        let mut fault = *first;
        for _ in 0..MOST_RUNS {
            if !self.keep(&fault)? && !self.keep_by_halves(subject)? {
                break;
            }
            let Some(runs) = self.try_names(&[])? else {
                break;
            };
            let Some(next) = runs.fault else {
                // the run may have been cut off
                return Ok(if self.left == 0 {
                    FixEnd::Cut
                } else {
                    FixEnd::Whole
                });
            };
            self.faults.push(next)?;
            fault = next;
        }
        Ok(if self.last.is_some() {
            FixEnd::Useless
        } else {
            FixEnd::Cut
        })
    }

    /// Keeps the objects that a fault involves. Tells whether one is new.
    fn keep(&mut self, fault: &NamedFault<'a>) -> Result<bool, AllocError> {
        let is_walked = fault.fault.why == BY_NUMBER && self.faults.len() >= WALKED;
        let object = if is_walked {
            fault.section
        } else {
            fault.involved.object
        };
        let first = self.keep_name(object)?;
        let second = self.keep_name(fault.involved.other)?;
        Ok(first || second)
    }

    fn keep_name(&mut self, name: &'a [u8]) -> Result<bool, AllocError> {
        if name.is_empty() || self.names.contains(&name) {
            return Ok(false);
        }
        self.names.push(name)?;
        Ok(true)
    }

    /// Runs with these kept besides, within the bounds; `None` also where the program can't be opened so.
    fn try_names(&mut self, further: &[&'a [u8]]) -> Result<Option<FaultyRuns<'a>>, AllocError> {
        if self.runs >= MOST_RUNS || self.left == 0 {
            return Ok(None);
        }
        let mut names = self.names.to_vec(self.inputs.alloc)?;
        names.extend_from_slice(further)?;
        let text = text_with_fixed(self.inputs.alloc, self.inputs.board_text(), &names)?;
        self.runs = self.runs.saturating_add(1);
        let runs = runs_on(&self.inputs, self.inputs.file, &text, self.left)?;
        if let Some(runs) = &runs {
            self.left = self.left.saturating_sub(runs.steps);
        }
        Ok(runs)
    }

    /// Keeps an object without which the run meets a fault, where no fault names one: of all in their order it is the last of
    /// the fewest that are enough. Tells whether there is one.
    fn keep_by_halves(&mut self, subject: &Subject<'a, '_>) -> Result<bool, AllocError> {
        let analysis = subject.analysis;
        let mut all = Vec::new(self.inputs.alloc);
        for object in &analysis.graph.objects {
            all.push(symbol_name(&analysis.view, object.name))?;
        }
        let Some(runs) = self.try_names(&all)? else {
            return Ok(false);
        };
        if runs.fault.is_some() {
            self.last = runs.fault;
            return Ok(false);
        }
        match all.get(self.fewest(&all)?) {
            Some(name) => self.keep_name(name),
            None => Ok(false),
        }
    }

    /// The place of the last name of the fewest of a list, from its beginning on, that are enough.
    fn fewest(&mut self, all: &[&'a [u8]]) -> Result<usize, AllocError> {
        let mut few: usize = 0;
        let mut enough = all.len();
        for _ in 0..HALVINGS {
            let middle = few.saturating_add(enough.saturating_sub(few) / 2);
            if middle == few {
                break;
            }
            match self.try_names(all.get(..middle).unwrap_or_default())? {
                Some(runs) if runs.fault.is_none() => enough = middle,
                _ => few = middle,
            }
        }
        Ok(few)
    }
}

/// The runs of a file on a board by its text, in so many steps at most; `None` where the text or the file is refused for it, or
/// no memory was left.
fn runs_on<'a>(
    inputs: &Inputs<'a>,
    file: &'a [u8],
    board_text: &[u8],
    most_steps: u64,
) -> Result<Option<FaultyRuns<'a>>, AllocError> {
    let Ok(board) = read_board(inputs.alloc, board_text) else {
        return Ok(None);
    };
    let Ok(analysis) = analyse(inputs.alloc, file, &board) else {
        return Ok(None);
    };
    let subject = Subject {
        inputs: *inputs,
        board: &board,
        analysis: &analysis,
    };
    Ok(Some(faulty_runs(&subject, most_steps)?))
}
