use crate::inputs::inputs_of;
use crate::inward::explain_inward;
use crate::unread::{explain_list, explain_unread};
use command_language::CommandFault;
use command_line::{InputTexts, Opened, PreparedResult, open};
use explanation_texts::{Command, Notes, UncheckedFile, explain_board, explain_status, gives_key};
use program_explanations::{
    Chosen, Inputs, Subject, explain_chosen, explain_end, explain_file, explain_others,
    explain_refusal, explain_run, explain_saved, may_be_unpaired,
};
use std::alloc::AllocError;

/// What is to be said of what a command read and made.
pub(crate) fn explain_seen(
    notes: &mut Notes,
    words: &[String],
    command: &Command,
    texts: &InputTexts<'_>,
    made: Result<&PreparedResult<'_>, &CommandFault>,
) -> Result<(), AllocError> {
    match made {
        Err(CommandFault::Memory) => Ok(()),
        Err(CommandFault::Read { place }) => {
            explain_unread(notes, words, command, texts, *place as usize);
            Ok(())
        }
        _ => match (inputs_of(notes.alloc(), command, texts, made), made) {
            (Some(inputs), Ok(prepared)) => explain_done(notes, &inputs, prepared),
            (Some(inputs), Err(fault)) => explain_rejected(notes, words, command, &inputs, fault),
            (None, _) => Ok(()),
        },
    }
}

/// A command that has no result, by its fault.
fn explain_rejected(
    notes: &mut Notes,
    words: &[String],
    command: &Command,
    inputs: &Inputs,
    fault: &CommandFault,
) -> Result<(), AllocError> {
    explain_status(notes, inputs.status, inputs.board.is_some());
    match fault {
        CommandFault::BadMix { .. } => {
            if let Some(text) = inputs.mix {
                return explain_list(notes, words, command, text);
            }
        }
        CommandFault::Board(fault) => explain_board(notes, inputs.board_text(), fault),
        CommandFault::Analyse(fault) => explain_refusal(notes, inputs, fault),
        CommandFault::Elf(_) => {
            explain_file(notes, &inputs.unchecked());
            if let Some(bytes) = inputs.beside {
                explain_file(notes, &UncheckedFile { bytes });
            }
        }
        _ => return explain_analysed(notes, inputs, None, None),
    }
    Ok(())
}

/// A command that did what it is for, perhaps with a choice that it made or checked.
fn explain_done(
    notes: &mut Notes,
    inputs: &Inputs,
    prepared: &PreparedResult<'_>,
) -> Result<(), AllocError> {
    let chosen = match &prepared.chosen {
        Some(it) => Chosen::new(inputs.alloc, &it.programme, &it.choice, it.profile.as_ref())?,
        None => None,
    };
    if let Some(chosen) = &chosen {
        explain_saved(notes, inputs, chosen);
    }
    if let Some(end) = &inputs.end {
        explain_end(notes, &inputs.unchecked(), end);
    }
    if chosen.is_some()
        || inputs.goes_on
        || gives_key(inputs.board_text(), b"regions")
        || gives_key(inputs.board_text(), b"driver")
        || may_be_unpaired(inputs)
    {
        return explain_analysed(notes, inputs, prepared.opened.as_ref(), chosen.as_ref());
    }
    Ok(())
}

/// A file that the command analysed for the board. It is analysed again only where the command handed out no analysis.
fn explain_analysed(
    notes: &mut Notes,
    inputs: &Inputs,
    opened: Option<&Opened<'_>>,
    chosen: Option<&Chosen>,
) -> Result<(), AllocError> {
    if !inputs.analyses {
        return Ok(());
    }
    match opened {
        Some(opened) => explain_opened(notes, inputs, opened, chosen),
        None => match open(inputs.alloc, inputs.file, inputs.board_text()) {
            Ok(opened) => explain_opened(notes, inputs, &opened, chosen),
            Err(_) => Ok(()),
        },
    }
}

/// Its run, what it does beside its result, and what of it stays.
fn explain_opened<'a>(
    notes: &mut Notes,
    inputs: &Inputs<'a>,
    opened: &Opened<'a>,
    chosen: Option<&Chosen>,
) -> Result<(), AllocError> {
    let subject = Subject {
        inputs: *inputs,
        board: &opened.board,
        analysis: &opened.analysis,
    };
    explain_run(notes, &subject)?;
    if let Some(chosen) = chosen {
        explain_chosen(notes, &subject, chosen)?;
        explain_inward(notes, &subject, chosen)?;
    }
    explain_others(notes, &subject, chosen)
}
