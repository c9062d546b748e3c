use command_language::CommandFault;
use command_line::{InputTexts, PreparedResult};
use explanation_texts::{Command, UncheckedFile};
use program_explanations::{Inputs, RunEnd};
use std::alloc::Global;

/// What is printed where a result does what its program does, and the program goes on.
const SAME_AND_RUNNING: &[u8] = b"same\nrunning\n";

/// What a command read, and what came of it; `None` where it reads no ELF file.
pub(crate) fn inputs_of<'a>(
    alloc: Global,
    command: &Command,
    texts: &InputTexts<'a>,
    made: Result<&'a PreparedResult<'_>, &CommandFault>,
) -> Option<Inputs<'a>> {
    let file = text_of(texts, command.file)?;
    let (status, end, goes_on) = match made {
        Ok(it) => (0, end_of(it), it.text.rest.as_slice() == SAME_AND_RUNNING),
        Err(fault) => (fault.status(), None, false),
    };
    let (moved, added) = match written_at(command, made, command.result) {
        Some(bytes) if bytes != file => (Some(true), UncheckedFile { bytes }.last_segment()),
        Some(_) => (Some(false), None),
        None => (None, None),
    };
    let read = text_of(texts, command.certificate);
    Some(Inputs {
        alloc,
        file,
        board: text_of(texts, command.board),
        analyses: command.analyses,
        input: text_of(texts, command.input),
        certificate: written_at(command, made, command.certificate).or(read),
        mix: text_of(texts, command.mix),
        listed: texts.listed,
        moved,
        added,
        beside: text_of(texts, command.beside),
        tells_pairing: command.tells_pairing,
        goes_on,
        status,
        end,
    })
}

/// How the run ended that a command measured, if it did.
fn end_of(prepared: &PreparedResult<'_>) -> Option<RunEnd> {
    let end = prepared.measured?;
    Some(RunEnd {
        steps: end.steps,
        outcome: end.outcome,
        at: end.at,
    })
}

/// The text under the name of a word.
pub(crate) fn text_of<'a>(texts: &InputTexts<'a>, place: Option<usize>) -> Option<&'a [u8]> {
    let text = texts.texts.get(place?.checked_sub(1)?)?;
    Some(text.as_slice())
}

/// What is ready to be written under the name of a word; `None` where nothing is.
fn written_at<'a>(
    command: &Command,
    made: Result<&'a PreparedResult<'_>, &CommandFault>,
    word: Option<usize>,
) -> Option<&'a [u8]> {
    for (place, output) in command.writes.iter().zip(&made.ok()?.outputs) {
        if Some(*place) == word {
            return Some(output.bytes.as_slice());
        }
    }
    None
}
