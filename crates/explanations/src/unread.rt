use crate::inputs::text_of;
use command_language::{MixFault, read_mix};
use command_line::InputTexts;
use explanation_texts::{Command, Notes, say_bad_line, say_unread, say_unread_input};
use std::alloc::AllocError;

/// The word whose file could not be read, by its place, or the line of its MIX.
pub(crate) fn explain_unread(
    notes: &mut Notes,
    words: &[String],
    command: &Command,
    texts: &InputTexts<'_>,
    place: usize,
) {
    if texts.texts.len() == command.reads {
        if let Some(mix) = text_of(texts, command.mix) {
            if let Ok(lines) = read_mix(notes.alloc(), mix, &[]) {
                if let Some(line) = lines.get(texts.listed.len()) {
                    say_unread_input(notes, texts.listed.len() as u64 + 1, line.name);
                }
            }
            return;
        }
    }
    if let Some(word) = words.get(place) {
        say_unread(notes, place, word.as_str());
    }
}

/// The first line that breaks a rule, of a text that lists the inputs of a command.
pub(crate) fn explain_list(
    notes: &mut Notes,
    words: &[String],
    command: &Command,
    text: &[u8],
) -> Result<(), AllocError> {
    let mut written = Vec::new(notes.alloc());
    for place in command.writes {
        if let Some(word) = words.get(*place) {
            written.push(word.as_str())?;
        }
    }
    if let Err(MixFault::BadMix { at }) = read_mix(notes.alloc(), text, &written) {
        say_bad_line(notes, text, at);
    }
    Ok(())
}
