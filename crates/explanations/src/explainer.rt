use crate::explaining::explain_seen;
use command_language::CommandFault;
use command_line::{InputTexts, Observer, PreparedResult};
use explanation_texts::{Command, Notes, command_of, explain_unwritten, explain_words};
use shelf_io::FailedWrite;
use std::alloc::Global;

/// The status of words that are no command.
const NO_COMMAND: u8 = 1;

/// The status of a command that can't write a file or to standard output.
const UNWRITTEN: u8 = 3;

/// Lines for standard error that explain what a command did, each of which begins with `spmlink: `. It reads no file: it
/// is shown what the command read and made.
#[derive(Drop)]
pub struct Explainer<'a> {
    alloc: Global,
    words: &'a [String],
    /// The command of the first word, if it is one.
    command: Option<&'static Command>,
    /// What is to be said of what was shown.
    notes: Notes,
    /// The status that the command has where its result is written.
    status: u8,
}

impl<'a> Explainer<'a> {
    /// One who explains what is done for these words.
    pub fn new(alloc: Global, words: &'a [String]) -> Explainer<'a> {
        Explainer {
            alloc,
            words,
            command: match words.first() {
                Some(word) => command_of(word.as_str()),
                None => None,
            },
            notes: Notes::new(alloc),
            status: NO_COMMAND,
        }
    }

    /// The lines, by the status of the command and the last write of a file that failed, if one did. There are none where
    /// all is as one expects, or where no memory was left.
    pub fn into_text(self, status: u8, failed: Option<&FailedWrite>) -> Vec<u8> {
        let mut notes = Notes::new(self.alloc);
        match self.command {
            Some(_) if status != NO_COMMAND && status == self.status => {
                return self.notes.into_text();
            }
            Some(command) if status == UNWRITTEN => {
                explain_unwritten(&mut notes, self.words, command, failed);
            }
            Some(_) if status != NO_COMMAND => {}
            _ => explain_words(&mut notes, self.words),
        }
        notes.into_text()
    }
}

impl Observer for Explainer<'_> {
    fn observe(
        &mut self,
        inputs: &InputTexts<'_>,
        made: Result<&PreparedResult<'_>, &CommandFault>,
    ) {
        self.status = match made {
            Ok(_) => 0,
            Err(fault) => fault.status(),
        };
        let Some(command) = self.command else {
            return;
        };
        let mut notes = Notes::new(self.alloc);
        if explain_seen(&mut notes, self.words, command, inputs, made).is_ok() {
            self.notes = notes;
        }
    }
}
