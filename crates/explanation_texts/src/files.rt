use crate::cures::{UNPRINTED, UNREAD, UNWRITTEN};
use crate::notes::{Notes, Piece};
use crate::usage::{Command, say_word};
use shelf_io::{FailedWrite, WriteCause};

/// A name that leads to a file that the command has used under another one.
const USED: &str =
    "leads to the file that {} names, which this call has read or written; nothing more was written there\nfirst: give the name of another file";

/// The same of the name under which new content is first put.
const NEW_NAME_USED: &str =
    "can't be written: its new content is first put beside it, under the name of the file that {} names, which this call has read or written; what stood there is as it was\nfirst: rename that file, or give another name to write to";

/// A word whose file can't be read.
pub fn say_unread(notes: &mut Notes, place: usize, word: &str) {
    say_word(notes, place, word, UNREAD, &[]);
}

/// An input that a mix lists and that can't be read, by the number of its line, from 1, and its name.
pub fn say_unread_input(notes: &mut Notes, line: u64, name: &str) {
    notes.begin(
        "line {} of MIX, {}, ",
        &[Piece::Number(line), Piece::Name(name.as_bytes())],
    );
    notes.end(UNREAD);
}

/// The word whose file was not written, and why, or else that standard output was not.
pub fn explain_unwritten(
    notes: &mut Notes,
    words: &[String],
    command: &Command,
    failed: Option<&FailedWrite>,
) {
    let Some(failed) = failed else {
        notes.say_words(UNPRINTED);
        return;
    };
    let mut before: Option<&str> = None;
    for place in command.writes {
        let Some(word) = words.get(*place) else {
            return;
        };
        if word == &failed.name {
            say_failed(notes, *place, failed, before);
            return;
        }
        before = Some(word.as_str());
    }
}

/// A write that failed, behind that of a certificate.
fn say_failed(notes: &mut Notes, place: usize, failed: &FailedWrite, certificate: Option<&str>) {
    let (words, used_as) = match &failed.cause {
        WriteCause::Outside => (UNWRITTEN, ""),
        WriteCause::Used(used_as) => (USED, used_as.as_str()),
        WriteCause::NewNameUsed(used_as) => (NEW_NAME_USED, used_as.as_str()),
    };
    let name = failed.name.as_str();
    say_word(
        notes,
        place,
        name,
        words,
        &[Piece::Name(used_as.as_bytes())],
    );
    if let Some(certificate) = certificate {
        notes.say(
            "the certificate {} is new, and the file that it is of was not written",
            &[Piece::Name(certificate.as_bytes())],
        );
    }
}
