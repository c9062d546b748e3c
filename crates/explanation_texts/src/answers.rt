use crate::cures::{BAD_CERTIFICATE, BAD_HEX, OTHER_HEX};
use crate::notes::Notes;

/// The statuses of a certificate, of a difference and of a text in Intel HEX.
const CERTIFICATE: u8 = 10;

const DIFFERENCE: u8 = 11;

const HEX: u8 = 14;

/// Why something that a command reads beside FILE was refused, or differs from it, by the status of the command. Where a
/// board is read a difference is that of a result, of which more is known later.
pub fn explain_status(notes: &mut Notes, status: u8, has_board: bool) {
    match status {
        CERTIFICATE => notes.say_words(BAD_CERTIFICATE),
        DIFFERENCE if !has_board => notes.say_words(OTHER_HEX),
        HEX => notes.say_words(BAD_HEX),
        _ => {}
    }
}
