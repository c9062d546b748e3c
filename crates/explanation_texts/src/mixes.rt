use crate::notes::{Notes, Piece};

const BAD_LINE: &str =
    "line {} of MIX breaks a rule: a line is a weight from 1 to 1,000, one space, a name of at most 255 printed bytes that the command does not write, and a newline; there are 1 to 16 of them\nfirst: correct that line, as `1 input`";

/// A line that lists an input whose run meets an address fault, by its number from 1.
pub const FAULTY_INPUT: &str =
    "line {} of MIX names the first input whose run meets an address fault";

/// A line that lists an input whose run is not paired, by its number.
pub const UNPAIRED_INPUT: &str = "line {} of MIX names the first input whose run is not paired";

/// On how many inputs of a mix the runs did not come to their program's end, and the number of the first one's line.
pub const UNENDED_INPUTS: &str =
    "the runs on {} of the inputs did not end; line {} of MIX names the first";

/// The line of a mix that breaks a rule: the one that has this byte.
pub fn say_bad_line(notes: &mut Notes, text: &[u8], at: u64) {
    let mut line: u64 = 1;
    for (place, byte) in text.iter().enumerate() {
        if *byte == b'\n' && (place as u64) < at {
            line = line.saturating_add(1);
        }
    }
    notes.say(BAD_LINE, &[Piece::Number(line)]);
}
