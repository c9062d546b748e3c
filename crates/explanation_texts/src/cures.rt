use crate::notes::Notes;

/// What to say because of some of the numbers by which a fault tells what it is about.
pub(crate) struct CureRow {
    pub(crate) numbers: &'static [u32],
    /// The cause, and a line of what to do first.
    pub(crate) words: &'static str,
}

/// Says what a table has for a number, or else other words.
pub(crate) fn say_cure(notes: &mut Notes, table: &[CureRow], number: u32, other: &str) {
    for row in table {
        if row.numbers.contains(&number) {
            notes.say_words(row.words);
            return;
        }
    }
    notes.say_words(other);
}

/// The text that a table has at a place; empty where it has none.
pub(crate) fn text_at(table: &[&'static str], place: u32) -> &'static str {
    match table.get(place as usize) {
        Some(text) => *text,
        None => "",
    }
}

/// What stands in front of a name of a list, by the place of the name.
pub(crate) fn before_name(place: usize, first: &'static str) -> &'static str {
    if place == 0 { first } else { ", " }
}

/// A certificate that does not pass.
pub(crate) const BAD_CERTIFICATE: &str =
    "the certificate is cut off, was changed, or is one of another file, board or input\nfirst: give the certificate that relink wrote for this file, this board and this input";

/// A text in Intel HEX that spells another file.
pub(crate) const OTHER_HEX: &str =
    "the text in Intel HEX spells other bytes than the file loads, or another entry\nfirst: write the text of this file anew, by hex";

/// A text that is no Intel HEX.
pub(crate) const BAD_HEX: &str =
    "a line is no record in Intel HEX, a record is of none of the types 00, 01, 04 and 05, an address is given twice, or the end record is not the last\nfirst: write the text by hex, or leave out what docs/COMMAND_LINE.md#intel-hex does not name";

/// A name that the board's regions list, and no function has.
pub const UNKNOWN_FUNCTION: &str =
    "`regions` of the board list {}, and no function is called so\nfirst: correct the name, or keep the symbols: strip by strip -g alone";

/// A name of a function that the board's regions list twice.
pub const LISTED_TWICE: &str =
    "`regions` of the board list {}, whose function they list before\nfirst: list each function once";

/// A board that is an ELF file.
pub(crate) const ELF_FILE: &str =
    "the board is an ELF file\nfirst: write FILE, and RESULT if there is one, before BOARD";

/// How a line on a file ends that can not be read.
pub(crate) const UNREAD: &str =
    "can't be read: it is missing, a folder or a socket, may not be read, or has over 128 MiB\nfirst: correct the name, or make the file readable";

/// How a line on a file ends that can not be written.
pub(crate) const UNWRITTEN: &str =
    "can't be written: it is a folder or a socket, its folder is missing, no file may be made there, the disk is full, or who reads the pipe has closed it; a file there is as it was, a pipe may have got a part\nfirst: make the folder, or give a name in a folder in which you may write and that has space";

/// A text that can not be printed.
pub(crate) const UNPRINTED: &str =
    "the lines on standard output can't be written; all files were written\nfirst: free space on the disk, or give another standard output, and call again";

/// How a line on a unit ends that adds a low part to another upper part than its own.
pub(crate) const OTHER_UPPER: &str =
    ", which its relocation does not name\nfirst: make the address by lui, or by the upper part that the relocation names";

/// How such a line ends of an upper part whose low bits are taken as they are.
pub(crate) const BARE_UPPER: &str =
    ", which are those of the pc\nfirst: make the address by lui, or add its low part before it is copied";

/// A file with compressed instructions.
pub(crate) const COMPRESSED: &str =
    "the file has compressed instructions (e_flags has RVC)\nfirst: compile, assemble and link all of it with -march=rv32im -mabi=ilp32, libraries too";

/// A file of a form that is not read, for no reason of its own.
pub(crate) const OTHER_FORM: &str =
    "the file is no ELF file that a linker wrote, is cut off, or is over a limit of docs/COMMAND_LINE.md\nfirst: give what the linker wrote, without debug sections (strip -g)";

/// A file that has no code.
pub const NO_CODE: &str =
    "no section that is loaded has code, or the entry is no word of it\nfirst: keep the section headers (link without -s, strip by strip -g alone), and give the start symbol, as -Wl,-e,_start";

/// The patch range has too few bytes for the start code: how many it has, and how many that takes.
pub const SMALL_PATCH: &str =
    "the patch range has {} bytes, and the start code alone takes {}\nfirst: make `patch` of the board larger";

/// The code has too many basic blocks: so many.
pub const MANY_BLOCKS: &str =
    "the code has {} basic blocks, and 65,536 are the limit\nfirst: link less code: leave out what is not called (-ffunction-sections, -Wl,--gc-sections)";

/// A relocation that is not known.
pub(crate) const OTHER_RELOCATION: &str =
    "the address is made in a way that cannot be written anew\nfirst: link a static executable for -march=rv32im -mabi=ilp32, without -shared and -pie";
