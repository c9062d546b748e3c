use crate::comparisons::MORE_STEPS;
use crate::cures::text_at;
use crate::faults::{AddressFault, Origin, Way};
use crate::instructions::end_by_instruction;
use crate::notes::{Notes, Piece};
use crate::places::put_place;
use crate::unchecked::UncheckedFile;

/// What the reasons of address faults mean, by their numbers.
const REASONS: [&str; 10] = [
    "",
    "it reads or writes outside the object that it addresses",
    "its address is not aligned",
    "it accesses code, the ELF header or symbol table, unmapped memory, the scratchpad or the patch range",
    "it accesses an object that may move by a plain number, which stays when the object moves",
    "its address is neither a number nor an address of an object, so where it leads when objects move is not known",
    "it leads to what begins no block of code, or to an address that no relocation makes",
    "it compares an address in an object that may move with what lies outside, and the answer depends on where it stands",
    "the call takes an address where a number is due, or writes one out",
    "it writes into an object that is not writable",
];

/// What the reason of an address fault means, by its number.
pub(crate) fn reason_of(why: u32) -> &'static str {
    text_at(&REASONS, why)
}

/// What is known by name of an address fault. Empty names are not known.
#[derive(Clone, Copy)]
pub struct Involved<'a> {
    /// The object of whose address the value was made.
    pub object: &'a [u8],
    /// The object of whose address the other operand of a comparison was made.
    pub other: &'a [u8],
    /// The object or the section that has the byte at the address.
    pub bytes: &'a [u8],
    /// Whether the file has symbols.
    pub has_symbols: bool,
    /// Whether it has relocations.
    pub has_relocations: bool,
    /// Whether GCC made anchors for its sections.
    pub has_anchors: bool,
}

/// A function that a compiler calls where it finds a loop that does the same, and that calls itself.
pub const CALLING_ITSELF: &str =
    "{} calls itself: the compiler found that its loop does what the function does, and made a call of it\nfirst: compile with -fno-tree-loop-distribute-patterns, -fno-builtin or -ffreestanding";

/// A measured run that trapped at an address, in so many steps.
pub fn say_trapped(notes: &mut Notes, file: &UncheckedFile, steps: u64, pc: u32) {
    say_instruction(notes, file, "the measured run trapped", pc);
    let words = if steps == 1 {
        "what is told is of {} step\nfirst: leave out what RV32IM lacks (no CSR instructions, -march=rv32im)"
    } else {
        "what is told is of {} steps\nfirst: leave out what RV32IM lacks (no CSR instructions, -march=rv32im)"
    };
    notes.say(words, &[Piece::Number(steps)]);
}

/// A measured run that went on at the end of its steps, and the address where it stood. It fails only where no memory
/// was left.
pub fn say_still_running(notes: &mut Notes, file: &UncheckedFile, steps: u64, at: u32) {
    notes.say(
        "the board allows {} steps, and the measured run went on; what is told is of these alone",
        &[Piece::Number(steps)],
    );
    say_instruction(notes, file, "it stood", at);
    notes.say_words(MORE_STEPS);
}

/// A line of words, a place, and the instruction that stands there.
pub(crate) fn say_instruction(notes: &mut Notes, file: &UncheckedFile, words: &str, at: u32) {
    notes.begin(words, &[]);
    put_place(notes, file, at);
    end_by_instruction(notes, file.code_word(at));
}

/// A run that met an address fault.
pub fn explain_fault(
    notes: &mut Notes,
    file: &UncheckedFile,
    fault: &AddressFault,
    involved: &Involved,
) {
    say_instruction(notes, file, "address fault", fault.pc);
    notes.say_words(reason_of(fault.why));
    say_origin(notes, file, involved.object, fault.culprit.origin);
    say_origin(notes, file, involved.other, fault.culprit.other);
    let Some(address) = fault.culprit.address else {
        return;
    };
    if involved.bytes.is_empty() {
        notes.say(
            "it addresses {}, which is of no section",
            &[Piece::Hex(address)],
        );
    } else {
        notes.say(
            "it addresses {}, of {}",
            &[Piece::Hex(address), Piece::Name(involved.bytes)],
        );
    }
}

/// The object of whose address a value was made, if it was made of one, and how.
fn say_origin(notes: &mut Notes, file: &UncheckedFile, object: &[u8], origin: Option<Origin>) {
    let Some(origin) = origin else {
        return;
    };
    let way = match origin.way {
        Way::Upper => ", and is its upper part",
        Way::Address => "",
        Way::CopiedUpper => ", of which the upper part was copied to another register",
        Way::Computed => ", with which other arithmetic was done than to add a number",
        Way::Tested => ", of which it was asked as a value whether it is null (p == 0)",
    };
    notes.begin(
        "the value comes of the address of {}{}",
        &[Piece::Name(object), Piece::Text(way)],
    );
    if let Some(at) = origin.made {
        put_place(notes, file, at);
    }
    notes.end("");
}
