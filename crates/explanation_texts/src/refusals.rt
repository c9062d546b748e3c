use crate::cures::{COMPRESSED, CureRow, OTHER_FORM, say_cure};
use crate::notes::{Notes, Piece};
use crate::relocations::say_unsupported;
use crate::unchecked::{RawSegment, UncheckedFile};
use board_config::{Board, Range};
use elf_reader::ElfFault;
use object_graph::GraphFault;

/// The section headers, by their number among the tables of a file.
const SECTION_TABLE: u32 = 4;

/// How many sections of code are told at most.
const TOLD_SECTIONS: u32 = 3;

/// The number of `e_flags` among the fields of headers.
const FLAGS: u32 = 7;

/// Fields of headers with values that are not supported, by their numbers.
const FIELDS: [CureRow; 5] = [
    CureRow {
        numbers: &[1, 2, 5],
        words: "the file is none of 32-bit RISC-V\nfirst: compile and link with -march=rv32im -mabi=ilp32",
    },
    CureRow {
        numbers: &[4],
        words: "the file is no executable at fixed addresses\nfirst: link it, with -static and without -shared, -pie and -r",
    },
    CureRow {
        numbers: &[11],
        words: "the file has a dynamic or interpreter segment\nfirst: link with -static and -no-pie",
    },
    CureRow {
        numbers: &[14],
        words: "the file has relocations for a loader, as .rela.dyn, or in a form that is not read\nfirst: compile with -ftls-model=local-exec, and link a static executable with -Wl,--emit-relocs",
    },
    CureRow {
        numbers: &[15],
        words: "the file has two symbol tables\nfirst: link a static executable with -Wl,--emit-relocs",
    },
];

/// A scratchpad that begins at an address that is none.
const SPM_AT_ZERO: &str =
    "the scratchpad of the board begins below address 16\nfirst: correct `spm` of the board";

/// How many objects may move, where these are too many.
const TOO_MANY_OBJECTS: &str =
    "{} objects may move, and 4,096 are the limit\nfirst: keep some by `fix` of the board";

/// Why a file is not read.
pub fn explain_elf(notes: &mut Notes, file: &UncheckedFile, fault: &ElfFault) {
    match *fault {
        ElfFault::WrongKind {
            field: FLAGS,
            value,
        } if value & 1 == 1 => notes.say_words(COMPRESSED),
        ElfFault::WrongKind { field, .. } => say_cure(notes, &FIELDS, field, OTHER_FORM),
        ElfFault::Unsupported { index, kind } => say_unsupported(notes, file, index, kind),
        ElfFault::Compressed { section } => say_section(
            notes,
            file,
            section,
            "section {} has memory and is compressed: link it uncompressed",
        ),
        ElfFault::OutOfFile {
            table: SECTION_TABLE,
            index,
        } => say_section(
            notes,
            file,
            index,
            "section {} does not lie inside the file, which is cut off: link it again",
        ),
        ElfFault::Memory => {}
        _ => notes.say_words(OTHER_FORM),
    }
}

fn say_section(notes: &mut Notes, file: &UncheckedFile, section: u32, words: &str) {
    notes.say(words, &[Piece::Name(file.section_name(section))]);
}

/// Why a program does not fit a board.
pub fn explain_layout(notes: &mut Notes, file: &UncheckedFile, board: &Board, fault: &GraphFault) {
    match *fault {
        GraphFault::SpmOverlap { segment } => {
            put_segment(
                notes,
                file,
                &file.segment(segment),
                " overlaps the scratchpad\n",
            );
            put_range(notes, "spm", &board.spm);
            notes.end("first: correct the linker script, or `spm` of the board")
        }
        GraphFault::PatchOverlap { segment } => {
            let segment = file.segment(segment);
            put_segment(notes, file, &segment, " overlaps the patch range\n");
            put_range(notes, "patch", &board.patch);
            notes.end(patch_cure(file, &segment))
        }
        GraphFault::NoArea { segment } => say_outside(notes, file, &file.segment(segment), board),
        GraphFault::PatchFar { .. } => say_far(notes, file, board),
        GraphFault::SpmOverlapsPatch => say_shared(notes, board),
        GraphFault::SpmAtZero => notes.say_words(SPM_AT_ZERO),
        GraphFault::TooManyObjects { count } => {
            notes.say(TOO_MANY_OBJECTS, &[Piece::Number(u64::from(count))])
        }
        GraphFault::Memory => {}
    }
}

/// A scratchpad that shares an address with the patch range.
fn say_shared(notes: &mut Notes, board: &Board) {
    notes.begin(
        "the scratchpad and the patch range of the board share an address\n",
        &[],
    );
    put_range(notes, "spm", &board.spm);
    put_range(notes, "patch", &board.patch);
    notes.end("first: correct `spm` or `patch` of the board");
}

/// What to do about a segment in the patch range. One without a section is as relinking makes it.
fn patch_cure(file: &UncheckedFile, segment: &RawSegment) -> &'static str {
    if file.first_section(segment).is_empty() {
        "first: give the file that the linker wrote: this one has been relinked, and can't be once more"
    } else {
        "first: correct the linker script, or `patch` of the board"
    }
}

/// Begins a line by a segment's range, and goes on with words.
fn put_segment(notes: &mut Notes, file: &UncheckedFile, segment: &RawSegment, words: &str) {
    notes.begin(
        "the segment of {}, from {} to {},",
        &[
            Piece::Name(file.first_section(segment)),
            Piece::Hex(segment.vaddr),
            Piece::Hex(segment.vaddr.wrapping_add(segment.memsz)),
        ],
    );
    notes.put(words, &[]);
}

/// Goes on by a line of a range of the board, and begins another line.
fn put_range(notes: &mut Notes, key: &str, range: &Range) {
    notes.put(
        "{} of the board is from {} to {}\n",
        &[
            Piece::Name(key.as_bytes()),
            Piece::Hex(range.base),
            Piece::Hex(range.base.wrapping_add(range.size)),
        ],
    );
}

/// A segment outside the board's memories.
fn say_outside(notes: &mut Notes, file: &UncheckedFile, segment: &RawSegment, board: &Board) {
    put_segment(notes, file, segment, " lies in no memory of the board\n");
    put_range(notes, "main", &board.main);
    notes.end(if segment.offset == 0 {
        "first: the segment begins with the ELF header: link with -Wl,-N or a linker script, or make `main` larger"
    } else {
        "first: correct the linker script, or `main` or `areas` of the board"
    });
}

/// Code that lies far from the patch range or from other code.
fn say_far(notes: &mut Notes, file: &UncheckedFile, board: &Board) {
    notes.begin(
        "the code and the patch range span over 1 MiB, more than a jump reaches:\n",
        &[],
    );
    put_code(notes, file);
    put_range(notes, "patch", &board.patch);
    notes.end(
        "first: link all code together, .init too (-Wl,-N -Wl,--section-start=.init=ADDRESS), near `patch`",
    );
}

/// Goes on by a line for each of the first sections of code, and begins another line.
fn put_code(notes: &mut Notes, file: &UncheckedFile) {
    let mut told: u32 = 0;
    for k in 0..file.section_count() {
        let section = file.section(k);
        if section.is_code() && told < TOLD_SECTIONS {
            told += 1;
            notes.put(
                "  code of {} at {}\n",
                &[Piece::Name(file.section_name(k)), Piece::Hex(section.addr)],
            );
        }
    }
}
