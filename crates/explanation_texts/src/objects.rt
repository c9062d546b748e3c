use crate::cures::before_name;
use crate::notes::{Notes, Piece};
use crate::unchecked::{RawSegment, UncheckedFile};

/// How the names begin of the anchors that GCC makes for sections.
const ANCHOR: &[u8] = b".LANCHOR";

/// Whether a symbol is an anchor that GCC makes for a section.
pub fn is_anchor(name: &[u8]) -> bool {
    name.starts_with(ANCHOR)
}

/// A label by which a relocation leads into an object.
#[derive(Clone, Copy)]
pub struct Label<'a> {
    /// Its name.
    pub name: &'a [u8],
    /// The name of the section that the relocation changes.
    pub changed: &'a [u8],
    /// The name of the object.
    pub object: &'a [u8],
}

/// Objects of a section that stay. Without a reason of these two the board lists them, they overlap, or a relocation does not
/// tell how their addresses are made.
#[derive(Clone, Copy)]
pub struct PinnedSection<'a> {
    /// The name of the section.
    pub name: &'a [u8],
    /// How many objects of it stay.
    pub fixed: u64,
    /// Whether the board keeps all of `.bss`.
    pub is_zeros: bool,
    /// A label by which a relocation leads to one of them.
    pub label: Option<Label<'a>>,
    /// What its reads and writes would save in the scratchpad, where that is known.
    pub at_stake: Option<Stake>,
}

/// What reads and writes would save in the scratchpad.
#[derive(Clone, Copy)]
pub struct Stake {
    /// How many thousandths of the measured run's energy.
    pub thousandths: u64,
    /// From how many of the run's first steps it is reckoned, if not from all.
    pub first_steps: Option<u64>,
}

/// What frees objects, by what the label begins with that pins them, or ends with.
struct LabelCure {
    start: &'static [u8],
    end: &'static [u8],
    /// A line of what to do first.
    words: &'static str,
}

const LABEL_CURES: [LabelCure; 5] = [
    LabelCure {
        start: b"__start_",
        end: b"",
        words: "first: a program walks the section as one table from its label, so its objects stay; no cure is needed",
    },
    LabelCure {
        start: b"__stop_",
        end: b"",
        words: AFTER_LABEL,
    },
    LabelCure {
        start: b"",
        end: b"_end",
        words: AFTER_LABEL,
    },
    LabelCure {
        start: b"",
        end: b"data_start",
        words: COPIED,
    },
    LabelCure {
        start: b"",
        end: b"_sdata",
        words: COPIED,
    },
];

const AFTER_LABEL: &str = "first: put a gap behind the label in the linker script: . = . + 4;";

const COPIED: &str =
    "first: leave the loop that copies .data out of the start code, and AT> out of the linker script";

/// That nothing moved, and how many objects may move.
pub fn say_nothing_moved(notes: &mut Notes, movable: u64, total: u64) {
    if total == 0 {
        notes.say_words(
            "nothing moved: the file has no objects, which are symbols of type OBJECT with a size (strip by strip -g alone)",
        );
        return;
    }
    notes.say(
        "nothing moved: {} of {} objects may move{}",
        &[
            Piece::Number(movable),
            Piece::Number(total),
            Piece::Text(if movable == 0 {
                ""
            } else {
                ", and in this run none saves more than it costs to copy it"
            }),
        ],
    );
}

/// What to do where no access costs less in the scratchpad.
pub const LOWER_PRICES: &str =
    "first: let spm_fetch, spm_read and spm_write in [price] of the board be less than main_fetch, main_read and main_write";

/// What to do where all objects may move, and none pays.
pub const LONGER_RUN: &str =
    "first: measure a longer run, as on a longer input: a copy is paid once";

/// How the names end of output sections that have a library's objects alone, as in examples/board.ld.
const LIBRARY: &[u8] = b".library";

/// How many sources are told at most.
const TOLD_SOURCES: usize = 4;

/// Objects of a section that stay, why, and what frees them; of zeros also what keeps them then, if that is an anchor. The
/// sources are those that have anchors in it.
pub fn say_pinned(notes: &mut Notes, section: &PinnedSection, sources: &[&[u8]]) {
    if section.is_zeros {
        begin_stay(notes, section);
        notes.end(
            "`bss` of the board is \"fixed\"\nfirst: write bss = \"movable\" into the board, if no start code clears the section by its addresses",
        );
    }
    match section.label {
        Some(label) if !section.is_zeros || is_anchor(label.name) => {
            say_label(notes, section, &label, sources)
        }
        None if !section.is_zeros => {
            begin_stay(notes, section);
            notes.end(
                "`fix` of the board lists them, they overlap, or a relocation does not tell how their addresses are made",
            );
        }
        _ => {}
    }
}

/// How many other sections have objects that stay.
pub fn say_more_sections(notes: &mut Notes, count: u64) {
    let words = if count == 1 {
        "objects of {} more section stay"
    } else {
        "objects of {} more sections stay"
    };
    notes.say(words, &[Piece::Number(count)]);
}

fn begin_stay(notes: &mut Notes, section: &PinnedSection) {
    let words = if section.fixed == 1 {
        "{} object of {} stays: "
    } else {
        "{} objects of {} stay: "
    };
    notes.begin(
        words,
        &[Piece::Number(section.fixed), Piece::Name(section.name)],
    );
}

fn say_label(notes: &mut Notes, section: &PinnedSection, label: &Label, sources: &[&[u8]]) {
    if section.is_zeros {
        notes.begin("with that they still stay: ", &[]);
    } else {
        begin_stay(notes, section);
    }
    notes.put(
        "a relocation in {} leads to {} by the label {}, and so none may move\n",
        &[
            Piece::Name(label.changed),
            Piece::Name(label.object),
            Piece::Name(label.name),
        ],
    );
    if let Some(stake) = section.at_stake {
        put_stake(notes, stake);
    }
    if is_anchor(label.name) {
        end_by_anchor_cure(notes, section.name, sources);
    } else {
        notes.end(cure_of(section.name, label));
    }
}

/// Goes on by a line of what is at stake.
fn put_stake(notes: &mut Notes, stake: Stake) {
    notes.put(
        "  at stake is up to {} of the energy: what the reads and writes there would save in the scratchpad",
        &[Piece::Percent(stake.thousandths)],
    );
    if let Some(steps) = stake.first_steps {
        notes.put(
            ", reckoned from the first {} steps",
            &[Piece::Number(steps)],
        );
    }
    notes.put("\n", &[]);
}

/// Whether an output section has a library's objects alone, by its name.
pub fn is_library(section: &[u8]) -> bool {
    section.ends_with(LIBRARY)
}

/// Ends a line by what frees objects from anchors, and the sources that have these.
fn end_by_anchor_cure(notes: &mut Notes, section: &[u8], sources: &[&[u8]]) {
    if is_library(section) {
        notes.end(
            "first: a library was compiled with anchors: objects of its own stay, and no others; no cure is needed",
        );
        return;
    }
    notes.put(
        "first: compile with -fno-section-anchors or -fdata-sections",
        &[],
    );
    for (place, source) in sources.iter().enumerate() {
        if place < TOLD_SOURCES {
            let before = before_name(place, " (the anchors are of ");
            notes.put("{}{}", &[Piece::Text(before), Piece::Name(source)]);
        }
    }
    if sources.len() > TOLD_SOURCES {
        let more = sources.len().saturating_sub(TOLD_SOURCES) as u64;
        notes.put(" and of {} more sources", &[Piece::Number(more)]);
    }
    notes.end(if sources.is_empty() {
        ""
    } else {
        "); a library that you don't compile gets an output section of its own, as .rodata.library in examples/board.ld"
    });
}

/// What frees objects from a label.
fn cure_of(section: &[u8], label: &Label) -> &'static str {
    if label.changed.starts_with(b".eh_frame") {
        return "first: compile with -fno-asynchronous-unwind-tables -fno-unwind-tables, or discard .eh_frame, or put a gap before the section";
    }
    for row in &LABEL_CURES {
        if label.name.starts_with(row.start) && label.name.ends_with(row.end) {
            return row.words;
        }
    }
    if section.starts_with(b".bss") || section.starts_with(b".sbss") {
        return "first: leave the loop that clears .bss out of the start code, or let .bss be bytes of the file, as a part of .data";
    }
    "first: put a gap behind the label in the linker script (. = . + 4;), or give it a type and a size"
}

/// A segment that would be copied from a load address.
pub fn say_load_address(notes: &mut Notes, file: &UncheckedFile, segment: &RawSegment) {
    notes.say(
        "the segment of {} runs at {}, and its load address is {}: it is loaded where it runs, and nothing is loaded there\nfirst: leave AT> out of the linker script, and the loop that copies the section out of the start code",
        &[
            Piece::Name(file.first_section(segment)),
            Piece::Hex(segment.vaddr),
            Piece::Hex(segment.paddr),
        ],
    );
}
