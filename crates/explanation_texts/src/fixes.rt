use crate::cures::{before_name, text_at};
use crate::faults::{AddressFault, Way};
use crate::notes::{Notes, Piece};
use crate::objects::say_load_address;
use crate::runs::{Involved, reason_of, say_instruction};
use crate::unchecked::UncheckedFile;

/// The greatest word, as the number -1.
const MINUS_ONE: u32 = u32::MAX;

/// The reason of an access to what is no data.
const NO_DATA: u32 = 3;

/// What to do where no object is known, by the numbers of the reasons.
const CURES: [&str; 10] = [
    "",
    "correct the program",
    "correct the program",
    "keep constants out of sections with code (.rodata of its own), and copy nothing from load addresses",
    "link with -Wl,--emit-relocs, and clear or copy no section by its addresses",
    "compile with -mno-explicit-relocs or -fno-ivopts, or keep objects by `fix` of the board",
    "keep symbols and relocations (strip -g alone), and jump to functions by their names",
    "keep the objects that are compared by `fix` of the board",
    "do not write addresses out",
    "correct the program",
];

/// What a search for objects to keep came to.
#[derive(Clone, Copy)]
pub enum FixEnd {
    /// With these kept the run meets no address fault.
    Whole,
    /// It ended at its bound of runs or steps.
    Cut,
    /// The run meets an address fault even with all objects kept.
    Useless,
}

/// A list of objects to keep.
#[derive(Clone, Copy)]
pub struct FixList<'a> {
    /// What the board keeps already.
    pub kept: &'a [String],
    /// What else is to be kept.
    pub names: &'a [&'a [u8]],
    /// How many runs were tried.
    pub runs: u64,
    /// What these came to.
    pub end: FixEnd,
}

/// A cure that is due before any object is kept, if one is.
#[derive(Clone, Copy)]
enum EarlyCure {
    Symbols,
    Relocations,
    LoadAddress,
}

/// Whether objects are to be kept at all, because of an address fault: not where something else is to be done first.
pub fn may_keep(file: &UncheckedFile, fault: &AddressFault, involved: &Involved) -> bool {
    early_cure(file, fault, involved).is_none()
}

fn early_cure(
    file: &UncheckedFile,
    fault: &AddressFault,
    involved: &Involved,
) -> Option<EarlyCure> {
    if fault.why == NO_DATA && file.segment_loaded_apart().is_some() {
        return Some(EarlyCure::LoadAddress);
    }
    if !involved.has_symbols {
        return Some(EarlyCure::Symbols);
    }
    if involved.has_relocations {
        None
    } else {
        Some(EarlyCure::Relocations)
    }
}

/// What to do about an address fault where no list of objects was sought, or none helps. It fails only where no memory was
/// left.
pub fn say_fault_cure(
    notes: &mut Notes,
    file: &UncheckedFile,
    fault: &AddressFault,
    involved: &Involved,
) {
    match early_cure(file, fault, involved) {
        Some(EarlyCure::LoadAddress) => match file.segment_loaded_apart() {
            Some(segment) => say_load_address(notes, file, &segment),
            None => {}
        },
        Some(EarlyCure::Symbols) => notes.say_words(
            "first: the file has no symbols: strip by strip -g alone, before relink, and link without -s",
        ),
        Some(EarlyCure::Relocations) => {
            notes.say_words("first: the file has no relocations: link with -Wl,--emit-relocs")
        }
        None if fault.why == NO_DATA && involved.bytes.is_empty() => notes.say_words(
            "first: let the start code set the stack pointer (sp), and list device registers in `areas` of the board",
        ),
        None => notes.say("first: {}", &[Piece::Text(text_at(&CURES, fault.why))]),
    }
}

/// An address fault that the run meets where what the ones before involve is kept.
pub fn say_further_fault(
    notes: &mut Notes,
    file: &UncheckedFile,
    fault: &AddressFault,
    involved: &Involved<'_>,
) {
    say_instruction(notes, file, "with that kept, address fault", fault.pc);
    notes.begin("  {}", &[Piece::Text(reason_of(fault.why))]);
    put_involved(notes, ": {}", involved.object);
    put_involved(notes, ", and of {}", involved.other);
    if involved.object.is_empty() && involved.other.is_empty() {
        put_involved(notes, ": {}", involved.bytes);
    }
    notes.end("");
}

fn put_involved(notes: &mut Notes, words: &str, name: &[u8]) {
    if !name.is_empty() {
        notes.put(words, &[Piece::Name(name)]);
    }
}

/// How many more address faults there were on the way to a list.
pub const MORE_FAULTS: &str = "{} more address faults were met likewise";

/// That the run meets an address fault even with all objects kept.
pub fn say_no_list(notes: &mut Notes, file: &UncheckedFile, fault: &AddressFault) {
    notes.say_words("no list of `fix` helps: with all objects kept,");
    say_instruction(notes, file, "  address fault", fault.pc);
    notes.say("  {}", &[Piece::Text(reason_of(fault.why))]);
}

/// The list, as one line of the board, and what else lets the objects move.
pub fn say_fix(notes: &mut Notes, list: &FixList, fault: &AddressFault, involved: &Involved) {
    let words = match list.end {
        FixEnd::Whole =>
            "first: write the next line into the board{}: with it this run meets no address fault, as {} {} showed",
        FixEnd::Cut | FixEnd::Useless =>
            "first: write the next line into the board{}: with it this run comes further; a list with which it meets no address fault was not found in {} {}",
    };
    notes.say(
        words,
        &[
            Piece::Text(if list.kept.is_empty() {
                ""
            } else {
                " in place of its `fix`"
            }),
            Piece::Number(list.runs),
            Piece::Text(if list.runs == 1 { "run" } else { "runs" }),
        ],
    );
    say_list(notes, list);
    let cure = other_cure(fault, involved);
    if !cure.is_empty() {
        notes.say("or {}", &[Piece::Text(cure)]);
    }
}

/// The line of the board.
fn say_list(notes: &mut Notes, list: &FixList) {
    notes.begin("fix = [", &[]);
    for (place, name) in list.kept.iter().enumerate() {
        put_listed(notes, before_name(place, ""), name.as_bytes());
    }
    let first = if list.kept.is_empty() { "" } else { ", " };
    for (place, name) in list.names.iter().enumerate() {
        put_listed(notes, before_name(place, first), name);
    }
    notes.end("]");
}

/// Goes on with the line by a name.
fn put_listed(notes: &mut Notes, before: &str, name: &[u8]) {
    notes.put("{}{}", &[Piece::Text(before), Piece::Quoted(name)]);
}

/// What else than to keep the object.
fn other_cure(fault: &AddressFault, involved: &Involved) -> &'static str {
    if is_made(fault, Way::Tested) {
        return "branch on the pointer, in place of keeping whether it is null as a number";
    }
    let compared = fault.culprit.compared;
    match fault.why {
        1 => "correct the program",
        4 => "clear or copy no section by its addresses",
        5 | 7 if is_made(fault, Way::Computed) => {
            "compile with -fno-ivopts, where the source does no such arithmetic: no hash of a pointer, no bits in it, no sentinel"
        }
        5 => "compile with -mno-explicit-relocs",
        7 if compared == Some(MINUS_ONE) => "tell failure by NULL in place of (void *)-1",
        7 if involved.has_anchors => {
            "compile with -fno-section-anchors (an anchor keeps the other object)"
        }
        _ => "",
    }
}

/// Whether a value of a fault was made so.
fn is_made(fault: &AddressFault, way: Way) -> bool {
    for origin in &[fault.culprit.origin, fault.culprit.other] {
        if let Some(origin) = origin {
            if origin.way == way {
                return true;
            }
        }
    }
    false
}
