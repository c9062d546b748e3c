use crate::cures::{BARE_UPPER, OTHER_UPPER};
use crate::faults::Unpaired;
use crate::notes::{Notes, Piece};
use crate::places::put_place;
use crate::runs::say_instruction;
use crate::unchecked::UncheckedFile;

/// The objects of whose addresses a unit takes parts that don't belong together, by name.
#[derive(Clone, Copy)]
pub struct MixedParts<'a> {
    /// That of the low part; empty where there is none.
    pub low: &'a [u8],
    /// That of the upper part.
    pub upper: &'a [u8],
}

/// That a measured run is not paired.
pub const UNPAIRED_RUN: &str =
    "the measured run is not paired: FILE may do something else than its program";

/// The first unit by which a run is not paired.
pub fn say_unpaired(
    notes: &mut Notes,
    file: &UncheckedFile,
    unpaired: &Unpaired,
    parts: &MixedParts,
) {
    let stands = "the first instruction that is not paired stands";
    say_instruction(notes, file, stands, unpaired.pc);
    let end = match unpaired.object {
        Some(_) => {
            notes.begin(
                "it adds the low part of an address in {} to the upper part of an address in {}",
                &[Piece::Name(parts.low), Piece::Name(parts.upper)],
            );
            OTHER_UPPER
        }
        None => {
            notes.begin(
                "it takes the low bits of the upper part of an address in {}",
                &[Piece::Name(parts.upper)],
            );
            BARE_UPPER
        }
    };
    match unpaired.upper {
        Some(address) => {
            notes.put(" that stands", &[]);
            put_place(notes, file, address)
        }
        None => notes.put(" that a lui made", &[]),
    }
    notes.end(end);
}
