use crate::notes::{Notes, Piece};
use crate::unchecked::UncheckedFile;

/// Goes on with a line by a place of the code: its address, and its function or section.
pub(crate) fn put_place(notes: &mut Notes, file: &UncheckedFile, address: u32) {
    match file.code_symbol(address) {
        Some(function) => notes.put(
            " at {}, in {} + {}",
            &[
                Piece::Hex(address),
                Piece::Name(file.text(function.name)),
                Piece::Number(u64::from(address.wrapping_sub(function.value))),
            ],
        ),
        None => {
            let name = match file.section_at(address) {
                Some(section) => file.section_name(section),
                None => &[],
            };
            notes.put(
                " at {}, in section {}",
                &[Piece::Hex(address), Piece::Name(name)],
            )
        }
    }
}
