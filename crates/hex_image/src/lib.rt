//! Intel HEX: writes a file's segments as text, reads a text, and compares both.
#![tactic(auto)]

mod comparing;
mod fault;
mod image;
mod laws;
mod reading;
mod records;
mod writing;

pub use comparing::first_difference;
pub use fault::HexFault;
pub use image::{HexImage, HexRun};
pub use laws::{one_spelling, text_spells_image};
pub use reading::read_hex;
pub use writing::{record_count, write_hex};
