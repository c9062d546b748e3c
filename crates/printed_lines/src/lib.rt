//! The lines that tell what was found of a program: the counts of its run, what of it may move, what a choice saves,
//! and where stands what was taken. Addresses are `0x` and eight hexadecimal digits, other numbers are decimal, and
//! names are the bytes that the file holds.
#![tactic(auto)]

mod endings;
mod parts;
mod profiles;
mod reports;
mod shown;
mod taken;
mod text;

pub use endings::ending_line;
pub use parts::{address_text, symbol_name};
pub use profiles::profile_lines;
pub use reports::choice_report;
pub use shown::show_lines;
pub use taken::{TakenItem, push_taken_lines};
pub use text::{NamedPart, Text};
