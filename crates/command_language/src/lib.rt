//! The language of the command line: which command its words spell, the text that lists the inputs of a mix, and why a command
//! has no result, with the status and the line that tell so.
#![tactic(auto)]

mod commands;
mod faults;
mod mix_laws;
mod numbers;
mod parsing;
mod parts;
mod reading;
mod word_lists;

pub use commands::{Command, NamedWord};
pub use faults::CommandFault;
pub use mix_laws::{broken_is_first, example_faults, example_mix, unbroken_is_spelled};
pub use numbers::{are_digits, digits_value};
pub use parsing::parse;
pub use parts::{MixFault, MixInput};
pub use reading::read_mix;
