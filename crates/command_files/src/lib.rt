//! What a command does with the files that it names, and with standard output: it reads them in their order, writes what
//! stands ready, and prints; each fault has its fault line ready, so that telling it takes no memory.
#![tactic(auto)]

mod diagnostic;
mod printing;
mod reading;
mod writing;

pub use diagnostic::Diagnostic;
pub use printing::put_text;
pub use reading::read_all;
pub use writing::{Output, write_all};
