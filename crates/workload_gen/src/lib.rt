//! Builds ELF files for tests, and the generated workloads.
#![tactic(auto)]

mod building;
mod generating;
mod headers;
mod instructions;
mod kernels;
mod laws;
mod main_function;
mod planned;
mod spec;
mod writing;

pub use building::build;
pub use generating::workload;
pub use laws::reads_back;
pub use spec::{FileSpec, SectionSpec, SymbolSpec};
