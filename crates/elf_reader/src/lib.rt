//! Reads a 32-bit RISC-V ELF executable: checks its records, and lends its segments, sections, symbols and relocations.
#![tactic(auto)]

mod fault;
mod header;
mod header_tables;
mod kinds;
mod laws;
mod limit_checks;
mod numbers;
mod program_headers;
mod ranges;
mod reading;
mod records;
mod relocation_checks;
mod relocations;
mod section_checks;
mod sections;
mod segments;
mod string_table;
mod symbol_checks;
mod symbols;
mod view;

pub use fault::ElfFault;
pub use kinds::{
    EXECUTABLE_BIT, PT_LOAD, R_RISCV_32, R_RISCV_HI20, R_RISCV_LO12_I, R_RISCV_LO12_S,
    R_RISCV_PCREL_HI20, R_RISCV_PCREL_LO12_I, R_RISCV_PCREL_LO12_S, SHT_NOBITS, SHT_NULL,
    SHT_PROGBITS, SHT_REL, SHT_RELA, SHT_STRTAB, SHT_SYMTAB, STT_FUNC, STT_OBJECT, STT_SECTION,
};
pub use laws::{loaded_bytes, segments_are_disjoint, segments_are_loadable};
pub use reading::read;
pub use records::{PROGRAM_HEADER_SIZE, RELOCATION_SIZE, SECTION_HEADER_SIZE, SYMBOL_SIZE};
pub use view::{ElfView, Reloc, Section, Segment, Symbol};
