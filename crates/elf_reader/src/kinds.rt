//! Numbers of kinds in an ELF file.

/// A segment to be loaded (ELF, "Program Header": `p_type`).
pub const PT_LOAD: u32 = 1;

/// A section header that stands for no section (ELF, "Sections": `sh_type`, as the next six).
pub const SHT_NULL: u32 = 0;

/// A section with content.
pub const SHT_PROGBITS: u32 = 1;

/// A symbol table.
pub const SHT_SYMTAB: u32 = 2;

/// A string table.
pub const SHT_STRTAB: u32 = 3;

/// Relocations with addends.
pub const SHT_RELA: u32 = 4;

/// A section without content in the file.
pub const SHT_NOBITS: u32 = 8;

/// Relocations without addends.
pub const SHT_REL: u32 = 9;

/// The bit of `sh_flags` for executable content, which `SHF_EXECINSTR` has set.
pub const EXECUTABLE_BIT: u32 = 2;

/// A symbol of an object (ELF, "Symbol Table": the low half of `st_info`, as the next two).
pub const STT_OBJECT: u8 = 1;

/// A symbol of a function.
pub const STT_FUNC: u8 = 2;

/// A symbol of a section.
pub const STT_SECTION: u8 = 3;

/// A word that holds an address (RISC-V psABI, "Relocations", as the next six).
pub const R_RISCV_32: u32 = 1;

/// The upper part of an AUIPC.
pub const R_RISCV_PCREL_HI20: u32 = 23;

/// The low part behind an AUIPC, of a load or an ADDI.
pub const R_RISCV_PCREL_LO12_I: u32 = 24;

/// The low part behind an AUIPC, of a store.
pub const R_RISCV_PCREL_LO12_S: u32 = 25;

/// The upper part of a LUI.
pub const R_RISCV_HI20: u32 = 26;

/// The low part behind a LUI, of a load or an ADDI.
pub const R_RISCV_LO12_I: u32 = 27;

/// The low part behind a LUI, of a store.
pub const R_RISCV_LO12_S: u32 = 28;
