/// The fields that `ElfFault::WrongKind` numbers.
pub mod field {
    pub const EI_CLASS: u32 = 1;

    pub const EI_DATA: u32 = 2;

    pub const EI_VERSION: u32 = 3;

    pub const E_TYPE: u32 = 4;

    pub const E_MACHINE: u32 = 5;

    pub const E_VERSION: u32 = 6;

    pub const E_FLAGS: u32 = 7;

    pub const E_EHSIZE: u32 = 8;

    pub const E_PHENTSIZE: u32 = 9;

    pub const E_SHENTSIZE: u32 = 10;

    pub const P_TYPE: u32 = 11;

    pub const P_FILESZ: u32 = 12;

    pub const P_MEMSZ: u32 = 13;

    pub const SH_TYPE: u32 = 14;

    /// A second symbol table.
    pub const SECOND_SYMBOL_TABLE: u32 = 15;

    /// `sh_entsize` of the symbol table.
    pub const SYMBOL_ENTSIZE: u32 = 16;

    /// `sh_entsize` of a relocation section.
    pub const RELOCATION_ENTSIZE: u32 = 17;

    /// A range that meets the ELF header.
    pub const MEETS_FILE_HEADER: u32 = 20;

    /// A symbol table that meets a section header or another section.
    pub const SHARED_SYMBOL_TABLE: u32 = 21;
}

/// The tables that `ElfFault::OutOfFile` and `ElfFault::BadIndex` number.
pub mod table {
    pub const PROGRAM_HEADERS: u32 = 1;

    pub const SEGMENTS: u32 = 2;

    pub const SECTION_HEADERS: u32 = 3;

    pub const SECTIONS: u32 = 4;

    pub const SECTION_NAMES: u32 = 5;

    pub const SYMBOLS: u32 = 6;

    pub const RELOCATION_SECTIONS: u32 = 7;

    pub const RELOCATIONS: u32 = 8;
}

/// What `ElfFault::OverLimit` counts.
pub mod limit {
    pub const FILE_BYTES: u32 = 1;

    pub const PROGRAM_HEADERS: u32 = 2;

    pub const SECTION_HEADERS: u32 = 3;

    pub const MEMORY_BYTES: u32 = 4;

    pub const SYMBOLS: u32 = 5;

    pub const RELOCATIONS: u32 = 6;
}
