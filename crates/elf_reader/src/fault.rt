use thiserror::Error;

/// The first check that a file fails, in the order in which `read` makes them.
///
/// An index counts from 0. A count past 2 ^ 32 - 1 is given as 2 ^ 32 - 1.
#[derive(Clone, Copy, Debug, Error)]
pub enum ElfFault {
    /// The file has `have` bytes, fewer than the `need` bytes of an ELF header.
    #[error("the file has {have} bytes of the {need} of an ELF header")]
    TooShort { need: u32, have: u32 },
    /// The file does not begin with the magic number; byte `at` is the first that differs.
    #[error("no ELF file: byte {at} is not that of the magic number")]
    NotElf { at: u32 },
    /// A field has a value that is not supported. The fields are 1 `EI_CLASS`, 2 `EI_DATA`, 3 `EI_VERSION`,
    /// 4 `e_type`, 5 `e_machine`, 6 `e_version`, 7 `e_flags`, 8 `e_ehsize`, 9 `e_phentsize`,
    /// 10 `e_shentsize`, 11 `p_type`, 12 `p_filesz`, 13 `p_memsz`, 14 `sh_type`. Fields 15 to 21 are of whole
    /// sections: 15 a second symbol table, 20 a table or section that meets the ELF header, and 21 a symbol
    /// table that meets a section header or another section, with the section's number as the value; 16 the
    /// `sh_entsize` of the symbol table, 17 that of a relocation section.
    #[error("field {field} has the value {value}")]
    WrongKind { field: u32, value: u32 },
    /// A record of a table does not lie inside the file: of table 1 program header `index`, of table 2 the
    /// bytes of the segment of program header `index`, of table 3 section header `index`, of table 4 the
    /// content of section `index`.
    #[error("record {index} of table {table} is not inside the file")]
    OutOfFile { table: u32, index: u32 },
    /// A number or a name leads nowhere: of table 3 `e_shstrndx` is `index`, of table 4 the `sh_link` of the
    /// symbol table, of table 5 the name of section `index`, of table 6 the name or section of symbol `index`,
    /// of table 7 the `sh_info` or `sh_link` of relocation section `index`, of table 8 the symbol of relocation
    /// `index`. Relocations are counted over all sections whose relocations are read.
    #[error("record {index} of table {table} names nothing")]
    BadIndex { table: u32, index: u32 },
    /// Relocation `index` is of a kind that is not supported.
    #[error("relocation {index} has the unsupported kind {kind}")]
    Unsupported { index: u32, kind: u32 },
    /// Too much of something: 1 bytes of the file, 2 program headers, 3 section headers, 4 bytes of
    /// all segments in memory, 5 symbols, 6 relocations.
    #[error("{count} is over limit {what}")]
    OverLimit { what: u32, count: u32 },
    /// A section that has memory when the program runs is compressed.
    #[error("section {section} is compressed")]
    Compressed { section: u32 },
    /// Two segments share an address. `first` and `second` number their program headers, the lower one
    /// first.
    #[error("segments {first} and {second} overlap")]
    Overlap { first: u32, second: u32 },
    /// No memory was left.
    #[error("out of memory")]
    Memory,
}
