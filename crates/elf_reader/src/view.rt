/// What an ELF file says, borrowed from its bytes.
#[derive(Drop)]
pub struct ElfView<'a> {
    /// The whole file.
    pub bytes: &'a [u8],
    /// The address at which execution begins (`e_entry`).
    pub entry: u32,
    /// `e_flags`.
    pub flags: u32,
    /// Where the program headers begin in the file, in bytes (`e_phoff`).
    pub ph_at: u32,
    /// How many program headers there are (`e_phnum`).
    pub ph_count: u32,
    /// The segments to be loaded, those of type `PT_LOAD`, in the order of their program headers.
    pub segments: Vec<Segment<'a>>,
    /// All sections, in the order of their section headers; section 0 is the null section.
    pub sections: Vec<Section<'a>>,
    /// The symbols of the symbol table, in its order; symbol 0 is the null symbol. None without a table.
    pub symbols: Vec<Symbol<'a>>,
    /// The relocations that change allocated sections, in the order of their relocation sections.
    pub relocs: Vec<Reloc>,
}

/// A segment to be loaded into memory (ELF, "Program Header").
#[derive(Debug, Drop)]
pub struct Segment<'a> {
    /// The number of its program header, from 0.
    pub index: u32,
    /// Where its bytes begin in the file (`p_offset`).
    pub offset: u32,
    /// Its first address (`p_vaddr`).
    pub vaddr: u32,
    /// Its size in memory, in bytes (`p_memsz`). What is not in `bytes` is zeros.
    pub memsz: u32,
    /// `p_flags`: 1 executable, 2 writable, 4 readable.
    pub flags: u32,
    /// Its bytes in the file, `p_filesz` of them.
    pub bytes: &'a [u8],
}

/// A section (ELF, "Sections").
#[derive(Drop)]
pub struct Section<'a> {
    /// Its name, without the zero byte that ends it.
    pub name: &'a [u8],
    /// `sh_type`: 0 NULL, 1 PROGBITS, 2 SYMTAB, 3 STRTAB, 4 RELA, 8 NOBITS, 9 REL.
    pub kind: u32,
    /// `sh_flags`: 1 writable, 2 allocated, 4 executable.
    pub flags: u32,
    /// Its first address.
    pub addr: u32,
    /// Where its content begins in the file, in bytes.
    pub offset: u32,
    /// Its size, in bytes.
    pub size: u32,
    /// `sh_link`.
    pub link: u32,
    /// `sh_info`.
    pub info: u32,
    /// Its content in the file; empty for the types NULL and NOBITS.
    pub bytes: &'a [u8],
}

/// A symbol (ELF, "Symbol Table").
#[derive(Debug, Drop)]
pub struct Symbol<'a> {
    /// Its name, without the zero byte that ends it.
    pub name: &'a [u8],
    /// `st_value`, an address in an executable file.
    pub value: u32,
    /// Its size, in bytes.
    pub size: u32,
    /// The low half of `st_info`: 0 NOTYPE, 1 OBJECT, 2 FUNC, 3 SECTION.
    pub kind: u8,
    /// `st_shndx`, the number of its section, or 0xFF00 and above for the reserved numbers.
    pub section: u32,
    /// Where its record begins in the file, in bytes.
    pub at: u32,
}

/// A relocation (ELF, "Relocation"; RISC-V psABI, "Relocations").
#[derive(Clone, Copy)]
pub struct Reloc {
    /// The address of the first byte that it changes (`r_offset`).
    pub at: u32,
    /// Its kind, the lowest byte of `r_info`.
    pub kind: u32,
    /// The number of its symbol, the upper 24 bits of `r_info`.
    pub symbol: u32,
    /// `r_addend`.
    pub addend: i32,
    /// The number of the section that it changes (`sh_info` of the relocation section).
    pub section: u32,
}
