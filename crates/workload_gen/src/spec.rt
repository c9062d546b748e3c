use elf_reader::Reloc;

/// What a file to be built holds.
#[derive(Drop)]
pub struct FileSpec {
    /// The address at which execution begins.
    pub entry: u32,
    /// The sections, each a segment of its own. The null section comes before them.
    pub sections: Vec<SectionSpec>,
    /// The symbols. The null symbol comes before them.
    pub symbols: Vec<SymbolSpec>,
}

/// A section of a file to be built.
#[derive(Drop)]
pub struct SectionSpec {
    /// Its name.
    pub name: String,
    /// Its first address.
    pub addr: u32,
    /// Its bytes in the file.
    pub bytes: Vec<u8>,
    /// Where it is more than 0, the section has no bytes in the file and this many in memory (`SHT_NOBITS`).
    pub empty: u32,
    /// `sh_flags`: 1 writable, 2 allocated, 4 executable.
    pub flags: u32,
    /// The relocations that change it, by symbol numbers of the file. Their `section` plays no part.
    pub relocs: Vec<Reloc>,
}

/// A symbol of a file to be built.
#[derive(Drop)]
pub struct SymbolSpec {
    /// Its name.
    pub name: String,
    /// Its value.
    pub value: u32,
    /// Its size, in bytes.
    pub size: u32,
    /// Its type, below 16: 0 NOTYPE, 1 OBJECT, 2 FUNC, 3 SECTION.
    pub kind: u8,
    /// The number of its section, below 2^16; section 1 is the first that the file's spec lists.
    pub section: u32,
}
