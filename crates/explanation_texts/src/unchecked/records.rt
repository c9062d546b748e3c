use elf_reader::{PT_LOAD, SHT_RELA, SHT_SYMTAB, STT_FUNC};

/// The bytes of a section header, of a program header, of a symbol and of a relocation (ELF: `Elf32_Shdr`,
/// `Elf32_Phdr`, `Elf32_Sym`, `Elf32_Rela`).
const SECTION_HEADER_SIZE: u32 = 40;

const PROGRAM_HEADER_SIZE: u32 = 32;

const SYMBOL_SIZE: u32 = 16;

const RELOCATION_SIZE: u32 = 12;

/// `st_info`: the symbol names a source file.
const FILE_SYMBOL: u32 = 4;

/// `sh_flags`: the section has memory when the program runs.
const ALLOCATED: u32 = 2;

/// `sh_flags`: the section has code.
const EXECUTABLE: u32 = 4;

/// A file that the reader may refuse. What does not stand in it reads as 0, or as an empty name.
#[derive(Clone, Copy)]
pub struct UncheckedFile<'a> {
    /// All of the file.
    pub bytes: &'a [u8],
}

/// A section header.
#[derive(Clone, Copy)]
pub struct RawSection {
    /// Where its name begins in the table of names.
    name: u32,
    kind: u32,
    flags: u32,
    /// The address of its first byte.
    pub addr: u32,
    offset: u32,
    /// How many bytes it has.
    pub(crate) size: u32,
    link: u32,
    info: u32,
}

/// A program header.
#[derive(Clone, Copy)]
pub struct RawSegment {
    kind: u32,
    /// Where its bytes begin in the file.
    pub offset: u32,
    /// The address at which it runs.
    pub vaddr: u32,
    /// The address at which it is loaded.
    pub paddr: u32,
    filesz: u32,
    /// How many bytes it has in memory.
    pub memsz: u32,
}

/// A symbol. Its name may be long, and is read where it is told.
#[derive(Clone, Copy)]
pub struct RawSymbol {
    /// Where its name begins in the file.
    pub name: u32,
    /// Its address.
    pub value: u32,
    kind: u32,
    /// The number of its section.
    pub(crate) section: u32,
}

/// A relocation that stands in the file.
#[derive(Clone, Copy)]
pub struct RawRelocation {
    /// The address of what it changes.
    pub at: u32,
    /// Its kind (RISC-V psABI, "Relocations").
    pub kind: u32,
    /// Its symbol.
    pub symbol: RawSymbol,
    /// The number of its symbol, and the section of the table that has it.
    number: u32,
    table: RawSection,
    /// The number of the section that it changes.
    pub section: u32,
}

impl<'a> UncheckedFile<'a> {
    fn byte(&self, at: u32) -> u8 {
        match self.bytes.get(at as usize) {
            Some(byte) => *byte,
            None => 0,
        }
    }

    /// The byte `offset` behind `base`, one behind it, and so on.
    fn half(&self, base: u32, offset: u32) -> u32 {
        let at = base.saturating_add(offset);
        u32::from(u16::from_le_bytes([self.byte(at), self.byte(at.saturating_add(1))]))
    }

    fn word(&self, base: u32, offset: u32) -> u32 {
        let low = self.half(base, offset);
        let high = self.half(base, offset.saturating_add(2));
        low | high << 16
    }

    /// Where record `index` of a table begins.
    fn record(table: u32, size: u32, index: u32) -> u32 {
        table.saturating_add(size.saturating_mul(index))
    }

    /// How many section headers there are.
    pub fn section_count(&self) -> u32 {
        self.half(0, 48)
    }

    /// Section header `k`.
    pub fn section(&self, k: u32) -> RawSection {
        let at = UncheckedFile::record(self.word(0, 32), SECTION_HEADER_SIZE, k);
        RawSection {
            name: self.word(at, 0),
            kind: self.word(at, 4),
            flags: self.word(at, 8),
            addr: self.word(at, 12),
            offset: self.word(at, 16),
            size: self.word(at, 20),
            link: self.word(at, 24),
            info: self.word(at, 28),
        }
    }

    /// Program header `k`.
    pub fn segment(&self, k: u32) -> RawSegment {
        let at = UncheckedFile::record(self.word(0, 28), PROGRAM_HEADER_SIZE, k);
        RawSegment {
            kind: self.word(at, 0),
            offset: self.word(at, 4),
            vaddr: self.word(at, 8),
            paddr: self.word(at, 12),
            filesz: self.word(at, 16),
            memsz: self.word(at, 20),
        }
    }

    /// The last program header, if there is one.
    pub fn last_segment(&self) -> Option<RawSegment> {
        let last = self.half(0, 44).checked_sub(1)?;
        Some(self.segment(last))
    }

    /// The name of section `k`.
    pub fn section_name(&self, k: u32) -> &'a [u8] {
        let names = self.section(self.half(0, 50));
        self.text(names.offset.saturating_add(self.section(k).name))
    }

    /// The text at byte `at` of the file, without the zero byte that ends it.
    pub fn text(&self, at: u32) -> &'a [u8] {
        let Some(rest) = self.bytes.get(at as usize..) else {
            return &[];
        };
        match rest.split(|byte| *byte == 0).next() {
            Some(name) => name,
            None => &[],
        }
    }

    /// Symbol `k` of a table.
    pub fn symbol(&self, table: &RawSection, k: u32) -> RawSymbol {
        let at = UncheckedFile::record(table.offset, SYMBOL_SIZE, k);
        let names = self.section(table.link).offset;
        RawSymbol {
            name: names.saturating_add(self.word(at, 0)),
            value: self.word(at, 4),
            kind: self.half(at, 12) & 15,
            section: self.half(at, 14),
        }
    }

    /// The name of the source file of a relocation's symbol, where that is local and the file tells it: the last symbol before
    /// it that names a file does.
    pub fn source_of(&self, relocation: &RawRelocation) -> &'a [u8] {
        let table = &relocation.table;
        if relocation.number >= table.info {
            return &[];
        }
        for k in (0..relocation.number.min(table.symbol_count())).rev() {
            let symbol = self.symbol(table, k);
            if symbol.kind == FILE_SYMBOL {
                return self.text(symbol.name);
            }
        }
        &[]
    }

    /// The last function or label in the section of `address` at it or before it, by the first symbol table. The time grows
    /// with the number of symbols; `CodeSymbols` finds those of many addresses.
    pub fn code_symbol(&self, address: u32) -> Option<RawSymbol> {
        let table = self.symbol_table()?;
        let section = self.section_at(address)?;
        let mut last: Option<RawSymbol> = None;
        for k in 0..table.symbol_count() {
            let symbol = self.symbol(&table, k);
            if symbol.section == section
                && symbol.is_between(&last, address)
                && self.names_code(&symbol)
            {
                last = Some(symbol);
            }
        }
        last
    }

    /// Whether a symbol is a function, or a label that no tool makes: those are such as `.L0` and `$x`.
    pub(crate) fn names_code(&self, symbol: &RawSymbol) -> bool {
        match self.byte(symbol.name) {
            0 => false,
            b'.' | b'$' => symbol.kind == u32::from(STT_FUNC),
            _ => symbol.kind == 0 || symbol.kind == u32::from(STT_FUNC),
        }
    }

    /// The section of the first symbol table.
    pub fn symbol_table(&self) -> Option<RawSection> {
        for k in 0..self.section_count() {
            let section = self.section(k);
            if section.kind == SHT_SYMTAB {
                return Some(section);
            }
        }
        None
    }

    /// The section with memory that has the byte at `address`.
    pub fn section_at(&self, address: u32) -> Option<u32> {
        for k in 0..self.section_count() {
            let section = self.section(k);
            if section.is_allocated() && address.wrapping_sub(section.addr) < section.size {
                return Some(k);
            }
        }
        None
    }

    /// The word of a loaded segment at an address; 0 where none has it.
    pub fn code_word(&self, address: u32) -> u32 {
        for k in 0..self.half(0, 44) {
            let segment = self.segment(k);
            let place = address.wrapping_sub(segment.vaddr);
            if segment.kind == PT_LOAD && place < segment.filesz {
                return self.word(segment.offset, place);
            }
        }
        0
    }

    /// The first segment that is loaded, has bytes, and has another load address than run address.
    pub fn segment_loaded_apart(&self) -> Option<RawSegment> {
        for k in 0..self.half(0, 44) {
            let segment = self.segment(k);
            if segment.kind == PT_LOAD && segment.filesz != 0 && segment.paddr != segment.vaddr {
                return Some(segment);
            }
        }
        None
    }

    /// The name of the first section with memory in a segment; empty where there is none.
    pub fn first_section(&self, segment: &RawSegment) -> &'a [u8] {
        for k in 0..self.section_count() {
            let section = self.section(k);
            let place = section.addr.wrapping_sub(segment.vaddr);
            if section.is_allocated() && place < segment.memsz {
                return self.section_name(k);
            }
        }
        &[]
    }

    /// Relocation `index` of all those that change sections with memory.
    pub fn relocation(&self, index: u32) -> Option<RawRelocation> {
        let mut left = index;
        for k in 0..self.section_count() {
            let section = self.section(k);
            let count = self.relocation_count(&section);
            if left < count {
                return Some(self.relocation_of(&section, left));
            }
            left -= count;
        }
        None
    }

    /// How many relocations of a section change a section with memory.
    pub fn relocation_count(&self, section: &RawSection) -> u32 {
        let changes_memory = self.section(section.info).is_allocated();
        if section.kind == SHT_RELA && !section.is_allocated() && changes_memory {
            section.size / RELOCATION_SIZE
        } else {
            0
        }
    }

    /// Relocation `index` of a section.
    pub fn relocation_of(&self, section: &RawSection, index: u32) -> RawRelocation {
        let at = UncheckedFile::record(section.offset, RELOCATION_SIZE, index);
        let table = self.section(section.link);
        let info = self.word(at, 4);
        let number = info >> 8;
        RawRelocation {
            at: self.word(at, 0),
            kind: info & 0xff,
            symbol: self.symbol(&table, number),
            number,
            table,
            section: section.info,
        }
    }
}

impl RawSection {
    /// How many symbols it has, where it is a table of symbols.
    pub(crate) fn symbol_count(&self) -> u32 {
        self.size / SYMBOL_SIZE
    }

    /// Whether it has memory when the program runs.
    pub(crate) fn is_allocated(&self) -> bool {
        self.flags & ALLOCATED != 0
    }

    /// Whether it has memory and code.
    pub fn is_code(&self) -> bool {
        self.is_allocated() && self.flags & EXECUTABLE != 0
    }
}

impl RawSymbol {
    /// Whether it stands at an address or before it, and not before another symbol, if there is one.
    fn is_between(&self, other: &Option<RawSymbol>, address: u32) -> bool {
        match other {
            Some(other) => other.value <= self.value && self.value <= address,
            None => self.value <= address,
        }
    }
}
