ghost use Rattle.std.specs.Prelude.{◌≡◌, ℕ, ◌+◌, ◌*◌, ◌^◌, ◌<◌, ◌≤◌, length};
ghost use Rattle.elf_reader.specs.Layout.{half_in, word_in};

use byteorder::{ByteOrder, LittleEndian};

/// The bytes of an ELF header.
pub(crate) const FILE_HEADER_SIZE: usize = 52;

/// The bytes of a program header (ELF, "Program Header": `Elf32_Phdr`).
pub const PROGRAM_HEADER_SIZE: usize = 32;

/// The bytes of a section header (ELF, "Sections": `Elf32_Shdr`).
pub const SECTION_HEADER_SIZE: usize = 40;

/// The bytes of an entry of a symbol table (ELF, "Symbol Table": `Elf32_Sym`).
pub const SYMBOL_SIZE: usize = 16;

/// The bytes of a relocation with an addend (ELF, "Relocation": `Elf32_Rela`).
pub const RELOCATION_SIZE: usize = 12;

/// The fields of the ELF header that are read (ELF, "ELF Header": `Elf32_Ehdr`).
#[derive(Clone, Copy)]
pub(crate) struct FileHeader {
    pub e_type: u16,
    pub e_machine: u16,
    pub e_version: u32,
    pub e_entry: u32,
    pub e_phoff: u32,
    pub e_shoff: u32,
    pub e_flags: u32,
    pub e_ehsize: u16,
    pub e_phentsize: u16,
    pub e_phnum: u16,
    pub e_shentsize: u16,
    pub e_shnum: u16,
    pub e_shstrndx: u16,
}

impl FileHeader {
    ghost use Rattle.elf_reader.specs.Layout.{file_header};

    /// The header at the beginning of a file.
    #[tactic(auto, unfolding(crate::specs::Layout::file_header))]
    pub fn parse(bytes: &[u8]) -> FileHeader
        requires { FILE_HEADER_SIZE ≤ length bytes.now }
        ensures { result ≡ file_header bytes.now }
    {
        FileHeader {
            e_type: half(bytes, 16),
            e_machine: half(bytes, 18),
            e_version: word(bytes, 20),
            e_entry: word(bytes, 24),
            e_phoff: word(bytes, 28),
            e_shoff: word(bytes, 32),
            e_flags: word(bytes, 36),
            e_ehsize: half(bytes, 40),
            e_phentsize: half(bytes, 42),
            e_phnum: half(bytes, 44),
            e_shentsize: half(bytes, 46),
            e_shnum: half(bytes, 48),
            e_shstrndx: half(bytes, 50),
        }
    }

    /// Where program header `k` begins.
    pub fn program_header_at(&self, k: u16) -> usize
        ensures place { result ≡ self.now.e_phoff + 32 * k }
        ensures small { result < 2 ^ 33 }
    {
        self.e_phoff as usize + PROGRAM_HEADER_SIZE * k as usize
    }

    /// Where section header `k` begins.
    pub fn section_header_at(&self, k: u16) -> usize
        ensures place { result ≡ self.now.e_shoff + 40 * k }
        ensures small { result < 2 ^ 33 }
    {
        self.e_shoff as usize + SECTION_HEADER_SIZE * k as usize
    }
}

/// The fields of a program header that are read (ELF, "Program Header": `Elf32_Phdr`).
#[derive(Clone, Copy)]
pub(crate) struct ProgramHeader {
    pub p_type: u32,
    pub p_offset: u32,
    pub p_vaddr: u32,
    pub p_filesz: u32,
    pub p_memsz: u32,
    pub p_flags: u32,
}

impl ProgramHeader {
    ghost use Rattle.elf_reader.specs.Layout.{program_header_in};

    /// The program header at byte `at` of a file.
    #[tactic(auto, unfolding(crate::specs::Layout::program_header_in))]
    pub fn parse(bytes: &[u8], at: usize) -> ProgramHeader
        requires { at + PROGRAM_HEADER_SIZE ≤ length bytes.now }
        ensures { result ≡ program_header_in bytes.now at }
    {
        ProgramHeader {
            p_type: word(bytes, at),
            p_offset: word(bytes, at + 4),
            p_vaddr: word(bytes, at + 8),
            p_filesz: word(bytes, at + 16),
            p_memsz: word(bytes, at + 20),
            p_flags: word(bytes, at + 24),
        }
    }
}

/// The fields of a section header that are read (ELF, "Sections": `Elf32_Shdr`).
#[derive(Clone, Copy)]
pub(crate) struct SectionHeader {
    pub sh_name: u32,
    pub sh_type: u32,
    pub sh_flags: u32,
    pub sh_addr: u32,
    pub sh_offset: u32,
    pub sh_size: u32,
    pub sh_link: u32,
    pub sh_info: u32,
    pub sh_entsize: u32,
}

impl SectionHeader {
    ghost use Rattle.elf_reader.specs.Layout.{section_header_in};

    /// The section header at byte `at` of a file.
    #[tactic(auto, unfolding(crate::specs::Layout::section_header_in))]
    pub fn parse(bytes: &[u8], at: usize) -> SectionHeader
        requires { at + SECTION_HEADER_SIZE ≤ length bytes.now }
        ensures { result ≡ section_header_in bytes.now at }
    {
        SectionHeader {
            sh_name: word(bytes, at),
            sh_type: word(bytes, at + 4),
            sh_flags: word(bytes, at + 8),
            sh_addr: word(bytes, at + 12),
            sh_offset: word(bytes, at + 16),
            sh_size: word(bytes, at + 20),
            sh_link: word(bytes, at + 24),
            sh_info: word(bytes, at + 28),
            sh_entsize: word(bytes, at + 36),
        }
    }
}

/// The fields of a symbol that are read (ELF, "Symbol Table": `Elf32_Sym`).
#[derive(Clone, Copy)]
pub(crate) struct SymbolRecord {
    pub st_name: u32,
    pub st_value: u32,
    pub st_size: u32,
    pub st_info: u8,
    pub st_shndx: u16,
}

impl SymbolRecord {
    ghost use Rattle.elf_reader.specs.Layout.{symbol_record_in};

    /// The symbol at byte `at` of a file.
    #[tactic(auto, unfolding(crate::specs::Layout::symbol_record_in))]
    pub fn parse(bytes: &[u8], at: usize) -> SymbolRecord
        requires { at + SYMBOL_SIZE ≤ length bytes.now }
        ensures { result ≡ symbol_record_in bytes.now at }
    {
        SymbolRecord {
            st_name: word(bytes, at),
            st_value: word(bytes, at + 4),
            st_size: word(bytes, at + 8),
            st_info: bytes[at + 12],
            st_shndx: half(bytes, at + 14),
        }
    }
}

/// A relocation (ELF, "Relocation": `Elf32_Rela`).
#[derive(Clone, Copy)]
pub(crate) struct RelocationRecord {
    pub r_offset: u32,
    pub r_info: u32,
    pub r_addend: i32,
}

impl RelocationRecord {
    ghost use Rattle.elf_reader.specs.{Layout.{relocation_record_in}, Sections.{symbol_of_info, kind_of_info}};

    /// The relocation at byte `at` of a file.
    #[tactic(auto, unfolding(crate::specs::Layout::relocation_record_in))]
    pub fn parse(bytes: &[u8], at: usize) -> RelocationRecord
        requires { at + RELOCATION_SIZE ≤ length bytes.now }
        ensures { result ≡ relocation_record_in bytes.now at }
    {
        RelocationRecord {
            r_offset: word(bytes, at),
            r_info: word(bytes, at + 4),
            r_addend: word(bytes, at + 8).cast_signed(),
        }
    }

    /// The number of its symbol (ELF, "Relocation": `ELF32_R_SYM`).
    pub fn symbol(&self) -> u32
        ensures { result ≡ symbol_of_info self.now.r_info }
    {
        self.r_info >> 8
    }

    /// Its kind (ELF, "Relocation": `ELF32_R_TYPE`).
    pub fn kind(&self) -> u32
        ensures { result ≡ kind_of_info self.now.r_info }
    {
        self.r_info & 0xff
    }
}

/// The halfword at byte `at`.
fn half(bytes: &[u8], at: usize) -> u16
    requires { at + 2 ≤ length bytes.now }
    ensures { result ≡ half_in bytes.now at }
{
    LittleEndian::read_u16(&bytes[at..])
}

/// The word at byte `at`.
fn word(bytes: &[u8], at: usize) -> u32
    requires { at + 4 ≤ length bytes.now }
    ensures { result ≡ word_in bytes.now at }
{
    LittleEndian::read_u32(&bytes[at..])
}
