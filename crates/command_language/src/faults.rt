use crate::parts::MixFault;
use board_config::BoardFault;
use certificate_checker::CertFault;
use code_blocks::CodeFault;
use elf_reader::ElfFault;
use hex_image::HexFault;
use object_graph::GraphFault;
use profile_runner::ProfileFault;
use region_former::RegionFault;
use relink_core::AnalyseFault;
use std::alloc::{AllocError, AllocFailed, Global};
use std::fmt;

/// Why a command has no result.
#[derive(Drop)]
pub enum CommandFault {
    /// The words are no command.
    Usage,
    /// The word at this place, counted from 0, names what could not be read.
    Read { place: u32 },
    /// The word at this place names what could not be written; 0 is the standard output.
    Write { place: u32 },
    /// The board file is not one.
    Board(BoardFault),
    /// The ELF file is not one that is read.
    Elf(ElfFault),
    /// The ELF file is not one that can be relinked for the board.
    Analyse(AnalyseFault),
    /// The unit at `pc` of the program, run to measure it, can't be performed where objects have no addresses,
    /// for the reason `why` of `object_machine::Outcome`.
    AddressFault { pc: u32, why: u32 },
    /// The text is that of no certificate.
    Certificate(CertFault),
    /// The certificate's choice is not feasible, or gains less than 0.
    BadChoice,
    /// The tree of this side of the certificate (0 without overlay, 1 with overlay) fails first at this node.
    WrongTree { side: u32, node: u32 },
    /// The text is not one in Intel HEX.
    Hex(HexFault),
    /// The line of a mix that begins at this byte is the first to break a rule.
    BadMix { at: u64 },
    /// What was compared differs first at this place.
    Differs { at: u64 },
    /// The unit at `pc` of the program, run beside its result, can't be performed where objects have no addresses,
    /// for the reason `why` of `object_machine::Outcome`.
    SourceFault { pc: u32, why: u32 },
    /// No memory was left.
    Memory,
}

impl CommandFault {
    ghost use Rattle.std.specs.Prelude.{◌≡◌, IfOk, string_bytes};
    ghost use Rattle.command_language.specs.FaultLine.{plain_parts, parts_of, status_of, fault_line};

    /// The exit status.
    pub fn status(&self) -> u8
        ensures { result ≡ status_of self.now }
    {
        self.parts().status
    }

    /// The fault line, with its newline.
    pub fn line(&self, alloc: Global) -> Result<String, AllocError>
        ensures { IfOk result (λ text. string_bytes text ≡ fault_line self.now) }
    {
        let parts = self.parts();
        format!(in alloc; "{parts}\n")
    }

    fn parts(&self) -> LineParts<'_>
        ensures { plain_parts result ≡ parts_of self.now }
    {
        match self {
            CommandFault::Usage => LineParts::new(1, "usage", 0, 0),
            CommandFault::Read { place } => LineParts::new(2, "read", *place, 0),
            CommandFault::Write { place } => LineParts::new(3, "write", *place, 0),
            CommandFault::Board(fault) => LineParts::of_board(fault),
            CommandFault::Elf(fault) => LineParts::of_elf(fault),
            CommandFault::Analyse(fault) => LineParts::of_analysis(fault),
            CommandFault::AddressFault { pc, why } => LineParts::new(8, "address-fault", *pc, *why),
            CommandFault::Certificate(fault) => LineParts::of_certificate(fault),
            CommandFault::BadChoice => LineParts::new(10, "bad-choice", 0, 0),
            CommandFault::WrongTree { side, node } => LineParts::new(10, "wrong", *side, *node),
            CommandFault::Hex(fault) => LineParts::of_hex(fault),
            CommandFault::BadMix { at } => LineParts::of_place(13, "bad-mix", *at),
            CommandFault::Differs { at } => LineParts::of_place(11, "differs", *at),
            CommandFault::SourceFault { pc, why } => LineParts::new(12, "address-fault", *pc, *why),
            CommandFault::Memory => LineParts::new(9, "memory", 0, 0),
        }
    }
}

impl From<AllocError> for CommandFault {
    ghost use Rattle.std.specs.Prelude.{◌≡◌};
    ghost use Rattle.command_language.specs.declared.faults.CommandFault.TheVariants as command_fault;

    ghost from_gives = { λ _ fault. fault ≡ command_fault.Memory };

    fn from(_error: AllocError) -> CommandFault {
        CommandFault::Memory
    }
}

impl<T: Drop> From<AllocFailed<T>> for CommandFault {
    ghost use Rattle.std.specs.Prelude.{◌≡◌};
    ghost use Rattle.command_language.specs.declared.faults.CommandFault.TheVariants as command_fault;

    ghost from_gives = { λ _ fault. fault ≡ command_fault.Memory };

    fn from(_error: AllocFailed<T>) -> CommandFault {
        CommandFault::Memory
    }
}

impl From<BoardFault> for CommandFault {
    ghost use Rattle.std.specs.Prelude.{◌≡◌};
    ghost use Rattle.command_language.specs.FaultLine.{board_command_fault};

    ghost from_gives = { λ fault command_fault. command_fault ≡ board_command_fault fault };

    fn from(fault: BoardFault) -> CommandFault {
        match fault {
            BoardFault::Memory => CommandFault::Memory,
            fault => CommandFault::Board(fault),
        }
    }
}

impl From<ElfFault> for CommandFault {
    ghost use Rattle.std.specs.Prelude.{◌≡◌};
    ghost use Rattle.command_language.specs.FaultLine.{elf_command_fault};

    ghost from_gives = { λ fault command_fault. command_fault ≡ elf_command_fault fault };

    fn from(fault: ElfFault) -> CommandFault {
        match fault {
            ElfFault::Memory => CommandFault::Memory,
            fault => CommandFault::Elf(fault),
        }
    }
}

impl From<AnalyseFault> for CommandFault {
    ghost use Rattle.std.specs.Prelude.{◌≡◌};
    ghost use Rattle.command_language.specs.FaultLine.{analyse_command_fault};

    ghost from_gives = { λ fault command_fault. command_fault ≡ analyse_command_fault fault };

    fn from(fault: AnalyseFault) -> CommandFault {
        match fault {
            AnalyseFault::Memory => CommandFault::Memory,
            fault => CommandFault::Analyse(fault),
        }
    }
}

impl From<ProfileFault> for CommandFault {
    ghost use Rattle.std.specs.Prelude.{◌≡◌};
    ghost use Rattle.command_language.specs.FaultLine.{profile_command_fault};

    ghost from_gives = { λ fault command_fault. command_fault ≡ profile_command_fault fault };

    fn from(fault: ProfileFault) -> CommandFault {
        match fault {
            ProfileFault::AddressFault { pc, why } => CommandFault::AddressFault { pc, why },
            ProfileFault::Memory => CommandFault::Memory,
        }
    }
}

impl From<CertFault> for CommandFault {
    ghost use Rattle.std.specs.Prelude.{◌≡◌};
    ghost use Rattle.command_language.specs.FaultLine.{cert_command_fault};

    ghost from_gives = { λ fault command_fault. command_fault ≡ cert_command_fault fault };

    fn from(fault: CertFault) -> CommandFault {
        match fault {
            CertFault::Memory => CommandFault::Memory,
            fault => CommandFault::Certificate(fault),
        }
    }
}

impl From<HexFault> for CommandFault {
    ghost use Rattle.std.specs.Prelude.{◌≡◌};
    ghost use Rattle.command_language.specs.FaultLine.{hex_command_fault};

    ghost from_gives = { λ fault command_fault. command_fault ≡ hex_command_fault fault };

    fn from(fault: HexFault) -> CommandFault {
        match fault {
            HexFault::Memory => CommandFault::Memory,
            fault => CommandFault::Hex(fault),
        }
    }
}

impl From<MixFault> for CommandFault {
    ghost use Rattle.std.specs.Prelude.{◌≡◌};
    ghost use Rattle.command_language.specs.FaultLine.{mix_command_fault};

    ghost from_gives = { λ fault command_fault. command_fault ≡ mix_command_fault fault };

    fn from(fault: MixFault) -> CommandFault {
        match fault {
            MixFault::BadMix { at } => CommandFault::BadMix { at },
            MixFault::Memory => CommandFault::Memory,
        }
    }
}

/// The parts of a fault line, of which the name is there only for some faults.
#[derive(Clone, Copy)]
struct LineParts<'a> {
    status: u8,
    word: &'static str,
    first: u64,
    second: u32,
    name: Option<&'a str>,
}

impl<'a> LineParts<'a> {
    ghost use Rattle.std.specs.Prelude.{◌≡◌};
    ghost use Rattle.board_config.specs.Faults.{plain_fault};
    ghost use Rattle.command_language.specs.FaultLine.{parts, named_parts, plain_parts, board_parts, elf_parts, graph_parts, code_parts, analyse_parts, cert_parts, hex_parts, region_parts};
    ghost use Rattle.region_former.specs.Faults as region;

    fn new(status: u8, word: &'static str, first: u32, second: u32) -> LineParts<'a>
        ensures { plain_parts result ≡ parts status word.entry.now first second }
    {
        LineParts {
            status,
            word,
            first: u64::from(first),
            second,
            name: None,
        }
    }

    fn named(status: u8, word: &'static str, name: &'a str) -> LineParts<'a>
        ensures { plain_parts result ≡ named_parts status word.entry.now name.now }
    {
        LineParts {
            status,
            word,
            first: 0,
            second: 0,
            name: Some(name),
        }
    }

    /// A place of a text or an output, which may be long.
    fn of_place(status: u8, word: &'static str, at: u64) -> LineParts<'a>
        ensures { plain_parts result ≡ parts status word.entry.now at 0 }
    {
        LineParts {
            status,
            word,
            first: at,
            second: 0,
            name: None,
        }
    }

    fn of_board(fault: &'a BoardFault) -> LineParts<'a>
        ensures { plain_parts result ≡ board_parts (plain_fault fault.now) }
    {
        match fault {
            BoardFault::NotToml => LineParts::new(4, "not-toml", 0, 0),
            BoardFault::Missing { key } => LineParts::new(4, "missing", *key, 0),
            BoardFault::WrongType { key } => LineParts::new(4, "wrong-type", *key, 0),
            BoardFault::OutOfRange { key } => LineParts::new(4, "out-of-range", *key, 0),
            BoardFault::UnknownKey { name } => LineParts::named(4, "unknown-key", name.as_str()),
            BoardFault::Memory => LineParts::new(9, "memory", 0, 0),
        }
    }

    fn of_elf(fault: &ElfFault) -> LineParts<'a>
        ensures { plain_parts result ≡ elf_parts fault.now }
    {
        match fault {
            ElfFault::TooShort { need, have } => LineParts::new(5, "too-short", *need, *have),
            ElfFault::NotElf { at } => LineParts::new(5, "not-elf", *at, 0),
            ElfFault::WrongKind { field, value } => LineParts::new(5, "wrong-kind", *field, *value),
            ElfFault::OutOfFile { table, index } => LineParts::new(
                5,
                "out-of-file",
                *table,
                *index,
            ),
            ElfFault::BadIndex { table, index } => LineParts::new(5, "bad-index", *table, *index),
            ElfFault::Unsupported { index, kind } => LineParts::new(
                6,
                "unsupported",
                *index,
                *kind,
            ),
            ElfFault::OverLimit { what, count } => LineParts::new(5, "over-limit", *what, *count),
            ElfFault::Compressed { section } => LineParts::new(5, "compressed", *section, 0),
            ElfFault::Overlap { first, second } => LineParts::new(5, "overlap", *first, *second),
            ElfFault::Memory => LineParts::new(9, "memory", 0, 0),
        }
    }

    fn of_analysis(fault: &'a AnalyseFault) -> LineParts<'a>
        ensures { plain_parts result ≡ analyse_parts fault.now }
    {
        match fault {
            AnalyseFault::Elf(fault) => LineParts::of_elf(fault),
            AnalyseFault::Graph(fault) => LineParts::of_graph(fault),
            AnalyseFault::PatchTooSmall { need, have } => LineParts::new(
                7,
                "patch-too-small",
                *need,
                *have,
            ),
            AnalyseFault::Code(fault) => LineParts::of_code(fault),
            AnalyseFault::Region(fault) => LineParts::of_regions(fault),
            AnalyseFault::Memory => LineParts::new(9, "memory", 0, 0),
        }
    }

    fn of_graph(fault: &GraphFault) -> LineParts<'a>
        ensures { plain_parts result ≡ graph_parts fault.now }
    {
        match fault {
            GraphFault::SpmOverlap { segment } => LineParts::new(7, "spm-overlap", *segment, 0),
            GraphFault::PatchOverlap { segment } => LineParts::new(7, "patch-overlap", *segment, 0),
            GraphFault::PatchFar { span } => LineParts::new(7, "patch-far", *span, 0),
            GraphFault::SpmOverlapsPatch => LineParts::new(7, "spm-meets-patch", 0, 0),
            GraphFault::SpmAtZero => LineParts::new(7, "spm-at-zero", 0, 0),
            GraphFault::NoArea { segment } => LineParts::new(7, "no-area", *segment, 0),
            GraphFault::TooManyObjects { count } => LineParts::new(
                7,
                "too-many-objects",
                *count,
                0,
            ),
            GraphFault::Memory => LineParts::new(9, "memory", 0, 0),
        }
    }

    fn of_code(fault: &CodeFault) -> LineParts<'a>
        ensures { plain_parts result ≡ code_parts fault.now }
    {
        match fault {
            CodeFault::NoText => LineParts::new(5, "no-text", 0, 0),
            CodeFault::EntryNotLeader => LineParts::new(5, "entry-not-leader", 0, 0),
            CodeFault::TooManyBlocks { count } => LineParts::new(5, "too-many-blocks", *count, 0),
            CodeFault::Memory => LineParts::new(9, "memory", 0, 0),
        }
    }

    fn of_certificate(fault: &CertFault) -> LineParts<'a>
        ensures { plain_parts result ≡ cert_parts fault.now }
    {
        match fault {
            CertFault::BadHead { at } => LineParts::new(10, "bad-head", *at, 0),
            CertFault::Truncated { at } => LineParts::new(10, "truncated", *at, 0),
            CertFault::BadNode { at } => LineParts::new(10, "bad-node", *at, 0),
            CertFault::TooDeep { at } => LineParts::new(10, "too-deep", *at, 0),
            CertFault::Trailing { at } => LineParts::new(10, "trailing", *at, 0),
            CertFault::Memory => LineParts::new(9, "memory", 0, 0),
        }
    }

    fn of_regions(fault: &'a RegionFault) -> LineParts<'a>
        ensures { plain_parts result ≡ region_parts (region.plain_fault fault.now) }
    {
        match fault {
            RegionFault::UnknownFunction { name } => LineParts::named(
                5,
                "unknown-function",
                name.as_str(),
            ),
            RegionFault::TwoRegions { name } => LineParts::named(5, "two-regions", name.as_str()),
            RegionFault::Memory => LineParts::new(9, "memory", 0, 0),
        }
    }

    fn of_hex(fault: &HexFault) -> LineParts<'a>
        ensures { plain_parts result ≡ hex_parts fault.now }
    {
        match fault {
            HexFault::BadRecord { line } => LineParts::new(14, "bad-record", *line, 0),
            HexFault::BadCheck { line } => LineParts::new(14, "bad-check", *line, 0),
            HexFault::BadKind { line, kind } => LineParts::new(14, "bad-kind", *line, *kind),
            HexFault::Twice { line } => LineParts::new(14, "twice", *line, 0),
            HexFault::NoEnd { lines } => LineParts::new(14, "no-end", *lines, 0),
            HexFault::Trailing { line } => LineParts::new(14, "trailing", *line, 0),
            HexFault::Memory => LineParts::new(9, "memory", 0, 0),
        }
    }
}

impl fmt::Display for LineParts<'_> {
    ghost use Rattle.std.specs.Prelude.{Some};
    ghost use Rattle.command_language.specs.FaultLine.{plain_parts, parts_text};

    ghost output = { λ p. Some (parts_text (plain_parts p)) };

    fn fmt<W: fmt::Write>(&self, f: &mut fmt::Formatter<W>) -> fmt::Result {
        let status = self.status;
        let word = self.word;
        let first = self.first;
        let second = self.second;
        write!(f, "error {status} {word} {first} {second}")?;
        match self.name {
            Some(name) => write!(f, " {name}"),
            None => Ok(()),
        }
    }
}
