use rv32im::BranchKind;

/// What of a unit its forms depend on: the words that do the same wherever they stand. Addresses are those of homes.
#[derive(Clone, Copy)]
pub enum UnitKind {
    /// It runs alike wherever it stands.
    Plain,
    /// An AUIPC that is no site: it leaves `value`, which depends on where it stands.
    Upper {
        rd: u8,
        value: u32,
    },
    /// A branch.
    Branch {
        kind: BranchKind,
        rs1: u8,
        rs2: u8,
        target: u32,
    },
    /// A JAL that does not link.
    Jump {
        target: u32,
    },
    /// A call of one or two words that comes back at `back`, the word in `link`.
    Call {
        target: u32,
        back: u32,
        link: u8,
    },
    /// A call of two words that doesn't come back; its AUIPC writes `register`.
    Tail {
        target: u32,
        register: u8,
    },
    /// A JALR that does not link.
    Indirect,
    /// A JALR that leaves `back` in `link`.
    Linking {
        back: u32,
        link: u8,
        base: u8,
        imm: i32,
    },
    /// EBREAK, or a word that means nothing.
    Halt,
}
