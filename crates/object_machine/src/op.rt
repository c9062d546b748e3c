use rv32im::{ImmKind, RegKind};

/// A unit by one name for its opcode and its kind, so that one jump leads to what performs it. Signed fields are words. A unit that
/// leads to the next word has a name only if the next unit is of its block or begins another, and it is no site; a branch, only if
/// that holds of it, and the next unit begins a block.
#[derive(Clone, Copy)]
pub(crate) enum Op {
    Lui {
        rd: u8,
        imm: u32,
    },
    Jal {
        rd: u8,
        off: u32,
    },
    Jalr {
        rd: u8,
        rs1: u8,
        imm: u32,
    },
    Beq {
        rs1: u8,
        rs2: u8,
        off: u32,
    },
    Bne {
        rs1: u8,
        rs2: u8,
        off: u32,
    },
    Blt {
        rs1: u8,
        rs2: u8,
        off: u32,
    },
    Bge {
        rs1: u8,
        rs2: u8,
        off: u32,
    },
    Bltu {
        rs1: u8,
        rs2: u8,
        off: u32,
    },
    Bgeu {
        rs1: u8,
        rs2: u8,
        off: u32,
    },
    Lb {
        rd: u8,
        rs1: u8,
        imm: u32,
    },
    Lh {
        rd: u8,
        rs1: u8,
        imm: u32,
    },
    Lw {
        rd: u8,
        rs1: u8,
        imm: u32,
    },
    Lbu {
        rd: u8,
        rs1: u8,
        imm: u32,
    },
    Lhu {
        rd: u8,
        rs1: u8,
        imm: u32,
    },
    Sb {
        rs1: u8,
        rs2: u8,
        imm: u32,
    },
    Sh {
        rs1: u8,
        rs2: u8,
        imm: u32,
    },
    Sw {
        rs1: u8,
        rs2: u8,
        imm: u32,
    },
    Addi {
        rd: u8,
        rs1: u8,
        imm: u32,
    },
    Andi {
        rd: u8,
        rs1: u8,
        imm: u32,
    },
    Slli {
        rd: u8,
        rs1: u8,
        imm: u32,
    },
    Srli {
        rd: u8,
        rs1: u8,
        imm: u32,
    },
    /// The rarer operations with an immediate.
    OpImm {
        kind: ImmKind,
        rd: u8,
        rs1: u8,
        imm: u32,
    },
    Add {
        rd: u8,
        rs1: u8,
        rs2: u8,
    },
    Sub {
        rd: u8,
        rs1: u8,
        rs2: u8,
    },
    Xor {
        rd: u8,
        rs1: u8,
        rs2: u8,
    },
    Or {
        rd: u8,
        rs1: u8,
        rs2: u8,
    },
    And {
        rd: u8,
        rs1: u8,
        rs2: u8,
    },
    Mul {
        rd: u8,
        rs1: u8,
        rs2: u8,
    },
    /// The rarer operations on two registers.
    OpReg {
        kind: RegKind,
        rd: u8,
        rs1: u8,
        rs2: u8,
    },
    /// Any other unit.
    Other,
}
