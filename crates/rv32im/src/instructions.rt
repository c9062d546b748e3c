/// One instruction of RV32IM (RISC-V Unprivileged ISA, chapters "RV32I" and "M").
///
/// Registers are numbers below 32. Distances (`off`) and immediates are in bytes and signed;
/// for a shift by an immediate, `imm` is the number of places.
#[derive(Clone, Copy, Debug)]
pub enum Instr {
    /// LUI: `imm`, a 20-bit number, becomes the upper part of `rd`.
    Lui {
        rd: u8,
        imm: u32,
    },
    /// AUIPC: as LUI, with the instruction's own address added.
    Auipc {
        rd: u8,
        imm: u32,
    },
    /// JAL: jumps by `off` and leaves the return address in `rd`.
    Jal {
        rd: u8,
        off: i32,
    },
    /// JALR: jumps to `rs1 + imm` without bit 0, and leaves the return address in `rd`.
    Jalr {
        rd: u8,
        rs1: u8,
        imm: i32,
    },
    /// A conditional branch by `off`.
    Branch {
        kind: BranchKind,
        rs1: u8,
        rs2: u8,
        off: i32,
    },
    /// A load from `rs1 + imm` into `rd`.
    Load {
        kind: LoadKind,
        rd: u8,
        rs1: u8,
        imm: i32,
    },
    /// A store of `rs2` at `rs1 + imm`.
    Store {
        kind: StoreKind,
        rs1: u8,
        rs2: u8,
        imm: i32,
    },
    /// An operation on a register and an immediate.
    OpImm {
        kind: ImmKind,
        rd: u8,
        rs1: u8,
        imm: i32,
    },
    /// An operation on two registers.
    OpReg {
        kind: RegKind,
        rd: u8,
        rs1: u8,
        rs2: u8,
    },
    /// FENCE: `bits` is the word without its opcode and funct3, each bit in its place.
    Fence {
        bits: u32,
    },
    /// FENCE.I: `bits` as for FENCE.
    FenceI {
        bits: u32,
    },
    /// ECALL: a call of the environment.
    Ecall,
    /// EBREAK.
    Ebreak,
}

/// The rows of opcode BRANCH.
#[derive(Clone, Copy, Debug)]
pub enum BranchKind {
    Beq,
    Bne,
    Blt,
    Bge,
    Bltu,
    Bgeu,
}

/// The rows of opcode LOAD.
#[derive(Clone, Copy, Debug)]
pub enum LoadKind {
    Lb,
    Lh,
    Lw,
    Lbu,
    Lhu,
}

/// The rows of opcode STORE.
#[derive(Clone, Copy, Debug)]
pub enum StoreKind {
    Sb,
    Sh,
    Sw,
}

/// The rows of opcode OP-IMM.
#[derive(Clone, Copy, Debug)]
pub enum ImmKind {
    Addi,
    Slti,
    Sltiu,
    Xori,
    Ori,
    Andi,
    Slli,
    Srli,
    Srai,
}

/// The rows of opcode OP, those of the M extension among them.
#[derive(Clone, Copy, Debug)]
pub enum RegKind {
    Add,
    Sub,
    Sll,
    Slt,
    Sltu,
    Xor,
    Srl,
    Sra,
    Or,
    And,
    Mul,
    Mulh,
    Mulhsu,
    Mulhu,
    Div,
    Divu,
    Rem,
    Remu,
}

/// A set of registers: register `k` is in it where bit `k` of `bits` is 1.
#[derive(Clone, Copy)]
pub struct RegSet {
    pub bits: u32,
}
