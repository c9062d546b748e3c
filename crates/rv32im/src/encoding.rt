ghost use Rattle.std.specs.Prelude.{◌≡◌, ℕ, ◌+◌, ◌*◌, ◌/◌, ◌%◌, ◌<◌};
ghost use Rattle.std.specs.Int.{cast_unsigned, w32};
ghost use Rattle.rv32im.specs.Table.{Means, IsInRange, HasImm, IsImmInRange, branch_funct3, load_funct3, store_funct3, imm_funct3, reg_funct3, reg_funct7};

use crate::instructions::{BranchKind, ImmKind, Instr, LoadKind, RegKind, StoreKind};

/// The word that means the instruction
/// (RISC-V Unprivileged ISA, "RV32/64G Instruction Set Listings").
#[tactic(auto, using(crate::proofs::Meaning::same_word))]
pub fn encode(i: &Instr) -> u32
    requires { IsInRange i.now }
    ensures means { Means result i.now }
    // So the word that was decoded to an instruction is made of it again.
    ensures only { (w : ℕ) → w < 4294967296 → Means w i.now → result ≡ w }
{
    joined(i)
}

// The fields of the instruction, joined by its format.
fn joined(i: &Instr) -> u32
    requires { IsInRange i.now }
    ensures { Means result i.now }
{
    match *i {
        Instr::Lui { rd, imm } => u_word(0x37, rd, imm),
        Instr::Auipc { rd, imm } => u_word(0x17, rd, imm),
        Instr::Jal { rd, off } => u_word(0x6f, rd, j_field(off)),
        Instr::Jalr { rd, rs1, imm } => i_word(0x67, rd, 0, rs1, low12(imm)),
        Instr::Branch {
            kind,
            rs1,
            rs2,
            off,
        } => s_word(0x63, branch_code(kind), rs1, rs2, b_field(off)),
        Instr::Load { kind, rd, rs1, imm } => i_word(0x03, rd, load_code(kind), rs1, low12(imm)),
        Instr::Store {
            kind,
            rs1,
            rs2,
            imm,
        } => s_word(0x23, store_code(kind), rs1, rs2, low12(imm)),
        Instr::OpImm { kind, rd, rs1, imm } => op_imm(kind, rd, rs1, imm),
        Instr::OpReg { kind, rd, rs1, rs2 } => {
            let (funct7, funct3) = reg_code(kind);
            i_word(0x33, rd, funct3, rs1, (funct7 << 5) | u32::from(rs2))
        }
        Instr::Fence { bits } => bits + 0x000f,
        Instr::FenceI { bits } => bits + 0x100f,
        Instr::Ecall => 0x0000_0073,
        Instr::Ebreak => 0x0010_0073,
    }
}

// The formats U and J: 20 bits, rd, opcode.
fn u_word(opcode: u32, rd: u8, upper: u32) -> u32
    requires opcode { opcode < 128 }
    requires rd { rd < 32 }
    requires upper { upper < 1048576 }
    ensures { result ≡ (upper * 32 + rd) * 128 + opcode }
{
    (((upper << 5) | u32::from(rd)) << 7) | opcode
}

// The formats I and R: twelve bits, rs1, funct3, rd, opcode.
fn i_word(opcode: u32, rd: u8, funct3: u32, rs1: u8, upper: u32) -> u32
    requires opcode { opcode < 128 }
    requires rd { rd < 32 }
    requires funct3 { funct3 < 8 }
    requires rs1 { rs1 < 32 }
    requires upper { upper < 4096 }
    ensures { result ≡ (((upper * 32 + rs1) * 8 + funct3) * 32 + rd) * 128 + opcode }
{
    let word = (upper << 5) | u32::from(rs1);
    let word = (word << 3) | funct3;
    let word = (word << 5) | u32::from(rd);
    (word << 7) | opcode
}

// The formats S and B: the upper seven of twelve bits, rs2, rs1, funct3, the lower five, opcode.
fn s_word(opcode: u32, funct3: u32, rs1: u8, rs2: u8, twelve: u32) -> u32
    requires opcode { opcode < 128 }
    requires funct3 { funct3 < 8 }
    requires rs1 { rs1 < 32 }
    requires rs2 { rs2 < 32 }
    requires twelve { twelve < 4096 }
    ensures { let upper = twelve / 32 * 32 + rs2 in
        result ≡ (((upper * 32 + rs1) * 8 + funct3) * 32 + twelve % 32) * 128 + opcode }
{
    let upper = ((twelve >> 5) << 5) | u32::from(rs2);
    i_word(opcode, (twelve & 0x1f) as u8, funct3, rs1, upper)
}

// The low twelve bits.
fn low12(imm: i32) -> u32
    ensures { result ≡ cast_unsigned w32 imm % 4096 }
{
    imm.cast_unsigned() & 0xfff
}

// imm[12], imm[10:5], imm[4:1], imm[11]: the order of the B format.
fn b_field(off: i32) -> u32
    ensures { let bits = cast_unsigned w32 off in
        result ≡ ((bits / 4096 % 2 * 64 + bits / 32 % 64) * 16 + bits / 2 % 16) * 2 + bits / 2048 % 2 }
{
    let bits = off.cast_unsigned();
    let upper = (((bits >> 12) & 1) << 6) | ((bits >> 5) & 0x3f);
    let lower = (((bits >> 1) & 0xf) << 1) | ((bits >> 11) & 1);
    (upper << 5) | lower
}

// imm[20], imm[10:1], imm[11], imm[19:12]: the order of the J format.
fn j_field(off: i32) -> u32
    ensures { let bits = cast_unsigned w32 off in
        result ≡ ((bits / 1048576 % 2 * 1024 + bits / 2 % 1024) * 2 + bits / 2048 % 2) * 256
        + bits / 4096 % 256 }
{
    let bits = off.cast_unsigned();
    let upper = (((bits >> 20) & 1) << 10) | ((bits >> 1) & 0x3ff);
    let lower = (((bits >> 11) & 1) << 8) | ((bits >> 12) & 0xff);
    (upper << 9) | lower
}

fn op_imm(kind: ImmKind, rd: u8, rs1: u8, imm: i32) -> u32
    requires { IsInRange (Instr.OpImm kind rd rs1 imm) }
    ensures { Means result (Instr.OpImm kind rd rs1 imm) }
{
    i_word(0x13, rd, imm_code(kind), rs1, imm_field(kind, imm))
}

// The twelve bits of an OP-IMM word: of a shift, funct7 and its places.
fn imm_field(kind: ImmKind, imm: i32) -> u32
    requires { IsImmInRange kind imm }
    ensures bound { result < 4096 }
    ensures field { (w : ℕ) → w / 1048576 % 4096 ≡ result → HasImm w kind imm }
{
    match kind {
        ImmKind::Srai => low12(imm) + 0x400,
        ImmKind::Slli
        | ImmKind::Srli
        | ImmKind::Addi
        | ImmKind::Slti
        | ImmKind::Sltiu
        | ImmKind::Xori
        | ImmKind::Ori
        | ImmKind::Andi => low12(imm),
    }
}

fn branch_code(kind: BranchKind) -> u32
    ensures { result ≡ branch_funct3 kind }
{
    match kind {
        BranchKind::Beq => 0,
        BranchKind::Bne => 1,
        BranchKind::Blt => 4,
        BranchKind::Bge => 5,
        BranchKind::Bltu => 6,
        BranchKind::Bgeu => 7,
    }
}

fn load_code(kind: LoadKind) -> u32
    ensures { result ≡ load_funct3 kind }
{
    match kind {
        LoadKind::Lb => 0,
        LoadKind::Lh => 1,
        LoadKind::Lw => 2,
        LoadKind::Lbu => 4,
        LoadKind::Lhu => 5,
    }
}

fn store_code(kind: StoreKind) -> u32
    ensures { result ≡ store_funct3 kind }
{
    match kind {
        StoreKind::Sb => 0,
        StoreKind::Sh => 1,
        StoreKind::Sw => 2,
    }
}

fn imm_code(kind: ImmKind) -> u32
    ensures { result ≡ imm_funct3 kind }
{
    match kind {
        ImmKind::Addi => 0,
        ImmKind::Slli => 1,
        ImmKind::Slti => 2,
        ImmKind::Sltiu => 3,
        ImmKind::Xori => 4,
        ImmKind::Srli | ImmKind::Srai => 5,
        ImmKind::Ori => 6,
        ImmKind::Andi => 7,
    }
}

// funct7 and funct3.
fn reg_code(kind: RegKind) -> (u32, u32)
    ensures { (result.0 ≡ reg_funct7 kind) × (result.1 ≡ reg_funct3 kind) }
{
    match kind {
        RegKind::Add => (0x00, 0),
        RegKind::Sub => (0x20, 0),
        RegKind::Sll => (0x00, 1),
        RegKind::Slt => (0x00, 2),
        RegKind::Sltu => (0x00, 3),
        RegKind::Xor => (0x00, 4),
        RegKind::Srl => (0x00, 5),
        RegKind::Sra => (0x20, 5),
        RegKind::Or => (0x00, 6),
        RegKind::And => (0x00, 7),
        RegKind::Mul => (0x01, 0),
        RegKind::Mulh => (0x01, 1),
        RegKind::Mulhsu => (0x01, 2),
        RegKind::Mulhu => (0x01, 3),
        RegKind::Div => (0x01, 4),
        RegKind::Divu => (0x01, 5),
        RegKind::Rem => (0x01, 6),
        RegKind::Remu => (0x01, 7),
    }
}
