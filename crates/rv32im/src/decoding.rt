ghost use Rattle.std.specs.Prelude.{◌≡◌, ◌≢◌, ℤ, MatchOption, IfSome, IfNone};
ghost use Rattle.rv32im.specs.{Fields.{opcode_of, funct3_of}, Table.{Means, MeansNothing, IsInRange, HasImm, IsImmInRange, branch_funct3, load_funct3, store_funct3, imm_funct3, reg_funct3, reg_funct7}};

use crate::fields::{
    b_imm, fence_bits, funct3, funct7, i_imm, j_imm, opcode, rd, rs1, rs2, s_imm, u_imm,
};
use crate::instructions::{BranchKind, ImmKind, Instr, LoadKind, RegKind, StoreKind};

/// The instruction that a word means, None exactly where no row of the table has the word
/// (RISC-V Unprivileged ISA, "RV32/64G Instruction Set Listings", RV32I with M and Zifencei).
// Inlined, since a machine decodes in each step, and acts at once on what it finds.
#[inline(always)]
#[tactic(auto, using(crate::proofs::Meaning::same_instruction))]
pub fn decode(w: u32) -> Option<Instr>
    ensures means { MatchOption result (MeansNothing w) (Means w) }
    ensures range { IfSome result IsInRange }
    // So what `encode` makes of an instruction is decoded to it again.
    ensures only { (i : Instr) → Means w i → result ≡ Some i }
{
    match opcode(w) {
        0x37 => Some(Instr::Lui {
            rd: rd(w),
            imm: u_imm(w),
        }),
        0x17 => Some(Instr::Auipc {
            rd: rd(w),
            imm: u_imm(w),
        }),
        0x6f => Some(Instr::Jal {
            rd: rd(w),
            off: j_imm(w),
        }),
        0x67 => jalr(w),
        0x63 => branch(w),
        0x03 => load(w),
        0x23 => store(w),
        0x13 => op_imm(w),
        0x33 => op_reg(w),
        0x0f => fence(w),
        0x73 => system(w),
        _ => None,
    }
}

// The words of one opcode each, which funct3 and further fields tell apart.

fn jalr(w: u32) -> Option<Instr>
    requires { opcode_of w ≡ 0x67 }
    ensures means { MatchOption result (MeansNothing w) (Means w) }
    ensures range { IfSome result IsInRange }
{
    match funct3(w) {
        0 => Some(Instr::Jalr {
            rd: rd(w),
            rs1: rs1(w),
            imm: i_imm(w),
        }),
        _ => None,
    }
}

fn branch(w: u32) -> Option<Instr>
    requires { opcode_of w ≡ 0x63 }
    ensures means { MatchOption result (MeansNothing w) (Means w) }
    ensures range { IfSome result IsInRange }
{
    let kind = branch_kind(funct3(w))?;
    Some(Instr::Branch {
        kind,
        rs1: rs1(w),
        rs2: rs2(w),
        off: b_imm(w),
    })
}

fn load(w: u32) -> Option<Instr>
    requires { opcode_of w ≡ 0x03 }
    ensures means { MatchOption result (MeansNothing w) (Means w) }
    ensures range { IfSome result IsInRange }
{
    let kind = load_kind(funct3(w))?;
    Some(Instr::Load {
        kind,
        rd: rd(w),
        rs1: rs1(w),
        imm: i_imm(w),
    })
}

fn store(w: u32) -> Option<Instr>
    requires { opcode_of w ≡ 0x23 }
    ensures means { MatchOption result (MeansNothing w) (Means w) }
    ensures range { IfSome result IsInRange }
{
    let kind = store_kind(funct3(w))?;
    Some(Instr::Store {
        kind,
        rs1: rs1(w),
        rs2: rs2(w),
        imm: s_imm(w),
    })
}

fn op_imm(w: u32) -> Option<Instr>
    requires { opcode_of w ≡ 0x13 }
    ensures means { MatchOption result (MeansNothing w) (Means w) }
    ensures range { IfSome result IsInRange }
{
    let (kind, imm) = imm_kind(w)?;
    Some(Instr::OpImm {
        kind,
        rd: rd(w),
        rs1: rs1(w),
        imm,
    })
}

fn op_reg(w: u32) -> Option<Instr>
    requires { opcode_of w ≡ 0x33 }
    ensures means { MatchOption result (MeansNothing w) (Means w) }
    ensures range { IfSome result IsInRange }
{
    let kind = reg_kind(funct7(w), funct3(w))?;
    Some(Instr::OpReg {
        kind,
        rd: rd(w),
        rs1: rs1(w),
        rs2: rs2(w),
    })
}

fn fence(w: u32) -> Option<Instr>
    requires { opcode_of w ≡ 0x0f }
    ensures means { MatchOption result (MeansNothing w) (Means w) }
    ensures range { IfSome result IsInRange }
{
    match funct3(w) {
        0 => Some(Instr::Fence {
            bits: fence_bits(w),
        }),
        1 => Some(Instr::FenceI {
            bits: fence_bits(w),
        }),
        _ => None,
    }
}

fn system(w: u32) -> Option<Instr>
    requires { opcode_of w ≡ 0x73 }
    ensures means { MatchOption result (MeansNothing w) (Means w) }
    ensures range { IfSome result IsInRange }
{
    match w {
        0x0000_0073 => Some(Instr::Ecall),
        0x0010_0073 => Some(Instr::Ebreak),
        _ => None,
    }
}

fn branch_kind(funct3: u32) -> Option<BranchKind>
    ensures none { IfNone result ((k : BranchKind) → funct3 ≢ branch_funct3 k) }
    ensures some { IfSome result (λ k. funct3 ≡ branch_funct3 k) }
{
    match funct3 {
        0 => Some(BranchKind::Beq),
        1 => Some(BranchKind::Bne),
        4 => Some(BranchKind::Blt),
        5 => Some(BranchKind::Bge),
        6 => Some(BranchKind::Bltu),
        7 => Some(BranchKind::Bgeu),
        _ => None,
    }
}

fn load_kind(funct3: u32) -> Option<LoadKind>
    ensures none { IfNone result ((k : LoadKind) → funct3 ≢ load_funct3 k) }
    ensures some { IfSome result (λ k. funct3 ≡ load_funct3 k) }
{
    match funct3 {
        0 => Some(LoadKind::Lb),
        1 => Some(LoadKind::Lh),
        2 => Some(LoadKind::Lw),
        4 => Some(LoadKind::Lbu),
        5 => Some(LoadKind::Lhu),
        _ => None,
    }
}

fn store_kind(funct3: u32) -> Option<StoreKind>
    ensures none { IfNone result ((k : StoreKind) → funct3 ≢ store_funct3 k) }
    ensures some { IfSome result (λ k. funct3 ≡ store_funct3 k) }
{
    match funct3 {
        0 => Some(StoreKind::Sb),
        1 => Some(StoreKind::Sh),
        2 => Some(StoreKind::Sw),
        _ => None,
    }
}

// The kind of an OP-IMM word, with its immediate: a shift's is its places.
fn imm_kind(w: u32) -> Option<(ImmKind, i32)>
    ensures none { IfNone result ((k : ImmKind) (imm : ℤ) → HasImm w k imm → funct3_of w ≢ imm_funct3 k) }
    ensures kind { IfSome result (λ r. funct3_of w ≡ imm_funct3 r.0) }
    ensures imm { IfSome result (λ r. HasImm w r.0 r.1) }
    ensures range { IfSome result (λ r. IsImmInRange r.0 r.1) }
{
    let places = i32::from(rs2(w));
    match (funct3(w), funct7(w)) {
        (0, _) => Some((ImmKind::Addi, i_imm(w))),
        (1, 0x00) => Some((ImmKind::Slli, places)),
        (2, _) => Some((ImmKind::Slti, i_imm(w))),
        (3, _) => Some((ImmKind::Sltiu, i_imm(w))),
        (4, _) => Some((ImmKind::Xori, i_imm(w))),
        (5, 0x00) => Some((ImmKind::Srli, places)),
        (5, 0x20) => Some((ImmKind::Srai, places)),
        (6, _) => Some((ImmKind::Ori, i_imm(w))),
        (7, _) => Some((ImmKind::Andi, i_imm(w))),
        _ => None,
    }
}

fn reg_kind(funct7: u32, funct3: u32) -> Option<RegKind>
    ensures none { IfNone result ((k : RegKind) → funct7 ≡ reg_funct7 k → funct3 ≢ reg_funct3 k) }
    ensures some { IfSome result (λ k. (funct7 ≡ reg_funct7 k) × (funct3 ≡ reg_funct3 k)) }
{
    match (funct7, funct3) {
        (0x00, 0) => Some(RegKind::Add),
        (0x20, 0) => Some(RegKind::Sub),
        (0x00, 1) => Some(RegKind::Sll),
        (0x00, 2) => Some(RegKind::Slt),
        (0x00, 3) => Some(RegKind::Sltu),
        (0x00, 4) => Some(RegKind::Xor),
        (0x00, 5) => Some(RegKind::Srl),
        (0x20, 5) => Some(RegKind::Sra),
        (0x00, 6) => Some(RegKind::Or),
        (0x00, 7) => Some(RegKind::And),
        (0x01, 0) => Some(RegKind::Mul),
        (0x01, 1) => Some(RegKind::Mulh),
        (0x01, 2) => Some(RegKind::Mulhsu),
        (0x01, 3) => Some(RegKind::Mulhu),
        (0x01, 4) => Some(RegKind::Div),
        (0x01, 5) => Some(RegKind::Divu),
        (0x01, 6) => Some(RegKind::Rem),
        (0x01, 7) => Some(RegKind::Remu),
        _ => None,
    }
}
