ghost use Rattle.std.specs.Prelude.{◌≡◌, IfSome};
ghost use Rattle.flat_machine.specs.Ops.{instr_of};

use crate::op::Op;
use rv32im::{BranchKind, ImmKind, Instr, LoadKind, RegKind, StoreKind};

/// The name of an instruction, if it has one.
pub fn op_of(i: Instr) -> Option<Op>
    ensures { IfSome result (λ op. instr_of op ≡ i) }
{
    Some(match i {
        Instr::Lui { rd, imm } => Op::Lui { rd, imm },
        Instr::Auipc { rd, imm } => Op::Auipc { rd, imm },
        Instr::Jal { rd, off } => Op::Jal { rd, off },
        Instr::Jalr { rd, rs1, imm } => Op::Jalr { rd, rs1, imm },
        Instr::Branch {
            kind,
            rs1,
            rs2,
            off,
        } => branch_op(kind, rs1, rs2, off),
        Instr::Load { kind, rd, rs1, imm } => load_op(kind, rd, rs1, imm),
        Instr::Store {
            kind,
            rs1,
            rs2,
            imm,
        } => store_op(kind, rs1, rs2, imm),
        Instr::OpImm { kind, rd, rs1, imm } => imm_op(kind, rd, rs1, imm),
        Instr::OpReg { kind, rd, rs1, rs2 } => reg_op(kind, rd, rs1, rs2),
        Instr::Fence { .. } | Instr::FenceI { .. } | Instr::Ecall | Instr::Ebreak => return None,
    })
}

fn branch_op(kind: BranchKind, rs1: u8, rs2: u8, off: i32) -> Op
    ensures { instr_of result ≡ Instr.Branch kind rs1 rs2 off }
{
    match kind {
        BranchKind::Beq => Op::Beq { rs1, rs2, off },
        BranchKind::Bne => Op::Bne { rs1, rs2, off },
        BranchKind::Blt => Op::Blt { rs1, rs2, off },
        BranchKind::Bge => Op::Bge { rs1, rs2, off },
        BranchKind::Bltu => Op::Bltu { rs1, rs2, off },
        BranchKind::Bgeu => Op::Bgeu { rs1, rs2, off },
    }
}

fn load_op(kind: LoadKind, rd: u8, rs1: u8, imm: i32) -> Op
    ensures { instr_of result ≡ Instr.Load kind rd rs1 imm }
{
    match kind {
        LoadKind::Lb => Op::Lb { rd, rs1, imm },
        LoadKind::Lh => Op::Lh { rd, rs1, imm },
        LoadKind::Lw => Op::Lw { rd, rs1, imm },
        LoadKind::Lbu => Op::Lbu { rd, rs1, imm },
        LoadKind::Lhu => Op::Lhu { rd, rs1, imm },
    }
}

fn store_op(kind: StoreKind, rs1: u8, rs2: u8, imm: i32) -> Op
    ensures { instr_of result ≡ Instr.Store kind rs1 rs2 imm }
{
    match kind {
        StoreKind::Sb => Op::Sb { rs1, rs2, imm },
        StoreKind::Sh => Op::Sh { rs1, rs2, imm },
        StoreKind::Sw => Op::Sw { rs1, rs2, imm },
    }
}

fn imm_op(kind: ImmKind, rd: u8, rs1: u8, imm: i32) -> Op
    ensures { instr_of result ≡ Instr.OpImm kind rd rs1 imm }
{
    match kind {
        ImmKind::Addi => Op::Addi { rd, rs1, imm },
        ImmKind::Slti => Op::Slti { rd, rs1, imm },
        ImmKind::Sltiu => Op::Sltiu { rd, rs1, imm },
        ImmKind::Xori => Op::Xori { rd, rs1, imm },
        ImmKind::Ori => Op::Ori { rd, rs1, imm },
        ImmKind::Andi => Op::Andi { rd, rs1, imm },
        ImmKind::Slli => Op::Slli { rd, rs1, imm },
        ImmKind::Srli => Op::Srli { rd, rs1, imm },
        ImmKind::Srai => Op::Srai { rd, rs1, imm },
    }
}

fn reg_op(kind: RegKind, rd: u8, rs1: u8, rs2: u8) -> Op
    ensures { instr_of result ≡ Instr.OpReg kind rd rs1 rs2 }
{
    match kind {
        RegKind::Add => Op::Add { rd, rs1, rs2 },
        RegKind::Sub => Op::Sub { rd, rs1, rs2 },
        RegKind::Sll => Op::Sll { rd, rs1, rs2 },
        RegKind::Slt => Op::Slt { rd, rs1, rs2 },
        RegKind::Sltu => Op::Sltu { rd, rs1, rs2 },
        RegKind::Xor => Op::Xor { rd, rs1, rs2 },
        RegKind::Srl => Op::Srl { rd, rs1, rs2 },
        RegKind::Sra => Op::Sra { rd, rs1, rs2 },
        RegKind::Or => Op::Or { rd, rs1, rs2 },
        RegKind::And => Op::And { rd, rs1, rs2 },
        RegKind::Mul => Op::Mul { rd, rs1, rs2 },
        RegKind::Mulh
        | RegKind::Mulhsu
        | RegKind::Mulhu
        | RegKind::Div
        | RegKind::Divu
        | RegKind::Rem
        | RegKind::Remu => Op::OpReg { kind, rd, rs1, rs2 },
    }
}
