ghost use Rattle.std.specs.Prelude.{◌≡◌, ◌<◌, ℕ, List, true, false, Some, length, IfOk, IsTrue};
ghost use Rattle.rv32im.specs.declared.instructions.Instr.{Instr};
ghost use Rattle.std.specs.Int.{cast_signed, w32};
ghost use Rattle.object_machine.specs.{declared.units.Prepared.{Prepared}, Landings.{AreLandings}, Units.{unit_in, leads_on}, Ops.{instr_of, IsStraight, IsLast, is_branch, IsNamed, NamedBy, AreOps}};

use crate::landings::{is_unit_at, landing};
use crate::op::Op;
use crate::units::Prepared;
use rv32im::{BranchKind, ImmKind, Instr, LoadKind, RegKind, StoreKind};
use std::alloc::{AllocError, Global};

/// The names of units, where the first landing is that of the address `first`.
pub(crate) fn named_units(
    alloc: Global,
    units: &Vec<Prepared>,
    landings: &Vec<usize>,
    first: u64,
) -> Result<Vec<Op>, AllocError>
    ensures { IfOk result (λ ops. (starts : List ℕ) → AreLandings units.now.items starts landings.now.items → AreOps units.now.items starts ops.items) }
{
    let mut ops = Vec::new(alloc);
    for k in 0..units.len() {
        ops.push(name_of(units, landings, first, k))?;
    }
    Ok(ops)
}

/// The name of the unit at a place.
fn name_of(units: &Vec<Prepared>, landings: &Vec<usize>, first: u64, k: usize) -> Op
    requires { k < length units.now.items }
    ensures { (starts : List ℕ) → AreLandings units.now.items starts landings.now.items → NamedBy units.now.items starts k (instr_of result) }
{
    let straight = is_straight(units, landings, first, k);
    let last = is_last(units, landings, first, k);
    let unit = unit_at(units, k);
    if unit.pair.is_some() {
        return Op::Other;
    }
    let Some(i) = unit.instr else {
        return Op::Other;
    };
    if is_branch(i) && !last {
        return Op::Other;
    }
    if straight {
        straight_name(i)
    } else {
        jump_name(i)
    }
}

/// The unit at a place.
fn unit_at(units: &Vec<Prepared>, k: usize) -> Prepared
    requires { k < length units.now.items }
    ensures { result ≡ unit_in units.now.items k }
{
    units[k]
}

/// Whether the unit at a place is no site, and the next one is of its block or begins another.
fn is_straight(units: &Vec<Prepared>, landings: &Vec<usize>, first: u64, k: usize) -> bool
    requires { k < length units.now.items }
    ensures { IsTrue result → (starts : List ℕ) → AreLandings units.now.items starts landings.now.items → IsStraight units.now.items starts k }
{
    let unit = unit_at(units, k);
    let behind = u64::from(unit.at) + 4;
    if unit.site.is_some() || !is_unit_at(units, k + 1, behind) {
        return false;
    }
    if unit.goes_on {
        return true;
    }
    match landing(landings, units, first, behind) {
        Some(_) => true,
        None => false,
    }
}

/// Whether the unit at a place is straight, and the next one begins a block.
fn is_last(units: &Vec<Prepared>, landings: &Vec<usize>, first: u64, k: usize) -> bool
    requires { k < length units.now.items }
    ensures { IsTrue result → (starts : List ℕ) → AreLandings units.now.items starts landings.now.items → IsLast units.now.items starts k }
{
    if !is_straight(units, landings, first, k) {
        return false;
    }
    match landing(landings, units, first, u64::from(unit_at(units, k).at) + 4) {
        Some(_) => true,
        None => false,
    }
}

/// Whether an instruction is a conditional branch.
fn is_branch(i: Instr) -> bool
    ensures { result ≡ is_branch i }
{
    match i {
        Instr::Branch { .. } => true,
        Instr::Lui { .. } | Instr::Auipc { .. } | Instr::Jal { .. } | Instr::Jalr { .. } => false,
        Instr::Load { .. } | Instr::Store { .. } | Instr::OpImm { .. } | Instr::OpReg { .. } => {
            false
        }
        Instr::Fence { .. } | Instr::FenceI { .. } | Instr::Ecall | Instr::Ebreak => false,
    }
}

/// The name of an instruction that leads to a block.
fn jump_name(i: Instr) -> Op
    ensures { (units : List Prepared) (starts : List ℕ) (k : ℕ) → (leads_on i ≡ false → IsNamed units starts k i) → NamedBy units starts k (instr_of result) }
{
    match i {
        Instr::Jal { rd, off } => Op::Jal {
            rd,
            off: off.cast_unsigned(),
        },
        Instr::Jalr { rd, rs1, imm } => Op::Jalr {
            rd,
            rs1,
            imm: imm.cast_unsigned(),
        },
        Instr::Branch {
            kind,
            rs1,
            rs2,
            off,
        } => branch_name(kind, rs1, rs2, off.cast_unsigned()),
        _ => Op::Other,
    }
}

/// The name of an instruction of a straight unit.
fn straight_name(i: Instr) -> Op
    ensures { (units : List Prepared) (starts : List ℕ) (k : ℕ) → IsNamed units starts k i → NamedBy units starts k (instr_of result) }
{
    match i {
        Instr::Lui { rd, imm } => Op::Lui { rd, imm },
        Instr::Load { kind, rd, rs1, imm } => load_name(kind, rd, rs1, imm.cast_unsigned()),
        Instr::Store {
            kind,
            rs1,
            rs2,
            imm,
        } => store_name(kind, rs1, rs2, imm.cast_unsigned()),
        Instr::OpImm { kind, rd, rs1, imm } => imm_name(kind, rd, rs1, imm.cast_unsigned()),
        Instr::OpReg { kind, rd, rs1, rs2 } => reg_name(kind, rd, rs1, rs2),
        _ => jump_name(i),
    }
}

fn branch_name(kind: BranchKind, rs1: u8, rs2: u8, off: u32) -> Op
    ensures { instr_of result ≡ Some (Instr.Branch kind rs1 rs2 (cast_signed w32 off)) }
{
    match kind {
        BranchKind::Beq => Op::Beq { rs1, rs2, off },
        BranchKind::Bne => Op::Bne { rs1, rs2, off },
        BranchKind::Blt => Op::Blt { rs1, rs2, off },
        BranchKind::Bge => Op::Bge { rs1, rs2, off },
        BranchKind::Bltu => Op::Bltu { rs1, rs2, off },
        BranchKind::Bgeu => Op::Bgeu { rs1, rs2, off },
    }
}

fn load_name(kind: LoadKind, rd: u8, rs1: u8, imm: u32) -> Op
    ensures { instr_of result ≡ Some (Instr.Load kind rd rs1 (cast_signed w32 imm)) }
{
    match kind {
        LoadKind::Lb => Op::Lb { rd, rs1, imm },
        LoadKind::Lh => Op::Lh { rd, rs1, imm },
        LoadKind::Lw => Op::Lw { rd, rs1, imm },
        LoadKind::Lbu => Op::Lbu { rd, rs1, imm },
        LoadKind::Lhu => Op::Lhu { rd, rs1, imm },
    }
}

fn store_name(kind: StoreKind, rs1: u8, rs2: u8, imm: u32) -> Op
    ensures { instr_of result ≡ Some (Instr.Store kind rs1 rs2 (cast_signed w32 imm)) }
{
    match kind {
        StoreKind::Sb => Op::Sb { rs1, rs2, imm },
        StoreKind::Sh => Op::Sh { rs1, rs2, imm },
        StoreKind::Sw => Op::Sw { rs1, rs2, imm },
    }
}

fn imm_name(kind: ImmKind, rd: u8, rs1: u8, imm: u32) -> Op
    ensures { instr_of result ≡ Some (Instr.OpImm kind rd rs1 (cast_signed w32 imm)) }
{
    match kind {
        ImmKind::Addi => Op::Addi { rd, rs1, imm },
        ImmKind::Andi => Op::Andi { rd, rs1, imm },
        ImmKind::Slli => Op::Slli { rd, rs1, imm },
        ImmKind::Srli => Op::Srli { rd, rs1, imm },
        _ => Op::OpImm { kind, rd, rs1, imm },
    }
}

fn reg_name(kind: RegKind, rd: u8, rs1: u8, rs2: u8) -> Op
    ensures { instr_of result ≡ Some (Instr.OpReg kind rd rs1 rs2) }
{
    match kind {
        RegKind::Add => Op::Add { rd, rs1, rs2 },
        RegKind::Sub => Op::Sub { rd, rs1, rs2 },
        RegKind::Xor => Op::Xor { rd, rs1, rs2 },
        RegKind::Or => Op::Or { rd, rs1, rs2 },
        RegKind::And => Op::And { rd, rs1, rs2 },
        RegKind::Mul => Op::Mul { rd, rs1, rs2 },
        _ => Op::OpReg { kind, rd, rs1, rs2 },
    }
}
