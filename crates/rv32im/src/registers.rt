ghost use Rattle.std.specs.Prelude.{ℕ, List, [], ◌∷◌, ◌++◌};
ghost use Rattle.rv32im.specs.{Acts.{without_zero, used, defined}, RegSet.{HasExactly}};

use crate::instructions::{Instr, RegSet};

/// The registers that an instruction reads, x0 left out. ECALL reads x10, x11, x12 and x17.
/// No set has a number above 31.
pub fn uses(i: &Instr) -> RegSet
    ensures { HasExactly result (used i.now) }
{
    match *i {
        Instr::Jalr { rs1, .. } => set_of(&[rs1]),
        Instr::Branch { rs1, rs2, .. } => set_of(&[rs1, rs2]),
        Instr::Load { rs1, .. } => set_of(&[rs1]),
        Instr::Store { rs1, rs2, .. } => set_of(&[rs1, rs2]),
        Instr::OpImm { rs1, .. } => set_of(&[rs1]),
        Instr::OpReg { rs1, rs2, .. } => set_of(&[rs1, rs2]),
        Instr::Ecall => set_of(&[10, 11, 12, 17]),
        Instr::Lui { .. }
        | Instr::Auipc { .. }
        | Instr::Jal { .. }
        | Instr::Fence { .. }
        | Instr::FenceI { .. }
        | Instr::Ebreak => set_of(&[]),
    }
}

/// The registers that an instruction writes, x0 left out. ECALL writes x10.
/// No set has a number above 31.
pub fn defs(i: &Instr) -> RegSet
    ensures { HasExactly result (defined i.now) }
{
    match *i {
        Instr::Lui { rd, .. } => set_of(&[rd]),
        Instr::Auipc { rd, .. } => set_of(&[rd]),
        Instr::Jal { rd, .. } => set_of(&[rd]),
        Instr::Jalr { rd, .. } => set_of(&[rd]),
        Instr::Load { rd, .. } => set_of(&[rd]),
        Instr::OpImm { rd, .. } => set_of(&[rd]),
        Instr::OpReg { rd, .. } => set_of(&[rd]),
        Instr::Ecall => set_of(&[10]),
        Instr::Branch { .. }
        | Instr::Store { .. }
        | Instr::Fence { .. }
        | Instr::FenceI { .. }
        | Instr::Ebreak => set_of(&[]),
    }
}

// The set of these registers, without x0 and without numbers above 31.
fn set_of(registers: &[u8]) -> RegSet
    ensures { HasExactly result (without_zero registers.now) }
{
    let mut set = RegSet { bits: 0 };
    for k in registers {
        set = with_register(set, *k);
    }
    set
}

// The set with one register more, unless that is x0 or no register.
#[tactic(auto, using(crate::proofs::Sets::left_out))]
fn with_register(set: RegSet, k: u8) -> RegSet
    ensures { (ks : List ℕ) → HasExactly set ks → HasExactly result (ks ++ without_zero (k ∷ [])) }
{
    match k {
        0 => set,
        1..=31 => RegSet {
            bits: set.bits | (1 << k),
        },
        _ => set,
    }
}
