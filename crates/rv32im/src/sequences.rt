ghost use Rattle.std.specs.Prelude.{◌≡◌, All, IfOk};
ghost use Rattle.rv32im.specs.{Words.{upper_half}, Table.{IsInRange}, Sequences.{load_immediate, jump_absolute, distance, inverse, MeanAll}};

use crate::encoding::encode;
use crate::instructions::{BranchKind, ImmKind, Instr};
use crate::words::{hi20, lo12};
use std::alloc::{AllocError, Global};

/// `lui rd` with the upper part of a word, so that ADDI with its low part makes it.
pub fn lui(rd: u8, word: u32) -> Instr
    ensures { result ≡ Instr.Lui rd (upper_half word) }
{
    Instr::Lui {
        rd,
        imm: hi20(word),
    }
}

/// `addi rd, rs1, imm`.
pub fn addi(rd: u8, rs1: u8, imm: i32) -> Instr
    ensures { result ≡ Instr.OpImm ImmKind.Addi rd rs1 imm }
{
    Instr::OpImm {
        kind: ImmKind::Addi,
        rd,
        rs1,
        imm,
    }
}

/// `li rd, word`: LUI and ADDI (RISC-V Assembly Programmer's Manual, "Load Immediate").
pub fn load_immediate(rd: u8, word: u32) -> [Instr; 2]
    ensures { result ≡ load_immediate rd word }
{
    [lui(rd, word), addi(rd, rd, lo12(word))]
}

/// A jump to any address by a register, which is written.
pub fn jump_absolute(temporary: u8, target: u32) -> [Instr; 2]
    ensures { result ≡ jump_absolute temporary target }
{
    let jump = Instr::Jalr {
        rd: 0,
        rs1: temporary,
        imm: lo12(target),
    };
    [lui(temporary, target), jump]
}

/// The signed distance in bytes from one address to another, modulo 2^32.
pub fn distance(at: u32, to: u32) -> i32
    ensures { result ≡ distance at to }
{
    to.wrapping_sub(at).cast_signed()
}

/// `j to`, at an address: a JAL that doesn't link.
pub fn jump(at: u32, to: u32) -> Instr
    ensures { result ≡ Instr.Jal 0 (distance at to) }
{
    Instr::Jal {
        rd: 0,
        off: distance(at, to),
    }
}

/// The branch that is taken just where another is not.
pub fn inverse(kind: BranchKind) -> BranchKind
    ensures { result ≡ inverse kind }
{
    match kind {
        BranchKind::Beq => BranchKind::Bne,
        BranchKind::Bne => BranchKind::Beq,
        BranchKind::Blt => BranchKind::Bge,
        BranchKind::Bge => BranchKind::Blt,
        BranchKind::Bltu => BranchKind::Bgeu,
        BranchKind::Bgeu => BranchKind::Bltu,
    }
}

/// The words that mean these instructions.
#[tactic(auto, using(crate::proofs::SequenceLemmas::mean_more))]
pub fn encode_all(alloc: Global, code: &[Instr]) -> Result<Vec<u32>, AllocError>
    requires { All IsInRange code.now }
    ensures { IfOk result (λ words. MeanAll words.items code.now) }
{
    let mut words = Vec::new(alloc);
    for instr in code {
        words.push(encode(instr))?;
    }
    Ok(words)
}
