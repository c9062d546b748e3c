ghost use Rattle.std.specs.Prelude.{◌≡◌};
ghost use Rattle.code_blocks.specs.{Words.{is_branch, is_jal, is_jalr, is_auipc, links}, Meanings.{is_ebreak, has_meaning}};

use rv32im::{decode, funct3, opcode, rd};

/// Whether a word means an instruction of RV32IM with Zifencei (RISC-V Unprivileged ISA, "RV32/64G
/// Instruction Set Listings").
pub fn has_meaning(word: u32) -> bool
    ensures { result ≡ has_meaning word }
{
    decode(word).is_some()
}

/// Whether a word is BEQ, BNE, BLT, BGE, BLTU or BGEU (RISC-V Unprivileged ISA, "Conditional Branches").
pub fn is_branch(word: u32) -> bool
    ensures { result ≡ is_branch word }
{
    opcode(word) == BRANCH && funct3(word) != 2 && funct3(word) != 3
}

/// Whether a word is JAL (RISC-V Unprivileged ISA, "Unconditional Jumps").
pub fn is_jal(word: u32) -> bool
    ensures { result ≡ is_jal word }
{
    opcode(word) == JAL
}

/// Whether a word is JALR (RISC-V Unprivileged ISA, "Unconditional Jumps").
pub fn is_jalr(word: u32) -> bool
    ensures { result ≡ is_jalr word }
{
    opcode(word) == JALR && funct3(word) == 0
}

/// Whether a word is AUIPC (RISC-V Unprivileged ISA, "Integer Register-Immediate Instructions").
pub fn is_auipc(word: u32) -> bool
    ensures { result ≡ is_auipc word }
{
    opcode(word) == AUIPC
}

/// Whether a word is EBREAK (RISC-V Unprivileged ISA, "Environment Call and Breakpoints").
pub fn is_ebreak(word: u32) -> bool
    ensures { result ≡ is_ebreak word }
{
    word == EBREAK
}

/// Whether a JAL or JALR, or an AUIPC, writes a register other than x0.
pub fn links(word: u32) -> bool
    ensures { result ≡ links word }
{
    rd(word) > 0
}

// Opcodes, and the one word of EBREAK.
const AUIPC: u32 = 0x17;

const BRANCH: u32 = 0x63;

const JALR: u32 = 0x67;

const JAL: u32 = 0x6f;

const EBREAK: u32 = 0x0010_0073;
