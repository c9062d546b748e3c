// The instructions that take an address in parts
// (RISC-V Unprivileged ISA, "RV32I" and "Immediate Encoding Variants").
ghost use Rattle.std.specs.Prelude.{◌≡◌, ◌%◌, ◌==◌, ◌&&◌, ◌||◌};
ghost use Rattle.rv32im.specs.Fields.{opcode_of, funct3_of};
ghost use Rattle.object_graph.specs.{Rewritable.{is_addi, is_load_word, is_store_word, i_low, s_low, u_high, takes_low_i, takes_low_s}, Lists.{form_part}};

use elf_reader::{R_RISCV_LO12_I, R_RISCV_LO12_S, R_RISCV_PCREL_LO12_I, R_RISCV_PCREL_LO12_S};
use rv32im::{funct3, opcode};

/// The opcode of LUI.
pub(crate) const LUI: u32 = 0x37;

/// The opcode of AUIPC.
pub(crate) const AUIPC: u32 = 0x17;

const OP_IMM: u32 = 0x13;

const LOAD: u32 = 0x03;

const STORE: u32 = 0x23;

/// In place of twelve bits, where an instruction takes none.
pub(crate) const NO_PART: u32 = 4096;

/// The immediate of a U-type instruction, as 20 bits.
fn u_high(word: u32) -> u32
    ensures { result ≡ u_high word }
{
    word >> 12
}

/// The immediate of an I-type instruction, as 12 bits.
fn i_low(word: u32) -> u32
    ensures { result ≡ i_low word }
{
    word >> 20
}

/// The immediate of an S-type instruction, as 12 bits.
fn s_low(word: u32) -> u32
    ensures { result ≡ s_low word }
{
    ((word >> 25) << 5) | ((word >> 7) & 0x1f)
}

/// A U-type instruction of an opcode, LUI or AUIPC, with this upper part.
pub(crate) fn has_upper(word: u32, major: u32, upper: u32) -> bool
    ensures { result ≡ (opcode_of word == major) && (u_high word == upper) }
{
    opcode(word) == major && u_high(word) == upper
}

/// ADDI.
fn is_addi(word: u32) -> bool
    ensures { result ≡ is_addi word }
{
    opcode(word) == OP_IMM && funct3(word) == 0
}

/// LB, LH, LW, LBU and LHU.
fn is_load(word: u32) -> bool
    ensures { result ≡ is_load_word word }
{
    opcode(word) == LOAD && (funct3(word) < 3 || funct3(word) == 4 || funct3(word) == 5)
}

/// SB, SH and SW.
fn is_store(word: u32) -> bool
    ensures { result ≡ is_store_word word }
{
    opcode(word) == STORE && funct3(word) < 3
}

/// ADDI or a load that takes the low twelve bits of `address`.
fn takes_low_i(word: u32, address: u32) -> bool
    ensures { result ≡ takes_low_i word address }
{
    (is_addi(word) || is_load(word)) && i_low(word) == address % 4096
}

/// A store that takes the low twelve bits of `address`.
fn takes_low_s(word: u32, address: u32) -> bool
    ensures { result ≡ takes_low_s word address }
{
    is_store(word) && s_low(word) == address % 4096
}

/// The instruction takes the low twelve bits of `address`, in the form of the relocation's kind.
pub(crate) fn takes_low(word: u32, kind: u32, address: u32) -> bool
    ensures { result ≡ ((kind == 27) && takes_low_i word address || (kind == 28) && takes_low_s word address) }
{
    kind == R_RISCV_LO12_I && takes_low_i(word, address)
        || kind == R_RISCV_LO12_S && takes_low_s(word, address)
}

/// The twelve bits that the instruction takes in the form of the kind of a pair's low relocation.
pub(crate) fn form_part(word: u32, kind: u32) -> u32
    ensures { result ≡ form_part word kind }
{
    if kind == R_RISCV_PCREL_LO12_I && (is_addi(word) || is_load(word)) {
        i_low(word)
    } else if kind == R_RISCV_PCREL_LO12_S && is_store(word) {
        s_low(word)
    } else {
        NO_PART
    }
}
