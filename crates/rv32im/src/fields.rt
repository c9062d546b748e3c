// The fields of an instruction word, by shifts and masks
// (RISC-V Unprivileged ISA, "Base Instruction Formats").
ghost use Rattle.std.specs.Prelude.{◌≡◌};
ghost use Rattle.rv32im.specs.Fields.{opcode_of, rd_of, funct3_of, rs1_of, rs2_of, funct7_of, u_immediate, i_immediate, s_immediate, b_immediate, j_immediate, fence_bits_of};

use crate::words::sext;

/// The opcode of a word.
pub fn opcode(w: u32) -> u32
    ensures { result ≡ opcode_of w }
{
    w & 0x7f
}

/// The register that a word writes.
pub fn rd(w: u32) -> u8
    ensures { result ≡ rd_of w }
{
    ((w >> 7) & 0x1f) as u8
}

/// funct3 of a word.
pub fn funct3(w: u32) -> u32
    ensures { result ≡ funct3_of w }
{
    (w >> 12) & 7
}

/// The first register that a word reads.
pub fn rs1(w: u32) -> u8
    ensures { result ≡ rs1_of w }
{
    ((w >> 15) & 0x1f) as u8
}

pub(crate) fn rs2(w: u32) -> u8
    ensures { result ≡ rs2_of w }
{
    ((w >> 20) & 0x1f) as u8
}

pub(crate) fn funct7(w: u32) -> u32
    ensures { result ≡ funct7_of w }
{
    w >> 25
}

/// The immediate of format U, as 20 bits.
pub fn u_imm(w: u32) -> u32
    ensures { result ≡ u_immediate w }
{
    w >> 12
}

/// The immediate of format I.
pub fn i_imm(w: u32) -> i32
    ensures { result ≡ i_immediate w }
{
    w.cast_signed() >> 20
}

pub(crate) fn s_imm(w: u32) -> i32
    ensures { result ≡ s_immediate w }
{
    sext((w >> 25 << 5) | ((w >> 7) & 0x1f), 12).cast_signed()
}

/// The immediate of format B.
pub fn b_imm(w: u32) -> i32
    ensures { result ≡ b_immediate w }
{
    let top = ((w >> 31) << 1) | ((w >> 7) & 1);
    let low = (((w >> 25) & 0x3f) << 4) | ((w >> 8) & 0xf);
    sext(((top << 10) | low) << 1, 13).cast_signed()
}

/// The immediate of format J.
pub fn j_imm(w: u32) -> i32
    ensures { result ≡ j_immediate w }
{
    let top = ((w >> 31) << 8) | ((w >> 12) & 0xff);
    let low = (((w >> 20) & 1) << 10) | ((w >> 21) & 0x3ff);
    sext(((top << 11) | low) << 1, 21).cast_signed()
}

pub(crate) fn fence_bits(w: u32) -> u32
    ensures { result ≡ fence_bits_of w }
{
    (((w >> 15) << 8) | ((w >> 7) & 0x1f)) << 7
}
