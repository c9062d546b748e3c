ghost use Rattle.std.specs.Prelude.{◌≡◌, ◌*◌, ◌/◌, pos, ◌*ℤ◌};
ghost use Rattle.rv32im.specs.Acts.{imm_value, reg_value, is_taken, upper_word, quotient, remainder};

use crate::instructions::{BranchKind, ImmKind, RegKind};

// What the machines do in each step is inlined.

/// What an operation of this kind leaves of the word `a` of `rs1` and an immediate; for a shift
/// the low five bits of the immediate are its places
/// (RISC-V Unprivileged ISA, "Integer Register-Immediate Instructions").
#[inline(always)]
pub fn imm_result(kind: ImmKind, a: u32, imm: i32) -> u32
    ensures { result ≡ imm_value kind a imm }
{
    let b = imm.cast_unsigned();
    match kind {
        ImmKind::Addi => a.wrapping_add(b),
        ImmKind::Slti => u32::from(a.cast_signed() < imm),
        ImmKind::Sltiu => u32::from(a < b),
        ImmKind::Xori => a ^ b,
        ImmKind::Ori => a | b,
        ImmKind::Andi => a & b,
        ImmKind::Slli => a << (b % 32),
        ImmKind::Srli => a >> (b % 32),
        ImmKind::Srai => (a.cast_signed() >> (b % 32)).cast_unsigned(),
    }
}

/// What an operation of this kind leaves of the words `a` of `rs1` and `b` of `rs2`
/// (RISC-V Unprivileged ISA, "Integer Register-Register Operations" and the M extension).
#[inline(always)]
pub fn reg_result(kind: RegKind, a: u32, b: u32) -> u32
    ensures { result ≡ reg_value kind a b }
{
    match kind {
        RegKind::Add => a.wrapping_add(b),
        RegKind::Sub => a.wrapping_sub(b),
        RegKind::Sll => a << (b % 32),
        RegKind::Slt => u32::from(a.cast_signed() < b.cast_signed()),
        RegKind::Sltu => u32::from(a < b),
        RegKind::Xor => a ^ b,
        RegKind::Srl => a >> (b % 32),
        RegKind::Sra => (a.cast_signed() >> (b % 32)).cast_unsigned(),
        RegKind::Or => a | b,
        RegKind::And => a & b,
        RegKind::Mul => a.wrapping_mul(b),
        RegKind::Mulh => upper_signed(a.cast_signed(), b.cast_signed()),
        RegKind::Mulhsu => upper_mixed(a.cast_signed(), b),
        RegKind::Mulhu => upper_unsigned(a, b),
        RegKind::Div => divided(a, b),
        RegKind::Divu => a.checked_div(b).unwrap_or(u32::MAX),
        RegKind::Rem => left_over(a, b),
        RegKind::Remu => a.checked_rem(b).unwrap_or(a),
    }
}

/// Whether a branch of this kind is taken on the words `a` of `rs1` and `b` of `rs2`
/// (RISC-V Unprivileged ISA, "Conditional Branches").
#[inline(always)]
pub fn takes(kind: BranchKind, a: u32, b: u32) -> bool
    ensures { result ≡ is_taken kind a b }
{
    match kind {
        BranchKind::Beq => a == b,
        BranchKind::Bne => a != b,
        BranchKind::Blt => a.cast_signed() < b.cast_signed(),
        BranchKind::Bge => a.cast_signed() >= b.cast_signed(),
        BranchKind::Bltu => a < b,
        BranchKind::Bgeu => a >= b,
    }
}

// The upper 32 bits of the product of two signed words.
fn upper_signed(a: i32, b: i32) -> u32
    ensures { result ≡ upper_word (a *ℤ b) }
{
    upper_half(i64::from(a) * i64::from(b))
}

// The upper 32 bits of the product of a signed and an unsigned word.
fn upper_mixed(a: i32, b: u32) -> u32
    ensures { result ≡ upper_word (a *ℤ pos b) }
{
    upper_half(i64::from(a) * i64::from(b))
}

fn upper_half(product: i64) -> u32
    ensures { result ≡ upper_word product }
{
    ((product >> 32) as i32).cast_unsigned()
}

// The upper 32 bits of the product of two unsigned words.
fn upper_unsigned(a: u32, b: u32) -> u32
    ensures { result ≡ a * b / 4294967296 }
{
    ((u64::from(a) * u64::from(b)) >> 32) as u32
}

// Division of signed words, towards zero.
fn divided(a: u32, b: u32) -> u32
    ensures { result ≡ quotient a b }
{
    match (a, b) {
        (_, 0) => u32::MAX,
        (0x8000_0000, u32::MAX) => 0x8000_0000,
        _ => (a.cast_signed() / b.cast_signed()).cast_unsigned(),
    }
}

// What division of signed words leaves, with the sign of the dividend.
fn left_over(a: u32, b: u32) -> u32
    ensures { result ≡ remainder a b }
{
    if b == 0 {
        a
    } else {
        a.cast_signed()
            .wrapping_rem(b.cast_signed())
            .cast_unsigned()
    }
}
