//! Words of RV32I instructions (RISC-V manual, "RV32I Base Integer Instruction Set").
ghost use Rattle.std.specs.Prelude.{◌≡◌, ℕ, ◌<◌, ◌≤◌};
ghost use Rattle.workload_gen.specs.Workload as word;

use rv32im::hi20;

/// `lui rd, %hi(a)`.
pub(crate) fn lui(rd: u32, a: u32) -> u32
    requires { rd < 32 }
    ensures { result ≡ word.lui rd a }
{
    (hi20(a) << 12) + (rd << 7) + 0x37
}

/// `addi rd, rs, imm`, with the low twelve bits of `imm`.
pub(crate) fn addi(rd: u32, rs: u32, imm: u32) -> u32
    requires rd { rd < 32 }
    requires rs { rs < 32 }
    ensures { result ≡ word.addi rd rs imm }
{
    ((imm & 0xfff) << 20) + (rs << 15) + (rd << 7) + 0x13
}

/// `jal rd` to a place `distance` bytes ahead, of 0 to 2^20.
pub(crate) fn jal(rd: u32, distance: u32) -> u32
    requires { rd < 32 }
    ensures { result ≡ word.jal rd distance }
{
    let low = (distance >> 1) & 0x3ff;
    let middle = (distance >> 11) & 1;
    let high = (distance >> 12) & 0xff;
    (low << 21) + (middle << 20) + (high << 12) + (rd << 7) + 0x6f
}

/// `bne rs1, rs2` to a place `distance` bytes back, of 2 to 4,096.
pub(crate) fn bne_back(rs1: u32, rs2: u32, distance: u32) -> u32
    requires rs1 { rs1 < 32 }
    requires rs2 { rs2 < 32 }
    requires distance { distance ≤ 4096 }
    ensures { result ≡ word.bne_back rs1 rs2 distance }
{
    let offset = 0x2000 - distance;
    let upper = (((offset >> 12) & 1) << 31) + (((offset >> 5) & 0x3f) << 25);
    let lower = (((offset >> 1) & 0xf) << 8) + (((offset >> 11) & 1) << 7);
    upper + (rs2 << 20) + (rs1 << 15) + (1 << 12) + lower + 0x63
}

/// `lw rd, 0(rs)`.
pub(crate) fn lw(rd: u32, rs: u32) -> u32
    requires rd { rd < 32 }
    requires rs { rs < 32 }
    ensures { result ≡ word.lw rd rs }
{
    (rs << 15) + (2 << 12) + (rd << 7) + 0x03
}

/// `sw rs2, 0(rs1)`.
pub(crate) fn sw(rs2: u32, rs1: u32) -> u32
    requires rs2 { rs2 < 32 }
    requires rs1 { rs1 < 32 }
    ensures { result ≡ word.sw rs2 rs1 }
{
    (rs2 << 20) + (rs1 << 15) + (2 << 12) + 0x23
}

/// `add rd, rs1, rs2`.
pub(crate) fn add(rd: u32, rs1: u32, rs2: u32) -> u32
    requires rd { rd < 32 }
    requires rs1 { rs1 < 32 }
    requires rs2 { rs2 < 32 }
    ensures { result ≡ word.add rd rs1 rs2 }
{
    (rs2 << 20) + (rs1 << 15) + (rd << 7) + 0x33
}
