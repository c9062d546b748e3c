ghost use Rattle.std.specs.Prelude.{◌≡◌, ◌*◌};
ghost use Rattle.rv32im.specs.{Words.{plus, offset}, Fields.{u_immediate, i_immediate, b_immediate, j_immediate}};

use rv32im::{b_imm, i_imm, j_imm, u_imm};

/// Where a branch that stands at `address` goes when it is taken (RISC-V Unprivileged ISA, "Conditional
/// Branches").
pub fn branch_target(address: u32, word: u32) -> u32
    ensures { result ≡ offset address (b_immediate word) }
{
    address.wrapping_add_signed(b_imm(word))
}

/// Where a JAL that stands at `address` goes (RISC-V Unprivileged ISA, "Unconditional Jumps").
pub fn jal_target(address: u32, word: u32) -> u32
    ensures { result ≡ offset address (j_immediate word) }
{
    address.wrapping_add_signed(j_imm(word))
}

/// Where the AUIPC `first` at `address` and the JALR `second` behind it go, if that uses what the AUIPC
/// makes. Bit 0, which JALR clears, is kept.
pub fn pair_target(address: u32, first: u32, second: u32) -> u32
    ensures { result ≡ offset (plus address (4096 * u_immediate first)) (i_immediate second) }
{
    let base = address.wrapping_add(u_imm(first) << 12);
    base.wrapping_add_signed(i_imm(second))
}
